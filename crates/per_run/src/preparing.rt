//! The disk that a run which stays starts on: where it is empty, it is formatted first.

ghost use Rattle.std.specs.Prelude.{◌≡◌, IfOk, IsErrOf, IsTrue, OnErr, OnOk, true, false};
ghost use Rattle.disk_model.specs.Medium.{Elapses, OnlyReads};
ghost use Rattle.per_base.specs.Causes.{Rose};
ghost use Rattle.per_runtime.specs.Memories.{IsRuntime, memory_of};
ghost use Rattle.per_run.specs.Serves.{HasNoBytes};
ghost use Rattle.per_run.specs.Serving.{IsExactly, IsReadied, IsUnready};

use crate::generating::start_formatted;
use deploy::Stop;
use disk_model::{Disk, DiskFailed};
use per_runtime::{Runtime, start};
use std::alloc::Global;

/// How many files the applications of a disk have.
const FILES: u32 = 32_768;

/// Starts the runtime, on a disk that is formatted first where no file of it has a byte.
///
/// # Errors
///
/// `Device` where the disk fails, and `OutOfMemory`.
pub fn prepare<D: Disk>(alloc: Global, disk: &mut D) -> Result<Runtime, Stop>
    // What is in memory is in use on the disk.
    ensures memory { IfOk result (IsRuntime D.told (D.medium disk.new)) }
    // The runtime started on the disk that was there, or on one that was empty and is formatted; or it did not start.
    ensures readied { IfOk result (λ r. IsReadied D.told D.medium (memory_of r) disk.old disk.new) }
    ensures unready { OnErr result (IsUnready D.told D.medium disk.old disk.new) }
    // Where the device failed, the count of faults rose, and where memory ran out it stayed.
    ensures cause { IsErrOf result Stop.Device → Rose (D.medium disk.old).faults (D.medium disk.new).faults }
    ensures fed { IsErrOf result Stop.OutOfMemory → (D.medium disk.new).faults ≡ (D.medium disk.old).faults }
    ensures time { Elapses (D.medium disk.old) (D.medium disk.new) }
{
    match is_blank(disk) {
        Ok(true) => start_formatted(alloc, disk),
        Ok(false) => start(alloc, disk),
        Err(_) => Err(Stop::Device),
    }
}

/// Whether no file of an application has a byte.
fn is_blank<D: Disk>(disk: &mut D) -> Result<bool, DiskFailed>
    ensures says { IsTrue D.told → IfOk result (λ blank. IsExactly blank (HasNoBytes (D.medium disk.old).image)) }
    ensures reads { OnlyReads (D.medium disk.old) (D.medium disk.new) }
    ensures cause { OnErr result (Rose (D.medium disk.old).faults (D.medium disk.new).faults) }
    ensures passes { OnOk result ((D.medium disk.new).faults ≡ (D.medium disk.old).faults) }
    ensures time { Elapses (D.medium disk.old) (D.medium disk.new) }
{
    for file in 0..FILES {
        let size = disk.size(file)?;
        if size > 0 {
            return Ok(false);
        }
    }
    Ok(true)
}
