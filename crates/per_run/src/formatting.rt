//! The job that formats the disk.

ghost use Rattle.std.specs.Prelude.{◌≡◌, ◌⊎◌};
ghost use Rattle.disk_model.specs.Medium.{Elapses};
ghost use Rattle.per_base.specs.Causes.{Rose};
ghost use Rattle.per_run.specs.Jobs.{Formats, outputs};

use crate::endings::{DEVICE, DONE, OUT_OF_MEMORY};
use crate::writing::write_output;
use deploy::{Stop, format_all};
use disk_model::Disk;
use per_base::Sink;
use std::alloc::Global;

/// Formats the disk for all applications, and writes `ok`. Gives the status.
pub fn format<D: Disk, K: Sink>(alloc: Global, sink: &mut K, disk: &mut D) -> u8
    // By the status: what the sink took, before the call and after it, and what the disk holds.
    ensures job { Formats D.told result (outputs (K.written sink.old) (D.medium disk.old))
        (outputs (K.written sink.new) (D.medium disk.new)) }

    // 0 where all is done, 4 where memory ran out, 3 only where the disk failed, and 6 only where the sink did.
    ensures status { (result ≡ 0) ⊎ ((result ≡ 4) ⊎ (((result ≡ 3)
        × Rose (D.medium disk.old).faults (D.medium disk.new).faults)
        ⊎ ((result ≡ 6) × Rose (K.faults sink.old) (K.faults sink.new)))) }

    // To what crashes since an earlier moment might have left the call only adds; and no count falls.
    ensures time { Elapses (D.medium disk.old) (D.medium disk.new) }
{
    match format_all(alloc, disk) {
        Ok(()) => write_output(sink, b"ok\n", DONE),
        Err(Stop::Device) => DEVICE,
        Err(Stop::OutOfMemory) => OUT_OF_MEMORY,
    }
}
