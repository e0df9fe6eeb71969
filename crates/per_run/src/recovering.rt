//! The job that recovers a root.

ghost use Rattle.std.specs.Prelude.{◌≡◌, ◌⊎◌, ◌<◌, ℕ};
ghost use Rattle.disk_model.specs.Medium.{Elapses};
ghost use Rattle.root_recovery.specs.Recoveries.{IsRefused, row_answered};
ghost use Rattle.per_run.specs.Jobs.{IsCaused, Recovers, outputs};
ghost use Rattle.per_run.specs.declared.words.JobKind.{JobKind};

use crate::endings::{CALL_REFUSED, DEVICE, DONE, OUT_OF_MEMORY};
use crate::writing::write_made_output;
use disk_model::Disk;
use per_base::Sink;
use root_recovery::{Recovery, RecoveryError, recover_root};
use std::alloc::Global;

/// Recovers the root of an application where it does not read and some copy holds one, and says which it took, or why
/// it took none. Gives the status.
pub fn recover<D: Disk, K: Sink>(alloc: Global, application: u32, sink: &mut K, disk: &mut D) -> u8
    requires { application < 8 }
    // By the status: what the sink took, before the call and after it, and what the disk then is.
    ensures job { Recovers D.told application result (outputs (K.written sink.old) (D.medium disk.old))
        (outputs (K.written sink.new) (D.medium disk.new)) }
    // A status of a failure comes only where the count of failures rose: 3 of the disk, 6 of the sink. The job does not
    // call the source, so that it is said of any count of it.
    ensures caused { (source : ℕ) → IsCaused (JobKind.RecoverRoot application) result
        (record { disk = (D.medium disk.old).faults; source = source; sink = K.faults sink.old })
        (record { disk = (D.medium disk.new).faults; source = source; sink = K.faults sink.new }) }
    ensures time { Elapses (D.medium disk.old) (D.medium disk.new) }
{
    match recover_root(alloc, disk, application) {
        Ok(recovery) => write_made_output(sink, recovery.text(alloc), verdict(&recovery)),
        Err(RecoveryError::Device) => DEVICE,
        Err(RecoveryError::OutOfMemory) => OUT_OF_MEMORY,
    }
}

/// The status of a recovery whose text is written.
fn verdict(recovery: &Recovery) -> u8
    ensures done { result ≡ 0 → ¬ (IsRefused (row_answered recovery.now)) }
    ensures refused { result ≡ 9 → IsRefused (row_answered recovery.now) }
    ensures status { (result ≡ 0) ⊎ (result ≡ 9) }
{
    match recovery {
        Recovery::Taken(_) => DONE,
        Recovery::Reads | Recovery::NoneLeft => CALL_REFUSED,
    }
}
