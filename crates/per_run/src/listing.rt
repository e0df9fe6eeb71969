//! The job that says what is on the disk.

ghost use Rattle.std.specs.Prelude.{ℕ};
ghost use Rattle.disk_model.specs.Medium.{Elapses};
ghost use Rattle.per_run.specs.Jobs.{IsCaused, Lists, outputs};
ghost use Rattle.per_run.specs.declared.words.JobKind.{JobKind};

use crate::endings::{DEVICE, DONE, OUT_OF_MEMORY};
use crate::writing::write_output;
use deploy::Stop;
use disk_model::Disk;
use per_base::Sink;
use per_list::{Form, list};
use std::alloc::Global;

/// Says in this form what is on the disk, and changes nothing of it. Gives the status.
pub fn list_disk<D: Disk, K: Sink>(alloc: Global, form: Form, sink: &mut K, disk: &mut D) -> u8
    // By the status: what the sink took, before the call and after it; and of the disk that nothing changed.
    ensures job { Lists D.told form result (outputs (K.written sink.old) (D.medium disk.old))
        (outputs (K.written sink.new) (D.medium disk.new)) }
    // A status of a failure comes only where the count of failures rose: 3 of the disk, 6 of the sink. The job does not
    // call the source, so that it is said of any count of it.
    ensures caused { (source : ℕ) → IsCaused (JobKind.Listing form) result
        (record { disk = (D.medium disk.old).faults; source = source; sink = K.faults sink.old })
        (record { disk = (D.medium disk.new).faults; source = source; sink = K.faults sink.new }) }
    ensures time { Elapses (D.medium disk.old) (D.medium disk.new) }
{
    match list(alloc, disk, form) {
        Ok(text) => write_output(sink, text.as_slice(), DONE),
        Err(Stop::Device) => DEVICE,
        Err(Stop::OutOfMemory) => OUT_OF_MEMORY,
    }
}
