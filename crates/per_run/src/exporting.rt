//! The job that writes a storage as one text.

ghost use Rattle.std.specs.Prelude.{◌≡◌, ◌⊎◌, ◌<◌, ℕ, IfErr, IsSome};
ghost use Rattle.disk_model.specs.Medium.{Elapses};
ghost use Rattle.per_base.specs.Causes.{Rose};
ghost use Rattle.per_base.specs.Errors.{error_number};
ghost use Rattle.per_backup.specs.Clauses.{exported_as};
ghost use Rattle.per_run.specs.Jobs.{AnswersOr, Exports, IsCaused, outputs};
ghost use Rattle.per_run.specs.declared.words.JobKind.{JobKind};

use crate::endings::{DEVICE, DONE, OUT_OF_MEMORY};
use crate::refusing::write_refusal;
use crate::writing::write_output;
use deploy::Stop;
use disk_model::Disk;
use per_backup::{Exported, export, refusals_are_numbered};
use per_base::{Name, Sink};
use std::alloc::Global;

/// Writes the storage of this name of an application as one text, and changes nothing of the disk. Gives the status.
pub fn export_storage<D: Disk, K: Sink>(
    alloc: Global,
    application: u32,
    name: &Name,
    sink: &mut K,
    disk: &mut D,
) -> u8
    requires { application < 8 }
    // By the status: what the sink took, before the call and after it; and of the disk that nothing changed.
    ensures job { Exports D.told application name.now result (outputs (K.written sink.old) (D.medium disk.old))
        (outputs (K.written sink.new) (D.medium disk.new)) }
    // A status of a failure comes only where the count of failures rose: 3 of the disk, 6 of the sink. The job does not
    // call the source, so that it is said of any count of it.
    ensures caused { (source : ℕ) → IsCaused (JobKind.Export application name.now) result
        (record { disk = (D.medium disk.old).faults; source = source; sink = K.faults sink.old })
        (record { disk = (D.medium disk.new).faults; source = source; sink = K.faults sink.new }) }
    ensures time { Elapses (D.medium disk.old) (D.medium disk.new) }
{
    refusals_are_numbered();
    match export(alloc, disk, application, name) {
        Ok(exported) => write_exported(alloc, sink, exported),
        Err(Stop::Device) => DEVICE,
        Err(Stop::OutOfMemory) => OUT_OF_MEMORY,
    }
}

/// Writes the text alone, or the line of the refusal.
fn write_exported<K: Sink>(alloc: Global, sink: &mut K, exported: Exported) -> u8
    requires { IfErr (exported_as exported) (λ e. IsSome (error_number e)) }
    ensures answers { AnswersOr (λ text. text) (exported_as exported) result (K.written sink.old)
        (K.written sink.new) }
    ensures status { ((result ≡ 0) ⊎ (result ≡ 9)) ⊎ ((result ≡ 4)
        ⊎ ((result ≡ 6) × Rose (K.faults sink.old) (K.faults sink.new))) }
{
    match exported {
        Exported::Octets(text) => write_output(sink, text.as_slice(), DONE),
        Exported::Refused(error) => write_refusal(alloc, sink, error),
    }
}
