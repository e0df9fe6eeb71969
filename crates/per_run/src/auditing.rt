//! The job that audits the disk.

ghost use Rattle.std.specs.Prelude.{◌≡◌, ◌≢◌, ◌⊎◌, [], ℕ};
ghost use Rattle.disk_model.specs.Medium.{Elapses};
ghost use Rattle.per_base.specs.Causes.{Rose};
ghost use Rattle.per_audit.specs.AuditText.{audit_text};
ghost use Rattle.per_run.specs.Jobs.{Audits, IsCaused, WritesOutput, outputs};
ghost use Rattle.per_run.specs.declared.words.JobKind.{JobKind};

use crate::endings::{DEVICE, DONE, FOUND, OUT_OF_MEMORY};
use crate::writing::write_made_output;
use deploy::Stop;
use disk_model::Disk;
use per_audit::{Audit, audit};
use per_base::Sink;
use std::alloc::Global;

/// Audits the disk, which changes nothing of it, and writes what is listed and found. Gives the status.
pub fn audit_disk<D: Disk, K: Sink>(alloc: Global, sink: &mut K, disk: &mut D) -> u8
    // By the status: what the sink took, before the call and after it; and of the disk that nothing changed.
    ensures job { Audits D.told result (outputs (K.written sink.old) (D.medium disk.old))
        (outputs (K.written sink.new) (D.medium disk.new)) }
    // A status of a failure comes only where the count of failures rose: 3 of the disk, 6 of the sink. The job does not
    // call the source, so that it is said of any count of it.
    ensures caused { (source : ℕ) → IsCaused JobKind.Audit result
        (record { disk = (D.medium disk.old).faults; source = source; sink = K.faults sink.old })
        (record { disk = (D.medium disk.new).faults; source = source; sink = K.faults sink.new }) }
    ensures time { Elapses (D.medium disk.old) (D.medium disk.new) }
{
    match audit(alloc, disk) {
        Ok(audit) => write_audit(alloc, sink, &audit),
        Err(Stop::Device) => DEVICE,
        Err(Stop::OutOfMemory) => OUT_OF_MEMORY,
    }
}

/// Writes what is listed and found.
fn write_audit<K: Sink>(alloc: Global, sink: &mut K, audit: &Audit) -> u8
    ensures output { WritesOutput result (K.written sink.old) (K.written sink.new)
        (audit_text audit.now.elements audit.now.findings) }
    ensures sound { result ≡ 0 → audit.now.findings ≡ [] }
    ensures found { result ≡ 8 → audit.now.findings ≢ [] }
    ensures status { ((result ≡ 0) ⊎ (result ≡ 8)) ⊎ ((result ≡ 4)
        ⊎ ((result ≡ 6) × Rose (K.faults sink.old) (K.faults sink.new))) }
{
    write_made_output(sink, audit.text(alloc), verdict(audit))
}

/// The status of an audit whose text is written.
fn verdict(audit: &Audit) -> u8
    ensures sound { result ≡ 0 → audit.now.findings ≡ [] }
    ensures found { result ≡ 8 → audit.now.findings ≢ [] }
    ensures status { (result ≡ 0) ⊎ (result ≡ 8) }
{
    if audit.is_sound() { DONE } else { FOUND }
}
