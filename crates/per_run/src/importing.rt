//! The job that rebuilds a storage from a text.

ghost use Rattle.std.specs.Prelude.{◌≡◌, ◌⊎◌, ◌<◌, Result, IfSome, IsSome, codes};
ghost use Rattle.disk_model.specs.Medium.{Elapses};
ghost use Rattle.per_base.specs.Causes.{Rose};
ghost use Rattle.per_base.specs.Errors.{error_number};
ghost use Rattle.per_base.specs.declared.errors.PerError.{PerError};
ghost use Rattle.deploy_laws.specs.Apps.{App};
ghost use Rattle.deploy_rows.specs.Rows.{AnswersRow};
ghost use Rattle.run_model.specs.Edges.{edges, failures_at};
ghost use Rattle.per_run.specs.Jobs.{AnswersOr, Imports, IsCaused, Makes, outputs};
ghost use Rattle.per_run.specs.declared.words.JobKind.{JobKind};

use crate::endings::{DEVICE, DONE, OUT_OF_MEMORY};
use crate::input::read_whole;
use crate::refusing::write_refusal;
use crate::writing::write_output;
use deploy::Stop;
use disk_model::Disk;
use per_backup::{import, refusals_are_numbered};
use per_base::{Name, PerError, Sink, Source};
use std::alloc::Global;

/// Reads the input to its end, rebuilds the storage of this name of an application from it, and says so. Where the
/// input is not read to its end, the disk is not touched. Gives the status.
pub fn import_storage<D: Disk, S: Source, K: Sink>(
    alloc: Global,
    application: u32,
    name: &Name,
    source: &mut S,
    sink: &mut K,
    disk: &mut D,
) -> u8
    requires { application < 8 }
    // By the status: what stood at the edges before the call, and what stands there after it.
    ensures job { Imports D.told application name.now result
        (edges S.Source K.Sink source.old sink.old (D.medium disk.old))
        (edges S.Source K.Sink source.new sink.new (D.medium disk.new)) }
    // A status of a failure comes only where the count of failures rose: 3 of the disk, 5 of the source, 6 of the sink.
    ensures caused { IsCaused (JobKind.Import application name.now) result
        (failures_at (edges S.Source K.Sink source.old sink.old (D.medium disk.old)))
        (failures_at (edges S.Source K.Sink source.new sink.new (D.medium disk.new))) }
    ensures time { Elapses (D.medium disk.old) (D.medium disk.new) }
{
    match read_whole(alloc, source) {
        Ok(text) => import_text(alloc, application, name, text.as_slice(), sink, disk),
        Err(ending) => ending.status(),
    }
}

/// Rebuilds the storage from a text, and says so.
fn import_text<D: Disk, K: Sink>(
    alloc: Global,
    application: u32,
    name: &Name,
    text: &[u8],
    sink: &mut K,
    disk: &mut D,
) -> u8
    requires { application < 8 }
    ensures made { Makes D.told (record { app = application; name = name.now; text = text.now }) result
        (outputs (K.written sink.old) (D.medium disk.old)) (outputs (K.written sink.new) (D.medium disk.new)) }
    ensures status { ((result ≡ 0) ⊎ (result ≡ 9)) ⊎ ((result ≡ 4)
        ⊎ (((result ≡ 3) × Rose (D.medium disk.old).faults (D.medium disk.new).faults)
        ⊎ ((result ≡ 6) × Rose (K.faults sink.old) (K.faults sink.new)))) }
    ensures time { Elapses (D.medium disk.old) (D.medium disk.new) }
{
    refusals_are_numbered();
    match import(alloc, disk, application, name, text) {
        Ok(refused) => write_imported(alloc, sink, refused),
        Err(Stop::Device) => DEVICE,
        Err(Stop::OutOfMemory) => OUT_OF_MEMORY,
    }
}

/// Says that it is done, or writes the line of the refusal.
fn write_imported<K: Sink>(alloc: Global, sink: &mut K, refused: Option<PerError>) -> u8
    requires { IfSome refused (λ e. IsSome (error_number e)) }
    ensures answers { (row : Result App PerError) → AnswersRow refused row
        → AnswersOr (λ after. codes "ok\n") row result (K.written sink.old) (K.written sink.new) }
    ensures status { ((result ≡ 0) ⊎ (result ≡ 9)) ⊎ ((result ≡ 4)
        ⊎ ((result ≡ 6) × Rose (K.faults sink.old) (K.faults sink.new))) }
{
    match refused {
        None => write_output(sink, b"ok\n", DONE),
        Some(error) => write_refusal(alloc, sink, error),
    }
}
