//! The top call.

ghost use Rattle.std.specs.Prelude.{◌≡◌, ◌⊎◌, IfSome, None, false, map, string_bytes};
ghost use Rattle.disk_model.specs.Medium.{Elapses};
ghost use Rattle.per_base.specs.Causes.{Rose};
ghost use Rattle.run_model.specs.Converters.{converters_of};
ghost use Rattle.run_model.specs.Edges.{edges, failures_at};
ghost use Rattle.run_model.specs.Lines.{IsWellFormed};
ghost use Rattle.per_run.specs.Jobs.{IsCaused, JobDone};
ghost use Rattle.per_run.specs.Steps.{IsInRange};
ghost use Rattle.per_run.specs.Words.{job_of, reads_input};
ghost use Rattle.per_run.specs.declared.words.JobKind.{JobKind};

use crate::auditing::audit_disk;
use crate::endings::{OUT_OF_MEMORY, REFUSED};
use crate::exporting::export_storage;
use crate::formatting::format;
use crate::generating::generate;
use crate::importing::import_storage;
use crate::listing::list_disk;
use crate::recovering::recover;
use crate::run::run;
use crate::serving::serve;
use crate::words::{JobKind, WordsError, read_words};
use command_text::one_line;
use disk_model::Disk;
use migrate_fns::Migrations;
use per_base::{Sink, Source};
use run_model::applications_stand;
use std::alloc::Global;

/// Reads the arguments and does the job that they ask for. The status:
///
/// | status | comes |
/// |---|---|
/// | 0 | the job is done, and all output is written: the input was read to its end or to the line `end`, the disk is formatted, the synthetic workload is handled, an audit found nothing, what is on the disk is listed, the storage is exported or imported, or the root is recovered |
/// | 1 | only where the arguments are invalid; nothing was read or written |
/// | 2 | the line with the number in `bad-line N` is outside the grammar; all lines before it were handled and answered; never of a run that stays |
/// | 3 | the disk failed while it was formatted or the runtime started, or in an audit, a listing, an export, an import or the recovery of a root |
/// | 4 | memory ran out |
/// | 5 | the source failed; all whole lines before were handled and answered, and nothing was imported |
/// | 6 | the sink failed; what it took is a prefix of the output |
/// | 7 | 67,108,864 bytes were taken, and neither `end` nor the end of the input was among them; nothing was imported; of a run that stays 2^64 - 1 bytes |
/// | 8 | an audit found something; what it is is written |
/// | 9 | an export or an import was refused, and the line of its error is written; or no root was recovered, and the line that says why is |
pub fn per_run<D: Disk, S: Source, K: Sink>(
    alloc: Global,
    words: &[String],
    migrations: &Migrations,
    source: &mut S,
    sink: &mut K,
    disk: &mut D,
) -> u8
    // Invalid arguments, and only they, give 1, unless memory ran out, which gives 4; and then nothing happened.
    ensures refused { result ≡ 1 → job_of (map string_bytes words.now) ≡ None }
    ensures words { job_of (map string_bytes words.now) ≡ None → (result ≡ 1) ⊎ (result ≡ 4) }
    ensures untouched { job_of (map string_bytes words.now) ≡ None
        → (source.new ≡ source.old) × (sink.new ≡ sink.old) × (disk.new ≡ disk.old) }

    // What the job promises (`JobDone`), and that a status of a failure comes only where the count of failures rose. A
    // job that reads no input takes nothing of the source.
    ensures job { IfSome (job_of (map string_bytes words.now))
        (λ job. JobDone D.Disk job.kind (converters_of migrations.now) result
        (edges S.Source K.Sink source.old sink.old disk.old) (edges S.Source K.Sink source.new sink.new disk.new)) }
    ensures caused { IfSome (job_of (map string_bytes words.now)) (λ job. IsCaused job.kind result
        (failures_at (edges S.Source K.Sink source.old sink.old (D.medium disk.old)))
        (failures_at (edges S.Source K.Sink source.new sink.new (D.medium disk.new)))) }
    ensures unread { IfSome (job_of (map string_bytes words.now))
        (λ job. reads_input job.kind ≡ false → source.new ≡ source.old) }

    // A run over lines that are all in the grammar, with no failure, handles them all (0), unless memory ran out (4).
    ensures complete { IfSome (job_of (map string_bytes words.now)) (λ job. job.kind ≡ JobKind.Run
        → (Rose (D.medium disk.old).faults (D.medium disk.new).faults → ⊥)
        → ¬ (Rose (S.faults source.old) (S.faults source.new))
        → ¬ (Rose (K.faults sink.old) (K.faults sink.new))
        → IfSome (S.left source.old) (λ left. IsWellFormed left → (result ≡ 0) ⊎ (result ≡ 4))) }
    ensures time { Elapses (D.medium disk.old) (D.medium disk.new) }
{
    applications_stand();
    one_line();
    match read_words(alloc, words) {
        Ok(job) => run_job(alloc, job.kind, migrations, source, sink, disk),
        Err(WordsError::Refused) => REFUSED,
        Err(WordsError::OutOfMemory) => OUT_OF_MEMORY,
    }
}

/// Does a job, as [`per_run`] does one that its arguments ask for. Gives the status.
pub fn run_job<D: Disk, S: Source, K: Sink>(
    alloc: Global,
    kind: JobKind,
    migrations: &Migrations,
    source: &mut S,
    sink: &mut K,
    disk: &mut D,
) -> u8
    requires { IsInRange kind }
    // What the job promises by its status (`JobDone`), of the source, the sink and the disk.
    ensures job { JobDone D.Disk kind (converters_of migrations.now) result
        (edges S.Source K.Sink source.old sink.old disk.old) (edges S.Source K.Sink source.new sink.new disk.new) }
    // A status of a failure comes only where the count of failures rose: 3 of the disk, 5 of the source, 6 of the sink.
    // A job that reads no input takes nothing of the source.
    ensures caused { IsCaused kind result
        (failures_at (edges S.Source K.Sink source.old sink.old (D.medium disk.old)))
        (failures_at (edges S.Source K.Sink source.new sink.new (D.medium disk.new))) }
    ensures unread { reads_input kind ≡ false → source.new ≡ source.old }
    ensures time { Elapses (D.medium disk.old) (D.medium disk.new) }
{
    match kind {
        JobKind::Run => run(alloc, migrations, source, sink, disk),
        JobKind::Serve => serve(alloc, migrations, source, sink, disk),
        JobKind::Format => format(alloc, sink, disk),
        JobKind::Generate(number) => generate(alloc, number, migrations, sink, disk),
        JobKind::Audit => audit_disk(alloc, sink, disk),
        JobKind::Listing(form) => list_disk(alloc, form, sink, disk),
        JobKind::Export(application, name) => {
            export_storage(alloc, u32::from(application), &name, sink, disk)
        }
        JobKind::Import(application, name) => {
            import_storage(alloc, u32::from(application), &name, source, sink, disk)
        }
        JobKind::RecoverRoot(application) => recover(alloc, u32::from(application), sink, disk),
    }
}
