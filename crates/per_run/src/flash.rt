//! The top call over raw flash.

ghost use Rattle.std.specs.Prelude.{◌≡◌, ◌⊎◌, ◌+◌, IfSome, IsSomeAnd, false, map, string_bytes, ◌≢◌};
ghost use Rattle.per_base.specs.Causes.{Rose};
ghost use Rattle.run_model.specs.Converters.{converters_of};
ghost use Rattle.run_model.specs.Edges.{edges};
ghost use Rattle.run_model.specs.Lines.{IsWellFormed};
ghost use Rattle.per_run.specs.Flashes.{FlashRan, HasNotRun, IfRan, IfUnopened, IsHandedBack, IsNotOpened, IsWrongSize};
ghost use Rattle.per_run.specs.Steps.{IsInRange};
ghost use Rattle.per_run.specs.Words.{job_of, reads_input};
ghost use Rattle.per_run.specs.declared.words.JobKind.{JobKind};

use crate::endings::{DEVICE, OUT_OF_MEMORY, REFUSED, UNUSABLE, WRONG_SIZE};
use crate::job::run_job;
use crate::words::{JobKind, WordsError, read_words};
use command_text::one_line;
use flash_disk::{FlashDisk, FlashOpenError};
use flash_laws::lost_pages_are_outvoted_since;
use flash_model::Flash;
use loss_laws::applications_read_on_since;
use migrate_fns::Migrations;
use per_base::{Sink, Source};
use std::alloc::Global;

/// The outcome of a run over a flash: its status, and the flash.
#[derive(Drop)]
pub enum FlashRun<F: Flash> {
    /// The job was begun on the flash as a disk, which is handed back.
    Ran(u8, FlashDisk<F>),
    /// The arguments were invalid, or memory ran out before, or the flash was not opened as a disk. It is handed back,
    /// and no page of it changed.
    Unopened(u8, F),
}

/// Reads the arguments, opens the flash as a disk, and does the job that they ask for on that disk, as
/// [`crate::per_run`] does it on any.
///
/// Where the job was begun the status is one that `per_run` gives to a job. Where the flash was not opened it is:
///
/// | status | comes |
/// |---|---|
/// | 1 | only where the arguments are invalid |
/// | 3 | a call of the flash failed |
/// | 4 | memory ran out |
/// | 10 | the flash holds more pages of files than a disk may have, or none of its blocks is spare |
/// | 11 | the flash has fewer than 4 blocks, or more than 4,096 |
///
/// Then no input was read, no output written and no page changed.
pub fn per_flash<F: Flash, S: Source, K: Sink>(
    alloc: Global,
    words: &[String],
    migrations: &Migrations,
    source: &mut S,
    sink: &mut K,
    flash: F,
) -> FlashRun<F>
    // What the job promises, over the flash as a disk; and at every moment a stop leaves a flash that opens again. A
    // job that reads no input takes nothing of the source.
    ensures ran { IfRan result (λ status disk. IsSomeAnd (job_of (map string_bytes words.now)) (λ job.
        FlashRan F.Flash job.kind (converters_of migrations.now) status
        (edges S.Source K.Sink source.old sink.old flash) (edges S.Source K.Sink source.new sink.new disk))) }
    ensures unread { IfRan result (λ status disk. IfSome (job_of (map string_bytes words.now)) (λ job.
        reads_input job.kind ≡ false → source.new ≡ source.old)) }

    // A run over lines that are all in the grammar, with no failure, handles them all (0), unless memory ran out (4).
    ensures complete { IfRan result (λ status disk. IfSome (job_of (map string_bytes words.now))
        (λ job. job.kind ≡ JobKind.Run
        → (Rose (F.medium flash).faults ((F.medium disk.flash).faults + disk.own) → ⊥)
        → ¬ (Rose (S.faults source.old) (S.faults source.new))
        → ¬ (Rose (K.faults sink.old) (K.faults sink.new))
        → IfSome (S.left source.old) (λ left. IsWellFormed left → (status ≡ 0) ⊎ (status ≡ 4)))) }

    // Why there was no run; then no input was read, no output written and no page of the flash changed.
    ensures unopened { IfUnopened result (λ status back.
        HasNotRun F.told (job_of (map string_bytes words.now)) status (F.medium flash) (F.medium back)) }
    ensures back { IfUnopened result (λ status back. IsHandedBack F.told (F.medium flash) (F.medium back)) }
    ensures untouched { IfUnopened result (λ status back. (source.new ≡ source.old) × (sink.new ≡ sink.old)) }
    // With invalid arguments (1), without memory (4) or of a wrong size (11) the flash is handed back as it was given.
    ensures same { IfUnopened result (λ status back. (status ≡ 1) ⊎ ((status ≡ 4) ⊎ (status ≡ 11)) → back ≡ flash) }
{
    one_line();
    match read_words(alloc, words) {
        Ok(job) => run_over(alloc, job.kind, migrations, source, sink, flash),
        Err(WordsError::Refused) => FlashRun::Unopened(REFUSED, flash),
        Err(WordsError::OutOfMemory) => FlashRun::Unopened(OUT_OF_MEMORY, flash),
    }
}

/// Opens a flash and does a job on the disk.
fn run_over<F: Flash, S: Source, K: Sink>(
    alloc: Global,
    kind: JobKind,
    migrations: &Migrations,
    source: &mut S,
    sink: &mut K,
    flash: F,
) -> FlashRun<F>
    requires { IsInRange kind }
    ensures ran { IfRan result (λ status disk. FlashRan F.Flash kind (converters_of migrations.now) status
        (edges S.Source K.Sink source.old sink.old flash) (edges S.Source K.Sink source.new sink.new disk)) }
    ensures unread { IfRan result (λ status disk. reads_input kind ≡ false → source.new ≡ source.old) }
    ensures unopened { IfUnopened result (λ status back. IsNotOpened F.told status (F.medium flash) (F.medium back)) }
    ensures back { IfUnopened result (λ status back. IsHandedBack F.told (F.medium flash) (F.medium back)) }
    ensures untouched { IfUnopened result (λ status back. (source.new ≡ source.old) × (sink.new ≡ sink.old)) }
    ensures same { IfUnopened result (λ status back. (status ≡ 4) ⊎ (status ≡ 11) → back ≡ flash) }
    ensures not_words { IfUnopened result (λ status back. status ≢ 1) }
{
    lost_pages_are_outvoted_since::<F>();
    applications_read_on_since::<F>();
    match FlashDisk::open(alloc, flash) {
        Ok(mut disk) => {
            let status = run_job(alloc, kind, migrations, source, sink, &mut disk);
            FlashRun::Ran(status, disk)
        }
        Err(refused) => FlashRun::Unopened(status_of(refused.error), refused.flash),
    }
}

/// The status where a flash was not opened.
fn status_of(error: FlashOpenError) -> u8
    ensures wrong_size { error ≡ FlashOpenError.WrongSize → result ≡ 11 }
    ensures unusable { error ≡ FlashOpenError.Unusable → result ≡ 10 }
    ensures device { error ≡ FlashOpenError.Device → result ≡ 3 }
    ensures memory { error ≡ FlashOpenError.OutOfMemory → result ≡ 4 }
{
    match error {
        FlashOpenError::WrongSize => WRONG_SIZE,
        FlashOpenError::Unusable => UNUSABLE,
        FlashOpenError::Device => DEVICE,
        FlashOpenError::OutOfMemory => OUT_OF_MEMORY,
    }
}
