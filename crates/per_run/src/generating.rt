//! The job that handles a synthetic workload, generated from a number.

ghost use Rattle.std.specs.Prelude.{◌≡◌, ◌⊎◌, ◌≤◌, ◌<◌, ◌+◌, ◌++◌, ◌^◌, ℕ, List, [], ◌∷◌, IfOk, IsErrOf, OnOk};
ghost use Rattle.std.specs.Prelude.{IsErr, IsTrue, None, length, map};
ghost use Rattle.disk_model.specs.Medium.{Elapses};
ghost use Rattle.per_base.specs.Causes.{Rose};
ghost use Rattle.command_text.specs.declared.replies.Reply.{Reply};
ghost use Rattle.command_text.specs.Generated.{generated, generated_lines};
ghost use Rattle.run_model.specs.AppLaws.{AppLaws};
ghost use Rattle.run_model.specs.Converters.{converters_of};
ghost use Rattle.run_model.specs.Turns.{bytes_now};
ghost use Rattle.per_runtime.specs.Memories.{IsRuntime, memory_of};
ghost use Rattle.per_run.specs.Jobs.{BeginWith, Generates, WritesOutput, outputs, summary};
ghost use Rattle.per_run.specs.Serves.{FormatsWithin};
ghost use Rattle.per_run.specs.Steps.{Counted, Goes, IsServeBegun, RunsShort, Tallies, outset};

use crate::answering::{LineOutcome, answer_line};
use crate::endings::{DEVICE, DONE, OUT_OF_MEMORY};
use crate::tally::Tally;
use crate::writing::write_output;
use command_text::{first_lines, generated_line, last_lines, next_number};
use deploy::{Stop, format_all};
use disk_model::Disk;
use migrate_fns::Migrations;
use per_base::Sink;
use per_runtime::{Runtime, start};
use run_model::applications_stand;
use std::alloc::{AllocError, Global};

/// Formats the disk, handles the lines that the number, of at most 100,000, gives, and writes the summary of their
/// replies. Gives the status.
pub fn generate<D: Disk, K: Sink>(
    alloc: Global,
    number: u32,
    migrations: &Migrations,
    sink: &mut K,
    disk: &mut D,
) -> u8
    requires { number ≤ 100000 }
    // By the converters and the status: what the sink took, and what the disk then is.
    ensures job { Generates D.told (converters_of migrations.now) number result
        (outputs (K.written sink.old) (D.medium disk.old)) (outputs (K.written sink.new) (D.medium disk.new)) }
    // 0 where all is done, 4 where memory ran out, 3 only where the disk failed, and 6 only where the sink did.
    ensures status { (result ≡ 0) ⊎ ((result ≡ 4) ⊎ (((result ≡ 3)
        × Rose (D.medium disk.old).faults (D.medium disk.new).faults)
        ⊎ ((result ≡ 6) × Rose (K.faults sink.old) (K.faults sink.new)))) }
    ensures time { Elapses (D.medium disk.old) (D.medium disk.new) }
{
    match start_formatted(alloc, disk) {
        Ok(runtime) => generate_on(alloc, runtime, number, migrations, sink, disk),
        Err(Stop::Device) => DEVICE,
        Err(Stop::OutOfMemory) => OUT_OF_MEMORY,
    }
}

/// Formats the disk and starts the runtime on it.
pub fn start_formatted<D: Disk>(alloc: Global, disk: &mut D) -> Result<Runtime, Stop>
    // What the runtime keeps in memory is in use on the disk, which was formatted and then started on.
    ensures memory { IfOk result (IsRuntime D.told (D.medium disk.new)) }
    ensures begun { IfOk result (λ r. (middle : D) × IsServeBegun D.told (memory_of r) (D.medium disk.old)
        (D.medium middle)
        (D.medium disk.new)) }
    // However it ends, only slots of roots change, and no more is written than the formatting costs.
    ensures within { IsTrue D.told → FormatsWithin (bytes_now (D.medium disk.old)) (bytes_now (D.medium disk.new)) }
    // Where the device failed, the count of faults rose, and where memory ran out it stayed.
    ensures cause { IsErrOf result Stop.Device → Rose (D.medium disk.old).faults (D.medium disk.new).faults }
    ensures fed { IsErrOf result Stop.OutOfMemory → (D.medium disk.new).faults ≡ (D.medium disk.old).faults }
    ensures time { Elapses (D.medium disk.old) (D.medium disk.new) }
{
    match format_all(alloc, disk) {
        Ok(()) => start(alloc, disk),
        Err(stop) => Err(stop),
    }
}

/// Handles the lines that the number gives on a disk that was formatted.
fn generate_on<D: Disk, K: Sink>(
    alloc: Global,
    runtime: Runtime,
    number: u32,
    migrations: &Migrations,
    sink: &mut K,
    disk: &mut D,
) -> u8
    requires number { number ≤ 100000 }
    requires memory { IsRuntime D.told (D.medium disk.old) runtime }
    ensures job { (old middle : D) → IsServeBegun D.told (memory_of runtime) (D.medium old) (D.medium middle)
        (D.medium disk.old)
        → Generates D.told (converters_of migrations.now) number result
        (outputs (K.written sink.old) (D.medium old)) (outputs (K.written sink.new) (D.medium disk.new)) }
    ensures status { (result ≡ 0) ⊎ ((result ≡ 4) ⊎ ((result ≡ 6) × Rose (K.faults sink.old) (K.faults sink.new))) }
    ensures time { Elapses (D.medium disk.old) (D.medium disk.new) }
{
    applications_stand();
    let mut batch = Batch {
        runtime,
        tally: Tally::new(),
    };
    match handle_all(alloc, &mut batch, number, migrations, disk) {
        Ok(()) => write_summary(alloc, number, &batch.tally, sink),
        Err(_) => OUT_OF_MEMORY,
    }
}

/// Writes the summary of the replies to the lines that the number gives.
fn write_summary<K: Sink>(alloc: Global, number: u32, tally: &Tally, sink: &mut K) -> u8
    ensures output { (replies : List Reply) → Tallies replies tally.now
        → WritesOutput result (K.written sink.old) (K.written sink.new) (summary (number + 5) replies) }
    ensures status { (result ≡ 0) ⊎ ((result ≡ 4) ⊎ ((result ≡ 6) × Rose (K.faults sink.old) (K.faults sink.new))) }
{
    match tally.summary(alloc, u64::from(number) + 5) {
        Ok(text) => write_output(sink, text.as_bytes(), DONE),
        Err(_) => OUT_OF_MEMORY,
    }
}

/// The runtime after some of the lines, and what their replies come to.
#[derive(Drop)]
struct Batch {
    runtime: Runtime,
    tally: Tally,
}

/// Handles all lines of the number.
fn handle_all<D: Disk>(
    alloc: Global,
    batch: &mut Batch,
    number: u32,
    migrations: &Migrations,
    disk: &mut D,
) -> Result<(), AllocError>
    requires number { number ≤ 100000 }
    requires memory { IsRuntime D.told (D.medium disk.old) batch.old.runtime }
    ensures counted { OnOk result ((start : D) → Counted (outset D.Disk (converters_of migrations.now) start None) []
        (memory_of batch.old.runtime) batch.old.tally (D.medium disk.old)
        → Counted (outset D.Disk (converters_of migrations.now) start None) (generated number)
        (memory_of batch.new.runtime) batch.new.tally (D.medium disk.new)) }
    // Where memory ran out, it did so between commands or in one.
    ensures short { IsErr result → AppLaws → (start : D)
        → Counted (outset D.Disk (converters_of migrations.now) start None) [] (memory_of batch.old.runtime)
        batch.old.tally (D.medium disk.old)
        → RunsShort (outset D.Disk (converters_of migrations.now) start None)
        (generated number) (D.medium disk.new) }
    ensures time { Elapses (D.medium disk.old) (D.medium disk.new) }
{
    handle_each(alloc, batch, migrations, disk, first_lines().as_slice())?;
    handle_generated(alloc, batch, number, migrations, disk)?;
    handle_each(alloc, batch, migrations, disk, last_lines().as_slice())
}

/// Handles these lines, one after the other.
fn handle_each<D: Disk>(
    alloc: Global,
    batch: &mut Batch,
    migrations: &Migrations,
    disk: &mut D,
    lines: &[&str],
) -> Result<(), AllocError>
    requires { IsRuntime D.told (D.medium disk.old) batch.old.runtime }
    // These lines come after those that were counted before; below 2 ^ 32 lines no count of replies is at its end.
    ensures counted { OnOk result ((start : D) (before : List (List ℕ))
        → length (before ++ map (λ line. line.now) lines.now) < 2 ^ 32
        → Counted (outset D.Disk (converters_of migrations.now) start None) before (memory_of batch.old.runtime)
        batch.old.tally (D.medium disk.old)
        → Counted (outset D.Disk (converters_of migrations.now) start None)
        (before ++ map (λ line. line.now) lines.now) (memory_of batch.new.runtime) batch.new.tally
        (D.medium disk.new)) }
    // Where memory ran out, it did so between commands or in one, of any lines that begin with those before and these.
    ensures short { IsErr result → AppLaws → (start : D) (before all : List (List ℕ))
        → length (before ++ map (λ line. line.now) lines.now) < 2 ^ 32
        → Counted (outset D.Disk (converters_of migrations.now) start None) before (memory_of batch.old.runtime)
        batch.old.tally (D.medium disk.old)
        → BeginWith (before ++ map (λ line. line.now) lines.now) all
        → RunsShort (outset D.Disk (converters_of migrations.now) start None) all
        (D.medium disk.new) }
    ensures memory { OnOk result (IsRuntime D.told (D.medium disk.new) batch.new.runtime) }
    ensures time { Elapses (D.medium disk.old) (D.medium disk.new) }
{
    for line in lines {
        handle_one(alloc, batch, migrations, disk, line.as_bytes())?;
    }
    Ok(())
}

/// Handles the lines between the first and the last ones: as many as the number says.
fn handle_generated<D: Disk>(
    alloc: Global,
    batch: &mut Batch,
    number: u32,
    migrations: &Migrations,
    disk: &mut D,
) -> Result<(), AllocError>
    requires number { number ≤ 100000 }
    requires memory { IsRuntime D.told (D.medium disk.old) batch.old.runtime }
    // These lines come after those that were counted before; below 2 ^ 32 lines no count of replies is at its end.
    ensures counted { OnOk result ((start : D) (before : List (List ℕ)) → length before + number < 2 ^ 32
        → Counted (outset D.Disk (converters_of migrations.now) start None) before (memory_of batch.old.runtime)
        batch.old.tally (D.medium disk.old)
        → Counted (outset D.Disk (converters_of migrations.now) start None) (before ++ generated_lines number 1 number)
        (memory_of batch.new.runtime) batch.new.tally (D.medium disk.new)) }
    // Where memory ran out, it did so between commands or in one, of any lines that begin with those before and these.
    ensures short { IsErr result → AppLaws → (start : D) (before all : List (List ℕ))
        → length before + number < 2 ^ 32
        → Counted (outset D.Disk (converters_of migrations.now) start None) before (memory_of batch.old.runtime)
        batch.old.tally (D.medium disk.old)
        → BeginWith (before ++ generated_lines number 1 number) all
        → RunsShort (outset D.Disk (converters_of migrations.now) start None) all
        (D.medium disk.new) }
    ensures memory { OnOk result (IsRuntime D.told (D.medium disk.new) batch.new.runtime) }
    ensures time { Elapses (D.medium disk.old) (D.medium disk.new) }
{
    let mut x = u64::from(number);
    for index in 0..number {
        x = next_number(x);
        let line = generated_line(alloc, number, x, index + 1)?;
        handle_one(alloc, batch, migrations, disk, line.as_slice())?;
    }
    Ok(())
}

/// Handles a line that is a command's: where no command is answered, memory ran out.
fn handle_one<D: Disk>(
    alloc: Global,
    batch: &mut Batch,
    migrations: &Migrations,
    disk: &mut D,
    line: &[u8],
) -> Result<(), AllocError>
    requires { IsRuntime D.told (D.medium disk.old) batch.old.runtime }
    // The line comes after those that were counted before; below 2 ^ 32 lines no count of replies is at its end.
    ensures counted { OnOk result ((start : D) (before : List (List ℕ)) → length before < 2 ^ 32
        → Counted (outset D.Disk (converters_of migrations.now) start None) before (memory_of batch.old.runtime)
        batch.old.tally (D.medium disk.old)
        → Counted (outset D.Disk (converters_of migrations.now) start None) (before ++ line.now ∷ [])
        (memory_of batch.new.runtime) batch.new.tally (D.medium disk.new)) }
    // Where memory ran out, it did so between commands or in one, of any lines that begin with those before and this.
    ensures short { IsErr result → AppLaws → (start : D) (before all : List (List ℕ))
        → Counted (outset D.Disk (converters_of migrations.now) start None) before (memory_of batch.old.runtime)
        batch.old.tally (D.medium disk.old)
        → BeginWith (before ++ line.now ∷ []) all
        → RunsShort (outset D.Disk (converters_of migrations.now) start None) all
        (D.medium disk.new) }
    ensures memory { OnOk result (IsRuntime D.told (D.medium disk.new) batch.new.runtime) }
    ensures time { Elapses (D.medium disk.old) (D.medium disk.new) }
{
    match answer_line(alloc, &mut batch.runtime, migrations, disk, line) {
        LineOutcome::Answered(reply) => {
            batch.tally.count(&reply);
            Ok(())
        }
        _ => Err(AllocError),
    }
}
