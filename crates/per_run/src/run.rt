//! The job that handles the lines of the source.

ghost use Rattle.std.specs.Prelude.{◌≡◌, ◌<◌, ℕ, List, [], Option, length};
ghost use Rattle.disk_model.specs.Medium.{Elapses};
ghost use Rattle.per_base.specs.Causes.{Rose};
ghost use Rattle.run_model.specs.AppLaws.{AppLaws};
ghost use Rattle.run_model.specs.Converters.{converters_of};
ghost use Rattle.run_model.specs.Edges.{edges};
ghost use Rattle.run_model.specs.Runs.{Run};
ghost use Rattle.per_runtime.specs.Memories.{IsRuntime, memory_of};
ghost use Rattle.per_run.specs.Steps.{Blamed, Handled, RanOverInput, Reached, outset, reading};

use crate::endings::{DEVICE, Ending, OUT_OF_MEMORY};
use crate::input::{INPUT_BYTES, PIECE_BYTES, read_piece, zeros};
use crate::reader::{Reader, feed, finish};
use deploy::Stop;
use disk_model::Disk;
use migrate_fns::Migrations;
use per_base::{Sink, Source};
use per_runtime::{Runtime, start};
use run_model::applications_stand;
use std::alloc::Global;

/// Starts the runtime and handles the lines of the source, each with its reply to the sink. Gives the status.
pub fn run<D: Disk, S: Source, K: Sink>(
    alloc: Global,
    migrations: &Migrations,
    source: &mut S,
    sink: &mut K,
    disk: &mut D,
) -> u8
    // By the converters and the status: what stood at the edges before the call, and what stands there after it.
    ensures run { Run D.told (converters_of migrations.now) result
        (edges S.Source K.Sink source.old sink.old (D.medium disk.old))
        (edges S.Source K.Sink source.new sink.new (D.medium disk.new)) }
    ensures time { Elapses (D.medium disk.old) (D.medium disk.new) }
{
    applications_stand();
    match start(alloc, disk) {
        Ok(runtime) => handle_input(alloc, runtime, migrations, source, sink, disk).status(),
        Err(Stop::Device) => DEVICE,
        Err(Stop::OutOfMemory) => OUT_OF_MEMORY,
    }
}

/// Handles the lines of the source with a runtime that started.
fn handle_input<D: Disk, S: Source, K: Sink>(
    alloc: Global,
    runtime: Runtime,
    migrations: &Migrations,
    source: &mut S,
    sink: &mut K,
    disk: &mut D,
) -> Ending
    requires { IsRuntime D.told (D.medium disk.old) runtime }
    ensures ran { AppLaws → (start : D)
        → Handled (outset D.Disk (converters_of migrations.now) start (K.written sink.old)) [] (K.written sink.old)
        (memory_of runtime) (D.medium disk.old)
        → RanOverInput (outset D.Disk (converters_of migrations.now) start (K.written sink.old)) result
        (S.left source.old) (S.left source.new) (K.written sink.new) (D.medium disk.new) }
    ensures blamed { Blamed result (K.faults sink.old) (K.faults sink.new) }
    ensures source_failed { result ≡ Ending.Source → Rose (S.faults source.old) (S.faults source.new) }
    ensures time { Elapses (D.medium disk.old) (D.medium disk.new) }
{
    match zeros(alloc, PIECE_BYTES) {
        Ok(mut buffer) => {
            let mut reader = Reader::new(alloc, runtime);
            read_all(
                &mut reader,
                migrations,
                source,
                sink,
                disk,
                buffer.as_mut_slice(),
            )
        }
        Err(_) => Ending::OutOfMemory,
    }
}

/// Handles all of the input, in pieces as long as the buffer.
fn read_all<D: Disk, S: Source, K: Sink>(
    reader: &mut Reader,
    migrations: &Migrations,
    source: &mut S,
    sink: &mut K,
    disk: &mut D,
    buffer: &mut [u8],
) -> Ending
    requires room { 0 < length buffer.old }
    requires memory { IsRuntime D.told (D.medium disk.old) reader.old.runtime }
    ensures ran { AppLaws → (start : D) (before : Option (List ℕ))
        → Reached (outset D.Disk (converters_of migrations.now) start before) [] (K.written sink.old)
        (reading (memory_of reader.old.runtime) reader.old.kept.items reader.old.number) (D.medium disk.old)
        → RanOverInput (outset D.Disk (converters_of migrations.now) start before) result (S.left source.old)
        (S.left source.new) (K.written sink.new) (D.medium disk.new) }
    ensures blamed { Blamed result (K.faults sink.old) (K.faults sink.new) }
    ensures source_failed { result ≡ Ending.Source → Rose (S.faults source.old) (S.faults source.new) }
    ensures time { Elapses (D.medium disk.old) (D.medium disk.new) }
{
    let mut taken = 0;
    while taken < INPUT_BYTES {
        let room = buffer.len().min(INPUT_BYTES - taken);
        match read_piece(source, buffer, room) {
            Ok(0) => return finish(reader, migrations, sink, disk),
            Ok(count) => match feed(reader, migrations, sink, disk, &buffer[..count]) {
                Ok(()) => taken += count,
                Err(ending) => return ending,
            },
            Err(_) => return Ending::Source,
        }
    }
    Ending::TooLong
}
