//! The job of a run that stays: its input has no bound, and a line outside the grammar is answered and ends nothing.

ghost use Rattle.std.specs.Prelude.{◌≡◌, ◌<◌, ◌+◌, ◌-◌, ◌^◌, ◌++◌, ℕ, List, [], ◌∷◌, Option, IfErr, OnOk, false};
ghost use Rattle.std.specs.Prelude.{length, min, take};
ghost use Rattle.disk_model.specs.Medium.{Elapses};
ghost use Rattle.per_base.specs.Causes.{Rose};
ghost use Rattle.run_model.specs.AppLaws.{AppLaws};
ghost use Rattle.run_model.specs.Converters.{converters_of};
ghost use Rattle.run_model.specs.Edges.{edges};
ghost use Rattle.run_model.specs.Lines.{lines_of};
ghost use Rattle.per_runtime.specs.Memories.{IsRuntime, memory_of};
ghost use Rattle.per_run.specs.Serves.{Heard, Serves, lines_in, next_line_number};
ghost use Rattle.per_run.specs.Serving.{Hearing, HearsOne, Listened, Served, Service};
ghost use Rattle.per_run.specs.Steps.{Blamed, Blames, Goes, HasNoFeed, ending_of, outset, reading};

use crate::answering::{LineOutcome, answer_line};
use crate::endings::{DEVICE, Ending, OUT_OF_MEMORY};
use crate::input::{PIECE_BYTES, read_piece, zeros};
use crate::preparing::prepare;
use crate::reader::{Reader, first_line, keep, print_bad_line, write_reply};
use crate::writing::write_made;
use deploy::Stop;
use disk_model::Disk;
use migrate_fns::Migrations;
use per_base::{Sink, Source};
use per_runtime::Runtime;
use run_model::applications_stand;
use std::alloc::Global;

/// Formats the disk where it is empty, starts the runtime, and handles the lines of the source until its end or
/// the line `end`, each with its reply to the sink. Gives the status: 0, or 3 to 7.
pub fn serve<D: Disk, S: Source, K: Sink>(
    alloc: Global,
    migrations: &Migrations,
    source: &mut S,
    sink: &mut K,
    disk: &mut D,
) -> u8
    // By the converters and the status: what stood at the edges before the call, and what stands there after it.
    ensures serves { Serves D.Disk (converters_of migrations.now) result
        (edges S.Source K.Sink source.old sink.old disk.old) (edges S.Source K.Sink source.new sink.new disk.new) }

    // To what crashes since an earlier moment might have left the call only adds; and no count falls.
    ensures time { Elapses (D.medium disk.old) (D.medium disk.new) }
{
    applications_stand();
    match prepare(alloc, disk) {
        Ok(runtime) => serve_input(alloc, runtime, migrations, source, sink, disk).status(),
        Err(Stop::Device) => DEVICE,
        Err(Stop::OutOfMemory) => OUT_OF_MEMORY,
    }
}

/// Handles the lines of the source with a runtime that started.
fn serve_input<D: Disk, S: Source, K: Sink>(
    alloc: Global,
    runtime: Runtime,
    migrations: &Migrations,
    source: &mut S,
    sink: &mut K,
    disk: &mut D,
) -> Ending
    requires { IsRuntime D.told (D.medium disk.old) runtime }
    ensures served { AppLaws → (start : D)
        → Hearing (outset D.Disk (converters_of migrations.now) start (K.written sink.old)) [] (K.written sink.old)
        (memory_of runtime) (D.medium disk.old)
        → Served (outset D.Disk (converters_of migrations.now) start (K.written sink.old)) result (S.left source.old)
        (S.left source.new) (K.written sink.new) (D.medium disk.new) }
    ensures blamed { Blamed result (K.faults sink.old) (K.faults sink.new) }
    ensures source_failed { result ≡ Ending.Source → Rose (S.faults source.old) (S.faults source.new) }
    ensures time { Elapses (D.medium disk.old) (D.medium disk.new) }
{
    match zeros(alloc, PIECE_BYTES) {
        Ok(mut buffer) => {
            let mut reader = Reader::new(alloc, runtime);
            serve_all(
                &mut reader,
                migrations,
                source,
                sink,
                disk,
                buffer.as_mut_slice(),
            )
        }
        Err(_) => Ending::OutOfMemory,
    }
}

/// Handles all of the input, in pieces as long as the buffer.
fn serve_all<D: Disk, S: Source, K: Sink>(
    reader: &mut Reader,
    migrations: &Migrations,
    source: &mut S,
    sink: &mut K,
    disk: &mut D,
    buffer: &mut [u8],
) -> Ending
    requires room { 0 < length buffer.old }
    requires memory { IsRuntime D.told (D.medium disk.old) reader.old.runtime }
    ensures served { AppLaws → (start : D) (before : Option (List ℕ))
        → Listened (outset D.Disk (converters_of migrations.now) start before) [] (K.written sink.old)
        (reading (memory_of reader.old.runtime) reader.old.kept.items reader.old.number) (D.medium disk.old)
        → Served (outset D.Disk (converters_of migrations.now) start before) result (S.left source.old)
        (S.left source.new) (K.written sink.new) (D.medium disk.new) }
    ensures blamed { Blamed result (K.faults sink.old) (K.faults sink.new) }
    ensures source_failed { result ≡ Ending.Source → Rose (S.faults source.old) (S.faults source.new) }
    ensures time { Elapses (D.medium disk.old) (D.medium disk.new) }
{
    for _pieces in 0..u64::MAX {
        let room = buffer.len();
        match read_piece(source, buffer, room) {
            Ok(0) => return Ending::AllRead,
            Ok(count) => match serve_piece(reader, migrations, sink, disk, &buffer[..count]) {
                Ok(()) => {}
                Err(ending) => return ending,
            },
            Err(_) => return Ending::Source,
        }
    }
    Ending::TooLong
}

/// Handles the bytes of one piece of the input.
fn serve_piece<D: Disk, K: Sink>(
    reader: &mut Reader,
    migrations: &Migrations,
    sink: &mut K,
    disk: &mut D,
    piece: &[u8],
) -> Result<(), Ending>
    requires { IsRuntime D.told (D.medium disk.old) reader.old.runtime }
    ensures goes_on { OnOk result ((start : D) (before : Option (List ℕ)) (given : List ℕ)
        → Listened (outset D.Disk (converters_of migrations.now) start before) given (K.written sink.old)
        (reading (memory_of reader.old.runtime) reader.old.kept.items reader.old.number) (D.medium disk.old)
        → Listened (outset D.Disk (converters_of migrations.now) start before) (given ++ piece.now)
        (K.written sink.new) (reading (memory_of reader.new.runtime) reader.new.kept.items reader.new.number)
        (D.medium disk.new)) }
    ensures ends { IfErr result (λ ending. AppLaws → (start : D) (before : Option (List ℕ)) (given : List ℕ)
        → Listened (outset D.Disk (converters_of migrations.now) start before) given (K.written sink.old)
        (reading (memory_of reader.old.runtime) reader.old.kept.items reader.old.number) (D.medium disk.old)
        → Service (outset D.Disk (converters_of migrations.now) start before) (ending_of ending)
        (lines_of false (given ++ piece.now)) (K.written sink.new) (D.medium disk.new)) }
    ensures memory { OnOk result (IsRuntime D.told (D.medium disk.new) reader.new.runtime) }
    ensures blames { Blames (K.faults sink.old) (K.faults sink.new) result }
    ensures time { Elapses (D.medium disk.old) (D.medium disk.new) }
{
    let mut rest = piece;
    while let Some((line, others)) = first_line(rest) {
        match serve_next(reader, migrations, sink, disk, line) {
            Ok(()) => rest = others,
            Err(ending) => return Err(ending),
        }
    }
    match keep(&mut reader.kept, rest) {
        Ok(()) => Ok(()),
        Err(ending) => Err(ending),
    }
}

/// Handles the line that ends with these bytes, among which is no line feed, and with the line feed after them.
fn serve_next<D: Disk, K: Sink>(
    reader: &mut Reader,
    migrations: &Migrations,
    sink: &mut K,
    disk: &mut D,
    line: &[u8],
) -> Result<(), Ending>
    requires memory { IsRuntime D.told (D.medium disk.old) reader.old.runtime }
    requires clean { HasNoFeed line.now }
    ensures goes_on { OnOk result ((start : D) (before : Option (List ℕ)) (given : List ℕ)
        → Listened (outset D.Disk (converters_of migrations.now) start before) given (K.written sink.old)
        (reading (memory_of reader.old.runtime) reader.old.kept.items reader.old.number) (D.medium disk.old)
        → Listened (outset D.Disk (converters_of migrations.now) start before) (given ++ (line.now ++ 10 ∷ []))
        (K.written sink.new) (reading (memory_of reader.new.runtime) reader.new.kept.items reader.new.number)
        (D.medium disk.new)) }
    ensures ends { IfErr result (λ ending. AppLaws → (start : D) (before : Option (List ℕ)) (given others : List ℕ)
        → Listened (outset D.Disk (converters_of migrations.now) start before) given (K.written sink.old)
        (reading (memory_of reader.old.runtime) reader.old.kept.items reader.old.number) (D.medium disk.old)
        → Service (outset D.Disk (converters_of migrations.now) start before) (ending_of ending)
        (lines_of false (given ++ (line.now ++ 10 ∷ others))) (K.written sink.new) (D.medium disk.new)) }
    ensures memory { OnOk result (IsRuntime D.told (D.medium disk.new) reader.new.runtime) }
    ensures blames { Blames (K.faults sink.old) (K.faults sink.new) result }
    ensures time { Elapses (D.medium disk.old) (D.medium disk.new) }
{
    match keep(&mut reader.kept, line) {
        Ok(()) => {}
        Err(ending) => return Err(ending),
    }
    match serve_line(reader, migrations, sink, disk) {
        Ok(()) => Ok(()),
        Err(ending) => Err(ending),
    }
}

/// Handles the line that is kept, and begins the next one.
fn serve_line<D: Disk, K: Sink>(
    reader: &mut Reader,
    migrations: &Migrations,
    sink: &mut K,
    disk: &mut D,
) -> Result<(), Ending>
    requires { IsRuntime D.told (D.medium disk.old) reader.old.runtime }
    ensures goes_on { OnOk result ((start : D) (before : Option (List ℕ)) (heard : List Heard) (text : List ℕ)
        → reader.old.kept.items ≡ take 262145 text → reader.old.number ≡ min (length heard) (2 ^ 64 - 1)
        → Hearing (outset D.Disk (converters_of migrations.now) start before) heard (K.written sink.old)
        (memory_of reader.old.runtime) (D.medium disk.old)
        → HearsOne (outset D.Disk (converters_of migrations.now) start before) heard text (K.written sink.new)
        (memory_of reader.new.runtime) (D.medium disk.new)) }
    ensures counts { OnOk result (reader.new.number ≡ min (reader.old.number + 1) (2 ^ 64 - 1)) }
    ensures clears { OnOk result (reader.new.kept.items ≡ []) }
    ensures ends { IfErr result (λ ending. AppLaws → (start : D) (before : Option (List ℕ))
        (heard : List Heard) (others : List (List ℕ)) (text : List ℕ)
        → reader.old.kept.items ≡ take 262145 text → reader.old.number ≡ min (length heard) (2 ^ 64 - 1)
        → Hearing (outset D.Disk (converters_of migrations.now) start before) heard (K.written sink.old)
        (memory_of reader.old.runtime) (D.medium disk.old)
        → Service (outset D.Disk (converters_of migrations.now) start before) (ending_of ending)
        (lines_in heard ++ text ∷ others) (K.written sink.new) (D.medium disk.new)) }
    ensures memory { OnOk result (IsRuntime D.told (D.medium disk.new) reader.new.runtime) }
    ensures blames { Blames (K.faults sink.old) (K.faults sink.new) result }
    ensures time { Elapses (D.medium disk.old) (D.medium disk.new) }
{
    let number = reader.number.saturating_add(1);
    match serve_text(
        reader.alloc,
        &mut reader.runtime,
        migrations,
        sink,
        disk,
        &mut reader.room,
        reader.kept.as_slice(),
        number,
    ) {
        Ok(()) => {
            reader.kept.clear();
            reader.number = number;
            Ok(())
        }
        Err(ending) => Err(ending),
    }
}

/// Handles a line, which is the one of this number: what it says is answered, or that it says nothing.
fn serve_text<D: Disk, K: Sink>(
    alloc: Global,
    runtime: &mut Runtime,
    migrations: &Migrations,
    sink: &mut K,
    disk: &mut D,
    room: &mut String,
    text: &[u8],
    number: u64,
) -> Result<(), Ending>
    requires { IsRuntime D.told (D.medium disk.old) runtime.old }
    ensures goes_on { OnOk result ((start : D) (before : Option (List ℕ)) (heard : List Heard) (whole : List ℕ)
        → text.now ≡ take 262145 whole → number ≡ next_line_number (length heard)
        → Hearing (outset D.Disk (converters_of migrations.now) start before) heard (K.written sink.old)
        (memory_of runtime.old) (D.medium disk.old)
        → HearsOne (outset D.Disk (converters_of migrations.now) start before) heard whole (K.written sink.new)
        (memory_of runtime.new) (D.medium disk.new)) }
    ensures ends { IfErr result (λ ending. AppLaws → (start : D) (before : Option (List ℕ))
        (heard : List Heard) (others : List (List ℕ)) (whole : List ℕ)
        → text.now ≡ take 262145 whole → number ≡ next_line_number (length heard)
        → Hearing (outset D.Disk (converters_of migrations.now) start before) heard (K.written sink.old)
        (memory_of runtime.old) (D.medium disk.old)
        → Service (outset D.Disk (converters_of migrations.now) start before) (ending_of ending)
        (lines_in heard ++ whole ∷ others) (K.written sink.new) (D.medium disk.new)) }
    ensures memory { OnOk result (IsRuntime D.told (D.medium disk.new) runtime.new) }
    ensures blames { Blames (K.faults sink.old) (K.faults sink.new) result }
    ensures time { Elapses (D.medium disk.old) (D.medium disk.new) }
{
    match answer_line(alloc, runtime, migrations, disk, text) {
        LineOutcome::Nothing => Ok(()),
        LineOutcome::Answered(reply) => write_reply(alloc, sink, room, &reply),
        LineOutcome::Bad => write_made(sink, print_bad_line(alloc, number)),
        LineOutcome::End => Err(Ending::EndLine),
        LineOutcome::OutOfMemory => Err(Ending::OutOfMemory),
    }
}
