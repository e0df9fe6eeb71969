//! From bytes to lines, and from lines to replies.

ghost use Rattle.std.specs.Prelude.{◌≡◌, ◌≢◌, ◌⊎◌, ◌<◌, ◌+◌, ◌-◌, ◌^◌, ◌++◌, ℕ, List, [], ◌∷◌, true, false, Option};
ghost use Rattle.std.specs.Prelude.{IfOk, IfErr, IfNone, IfSome, IsErrOf, IsTrue, None, OnOk, length, min, take};
ghost use Rattle.disk_model.specs.Medium.{Elapses};
ghost use Rattle.command_text.specs.Grammar.{IsEvent, IsLine};
ghost use Rattle.command_text.specs.Replies.{HasText, reply_text};
ghost use Rattle.command_text.specs.declared.lines.Line.{Line};
ghost use Rattle.run_model.specs.AppLaws.{AppLaws};
ghost use Rattle.run_model.specs.Converters.{converters_of};
ghost use Rattle.run_model.specs.Endings.{bad_line_text};
ghost use Rattle.run_model.specs.Lines.{lines_of};
ghost use Rattle.run_model.specs.Runtimes.{runtime_at, world_of};
ghost use Rattle.per_runtime.specs.Memories.{IsRuntime, memory_of};
ghost use Rattle.per_runtime.specs.Needs.{CommandMayStarve};
ghost use Rattle.per_run.specs.Needs.{HandlingMayStarve, ReplyMayStarve};
ghost use Rattle.per_run.specs.Steps.{Blamed, Blames, Course, Handled, HasNoFeed, IsBadLineAnswer, IsBroken, outset};
ghost use Rattle.per_run.specs.Steps.{PutsOutput, Reached, reading};
ghost use Rattle.per_run.specs.Steps.{ending_of};

use crate::endings::Ending;
use crate::long_values::{nested_value, write_value};
use crate::octets::{many_octets, write_octets};
use crate::writing::{write_made, write_text};
use command_text::{Event, LINE_BYTES, Line, LineError, Reply, parse_line_reusing, push_reply};
use disk_model::Disk;
use memchr::memchr;
use migrate_fns::Migrations;
use per_base::Sink;
use per_runtime::Runtime;
use std::alloc::{AllocError, Global};

/// How many bytes of room are kept for the text of the next reply.
const ROOM_BYTES: usize = 4_096;

/// How many bytes of room are kept at most for the bytes that the next line has.
const ARGUMENT_BYTES: usize = 65_536;

/// The runtime, the prefix of the line that is being read, how many lines were handled, and room for a reply's text and
/// for the bytes that a line has as its argument.
#[derive(Drop)]
pub struct Reader {
    pub alloc: Global,
    pub runtime: Runtime,
    pub kept: Vec<u8>,
    pub number: u64,
    pub room: String,
    pub argument: Vec<u8>,
}

impl Reader {
    /// A reader at the start of the input: no line was counted yet, and nothing of one is kept.
    pub fn new(alloc: Global, runtime: Runtime) -> Reader
        ensures runtime { result.runtime ≡ runtime }
        ensures kept { result.kept.items ≡ [] }
        ensures number { result.number ≡ 0 }
    {
        Reader {
            alloc,
            runtime,
            kept: Vec::new(alloc),
            number: 0,
            room: String::new(alloc),
            argument: Vec::new(alloc),
        }
    }
}

/// Handles the bytes of one piece of the input: each line that ends in it, and of the rest it keeps what may begin a
/// line.
pub fn feed<D: Disk, K: Sink>(
    reader: &mut Reader,
    migrations: &Migrations,
    sink: &mut K,
    disk: &mut D,
    piece: &[u8],
) -> Result<(), Ending>
    requires { IsRuntime D.told (D.medium disk.old) reader.old.runtime }
    // From wherever the reader stood since a start of the runtime (`Reached`), in an input of fewer than 2^63 bytes, it
    // stands one piece further; or the handling of the lines ended, and so (`Course`). The runtime started on the disk
    // `start`, when the sink had taken `before`, and `given` is what the reader was fed since; the end of the input was
    // not seen (`lines_of false`). `AppLaws` is what `applications_stand` of `run_model` shows.
    ensures goes_on { OnOk result ((start : D) (before : Option (List ℕ)) (given : List ℕ)
        → length (given ++ piece.now) < 2 ^ 63
        → Reached (outset D.Disk (converters_of migrations.now) start before) given (K.written sink.old)
        (reading (memory_of reader.old.runtime) reader.old.kept.items reader.old.number) (D.medium disk.old)
        → Reached (outset D.Disk (converters_of migrations.now) start before) (given ++ piece.now) (K.written sink.new)
        (reading (memory_of reader.new.runtime) reader.new.kept.items reader.new.number) (D.medium disk.new)) }
    ensures ends { IfErr result (λ ending. AppLaws → (start : D) (before : Option (List ℕ)) (given : List ℕ)
        → length (given ++ piece.now) < 2 ^ 63
        → Reached (outset D.Disk (converters_of migrations.now) start before) given (K.written sink.old)
        (reading (memory_of reader.old.runtime) reader.old.kept.items reader.old.number) (D.medium disk.old)
        → Course (outset D.Disk (converters_of migrations.now) start before) (ending_of ending)
        (lines_of false (given ++ piece.now)) (K.written sink.new) (D.medium disk.new)) }
    // What the runtime keeps in memory stays in use on the disk. An ending for the sink comes only where its count of
    // failures rose.
    ensures memory { OnOk result (IsRuntime D.told (D.medium disk.new) reader.new.runtime) }
    ensures blames { Blames (K.faults sink.old) (K.faults sink.new) result }
    ensures time { Elapses (D.medium disk.old) (D.medium disk.new) }
{
    let mut rest = piece;
    while let Some((line, others)) = first_line(rest) {
        match feed_line(reader, migrations, sink, disk, line) {
            Ok(()) => rest = others,
            Err(ending) => return Err(ending),
        }
    }
    match keep(&mut reader.kept, rest) {
        Ok(()) => Ok(()),
        Err(ending) => Err(ending),
    }
}

/// The bytes before the first line feed, and those after it.
pub(crate) fn first_line(bytes: &[u8]) -> Option<(&[u8], &[u8])>
    ensures parts { IfSome result (λ parts. bytes.now ≡ parts.0.now ++ 10 ∷ parts.1.now) }
    ensures clean { IfSome result (λ parts. HasNoFeed parts.0.now) }
    ensures none { IfNone result (HasNoFeed bytes.now) }
{
    match memchr(b'\n', bytes) {
        Some(at) => Some((&bytes[..at], &bytes[at + 1..])),
        None => None,
    }
}

/// Handles the last line, where the input ends and no line feed follows it.
pub fn finish<D: Disk, K: Sink>(
    reader: &mut Reader,
    migrations: &Migrations,
    sink: &mut K,
    disk: &mut D,
) -> Ending
    requires { IsRuntime D.told (D.medium disk.old) reader.old.runtime }
    // From wherever the reader stood since a start of the runtime (`Reached`), the handling of the lines ended so
    // (`Course`): all of them are handled, or it was broken off, for the sink only where its count of failures rose.
    // `start`, `before` and `given` are as in `feed`, and the end of the input was seen (`lines_of true`).
    ensures ends { AppLaws → (start : D) (before : Option (List ℕ)) (given : List ℕ) → length given < 2 ^ 63
        → Reached (outset D.Disk (converters_of migrations.now) start before) given (K.written sink.old)
        (reading (memory_of reader.old.runtime) reader.old.kept.items reader.old.number) (D.medium disk.old)
        → Course (outset D.Disk (converters_of migrations.now) start before) (ending_of result) (lines_of true given)
        (K.written sink.new) (D.medium disk.new) }
    ensures inner { (result ≡ Ending.AllRead) ⊎ IsBroken result }
    ensures blamed { Blamed result (K.faults sink.old) (K.faults sink.new) }
    // Memory runs out only in the handling of the line that is kept.
    ensures needs { IsTrue D.told → result ≡ Ending.OutOfMemory
        → HandlingMayStarve D.told (converters_of migrations.now) reader.old.kept.items
        (runtime_at (memory_of reader.old.runtime) (D.medium disk.old))
        (runtime_at (memory_of reader.new.runtime) (D.medium disk.new)) }
    ensures time { Elapses (D.medium disk.old) (D.medium disk.new) }
{
    if reader.kept.as_slice().is_empty() {
        return Ending::AllRead;
    }
    match handle_line(reader, migrations, sink, disk) {
        Ok(()) => Ending::AllRead,
        Err(ending) => ending,
    }
}

/// Handles the line that ends with these bytes, among which is no line feed, and with the line feed after them.
fn feed_line<D: Disk, K: Sink>(
    reader: &mut Reader,
    migrations: &Migrations,
    sink: &mut K,
    disk: &mut D,
    line: &[u8],
) -> Result<(), Ending>
    requires memory { IsRuntime D.told (D.medium disk.old) reader.old.runtime }
    requires clean { HasNoFeed line.now }
    ensures goes_on { OnOk result ((start : D) (before : Option (List ℕ)) (given : List ℕ)
        → length (given ++ line.now) < 2 ^ 63
        → Reached (outset D.Disk (converters_of migrations.now) start before) given (K.written sink.old)
        (reading (memory_of reader.old.runtime) reader.old.kept.items reader.old.number) (D.medium disk.old)
        → Reached (outset D.Disk (converters_of migrations.now) start before) (given ++ (line.now ++ 10 ∷ []))
        (K.written sink.new) (reading (memory_of reader.new.runtime) reader.new.kept.items reader.new.number)
        (D.medium disk.new)) }
    ensures ends { IfErr result (λ ending. AppLaws → (start : D) (before : Option (List ℕ)) (given others : List ℕ)
        → length (given ++ line.now) < 2 ^ 63
        → Reached (outset D.Disk (converters_of migrations.now) start before) given (K.written sink.old)
        (reading (memory_of reader.old.runtime) reader.old.kept.items reader.old.number) (D.medium disk.old)
        → Course (outset D.Disk (converters_of migrations.now) start before) (ending_of ending)
        (lines_of false (given ++ (line.now ++ 10 ∷ others))) (K.written sink.new) (D.medium disk.new)) }
    ensures memory { OnOk result (IsRuntime D.told (D.medium disk.new) reader.new.runtime) }
    // Memory runs out only where the bytes are put after those that are kept, or in the handling of the line.
    ensures needs { IsTrue D.told → IsErrOf result Ending.OutOfMemory → (reader.old.kept.items ≢ [])
        ⊎ HandlingMayStarve D.told (converters_of migrations.now) (take 262145 line.now)
        (runtime_at (memory_of reader.old.runtime) (D.medium disk.old))
        (runtime_at (memory_of reader.new.runtime) (D.medium disk.new)) }
    ensures blames { Blames (K.faults sink.old) (K.faults sink.new) result }
    ensures time { Elapses (D.medium disk.old) (D.medium disk.new) }
{
    if reader.kept.as_slice().is_empty() {
        return handle_whole(reader, migrations, sink, disk, line);
    }
    match keep(&mut reader.kept, line) {
        Ok(()) => {}
        Err(ending) => return Err(ending),
    }
    match handle_line(reader, migrations, sink, disk) {
        Ok(()) => Ok(()),
        Err(ending) => Err(ending),
    }
}

/// Puts bytes after the prefix of the line that is kept: one byte more than a line may have, 262,145, is kept of it and
/// no more.
pub fn keep(kept: &mut Vec<u8>, bytes: &[u8]) -> Result<(), Ending>
    // `rest` is all of the line that was read before. Only running out of memory ends it.
    ensures kept { OnOk result ((rest : List ℕ) → kept.old.items ≡ take 262145 rest
        → kept.new.items ≡ take 262145 (rest ++ bytes.now)) }
    ensures memory { IfErr result (λ ending. ending ≡ Ending.OutOfMemory) }
{
    let room = (LINE_BYTES + 1).saturating_sub(kept.len());
    let count = bytes.len().min(room);
    match kept.extend_from_slice(&bytes[..count]) {
        Ok(()) => Ok(()),
        Err(_) => Err(Ending::OutOfMemory),
    }
}

/// Handles a line of which nothing is kept, where it lies.
fn handle_whole<D: Disk, K: Sink>(
    reader: &mut Reader,
    migrations: &Migrations,
    sink: &mut K,
    disk: &mut D,
    line: &[u8],
) -> Result<(), Ending>
    requires { IsRuntime D.told (D.medium disk.old) reader.old.runtime }
    ensures goes_on { OnOk result ((start : D) (before : Option (List ℕ)) (lines : List (List ℕ)) (text : List ℕ)
        → take 262145 line.now ≡ take 262145 text
        → Handled (outset D.Disk (converters_of migrations.now) start before) lines (K.written sink.old)
        (memory_of reader.old.runtime) (D.medium disk.old)
        → Handled (outset D.Disk (converters_of migrations.now) start before) (lines ++ text ∷ []) (K.written sink.new)
        (memory_of reader.new.runtime) (D.medium disk.new)) }
    ensures counts { OnOk result (reader.new.number ≡ min (reader.old.number + 1) (2 ^ 64 - 1)) }
    ensures keeps { OnOk result (reader.new.kept.items ≡ reader.old.kept.items) }
    ensures ends { IfErr result (λ ending. AppLaws → (start : D) (before : Option (List ℕ))
        (lines others : List (List ℕ)) (text : List ℕ)
        → take 262145 line.now ≡ take 262145 text → reader.old.number ≡ length lines → length lines < 2 ^ 63
        → Handled (outset D.Disk (converters_of migrations.now) start before) lines (K.written sink.old)
        (memory_of reader.old.runtime) (D.medium disk.old)
        → Course (outset D.Disk (converters_of migrations.now) start before) (ending_of ending)
        (lines ++ text ∷ others) (K.written sink.new) (D.medium disk.new)) }
    ensures memory { OnOk result (IsRuntime D.told (D.medium disk.new) reader.new.runtime) }
    ensures needs { IsTrue D.told → IsErrOf result Ending.OutOfMemory
        → HandlingMayStarve D.told (converters_of migrations.now) (take 262145 line.now)
        (runtime_at (memory_of reader.old.runtime) (D.medium disk.old))
        (runtime_at (memory_of reader.new.runtime) (D.medium disk.new)) }
    ensures blames { Blames (K.faults sink.old) (K.faults sink.new) result }
    ensures time { Elapses (D.medium disk.old) (D.medium disk.new) }
{
    let number = reader.number.saturating_add(1);
    let count = line.len().min(LINE_BYTES + 1);
    match handle_text(
        reader.alloc,
        &mut reader.runtime,
        migrations,
        sink,
        disk,
        &mut reader.room,
        &mut reader.argument,
        &line[..count],
        number,
    ) {
        Ok(()) => {
            reader.number = number;
            Ok(())
        }
        Err(ending) => Err(ending),
    }
}

/// Handles the line that is kept, and begins the next one.
fn handle_line<D: Disk, K: Sink>(
    reader: &mut Reader,
    migrations: &Migrations,
    sink: &mut K,
    disk: &mut D,
) -> Result<(), Ending>
    requires { IsRuntime D.told (D.medium disk.old) reader.old.runtime }
    ensures goes_on { OnOk result ((start : D) (before : Option (List ℕ)) (lines : List (List ℕ)) (text : List ℕ)
        → reader.old.kept.items ≡ take 262145 text
        → Handled (outset D.Disk (converters_of migrations.now) start before) lines (K.written sink.old)
        (memory_of reader.old.runtime) (D.medium disk.old)
        → Handled (outset D.Disk (converters_of migrations.now) start before) (lines ++ text ∷ []) (K.written sink.new)
        (memory_of reader.new.runtime) (D.medium disk.new)) }
    ensures counts { OnOk result (reader.new.number ≡ min (reader.old.number + 1) (2 ^ 64 - 1)) }
    ensures clears { OnOk result (reader.new.kept.items ≡ []) }
    ensures ends { IfErr result (λ ending. AppLaws → (start : D) (before : Option (List ℕ))
        (lines others : List (List ℕ)) (text : List ℕ)
        → reader.old.kept.items ≡ take 262145 text → reader.old.number ≡ length lines → length lines < 2 ^ 63
        → Handled (outset D.Disk (converters_of migrations.now) start before) lines (K.written sink.old)
        (memory_of reader.old.runtime) (D.medium disk.old)
        → Course (outset D.Disk (converters_of migrations.now) start before) (ending_of ending)
        (lines ++ text ∷ others) (K.written sink.new) (D.medium disk.new)) }
    ensures memory { OnOk result (IsRuntime D.told (D.medium disk.new) reader.new.runtime) }
    ensures needs { IsTrue D.told → IsErrOf result Ending.OutOfMemory
        → HandlingMayStarve D.told (converters_of migrations.now) reader.old.kept.items
        (runtime_at (memory_of reader.old.runtime) (D.medium disk.old))
        (runtime_at (memory_of reader.new.runtime) (D.medium disk.new)) }
    ensures blames { Blames (K.faults sink.old) (K.faults sink.new) result }
    ensures time { Elapses (D.medium disk.old) (D.medium disk.new) }
{
    let number = reader.number.saturating_add(1);
    match handle_text(
        reader.alloc,
        &mut reader.runtime,
        migrations,
        sink,
        disk,
        &mut reader.room,
        &mut reader.argument,
        reader.kept.as_slice(),
        number,
    ) {
        Ok(()) => {
            reader.kept.clear();
            reader.number = number;
            Ok(())
        }
        Err(ending) => Err(ending),
    }
}

/// Handles a line, which is the one of this number, counted from 1.
fn handle_text<D: Disk, K: Sink>(
    alloc: Global,
    runtime: &mut Runtime,
    migrations: &Migrations,
    sink: &mut K,
    disk: &mut D,
    room: &mut String,
    argument: &mut Vec<u8>,
    text: &[u8],
    number: u64,
) -> Result<(), Ending>
    requires { IsRuntime D.told (D.medium disk.old) runtime.old }
    ensures goes_on { OnOk result ((start : D) (before : Option (List ℕ)) (lines : List (List ℕ)) (whole : List ℕ)
        → text.now ≡ take 262145 whole
        → Handled (outset D.Disk (converters_of migrations.now) start before) lines (K.written sink.old)
        (memory_of runtime.old) (D.medium disk.old)
        → Handled (outset D.Disk (converters_of migrations.now) start before) (lines ++ whole ∷ [])
        (K.written sink.new) (memory_of runtime.new) (D.medium disk.new)) }
    ensures ends { IfErr result (λ ending. AppLaws → (start : D) (before : Option (List ℕ))
        (lines others : List (List ℕ)) (whole : List ℕ)
        → text.now ≡ take 262145 whole → number ≡ length lines + 1
        → Handled (outset D.Disk (converters_of migrations.now) start before) lines (K.written sink.old)
        (memory_of runtime.old) (D.medium disk.old)
        → Course (outset D.Disk (converters_of migrations.now) start before) (ending_of ending)
        (lines ++ whole ∷ others) (K.written sink.new) (D.medium disk.new)) }
    ensures memory { OnOk result (IsRuntime D.told (D.medium disk.new) runtime.new) }
    // Memory runs out only for a line that may need it, for the reply's text once the command is done, or for the
    // answer to a line outside the grammar.
    ensures needs { IsTrue D.told → IsErrOf result Ending.OutOfMemory
        → HandlingMayStarve D.told (converters_of migrations.now) text.now
        (runtime_at (memory_of runtime.old) (D.medium disk.old))
        (runtime_at (memory_of runtime.new) (D.medium disk.new)) }
    ensures blames { Blames (K.faults sink.old) (K.faults sink.new) result }
    ensures time { Elapses (D.medium disk.old) (D.medium disk.new) }
{
    match parse_line_reusing(alloc, argument, text) {
        Ok(Line::Nothing) => Ok(()),
        Ok(Line::Event(event)) => {
            let handled = handle_event(alloc, runtime, migrations, sink, disk, room, &event);
            keep_argument(argument, event);
            handled
        }
        Ok(Line::End) => Err(Ending::EndLine),
        Err(LineError::NotALine) => Err(refuse(alloc, sink, number)),
        Err(LineError::OutOfMemory) => Err(Ending::OutOfMemory),
    }
}

/// Keeps the memory of the bytes that the event had, for those of the next one.
fn keep_argument(argument: &mut Vec<u8>, event: Event) {
    if let Some(bytes) = event.into_bytes() {
        *argument = bytes.into_vec();
        argument.clear();
        argument.shrink_to(ARGUMENT_BYTES);
    }
}

/// Does what a command says, and writes its reply where it is, which is not small.
#[inline(never)]
fn handle_event<D: Disk, K: Sink>(
    alloc: Global,
    runtime: &mut Runtime,
    migrations: &Migrations,
    sink: &mut K,
    disk: &mut D,
    room: &mut String,
    event: &Event,
) -> Result<(), Ending>
    requires event { IsEvent event.now }
    requires memory { IsRuntime D.told (D.medium disk.old) runtime.old }
    ensures goes_on { OnOk result ((start : D) (before : Option (List ℕ)) (lines : List (List ℕ)) (text : List ℕ)
        → IsLine text (Line.Event event.now)
        → Handled (outset D.Disk (converters_of migrations.now) start before) lines (K.written sink.old)
        (memory_of runtime.old) (D.medium disk.old)
        → Handled (outset D.Disk (converters_of migrations.now) start before) (lines ++ text ∷ []) (K.written sink.new)
        (memory_of runtime.new) (D.medium disk.new)) }
    ensures ends { IfErr result (λ ending. AppLaws → (start : D) (before : Option (List ℕ))
        (lines others : List (List ℕ)) (text : List ℕ)
        → IsLine text (Line.Event event.now)
        → Handled (outset D.Disk (converters_of migrations.now) start before) lines (K.written sink.old)
        (memory_of runtime.old) (D.medium disk.old)
        → Course (outset D.Disk (converters_of migrations.now) start before) (ending_of ending)
        (lines ++ text ∷ others) (K.written sink.new) (D.medium disk.new)) }
    ensures memory { OnOk result (IsRuntime D.told (D.medium disk.new) runtime.new) }
    // Memory runs out only for a command that may need it, or for the reply's text once the command is done.
    ensures needs { IsTrue D.told → IsErrOf result Ending.OutOfMemory → (text : List ℕ)
        → IsLine text (Line.Event event.now)
        → CommandMayStarve (world_of (D.medium disk.old).image (memory_of runtime.old) None) event.now
        ⊎ ReplyMayStarve D.told (converters_of migrations.now) text
        (runtime_at (memory_of runtime.old) (D.medium disk.old))
        (runtime_at (memory_of runtime.new) (D.medium disk.new)) }
    ensures blames { Blames (K.faults sink.old) (K.faults sink.new) result }
    ensures time { Elapses (D.medium disk.old) (D.medium disk.new) }
{
    match runtime.step(disk, migrations, event) {
        Ok(reply) => write_reply(alloc, sink, room, &reply),
        Err(_) => Err(Ending::OutOfMemory),
    }
}

/// Writes the reply of a command.
///
/// Many bytes, and a value with others in it, are written piece by piece. Where memory runs out the sink takes nothing
/// of the reply, and where the sink fails not all.
pub fn write_reply<K: Sink>(
    alloc: Global,
    sink: &mut K,
    room: &mut String,
    reply: &Reply,
) -> Result<(), Ending>
    requires { HasText reply.now.answer }
    // The sink took the whole text; or it failed, only where its count of failures rose; or memory ran out.
    ensures puts { PutsOutput (reply_text reply.now) (K.written sink.old) (K.written sink.new) result }
    ensures blames { Blames (K.faults sink.old) (K.faults sink.new) result }
{
    match many_octets(reply) {
        Some(bytes) => write_octets(alloc, sink, bytes),
        None => write_nested(alloc, sink, room, reply),
    }
}

/// The same of a reply that has not many bytes.
#[inline(always)]
fn write_nested<K: Sink>(
    alloc: Global,
    sink: &mut K,
    room: &mut String,
    reply: &Reply,
) -> Result<(), Ending>
    requires { HasText reply.now.answer }
    ensures puts { PutsOutput (reply_text reply.now) (K.written sink.old) (K.written sink.new) result }
    ensures blames { Blames (K.faults sink.old) (K.faults sink.new) result }
{
    match nested_value(reply) {
        Some(value) => write_value(alloc, sink, value),
        None => write_at_once(sink, room, reply),
    }
}

/// Writes a reply whose text is made in the room of the one before it.
fn write_at_once<K: Sink>(sink: &mut K, room: &mut String, reply: &Reply) -> Result<(), Ending>
    requires { HasText reply.now.answer }
    ensures puts { PutsOutput (reply_text reply.now) (K.written sink.old) (K.written sink.new) result }
    ensures blames { Blames (K.faults sink.old) (K.faults sink.new) result }
{
    room.clear();
    match push_reply(room, reply) {
        Ok(()) => {}
        Err(_) => return Err(Ending::OutOfMemory),
    }
    let written = write_text(sink, room.as_bytes());
    room.clear();
    room.shrink_to(ROOM_BYTES);
    written
}

/// Answers a line that is outside the grammar, and gives how the handling ends.
#[cold]
#[inline(never)]
fn refuse<K: Sink>(alloc: Global, sink: &mut K, number: u64) -> Ending
    ensures refuses { IsBadLineAnswer (bad_line_text number) (K.written sink.old) (K.written sink.new) result }
    ensures blamed { Blamed result (K.faults sink.old) (K.faults sink.new) }
{
    match write_made(sink, print_bad_line(alloc, number)) {
        Ok(()) => Ending::BadLine,
        Err(ending) => ending,
    }
}

/// The answer to the line of this number, which is outside the grammar, with its line feed.
pub fn print_bad_line(alloc: Global, number: u64) -> Result<Vec<u8>, AllocError>
    ensures { IfOk result (λ text. text.items ≡ bad_line_text number) }
{
    let text = format!(in alloc; "bad-line {number}\n")?;
    Ok(text.into_bytes())
}
