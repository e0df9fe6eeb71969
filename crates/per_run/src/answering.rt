//! One line: what it says, and its command's answer.

ghost use Rattle.std.specs.Prelude.{◌≡◌, ℕ, List, IsTrue, None, ◌≢◌};
ghost use Rattle.disk_model.specs.Medium.{Elapses};
ghost use Rattle.command_text.specs.Grammar.{IsEvent, IsLine};
ghost use Rattle.command_text.specs.declared.lines.Line.{Line};
ghost use Rattle.run_model.specs.Converters.{converters_of};
ghost use Rattle.run_model.specs.Runtimes.{runtime_at, world_of};
ghost use Rattle.per_runtime.specs.Memories.{IsRuntime, memory_of};
ghost use Rattle.per_runtime.specs.Needs.{CommandMayStarve};
ghost use Rattle.per_run.specs.Needs.{LineMayStarve};
ghost use Rattle.per_run.specs.Steps.{IsLineOutcome};
ghost use Rattle.per_run.specs.declared.answering.LineOutcome.{LineOutcome};

use command_text::{Event, Line, LineError, Reply, parse_line};
use disk_model::Disk;
use migrate_fns::Migrations;
use per_runtime::Runtime;
use std::alloc::Global;

/// The outcome of a line.
#[derive(Drop)]
pub enum LineOutcome {
    /// It says nothing.
    Nothing,
    /// It is the end.
    End,
    /// It is outside the grammar.
    Bad,
    /// Its command was answered.
    Answered(Reply),
    /// Memory ran out.
    OutOfMemory,
}

/// Reads a line and does what it says: nothing, or a command, which the runtime answers; or it ends the input, or is no
/// line.
#[inline(always)]
pub fn answer_line<D: Disk>(
    alloc: Global,
    runtime: &mut Runtime,
    migrations: &Migrations,
    disk: &mut D,
    text: &[u8],
) -> LineOutcome
    requires { IsRuntime D.told (D.medium disk.old) runtime.old }
    // What came of the line, from the memory and the disk before it to those after it.
    ensures answered { IsLineOutcome D.Disk (converters_of migrations.now) text.now
        (runtime_at (memory_of runtime.old) disk.old) (runtime_at (memory_of runtime.new) disk.new) result }
    // The runtime stays in use, unless memory ran out.
    ensures memory { result ≢ LineOutcome.OutOfMemory → IsRuntime D.told (D.medium disk.new) runtime.new }
    // Memory runs out only for a line that has arguments, or for a command that may need it.
    ensures needs { IsTrue D.told → result ≡ LineOutcome.OutOfMemory
        → LineMayStarve (D.medium disk.old).image (memory_of runtime.old) text.now }
    ensures time { Elapses (D.medium disk.old) (D.medium disk.new) }
{
    match parse_line(alloc, text) {
        Ok(Line::Nothing) => LineOutcome::Nothing,
        Ok(Line::End) => LineOutcome::End,
        Ok(Line::Event(event)) => answer(runtime, migrations, disk, &event),
        Err(LineError::NotALine) => LineOutcome::Bad,
        Err(LineError::OutOfMemory) => LineOutcome::OutOfMemory,
    }
}

/// Does what a command says.
#[inline(never)]
fn answer<D: Disk>(
    runtime: &mut Runtime,
    migrations: &Migrations,
    disk: &mut D,
    event: &Event,
) -> LineOutcome
    requires event { IsEvent event.now }
    requires memory { IsRuntime D.told (D.medium disk.old) runtime.old }
    ensures answered { (text : List ℕ) → IsLine text (Line.Event event.now)
        → IsLineOutcome D.Disk (converters_of migrations.now) text (runtime_at (memory_of runtime.old) disk.old)
        (runtime_at (memory_of runtime.new) disk.new) result }
    ensures memory { result ≢ LineOutcome.OutOfMemory → IsRuntime D.told (D.medium disk.new) runtime.new }
    ensures needs { IsTrue D.told → result ≡ LineOutcome.OutOfMemory
        → CommandMayStarve (world_of (D.medium disk.old).image (memory_of runtime.old) None) event.now }
    ensures time { Elapses (D.medium disk.old) (D.medium disk.new) }
{
    match runtime.step(disk, migrations, event) {
        Ok(reply) => LineOutcome::Answered(reply),
        Err(_) => LineOutcome::OutOfMemory,
    }
}
