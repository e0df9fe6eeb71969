//! Whole texts to a sink.

ghost use Rattle.std.specs.Prelude.{◌≡◌, ◌⊎◌, ◌≤◌, ℕ, List, OnOk, OnErr, IfOk, IsErr, IsErrOf};
ghost use Rattle.std.specs.Io.KnownBytes.{Appends};
ghost use Rattle.per_base.specs.Causes.{HasCause, Rose};
ghost use Rattle.per_run.specs.Jobs.{IsOutputWritten, WritesOutput, WroteProperPrefix};
ghost use Rattle.per_run.specs.Steps.{Blames, PutsOutput};

use crate::endings::{Ending, OUT_OF_MEMORY, SINK};
use per_base::{Failed, Sink};
use std::alloc::AllocError;

/// Hands the whole text to the sink; where the sink fails, it has taken less than the whole.
pub fn write_all<K: Sink>(sink: &mut K, text: &[u8]) -> Result<(), Failed>
    // The sink took the whole text; or a proper prefix, where it failed, and then its count of failures rose.
    ensures whole { OnOk result (Appends (K.written sink.old) (K.written sink.new) text.now) }
    ensures cut { OnErr result (WroteProperPrefix (K.written sink.old) (K.written sink.new) text.now) }
    ensures cause { HasCause (K.faults sink.old) (K.faults sink.new) result }
{
    let mut done = 0;
    while done < text.len() {
        match sink.write(&text[done..]) {
            Ok(0) => return Err(Failed),
            Ok(count) => done += count,
            Err(failed) => return Err(failed),
        }
    }
    Ok(())
}

/// Hands a text that was made to the sink, where there was memory for it.
pub fn write_made<K: Sink>(sink: &mut K, made: Result<Vec<u8>, AllocError>) -> Result<(), Ending>
    // Of a text that was made the sink took all, or it failed, only where its count of failures rose; else nothing, and
    // only then memory ran out.
    ensures puts { (text : List ℕ) → IfOk made (λ bytes. bytes.items ≡ text)
        → PutsOutput text (K.written sink.old) (K.written sink.new) result }
    ensures blames { Blames (K.faults sink.old) (K.faults sink.new) result }
    ensures memory { IsErrOf result Ending.OutOfMemory → IsErr made }
{
    match made {
        Ok(text) => write_text(sink, text.as_slice()),
        Err(_) => Err(Ending::OutOfMemory),
    }
}

/// Hands a text to the sink.
pub fn write_text<K: Sink>(sink: &mut K, text: &[u8]) -> Result<(), Ending>
    // The sink took the whole text, or it failed and took less, only where its count of failures rose. Memory does not
    // run out.
    ensures puts { PutsOutput text.now (K.written sink.old) (K.written sink.new) result }
    ensures blames { Blames (K.faults sink.old) (K.faults sink.new) result }
    ensures never { ¬ (IsErrOf result Ending.OutOfMemory) }
{
    match write_all(sink, text) {
        Ok(()) => Ok(()),
        Err(_) => Err(Ending::Sink),
    }
}

/// Hands the whole output of a job to the sink, and gives the status of the program, which is `done` where the sink
/// took all.
pub fn write_output<K: Sink>(sink: &mut K, text: &[u8], done: u8) -> u8
    requires { IsOutputWritten done }
    // The sink took the whole text, and the status is `done`; or it failed, its count rose, and the status is 6.
    ensures output { WritesOutput result (K.written sink.old) (K.written sink.new) text.now }
    ensures status { (result ≡ done) ⊎ ((result ≡ 6) × Rose (K.faults sink.old) (K.faults sink.new)) }
    ensures later { K.faults sink.old ≤ K.faults sink.new }
{
    match write_all(sink, text) {
        Ok(()) => done,
        Err(_) => SINK,
    }
}

/// Hands the output of a job, where there was memory to make it, to the sink, and gives the status: `done` where the
/// sink took all, 4 where memory ran out, and 6 where the sink failed.
pub fn write_made_output<K: Sink>(sink: &mut K, made: Result<Vec<u8>, AllocError>, done: u8) -> u8
    requires { IsOutputWritten done }
    // What the sink took is by the status all of the text, less, or nothing; 6 comes only where the count of its
    // failures rose, and 4 only where no text was made.
    ensures output { (text : List ℕ) → IfOk made (λ bytes. bytes.items ≡ text)
        → WritesOutput result (K.written sink.old) (K.written sink.new) text }
    ensures status { (result ≡ done) ⊎ ((result ≡ 4) ⊎ ((result ≡ 6) × Rose (K.faults sink.old) (K.faults sink.new))) }
    ensures memory { result ≡ 4 → IsErr made }
{
    match made {
        Ok(text) => write_output(sink, text.as_slice(), done),
        Err(_) => OUT_OF_MEMORY,
    }
}
