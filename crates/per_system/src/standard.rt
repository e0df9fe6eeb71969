//! Standard input as a source, and standard output as a sink.

ghost use Rattle.std.specs.Prelude.{◌≡◌, ◌≤◌, ◌<◌, IfOk, length};
ghost use Rattle.std.specs.Io.KnownBytes.{WriteAppends};
ghost use Rattle.per_base.specs.Causes.{HasCause, Rose};

use per_base::{Failed, Sink, Source};
use std::io::{self, Read, Write};

/// A reader as a source. It counts its failures and does not model what is left.
#[derive(Drop)]
pub struct StdSource<T: Read + Drop> {
    reader: T,
    faults: u64,
    failure: Option<io::Error>,
}

impl<T: Read + Drop> StdSource<T> {
    /// The reader as a source that has not failed yet. No clause is needed: all that a caller relies on are the laws of
    /// the source.
    pub fn new(reader: T) -> StdSource<T> {
        StdSource {
            reader,
            faults: 0,
            failure: None,
        }
    }

    /// The last failure, for error reporting.
    pub fn failure(&self) -> Option<io::Error> {
        self.failure
    }
}

impl<T: Read + Drop> Source for StdSource<T> {
    ghost use Rattle.std.specs.Prelude.{None};

    ghost left = { λ _. None };

    ghost faults = { λ s. s.faults };

    fn read(&mut self, out: &mut [u8]) -> Result<usize, Failed> {
        match read_once(&mut self.reader, out) {
            Ok(count) => Ok(count),
            Err(error) => {
                self.faults = self.faults.saturating_add(1);
                self.failure = Some(error);
                Err(Failed)
            }
        }
    }
}

/// A writer as a sink. Each write goes to the system at once, so that what was taken is out. It counts its failures and
/// does not model what it took.
#[derive(Drop)]
pub struct StdSink<T: Write + Drop> {
    writer: T,
    faults: u64,
    failure: Option<io::Error>,
}

impl<T: Write + Drop> StdSink<T> {
    /// The writer as a sink that has not failed yet. No clause is needed: all that a caller relies on are the laws of
    /// the sink.
    pub fn new(writer: T) -> StdSink<T> {
        StdSink {
            writer,
            faults: 0,
            failure: None,
        }
    }

    /// The last failure, for error reporting.
    pub fn failure(&self) -> Option<io::Error> {
        self.failure
    }
}

impl<T: Write + Drop> Sink for StdSink<T> {
    ghost use Rattle.std.specs.Prelude.{None};

    ghost written = { λ _. None };

    ghost faults = { λ s. s.faults };

    fn write(&mut self, bytes: &[u8]) -> Result<usize, Failed>
        // At most all bytes are taken. The call fails, or takes none of some, only where the count of failures rose.
        ensures bound { IfOk result (λ n. n ≤ length bytes.now) }
        ensures cause { HasCause self.old.faults self.new.faults result }
        ensures stuck { IfOk result (λ n. n ≡ 0 → 0 < length bytes.now → Rose self.old.faults self.new.faults) }

        // Where the writer's bytes are known, they are those that it says it took.
        ensures takes { WriteAppends (T.contents self.old.writer) (T.contents self.new.writer) result bytes.now }
    {
        match write_once(&mut self.writer, bytes) {
            Ok(0) => {
                self.faults = self.faults.saturating_add(1);
                self.failure = Some(io::Error::from(io::ErrorKind::WriteZero));
                Ok(0)
            }
            Ok(count) => Ok(count),
            Err(error) => {
                self.faults = self.faults.saturating_add(1);
                self.failure = Some(error);
                Err(Failed)
            }
        }
    }
}

/// One read, which is asked for again where a signal came in between.
fn read_once<T: Read>(reader: &mut T, out: &mut [u8]) -> io::Result<usize>
    ensures { IfOk result (λ count. count ≤ length out.new) }
{
    for _ in 0..u64::MAX {
        match reader.read(out) {
            Err(error) if error.kind() == io::ErrorKind::Interrupted => {}
            done => return done,
        }
    }
    Err(io::Error::from(io::ErrorKind::Interrupted))
}

/// One write, likewise.
fn write_once<T: Write>(writer: &mut T, bytes: &[u8]) -> io::Result<usize>
    ensures bound { IfOk result (λ count. count ≤ length bytes.now) }
    ensures bytes { WriteAppends (T.contents writer.old) (T.contents writer.new) result bytes.now }
{
    for _ in 0..u64::MAX {
        match writer.write(bytes) {
            Err(error) if error.kind() == io::ErrorKind::Interrupted => {}
            done => return done,
        }
    }
    Err(io::Error::from(io::ErrorKind::Interrupted))
}
