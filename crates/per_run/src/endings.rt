//! The ways in which the handling of an input ends, and the statuses of the program.

/// How the handling of an input ended.
#[derive(Clone, Copy, Debug, PartialEq, Eq)]
pub enum Ending {
    /// The input was read to its end.
    AllRead,
    /// The line `end` was read.
    EndLine,
    /// A line is outside the grammar.
    BadLine,
    /// Memory ran out.
    OutOfMemory,
    /// The source failed.
    Source,
    /// The sink failed.
    Sink,
    /// The input is too long.
    TooLong,
}

impl Ending {
    ghost use Rattle.std.specs.Prelude.{◌≡◌};
    ghost use Rattle.run_model.specs.Endings.{ending_status};
    ghost use Rattle.per_run.specs.Steps.{ending_of};

    /// The status of the program where the handling of its input ended so.
    pub fn status(self) -> u8
        ensures { result ≡ ending_status (ending_of self) }
    {
        match self {
            Ending::AllRead | Ending::EndLine => DONE,
            Ending::BadLine => BAD_LINE,
            Ending::OutOfMemory => OUT_OF_MEMORY,
            Ending::Source => SOURCE,
            Ending::Sink => SINK,
            Ending::TooLong => TOO_LONG,
        }
    }
}

/// The status where all is done.
pub const DONE: u8 = 0;

/// The status where the arguments are invalid.
pub const REFUSED: u8 = 1;

/// The status where a line is outside the grammar.
pub const BAD_LINE: u8 = 2;

/// The status where the disk failed while it was formatted or the runtime started, or in an audit, a listing, an
/// export, an import or the recovery of a root.
pub const DEVICE: u8 = 3;

/// The status where memory ran out.
pub const OUT_OF_MEMORY: u8 = 4;

/// The status where the source failed.
pub const SOURCE: u8 = 5;

/// The status where the sink failed.
pub const SINK: u8 = 6;

/// The status where the input is too long.
pub const TOO_LONG: u8 = 7;

/// The status where an audit found something, and the sink took all of its text.
pub const FOUND: u8 = 8;

/// The status where an export, an import or the recovery of a root is refused, and the sink took its line whole.
pub const CALL_REFUSED: u8 = 9;

/// The status where a flash cannot be a disk.
pub const UNUSABLE: u8 = 10;

/// The status where a flash has too few blocks or too many.
pub const WRONG_SIZE: u8 = 11;
