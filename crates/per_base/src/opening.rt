//! How a file is opened, and from where a position is counted.

ghost use Rattle.std.specs.Prelude.{⊤, ◌≡◌, [], ◌∷◌, codes};

use bitflags::{Flag, Flags, bitflag_items};

/// What a handle may do.
#[derive(Clone, Copy, Debug, PartialEq, Eq)]
pub enum OpenKind {
    Read,
    Write,
    ReadWrite,
}

/// From where a move of the position counts.
#[derive(Clone, Copy, Debug, PartialEq, Eq)]
pub enum Origin {
    Beginning,
    Current,
    End,
}

/// The flags of an opening, as a set of bits.
#[derive(Clone, Copy, Debug, PartialEq, Eq)]
pub struct OpenMode(u8);

bitflag_items! {
    impl OpenMode: u8 {
        const AT_THE_BEGINNING = 1;
        const AT_THE_END = 2;
        const TRUNCATE = 4;
        const APPEND = 8;
    }
}

impl Flags for OpenMode {
    type Bits = u8;

    ghost exact = { ⊤ };

    ghost table = { (codes "AT_THE_BEGINNING", 1) ∷ (codes "AT_THE_END", 2)
        ∷ (codes "TRUNCATE", 4) ∷ (codes "APPEND", 8) ∷ [] };

    ghost set_of = { λ mode. mode.0 };

    fn flags<'a>() -> &'a [Flag<OpenMode>] {
        OpenMode::FLAGS
    }

    fn bits(&self) -> u8 {
        self.0
    }

    fn from_bits_retain(bits: u8) -> OpenMode {
        OpenMode(bits)
    }
}

ghost use Rattle.per_base.specs.Modes.{appends, at_beginning, at_end, truncates};

impl OpenMode {
    /// Whether the file is opened with the position at its start.
    pub fn is_at_the_beginning(self) -> bool
        ensures { result ≡ at_beginning self }
    {
        self.contains(OpenMode::AT_THE_BEGINNING)
    }

    /// Whether the file is opened with the position at its end.
    pub fn is_at_the_end(self) -> bool
        ensures { result ≡ at_end self }
    {
        self.contains(OpenMode::AT_THE_END)
    }

    /// Whether the file is to be emptied.
    pub fn is_truncating(self) -> bool
        ensures { result ≡ truncates self }
    {
        self.contains(OpenMode::TRUNCATE)
    }

    /// Whether each write goes to the end.
    pub fn is_appending(self) -> bool
        ensures { result ≡ appends self }
    {
        self.contains(OpenMode::APPEND)
    }
}
