//! The two streams of the outside: a source of bytes and a sink for bytes, each with a count of its faults.

ghost use Rattle.std.specs.Prelude.{◌≡◌, ◌<◌, ◌≤◌, ℕ, List, Option, IfOk, is_some, length};
ghost use Rattle.std.specs.Io.KnownBytes.{ReadConsumes, WriteAppends};
ghost use Rattle.per_base.specs.Causes.{HasCause, Rose};

use thiserror::Error;

/// A source or a sink did not do its call.
#[derive(Clone, Copy, Debug, PartialEq, Eq, Error)]
#[error("the stream failed")]
pub struct Failed;

/// A stream of bytes that are read.
pub trait Source {
    /// The bytes that are left, or `None` where nothing is said of them, as of a device outside; which of the two it is
    /// never changes (`told`).
    ghost left: { Self → Option (List ℕ) };

    /// How many calls failed. The count stops at the greatest `u64`.
    ghost faults: { Self → ℕ };

    /// Puts the next bytes at the start of `out` and says how many they are: 0 only at the end of the input, where
    /// there is room. The rest of `out` may hold anything.
    ///
    /// # Errors
    ///
    /// `Failed` only where the count of faults rose; then nothing is taken from the source.
    fn read(&mut self, out: &mut [u8]) -> Result<usize, Failed>
        ensures bound { IfOk result (λ n. n ≤ length out.new) }
        // The bytes given are the next ones, and just they are gone from what is left; on a failure none is.
        ensures bytes { ReadConsumes (left self.old) (left self.new) result out.new }
        ensures told { is_some (left self.new) ≡ is_some (left self.old) }
        // Faults never fall, and an error comes only where they rose.
        ensures cause { HasCause (faults self.old) (faults self.new) result };
}

/// A stream of bytes that are written.
pub trait Sink {
    /// The bytes that were taken, or `None` where nothing is said of them, as of a device outside; which of the two it
    /// is never changes (`told`).
    ghost written: { Self → Option (List ℕ) };

    /// How many calls failed. The count stops at the greatest `u64`.
    ghost faults: { Self → ℕ };

    /// Takes bytes from the start of `bytes` and says how many they are. Where it takes none of some, its count of
    /// faults rises too.
    ///
    /// # Errors
    ///
    /// `Failed` only where the count of faults rose; then nothing is taken.
    fn write(&mut self, bytes: &[u8]) -> Result<usize, Failed>
        ensures bound { IfOk result (λ n. n ≤ length bytes.now) }
        // The bytes taken are added at the end of what was taken before; on a failure none is.
        ensures bytes { WriteAppends (written self.old) (written self.new) result bytes.now }
        ensures told { is_some (written self.new) ≡ is_some (written self.old) }
        // Faults never fall. They rise where the call fails, and where it takes none of some bytes.
        ensures cause { HasCause (faults self.old) (faults self.new) result }
        ensures stuck { IfOk result (λ n. n ≡ 0 → 0 < length bytes.now → Rose (faults self.old) (faults self.new)) };
}
