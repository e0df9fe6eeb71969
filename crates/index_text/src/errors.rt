//! Why an index could not be read.

ghost use Rattle.std.specs.Prelude.{◌≡◌};
ghost use Rattle.index_text.specs.declared.errors.IndexError.TheVariants.{NotAnIndex, OutOfMemory};

use per_base::Ended;
use std::alloc::{AllocError, AllocFailed};
use thiserror::Error;

/// Why bytes were not read as an index.
#[derive(Clone, Copy, Debug, PartialEq, Eq, Error)]
pub enum IndexError {
    /// No index has these bytes as its text.
    #[error("the bytes are not the text of an index")]
    NotAnIndex,
    /// Memory ran out.
    #[error("memory ran out")]
    OutOfMemory,
}

impl From<Ended> for IndexError {
    ghost from_gives = { λ _ e. e ≡ NotAnIndex };

    fn from(_e: Ended) -> IndexError {
        IndexError::NotAnIndex
    }
}

impl From<AllocError> for IndexError {
    ghost from_gives = { λ _ e. e ≡ OutOfMemory };

    fn from(_e: AllocError) -> IndexError {
        IndexError::OutOfMemory
    }
}

impl<T: Drop> From<AllocFailed<T>> for IndexError {
    ghost from_gives = { λ _ e. e ≡ OutOfMemory };

    fn from(_e: AllocFailed<T>) -> IndexError {
        IndexError::OutOfMemory
    }
}
