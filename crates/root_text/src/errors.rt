//! Why a root could not be read.

ghost use Rattle.std.specs.Prelude.{◌≡◌};
ghost use Rattle.root_text.specs.declared.errors.RootError.TheVariants.{NotARoot, OutOfMemory};

use per_base::Ended;
use std::alloc::{AllocError, AllocFailed};
use thiserror::Error;

/// Why bytes were not read as a root.
#[derive(Clone, Copy, Debug, PartialEq, Eq, Error)]
pub enum RootError {
    /// No root has these bytes as its text.
    #[error("the bytes are not the text of a root")]
    NotARoot,
    /// Memory ran out.
    #[error("memory ran out")]
    OutOfMemory,
}

impl From<Ended> for RootError {
    ghost from_gives = { λ _ e. e ≡ NotARoot };

    fn from(_e: Ended) -> RootError {
        RootError::NotARoot
    }
}

impl From<AllocError> for RootError {
    ghost from_gives = { λ _ e. e ≡ OutOfMemory };

    fn from(_e: AllocError) -> RootError {
        RootError::OutOfMemory
    }
}

impl<T: Drop> From<AllocFailed<T>> for RootError {
    ghost from_gives = { λ _ e. e ≡ OutOfMemory };

    fn from(_e: AllocFailed<T>) -> RootError {
        RootError::OutOfMemory
    }
}
