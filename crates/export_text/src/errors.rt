//! Why an export could not be read.

ghost use Rattle.std.specs.Prelude.{◌≡◌};
ghost use Rattle.export_text.specs.declared.errors.ExportError.TheVariants.{NotAnExport, OutOfMemory};

use per_base::Ended;
use std::alloc::{AllocError, AllocFailed};
use thiserror::Error;

/// Why bytes were not read as an export.
#[derive(Clone, Copy, Debug, PartialEq, Eq, Error)]
pub enum ExportError {
    /// No export has these bytes as its text.
    #[error("the bytes are not the text of an export")]
    NotAnExport,
    /// Memory ran out.
    #[error("memory ran out")]
    OutOfMemory,
}

impl From<Ended> for ExportError {
    ghost from_gives = { λ _ e. e ≡ NotAnExport };

    fn from(_e: Ended) -> ExportError {
        ExportError::NotAnExport
    }
}

impl From<AllocError> for ExportError {
    ghost from_gives = { λ _ e. e ≡ OutOfMemory };

    fn from(_e: AllocError) -> ExportError {
        ExportError::OutOfMemory
    }
}

impl<T: Drop> From<AllocFailed<T>> for ExportError {
    ghost from_gives = { λ _ e. e ≡ OutOfMemory };

    fn from(_e: AllocFailed<T>) -> ExportError {
        ExportError::OutOfMemory
    }
}
