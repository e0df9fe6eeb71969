//! Why a storage was not read.

ghost use Rattle.std.specs.Prelude.{◌≡◌};

use block_files::BlobError;
use guarded_cell::CellError;
use std::alloc::{AllocError, AllocFailed};
use thiserror::Error;

/// Why a call on a storage did not end well.
#[derive(Clone, Copy, Debug, PartialEq, Eq, Error)]
pub enum StoreError {
    /// The disk failed, and its count of faults rose.
    #[error("the disk failed")]
    Device,
    /// No text qualifies: too few copies support each that fits.
    #[error("too few copies agree")]
    Corrupt,
    /// Memory ran out.
    #[error("memory ran out")]
    OutOfMemory,
}

impl From<CellError> for StoreError {
    ghost use Rattle.guarded_cell.specs.declared.errors.CellError.{CellError};
    ghost use Rattle.element_state.specs.declared.errors.StoreError.{StoreError};
    ghost use Rattle.element_state.specs.Failures.{of_cell};

    ghost from_gives = { λ failed error. error ≡ of_cell failed };

    fn from(failed: CellError) -> StoreError {
        match failed {
            CellError::Device => StoreError::Device,
            CellError::Corrupt => StoreError::Corrupt,
            CellError::OutOfMemory => StoreError::OutOfMemory,
        }
    }
}

impl From<BlobError> for StoreError {
    ghost use Rattle.element_state.specs.Failures.{of_blob};

    ghost from_gives = { λ failed error. error ≡ of_blob failed };

    fn from(failed: BlobError) -> StoreError {
        match failed {
            BlobError::Device => StoreError::Device,
            BlobError::OutOfMemory => StoreError::OutOfMemory,
        }
    }
}

impl From<AllocError> for StoreError {
    ghost use Rattle.element_state.specs.declared.errors.StoreError.{StoreError};

    ghost from_gives = { λ _ error. error ≡ StoreError.OutOfMemory };

    fn from(_failed: AllocError) -> StoreError {
        StoreError::OutOfMemory
    }
}

impl<T: Drop> From<AllocFailed<T>> for StoreError {
    ghost use Rattle.element_state.specs.declared.errors.StoreError.{StoreError};

    ghost from_gives = { λ _ error. error ≡ StoreError.OutOfMemory };

    fn from(_failed: AllocFailed<T>) -> StoreError {
        StoreError::OutOfMemory
    }
}
