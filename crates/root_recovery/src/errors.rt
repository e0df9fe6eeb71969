//! Why a root was not looked for to the end, or not recovered.

ghost use Rattle.std.specs.Prelude.{◌≡◌};
ghost use Rattle.root_recovery.specs.declared.errors.RecoveryError.{RecoveryError};

use guarded_cell::CellError;
use std::alloc::AllocError;
use thiserror::Error;

/// Why a recovery stopped before its end.
#[derive(Clone, Copy, Debug, PartialEq, Eq, Error)]
pub enum RecoveryError {
    /// The disk failed, and its count of faults rose.
    #[error("the disk failed")]
    Device,
    /// Memory ran out.
    #[error("memory ran out")]
    OutOfMemory,
}

impl From<CellError> for RecoveryError {
    ghost use Rattle.root_recovery.specs.Failures.{of_cell};

    ghost from_gives = { λ failed error. error ≡ of_cell failed };

    fn from(failed: CellError) -> RecoveryError {
        match failed {
            CellError::Device => RecoveryError::Device,
            CellError::Corrupt | CellError::OutOfMemory => RecoveryError::OutOfMemory,
        }
    }
}

impl From<AllocError> for RecoveryError {
    ghost from_gives = { λ _ error. error ≡ RecoveryError.OutOfMemory };

    fn from(_failed: AllocError) -> RecoveryError {
        RecoveryError::OutOfMemory
    }
}
