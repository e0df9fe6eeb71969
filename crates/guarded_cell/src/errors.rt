//! The errors of the calls on a register.

ghost use Rattle.std.specs.Prelude.{◌≡◌};

use disk_model::DiskFailed;
use std::alloc::AllocError;
use thiserror::Error;

/// Why a register was not opened, read or changed.
#[derive(Clone, Copy, Debug, PartialEq, Eq, Error)]
pub enum CellError {
    /// A call of the disk failed, and its count of faults rose.
    #[error("the disk failed")]
    Device,
    /// No text stands: none is held by enough copies.
    #[error("too few copies agree")]
    Corrupt,
    /// Memory ran out.
    #[error("memory ran out")]
    OutOfMemory,
}

impl From<DiskFailed> for CellError {
    ghost use Rattle.guarded_cell.specs.declared.errors.CellError.{CellError};

    ghost from_gives = { λ _ error. error ≡ CellError.Device };

    fn from(_failed: DiskFailed) -> CellError {
        CellError::Device
    }
}

impl From<AllocError> for CellError {
    ghost use Rattle.guarded_cell.specs.declared.errors.CellError.{CellError};

    ghost from_gives = { λ _ error. error ≡ CellError.OutOfMemory };

    fn from(_failed: AllocError) -> CellError {
        CellError::OutOfMemory
    }
}
