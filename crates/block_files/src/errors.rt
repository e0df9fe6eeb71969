//! Why a call on contents did not end well.

ghost use Rattle.std.specs.Prelude.{◌≡◌};

use disk_model::DiskFailed;
use std::alloc::{AllocError, AllocFailed};
use thiserror::Error;

/// Why a call on contents did not end well.
#[derive(Clone, Copy, Debug, PartialEq, Eq, Error)]
pub enum BlobError {
    /// A call of the disk failed, and its count of faults rose.
    #[error("the disk failed")]
    Device,
    /// Memory ran out.
    #[error("memory ran out")]
    OutOfMemory,
}

impl From<DiskFailed> for BlobError {
    ghost use Rattle.block_files.specs.declared.errors.BlobError.TheVariants.{Device};

    ghost from_gives = { λ failed error. error ≡ Device };

    fn from(_failed: DiskFailed) -> BlobError {
        BlobError::Device
    }
}

impl From<AllocError> for BlobError {
    ghost use Rattle.block_files.specs.declared.errors.BlobError.TheVariants.{OutOfMemory};

    ghost from_gives = { λ failed error. error ≡ OutOfMemory };

    fn from(_failed: AllocError) -> BlobError {
        BlobError::OutOfMemory
    }
}

impl<T: Drop> From<AllocFailed<T>> for BlobError {
    ghost use Rattle.block_files.specs.declared.errors.BlobError.TheVariants.{OutOfMemory};

    ghost from_gives = { λ failed error. error ≡ OutOfMemory };

    fn from(_failed: AllocFailed<T>) -> BlobError {
        BlobError::OutOfMemory
    }
}
