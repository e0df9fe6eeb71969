//! Why a call stopped.

ghost use Rattle.std.specs.Prelude.{◌≡◌};
ghost use Rattle.deploy.specs.declared.errors.Stop.{Stop};

use element_state::StoreError;
use guarded_cell::{Cell, CellError};
use per_base::Fault;
use std::alloc::{AllocError, AllocFailed};
use thiserror::Error;

/// Why a call stopped before its end. What it had begun is settled when the root is opened
/// again, or the storage that was being rebuilt.
#[derive(Clone, Copy, Debug, PartialEq, Eq, Error)]
pub enum Stop {
    /// The disk failed, and its count of faults rose.
    #[error("the disk failed")]
    Device,
    /// Memory ran out.
    #[error("memory ran out")]
    OutOfMemory,
}

impl From<CellError> for Stop {
    ghost use Rattle.deploy.specs.Failures.{of_cell};

    ghost from_gives = { λ failed stop. stop ≡ of_cell failed };

    fn from(failed: CellError) -> Stop {
        match failed {
            CellError::Device => Stop::Device,
            CellError::Corrupt | CellError::OutOfMemory => Stop::OutOfMemory,
        }
    }
}

impl From<StoreError> for Stop {
    ghost use Rattle.deploy.specs.Failures.{of_store};

    ghost from_gives = { λ failed stop. stop ≡ of_store failed };

    fn from(failed: StoreError) -> Stop {
        match failed {
            StoreError::Device => Stop::Device,
            StoreError::Corrupt | StoreError::OutOfMemory => Stop::OutOfMemory,
        }
    }
}

impl From<Fault<Cell>> for Stop {
    ghost use Rattle.deploy.specs.Failures.{of_write};

    ghost from_gives = { λ failed stop. stop ≡ of_write failed };

    fn from(failed: Fault<Cell>) -> Stop {
        match failed {
            Fault::Device => Stop::Device,
            Fault::OutOfMemory(_) => Stop::OutOfMemory,
        }
    }
}

impl From<AllocError> for Stop {
    ghost from_gives = { λ _ stop. stop ≡ Stop.OutOfMemory };

    fn from(_failed: AllocError) -> Stop {
        Stop::OutOfMemory
    }
}

impl<T: Drop> From<AllocFailed<T>> for Stop {
    ghost from_gives = { λ _ stop. stop ≡ Stop.OutOfMemory };

    fn from(_failed: AllocFailed<T>) -> Stop {
        Stop::OutOfMemory
    }
}
