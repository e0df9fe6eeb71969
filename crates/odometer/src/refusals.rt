//! Why the odometer refuses: one line and one status each.

ghost use Rattle.std.specs.Prelude.{◌≡◌};

use per_base::{Limit, PerError, Unit};
use std::io;
use thiserror::Error;

/// Why the program ends before its input does.
#[derive(Debug, Drop, Error)]
pub(crate) enum Refusal {
    #[error("usage: odometer FOLDER")]
    Words,
    #[error("a line is no number of kilometres, from 0 to 4294967295")]
    NoNumber,
    #[error("the input failed: {0}")]
    Input(io::Error),
    #[error("the output failed: {0}")]
    Output(io::Error),
    #[error("the total would exceed 4294967295 kilometres")]
    TooFar,
    #[error("the storage refuses: {0:?}")]
    Storage(PerError),
}

impl Refusal {
    /// The exit status.
    pub(crate) fn status(&self) -> u8 {
        match self {
            Refusal::Words => 1,
            Refusal::NoNumber => 2,
            Refusal::Input(_) => 5,
            Refusal::Output(_) => 6,
            Refusal::TooFar => 11,
            Refusal::Storage(error) => status_of(error),
        }
    }
}

/// The exit status of what the storage refuses.
fn status_of(error: &PerError) -> u8 {
    match error {
        PerError::PhysicalStorageFailure => 3,
        PerError::OutOfMemory => 4,
        PerError::IntegrityCorrupted { unit: Unit::Root } => 7,
        PerError::StorageNotFound => 8,
        PerError::IntegrityCorrupted {
            unit: Unit::Whole(_),
        } => 9,
        PerError::LimitReached {
            which: Limit::Generations,
        } => 12,
        _ => 10,
    }
}

impl From<PerError> for Refusal {
    ghost use Rattle.odometer.specs.declared.refusals.Refusal.{Refusal};

    ghost from_gives = { λ error refusal. refusal ≡ Refusal.Storage error };

    fn from(error: PerError) -> Refusal {
        Refusal::Storage(error)
    }
}
