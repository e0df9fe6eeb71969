//! Why there is no value.

use std::alloc::{AllocError, AllocFailed};
use thiserror::Error;

/// Why a node is no value, or that there was no memory.
#[derive(Clone, Copy, Debug, PartialEq, Eq, Error)]
pub enum ValueError {
    /// A list item has another type than the list names, or a group of fields has not 1 to 32 members.
    #[error("an item has another type than its list, or a group of fields has not 1 to 32 members")]
    IllTyped,
    /// The node's type nests more than 8 deep.
    #[error("the type nests more than 8 deep")]
    TooDeep,
    /// The node's encoding has more than 65,536 bytes.
    #[error("the encoding has more than 65,536 bytes")]
    TooLong,
    #[error("memory ran out")]
    OutOfMemory,
}

/// Why bytes or a text give no value, or no type.
#[derive(Clone, Copy, Debug, PartialEq, Eq, Error)]
pub enum DecodeError {
    /// No value, or no type, has these bytes or this text.
    #[error("not a value")]
    NotAValue,
    #[error("memory ran out")]
    OutOfMemory,
}

impl From<AllocError> for ValueError {
    ghost use Rattle.std.specs.Prelude.{◌≡◌};
    ghost use Rattle.value_model.specs.declared.errors.ValueError.TheVariants.{OutOfMemory};

    ghost from_gives = { λ _ e. e ≡ OutOfMemory };

    fn from(_error: AllocError) -> ValueError {
        ValueError::OutOfMemory
    }
}

impl From<AllocError> for DecodeError {
    ghost use Rattle.std.specs.Prelude.{◌≡◌};
    ghost use Rattle.value_model.specs.declared.errors.DecodeError.TheVariants.{OutOfMemory};

    ghost from_gives = { λ _ e. e ≡ OutOfMemory };

    fn from(_error: AllocError) -> DecodeError {
        DecodeError::OutOfMemory
    }
}

impl<T: Drop> From<AllocFailed<T>> for DecodeError {
    ghost use Rattle.std.specs.Prelude.{◌≡◌};
    ghost use Rattle.value_model.specs.declared.errors.DecodeError.TheVariants.{OutOfMemory};

    ghost from_gives = { λ _ e. e ≡ OutOfMemory };

    fn from(_error: AllocFailed<T>) -> DecodeError {
        DecodeError::OutOfMemory
    }
}
