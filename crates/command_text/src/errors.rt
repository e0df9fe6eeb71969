//! Why a text is no line.

use std::alloc::AllocError;
use thiserror::Error;
use value_model::DecodeError;

/// Why a text is no line, or that there was no memory.
#[derive(Clone, Copy, Debug, Error, PartialEq, Eq)]
pub enum LineError {
    #[error("the text is outside the grammar of lines")]
    NotALine,
    #[error("memory ran out")]
    OutOfMemory,
}

impl From<AllocError> for LineError {
    ghost use Rattle.std.specs.Prelude.{◌≡◌};
    ghost use Rattle.command_text.specs.declared.errors.LineError.TheVariants.{OutOfMemory};

    ghost from_gives = { λ _ e. e ≡ OutOfMemory };

    fn from(_error: AllocError) -> LineError {
        LineError::OutOfMemory
    }
}

impl From<DecodeError> for LineError {
    ghost use Rattle.std.specs.Prelude.{◌≡◌};
    ghost use Rattle.command_text.specs.Errors.{line_error};

    ghost from_gives = { λ error e. e ≡ line_error error };

    fn from(error: DecodeError) -> LineError {
        match error {
            DecodeError::NotAValue => LineError::NotALine,
            DecodeError::OutOfMemory => LineError::OutOfMemory,
        }
    }
}
