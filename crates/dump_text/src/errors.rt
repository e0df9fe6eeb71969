//! Why a text is no dump.

ghost use Rattle.std.specs.Prelude.{◌≡◌, IsTrue};
ghost use Rattle.dump_text.specs.Views.{is_memory};
ghost use Rattle.dump_text.specs.declared.errors.DumpError.TheVariants.{OutOfMemory};

use std::alloc::{AllocError, AllocFailed, Global};
use thiserror::Error;

/// Why a text is not read as a dump, or none is written.
#[derive(Debug, Drop, Error)]
pub enum DumpError {
    /// It is no dump: where, and why.
    #[error("not a dump: {0}")]
    NotADump(String),
    /// Memory ran out.
    #[error("memory ran out")]
    OutOfMemory,
}

impl From<AllocError> for DumpError {
    ghost from_gives = { λ _ e. e ≡ OutOfMemory };

    fn from(_e: AllocError) -> DumpError {
        DumpError::OutOfMemory
    }
}

impl<T: Drop> From<AllocFailed<T>> for DumpError {
    ghost from_gives = { λ _ e. e ≡ OutOfMemory };

    fn from(_e: AllocFailed<T>) -> DumpError {
        DumpError::OutOfMemory
    }
}

impl DumpError {
    /// The same error, of a part of this name.
    pub(crate) fn within(self, alloc: Global, part: &str, name: &str) -> DumpError
        ensures { IsTrue (is_memory self) → IsTrue (is_memory result) }
    {
        match self {
            DumpError::NotADump(why) => match format!(in alloc; "{part} {name}: {why}") {
                Ok(why) => DumpError::NotADump(why),
                Err(_) => DumpError::OutOfMemory,
            },
            DumpError::OutOfMemory => DumpError::OutOfMemory,
        }
    }
}
