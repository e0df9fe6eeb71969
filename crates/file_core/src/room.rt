//! The room that a content has in its storage.

ghost use Rattle.std.specs.Prelude.{◌≡◌, ◌≤◌, ◌^◌};
ghost use Rattle.file_core.specs.Files as files;

use crate::file::FILE_BYTES;
use per_base::{Limit, PerError};

/// How many bytes all but the content of a file take in the storage, its own name included (`others`), and how many the
/// storage may have (`allowed`).
#[derive(Clone, Copy, Debug)]
pub struct Room {
    pub others: u64,
    pub allowed: u64,
}

impl Room {
    /// What refuses a content of this length in bytes: `LimitReached` with `FileBytes`, then `OutOfStorageSpace`. Does
    /// not allocate.
    pub fn too_long(self, len: u64) -> Option<PerError>
        // So that no sum of bytes overflows.
        requires { self.others ≤ 2 ^ 32 }
        ensures { result ≡ files.too_long self len }
    {
        if len > FILE_BYTES {
            return Some(PerError::LimitReached {
                which: Limit::FileBytes,
            });
        }
        let needed = self.others + len;
        if needed > self.allowed {
            return Some(PerError::OutOfStorageSpace {
                needed,
                allowed: self.allowed,
            });
        }
        None
    }
}
