//! An export.

use per_base::{Fresh, Sequence, StoreKind};

/// The greatest number of elements.
pub(crate) const MAX_ELEMENTS: u16 = 1024;

/// The greatest number of bytes of a key's value.
pub(crate) const MAX_KEY_BYTES: u32 = 65_536;

/// The greatest number of bytes of a file.
pub(crate) const MAX_FILE_BYTES: u32 = 1_048_576;

/// With these bytes every export begins: `PERB` and the format.
pub(crate) const MARK: [u8; 5] = [b'P', b'E', b'R', b'B', 1];

/// The bytes of a SHA-256.
pub(crate) const HASH_BYTES: usize = 32;

/// A storage of this kind with these elements, ascending by name.
#[derive(Debug, Drop)]
pub struct Export {
    pub kind: StoreKind,
    pub contents: Sequence<Fresh>,
}
