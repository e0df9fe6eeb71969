//! An index and its entries.

ghost use Rattle.std.specs.Prelude.{◌≡◌, IfOk};

use per_base::{FileInfo, Name, Numbers, Sequence, StoreKind};
use std::alloc::{AllocError, Global};

/// The most entries of an index.
pub(crate) const MAX_ENTRIES: u16 = 1024;

/// The most bytes of a key's value.
pub(crate) const MAX_KEY_BYTES: u32 = 65_536;

/// The most bytes of a file.
pub(crate) const MAX_FILE_BYTES: u32 = 1_048_576;

/// The bytes of a hash.
pub(crate) const HASH_BYTES: usize = 32;

/// One element of a storage.
#[derive(Debug, Drop)]
pub struct IndexEntry {
    /// By which it is found: no two entries of an index have one name.
    pub name: Name,
    /// What is known of a file; none for a key.
    pub info: Option<FileInfo>,
    /// The generation of the last change; 0 in format 1, and where the element has not changed since then.
    pub changed: u64,
    /// The length of the content, in bytes.
    pub len: u32,
    /// The SHA-256 of the content.
    pub hash: [u8; 32],
    /// The blocks of the area that hold the content, in its order: block k has the 256 bytes from 256 * k on.
    pub blocks: Numbers,
}

/// The elements of a storage, ascending by name.
#[derive(Debug, Drop)]
pub struct Index {
    /// 1 or 2.
    pub format: u8,
    /// Keys or files: of which all elements are.
    pub kind: StoreKind,
    pub entries: Sequence<IndexEntry>,
}

impl IndexEntry {
    /// An entry that is equal to this one.
    pub fn copy(&self) -> Result<IndexEntry, AllocError>
        ensures { IfOk result (λ copy. copy ≡ self.now) }
    {
        Ok(IndexEntry {
            name: self.name.copy()?,
            info: self.info,
            changed: self.changed,
            len: self.len,
            hash: self.hash,
            blocks: self.blocks.copy()?,
        })
    }
}

impl Index {
    /// An index that is equal to this one.
    pub fn copy(&self, alloc: Global) -> Result<Index, AllocError>
        ensures { IfOk result (λ copy. copy ≡ self.now) }
    {
        Ok(Index {
            format: self.format,
            kind: self.kind,
            entries: Sequence::new(copies(alloc, self.entries.as_slice())?),
        })
    }
}

fn copies(alloc: Global, entries: &[IndexEntry]) -> Result<Vec<IndexEntry>, AllocError>
    ensures { IfOk result (λ copies. copies.items ≡ entries.now) }
{
    let mut copies = Vec::new(alloc);
    for entry in entries {
        copies.push(entry.copy()?)?;
    }
    Ok(copies)
}
