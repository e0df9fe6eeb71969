//! Elements of a storage: keys and files, their contents and infos.

ghost use Rattle.std.specs.Prelude.{◌≡◌, ◌+◌, ◌*◌, ◌<◌, ◌≤◌, IfOk, length, sum_by};

use crate::lists::{Bytes, Numbers};
use crate::names::Name;
use std::alloc::AllocError;

/// The kind of a storage.
#[derive(Clone, Copy, Debug, PartialEq, Eq)]
pub enum StoreKind {
    /// A key-value storage.
    Keys,
    /// A file storage.
    Files,
}

/// What must agree in M of the copies that are kept of a storage: each element by itself, or the whole storage.
#[derive(Clone, Copy, Debug, PartialEq, Eq)]
pub enum Scope {
    Element,
    Storage,
}

/// What made or changed a file.
#[derive(Clone, Copy, Debug, PartialEq, Eq)]
pub enum Cause {
    Installation,
    Update,
    Reset,
    Recovery,
    Application,
}

/// What is known of a file besides its content: when it was made, last changed and last opened, in seconds, and the
/// causes of its making and of its last change.
#[derive(Clone, Copy, Debug, PartialEq, Eq)]
pub struct FileInfo {
    pub created: u64,
    pub modified: u64,
    pub accessed: u64,
    pub creation: Cause,
    pub modification: Cause,
}

/// The content of an element.
#[derive(Debug, Drop)]
pub enum Content {
    /// M copies agree on these bytes.
    Good(Bytes),
    /// Fewer agree; the salvage, which is the bytes of a copy that has the right hash, where one has.
    Bad(Option<Bytes>),
}

/// An element as a session holds it: its info (files alone), the length of its encoding or content in bytes, and its
/// content.
#[derive(Debug, Drop)]
pub struct Element {
    pub info: Option<FileInfo>,
    pub len: u32,
    pub content: Content,
}

/// An element as it is on the disk: an [`Element`] with its name, the generation of its last change and the copies
/// that lack it, counted from 1 and ascending.
#[derive(Debug, Drop)]
pub struct Entry {
    pub name: Name,
    pub info: Option<FileInfo>,
    pub changed: u64,
    pub len: u32,
    pub content: Content,
    pub lacking: Numbers,
}

/// An element that is to be written: its name, its info (files alone), and the bytes of its encoding or content.
#[derive(Debug, Drop)]
pub struct Fresh {
    pub name: Name,
    pub info: Option<FileInfo>,
    pub bytes: Bytes,
}

/// One change of a commit.
#[derive(Debug, Drop)]
pub enum Change {
    /// A new element, or a new content and info of one.
    Put(Fresh),
    /// No such element from now on.
    Remove(Name),
    /// A new info of a file.
    Touch(Name, FileInfo),
}

impl Content {
    /// A copy with the same bytes.
    pub fn copy(&self) -> Result<Content, AllocError>
        ensures { IfOk result (λ copy. copy ≡ self.now) }
    {
        match self {
            Content::Good(bytes) => Ok(Content::Good(bytes.copy()?)),
            Content::Bad(None) => Ok(Content::Bad(None)),
            Content::Bad(Some(salvage)) => Ok(Content::Bad(Some(salvage.copy()?))),
        }
    }
}

impl Element {
    /// An equal copy.
    pub fn copy(&self) -> Result<Element, AllocError>
        ensures { IfOk result (λ copy. copy ≡ self.now) }
    {
        let content = self.content.copy()?;
        Ok(Element {
            info: self.info,
            len: self.len,
            content,
        })
    }
}

impl Entry {
    /// An equal copy.
    pub fn copy(&self) -> Result<Entry, AllocError>
        ensures { IfOk result (λ copy. copy ≡ self.now) }
    {
        let name = self.name.copy()?;
        let content = self.content.copy()?;
        let lacking = self.lacking.copy()?;
        Ok(Entry {
            name,
            info: self.info,
            changed: self.changed,
            len: self.len,
            content,
            lacking,
        })
    }

    /// The size of the element in bytes: its name and its encoding or content.
    pub fn size(&self) -> u64
        ensures size { result ≡ length self.now.name + self.now.len }
        ensures bound { result ≤ ENTRY_SIZE }
    {
        element_size(&self.name, self.len)
    }
}

impl Fresh {
    /// An equal copy.
    pub fn copy(&self) -> Result<Fresh, AllocError>
        ensures { IfOk result (λ copy. copy ≡ self.now) }
    {
        let name = self.name.copy()?;
        let bytes = self.bytes.copy()?;
        Ok(Fresh {
            name,
            info: self.info,
            bytes,
        })
    }
}

/// How many bytes a block has. The area of a copy, the file that keeps contents, is divided into blocks.
pub const BLOCK: usize = 256;

/// The greatest size of an element in bytes: 255 for the name, and the greatest `u32` for the encoding or content.
pub const ENTRY_SIZE: u64 = 255 + 4_294_967_295;

/// The size in bytes of an element with this name, whose encoding or content has `len` bytes.
pub fn element_size(name: &Name, len: u32) -> u64
    ensures size { result ≡ length name.now + len }
    ensures bound { result ≤ ENTRY_SIZE }
{
    let text = name.as_str();
    text.len() as u64 + len as u64
}

/// The size of a storage in bytes: the sum over its elements, of which it has at most 1,024, so that a `u64` holds it.
pub fn storage_size(entries: &[Entry]) -> u64
    requires { length entries.now ≤ 1024 }
    ensures size { result ≡ sum_by (λ e. length e.name + e.len) entries.now }
{
    let mut total: u64 = 0;
    for entry in entries {
        total += entry.size();
    }
    total
}
