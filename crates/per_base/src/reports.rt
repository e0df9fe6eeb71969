//! Reports of an opening.

ghost use Rattle.std.specs.Prelude.{◌≡◌, IfOk};

use crate::lists::Numbers;
use crate::names::Name;
use std::alloc::AllocError;

/// What an opening found of a storage (of keys: Kvs, of files: Files) or of an element of one (Key, File). *Recovered*:
/// it can be read, though some copies lack it. *Failed*: too few copies agree on it, or its content is no value.
#[derive(Clone, Copy, Debug, PartialEq, Eq)]
pub enum ReportKind {
    KvsRecovered,
    KvsFailed,
    KeyRecovered,
    KeyFailed,
    FilesRecovered,
    FilesFailed,
    FileRecovered,
    FileFailed,
}

/// One report: the storage, the element where it speaks of one, and exactly the copies that lack what it speaks of,
/// counted from 1 and ascending.
#[derive(Debug, Drop)]
pub struct Report {
    pub kind: ReportKind,
    pub storage: Name,
    pub element: Option<Name>,
    pub copies: Numbers,
}

impl Report {
    /// An equal copy.
    pub fn copy(&self) -> Result<Report, AllocError>
        ensures { IfOk result (λ copy. copy ≡ self.now) }
    {
        let storage = self.storage.copy()?;
        let copies = self.copies.copy()?;
        let element = match &self.element {
            None => None,
            Some(name) => Some(name.copy()?),
        };
        Ok(Report {
            kind: self.kind,
            storage,
            element,
            copies,
        })
    }
}
