//! The index of a storage in use, beside entries for the next one.

ghost use Rattle.std.specs.Prelude.{◌≡◌};

use index_text::{Index, IndexEntry};
use std::alloc::Global;
use std::cell::Cell;
use std::fmt::{Debug, Error, Formatter, Write};
use std::marker::Model;

/// An index, and the entries of the one before it, which the next one takes in place of copies where they are the same.
/// Contracts see the index.
#[derive(Drop)]
pub(crate) struct Listed {
    index: Index,
    spare: Cell<Vec<IndexEntry>>,
}

impl Model for Listed {
    ghost use Rattle.index_text.specs.declared.entries.Index.{Index};

    ghost Value = { Index };

    ghost view = { λ l. l.index };
}

impl Debug for Listed {
    fn fmt<W: Write>(&self, f: &mut Formatter<W>) -> Result<(), Error> {
        self.index.fmt(f)
    }
}

impl Listed {
    // An index beside no other entries.
    pub(crate) fn new(alloc: Global, index: Index) -> Listed
        ensures { result ≡ index }
    {
        Listed {
            index,
            spare: Cell::new(Vec::new(alloc)),
        }
    }

    pub(crate) fn entries(&self) -> &[IndexEntry]
        ensures { result.now ≡ self.now.entries }
    {
        self.index.entries.as_slice()
    }

    // The entries that were kept; none is kept then.
    pub(crate) fn take_spare(&self, alloc: Global) -> Vec<IndexEntry> {
        self.spare.replace(Vec::new(alloc))
    }

    // Keeps the entries of an index that was replaced.
    pub(crate) fn keep_spare(&self, replaced: Listed) {
        let Listed { index, spare: _ } = replaced;
        self.spare.set(index.entries.into_vec());
    }
}
