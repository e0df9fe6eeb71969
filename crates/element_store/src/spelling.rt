//! The text of the next index.

ghost use Rattle.std.specs.Prelude.{◌≡◌, IfOk, Some};
ghost use Rattle.index_text.specs.Rules.{IsIndex};
ghost use Rattle.index_text.specs.Reading.{index_of};
ghost use Rattle.index_text.specs.Spelling.{index_text};
ghost use Rattle.element_store.specs.Spelled.{index_with};

use index_text::{Index, IndexEntry, write_index};
use per_base::{Bytes, Sequence, StoreKind};
use std::alloc::{AllocError, Global};

/// An index and its text.
#[derive(Drop)]
pub(crate) struct Spelled {
    pub(crate) index: Index,
    pub(crate) text: Bytes,
}

// The index of these entries, in format 2, and its text.
pub(crate) fn spell(
    alloc: Global,
    kind: StoreKind,
    entries: Vec<IndexEntry>,
) -> Result<Spelled, AllocError>
    requires { IsIndex (index_with kind entries.items) }
    ensures index { IfOk result (λ s. s.index ≡ index_with kind entries.items) }
    ensures text { IfOk result (λ s. s.text ≡ index_text s.index) }
    ensures spells { IfOk result (λ s. index_of s.text ≡ Some s.index) }
{
    let index = Index {
        format: 2,
        kind,
        entries: Sequence::new(entries),
    };
    let text = Bytes::new(write_index(alloc, &index)?);
    Ok(Spelled { index, text })
}
