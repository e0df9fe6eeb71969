//! A storage in use.

ghost use Rattle.std.specs.Prelude.{◌≡◌};

use crate::hashing::KeptStates;
use crate::listed::Listed;
use crate::named::place_of;
use block_files::BlockSet;
use element_state::Shape;
use guarded_cell::Cell;
use index_text::Index;
use per_base::{Entry, Name, storage_size};
use std::alloc::Global;

/// A storage in use on its disk: its index and its elements, as the copies hold them.
#[derive(Debug, Drop)]
pub struct Store {
    pub(crate) alloc: Global,
    pub(crate) shape: Shape,
    pub(crate) cell: Cell,
    pub(crate) index: Listed,
    pub(crate) entries: Vec<Entry>,
    /// The blocks of the index.
    pub(crate) used: BlockSet,
    /// States of the hasher after parts of contents.
    pub(crate) kept: Vec<KeptStates>,
}

impl Store {
    ghost use Rattle.std.specs.Option.{option_copied};
    ghost use Rattle.element_state.specs.Changes.{entry_by_name};
    ghost use Rattle.element_state.specs.Conditions.{size_of};
    ghost use Rattle.element_state.specs.Read.{IsView};
    ghost use Rattle.element_store.specs.Stores.{IsStore, entries_of, store_shape, store_generation, view_in};

    // A storage of these parts.
    pub(crate) fn new(
        alloc: Global,
        shape: Shape,
        cell: Cell,
        index: Index,
        entries: Vec<Entry>,
        used: BlockSet,
        kept: Vec<KeptStates>,
    ) -> Store
        ensures { result ≡ record {
          alloc = alloc;
          shape = shape;
          cell = cell;
          index = index;
          entries = entries;
          used =
              used;
          kept = kept;
        } }
    {
        Store {
            alloc,
            shape,
            cell,
            index: Listed::new(alloc, index),
            entries,
            used,
            kept,
        }
    }

    /// What a storage in use shows is a view within its limits: names ascend, and lengths are right. For the proofs of
    /// callers: it does nothing when it runs.
    pub fn invariants(&self)
        requires { IsStore self.now }
        ensures { IsView (store_shape self.now) (view_in self.now) }
    {}

    /// The elements, ascending by name. Does not allocate.
    pub fn entries(&self) -> &[Entry]
        ensures { result.now ≡ entries_of self.now }
    {
        self.entries.as_slice()
    }

    /// The element of this name, where there is one. Does not allocate.
    pub fn entry(&self, name: &Name) -> Option<&Entry>
        requires { IsStore self.now }
        ensures { option_copied result ≡ entry_by_name name.now (entries_of self.now) }
    {
        let entries = self.entries.as_slice();
        match place_of(entries, name) {
            Ok(at) => Some(&entries[at]),
            Err(_) => None,
        }
    }

    /// The size in bytes: names and contents, readable or not. Does not allocate.
    pub fn size(&self) -> u64
        requires { IsStore self.now }
        ensures { result ≡ size_of (entries_of self.now) }
    {
        storage_size(&self.entries)
    }

    /// The generation of the index, which each commit raises by one. Does not allocate.
    pub fn generation(&self) -> u64
        ensures { result ≡ store_generation self.now }
    {
        self.cell.generation()
    }
}
