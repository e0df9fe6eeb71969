//! The hashes of what changes put, and the states of the hasher that are kept of contents.

ghost use Rattle.std.specs.Prelude.{◌≡◌, ℕ, List, IfOk, filter, not};
ghost use Rattle.std.specs.List.{All, AllZip};
ghost use Rattle.std.specs.Str.{bytes_eq};
ghost use Rattle.per_base.specs.declared.elements.Entry.{Entry};
ghost use Rattle.per_base.specs.Names.{NamesAscend};
ghost use Rattle.block_files.specs.States.{AreStatesOf};
ghost use Rattle.element_state.specs.Changes.{after_change, after_changes, entry_name};
ghost use Rattle.element_state.specs.Surveys.{AreOfEntry};
ghost use Rattle.element_store.specs.declared.hashing.KeptStates.{KeptStates};
ghost use Rattle.element_store.specs.Hashing.{IsHashedAs, AreOfElement};
ghost use Rattle.element_store.specs.Stores.{IsStore};

use crate::store::Store;
use block_files::{Hashed, HashedParts, hash_beside, nothing_known};
use per_base::{Change, Content, Entry, Name};
use sha2::Sha256;
use std::alloc::{AllocError, Global};

/// States of the hasher after each 32 KiB of the content of an element.
#[derive(Debug, Drop)]
pub(crate) struct KeptStates {
    pub(crate) name: Name,
    pub(crate) states: Vec<Sha256>,
}

impl Store {
    // The hashes of what the changes put.
    pub(crate) fn hash_changes(&self, changes: &[Change]) -> Result<Vec<Hashed>, AllocError>
        requires { IsStore self.now }
        ensures { IfOk result (λ hashed. AllZip IsHashedAs changes.now hashed.items) }
    {
        let mut hashed = Vec::with_capacity(self.alloc, changes.len())?;
        for change in changes {
            hashed.push(self.hash_change(change))?;
        }
        Ok(hashed)
    }

    // The hash of what a change puts.
    fn hash_change(&self, change: &Change) -> Hashed
        requires { IsStore self.now }
        ensures { IsHashedAs change.now result }
    {
        match change {
            Change::Put(fresh) => {
                let known = self.known(&fresh.name);
                hash_beside(self.alloc, fresh.bytes.as_slice(), known)
            }
            Change::Remove(_) => no_hash(self.alloc),
            Change::Touch(_, _) => no_hash(self.alloc),
        }
    }

    // What is known of the content of an element; of no bytes where nothing is.
    fn known(&self, name: &Name) -> HashedParts<'_>
        requires { IsStore self.now }
        ensures { AreStatesOf result.bytes.now result.states.now }
    {
        for kept in &self.kept {
            if kept.name == *name {
                return self.known_of(kept);
            }
        }
        nothing_known()
    }

    // The content of the element for which states are kept.
    fn known_of<'a>(&'a self, kept: &'a KeptStates) -> HashedParts<'a>
        requires store { IsStore self.now }
        requires kept { AreOfElement self.now.entries.items kept.now }
        ensures { AreStatesOf result.bytes.now result.states.now }
    {
        let Some(entry) = self.entry(&kept.name) else {
            return nothing_known();
        };
        let Content::Good(bytes) = &entry.content else {
            return nothing_known();
        };
        HashedParts {
            bytes: bytes.as_slice(),
            states: kept.states.as_slice(),
        }
    }
}

// What a change that puts no content has.
fn no_hash(alloc: Global) -> Hashed {
    Hashed {
        hash: [0; 32],
        states: Vec::new(alloc),
    }
}

// What is kept of elements that were read, each with its states.
pub(crate) fn kept_of(alloc: Global, entries: &[Entry], states: Vec<Vec<Sha256>>) -> Vec<KeptStates>
    requires ascend { NamesAscend entry_name entries.now }
    requires states { AllZip AreOfEntry entries.now states.items }
    ensures { All (AreOfElement entries.now) result.items }
{
    let mut kept = Vec::new(alloc);
    let mut at: usize = 0;
    for one in states {
        remember(&mut kept, &entries[at].name, one);
        at += 1;
    }
    kept
}

// What is kept after the changes.
pub(crate) fn kept_after(
    kept: Vec<KeptStates>,
    changes: &[Change],
    hashed: Vec<Hashed>,
) -> Vec<KeptStates>
    requires { AllZip IsHashedAs changes.now hashed.items }
    ensures { (generation : ℕ) (entries : List Entry) → All (AreOfElement entries) kept.items
        → All (AreOfElement (after_changes generation entries changes.now)) result.items }
{
    let mut kept = kept;
    let mut at: usize = 0;
    for one in hashed {
        keep(&mut kept, &changes[at], one);
        at += 1;
    }
    kept
}

// Keeps the states of what a change puts, and none of what it takes away.
fn keep(kept: &mut Vec<KeptStates>, change: &Change, hashed: Hashed)
    requires { IsHashedAs change.now hashed }
    ensures { (generation : ℕ) (entries : List Entry) → All (AreOfElement entries) kept.old.items
        → All (AreOfElement (after_change generation entries change.now)) kept.new.items }
{
    match change {
        Change::Put(fresh) => {
            forget(kept, &fresh.name);
            remember(kept, &fresh.name, hashed.states);
        }
        Change::Remove(name) => forget(kept, name),
        Change::Touch(_, _) => {}
    }
}

// Lets the states of a name go.
fn forget(kept: &mut Vec<KeptStates>, name: &Name)
    ensures { kept.new.items ≡ filter (λ k. not (bytes_eq k.name name.now)) kept.old.items }
{
    kept.retain(|one| one.name != *name);
}

// Keeps states for a name, where there are any and memory lasts.
fn remember(kept: &mut Vec<KeptStates>, name: &Name, states: Vec<Sha256>)
    ensures { (entries : List Entry) → All (AreOfElement entries) kept.old.items
        → ((k : KeptStates) → k.name ≡ name.now → k.states.items ≡ states.items → AreOfElement entries k)
        → All (AreOfElement entries) kept.new.items }
{
    if states.is_empty() {
        return;
    }
    if let Ok(name) = name.copy() {
        let _ = kept.push(KeptStates { name, states });
    }
}
