//! The states of keys: what is synchronised, and what is pending. Each step on them, with what it makes of both maps.

ghost use Rattle.std.specs.Prelude.{◌≡◌, ◌∷◌, [], IfOk, IsSome, IsTrue, None, OnErr, OnOk, Some, option_copied};
ghost use Rattle.std.specs.Prelude.{is_some, IfErr, List, ℕ};
ghost use Rattle.std.specs.List.Sorted.{IsStrictlySortedBy};
ghost use Rattle.std.specs.Map.{keys_of};
ghost use Rattle.std.specs.Option.{option_and_then};
ghost use Rattle.per_base.specs.Maps.{element_at, names_of, with_element, without};
ghost use Rattle.per_base.specs.Names.{name_cmp};
ghost use Rattle.per_base.specs.Contents.{is_readable};
ghost use Rattle.key_maps.specs.Changes as spec;
ghost use Rattle.key_maps.specs.Changes.{change_of, changes_of, has_any};
ghost use Rattle.key_maps.specs.declared.key_states.KeyState.{KeyState};
ghost use Rattle.key_maps.specs.declared.key_states.Pending.TheVariants.{Same};
ghost use Rattle.key_maps.specs.KeyStates.{AreKeyStates, IsMarkedSynced, IsStep, state_at, synced_map, synced_of};
ghost use Rattle.key_maps.specs.KeyStates.{visible_map, visible_of, with_state};

use crate::key_elements::KeyElement;
use per_base::{Change, Fresh, Name};
use std::alloc::{AllocError, Global};
use std::collections::BTreeMap;
use std::mem;

/// What is pending at a name.
#[derive(Drop)]
pub enum Pending {
    /// Nothing: what is synchronised is visible.
    Same,
    /// Nothing is visible.
    Removed,
    /// This is visible.
    Now(KeyElement),
}

/// What is synchronised at a name, and what is pending.
#[derive(Drop)]
pub struct KeyState {
    pub synced: Option<KeyElement>,
    pub pending: Pending,
}

impl KeyState {
    fn visible(&self) -> Option<&KeyElement>
        ensures { option_copied result ≡ visible_of self.now }
    {
        match &self.pending {
            Pending::Same => self.synced.as_ref(),
            Pending::Removed => None,
            Pending::Now(key) => Some(key),
        }
    }

    /// Makes what is visible synchronised, and says whether anything is.
    fn mark_synced(&mut self) -> bool
        ensures synced { self.new ≡ record { synced = visible_of self.old; pending = Same } }
        ensures there { result ≡ is_some (visible_of self.old) }
    {
        if let Pending::Same = &self.pending {
            return self.synced.is_some();
        }
        self.conclude()
    }

    /// The same where something is pending.
    fn conclude(&mut self) -> bool
        ensures synced { self.new ≡ record { synced = visible_of self.old; pending = Same } }
        ensures there { result ≡ is_some (visible_of self.old) }
    {
        match mem::replace(&mut self.pending, Pending::Same) {
            Pending::Same => {}
            Pending::Removed => drop(self.synced.take()),
            Pending::Now(key) => drop(self.synced.replace(key)),
        }
        self.synced.is_some()
    }

    /// What a sync writes for the key of this name, which has this state.
    #[tactic(auto, using(crate::specs::lemmas::Differing::difference_same))]
    fn change(&self, alloc: Global, name: &Name) -> Result<Option<Change>, AllocError>
        ensures { IfOk result (λ change. change ≡ change_of name.now self.now) }
    {
        match &self.pending {
            Pending::Same => Ok(None),
            Pending::Removed => match &self.synced {
                Some(_) => Ok(Some(Change::Remove(name.copy()?))),
                None => Ok(None),
            },
            Pending::Now(key) => {
                if is_same(&self.synced, key) {
                    return Ok(None);
                }
                let name = name.copy()?;
                let bytes = key.copy_bytes(alloc)?;
                Ok(Some(Change::Put(Fresh {
                    name,
                    info: None,
                    bytes,
                })))
            }
        }
    }

    /// Whether a sync hands anything down for a key of this state.
    #[tactic(auto, using(crate::specs::lemmas::Differing::difference_same))]
    fn differs(&self) -> bool
        ensures { (name : List ℕ) → result ≡ is_some (change_of name self.now) }
    {
        match &self.pending {
            Pending::Same => false,
            Pending::Removed => self.synced.is_some(),
            Pending::Now(key) => !is_same(&self.synced, key),
        }
    }
}

fn is_same(old: &Option<KeyElement>, key: &KeyElement) -> bool
    ensures { result ≡ spec.is_same_key old.now key.now }
{
    match old {
        Some(old) => old.is_same(key),
        None => false,
    }
}

/// The visible key of a name.
#[tactic(auto, using(crate::specs::lemmas::Steps::visible_at))]
pub fn get<'a>(states: &'a BTreeMap<Name, KeyState>, name: &Name) -> Option<&'a KeyElement>
    // The states are in order and each holds keys.
    requires { AreKeyStates states.now.entries }
    ensures { option_copied result ≡ element_at (visible_map states.now.entries) name.now }
{
    match states.get(name) {
        Some(state) => state.visible(),
        None => None,
    }
}

/// Puts a pending change beside what is synchronised at a name; hands it back where there is no state.
#[tactic(auto, using(crate::specs::lemmas::Steps::state_set))]
fn mark(states: &mut BTreeMap<Name, KeyState>, name: &Name, pending: Pending) -> Result<(), Pending>
    ensures there { OnOk result (IsSome (state_at states.old.entries name.now)) }
    ensures marked { OnOk result ((state : KeyState) → state_at states.old.entries name.now ≡ Some state
        → states.new.entries ≡ with_state states.old.entries name.now (record state { pending = pending })) }
    ensures absent { OnErr result (state_at states.old.entries name.now ≡ None) }
    ensures unchanged { OnErr result (states.new.entries ≡ states.old.entries) }
    ensures back { IfErr result (λ back. back ≡ pending) }
{
    match states.get_mut(name) {
        Some(state) => {
            drop(mem::replace(&mut state.pending, pending));
            Ok(())
        }
        None => Err(pending),
    }
}

/// Adds a state under a name. The error is that memory ran out, and then nothing changed.
pub fn add(
    states: &mut BTreeMap<Name, KeyState>,
    name: &Name,
    state: KeyState,
) -> Result<(), AllocError>
    ensures added { OnOk result (states.new.entries ≡ with_state states.old.entries name.now state) }
    ensures unchanged { OnErr result (states.new.entries ≡ states.old.entries) }
{
    let Ok(name) = name.copy() else {
        drop(state);
        return Err(AllocError);
    };
    drop(states.insert(name, state)?);
    Ok(())
}

/// Adds a state with which nothing is synchronised.
fn add_pending(
    states: &mut BTreeMap<Name, KeyState>,
    name: &Name,
    pending: Pending,
) -> Result<(), AllocError>
    ensures added { OnOk result (states.new.entries ≡ with_state states.old.entries name.now
        (record { synced = None; pending = pending })) }
    ensures unchanged { OnErr result (states.new.entries ≡ states.old.entries) }
{
    let state = KeyState {
        synced: None,
        pending,
    };
    add(states, name, state)
}

/// Sets a readable key. Allocates only for a name that has no state.
pub fn put(
    states: &mut BTreeMap<Name, KeyState>,
    name: &Name,
    key: KeyElement,
) -> Result<(), AllocError>
    // The states are in order and each holds keys, and the key to put is readable.
    requires kept { AreKeyStates states.old.entries }
    requires readable { IsTrue (is_readable key.content) }
    // What is synchronised stays, and the visible map then has the key. Where memory ran out, nothing changed.
    ensures step { OnOk result (IsStep states.old.entries states.new.entries
        (with_element (visible_map states.old.entries) name.now key)) }
    ensures unchanged { OnErr result (states.new.entries ≡ states.old.entries) }
{
    let _len = key.len();
    match mark(states, name, Pending::Now(key)) {
        Ok(()) => Ok(()),
        Err(pending) => add_pending(states, name, pending),
    }
}

fn is_synced(states: &BTreeMap<Name, KeyState>, name: &Name) -> bool
    ensures { result ≡ is_some (option_and_then synced_of (state_at states.now.entries name.now)) }
{
    match states.get(name) {
        Some(state) => state.synced.is_some(),
        None => false,
    }
}

/// Removes a key. Does not allocate.
pub fn remove(states: &mut BTreeMap<Name, KeyState>, name: &Name)
    // The states are in order and each holds keys.
    requires { AreKeyStates states.old.entries }
    // What is synchronised stays, and the visible map is then without the name.
    ensures { IsStep states.old.entries states.new.entries (without (visible_map states.old.entries) name.now) }
{
    if is_synced(states, name) {
        drop(mark(states, name, Pending::Removed));
    } else {
        drop(states.remove(name));
    }
}

/// Removes all keys. Does not allocate.
pub fn clear(states: &mut BTreeMap<Name, KeyState>)
    // The states are in order and each holds keys.
    requires { AreKeyStates states.old.entries }
    // What is synchronised stays, and no key is visible.
    ensures { IsStep states.old.entries states.new.entries [] }
{
    states.retain(|_, state| {
        drop(mem::replace(&mut state.pending, Pending::Removed));
        state.synced.is_some()
    });
}

/// Discards the pending changes: the synchronised keys are visible again. Does not allocate.
pub fn discard(states: &mut BTreeMap<Name, KeyState>)
    // The states are in order and each holds keys.
    requires { AreKeyStates states.old.entries }
    // What is synchronised stays, and is visible.
    ensures { IsStep states.old.entries states.new.entries (synced_map states.old.entries) }
{
    states.retain(|_, state| {
        drop(mem::replace(&mut state.pending, Pending::Same));
        state.synced.is_some()
    });
}

/// Marks the visible keys as synchronised. Does not allocate.
pub fn mark_synced(states: &mut BTreeMap<Name, KeyState>)
    // The states are in order and each holds keys. What is visible stays, and is synchronised.
    requires { AreKeyStates states.old.entries }
    ensures { IsMarkedSynced states.old.entries states.new.entries }
{
    states.retain(|_, state| state.mark_synced());
}

/// The visible names, ascending.
#[tactic(auto, using(crate::specs::lemmas::Picked::picked_some, crate::specs::lemmas::Picked::picked_skip))]
pub fn names(alloc: Global, states: &BTreeMap<Name, KeyState>) -> Result<Vec<Name>, AllocError>
    ensures { IfOk result (λ names. names.items ≡ names_of (visible_map states.now.entries)) }
{
    let mut names = Vec::new(alloc);
    for (name, state) in states {
        if state.visible().is_some() {
            names.push(name.copy()?)?;
        }
    }
    Ok(names)
}

/// The changes that a sync writes, in the order of the names.
#[tactic(auto, using(crate::specs::lemmas::Changing::changes_some, crate::specs::lemmas::Changing::changes_skip))]
pub fn changes(alloc: Global, states: &BTreeMap<Name, KeyState>) -> Result<Vec<Change>, AllocError>
    ensures { IfOk result (λ changes. changes.items ≡ changes_of states.now.entries) }
{
    let mut changes = Vec::new(alloc);
    for (name, state) in states {
        if let Some(change) = state.change(alloc, name)? {
            changes.push(change)?;
        }
    }
    Ok(changes)
}

/// Whether a sync hands anything down.
#[tactic(auto, using(crate::specs::lemmas::Changing::changes_some, crate::specs::lemmas::Changing::changes_skip))]
pub fn has_changes(states: &BTreeMap<Name, KeyState>) -> bool
    ensures { result ≡ has_any (changes_of states.now.entries) }
{
    for (_, state) in states {
        if state.differs() {
            return true;
        }
    }
    false
}
