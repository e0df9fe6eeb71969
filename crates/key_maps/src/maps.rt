//! The two maps.

ghost use Rattle.std.specs.Prelude.{◌≡◌, ◌<◌, ◌≤◌, ◌↔◌, [], false, IfOk, IsTrue, List, MatchOption, None, OnErr, OnOk};
ghost use Rattle.std.specs.Prelude.{Some, length, option_copied, is_some, ℕ};
ghost use Rattle.std.specs.Bool.{OnFalse, OnTrue};
ghost use Rattle.per_base.specs.declared.elements.Element.{Element};
ghost use Rattle.per_base.specs.Maps.{element_at, has, names_of, size_of, with_element, without};
ghost use Rattle.per_base.specs.Contents.{is_readable};
ghost use Rattle.key_maps.specs.Changes.{AreChanges};
ghost use Rattle.key_maps.specs.TwoMaps.{AreTwoMaps};

use crate::extents::Extent;
use crate::key_elements::KeyElement;
use crate::key_states::{self, KeyState};
use per_base::{Change, Name, element_size};
use std::alloc::{AllocError, Global};
use std::collections::BTreeMap;
use std::marker::Model;

/// The greatest number of keys of a storage.
pub const KEYS: usize = 1_024;

/// The greatest number of bytes that a storage may be allowed.
pub const STORAGE_BYTES: u64 = 4_194_304;

/// What is synchronised, and what is visible. Contracts see both as maps from names to elements.
#[derive(Drop)]
pub struct KeyMaps {
    pub(crate) states: BTreeMap<Name, KeyState>,
    pub(crate) synced: Extent,
    pub(crate) visible: Extent,
}

impl Model for KeyMaps {
    ghost use Rattle.key_maps.specs.TwoMaps.{TwoMaps};

    ghost Value = { TwoMaps };

    ghost use Rattle.key_maps.specs.KeyStates.{AreMeasured, synced_map, visible_map};

    ghost view = { λ m. record { synced = synced_map m.states.entries; visible = visible_map m.states.entries } };

    ghost invariant = { λ m. AreMeasured m.states.entries m.synced m.visible };
}

impl KeyMaps {
    /// What always holds of the maps.
    pub fn invariants(&self)
        ensures { AreTwoMaps self.now }
    {
        // So that what always holds of the maps is known here.
        let _size = self.visible.size;
    }

    /// The visible key of this name.
    pub fn get(&self, name: &Name) -> Option<&KeyElement>
        ensures { option_copied result ≡ element_at self.now.visible name.now }
    {
        key_states::get(&self.states, name)
    }

    /// Whether this name is visible, readable or not. Does not allocate.
    pub fn has(&self, name: &Name) -> bool
        ensures { result ≡ has self.now.visible name.now }
    {
        self.get(name).is_some()
    }

    /// The number of visible keys. Does not allocate.
    pub fn count(&self) -> usize
        ensures count { result ≡ length self.now.visible }
        ensures few { result ≤ KEYS }
    {
        self.visible.count
    }

    /// The size of the visible map in bytes: names and encodings. Does not allocate.
    pub fn size(&self) -> u64
        ensures size { result ≡ size_of self.now.visible }
        ensures small { result ≤ STORAGE_BYTES }
    {
        self.visible.size
    }

    /// The visible names, ascending.
    pub fn names(&self, alloc: Global) -> Result<Vec<Name>, AllocError>
        ensures { IfOk result (λ names. names.items ≡ names_of self.now.visible) }
    {
        key_states::names(alloc, &self.states)
    }

    /// The size in bytes that the visible map would have with a key of this length under this name. Does not allocate.
    pub fn size_with(&self, name: &Name, len: u32) -> u64
        // So for each key of this length in bytes.
        ensures { (key : Element) → key.len ≡ len → result ≡ size_of (with_element self.now.visible name.now key) }
    {
        self.extent_with(name, len).size
    }

    /// The number and the size that the visible keys would have with a key of this length under this name.
    #[tactic(auto, using(crate::specs::lemmas::Both::size_set, crate::specs::lemmas::Both::size_new, crate::specs::lemmas::Both::size_gone, crate::specs::lemmas::Both::count_set, crate::specs::lemmas::Both::count_new, crate::specs::lemmas::Both::visible_sorted))]
    fn extent_with(&self, name: &Name, len: u32) -> Extent
        ensures counted { (key : Element) → key.len ≡ len → result.count
            ≡ length (with_element self.now.visible name.now key) }
        ensures sized { (key : Element) → key.len ≡ len → result.size
            ≡ size_of (with_element self.now.visible name.now key) }
    {
        match key_states::get(&self.states, name) {
            Some(old) => Extent {
                count: self.visible.count,
                size: self.visible.size - u64::from(old.len()) + u64::from(len),
            },
            None => Extent {
                count: self.visible.count + 1,
                size: self.visible.size + element_size(name, len),
            },
        }
    }

    /// Sets a readable key. Allocates only for a name that is in neither map.
    pub fn put(&mut self, name: &Name, key: KeyElement) -> Result<(), AllocError>
        // The key is readable; where the name is not visible, fewer than the 1,024 keys of a storage are; and the
        // visible map with the key takes no more bytes than a storage may have.
        requires readable { IsTrue (is_readable key.content) }
        requires place { element_at self.old.visible name.now ≡ None → length self.old.visible < KEYS }
        requires room { size_of (with_element self.old.visible name.now key) ≤ STORAGE_BYTES }
        // The key is then visible under the name; what is synchronised stays. Where memory ran out, nothing changed.
        ensures ok { OnOk result (self.new ≡ record self.old { visible = with_element self.old.visible name.now key }) }
        ensures unchanged { OnErr result (self.new ≡ self.old) }
    {
        let extent = self.extent_with(name, key.len());
        key_states::put(&mut self.states, name, key)?;
        self.visible = extent;
        Ok(())
    }

    /// Removes a key, and says whether it was visible. Does not allocate.
    pub fn remove(&mut self, name: &Name) -> bool
        // Whether the name was visible; it then is not, and where it was not, nothing changed.
        ensures was { result ≡ has self.old.visible name.now }
        ensures removed { self.new ≡ record self.old { visible = without self.old.visible name.now } }
        ensures unchanged { OnFalse result (self.new ≡ self.old) }
    {
        let Some(old) = key_states::get(&self.states, name) else {
            return false;
        };
        let extent = Extent {
            count: self.visible.count - 1,
            size: self.visible.size - element_size(name, old.len()),
        };
        key_states::remove(&mut self.states, name);
        self.visible = extent;
        true
    }

    /// Removes all keys. Does not allocate.
    pub fn clear(&mut self)
        ensures { self.new ≡ record self.old { visible = [] } }
    {
        key_states::clear(&mut self.states);
        self.visible = Extent { count: 0, size: 0 };
    }

    /// Discards the pending changes: the synchronised keys are visible again. Does not allocate.
    pub fn discard(&mut self)
        ensures { self.new ≡ record self.old { visible = self.old.synced } }
    {
        key_states::discard(&mut self.states);
        self.visible = self.synced;
    }

    /// Marks the visible keys as synchronised. Does not allocate.
    pub fn mark_synced(&mut self)
        ensures { self.new ≡ record self.old { synced = self.old.visible } }
    {
        key_states::mark_synced(&mut self.states);
        self.synced = self.visible;
    }

    /// Whether the synchronised map and the visible one differ. Does not allocate.
    pub fn has_changes(&self) -> bool
        // False exactly where both maps are the same.
        ensures { (result ≡ false) ↔ (self.now.synced ≡ self.now.visible) }
    {
        // So that what always holds of the maps is known here.
        let _size = self.visible.size;
        key_states::has_changes(&self.states)
    }

    /// The changes that a sync writes: those that make the synchronised map into the visible one, one for each key in
    /// which they differ.
    pub fn changes(&self, alloc: Global) -> Result<Vec<Change>, AllocError>
        ensures { IfOk result (λ changes. AreChanges changes.items self.now.synced self.now.visible) }
    {
        // So that what always holds of the maps is known here.
        let _size = self.visible.size;
        key_states::changes(alloc, &self.states)
    }
}
