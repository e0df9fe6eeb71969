//! The maps of a storage that is opened.

ghost use Rattle.std.specs.Prelude.{◌≡◌, ◌≤◌, ◌+◌, IfOk, length, sum_by};
ghost use Rattle.std.specs.List.{All};
ghost use Rattle.std.specs.List.Sorted.{IsStrictlySortedBy};
ghost use Rattle.per_base.specs.Maps.{size_of};
ghost use Rattle.per_base.specs.Names.{name_cmp};
ghost use Rattle.key_maps.specs.KeyStates.{opened_states};
ghost use Rattle.key_maps.specs.KeyElements.{IsKeyEntry, entry_names, judged_map};

use crate::extents::Extent;
use crate::key_elements::KeyElement;
use crate::key_states::{KeyState, Pending, add};
use crate::maps::{KEYS, KeyMaps, STORAGE_BYTES};
use per_base::{Entry, Name, storage_size};
use std::alloc::{AllocError, Global};
use std::collections::BTreeMap;

impl KeyMaps {
    /// The maps of the keys in these entries, with nothing pending. A content that is not the encoding of a value makes
    /// its key unreadable.
    #[tactic(auto, using(crate::specs::lemmas::Opened::opened_synced, crate::specs::lemmas::Opened::opened_visible, crate::specs::lemmas::Opened::opened_measured, crate::specs::lemmas::Opened::judged_size))]
    pub fn new(alloc: Global, entries: &[Entry]) -> Result<KeyMaps, AllocError>
        // Each entry is one of a storage of keys, the names ascend strictly, and number and size are within its
        // limits.
        requires keys { All IsKeyEntry entries.now }
        requires ordered { IsStrictlySortedBy name_cmp (entry_names entries.now) }
        requires few { length entries.now ≤ KEYS }
        requires small { size_of (judged_map entries.now) ≤ STORAGE_BYTES }
        // Both maps are then those of the judged keys.
        ensures { IfOk result (λ maps. maps ≡ record {
          synced = judged_map entries.now;
          visible =
              judged_map entries.now;
        }) }
    {
        let states = states_of(alloc, entries)?;
        let extent = Extent {
            count: entries.len(),
            size: storage_size(entries),
        };
        Ok(KeyMaps {
            states,
            synced: extent,
            visible: extent,
        })
    }
}

#[tactic(auto, using(crate::specs::lemmas::Opened::opened_more))]
fn states_of(alloc: Global, entries: &[Entry]) -> Result<BTreeMap<Name, KeyState>, AllocError>
    requires keys { All IsKeyEntry entries.now }
    requires ordered { IsStrictlySortedBy name_cmp (entry_names entries.now) }
    ensures { IfOk result (λ states. states.entries ≡ opened_states entries.now) }
{
    let mut states = BTreeMap::new(alloc);
    for entry in entries {
        let key = KeyElement::judge(alloc, entry)?;
        let state = KeyState {
            synced: Some(key),
            pending: Pending::Same,
        };
        add(&mut states, &entry.name, state)?;
    }
    Ok(states)
}
