//! The session and its maps.

ghost use Rattle.std.specs.Prelude.{◌≡◌, ◌≤◌, IfOk, length};
ghost use Rattle.std.specs.List.{All};
ghost use Rattle.std.specs.List.Sorted.{IsStrictlySortedBy};
ghost use Rattle.per_base.specs.declared.elements.StoreKind.TheVariants.{Keys};
ghost use Rattle.per_base.specs.Maps.{size_of};
ghost use Rattle.per_base.specs.Names.{name_cmp};
ghost use Rattle.deployment_model.specs.Conditions.{IsStorage};
ghost use Rattle.deployment_model.specs.Data.{storage_data};
ghost use Rattle.key_maps.specs.KeyElements.{IsKeyEntry, entry_names, judged_map};
ghost use Rattle.key_maps.specs.TwoMaps.{AreTwoMaps};
ghost use Rattle.kvs_core.specs.Sessions.{HasRoom};

use deployment_model::StorageConfig;
use key_maps::{KEYS, KeyMaps};
use per_base::Entry;
use std::alloc::{AllocError, Global};
use std::marker::Model;

/// An open storage of keys. Contracts see it as a `Session`.
#[derive(Drop)]
pub struct KeySession {
    pub(crate) alloc: Global,
    pub(crate) config: StorageConfig,
    pub(crate) maps: KeyMaps,
}

impl Model for KeySession {
    ghost use Rattle.std.specs.Coded.{codes};
    ghost use Rattle.value_model.specs.Codes.{kind_code};
    ghost use Rattle.kvs_core.specs.Sessions.{Session};

    ghost Value = { Session };

    ghost coded = { Prim.hlevel (codes, kind_code) };

    ghost use Rattle.deployment_model.specs.Data.{storage_data};
    ghost use Rattle.kvs_core.specs.Sessions.{HasRoom};

    ghost view = { λ s. record { config = storage_data s.config; synced = s.maps.synced; visible = s.maps.visible } };

    ghost invariant = { λ s. HasRoom (storage_data s.config) s.maps };
}

impl KeySession {
    /// A session of the keys that these entries are: each is judged, so that bytes that encode no value are unreadable
    /// and no salvage. Nothing is pending.
    pub fn new(
        alloc: Global,
        config: &StorageConfig,
        entries: &[Entry],
    ) -> Result<KeySession, AllocError>
        // The configuration is that of a storage of keys; the entries are those of one, their names ascend strictly,
        // and number and size are within its limits.
        requires configured { IsStorage (storage_data config.now) }
        requires of_keys { config.now.kind ≡ Keys }
        requires keys { All IsKeyEntry entries.now }
        requires ordered { IsStrictlySortedBy name_cmp (entry_names entries.now) }
        requires few { length entries.now ≤ KEYS }
        requires room { size_of (judged_map entries.now) ≤ config.now.maximum }
        // Both maps are then those of the judged keys.
        ensures { IfOk result (λ session. session ≡ record {
          config = storage_data config.now;
          synced =
              judged_map entries.now;
          visible = judged_map entries.now;
        }) }
    {
        let maps = KeyMaps::new(alloc, entries)?;
        let config = config.copy(alloc)?;
        Ok(KeySession {
            alloc,
            config,
            maps,
        })
    }

    /// What always holds of a session: both maps are in order, and take no more than the storage is allowed.
    pub fn invariants(&self)
        // Both maps are in order, and neither takes more bytes than the storage is allowed.
        ensures maps { AreTwoMaps (record { synced = self.now.synced; visible = self.now.visible }) }
        ensures room { HasRoom self.now.config (record { synced = self.now.synced; visible = self.now.visible }) }
    {
        self.maps.invariants();
    }
}
