//! A key-value storage in use.

ghost use Rattle.std.specs.Prelude.{◌≡◌};
ghost use Rattle.per_base.specs.declared.elements.StoreKind.TheVariants.{Keys};
ghost use Rattle.element_maps.specs.Storages.{IsConfigured};
ghost use Rattle.element_store.specs.Stores.{store_shape, view_in};
ghost use Rattle.key_maps.specs.TwoMaps.{AreTwoMaps};
ghost use Rattle.kvs_core.specs.Sessions.{HasRoom};
ghost use Rattle.kvs_store.specs.Storages.{keys_in};

use element_store::Store;
use kvs_core::KeySession;
use std::alloc::Global;
use std::marker::Model;

/// An open key-value storage. It is used with the disk of its opening, and dropping it drops its pending changes.
/// Contracts see it as a `KvsSession`.
#[derive(Drop)]
pub struct Kvs {
    pub(crate) alloc: Global,
    /// What is on the disk.
    pub(crate) store: Store,
    /// What the calls see, beside what is synchronised.
    pub(crate) session: KeySession,
}

impl Model for Kvs {
    ghost use Rattle.std.specs.Coded.{codes};
    ghost use Rattle.value_model.specs.Codes.{kind_code};
    ghost use Rattle.kvs_store.specs.Storages.{KvsSession};

    ghost Value = { KvsSession };

    ghost coded = { Prim.hlevel (codes, kind_code) };

    ghost use Rattle.kvs_store.specs.Storages.{IsOpen};

    ghost view = { λ k. record {
      config = k.session.config;
      store = k.store;
      session =
          record { synced = k.session.synced; visible = k.session.visible };
    } };

    ghost invariant = { λ k. IsOpen k.store k.session };
}

impl Kvs {
    /// What always holds of an open storage, for the proofs of callers: it does nothing when it runs.
    pub fn invariants(&self)
        // Both maps are in order and take no more than the storage is allowed; a visible key that cannot be read is the
        // very one that is synchronised.
        ensures maps { AreTwoMaps self.now.session }
        ensures room { HasRoom self.now.config self.now.session }
        // The storage below is the configured one, and the synchronised keys are those that it shows.
        ensures configured { IsConfigured Keys self.now.config (store_shape self.now.store) }
        ensures synced { self.now.session.synced ≡ keys_in (view_in self.now.store) }
    {
        self.session.invariants();
    }
}
