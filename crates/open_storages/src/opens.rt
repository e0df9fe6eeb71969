//! An open storage.

ghost use Rattle.std.specs.Prelude.{◌≡◌};
ghost use Rattle.element_maps.specs.Storages.{IsConfigured};
ghost use Rattle.element_store.specs.Stores.{store_shape, view_in};
ghost use Rattle.run_model.specs.Sessions.{seen_in, synced_in_session};
ghost use Rattle.open_storages.specs.Opens.{config_in, session_in, session_kind, store_in};

use file_storage::Files;
use kvs_store::Kvs;
use per_base::StoreKind;

/// An open storage. It is used with the disk of its opening, and dropping it drops what is pending.
#[derive(Drop)]
pub enum Open {
    Keys(Kvs),
    Files(Files),
}

impl Open {
    /// What always holds of an open storage: it is as it is configured, its session is one of its kind, and what is
    /// synchronised is what the storage below shows.
    pub fn invariants(&self)
        ensures configured { IsConfigured (config_in self.now).kind (config_in self.now)
            (store_shape (store_in self.now)) }
        ensures kind { session_kind (session_in self.now) ≡ (config_in self.now).kind }
        ensures synced { synced_in_session (session_in self.now) ≡ seen_in (config_in self.now).kind
            (view_in (store_in self.now)) }
    {
        match self {
            Open::Keys(kvs) => kvs.invariants(),
            Open::Files(files) => files.invariants(),
        }
    }

    /// The kind of storage that it is.
    pub fn kind(&self) -> StoreKind
        ensures { result ≡ (config_in self.now).kind }
    {
        self.invariants();
        match self {
            Open::Keys(_) => StoreKind::Keys,
            Open::Files(_) => StoreKind::Files,
        }
    }
}
