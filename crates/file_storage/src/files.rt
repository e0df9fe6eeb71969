//! An open file storage.

ghost use Rattle.std.specs.Prelude.{◌≡◌, ◌≤◌, ℕ, IsTrue, ◌↔◌, length};
ghost use Rattle.per_base.specs.declared.elements.StoreKind.TheVariants as kinds;
ghost use Rattle.element_maps.specs.Storages.{IsConfigured};
ghost use Rattle.element_store.specs.Stores.{store_shape};
ghost use Rattle.file_handles.specs.Tables.{IsTable};
ghost use Rattle.file_storage.specs.FileSessions.{AreAsStored, storage_of, stored_in};

use deployment_model::StorageConfig;
use element_store::Store;
use file_handles::FileTable;
use std::alloc::Global;
use std::marker::Model;

/// An open file storage. Contracts see it as a `FilesInUse`.
#[derive(Drop)]
pub struct Files {
    pub(crate) alloc: Global,
    pub(crate) config: StorageConfig,
    /// The storage below, whose entries are the synchronised files.
    pub(crate) store: Store,
    /// The working files, the handles, and the moment.
    pub(crate) table: FileTable,
}

impl Model for Files {
    ghost use Rattle.std.specs.Coded.{codes};
    ghost use Rattle.value_model.specs.Codes.{kind_code};
    ghost use Rattle.file_storage.specs.FileSessions.{FilesInUse};

    ghost Value = { FilesInUse };

    ghost coded = { Prim.hlevel (codes, kind_code) };

    ghost use Rattle.deployment_model.specs.Data.{storage_data};
    ghost use Rattle.file_storage.specs.FileSessions.{IsOpen};

    ghost view = { λ f. record {
      config = storage_data f.config;
      store = f.store;
      session = f.table.session;
      moment =
          f.table.moment;
    } };

    ghost invariant = { λ f. IsOpen (storage_data f.config) f.store f.table.storage f.table.session.files };
}

impl Files {
    /// What always holds of an open storage, for the proofs of callers: it does nothing when it runs.
    pub fn invariants(&self)
        // Files and handles are in order and within their limits, and each handle has its file, which is readable.
        ensures table { IsTable (storage_of self.now.config) self.now.session.files self.now.session.handles }
        // The storage below is the configured one.
        ensures configured { IsConfigured kinds.Files self.now.config (store_shape self.now.store) }
        // A working file that cannot be read is the very one that is synchronised.
        ensures unreadable { AreAsStored (stored_in self.now.store) self.now.session.files }
    {
        self.table.invariants();
    }
}
