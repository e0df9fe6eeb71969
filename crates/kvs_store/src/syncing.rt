//! The sync: what the calls see becomes what is on the disk.

ghost use Rattle.std.specs.Prelude.{◌≡◌, ◌≢◌, ◌↔◌, ◌<◌, [], true, false, IsTrue, IfOk, IfErr, length};
ghost use Rattle.per_base.specs.Causes.{Rose};
ghost use Rattle.index_text.specs.Spelling.{index_text};
ghost use Rattle.element_state.specs.States.{Opens, greatest_generation, is_worn};
ghost use Rattle.element_store.specs.Committing.{index_in, index_length};
ghost use Rattle.element_store.specs.Stores.{IsUsed, store_shape, view_in};
ghost use Rattle.element_maps.specs.Differences.{MakeInto};
ghost use Rattle.element_maps.specs.Storages.{IsDurable, IsStoring, KeepsEqual};
ghost use Rattle.kvs_store.specs.Synced.{HandsBack, IsDeviceFault, IsSynced, WritesAtMost, is_synced};
ghost use Rattle.kvs_store.specs.Synced.{marked_synced, synced_view};

use crate::storages::Kvs;
use disk_model::Disk;
use element_laws::untouched_is_kept;
use element_maps::{changes_make_maps, syncs_are_decided};
use per_base::{Change, Fault};
use std::alloc::AllocError;
use std::fmt;

/// Why a sync gave up.
#[derive(Drop)]
pub enum SyncFault {
    /// The disk failed, and the storage is closed.
    Device,
    /// No generation is left for the changes: the storage is handed back, and nothing happened.
    WornOut(Kvs),
    /// `OutOfMemory` hands the storage back, and nothing happened.
    OutOfMemory(Kvs),
}

impl fmt::Display for SyncFault {
    fn fmt<W: fmt::Write>(&self, f: &mut fmt::Formatter<W>) -> fmt::Result {
        f.write_str(match self {
            SyncFault::Device => "the disk failed",
            SyncFault::WornOut(_) => "no generation is left for the changes",
            SyncFault::OutOfMemory(_) => "memory ran out",
        })
    }
}

impl Kvs {
    /// Makes what the calls see the content of the storage, all at once: a stop at any moment leaves the storage of
    /// before or that of after. Only the keys that differ are written, and where none does, the disk is not called and
    /// nothing is allocated.
    ///
    /// # Errors
    ///
    /// `WornOut` exactly where the maps differ and the generation is the greatest, and `OutOfMemory`, hand the storage
    /// back with its pending changes before any call of the disk. `Device` closes it.
    pub fn sync_to_storage<D: Disk>(self, disk: &mut D) -> Result<Kvs, SyncFault>
        // The storage is in use on this disk: where the bytes of the disk are modelled, they are its own.
        requires { IsUsed D.told (D.medium disk.old).image self.store }

        // What the calls see is then what is synchronised and what the storage shows, and all else stays.
        ensures session { IfOk result (λ kvs. kvs
            ≡ record self { store = kvs.store; session = marked_synced self.session }) }
        ensures shape { IfOk result (λ kvs. store_shape kvs.store ≡ store_shape self.store) }
        ensures view { IfOk result (λ kvs. view_in kvs.store ≡ synced_view self) }
        ensures used { IfOk result (λ kvs. IsUsed D.told (D.medium disk.new).image kvs.store) }

        // Where nothing differs nothing happens.
        ensures unchanged { is_synced self ≡ true → (result ≡ Ok self) × (disk.new ≡ disk.old) }

        // What is handed back is unchanged, and so is the disk; it is worn out exactly where the maps differ and the
        // generation is the greatest. Only a disk that failed closes the storage, and its count of faults rose.
        ensures handed_back { IfErr result (λ fault. HandsBack self fault (disk.new ≡ disk.old)) }
        ensures worn_out { (result ≡ Err (SyncFault.WornOut self)) ↔
            ((is_synced self ≡ false) × IsTrue (is_worn (view_in self.store))) }
        ensures cause { IfErr result (λ fault. IsDeviceFault fault
            → Rose (D.medium disk.old).faults (D.medium disk.new).faults) }

        // What differed is durable, no call of the disk failed, and only the keys that differ and the index were
        // written in each copy; where the disk failed, no more than that.
        ensures durable { IfOk result (λ kvs. IsDurable D.told (store_shape self.store) self.session.synced
            self.session.visible
            (length (index_text (index_in kvs.store))) (D.medium disk.old) (D.medium disk.new)) }
        ensures at_most { WritesAtMost self (D.medium disk.old) (D.medium disk.new) }

        // The next index lists what the view shows, in format 2, and each key that does not differ as it was listed.
        ensures carried { IfOk result (λ kvs. KeepsEqual self.session.synced self.session.visible
            (index_in self.store).entries (index_in kvs.store).entries) }
        ensures format { is_synced self ≡ false → IfOk result (λ kvs. (index_in kvs.store).format ≡ 2) }
        ensures text { is_synced self ≡ false → IfOk result (λ kvs. length (index_text (index_in kvs.store))
            ≡ index_length (store_shape self.store).kind (view_in kvs.store).entries) }

        // No file outside the place changes, and a stop at any moment leaves the storage as before or as after.
        ensures storing { IsStoring D.told (store_shape self.store) (Opens (synced_view self) []) (D.medium disk.old)
            (D.medium disk.new) }
    {
        untouched_is_kept();
        syncs_are_decided();
        if self.is_synced() {
            return Ok(self);
        }
        if self.store.generation() == u64::MAX {
            return Err(SyncFault::WornOut(self));
        }
        match self.changes() {
            Ok(changes) => self.commit(disk, changes),
            Err(_) => Err(SyncFault::OutOfMemory(self)),
        }
    }

    // Whether what the calls see is what is synchronised. Does not allocate.
    fn is_synced(&self) -> bool
        ensures { result ≡ is_synced self.now }
    {
        syncs_are_decided();
        !self.session.has_changes()
    }

    // The changes that make what is synchronised into what the calls see, exactly where the two differ.
    fn changes(&self) -> Result<Vec<Change>, AllocError>
        ensures { IfOk result (λ changes. MakeInto changes.items self.now.session.synced self.now.session.visible) }
    {
        self.session.invariants();
        self.session.changes()
    }

    // Commits these changes, which make what is synchronised into what the calls see.
    fn commit<D: Disk>(self, disk: &mut D, changes: Vec<Change>) -> Result<Kvs, SyncFault>
        requires used { IsUsed D.told (D.medium disk.old).image self.store }
        requires changes { MakeInto changes.items self.session.synced self.session.visible }
        requires differ { is_synced self ≡ false }
        requires not_worn { (view_in self.store).generation < greatest_generation }
        ensures synced { IfOk result (λ kvs. IsSynced D.told self kvs (D.medium disk.old) (D.medium disk.new)) }
        ensures handed_back { IfErr result (λ fault. HandsBack self fault (disk.new ≡ disk.old)) }
        ensures not_worn_out { result ≢ Err (SyncFault.WornOut self) }
        ensures cause { IfErr result (λ fault. IsDeviceFault fault
            → Rose (D.medium disk.old).faults (D.medium disk.new).faults) }
        ensures at_most { WritesAtMost self (D.medium disk.old) (D.medium disk.new) }
        ensures storing { IsStoring D.told (store_shape self.store) (Opens (synced_view self) []) (D.medium disk.old)
            (D.medium disk.new) }
    {
        changes_make_maps();
        self.invariants();
        self.store.invariants();
        let Kvs {
            alloc,
            store,
            mut session,
        } = self;
        match store.commit(disk, changes, ()) {
            Ok(store) => {
                session.mark_synced();
                Ok(Kvs {
                    alloc,
                    store,
                    session,
                })
            }
            Err(Fault::Device) => Err(SyncFault::Device),
            Err(Fault::OutOfMemory((store, _, ()))) => Err(SyncFault::OutOfMemory(Kvs {
                alloc,
                store,
                session,
            })),
        }
    }
}
