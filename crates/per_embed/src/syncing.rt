//! The sync: what the calls see becomes what is on the disk.

ghost use Rattle.std.specs.Prelude.{◌≡◌, ◌⊎◌, ◌↔◌, [], true, false, Err, IfErr, IfSome, IsErrOf, IsOk, IsSomeAnd};
ghost use Rattle.std.specs.Prelude.{IsTrue, None, OnOk, Some};
ghost use Rattle.per_base.specs.Causes.{Rose};
ghost use Rattle.element_state.specs.States.{Opens, is_worn};
ghost use Rattle.element_store.specs.Stores.{store_shape, view_in};
ghost use Rattle.element_maps.specs.Storages.{IsStoring};
ghost use Rattle.kvs_store.specs.Synced.{IsSynced, WritesAtMost, is_synced, synced_view};
ghost use Rattle.per_embed.specs.Owned.{IsOpenOn, KeepsValues};

use crate::storages::KeyStorage;
use disk_model::Disk;
use kvs_laws::values_stand;
use kvs_store::{Kvs, SyncFault};
use per_base::{Limit, PerError};

impl<D: Disk + Drop> KeyStorage<D> {
    /// Makes what the calls see durable, all at once and in every copy. Only the keys that differ are written, and
    /// where none does, the disk is not called.
    ///
    /// # Errors
    ///
    /// `LimitReached` with `Generations` exactly where something is pending and no generation is left, and
    /// `OutOfMemory`: nothing happened. `PhysicalStorageFailure` where the disk fails, which closes the storage, and
    /// where it is closed.
    pub fn sync(&mut self) -> Result<(), PerError>
        // What the calls see is then what is synchronised, and durable; all else stays.
        ensures synced { OnOk result (IsSomeAnd self.old.kvs (λ kvs. IsSomeAnd self.new.kvs (λ later.
            IsSynced D.told kvs later (D.medium self.old.disk) (D.medium self.new.disk)))) }
        // Where nothing is pending it succeeds, and nothing changes.
        ensures idle { IfSome self.old.kvs (λ kvs. is_synced kvs ≡ true → IsOk result × (self.new ≡ self.old)) }

        // Only a disk that failed closes it, and its count of faults rose; another refusal changes nothing. Where no
        // generation is left, a sync is refused for that exactly where something is pending.
        ensures closes { IsErrOf result PerError.PhysicalStorageFailure → self.new.kvs ≡ None }
        ensures closed { self.old.kvs ≡ None
            → (result ≡ Err PerError.PhysicalStorageFailure) × (self.new ≡ self.old) }
        ensures unchanged { IfErr result (λ error. ((error ≡ PerError.PhysicalStorageFailure)
            × (self.new.kvs ≡ None)) ⊎ (self.new ≡ self.old)) }
        ensures worn_out { IfSome self.old.kvs (λ kvs. IsErrOf result (PerError.LimitReached Limit.Generations)
            ↔ ((is_synced kvs ≡ false) × IsTrue (is_worn (view_in kvs.store)))) }
        ensures cause { IsErrOf result PerError.PhysicalStorageFailure → IfSome self.old.kvs (λ _.
            Rose (D.medium self.old.disk).faults (D.medium self.new.disk).faults) }

        // However it ends: at most what differs is written, no file outside the storage changes, and a stop at any
        // moment leaves it as before or as after, and so each value.
        ensures at_most { IfSome self.old.kvs (λ kvs. WritesAtMost kvs (D.medium self.old.disk)
            (D.medium self.new.disk)) }
        ensures storing { IfSome self.old.kvs (λ kvs. IsStoring D.told (store_shape kvs.store)
            (Opens (synced_view kvs) []) (D.medium self.old.disk) (D.medium self.new.disk)) }
        ensures any_moment { IsTrue D.told → IfSome self.old.kvs (λ kvs. KeepsValues kvs (D.medium self.old.disk)
            (D.medium self.new.disk)) }
    {
        values_stand();
        sync_in(&mut self.disk, &mut self.kvs)
    }
}

/// Makes what the calls see of a storage durable, which may be closed.
fn sync_in<D: Disk>(disk: &mut D, kvs: &mut Option<Kvs>) -> Result<(), PerError>
    requires rest { IfSome kvs.old (IsOpenOn D.told (D.medium disk.old)) }
    ensures rest { IfSome kvs.new (IsOpenOn D.told (D.medium disk.new)) }
    ensures synced { OnOk result (IsSomeAnd kvs.old (λ old. IsSomeAnd kvs.new (λ later.
        IsSynced D.told old later (D.medium disk.old) (D.medium disk.new)))) }
    ensures idle { IfSome kvs.old (λ old. is_synced old ≡ true
        → IsOk result × (kvs.new ≡ kvs.old) × (disk.new ≡ disk.old)) }
    ensures closes { IsErrOf result PerError.PhysicalStorageFailure → kvs.new ≡ None }
    ensures closed { kvs.old ≡ None → (result ≡ Err PerError.PhysicalStorageFailure) × (kvs.new ≡ kvs.old)
        × (disk.new ≡ disk.old) }
    ensures unchanged { IfErr result (λ error. ((error ≡ PerError.PhysicalStorageFailure) × (kvs.new ≡ None))
        ⊎ ((kvs.new ≡ kvs.old) × (disk.new ≡ disk.old))) }
    ensures worn_out { IfSome kvs.old (λ old. IsErrOf result (PerError.LimitReached Limit.Generations)
        ↔ ((is_synced old ≡ false) × IsTrue (is_worn (view_in old.store)))) }
    ensures cause { IsErrOf result PerError.PhysicalStorageFailure → IfSome kvs.old (λ _.
        Rose (D.medium disk.old).faults (D.medium disk.new).faults) }
    ensures at_most { IfSome kvs.old (λ old. WritesAtMost old (D.medium disk.old) (D.medium disk.new)) }
    ensures storing { IfSome kvs.old (λ old. IsStoring D.told (store_shape old.store)
        (Opens (synced_view old) []) (D.medium disk.old) (D.medium disk.new)) }
{
    let Some(storage) = kvs.take() else {
        return Err(PerError::PhysicalStorageFailure);
    };
    let (left, done) = synced(disk, storage);
    *kvs = left;
    done
}

/// The storage after a sync, none where the disk failed, and how it ended.
fn synced<D: Disk>(disk: &mut D, kvs: Kvs) -> (Option<Kvs>, Result<(), PerError>)
    requires rest { IsOpenOn D.told (D.medium disk.old) kvs }
    ensures rest { IfSome result.0 (IsOpenOn D.told (D.medium disk.new)) }
    ensures synced { OnOk result.1 (IsSomeAnd result.0 (λ later. IsSynced D.told kvs later (D.medium disk.old)
        (D.medium disk.new))) }
    ensures idle { is_synced kvs ≡ true → IsOk result.1 × (result.0 ≡ Some kvs) × (disk.new ≡ disk.old) }
    ensures closes { IsErrOf result.1 PerError.PhysicalStorageFailure → result.0 ≡ None }
    ensures unchanged { IfErr result.1 (λ error. ((error ≡ PerError.PhysicalStorageFailure) × (result.0 ≡ None))
        ⊎ ((result.0 ≡ Some kvs) × (disk.new ≡ disk.old))) }
    ensures worn_out { IsErrOf result.1 (PerError.LimitReached Limit.Generations)
        ↔ ((is_synced kvs ≡ false) × IsTrue (is_worn (view_in kvs.store))) }
    ensures cause { IsErrOf result.1 PerError.PhysicalStorageFailure
        → Rose (D.medium disk.old).faults (D.medium disk.new).faults }
    ensures at_most { WritesAtMost kvs (D.medium disk.old) (D.medium disk.new) }
    ensures storing { IsStoring D.told (store_shape kvs.store) (Opens (synced_view kvs) []) (D.medium disk.old)
        (D.medium disk.new) }
{
    match kvs.sync_to_storage(disk) {
        Ok(kvs) => {
            kvs.invariants();
            (Some(kvs), Ok(()))
        }
        Err(SyncFault::Device) => (None, Err(PerError::PhysicalStorageFailure)),
        Err(SyncFault::WornOut(kvs)) => (
            Some(kvs),
            Err(PerError::LimitReached {
                which: Limit::Generations,
            }),
        ),
        Err(SyncFault::OutOfMemory(kvs)) => (Some(kvs), Err(PerError::OutOfMemory)),
    }
}
