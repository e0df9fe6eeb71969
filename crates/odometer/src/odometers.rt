//! The odometer: a storage of keys on its disk, and the total that is durable in it.

ghost use Rattle.std.specs.Prelude.{◌≡◌, ◌<◌, ◌+◌, ◌↔◌, ℕ, IfOk, IfSome, IsErrOf, IsSomeAnd, IsTrue, OnErr, OnOk};
ghost use Rattle.per_base.specs.Causes.{Rose};
ghost use Rattle.per_base.specs.declared.errors.PerError.{PerError};
ghost use Rattle.disk_model.specs.Medium.{Quiet};
ghost use Rattle.per_embed.specs.Owned.{IsSaved};
ghost use Rattle.odometer.specs.Odometers.{HasTotal, ReadsTotal, TotalThroughout};

use crate::refusals::Refusal;
use disk_model::Disk;
use per_base::{Name, PerError};
use per_embed::KeyStorage;
use per_value::scalars_have_trees;
use std::alloc::Global;
use std::marker::Model;

/// A storage in three copies, of which two must agree, with a total that starts at 0.
const MANIFEST: &str =
    "{\"version\":1,\"keyValueStorages\":[{\"name\":\"car\",\"redundancy\":{\"m\":2,\"n\":3},\"keyValuePairs\":[{\"name\":\"total\",\"type\":\"u32\",\"initial\":\"u32:0\"}]}]}";

/// The name of the storage.
const STORAGE: &str = "car";

/// The name of the total in it.
pub(crate) const KEY: &str = "total";

/// An odometer over a disk of its own.
#[derive(Drop)]
pub(crate) struct Odometer<D: Disk + Drop> {
    pub(crate) storage: KeyStorage<D>,
    pub(crate) key: Name,
    /// The kilometres that are durable.
    pub(crate) total: u32,
}

impl<D: Disk + Drop> Model for Odometer<D> {
    ghost use Rattle.std.specs.Prelude.{◌≡◌, IfSome};
    ghost use Rattle.std.specs.Coded.{codes};
    ghost use Rattle.value_model.specs.Codes.{kind_code};
    ghost use Rattle.odometer.specs.Odometers.{HasTotal, SeenOdometer};

    ghost Value = { SeenOdometer D };

    ghost coded = { Prim.hlevel (codes, kind_code) };

    ghost use Rattle.odometer.specs.declared.odometers.TheConstants.{KEY};

    ghost view = { λ o. record { storage = o.storage; total = o.total } };

    ghost invariant = { λ o. IfSome o.storage.kvs (HasTotal o.total) × (o.key ≡ KEY.now) };
}

impl<D: Disk + Drop> Odometer<D> {
    /// Opens the odometer of a disk, at a moment in seconds since 1970. The first run installs it, at 0.
    ///
    /// # Errors
    ///
    /// `Storage`, with what the storage refuses.
    pub(crate) fn open(alloc: Global, disk: D, now: u64) -> Result<Odometer<D>, Refusal> {
        let name = Name::new(alloc, STORAGE)?;
        let storage = KeyStorage::open(alloc, disk, MANIFEST, &name, now)?;
        match total_in(alloc, &storage) {
            Ok((key, total)) => Ok(Odometer {
                storage,
                key,
                total,
            }),
            Err(error) => {
                drop(storage);
                Err(Refusal::Storage(error))
            }
        }
    }

    /// The kilometres driven so far. While the odometer is open, the disk reads so, and nothing is pending on it.
    pub(crate) fn total(&self) -> u32
        ensures total { result ≡ self.now.total }
        ensures reads { IsTrue D.told → IfSome self.now.storage.kvs (λ kvs. ReadsTotal kvs result
            (D.medium self.now.storage.disk).image) }
        ensures durable { IfSome self.now.storage.kvs (λ _. Quiet (D.medium self.now.storage.disk)) }
    {
        self.storage.invariants();
        self.total
    }

    /// Adds kilometres to the total, durably.
    ///
    /// # Errors
    ///
    /// `TooFar` exactly where the total would exceed a `u32`: nothing happened. `Storage`, with what the storage
    /// refuses: the total stays. A failure of the disk closes the odometer, which is to be opened again.
    pub(crate) fn drive(&mut self, kilometres: u32) -> Result<(), Refusal>
        ensures total { OnOk result (self.new.total ≡ self.old.total + kilometres) }
        ensures stays { OnErr result (self.new.total ≡ self.old.total) }
        ensures too_far { IsErrOf result Refusal.TooFar ↔ (u32.MAX < self.old.total + kilometres) }
        ensures refused { IsErrOf result Refusal.TooFar → self.new ≡ self.old }

        // A stop at any moment, however the call ends, leaves the old total or the new one.
        ensures any_moment { IsTrue D.told → TotalThroughout self.old.storage.kvs self.old.total
            (self.old.total + kilometres) (D.medium self.old.storage.disk) (D.medium self.new.storage.disk) }
        ensures cause { IsErrOf result (Refusal.Storage PerError.PhysicalStorageFailure)
            → IfSome self.old.storage.kvs (λ _. Rose (D.medium self.old.storage.disk).faults
            (D.medium self.new.storage.disk).faults) }
    {
        self.storage.invariants();
        let Some(total) = self.total.checked_add(kilometres) else {
            return Err(Refusal::TooFar);
        };
        save(&mut self.storage, &self.key, total)?;
        self.total = total;
        Ok(())
    }
}

/// The key of the total, and the total that a storage with nothing pending holds.
fn total_in<D: Disk + Drop>(alloc: Global, storage: &KeyStorage<D>) -> Result<(Name, u32), PerError>
    ensures key { IfOk result (λ found. found.0 ≡ KEY.now) }
    ensures total { IsSomeAnd storage.now.kvs IsSaved
        → IfOk result (λ found. IfSome storage.now.kvs (HasTotal found.1)) }
{
    scalars_have_trees();
    let key = Name::new(alloc, KEY)?;
    let total = storage.get::<u32>(&key)?;
    Ok((key, total))
}

/// Makes this the total, durably.
fn save<D: Disk + Drop>(storage: &mut KeyStorage<D>, key: &Name, total: u32) -> Result<(), PerError>
    requires { key.now ≡ KEY.now }
    ensures total { OnOk result (IfSome storage.new.kvs (HasTotal total)) }
    ensures stays { OnErr result ((before : ℕ) → IfSome storage.old.kvs (HasTotal before)
        → IfSome storage.new.kvs (HasTotal before)) }
    ensures any_moment { IsTrue D.told → (before : ℕ) → IfSome storage.old.kvs (HasTotal before)
        → TotalThroughout storage.old.kvs before total (D.medium storage.old.disk) (D.medium storage.new.disk) }
    ensures cause { IsErrOf result PerError.PhysicalStorageFailure → IfSome storage.old.kvs (λ _.
        Rose (D.medium storage.old.disk).faults (D.medium storage.new.disk).faults) }
{
    scalars_have_trees();
    storage.invariants();
    storage.set(key, &total)?;
    storage.sync()
}
