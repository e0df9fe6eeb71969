//! A storage of keys on a disk of its own.

ghost use Rattle.std.specs.Prelude.{◌≡◌, IfSome, IsTrue, option_map};
ghost use Rattle.per_embed.specs.Owned.{IsOpenOn, KeepsEachSynced, ReadsSynced};

use disk_model::Disk;
use kvs_laws::values_stand;
use kvs_store::Kvs;
use per_base::Report;
use std::marker::Model;

/// A storage of keys, on a disk that it owns. Once a call of the disk failed it is closed, until it is opened again.
/// Dropping it drops its pending changes. Contracts see it as `OwnedKeys`.
#[derive(Drop)]
pub struct KeyStorage<D: Disk + Drop> {
    pub(crate) disk: D,
    /// None once it is closed.
    pub(crate) kvs: Option<Kvs>,
    /// What its opening reported.
    pub(crate) reports: Vec<Report>,
}

impl<D: Disk + Drop> Model for KeyStorage<D> {
    ghost use Rattle.std.specs.Prelude.{IfSome};
    ghost use Rattle.std.specs.Coded.{codes};
    ghost use Rattle.value_model.specs.Codes.{kind_code};
    ghost use Rattle.per_embed.specs.Owned.{IsOpenOn, OwnedKeys};

    ghost Value = { OwnedKeys D };

    ghost coded = { Prim.hlevel (codes, kind_code) };

    ghost view = { λ s. record { disk = s.disk; kvs = s.kvs; reports = s.reports.items } };

    ghost invariant = { λ s. IfSome s.kvs (IsOpenOn D.told (D.medium s.disk)) };
}

impl<D: Disk + Drop> KeyStorage<D> {
    /// What always holds: while it is open it is in use on its disk, on which nothing is pending. What is synchronised
    /// of each key is what the disk reads, and what a stop leaves while no call is in progress.
    pub fn invariants(&self)
        ensures open { IfSome self.now.kvs (IsOpenOn D.told (D.medium self.now.disk)) }
        ensures reads { IsTrue D.told → IfSome self.now.kvs (λ kvs.
            ReadsSynced kvs (D.medium self.now.disk).image) }
        ensures keeps { IsTrue D.told → IfSome self.now.kvs (λ kvs. KeepsEachSynced kvs (D.medium self.now.disk)) }
    {
        values_stand();
        let _kvs = &self.kvs;
    }

    /// What its opening found lacking or unreadable: of the storage first, then of its keys by their names.
    pub fn reports(&self) -> &[Report]
        ensures { result.now ≡ self.now.reports }
    {
        self.reports.as_slice()
    }

    /// The storage, for the calls that only read it; none where it is closed.
    pub fn storage(&self) -> Option<&Kvs>
        ensures { option_map (λ kvs. kvs.now) result ≡ self.now.kvs }
    {
        self.kvs.as_ref()
    }

    /// The disk. Pending changes are gone.
    pub fn into_disk(self) -> D
        ensures { result ≡ self.disk }
    {
        let KeyStorage { disk, .. } = self;
        disk
    }
}
