//! Making an open storage durable.

ghost use Rattle.std.specs.Prelude.{◌≡◌, [], IfOk, IsErrOf, IsOk, IsTrue, None, OnOk, Some, true};
ghost use Rattle.per_base.specs.Causes.{Rose};
ghost use Rattle.per_base.specs.declared.elements.StoreKind.TheVariants as kinds;
ghost use Rattle.per_base.specs.declared.errors.PerError.{PerError};
ghost use Rattle.disk_model.specs.Medium.{Quiet};
ghost use Rattle.element_state.specs.Clean.{IsClean};
ghost use Rattle.element_state.specs.States.{Opens};
ghost use Rattle.element_store.specs.Stores.{IsUsed, store_shape};
ghost use Rattle.element_maps.specs.Storages.{IsStoring};
ghost use Rattle.open_storages.specs.Durables.{IsDurableOrRefused, WritesAtMost, made_of};
ghost use Rattle.open_storages.specs.Opens.{config_in, store_in};
ghost use Rattle.open_storages.specs.Refusals.{durable_view, flush_refused, has_nothing_pending, sync_refused};

use crate::opens::Open;
use deploy::Stop;
use disk_model::Disk;
use element_laws::untouched_is_kept;
use file_storage::FilesOutcome;
use kvs_store::SyncFault;
use per_base::{Fault, Limit, PerError};

/// Whether what the calls see was made durable.
#[derive(Drop)]
pub enum Durable {
    /// It is on the disk.
    Done(Open),
    /// It is refused for this cause: nothing changed.
    Refused(Open, PerError),
}

impl Open {
    /// Makes what the calls see of a storage of keys durable, all at once: only the keys that differ are written, and
    /// where none does, the disk is not called.
    ///
    /// The call is refused, and nothing changes, with `LimitReached` of `Generations` where keys differ and no
    /// generation is left.
    ///
    /// # Errors
    ///
    /// `Device` where the disk fails, and `OutOfMemory` before any call of it. Both drop the storage.
    pub fn sync<D: Disk>(self, disk: &mut D) -> Result<Durable, Stop>
        requires used { IsUsed D.told (D.medium disk.old).image (store_in self) }
        requires keys { (config_in self).kind ≡ kinds.Keys }

        // The refusal that is due, which hands the storage back as it was; and where nothing differs nothing happens.
        ensures done { IfOk result (IsDurableOrRefused D.told (D.medium disk.new).image self (sync_refused self)) }
        ensures due { (error : PerError) → sync_refused self ≡ Some error
            → (result ≡ Ok (Durable.Refused self error)) × (disk.new ≡ disk.old) }
        ensures unchanged { has_nothing_pending self ≡ true → IsOk result × (disk.new ≡ disk.old) }

        // A disk with nothing pending ends so, and a clean place stays clean. Each copy gets at most what differs and
        // the next index.
        ensures quiet { Quiet (D.medium disk.old) → OnOk result (Quiet (D.medium disk.new)) }
        ensures clean { IsTrue D.told → IsClean (store_shape (store_in self)) (D.medium disk.old).image
            → OnOk result (IsClean (store_shape (store_in self)) (D.medium disk.new).image) }
        ensures at_most { WritesAtMost self (D.medium disk.old) (D.medium disk.new) }
        // Faults were counted where the device failed, none where the call succeeded; without memory nothing is done.
        ensures cause { IsErrOf result Stop.Device → Rose (D.medium disk.old).faults (D.medium disk.new).faults }
        ensures passes { OnOk result ((D.medium disk.new).faults ≡ (D.medium disk.old).faults) }
        ensures fed { IsErrOf result Stop.OutOfMemory → disk.new ≡ disk.old }

        // No file outside the place changes, and a stop at any moment leaves the storage as before or as after.
        ensures storing { IsStoring D.told (store_shape (store_in self)) (Opens (durable_view self) [])
            (D.medium disk.old) (D.medium disk.new) }
    {
        self.invariants();
        match self {
            Open::Keys(kvs) => match kvs.sync_to_storage(disk) {
                Ok(kvs) => Ok(Durable::Done(Open::Keys(kvs))),
                Err(SyncFault::WornOut(kvs)) => Ok(Durable::Refused(
                    Open::Keys(kvs),
                    PerError::LimitReached {
                        which: Limit::Generations,
                    },
                )),
                Err(SyncFault::Device) => Err(Stop::Device),
                Err(SyncFault::OutOfMemory(_kvs)) => Err(Stop::OutOfMemory),
            },
            Open::Files(files) => {
                Ok(Durable::Refused(Open::Files(files), PerError::StorageNotFound))
            }
        }
    }

    /// Makes the working files of a whole storage durable through a handle, all at once: only what differs is written,
    /// and where nothing does, the disk is not called.
    ///
    /// The call is refused, and nothing changes, with `StorageNotFound` for a storage of keys; `NotOpen` for
    /// a number that no handle has; `IllegalWriteAccess` for a handle that only reads; `LimitReached` of `Generations`
    /// where files differ and no generation is left.
    ///
    /// # Errors
    ///
    /// `Device` where the disk fails, and `OutOfMemory` before any call of it. Both drop the storage.
    pub fn flush<D: Disk>(self, disk: &mut D, handle: u32) -> Result<Durable, Stop>
        requires used { IsUsed D.told (D.medium disk.old).image (store_in self) }

        // The refusal that is due, which hands the storage back as it was; and where nothing differs nothing happens.
        ensures done { IfOk result (IsDurableOrRefused D.told (D.medium disk.new).image self
            (flush_refused self handle)) }
        ensures due { (error : PerError) → flush_refused self handle ≡ Some error
            → (result ≡ Ok (Durable.Refused self error)) × (disk.new ≡ disk.old) }
        ensures unchanged { has_nothing_pending self ≡ true → IsOk result × (disk.new ≡ disk.old) }

        // A disk with nothing pending ends so, and a clean place stays clean. Each copy gets at most what differs and
        // the next index.
        ensures quiet { Quiet (D.medium disk.old) → OnOk result (Quiet (D.medium disk.new)) }
        ensures clean { IsTrue D.told → IsClean (store_shape (store_in self)) (D.medium disk.old).image
            → OnOk result (IsClean (store_shape (store_in self)) (D.medium disk.new).image) }
        ensures at_most { WritesAtMost self (D.medium disk.old) (D.medium disk.new) }
        // Faults were counted where the device failed, none where the call succeeded; without memory nothing is done.
        ensures cause { IsErrOf result Stop.Device → Rose (D.medium disk.old).faults (D.medium disk.new).faults }
        ensures passes { OnOk result ((D.medium disk.new).faults ≡ (D.medium disk.old).faults) }
        ensures fed { IsErrOf result Stop.OutOfMemory → disk.new ≡ disk.old }

        // No file outside the place changes, and a stop at any moment leaves the storage as before or as after.
        ensures storing { IsStoring D.told (store_shape (store_in self)) (Opens (durable_view self) [])
            (D.medium disk.old) (D.medium disk.new) }
    {
        untouched_is_kept();
        self.invariants();
        match self {
            Open::Keys(kvs) => { Ok(Durable::Refused(Open::Keys(kvs), PerError::StorageNotFound)) }
            Open::Files(files) => match files.sync_to_file(disk, handle) {
                Ok(FilesOutcome { files, refused }) => Ok(made(Open::Files(files), refused)),
                Err(Fault::Device) => Err(Stop::Device),
                Err(Fault::OutOfMemory(_files)) => Err(Stop::OutOfMemory),
            },
        }
    }
}

/// The storage, made durable or refused for a cause.
fn made(storage: Open, refused: Option<PerError>) -> Durable
    ensures { result ≡ made_of storage refused }
{
    match refused {
        None => Durable::Done(storage),
        Some(error) => Durable::Refused(storage, error),
    }
}
