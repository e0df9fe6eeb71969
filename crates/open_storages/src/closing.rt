//! Closing an open storage.

ghost use Rattle.std.specs.Prelude.{◌≡◌, [], IfOk, IsErrOf, IsOk, IsTrue, None, OnOk, Some, true};
ghost use Rattle.per_base.specs.Causes.{Rose};
ghost use Rattle.per_base.specs.declared.elements.StoreKind.TheVariants as kinds;
ghost use Rattle.per_base.specs.declared.errors.PerError.{PerError};
ghost use Rattle.disk_model.specs.Medium.{Quiet};
ghost use Rattle.element_state.specs.Clean.{IsClean};
ghost use Rattle.element_state.specs.States.{Opens, store_at};
ghost use Rattle.element_store.specs.Stores.{IsUsed, store_shape};
ghost use Rattle.element_maps.specs.Storages.{IsStoring};
ghost use Rattle.open_storages.specs.Durables.{IsClosedOrRefused, OnClosed, WritesAtMost};
ghost use Rattle.open_storages.specs.Opens.{config_in, store_in};
ghost use Rattle.open_storages.specs.Refusals.{close_refused, durable_view, has_nothing_pending};

use crate::opens::Open;
use deploy::Stop;
use disk_model::Disk;
use element_laws::untouched_is_kept;
use file_storage::Closed;
use per_base::{Fault, PerError};

/// Whether a storage was closed.
#[derive(Drop)]
pub enum Closing {
    /// It is closed.
    Done,
    /// It stays open, as it was, for this cause.
    Refused(Open, PerError),
}

impl Open {
    /// Closes the storage. The pending changes of keys are dropped, without a call of the disk; working files are made
    /// durable.
    ///
    /// The call is refused, and nothing changes, with `ResourceBusy` of the lowest handle where one is open; then with
    /// `LimitReached` of `Generations` where files differ and no generation is left.
    ///
    /// # Errors
    ///
    /// `Device` where the disk fails, and `OutOfMemory` before any call of it. Both drop the storage.
    pub fn close<D: Disk>(self, disk: &mut D) -> Result<Closing, Stop>
        requires used { IsUsed D.told (D.medium disk.old).image (store_in self) }

        // The first refusal that is due is given, and hands the storage back as it was. Where nothing is pending the
        // disk is not called.
        ensures done { IfOk result (IsClosedOrRefused self (close_refused self)) }
        ensures due { (error : PerError) → close_refused self ≡ Some error
            → (result ≡ Ok (Closing.Refused self error)) × (disk.new ≡ disk.old) }
        ensures keys { (config_in self).kind ≡ kinds.Keys → (result ≡ Ok Closing.Done) × (disk.new ≡ disk.old) }
        ensures unchanged { has_nothing_pending self ≡ true → IsOk result × (disk.new ≡ disk.old) }

        // A storage of files then opens at the working files.
        ensures opens { IsTrue D.told → (config_in self).kind ≡ kinds.Files → IfOk result (λ closing. OnClosed closing
            (store_at (D.medium disk.new).image (store_shape (store_in self)) ≡ Opens (durable_view self) [])) }

        // A disk with nothing pending ends so, and a clean place stays clean. Each copy gets at most what differs and
        // the next index.
        ensures quiet { Quiet (D.medium disk.old) → OnOk result (Quiet (D.medium disk.new)) }
        ensures clean { IsTrue D.told → IsClean (store_shape (store_in self)) (D.medium disk.old).image
            → OnOk result (IsClean (store_shape (store_in self)) (D.medium disk.new).image) }
        ensures at_most { WritesAtMost self (D.medium disk.old) (D.medium disk.new) }
        // Faults were counted where the device failed, none where the call succeeded; without memory nothing is done.
        ensures cause { IsErrOf result Stop.Device → Rose (D.medium disk.old).faults (D.medium disk.new).faults }
        ensures passes { OnOk result ((D.medium disk.new).faults ≡ (D.medium disk.old).faults) }
        ensures fed { IsErrOf result Stop.OutOfMemory → disk.new ≡ disk.old }

        // No file outside the place changes, and a stop at any moment leaves the storage as before or as after.
        ensures storing { IsStoring D.told (store_shape (store_in self)) (Opens (durable_view self) [])
            (D.medium disk.old) (D.medium disk.new) }
    {
        untouched_is_kept();
        self.invariants();
        match self {
            Open::Keys(_kvs) => Ok(Closing::Done),
            Open::Files(files) => match files.close_storage(disk) {
                Ok(Closed::Done) => Ok(Closing::Done),
                Ok(Closed::Refused(files, error)) => {
                    Ok(Closing::Refused(Open::Files(files), error))
                }
                Err(Fault::Device) => Err(Stop::Device),
                Err(Fault::OutOfMemory(_files)) => Err(Stop::OutOfMemory),
            },
        }
    }
}
