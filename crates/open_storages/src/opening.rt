//! The opening of a storage.

ghost use Rattle.std.specs.Prelude.{◌≡◌, ◌≤◌, ◌+◌, IfOk, IsErrOf, IsTrue, OnOk};
ghost use Rattle.per_base.specs.Causes.{Rose};
ghost use Rattle.per_base.specs.declared.elements.StoreKind.TheVariants as kinds;
ghost use Rattle.disk_model.specs.Medium.{Quiet};
ghost use Rattle.deployment_model.specs.Conditions.{IsStorage};
ghost use Rattle.deployment_model.specs.Data.{storage_data};
ghost use Rattle.element_state.specs.Chosen.{opened_of};
ghost use Rattle.element_state.specs.Clean.{IsClean};
ghost use Rattle.element_state.specs.Reports.{failed_report};
ghost use Rattle.element_state.specs.States.{State, store_at};
ghost use Rattle.element_store.specs.Mends.{mending_cost};
ghost use Rattle.element_store.specs.Stores.{IsUsed};
ghost use Rattle.element_maps.specs.Storages.{IsConfigured, IsStoring};
ghost use Rattle.open_storages.specs.Openings.{IsOpeningOf, IsWhereConfigured, OnCorrupt, OnOpened};
ghost use Rattle.open_storages.specs.Opens.{store_in};

use crate::opens::Open;
use deploy::Stop;
use deployment_model::StorageConfig;
use disk_model::Disk;
use element_laws::untouched_is_kept;
use element_maps::views_are_maps;
use element_state::{Shape, StoreError, failed_report};
use file_storage::{OpenedFiles, open_files};
use kvs_store::{OpenedKvs, open_kvs};
use per_base::{Report, StoreKind};
use std::alloc::Global;

/// What an opening found.
#[derive(Drop)]
pub enum Opening {
    /// The storage in use, and what was lacking or could not be read: of the storage first, then of its elements by
    /// their names.
    Opened(Open, Vec<Report>),
    /// The storage is corrupt, and stays as it is; the report says so.
    Corrupt(Report),
}

/// Opens the storage of this shape (its place, its kind, how many copies must agree, its size), as it is configured:
/// every copy is brought to the text at which it opens, and each element on which enough copies agree is written again
/// where a copy lacks it. Nothing is then pending, and no handle is open.
///
/// # Errors
///
/// `Device` where the disk fails, and `OutOfMemory`.
pub fn open_storage<D: Disk>(
    alloc: Global,
    disk: &mut D,
    shape: Shape,
    config: &StorageConfig,
) -> Result<Opening, Stop>
    requires valid { IsStorage (storage_data config.now) }
    requires configured { IsConfigured config.now.kind (storage_data config.now) shape }

    // A storage that opens comes open, with its view and the reports of that; one that does not is reported as corrupt.
    // What is open is as it was configured, at its place, and in use on the disk.
    ensures opened { IsTrue D.told → IfOk result (IsOpeningOf (store_at (D.medium disk.old).image shape) shape
        (storage_data config.now)) }
    ensures placed { IfOk result (λ opening. OnOpened opening (IsWhereConfigured shape (storage_data config.now))) }
    ensures used { IfOk result (λ opening. OnOpened opening
        (λ o. IsUsed D.told (D.medium disk.new).image (store_in o))) }
    // Where the call succeeds, a clean place has stayed clean, and nothing is pending.
    ensures clean { IsTrue D.told → IsClean shape (D.medium disk.old).image
        → OnOk result (IsClean shape (D.medium disk.new).image) }
    ensures quiet { OnOk result (Quiet (D.medium disk.new)) }

    // A corrupt storage is left as it is.
    ensures untouched { IfOk result (λ opening. OnCorrupt opening
        (((D.medium disk.new).image ≡ (D.medium disk.old).image)
        × ((D.medium disk.new).written ≡ (D.medium disk.old).written))) }

    // The count of faults rose where the device failed, and stayed where the call succeeded or memory ran out.
    ensures cause { IsErrOf result Stop.Device → Rose (D.medium disk.old).faults (D.medium disk.new).faults }
    ensures passes { OnOk result ((D.medium disk.new).faults ≡ (D.medium disk.old).faults) }
    ensures fed { IsErrOf result Stop.OutOfMemory → (D.medium disk.new).faults ≡ (D.medium disk.old).faults }

    // However it ends, no more is written than what it finds costs to mend.
    ensures written { IsTrue D.told → (D.medium disk.new).written ≤ (D.medium disk.old).written
        + mending_cost shape.place.copies (opened_of (store_at (D.medium disk.old).image shape)) }

    // No file outside the place changes, and a stop at any moment keeps the storage as before: `after` is any state.
    ensures storing { (after : State) → IsStoring D.told shape after (D.medium disk.old) (D.medium disk.new) }
{
    untouched_is_kept();
    let Ok(failed) = failed_report(alloc, &shape) else {
        return Err(Stop::OutOfMemory);
    };
    match config.kind {
        StoreKind::Keys => open_keys(alloc, disk, shape, config, failed),
        StoreKind::Files => open_file_storage(alloc, disk, shape, config, failed),
    }
}

/// Opens a storage of keys; this report is given where it is corrupt.
fn open_keys<D: Disk>(
    alloc: Global,
    disk: &mut D,
    shape: Shape,
    config: &StorageConfig,
    failed: Report,
) -> Result<Opening, Stop>
    requires valid { IsStorage (storage_data config.now) }
    requires configured { IsConfigured kinds.Keys (storage_data config.now) shape }
    requires failed { failed ≡ failed_report shape }

    ensures opened { IsTrue D.told → IfOk result (IsOpeningOf (store_at (D.medium disk.old).image shape) shape
        (storage_data config.now)) }
    ensures placed { IfOk result (λ opening. OnOpened opening (IsWhereConfigured shape (storage_data config.now))) }
    ensures used { IfOk result (λ opening. OnOpened opening
        (λ o. IsUsed D.told (D.medium disk.new).image (store_in o))) }
    ensures clean { IsTrue D.told → IsClean shape (D.medium disk.old).image
        → OnOk result (IsClean shape (D.medium disk.new).image) }
    ensures quiet { OnOk result (Quiet (D.medium disk.new)) }
    ensures untouched { IfOk result (λ opening. OnCorrupt opening
        (((D.medium disk.new).image ≡ (D.medium disk.old).image)
        × ((D.medium disk.new).written ≡ (D.medium disk.old).written))) }
    ensures cause { IsErrOf result Stop.Device → Rose (D.medium disk.old).faults (D.medium disk.new).faults }
    ensures passes { OnOk result ((D.medium disk.new).faults ≡ (D.medium disk.old).faults) }
    ensures fed { IsErrOf result Stop.OutOfMemory → (D.medium disk.new).faults ≡ (D.medium disk.old).faults }
    ensures written { IsTrue D.told → (D.medium disk.new).written ≤ (D.medium disk.old).written
        + mending_cost shape.place.copies (opened_of (store_at (D.medium disk.old).image shape)) }
    ensures storing { (after : State) → IsStoring D.told shape after (D.medium disk.old) (D.medium disk.new) }
{
    match open_kvs(alloc, disk, shape, config) {
        Ok(OpenedKvs { kvs, reports }) => Ok(Opening::Opened(Open::Keys(kvs), reports)),
        Err(StoreError::Corrupt) => Ok(Opening::Corrupt(failed)),
        Err(StoreError::Device) => Err(Stop::Device),
        Err(StoreError::OutOfMemory) => Err(Stop::OutOfMemory),
    }
}

/// Opens a storage of files; this report is given where it is corrupt.
fn open_file_storage<D: Disk>(
    alloc: Global,
    disk: &mut D,
    shape: Shape,
    config: &StorageConfig,
    failed: Report,
) -> Result<Opening, Stop>
    requires valid { IsStorage (storage_data config.now) }
    requires configured { IsConfigured kinds.Files (storage_data config.now) shape }
    requires failed { failed ≡ failed_report shape }

    ensures opened { IsTrue D.told → IfOk result (IsOpeningOf (store_at (D.medium disk.old).image shape) shape
        (storage_data config.now)) }
    ensures placed { IfOk result (λ opening. OnOpened opening (IsWhereConfigured shape (storage_data config.now))) }
    ensures used { IfOk result (λ opening. OnOpened opening
        (λ o. IsUsed D.told (D.medium disk.new).image (store_in o))) }
    ensures clean { IsTrue D.told → IsClean shape (D.medium disk.old).image
        → OnOk result (IsClean shape (D.medium disk.new).image) }
    ensures quiet { OnOk result (Quiet (D.medium disk.new)) }
    ensures untouched { IfOk result (λ opening. OnCorrupt opening
        (((D.medium disk.new).image ≡ (D.medium disk.old).image)
        × ((D.medium disk.new).written ≡ (D.medium disk.old).written))) }
    ensures cause { IsErrOf result Stop.Device → Rose (D.medium disk.old).faults (D.medium disk.new).faults }
    ensures passes { OnOk result ((D.medium disk.new).faults ≡ (D.medium disk.old).faults) }
    ensures fed { IsErrOf result Stop.OutOfMemory → (D.medium disk.new).faults ≡ (D.medium disk.old).faults }
    ensures written { IsTrue D.told → (D.medium disk.new).written ≤ (D.medium disk.old).written
        + mending_cost shape.place.copies (opened_of (store_at (D.medium disk.old).image shape)) }
    ensures storing { (after : State) → IsStoring D.told shape after (D.medium disk.old) (D.medium disk.new) }
{
    views_are_maps();
    match open_files(alloc, disk, shape, config) {
        Ok(OpenedFiles { files, reports }) => Ok(Opening::Opened(Open::Files(files), reports)),
        Err(StoreError::Corrupt) => Ok(Opening::Corrupt(failed)),
        Err(StoreError::Device) => Err(Stop::Device),
        Err(StoreError::OutOfMemory) => Err(Stop::OutOfMemory),
    }
}
