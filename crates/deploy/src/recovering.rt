//! Rebuilding a closed storage: recovered, reset, or with contents that are given.

ghost use Rattle.std.specs.Prelude.{◌≡◌, ◌≤◌, ◌⊎◌, IfOk, IfSome, IsErr, IsErrOf, IsSome, IsTrue, None, OnOk, Some, []};
ghost use Rattle.std.specs.Prelude.{filter_map, length, option_map, sum_by, true, ◌+◌, ◌≢◌};
ghost use Rattle.std.specs.List.{AllByRecursion};
ghost use Rattle.per_base.specs.Causes.{Rose};
ghost use Rattle.per_base.specs.declared.elements.Cause.TheVariants as cause;
ghost use Rattle.value_code.specs.Reading.{is_content};
ghost use Rattle.file_core.specs.Infos as infos;
ghost use Rattle.index_text.specs.Contents.{AreContents, fresh_size};
ghost use Rattle.disk_model.specs.Medium.{Elapses, Quiet};
ghost use Rattle.disk_model.specs.Place.{IsOutside};
ghost use Rattle.deployment_model.specs.Conditions.{IsStorage};
ghost use Rattle.deployment_model.specs.Data.{storage_data};
ghost use Rattle.element_maps.specs.Storages.{IsConfigured};
ghost use Rattle.element_state.specs.Clean.{IsClean};
ghost use Rattle.element_state.specs.Conditions.{IsShape};
ghost use Rattle.element_state.specs.Kept.{KeptThroughout};
ghost use Rattle.element_state.specs.Read.{IsView};
ghost use Rattle.element_state.specs.States.{Corrupt, State, salvage_of, store_at};
ghost use Rattle.element_store.specs.Rebuilds.{rebuilding_cost};
ghost use Rattle.update_plan.specs.Rows.{initial_contents};
ghost use Rattle.deploy_rows.specs.Recovering.{after_state, if_contents_fit, is_worn_out, rebuilding};
ghost use Rattle.deploy_rows.specs.Recovering.{recovered_contents, recovering, rescued, resetting};
ghost use Rattle.deploy_rows.specs.Rows.{AnswersRow};
ghost use Rattle.deploy_laws.specs.Stands.{ChangesNothing};
ghost use Rattle.deploy.specs.Clauses.{Leaves};
ghost use Rattle.deploy.specs.Recovered.{AreElements, rescued_entry};

use crate::errors::Stop;
use crate::installing::worn_out;
use deployment_model::{StorageConfig, found_is_kept};
use disk_model::Disk;
use element_laws::untouched_is_kept;
use element_state::{Shape, View, salvage};
use element_store::rebuild;
use file_core::changed;
use per_base::{Bytes, Cause, Content, Entry, FileInfo, Fresh, PerError, StoreKind, element_size};
use std::alloc::{AllocError, Global};
use update_plan::initial_of;
use value_code::encodes;

/// Rebuilds a closed storage from its readable contents, at a moment in seconds: of each element its content, or else
/// its salvage (the bytes of the first copy whose content counts), or else what it starts with, or else nothing; of a
/// storage of which nothing is seen, what it is installed with.
///
/// The answer is the refusal, or none once it is rebuilt. Refusals, the first that holds: `OutOfStorageSpace` where
/// that is more than the storage may have; `LimitReached` with `Generations` where no generation is left. Then nothing
/// was written.
///
/// # Errors
///
/// `Device` where the disk fails, and `OutOfMemory`.
pub fn recover_storage<D: Disk>(
    alloc: Global,
    disk: &mut D,
    shape: &Shape,
    config: &StorageConfig,
    now: u64,
) -> Result<Option<PerError>, Stop>
    requires shape { IsShape shape.now }
    requires config { IsStorage (storage_data config.now) }
    requires configured { IsConfigured config.now.kind (storage_data config.now) shape.now }
    // Of the state before (of some where no bytes are modelled) `recovering` gives the refusal or the next state.
    ensures refused { IfOk result (λ refused. (state : State)
        × (IsTrue D.told → store_at (D.medium disk.old).image shape.now ≡ state)
        × AnswersRow refused (recovering (storage_data config.now) now state)) }
    ensures state { IsTrue D.told → OnOk result (store_at (D.medium disk.new).image shape.now
        ≡ after_state (store_at (D.medium disk.old).image shape.now)
        (recovering (storage_data config.now) now (store_at (D.medium disk.old).image shape.now))) }
    // A refused call changes nothing.
    ensures unchanged { IfOk result (λ refused. refused ≢ None
        → ((D.medium disk.new).image ≡ (D.medium disk.old).image)
        × ((D.medium disk.new).written ≡ (D.medium disk.old).written)) }
    // The storage's place is clean once it is rebuilt, and where a refused call found it clean.
    ensures clean { IsTrue D.told → IfOk result (λ refused. (refused ≡ None)
        ⊎ IsClean shape.now (D.medium disk.old).image
        → IsClean shape.now (D.medium disk.new).image) }
    ensures quiet { OnOk result (Quiet (D.medium disk.new)) }
    // The count of faults rose where the device failed, and stayed where the call succeeded or memory ran out.
    ensures cause { IsErrOf result Stop.Device → Rose (D.medium disk.old).faults (D.medium disk.new).faults }
    ensures passes { OnOk result ((D.medium disk.new).faults ≡ (D.medium disk.old).faults) }
    ensures fed { IsErrOf result Stop.OutOfMemory → (D.medium disk.new).faults ≡ (D.medium disk.old).faults }

    // Only files of the storage change, and at any moment it is as it was or as it is rebuilt.
    ensures outside { Leaves D.told (IsOutside shape.now.place) (D.medium disk.old)
        (D.medium disk.new) }
    ensures any_moment { IsTrue D.told → KeptThroughout shape.now
        (after_state (store_at (D.medium disk.old).image shape.now)
        (recovering (storage_data config.now) now (store_at (D.medium disk.old).image shape.now)))
        (D.medium disk.old) (D.medium disk.new) }
    // However it ends, no more than a rebuild with these contents costs, in each copy.
    ensures written { IsTrue D.told → (D.medium disk.new).written ≤ (D.medium disk.old).written
        + rebuilding_cost (storage_data config.now).n (recovered_contents (storage_data config.now) now
        (salvage_of (store_at (D.medium disk.old).image shape.now))) }
    ensures time { Elapses (D.medium disk.old) (D.medium disk.new) }
{
    untouched_is_kept();
    let view = salvage(alloc, disk, shape)?;
    let contents = recovered(alloc, config, now, &view)?;
    let needed = size_of(contents.as_slice());
    if needed > config.maximum {
        return Ok(Some(PerError::OutOfStorageSpace {
            needed,
            allowed: config.maximum,
        }));
    }
    rebuild_over(alloc, disk, shape, &view, contents)
}

/// Rebuilds a closed storage with its initial contents. The infos of its files then have `now`, a moment in seconds.
///
/// The answer is the refusal, or none once it is rebuilt. It is refused with `LimitReached` and `Generations` where no
/// generation is left: then nothing was written.
///
/// # Errors
///
/// `Device` where the disk fails, and `OutOfMemory`.
pub fn reset_storage<D: Disk>(
    alloc: Global,
    disk: &mut D,
    shape: &Shape,
    config: &StorageConfig,
    now: u64,
) -> Result<Option<PerError>, Stop>
    requires shape { IsShape shape.now }
    requires config { IsStorage (storage_data config.now) }
    requires configured { IsConfigured config.now.kind (storage_data config.now) shape.now }
    // Of the state before (of some where no bytes are modelled) `resetting` gives the refusal or the next state.
    ensures refused { IfOk result (λ refused. (state : State)
        × (IsTrue D.told → store_at (D.medium disk.old).image shape.now ≡ state)
        × AnswersRow refused (resetting (storage_data config.now) now state)) }
    ensures state { IsTrue D.told → OnOk result (store_at (D.medium disk.new).image shape.now
        ≡ after_state (store_at (D.medium disk.old).image shape.now)
        (resetting (storage_data config.now) now (store_at (D.medium disk.old).image shape.now))) }
    // A refused call changes nothing.
    ensures unchanged { IfOk result (λ refused. refused ≢ None
        → ((D.medium disk.new).image ≡ (D.medium disk.old).image)
        × ((D.medium disk.new).written ≡ (D.medium disk.old).written)) }
    // The storage's place is clean once it is rebuilt, and where a refused call found it clean.
    ensures clean { IsTrue D.told → IfOk result (λ refused. (refused ≡ None)
        ⊎ IsClean shape.now (D.medium disk.old).image
        → IsClean shape.now (D.medium disk.new).image) }
    ensures quiet { OnOk result (Quiet (D.medium disk.new)) }
    // The count of faults rose where the device failed, and stayed where the call succeeded or memory ran out.
    ensures cause { IsErrOf result Stop.Device → Rose (D.medium disk.old).faults (D.medium disk.new).faults }
    ensures passes { OnOk result ((D.medium disk.new).faults ≡ (D.medium disk.old).faults) }
    ensures fed { IsErrOf result Stop.OutOfMemory → (D.medium disk.new).faults ≡ (D.medium disk.old).faults }

    // Only files of the storage change, and at any moment it is as it was or as it is rebuilt.
    ensures outside { Leaves D.told (IsOutside shape.now.place) (D.medium disk.old)
        (D.medium disk.new) }
    ensures any_moment { IsTrue D.told → KeptThroughout shape.now
        (after_state (store_at (D.medium disk.old).image shape.now)
        (resetting (storage_data config.now) now (store_at (D.medium disk.old).image shape.now)))
        (D.medium disk.old) (D.medium disk.new) }
    // However it ends, no more than a rebuild with these contents costs, in each copy.
    ensures written { (D.medium disk.new).written ≤ (D.medium disk.old).written
        + rebuilding_cost (storage_data config.now).n (initial_contents (storage_data config.now) cause.Reset now) }
    ensures time { Elapses (D.medium disk.old) (D.medium disk.new) }
{
    untouched_is_kept();
    let view = salvage(alloc, disk, shape)?;
    let contents = initial_of(alloc, config, Cause::Reset, now)?;
    rebuild_over(alloc, disk, shape, &view, contents)
}

/// Rebuilds a closed storage with exactly these contents, infos included, under the generation of a reset.
///
/// The answer is the refusal, or none once it is rebuilt. Refusals, the first that holds: `OutOfStorageSpace` where the
/// contents are more than the storage may have; `LimitReached` with `Generations` where no generation is left. Then
/// nothing was changed.
///
/// # Errors
///
/// `Device` where the disk fails, and `OutOfMemory`.
pub fn replace_contents<D: Disk>(
    alloc: Global,
    disk: &mut D,
    shape: &Shape,
    config: &StorageConfig,
    contents: Vec<Fresh>,
) -> Result<Option<PerError>, Stop>
    requires shape { IsShape shape.now }
    requires configured { IsConfigured config.now.kind (storage_data config.now) shape.now }
    requires contents { AreElements config.now.kind contents.items }
    // Of the state before (of some where no bytes are modelled) `if_contents_fit` gives the refusal or the next state.
    ensures refused { IfOk result (λ refused. (state : State)
        × (IsTrue D.told → store_at (D.medium disk.old).image shape.now ≡ state)
        × AnswersRow refused (if_contents_fit (storage_data config.now) state contents.items)) }
    ensures state { IsTrue D.told → OnOk result (store_at (D.medium disk.new).image shape.now
        ≡ after_state (store_at (D.medium disk.old).image shape.now)
        (if_contents_fit (storage_data config.now) (store_at (D.medium disk.old).image shape.now) contents.items)) }
    // A refused call changes nothing.
    ensures unchanged { IfOk result (λ refused. IsSome refused
        → ChangesNothing (D.medium disk.old) (D.medium disk.new)) }
    // Where `if_contents_fit` refuses, nothing changes, however the call ends.
    ensures stays { IsTrue D.told → IsErr (if_contents_fit (storage_data config.now)
        (store_at (D.medium disk.old).image shape.now) contents.items)
        → ChangesNothing (D.medium disk.old) (D.medium disk.new) }
    // The storage's place is clean once it is rebuilt, and where a refused call found it clean.
    ensures clean { IsTrue D.told → IfOk result (λ refused. (refused ≡ None)
        ⊎ IsClean shape.now (D.medium disk.old).image
        → IsClean shape.now (D.medium disk.new).image) }
    ensures quiet { OnOk result (Quiet (D.medium disk.new)) }
    // The count of faults rose where the device failed, and stayed where the call succeeded or memory ran out.
    ensures cause { IsErrOf result Stop.Device → Rose (D.medium disk.old).faults (D.medium disk.new).faults }
    ensures passes { OnOk result ((D.medium disk.new).faults ≡ (D.medium disk.old).faults) }
    ensures fed { IsErrOf result Stop.OutOfMemory → (D.medium disk.new).faults ≡ (D.medium disk.old).faults }

    // Only files of the storage change, and at any moment it is as it was or as it is rebuilt.
    ensures outside { Leaves D.told (IsOutside shape.now.place) (D.medium disk.old)
        (D.medium disk.new) }
    ensures any_moment { IsTrue D.told → KeptThroughout shape.now
        (after_state (store_at (D.medium disk.old).image shape.now)
        (if_contents_fit (storage_data config.now) (store_at (D.medium disk.old).image shape.now) contents.items))
        (D.medium disk.old) (D.medium disk.new) }
    // However it ends, no more than a rebuild with these contents costs, in each copy.
    ensures written { (D.medium disk.new).written
        ≤ (D.medium disk.old).written + rebuilding_cost (storage_data config.now).n contents.items }
    ensures time { Elapses (D.medium disk.old) (D.medium disk.new) }
{
    untouched_is_kept();
    let view = salvage(alloc, disk, shape)?;
    let needed = size_of(contents.as_slice());
    if needed > config.maximum {
        return Ok(Some(PerError::OutOfStorageSpace {
            needed,
            allowed: config.maximum,
        }));
    }
    rebuild_over(alloc, disk, shape, &view, contents)
}

// Rebuilds a storage over the view that was read of it, where a generation is left after that.
fn rebuild_over<D: Disk>(
    alloc: Global,
    disk: &mut D,
    shape: &Shape,
    view: &Option<View>,
    contents: Vec<Fresh>,
) -> Result<Option<PerError>, Stop>
    requires shape { IsShape shape.now }
    requires contents { AreContents shape.now.kind shape.now.allowed contents.items }
    requires read { IsTrue D.told → view.now ≡ salvage_of (store_at (D.medium disk.old).image shape.now) }

    ensures refused { IfOk result (λ refused. AnswersRow refused (rebuilding (Corrupt view.now []) contents.items)) }
    ensures state { IsTrue D.told → OnOk result (store_at (D.medium disk.new).image shape.now
        ≡ after_state (store_at (D.medium disk.old).image shape.now)
        (rebuilding (store_at (D.medium disk.old).image shape.now) contents.items)) }
    ensures untouched { IfOk result (λ refused. refused ≢ None → disk.new ≡ disk.old) }
    ensures worn { is_worn_out view.now ≡ true → disk.new ≡ disk.old }
    ensures clean { IsTrue D.told → IfOk result (λ refused. (refused ≡ None)
        ⊎ IsClean shape.now (D.medium disk.old).image
        → IsClean shape.now (D.medium disk.new).image) }
    ensures quiet { Quiet (D.medium disk.old) → OnOk result (Quiet (D.medium disk.new)) }
    ensures cause { IsErrOf result Stop.Device → Rose (D.medium disk.old).faults (D.medium disk.new).faults }
    ensures passes { OnOk result ((D.medium disk.new).faults ≡ (D.medium disk.old).faults) }
    ensures fed { IsErrOf result Stop.OutOfMemory → (D.medium disk.new).faults ≡ (D.medium disk.old).faults }

    ensures outside { Leaves D.told (IsOutside shape.now.place) (D.medium disk.old)
        (D.medium disk.new) }
    ensures any_moment { IsTrue D.told → KeptThroughout shape.now
        (after_state (store_at (D.medium disk.old).image shape.now)
        (rebuilding (store_at (D.medium disk.old).image shape.now) contents.items))
        (D.medium disk.old) (D.medium disk.new) }
    ensures written { (D.medium disk.new).written
        ≤ (D.medium disk.old).written + rebuilding_cost shape.now.place.copies contents.items }
    ensures time { Elapses (D.medium disk.old) (D.medium disk.new) }
{
    untouched_is_kept();
    if is_worn_out(view) {
        return Ok(Some(worn_out()));
    }
    rebuild(alloc, disk, shape, contents)?;
    Ok(None)
}

// Whether the view that was read has the greatest generation.
fn is_worn_out(view: &Option<View>) -> bool
    ensures { result ≡ is_worn_out view.now }
{
    match view {
        Some(view) => view.generation == u64::MAX,
        None => false,
    }
}

// What a storage is recovered to, by the view that was read of it.
fn recovered(
    alloc: Global,
    config: &StorageConfig,
    now: u64,
    view: &Option<View>,
) -> Result<Vec<Fresh>, AllocError>
    requires { IsStorage (storage_data config.now) }
    ensures contents { IfOk result (λ made. made.items ≡ recovered_contents (storage_data config.now) now view.now) }
    ensures limits { IfOk result (λ made. (shape : Shape) → shape.kind ≡ config.now.kind
        → IfSome view.now (IsView shape)
        → AreElements config.now.kind made.items) }
{
    found_is_kept();
    match view {
        Some(view) => rescued_all(alloc, config, now, view.entries.as_slice()),
        None => initial_of(alloc, config, Cause::Recovery, now),
    }
}

// What can be rescued of these elements.
fn rescued_all(
    alloc: Global,
    config: &StorageConfig,
    now: u64,
    entries: &[Entry],
) -> Result<Vec<Fresh>, AllocError>
    requires { IsStorage (storage_data config.now) }
    ensures { IfOk result (λ made. made.items ≡ filter_map (rescued_entry (storage_data config.now) now) entries.now) }
{
    let mut contents = Vec::new(alloc);
    for entry in entries {
        if let Some(fresh) = rescued(alloc, config, now, entry)? {
            contents.push(fresh)?;
        }
    }
    Ok(contents)
}

// The content of an element, or its salvage, or what it starts with.
fn rescued(
    alloc: Global,
    config: &StorageConfig,
    now: u64,
    entry: &Entry,
) -> Result<Option<Fresh>, AllocError>
    requires { IsStorage (storage_data config.now) }
    ensures { IfOk result (λ fresh. fresh ≡ rescued_entry (storage_data config.now) now entry.now) }
{
    match &entry.content {
        Content::Good(bytes) => {
            if counts(alloc, config.kind, bytes.as_slice())? {
                return with_bytes(entry, entry.info, bytes);
            }
        }
        Content::Bad(Some(bytes)) => {
            if counts(alloc, config.kind, bytes.as_slice())? {
                return with_bytes(entry, changed_info(entry.info, now), bytes);
            }
        }
        Content::Bad(None) => {}
    }
    started(config, now, entry)
}

// The element with what it starts with, if anything.
fn started(config: &StorageConfig, now: u64, entry: &Entry) -> Result<Option<Fresh>, AllocError>
    requires { IsStorage (storage_data config.now) }
    ensures { IfOk result (λ fresh. fresh ≡ rescued (storage_data config.now) now entry.now (Content.Bad None)) }
{
    match config.initial(&entry.name) {
        Some(bytes) => with_bytes(entry, changed_info(entry.info, now), bytes),
        None => Ok(None),
    }
}

// The element with this info and these bytes.
fn with_bytes(
    entry: &Entry,
    info: Option<FileInfo>,
    bytes: &Bytes,
) -> Result<Option<Fresh>, AllocError>
    ensures { IfOk result (λ fresh. fresh ≡ Some (record { name = entry.now.name; info = info; bytes = bytes.now })) }
{
    let name = entry.name.copy()?;
    let bytes = bytes.copy()?;
    Ok(Some(Fresh { name, info, bytes }))
}

// The info of a file that a recovery changes now.
fn changed_info(info: Option<FileInfo>, now: u64) -> Option<FileInfo>
    ensures { result ≡ option_map (infos.info_changed now Cause.Recovery) info }
{
    match info {
        Some(info) => Some(changed(now, Cause::Recovery, info)),
        None => None,
    }
}

// Whether bytes are a content of this kind.
fn counts(alloc: Global, kind: StoreKind, bytes: &[u8]) -> Result<bool, AllocError>
    ensures { IfOk result (λ answer. answer ≡ is_content kind bytes.now) }
{
    match kind {
        StoreKind::Keys => encodes(alloc, bytes),
        StoreKind::Files => Ok(true),
    }
}

/// How many bytes the names and the contents are together: the size that a storage's maximum bounds.
pub fn size_of(contents: &[Fresh]) -> u64
    requires few { length contents.now ≤ 1024 }
    requires small { AllByRecursion (λ x. length x.bytes ≤ 1048576) contents.now }
    ensures { result ≡ sum_by fresh_size contents.now }
{
    let mut total: u64 = 0;
    for fresh in contents {
        total += element_size(&fresh.name, fresh.bytes.len() as u32);
    }
    total
}
