//! A storage as one text.

ghost use Rattle.std.specs.Prelude.{◌≡◌, ◌<◌, IfOk, IfSome, IsErrOf, IsTrue, OnOk};
ghost use Rattle.per_base.specs.Causes.{Rose};
ghost use Rattle.disk_model.specs.Medium.{Elapses, IsIdle, Quiet};
ghost use Rattle.value_code.specs.Reading.{is_content};
ghost use Rattle.deployment_model.specs.Data.{storage_data};
ghost use Rattle.element_state.specs.Chosen.{opened_of};
ghost use Rattle.element_state.specs.Conditions.{IsShape};
ghost use Rattle.element_state.specs.Read.{IsView};
ghost use Rattle.element_state.specs.States.{State, store_at};
ghost use Rattle.deploy_laws.specs.Apps.{App};
ghost use Rattle.run_model.specs.Lives.{LooksOnly};
ghost use Rattle.per_backup.specs.Backups.{exported_contents, exporting, fresh_of, text_from};
ghost use Rattle.per_backup.specs.Clauses.{IsAppSeen, IsViewFor, exported_as, fresh_items};

use crate::finding::find;
use deploy::Stop;
use deployment_model::StorageConfig;
use disk_model::Disk;
use element_state::{Shape, StoreError, View, inspect};
use export_text::write_export;
use per_base::{Bytes, Content, Entry, Fresh, Name, PerError, StoreKind, Unit};
use std::alloc::{AllocError, Global};
use value_code::encodes;

/// What an export answers.
#[derive(Debug, Drop)]
pub enum Exported {
    /// The text of the storage.
    Octets(Bytes),
    /// Why there is none.
    Refused(PerError),
}

/// The text of the storage of this name in the active version of an application, as it is on the disk. Nothing is
/// changed.
///
/// Refusals, the first that holds: `IntegrityCorrupted` with the root where it is bad; `NotInstalled`;
/// `StorageNotFound`; `IntegrityCorrupted` with the storage where it cannot be opened, and else with the least element
/// that cannot be read.
///
/// # Errors
///
/// `Device` where the disk fails, and `OutOfMemory`.
pub fn export<D: Disk>(alloc: Global, disk: &mut D, app: u32, name: &Name) -> Result<Exported, Stop>
    requires { app < 8 }
    // The text or the refusal that `exporting` has for the application that is seen.
    ensures answer { IfOk result (λ x. (it : App) × IsAppSeen D.told (D.medium disk.old).image app it
        × (exported_as x ≡ exporting it name.now)) }
    // Nothing is written, and where it succeeds nothing is pending.
    ensures stays { LooksOnly (D.medium disk.old) (D.medium disk.new) }
    ensures quiet { OnOk result (Quiet (D.medium disk.new)) }
    // The count of faults rose where the device failed, and stayed where the call succeeded or memory ran out.
    ensures cause { IsErrOf result Stop.Device → Rose (D.medium disk.old).faults (D.medium disk.new).faults }
    ensures passes { OnOk result ((D.medium disk.new).faults ≡ (D.medium disk.old).faults) }
    ensures fed { IsErrOf result Stop.OutOfMemory → (D.medium disk.new).faults ≡ (D.medium disk.old).faults }
    ensures time { Elapses (D.medium disk.old) (D.medium disk.new) }
{
    if disk.sync().is_err() {
        return Err(Stop::Device);
    }
    export_synced(alloc, disk, app, name)
}

// The same without the sync.
fn export_synced<D: Disk>(
    alloc: Global,
    disk: &mut D,
    app: u32,
    name: &Name,
) -> Result<Exported, Stop>
    requires { app < 8 }
    ensures answer { IfOk result (λ x. (it : App) × IsAppSeen D.told (D.medium disk.old).image app it
        × (exported_as x ≡ exporting it name.now)) }
    ensures image { (D.medium disk.new).image ≡ (D.medium disk.old).image }
    ensures idle { Quiet (D.medium disk.old) → IsIdle (D.medium disk.old) (D.medium disk.new) }
    ensures written { (D.medium disk.new).written ≡ (D.medium disk.old).written }
    ensures quiet { OnOk result (Quiet (D.medium disk.new)) }
    ensures cause { IsErrOf result Stop.Device → Rose (D.medium disk.old).faults (D.medium disk.new).faults }
    ensures passes { OnOk result ((D.medium disk.new).faults ≡ (D.medium disk.old).faults) }
    ensures fed { IsErrOf result Stop.OutOfMemory → (D.medium disk.new).faults ≡ (D.medium disk.old).faults }
    ensures time { Elapses (D.medium disk.old) (D.medium disk.new) }
{
    let located = match find(alloc, disk, app, name)? {
        Ok(located) => located,
        Err(error) => return Ok(Exported::Refused(error)),
    };
    let view = opened(alloc, disk, &located.shape)?;
    let answer = answer_of(alloc, &located.config, &view)?;
    Ok(answer)
}

// The view at which a storage opens; none exactly where it is corrupt.
fn opened<D: Disk>(alloc: Global, disk: &mut D, shape: &Shape) -> Result<Option<View>, Stop>
    requires { IsShape shape.now }
    ensures view { IsTrue D.told → IfOk result (λ view. opened_of (store_at (D.medium disk.old).image shape.now)
        ≡ view) }
    ensures read { IfOk result (λ view. IfSome view (IsView shape.now)) }
    ensures image { (D.medium disk.new).image ≡ (D.medium disk.old).image }
    ensures idle { Quiet (D.medium disk.old) → IsIdle (D.medium disk.old) (D.medium disk.new) }
    ensures written { (D.medium disk.new).written ≡ (D.medium disk.old).written }
    ensures quiet { OnOk result (Quiet (D.medium disk.new)) }
    ensures cause { IsErrOf result Stop.Device → Rose (D.medium disk.old).faults (D.medium disk.new).faults }
    ensures passes { OnOk result ((D.medium disk.new).faults ≡ (D.medium disk.old).faults) }
    ensures fed { IsErrOf result Stop.OutOfMemory → (D.medium disk.new).faults ≡ (D.medium disk.old).faults }
    ensures time { Elapses (D.medium disk.old) (D.medium disk.new) }
{
    match inspect(alloc, disk, shape) {
        Ok(view) => Ok(Some(view)),
        Err(StoreError::Corrupt) => Ok(None),
        Err(StoreError::Device) => Err(Stop::Device),
        Err(StoreError::OutOfMemory) => Err(Stop::OutOfMemory),
    }
}

// The text of a storage that was seen so, or why there is none.
fn answer_of(
    alloc: Global,
    config: &StorageConfig,
    view: &Option<View>,
) -> Result<Exported, AllocError>
    requires { IfSome view.now (IsViewFor config.now.kind) }
    ensures { IfOk result (λ x. (state : State) → opened_of state ≡ view.now
        → exported_as x ≡ text_from (storage_data config.now) state) }
{
    let Some(view) = view else {
        let storage = config.name.copy()?;
        return Ok(Exported::Refused(PerError::IntegrityCorrupted {
            unit: Unit::Whole(storage),
        }));
    };
    match contents_of(alloc, config, view.entries.as_slice())? {
        Ok(contents) => {
            let text = write_export(alloc, config.kind, contents.as_slice())?;
            Ok(Exported::Octets(Bytes::new(text)))
        }
        Err(error) => Ok(Exported::Refused(error)),
    }
}

// The contents of elements, or the refusal for the first that cannot be read.
fn contents_of(
    alloc: Global,
    config: &StorageConfig,
    entries: &[Entry],
) -> Result<Result<Vec<Fresh>, PerError>, AllocError>
    ensures { IfOk result (λ contents. fresh_items contents ≡ exported_contents (storage_data config.now) entries.now) }
{
    let mut contents = Vec::new(alloc);
    for entry in entries {
        match fresh_of(alloc, config, entry)? {
            Ok(fresh) => contents.push(fresh)?,
            Err(error) => return Ok(Err(error)),
        }
    }
    Ok(Ok(contents))
}

// An element with its content, or the refusal where that cannot be read.
fn fresh_of(
    alloc: Global,
    config: &StorageConfig,
    entry: &Entry,
) -> Result<Result<Fresh, PerError>, AllocError>
    ensures { IfOk result (λ fresh. fresh ≡ fresh_of (storage_data config.now) entry.now) }
{
    if let Content::Good(bytes) = &entry.content {
        if counts(alloc, config.kind, bytes.as_slice())? {
            let name = entry.name.copy()?;
            let bytes = bytes.copy()?;
            return Ok(Ok(Fresh {
                name,
                info: entry.info,
                bytes,
            }));
        }
    }
    let storage = config.name.copy()?;
    let element = entry.name.copy()?;
    Ok(Err(PerError::IntegrityCorrupted {
        unit: Unit::Part(storage, element),
    }))
}

// Whether bytes are a content of this kind.
fn counts(alloc: Global, kind: StoreKind, bytes: &[u8]) -> Result<bool, AllocError>
    ensures { IfOk result (λ answer. answer ≡ is_content kind bytes.now) }
{
    match kind {
        StoreKind::Keys => encodes(alloc, bytes),
        StoreKind::Files => Ok(true),
    }
}
