//! A storage rebuilt from a text.

ghost use Rattle.std.specs.Prelude.{◌≡◌, ◌<◌, Err, IfErr, IfOk, IsErrOf, IsSome, IsTrue, OnOk, Some, option_map};
ghost use Rattle.per_base.specs.Causes.{Rose};
ghost use Rattle.disk_model.specs.Medium.{Elapses, Quiet};
ghost use Rattle.deployment_model.specs.Conditions.{IsStorage};
ghost use Rattle.deployment_model.specs.Data.{storage_data};
ghost use Rattle.element_state.specs.States.{State};
ghost use Rattle.update_plan.specs.Plans.{is_kind};
ghost use Rattle.deploy_laws.specs.Apps.{App};
ghost use Rattle.deploy_rows.specs.Recovering.{if_contents_fit};
ghost use Rattle.deploy_rows.specs.Rows.{AnswersRow};
ghost use Rattle.deploy_laws.specs.Stands.{ChangesNothing};
ghost use Rattle.deploy.specs.Recovered.{AreElements};
ghost use Rattle.run_model.specs.Lives.{LooksOnly};
ghost use Rattle.export_text.specs.Exports.{export_of};
ghost use Rattle.per_backup.specs.Backups.{importing, importing_into};
ghost use Rattle.per_backup.specs.Clauses.{ImportKeeps, Imported, IsAppSeen, KeepsSettled, WritesImport};

use crate::finding::find;
use crate::laws::storages_stand;
use crate::typing::least_mismatch;
use deploy::{Stop, replace_contents};
use deployment_model::StorageConfig;
use disk_model::Disk;
use export_text::{ExportError, read_export};
use per_base::{Fresh, Name, PerError, StoreKind};
use std::alloc::{AllocError, Global};

/// Rebuilds the storage of this name in the active version of an application with exactly the contents of an export,
/// infos included, under the storage's next generation. It may be read-only, and it need not open.
///
/// Refusals, the first that holds: `IntegrityCorrupted` with the root where it is bad; `NotInstalled`;
/// `StorageNotFound`; `ExportRejected` where the bytes are no export of the storage's kind; `DataTypeMismatch` for the
/// least key whose type is not the configured one, with the type in the export and then the configured one;
/// `OutOfStorageSpace` where the contents are more than the storage may have; `LimitReached` with `Generations` where
/// no generation is left. Then nothing was written.
///
/// # Errors
///
/// `Device` where the disk fails, and `OutOfMemory`. Then the storage is as it was or as it is imported, and settled
/// when it is opened.
pub fn import<D: Disk>(
    alloc: Global,
    disk: &mut D,
    app: u32,
    name: &Name,
    bytes: &[u8],
) -> Result<Option<PerError>, Stop>
    requires { app < 8 }

    // The refusal that `importing_into` has for the application that is seen, or none; with a refusal nothing changed.
    ensures refused { IfOk result (λ refused. (it : App) × IsAppSeen D.told (D.medium disk.old).image app it
        × AnswersRow refused (importing_into it name.now bytes.now)) }
    ensures unchanged { IfOk result (λ refused. IsSome refused
        → LooksOnly (D.medium disk.old) (D.medium disk.new)) }

    // The application that `importing_into` makes; at every moment the storage is as it was or as it is imported, and
    // no other file changes.
    ensures imported { IsTrue D.told → OnOk result (Imported app name.now bytes.now (D.medium disk.old)
        (D.medium disk.new)) }
    ensures keeps { IsTrue D.told → ImportKeeps app name.now bytes.now (D.medium disk.old) (D.medium disk.new) }
    ensures quiet { OnOk result (Quiet (D.medium disk.new)) }
    // The count of faults rose where the device failed, and stayed where the call succeeded or memory ran out.
    ensures cause { IsErrOf result Stop.Device → Rose (D.medium disk.old).faults (D.medium disk.new).faults }
    ensures passes { OnOk result ((D.medium disk.new).faults ≡ (D.medium disk.old).faults) }
    ensures fed { IsErrOf result Stop.OutOfMemory → (D.medium disk.new).faults ≡ (D.medium disk.old).faults }
    // However it ends, no more than a rebuild with the contents of the export costs.
    ensures written { IsTrue D.told → WritesImport app name.now bytes.now (D.medium disk.old) (D.medium disk.new) }
    ensures time { Elapses (D.medium disk.old) (D.medium disk.new) }
{
    if disk.sync().is_err() {
        return Err(Stop::Device);
    }
    import_synced(alloc, disk, app, name, bytes)
}

// The same without the sync.
fn import_synced<D: Disk>(
    alloc: Global,
    disk: &mut D,
    app: u32,
    name: &Name,
    bytes: &[u8],
) -> Result<Option<PerError>, Stop>
    requires { app < 8 }
    ensures refused { IfOk result (λ refused. (it : App) × IsAppSeen D.told (D.medium disk.old).image app it
        × AnswersRow refused (importing_into it name.now bytes.now)) }
    ensures unchanged { IfOk result (λ refused. IsSome refused
        → ChangesNothing (D.medium disk.old) (D.medium disk.new)) }
    ensures imported { IsTrue D.told → OnOk result (Imported app name.now bytes.now (D.medium disk.old)
        (D.medium disk.new)) }
    ensures keeps { IsTrue D.told → KeepsSettled app name.now bytes.now (D.medium disk.old) (D.medium disk.new) }
    ensures quiet { OnOk result (Quiet (D.medium disk.new)) }
    ensures cause { IsErrOf result Stop.Device → Rose (D.medium disk.old).faults (D.medium disk.new).faults }
    ensures passes { OnOk result ((D.medium disk.new).faults ≡ (D.medium disk.old).faults) }
    ensures fed { IsErrOf result Stop.OutOfMemory → (D.medium disk.new).faults ≡ (D.medium disk.old).faults }
    ensures written { IsTrue D.told → WritesImport app name.now bytes.now (D.medium disk.old) (D.medium disk.new) }
    ensures time { Elapses (D.medium disk.old) (D.medium disk.new) }
{
    storages_stand();
    let located = match find(alloc, disk, app, name)? {
        Ok(located) => located,
        Err(error) => return Ok(Some(error)),
    };
    let contents = match importable(alloc, &located.config, bytes)? {
        Ok(contents) => contents,
        Err(error) => return Ok(Some(error)),
    };
    replace_contents(alloc, disk, &located.shape, &located.config, contents)
}

/// The contents of which a text makes a storage, or the refusal that the storage's state does not bear on.
pub(crate) fn importable(
    alloc: Global,
    config: &StorageConfig,
    bytes: &[u8],
) -> Result<Result<Vec<Fresh>, PerError>, AllocError>
    requires { IsStorage (storage_data config.now) }
    ensures row { IfOk result (λ found. IfOk found (λ contents. (state : State)
        → importing (storage_data config.now) state bytes.now
        ≡ if_contents_fit (storage_data config.now) state contents.items)) }
    ensures elements { IfOk result (λ found. IfOk found (λ contents. AreElements config.now.kind contents.items)) }
    ensures spelled { IfOk result (λ found. IfOk found (λ contents. option_map (λ x. x.contents) (export_of bytes.now)
        ≡ Some contents.items)) }
    ensures refused { IfOk result (λ found. IfErr found (λ e. (state : State)
        → importing (storage_data config.now) state bytes.now ≡ Err e)) }
{
    let export = match read_export(alloc, bytes) {
        Ok(export) => export,
        Err(ExportError::NotAnExport) => return Ok(Err(PerError::ExportRejected)),
        Err(ExportError::OutOfMemory) => return Err(AllocError),
    };
    if !is_of_kind(config.kind, export.kind) {
        return Ok(Err(PerError::ExportRejected));
    }
    match least_mismatch(alloc, config, export.contents.as_slice())? {
        Some(error) => Ok(Err(error)),
        None => Ok(Ok(export.contents.into_vec())),
    }
}

// Whether an export of the one kind is for a storage of the other.
fn is_of_kind(storage: StoreKind, export: StoreKind) -> bool
    ensures { result ≡ is_kind storage export }
{
    match (storage, export) {
        (StoreKind::Keys, StoreKind::Keys) | (StoreKind::Files, StoreKind::Files) => true,
        _ => false,
    }
}
