//! An application that is installed with the contents that it had elsewhere.

ghost use Rattle.std.specs.Prelude.{◌≡◌, ◌<◌, IfErr, IfOk, IsErrOf, IsTrue, None, OnOk, Some, map};
ghost use Rattle.per_base.specs.Causes.{Rose};
ghost use Rattle.disk_model.specs.Medium.{Elapses, Quiet};
ghost use Rattle.deployment_model.specs.Data.{storage_data};
ghost use Rattle.update_plan.specs.Plans.{AllFit};
ghost use Rattle.deploy_laws.specs.Apps.{App, IsCleanApp, Says, absent, app_at};
ghost use Rattle.deploy_laws.specs.Stands.{StandsThroughout};
ghost use Rattle.deploy_rows.specs.Rows.{AnswersRow};
ghost use Rattle.deploy.specs.Clauses.{IsBesideNext, Leaves};
ghost use Rattle.deploy.specs.Roots.{SaysDeployment, root_says};
ghost use Rattle.deploy.specs.Views.{versions_say};
ghost use Rattle.per_backup.specs.Backups.{restoring, taken};
ghost use Rattle.per_backup.specs.Clauses.{IsAppSeen};
ghost use Rattle.per_backup.specs.Restores.{IfHeld, IsFreeFor, IsSaid, RestoreKeeps, Restored, RestoresSettled};
ghost use Rattle.per_backup.specs.Restores.{ready_app};

use crate::filling::{Ready, prepare};
use crate::laws::storages_stand;
use deploy::{Root, Stop, Versions, install_filled, open_root, view_versions};
use disk_model::Disk;
use guarded_cell::Cell;
use per_base::{Bytes, Limit, PerError, Unit};
use root_text::RootSays;
use std::alloc::Global;

/// Installs the version that a manifest describes where nothing is installed, with exactly the contents that the texts
/// of its storages say, in their order, infos included: in one installation, of which the root is written last.
///
/// Refusals, the first that holds: `IntegrityCorrupted` with the root where it is bad; `AlreadyInstalled`;
/// `LimitReached` with `Generations` where the root has none left; `ManifestRejected` with the first violated rule; and
/// then of the first storage to which it applies `ExportRejected` where its bytes are no export of its kind or there
/// are none, `DataTypeMismatch` and `OutOfStorageSpace` as of an import; `ExportRejected` where there are more texts
/// than storages. Then nothing was written.
///
/// # Errors
///
/// `Device` where the disk fails, and `OutOfMemory`. Then nothing is installed, or all of it is, which shows when the
/// root is opened.
pub fn restore<D: Disk>(
    alloc: Global,
    disk: &mut D,
    app: u32,
    manifest: &[u8],
    texts: &[Bytes],
) -> Result<Option<PerError>, Stop>
    requires { app < 8 }

    // The refusal that `restoring` has for the application that is seen, or none.
    ensures refused { IfOk result (λ refused. (it : App) × IsAppSeen D.told (D.medium disk.old).image app it
        × AnswersRow refused (restoring manifest.now texts.now it)) }

    // The application that `restoring` makes, whose root has this manifest; at every moment it is as it was, or that.
    ensures restored { IsTrue D.told → OnOk result (Restored app manifest.now texts.now (D.medium disk.old)
        (D.medium disk.new)) }
    ensures held { IfOk result (IfHeld D.told (D.medium disk.new).image app manifest.now) }
    ensures keeps { IsTrue D.told → RestoreKeeps app manifest.now texts.now (D.medium disk.old) (D.medium disk.new) }
    ensures quiet { OnOk result (Quiet (D.medium disk.new)) }
    // The count of faults rose where the device failed, and stayed where the call succeeded or memory ran out.
    ensures cause { IsErrOf result Stop.Device → Rose (D.medium disk.old).faults (D.medium disk.new).faults }
    ensures passes { OnOk result ((D.medium disk.new).faults ≡ (D.medium disk.old).faults) }
    ensures fed { IsErrOf result Stop.OutOfMemory → (D.medium disk.new).faults ≡ (D.medium disk.old).faults }
    ensures time { Elapses (D.medium disk.old) (D.medium disk.new) }
{
    if disk.sync().is_err() {
        return Err(Stop::Device);
    }
    restore_synced(alloc, disk, app, manifest, texts)
}

/// Why no application can be restored where a root says this; none where nothing is installed and a generation is left.
pub fn refusal_of(found: &Option<Versions>) -> Option<PerError>
    ensures { result ≡ taken (versions_say found.now) }
{
    match found {
        None => Some(PerError::IntegrityCorrupted { unit: Unit::Root }),
        Some(versions) => match versions.says {
            RootSays::Absent => refusal_over(versions.generation),
            RootSays::Installed(..) => Some(PerError::AlreadyInstalled),
        },
    }
}

// Why nothing is installed over a root of this generation.
fn refusal_over(generation: u64) -> Option<PerError>
    ensures { result ≡ taken (absent generation) }
{
    if generation == u64::MAX {
        return Some(PerError::LimitReached {
            which: Limit::Generations,
        });
    }
    None
}

// The same without the sync.
fn restore_synced<D: Disk>(
    alloc: Global,
    disk: &mut D,
    app: u32,
    manifest: &[u8],
    texts: &[Bytes],
) -> Result<Option<PerError>, Stop>
    requires { app < 8 }
    ensures refused { IfOk result (λ refused. (it : App) × IsAppSeen D.told (D.medium disk.old).image app it
        × AnswersRow refused (restoring manifest.now texts.now it)) }
    ensures restored { IsTrue D.told → OnOk result (Restored app manifest.now texts.now (D.medium disk.old)
        (D.medium disk.new)) }
    ensures held { IfOk result (IfHeld D.told (D.medium disk.new).image app manifest.now) }
    ensures keeps { IsTrue D.told → RestoresSettled app manifest.now texts.now (D.medium disk.old)
        (D.medium disk.new) }
    ensures quiet { OnOk result (Quiet (D.medium disk.new)) }
    ensures cause { IsErrOf result Stop.Device → Rose (D.medium disk.old).faults (D.medium disk.new).faults }
    ensures passes { OnOk result ((D.medium disk.new).faults ≡ (D.medium disk.old).faults) }
    ensures fed { IsErrOf result Stop.OutOfMemory → (D.medium disk.new).faults ≡ (D.medium disk.old).faults }
    ensures time { Elapses (D.medium disk.old) (D.medium disk.new) }
{
    storages_stand();
    let found = view_versions(alloc, disk, app)?;
    match refusal_of(&found) {
        Some(error) => Ok(Some(error)),
        None => restore_free(alloc, disk, app, manifest, texts),
    }
}

// The same where nothing is installed.
fn restore_free<D: Disk>(
    alloc: Global,
    disk: &mut D,
    app: u32,
    manifest: &[u8],
    texts: &[Bytes],
) -> Result<Option<PerError>, Stop>
    requires app { app < 8 }
    requires quiet { Quiet (D.medium disk.old) }
    requires free { IsFreeFor D.told (D.medium disk.old).image app }
    ensures refused { IfOk result (λ refused. (it : App) × IsAppSeen D.told (D.medium disk.old).image app it
        × AnswersRow refused (restoring manifest.now texts.now it)) }
    ensures restored { IsTrue D.told → OnOk result (Restored app manifest.now texts.now (D.medium disk.old)
        (D.medium disk.new)) }
    ensures held { IfOk result (IfHeld D.told (D.medium disk.new).image app manifest.now) }
    ensures keeps { IsTrue D.told → RestoresSettled app manifest.now texts.now (D.medium disk.old)
        (D.medium disk.new) }
    ensures quiet { OnOk result (Quiet (D.medium disk.new)) }
    ensures cause { IsErrOf result Stop.Device → Rose (D.medium disk.old).faults (D.medium disk.new).faults }
    ensures passes { OnOk result ((D.medium disk.new).faults ≡ (D.medium disk.old).faults) }
    ensures fed { IsErrOf result Stop.OutOfMemory → (D.medium disk.new).faults ≡ (D.medium disk.old).faults }
    ensures time { Elapses (D.medium disk.old) (D.medium disk.new) }
{
    storages_stand();
    let ready = match prepare(alloc, manifest, texts)? {
        Ok(ready) => ready,
        Err(error) => return Ok(Some(error)),
    };
    install_ready(alloc, disk, app, ready)
}

// Installs what is ready. It is refused only where the root is not the one that was seen.
fn install_ready<D: Disk>(
    alloc: Global,
    disk: &mut D,
    app: u32,
    ready: Ready,
) -> Result<Option<PerError>, Stop>
    requires app { app < 8 }
    requires free { IsFreeFor D.told (D.medium disk.old).image app }
    requires version { SaysDeployment ready.version }
    requires fit { AllFit (map storage_data ready.version.deployment.storages) ready.contents.items }
    ensures refused { IfOk result (λ refused. (says : Says) × IsSaid D.told (D.medium disk.old).image app says
        × (refused ≡ taken says)) }
    ensures app { IsTrue D.told → OnOk result (app_at (D.medium disk.new).image app
        ≡ ready_app ready app (D.medium disk.old).image) }
    ensures held { IfOk result (IfHeld D.told (D.medium disk.new).image app ready.version.text) }
    ensures clean { IsTrue D.told → OnOk result (IsCleanApp app (D.medium disk.new).image) }
    ensures quiet { OnOk result (Quiet (D.medium disk.new)) }
    ensures cause { IsErrOf result Stop.Device → Rose (D.medium disk.old).faults (D.medium disk.new).faults }
    ensures passes { OnOk result ((D.medium disk.new).faults ≡ (D.medium disk.old).faults) }
    ensures fed { IsErrOf result Stop.OutOfMemory → (D.medium disk.new).faults ≡ (D.medium disk.old).faults }
    ensures outside { Leaves D.told (IsBesideNext app 0) (D.medium disk.old) (D.medium disk.new) }
    ensures any_moment { IsTrue D.told → StandsThroughout app (ready_app ready app (D.medium disk.old).image)
        (D.medium disk.old) (D.medium disk.new) }
    ensures time { Elapses (D.medium disk.old) (D.medium disk.new) }
{
    storages_stand();
    let Ready { version, contents } = ready;
    let root = open_root(alloc, disk, app)?;
    let cell = match cell_of(root) {
        Ok(cell) => cell,
        Err(error) => return Ok(Some(error)),
    };
    let _installed = install_filled(alloc, disk, app, cell, version, &contents)?;
    Ok(None)
}

// The register of a root over which a version can be installed, or why there is none.
fn cell_of(root: Root) -> Result<Cell, PerError>
    ensures free { IfOk result (λ cell. (root ≡ Root.Absent cell) × (taken (root_says root) ≡ None)) }
    ensures refused { IfErr result (λ e. taken (root_says root) ≡ Some e) }
{
    match root {
        Root::Bad => Err(PerError::IntegrityCorrupted { unit: Unit::Root }),
        Root::Absent(cell) => match refusal_over(cell.generation()) {
            Some(error) => Err(error),
            None => Ok(cell),
        },
        Root::Installed(_) => Err(PerError::AlreadyInstalled),
    }
}
