//! The storage of a name in the active version.

ghost use Rattle.std.specs.Prelude.{◌≡◌, ◌≤◌, ◌<◌, IfErr, IfOk, IsErrOf, None, OnOk};
ghost use Rattle.per_base.specs.Causes.{Rose};
ghost use Rattle.disk_model.specs.Medium.{Elapses, IsIdle, Quiet};
ghost use Rattle.deployment_model.specs.Conditions.{IsDeployment};
ghost use Rattle.deployment_model.specs.Data.{deployment_data};
ghost use Rattle.deployment_model.specs.Lookups.{storage_number};
ghost use Rattle.deploy.specs.Views.{ShowsVersions, root_seen};
ghost use Rattle.per_backup.specs.Finding.{IsIn, IsLocatedAs, IsMissingStorage, IsOut, IsStorageOf};

use crate::laws::storages_stand;
use deploy::{RootView, Stop, shape_of, view_root};
use deployment_model::{Deployment, StorageConfig, found_is_kept};
use disk_model::Disk;
use element_state::Shape;
use per_base::{Name, PerError, Unit};
use std::alloc::{AllocError, Global};

/// A storage of the active version: where it is stored, and how it is configured.
#[derive(Drop)]
pub(crate) struct Located {
    pub(crate) shape: Shape,
    pub(crate) config: StorageConfig,
}

/// The storage of this name in the active version of an application, or the refusal: `IntegrityCorrupted` with the root
/// where it is bad, `NotInstalled`, `StorageNotFound`. It looks at the root and changes nothing.
pub(crate) fn find<D: Disk>(
    alloc: Global,
    disk: &mut D,
    app: u32,
    name: &Name,
) -> Result<Result<Located, PerError>, Stop>
    requires { app < 8 }
    ensures located { IfOk result (λ found. IfOk found (IsLocatedAs D.told (D.medium disk.old).image app name.now)) }
    ensures missing { IfOk result (λ found. IfErr found (IsMissingStorage D.told
        (D.medium disk.old).image app name.now)) }
    ensures image { (D.medium disk.new).image ≡ (D.medium disk.old).image }
    ensures idle { Quiet (D.medium disk.old) → IsIdle (D.medium disk.old) (D.medium disk.new) }
    ensures written { (D.medium disk.new).written ≡ (D.medium disk.old).written }
    ensures quiet { OnOk result (Quiet (D.medium disk.new)) }
    ensures cause { IsErrOf result Stop.Device → Rose (D.medium disk.old).faults (D.medium disk.new).faults }
    ensures passes { OnOk result ((D.medium disk.new).faults ≡ (D.medium disk.old).faults) }
    ensures fed { IsErrOf result Stop.OutOfMemory → (D.medium disk.new).faults ≡ (D.medium disk.old).faults }
    ensures time { Elapses (D.medium disk.old) (D.medium disk.new) }
{
    storages_stand();
    let view = view_root(alloc, disk, app)?;
    let found = find_in(app, view, name)?;
    Ok(found)
}

// The same by what is seen of the root.
fn find_in(app: u32, view: RootView, name: &Name) -> Result<Result<Located, PerError>, AllocError>
    requires app { app < 8 }
    requires versions { ShowsVersions (root_seen view) }
    ensures found { IfOk result (λ found. IfOk found (IsIn app name.now (root_seen view))) }
    ensures missing { IfOk result (λ found. IfErr found (IsOut name.now (root_seen view))) }
{
    match view {
        RootView::Bad => Ok(Err(PerError::IntegrityCorrupted { unit: Unit::Root })),
        RootView::Absent { .. } => Ok(Err(PerError::NotInstalled)),
        RootView::Installed(state) => find_storage(app, state.bank, state.active, name),
    }
}

// The storage of this name in a version, and where it is stored.
fn find_storage(
    app: u32,
    bank: u32,
    active: Deployment,
    name: &Name,
) -> Result<Result<Located, PerError>, AllocError>
    requires app { app < 8 }
    requires bank { bank ≤ 1 }
    requires active { IsDeployment (deployment_data active) }
    ensures found { IfOk result (λ found. IfOk found (IsStorageOf app name.now
        (record { bank = bank; deployment = deployment_data active }))) }
    ensures missing { IfOk result (λ found. IfErr found (λ e.
        (storage_number (deployment_data active) name.now ≡ None) × (e ≡ PerError.StorageNotFound))) }
{
    found_is_kept();
    let Some(number) = active.number(name) else {
        return Ok(Err(PerError::StorageNotFound));
    };
    let config = active.storages.into_vec().remove(number);
    let shape = shape_of(app, bank, number as u32, &config)?;
    Ok(Ok(Located { shape, config }))
}
