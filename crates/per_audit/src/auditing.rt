//! The audit of a disk: each root is looked at, and each storage that it names is read.

ghost use Rattle.std.specs.Prelude.{◌≡◌, ◌⊎◌, ◌≤◌, ◌<◌, IfOk, IfSome, IsErrOf, IsTrue, OnOk, length, map};
ghost use Rattle.std.specs.List.{AllByRecursion};
ghost use Rattle.per_base.specs.Causes.{Rose};
ghost use Rattle.disk_model.specs.Case.{IsSettledAt};
ghost use Rattle.disk_model.specs.Medium.{EachCase, Elapses, IsIdle, Quiet};
ghost use Rattle.deployment_model.specs.Conditions.{IsDeployment, IsStorage};
ghost use Rattle.deployment_model.specs.Data.{deployment_data, storage_data};
ghost use Rattle.element_state.specs.States.{store_at};
ghost use Rattle.deploy.specs.Views.{ShowsVersions, root_seen};
ghost use Rattle.deploy.specs.declared.viewing.RootView.TheVariants.{Installed};
ghost use Rattle.deploy_laws.specs.Apps.{app_at, root_sole};
ghost use Rattle.deploy_laws.specs.Places.{storage_shape, version_in_bank};
ghost use Rattle.per_audit.specs.Audits.{elements_at, elements_of, findings_at, findings_of, listed_of, of_storage};
ghost use Rattle.per_audit.specs.Noted.{AddsNotes, elements_seen, findings_seen, of_previous, over_storages};

use crate::findings::Audit;
use crate::noting::{Notes, note_bad_root, note_root, note_storage};
use deploy::{RootState, RootView, Stop, shape_of, view_root};
use deployment_model::{Deployment, StorageConfig};
use disk_model::Disk;
use element_state::survey;
use std::alloc::Global;

/// The applications of a disk.
const APPS: u32 = 8;

/// Looks at every application of a disk and changes nothing: lists every element of each storage that opens, and which
/// roots, storages and elements are damaged (copies lack them), lost (too few copies agree) or unsettled (another text
/// is held beside theirs). Each content is read once. It begins with a sync and writes nothing.
///
/// # Errors
///
/// `Device` where the disk fails, and `OutOfMemory`.
pub fn audit<D: Disk>(alloc: Global, disk: &mut D) -> Result<Audit, Stop>
    // What is listed and found is what the image that the disk then had gives.
    ensures elements { IsTrue D.told → IfOk result (λ audit. audit.elements ≡ elements_at (D.medium disk.old).image) }
    ensures findings { IsTrue D.told → IfOk result (λ audit. audit.findings ≡ findings_at (D.medium disk.old).image) }
    // Nothing is written, and where it succeeds nothing is pending.
    ensures quiet { OnOk result (Quiet (D.medium disk.new)) }
    ensures image { (D.medium disk.new).image ≡ (D.medium disk.old).image }
    ensures written { (D.medium disk.new).written ≡ (D.medium disk.old).written }

    // A crash meanwhile leaves what reads give, or what one before the audit might have left.
    ensures during { EachCase (λ c. (D.medium disk.old).now c ⊎ IsSettledAt (D.medium disk.old).image c)
        (D.medium disk.old) (D.medium disk.new) }
    // The count of faults rose where the device failed, and stayed where the call succeeded or memory ran out.
    ensures cause { IsErrOf result Stop.Device → Rose (D.medium disk.old).faults (D.medium disk.new).faults }
    ensures passes { OnOk result ((D.medium disk.new).faults ≡ (D.medium disk.old).faults) }
    ensures fed { IsErrOf result Stop.OutOfMemory → (D.medium disk.new).faults ≡ (D.medium disk.old).faults }
    ensures time { Elapses (D.medium disk.old) (D.medium disk.new) }
{
    if disk.sync().is_err() {
        return Err(Stop::Device);
    }
    audit_all(alloc, disk)
}

// The same without the sync.
fn audit_all<D: Disk>(alloc: Global, disk: &mut D) -> Result<Audit, Stop>
    ensures elements { IsTrue D.told → IfOk result (λ audit. audit.elements ≡ elements_at (D.medium disk.old).image) }
    ensures findings { IsTrue D.told → IfOk result (λ audit. audit.findings ≡ findings_at (D.medium disk.old).image) }
    ensures quiet { OnOk result (Quiet (D.medium disk.new)) }
    ensures image { (D.medium disk.new).image ≡ (D.medium disk.old).image }
    ensures idle { Quiet (D.medium disk.old) → IsIdle (D.medium disk.old) (D.medium disk.new) }
    ensures written { (D.medium disk.new).written ≡ (D.medium disk.old).written }
    ensures cause { IsErrOf result Stop.Device → Rose (D.medium disk.old).faults (D.medium disk.new).faults }
    ensures passes { OnOk result ((D.medium disk.new).faults ≡ (D.medium disk.old).faults) }
    ensures fed { IsErrOf result Stop.OutOfMemory → (D.medium disk.new).faults ≡ (D.medium disk.old).faults }
    ensures time { Elapses (D.medium disk.old) (D.medium disk.new) }
{
    let mut notes = Notes::new(alloc);
    for app in 0..APPS {
        audit_app(alloc, disk, app, &mut notes)?;
    }
    Ok(notes.into_audit())
}

// Adds what one application has.
fn audit_app<D: Disk>(alloc: Global, disk: &mut D, app: u32, notes: &mut Notes) -> Result<(), Stop>
    requires { app < 8 }
    ensures adds { IsTrue D.told → OnOk result (AddsNotes (elements_of app (app_at (D.medium disk.old).image app))
        (findings_of app (root_sole (D.medium disk.old).image app) (app_at (D.medium disk.old).image app)) notes.old
        notes.new) }
    ensures quiet { OnOk result (Quiet (D.medium disk.new)) }
    ensures image { (D.medium disk.new).image ≡ (D.medium disk.old).image }
    ensures idle { Quiet (D.medium disk.old) → IsIdle (D.medium disk.old) (D.medium disk.new) }
    ensures written { (D.medium disk.new).written ≡ (D.medium disk.old).written }
    ensures cause { IsErrOf result Stop.Device → Rose (D.medium disk.old).faults (D.medium disk.new).faults }
    ensures passes { OnOk result ((D.medium disk.new).faults ≡ (D.medium disk.old).faults) }
    ensures fed { IsErrOf result Stop.OutOfMemory → (D.medium disk.new).faults ≡ (D.medium disk.old).faults }
    ensures time { Elapses (D.medium disk.old) (D.medium disk.new) }
{
    let view = view_root(alloc, disk, app)?;
    audit_view(alloc, disk, app, &view, notes)?;
    Ok(())
}

// Adds what an application has whose root is seen so.
fn audit_view<D: Disk>(
    alloc: Global,
    disk: &mut D,
    app: u32,
    view: &RootView,
    notes: &mut Notes,
) -> Result<(), Stop>
    requires app { app < 8 }
    requires versions { ShowsVersions (root_seen view.now) }
    ensures adds { IsTrue D.told → OnOk result (AddsNotes (elements_seen (D.medium disk.old).image app
        (root_seen view.now))
        (findings_seen (D.medium disk.old).image app (root_seen view.now)) notes.old notes.new) }
    ensures image { (D.medium disk.new).image ≡ (D.medium disk.old).image }
    ensures idle { Quiet (D.medium disk.old) → IsIdle (D.medium disk.old) (D.medium disk.new) }
    ensures written { (D.medium disk.new).written ≡ (D.medium disk.old).written }
    ensures cause { IsErrOf result Stop.Device → Rose (D.medium disk.old).faults (D.medium disk.new).faults }
    ensures passes { OnOk result ((D.medium disk.new).faults ≡ (D.medium disk.old).faults) }
    ensures fed { IsErrOf result Stop.OutOfMemory → (D.medium disk.new).faults ≡ (D.medium disk.old).faults }
    ensures time { Elapses (D.medium disk.old) (D.medium disk.new) }
{
    match view {
        RootView::Bad => {
            note_bad_root(alloc, notes, app)?;
            Ok(())
        }
        RootView::Absent { lacking, sole } => {
            note_root(alloc, notes, app, lacking, *sole)?;
            Ok(())
        }
        RootView::Installed(state) => audit_versions(alloc, disk, app, state, notes),
    }
}

// Adds what an application with a version has: what is found of its root, and the storages of the active version and of
// the previous one.
fn audit_versions<D: Disk>(
    alloc: Global,
    disk: &mut D,
    app: u32,
    state: &RootState,
    notes: &mut Notes,
) -> Result<(), Stop>
    requires app { app < 8 }
    requires versions { ShowsVersions (root_seen (Installed state.now)) }
    ensures adds { IsTrue D.told → OnOk result (AddsNotes (elements_seen (D.medium disk.old).image app
        (root_seen (Installed state.now)))
        (findings_seen (D.medium disk.old).image app (root_seen (Installed state.now))) notes.old notes.new) }
    ensures image { (D.medium disk.new).image ≡ (D.medium disk.old).image }
    ensures idle { Quiet (D.medium disk.old) → IsIdle (D.medium disk.old) (D.medium disk.new) }
    ensures written { (D.medium disk.new).written ≡ (D.medium disk.old).written }
    ensures cause { IsErrOf result Stop.Device → Rose (D.medium disk.old).faults (D.medium disk.new).faults }
    ensures passes { OnOk result ((D.medium disk.new).faults ≡ (D.medium disk.old).faults) }
    ensures fed { IsErrOf result Stop.OutOfMemory → (D.medium disk.new).faults ≡ (D.medium disk.old).faults }
    ensures time { Elapses (D.medium disk.old) (D.medium disk.new) }
{
    note_root(alloc, notes, app, &state.lacking, state.sole)?;
    audit_storages(
        alloc,
        disk,
        app,
        state.bank,
        state.active.storages.as_slice(),
        notes,
    )?;
    audit_previous(alloc, disk, app, 1 - state.bank, &state.previous, notes)?;
    Ok(())
}

// Adds what the storages of the previous version have, where there is one, in its bank.
fn audit_previous<D: Disk>(
    alloc: Global,
    disk: &mut D,
    app: u32,
    bank: u32,
    previous: &Option<Deployment>,
    notes: &mut Notes,
) -> Result<(), Stop>
    requires app { app < 8 }
    requires bank { bank ≤ 1 }
    requires deployment { IfSome previous.now (λ d. IsDeployment (deployment_data d)) }
    ensures adds { IsTrue D.told → OnOk result (AddsNotes (of_previous (listed_of app) (D.medium disk.old).image app
        (version_in_bank bank previous.now))
        (of_previous (of_storage app) (D.medium disk.old).image app (version_in_bank bank previous.now)) notes.old
        notes.new) }
    ensures image { (D.medium disk.new).image ≡ (D.medium disk.old).image }
    ensures idle { Quiet (D.medium disk.old) → IsIdle (D.medium disk.old) (D.medium disk.new) }
    ensures written { (D.medium disk.new).written ≡ (D.medium disk.old).written }
    ensures cause { IsErrOf result Stop.Device → Rose (D.medium disk.old).faults (D.medium disk.new).faults }
    ensures passes { OnOk result ((D.medium disk.new).faults ≡ (D.medium disk.old).faults) }
    ensures fed { IsErrOf result Stop.OutOfMemory → (D.medium disk.new).faults ≡ (D.medium disk.old).faults }
    ensures time { Elapses (D.medium disk.old) (D.medium disk.new) }
{
    let Some(deployment) = previous else {
        return Ok(());
    };
    audit_storages(
        alloc,
        disk,
        app,
        bank,
        deployment.storages.as_slice(),
        notes,
    )?;
    Ok(())
}

// Adds what the storages of a version have, in its bank.
fn audit_storages<D: Disk>(
    alloc: Global,
    disk: &mut D,
    app: u32,
    bank: u32,
    storages: &[StorageConfig],
    notes: &mut Notes,
) -> Result<(), Stop>
    requires app { app < 8 }
    requires bank { bank ≤ 1 }
    requires few { length storages.now ≤ 16 }
    requires each { AllByRecursion IsStorage (map storage_data storages.now) }
    ensures adds { IsTrue D.told → OnOk result (AddsNotes (over_storages (listed_of app)
        (D.medium disk.old).image app bank 0
        (map storage_data storages.now))
        (over_storages (of_storage app) (D.medium disk.old).image app bank 0 (map storage_data storages.now)) notes.old
        notes.new) }
    ensures image { (D.medium disk.new).image ≡ (D.medium disk.old).image }
    ensures idle { Quiet (D.medium disk.old) → IsIdle (D.medium disk.old) (D.medium disk.new) }
    ensures written { (D.medium disk.new).written ≡ (D.medium disk.old).written }
    ensures cause { IsErrOf result Stop.Device → Rose (D.medium disk.old).faults (D.medium disk.new).faults }
    ensures passes { OnOk result ((D.medium disk.new).faults ≡ (D.medium disk.old).faults) }
    ensures fed { IsErrOf result Stop.OutOfMemory → (D.medium disk.new).faults ≡ (D.medium disk.old).faults }
    ensures time { Elapses (D.medium disk.old) (D.medium disk.new) }
{
    for (number, config) in storages.iter().enumerate() {
        audit_storage(alloc, disk, app, bank, number as u32, config, notes)?;
    }
    Ok(())
}

// Adds what the storage with this number has.
fn audit_storage<D: Disk>(
    alloc: Global,
    disk: &mut D,
    app: u32,
    bank: u32,
    number: u32,
    config: &StorageConfig,
    notes: &mut Notes,
) -> Result<(), Stop>
    requires app { app < 8 }
    requires bank { bank ≤ 1 }
    requires number { number < 16 }
    requires config { IsStorage (storage_data config.now) }
    ensures adds { IsTrue D.told → OnOk result (AddsNotes
        (listed_of app bank (storage_data config.now) (store_at (D.medium disk.old).image
        (storage_shape app bank number (storage_data config.now))))
        (of_storage app bank (storage_data config.now) (store_at (D.medium disk.old).image
        (storage_shape app bank number (storage_data config.now))))
        notes.old notes.new) }
    ensures image { (D.medium disk.new).image ≡ (D.medium disk.old).image }
    ensures idle { Quiet (D.medium disk.old) → IsIdle (D.medium disk.old) (D.medium disk.new) }
    ensures written { (D.medium disk.new).written ≡ (D.medium disk.old).written }
    ensures cause { IsErrOf result Stop.Device → Rose (D.medium disk.old).faults (D.medium disk.new).faults }
    ensures passes { OnOk result ((D.medium disk.new).faults ≡ (D.medium disk.old).faults) }
    ensures fed { IsErrOf result Stop.OutOfMemory → (D.medium disk.new).faults ≡ (D.medium disk.old).faults }
    ensures time { Elapses (D.medium disk.old) (D.medium disk.new) }
{
    let shape = shape_of(app, bank, number, config)?;
    let found = survey(alloc, disk, &shape)?;
    note_storage(alloc, notes, app, bank, config, &found)?;
    Ok(())
}
