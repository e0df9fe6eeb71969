//! The listing of a disk: each root is looked at, and each storage of the versions that it names.

ghost use Rattle.std.specs.Prelude.{◌≡◌, ◌⊎◌, ◌≤◌, ◌<◌, ◌++◌, IfOk, IfSome, IsErrOf, IsTrue, OnOk, length, map};
ghost use Rattle.std.specs.Prelude.{option_map, string_bytes};
ghost use Rattle.std.specs.List.{AllByRecursion};
ghost use Rattle.per_base.specs.Causes.{Rose};
ghost use Rattle.disk_model.specs.Case.{IsSettledAt};
ghost use Rattle.disk_model.specs.Medium.{EachCase, Elapses, IsIdle, Quiet};
ghost use Rattle.deployment_model.specs.Conditions.{IsDeployment, IsStorage};
ghost use Rattle.deployment_model.specs.Data.{deployment_data, storage_data};
ghost use Rattle.element_state.specs.Chosen.{opened_of};
ghost use Rattle.element_state.specs.Conditions.{IsShape};
ghost use Rattle.element_state.specs.States.{store_at};
ghost use Rattle.deploy.specs.Views.{ShowsVersions, root_seen};
ghost use Rattle.deploy.specs.declared.viewing.RootView.TheVariants.{Installed};
ghost use Rattle.deploy_laws.specs.Apps.{app_at};
ghost use Rattle.deploy_laws.specs.Places.{storage_shape, version_in_bank};
ghost use Rattle.per_list.specs.Listings.{app_text, held_in, listing_text, storage_by};
ghost use Rattle.per_list.specs.Seen.{app_seen, previous_seen, storages_seen};

use crate::forms::{Form, Held};
use crate::printing::{
    push_absent, push_bad, push_ending, push_heading, push_list_end, push_next_list, push_storage,
    push_version_head,
};
use deploy::{RootState, RootView, Stop, shape_of, view_root};
use deployment_model::{Deployment, StorageConfig};
use disk_model::Disk;
use element_state::{Shape, StoreError, View, inspect};
use per_base::storage_size;
use std::alloc::Global;

/// The applications of a disk.
const APPS: u32 = 8;

/// Looks at every application of a disk and at every storage that it has, and gives a text that says what is there.
/// Each content is read once. It begins with a sync and writes nothing.
///
/// # Errors
///
/// `Device` where the disk fails, and `OutOfMemory`.
pub fn list<D: Disk>(alloc: Global, disk: &mut D, form: Form) -> Result<Vec<u8>, Stop>
    // The text says in this form what the image that the disk then had gives.
    ensures text { IsTrue D.told → IfOk result (λ text. text.items ≡ listing_text form (D.medium disk.old).image) }
    // Nothing is written, and where it succeeds nothing is pending.
    ensures quiet { OnOk result (Quiet (D.medium disk.new)) }
    ensures image { (D.medium disk.new).image ≡ (D.medium disk.old).image }
    ensures written { (D.medium disk.new).written ≡ (D.medium disk.old).written }

    // A crash meanwhile leaves what reads give, or what a crash before the listing might have left.
    ensures during { EachCase (λ c. (D.medium disk.old).now c ⊎ IsSettledAt (D.medium disk.old).image c)
        (D.medium disk.old) (D.medium disk.new) }
    // The count of faults rose where the device failed, and stayed where the call succeeded or memory ran out.
    ensures cause { IsErrOf result Stop.Device → Rose (D.medium disk.old).faults (D.medium disk.new).faults }
    ensures passes { OnOk result ((D.medium disk.new).faults ≡ (D.medium disk.old).faults) }
    ensures fed { IsErrOf result Stop.OutOfMemory → (D.medium disk.new).faults ≡ (D.medium disk.old).faults }
    ensures time { Elapses (D.medium disk.old) (D.medium disk.new) }
{
    if disk.sync().is_err() {
        return Err(Stop::Device);
    }
    list_all(alloc, disk, form)
}

// The same without the sync.
fn list_all<D: Disk>(alloc: Global, disk: &mut D, form: Form) -> Result<Vec<u8>, Stop>
    ensures text { IsTrue D.told → IfOk result (λ text. text.items ≡ listing_text form (D.medium disk.old).image) }
    ensures quiet { OnOk result (Quiet (D.medium disk.new)) }
    ensures image { (D.medium disk.new).image ≡ (D.medium disk.old).image }
    ensures idle { Quiet (D.medium disk.old) → IsIdle (D.medium disk.old) (D.medium disk.new) }
    ensures written { (D.medium disk.new).written ≡ (D.medium disk.old).written }
    ensures cause { IsErrOf result Stop.Device → Rose (D.medium disk.old).faults (D.medium disk.new).faults }
    ensures passes { OnOk result ((D.medium disk.new).faults ≡ (D.medium disk.old).faults) }
    ensures fed { IsErrOf result Stop.OutOfMemory → (D.medium disk.new).faults ≡ (D.medium disk.old).faults }
    ensures time { Elapses (D.medium disk.old) (D.medium disk.new) }
{
    let mut out = String::new(alloc);
    push_heading(&mut out, form)?;
    for app in 0..APPS {
        list_app(alloc, disk, app, form, &mut out)?;
    }
    push_ending(&mut out, form)?;
    Ok(out.into_bytes())
}

// Adds what one application has.
fn list_app<D: Disk>(
    alloc: Global,
    disk: &mut D,
    app: u32,
    form: Form,
    out: &mut String,
) -> Result<(), Stop>
    requires { app < 8 }
    ensures adds { IsTrue D.told → OnOk result (string_bytes out.new
        ≡ string_bytes out.old ++ app_text form app (app_at (D.medium disk.old).image app)) }
    ensures quiet { OnOk result (Quiet (D.medium disk.new)) }
    ensures image { (D.medium disk.new).image ≡ (D.medium disk.old).image }
    ensures idle { Quiet (D.medium disk.old) → IsIdle (D.medium disk.old) (D.medium disk.new) }
    ensures written { (D.medium disk.new).written ≡ (D.medium disk.old).written }
    ensures cause { IsErrOf result Stop.Device → Rose (D.medium disk.old).faults (D.medium disk.new).faults }
    ensures passes { OnOk result ((D.medium disk.new).faults ≡ (D.medium disk.old).faults) }
    ensures fed { IsErrOf result Stop.OutOfMemory → (D.medium disk.new).faults ≡ (D.medium disk.old).faults }
    ensures time { Elapses (D.medium disk.old) (D.medium disk.new) }
{
    let view = view_root(alloc, disk, app)?;
    list_view(alloc, disk, app, &view, form, out)?;
    Ok(())
}

// Adds what an application has whose root is seen so.
fn list_view<D: Disk>(
    alloc: Global,
    disk: &mut D,
    app: u32,
    view: &RootView,
    form: Form,
    out: &mut String,
) -> Result<(), Stop>
    requires app { app < 8 }
    requires versions { ShowsVersions (root_seen view.now) }
    ensures adds { IsTrue D.told → OnOk result (string_bytes out.new
        ≡ string_bytes out.old ++ app_seen form (D.medium disk.old).image app (root_seen view.now)) }
    ensures image { (D.medium disk.new).image ≡ (D.medium disk.old).image }
    ensures idle { Quiet (D.medium disk.old) → IsIdle (D.medium disk.old) (D.medium disk.new) }
    ensures written { (D.medium disk.new).written ≡ (D.medium disk.old).written }
    ensures cause { IsErrOf result Stop.Device → Rose (D.medium disk.old).faults (D.medium disk.new).faults }
    ensures passes { OnOk result ((D.medium disk.new).faults ≡ (D.medium disk.old).faults) }
    ensures fed { IsErrOf result Stop.OutOfMemory → (D.medium disk.new).faults ≡ (D.medium disk.old).faults }
    ensures time { Elapses (D.medium disk.old) (D.medium disk.new) }
{
    match view {
        RootView::Bad => {
            push_bad(out, form, app)?;
            Ok(())
        }
        RootView::Absent { .. } => {
            push_absent(out, form, app)?;
            Ok(())
        }
        RootView::Installed(state) => list_version(alloc, disk, app, state, form, out),
    }
}

// Adds what an application with a version has.
fn list_version<D: Disk>(
    alloc: Global,
    disk: &mut D,
    app: u32,
    state: &RootState,
    form: Form,
    out: &mut String,
) -> Result<(), Stop>
    requires app { app < 8 }
    requires versions { ShowsVersions (root_seen (Installed state.now)) }
    ensures adds { IsTrue D.told → OnOk result (string_bytes out.new
        ≡ string_bytes out.old ++ app_seen form (D.medium disk.old).image app (root_seen (Installed state.now))) }
    ensures image { (D.medium disk.new).image ≡ (D.medium disk.old).image }
    ensures idle { Quiet (D.medium disk.old) → IsIdle (D.medium disk.old) (D.medium disk.new) }
    ensures written { (D.medium disk.new).written ≡ (D.medium disk.old).written }
    ensures cause { IsErrOf result Stop.Device → Rose (D.medium disk.old).faults (D.medium disk.new).faults }
    ensures passes { OnOk result ((D.medium disk.new).faults ≡ (D.medium disk.old).faults) }
    ensures fed { IsErrOf result Stop.OutOfMemory → (D.medium disk.new).faults ≡ (D.medium disk.old).faults }
    ensures time { Elapses (D.medium disk.old) (D.medium disk.new) }
{
    let previous = version_of(&state.previous);
    push_version_head(out, form, app, state.bank, state.active.version, previous)?;
    list_storages(
        alloc,
        disk,
        app,
        state.bank,
        state.active.storages.as_slice(),
        form,
        out,
    )?;
    push_next_list(out, form)?;
    list_previous(alloc, disk, app, 1 - state.bank, &state.previous, form, out)?;
    push_list_end(out, form)?;
    Ok(())
}

// The number of a version, where there is one.
fn version_of(deployment: &Option<Deployment>) -> Option<u32>
    ensures { result ≡ option_map (λ d. d.version) deployment.now }
{
    match deployment {
        Some(deployment) => Some(deployment.version),
        None => None,
    }
}

// Adds what the storages of the previous version have, where there is one, in its bank.
fn list_previous<D: Disk>(
    alloc: Global,
    disk: &mut D,
    app: u32,
    bank: u32,
    previous: &Option<Deployment>,
    form: Form,
    out: &mut String,
) -> Result<(), Stop>
    requires app { app < 8 }
    requires bank { bank ≤ 1 }
    requires deployment { IfSome previous.now (λ d. IsDeployment (deployment_data d)) }
    ensures adds { IsTrue D.told → OnOk result (string_bytes out.new ≡ string_bytes out.old
        ++ previous_seen form (D.medium disk.old).image app (version_in_bank bank previous.now)) }
    ensures image { (D.medium disk.new).image ≡ (D.medium disk.old).image }
    ensures idle { Quiet (D.medium disk.old) → IsIdle (D.medium disk.old) (D.medium disk.new) }
    ensures written { (D.medium disk.new).written ≡ (D.medium disk.old).written }
    ensures cause { IsErrOf result Stop.Device → Rose (D.medium disk.old).faults (D.medium disk.new).faults }
    ensures passes { OnOk result ((D.medium disk.new).faults ≡ (D.medium disk.old).faults) }
    ensures fed { IsErrOf result Stop.OutOfMemory → (D.medium disk.new).faults ≡ (D.medium disk.old).faults }
    ensures time { Elapses (D.medium disk.old) (D.medium disk.new) }
{
    let Some(deployment) = previous else {
        return Ok(());
    };
    list_storages(
        alloc,
        disk,
        app,
        bank,
        deployment.storages.as_slice(),
        form,
        out,
    )?;
    Ok(())
}

// Adds what the storages of a version have, in its bank.
fn list_storages<D: Disk>(
    alloc: Global,
    disk: &mut D,
    app: u32,
    bank: u32,
    storages: &[StorageConfig],
    form: Form,
    out: &mut String,
) -> Result<(), Stop>
    requires app { app < 8 }
    requires bank { bank ≤ 1 }
    requires few { length storages.now ≤ 16 }
    requires each { AllByRecursion IsStorage (map storage_data storages.now) }
    ensures adds { IsTrue D.told → OnOk result (string_bytes out.new ≡ string_bytes out.old
        ++ storages_seen form (D.medium disk.old).image app bank 0 (map storage_data storages.now)) }
    ensures image { (D.medium disk.new).image ≡ (D.medium disk.old).image }
    ensures idle { Quiet (D.medium disk.old) → IsIdle (D.medium disk.old) (D.medium disk.new) }
    ensures written { (D.medium disk.new).written ≡ (D.medium disk.old).written }
    ensures cause { IsErrOf result Stop.Device → Rose (D.medium disk.old).faults (D.medium disk.new).faults }
    ensures passes { OnOk result ((D.medium disk.new).faults ≡ (D.medium disk.old).faults) }
    ensures fed { IsErrOf result Stop.OutOfMemory → (D.medium disk.new).faults ≡ (D.medium disk.old).faults }
    ensures time { Elapses (D.medium disk.old) (D.medium disk.new) }
{
    for (number, config) in storages.iter().enumerate() {
        list_storage(alloc, disk, app, bank, number as u32, config, form, out)?;
    }
    Ok(())
}

// Adds what the storage with this number has.
fn list_storage<D: Disk>(
    alloc: Global,
    disk: &mut D,
    app: u32,
    bank: u32,
    number: u32,
    config: &StorageConfig,
    form: Form,
    out: &mut String,
) -> Result<(), Stop>
    requires app { app < 8 }
    requires bank { bank ≤ 1 }
    requires number { number < 16 }
    requires config { IsStorage (storage_data config.now) }
    ensures adds { IsTrue D.told → OnOk result (string_bytes out.new ≡ string_bytes out.old
        ++ storage_by form app bank number (storage_data config.now) (store_at (D.medium disk.old).image
        (storage_shape app bank number (storage_data config.now)))) }
    ensures image { (D.medium disk.new).image ≡ (D.medium disk.old).image }
    ensures idle { Quiet (D.medium disk.old) → IsIdle (D.medium disk.old) (D.medium disk.new) }
    ensures written { (D.medium disk.new).written ≡ (D.medium disk.old).written }
    ensures cause { IsErrOf result Stop.Device → Rose (D.medium disk.old).faults (D.medium disk.new).faults }
    ensures passes { OnOk result ((D.medium disk.new).faults ≡ (D.medium disk.old).faults) }
    ensures fed { IsErrOf result Stop.OutOfMemory → (D.medium disk.new).faults ≡ (D.medium disk.old).faults }
    ensures time { Elapses (D.medium disk.old) (D.medium disk.new) }
{
    let shape = shape_of(app, bank, number, config)?;
    let held = find_held(alloc, disk, &shape)?;
    push_storage(out, form, app, bank, number, config, shape.place, held)?;
    Ok(())
}

// What a storage holds, where it opens.
fn find_held<D: Disk>(alloc: Global, disk: &mut D, shape: &Shape) -> Result<Option<Held>, Stop>
    requires { IsShape shape.now }
    ensures held { IsTrue D.told → IfOk result (λ held.
        held ≡ option_map held_in (opened_of (store_at (D.medium disk.old).image shape.now))) }
    ensures image { (D.medium disk.new).image ≡ (D.medium disk.old).image }
    ensures idle { Quiet (D.medium disk.old) → IsIdle (D.medium disk.old) (D.medium disk.new) }
    ensures written { (D.medium disk.new).written ≡ (D.medium disk.old).written }
    ensures cause { IsErrOf result Stop.Device → Rose (D.medium disk.old).faults (D.medium disk.new).faults }
    ensures passes { OnOk result ((D.medium disk.new).faults ≡ (D.medium disk.old).faults) }
    ensures fed { IsErrOf result Stop.OutOfMemory → (D.medium disk.new).faults ≡ (D.medium disk.old).faults }
    ensures time { Elapses (D.medium disk.old) (D.medium disk.new) }
{
    match inspect(alloc, disk, shape) {
        Ok(view) => Ok(Some(held_in(&view))),
        Err(StoreError::Corrupt) => Ok(None),
        Err(StoreError::Device) => Err(Stop::Device),
        Err(StoreError::OutOfMemory) => Err(Stop::OutOfMemory),
    }
}

// What the storage of a view holds.
fn held_in(view: &View) -> Held
    requires { length view.now.entries ≤ 1024 }
    ensures { result ≡ held_in view.now }
{
    let entries = view.entries.as_slice();
    Held {
        elements: entries.len() as u64,
        bytes: storage_size(entries),
    }
}
