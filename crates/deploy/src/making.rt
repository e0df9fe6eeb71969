//! Storages that are made in a bank, one after another.

ghost use Rattle.std.specs.Prelude.{◌≡◌, ◌≤◌, ◌<◌, ◌+◌, IfOk, OnOk, IsErrOf, IsTrue, drop, length, map, take};
ghost use Rattle.per_base.specs.Causes.{Rose};
ghost use Rattle.per_base.specs.declared.elements.Cause.TheVariants as cause;
ghost use Rattle.disk_model.specs.Medium.{Elapses, Quiet};
ghost use Rattle.disk_model.specs.Place.{IsOutside};
ghost use Rattle.deployment_model.specs.Conditions.{IsDeployment, IsStorage};
ghost use Rattle.deployment_model.specs.Data.{deployment_data, storage_data};
ghost use Rattle.index_text.specs.Contents.{AreContents};
ghost use Rattle.element_state.specs.Clean.{IsClean};
ghost use Rattle.element_state.specs.States.{fresh_map, fresh_state, store_at};
ghost use Rattle.update_plan.specs.Plans.{AllFit};
ghost use Rattle.deploy_laws.specs.Places.{IsBeside, shapes_from, storage_shape};
ghost use Rattle.deploy_rows.specs.Rows.{initial_all};
ghost use Rattle.deploy.specs.Clauses.{Leaves};
ghost use Rattle.deploy.specs.Made.{AreMade};
ghost use Rattle.deploy_rows.specs.Costs.{making_cost, making_costs};
ghost use Rattle.deploy.specs.Making.{IsInNone};
ghost use Rattle.deploy.specs.Remaining.{IsBesideRest};

use crate::errors::Stop;
use crate::shapes::shape_of;
use deploy_laws::files_lie_apart;
use deployment_model::{Deployment, StorageConfig};
use disk_model::Disk;
use element_laws::places_stand_apart;
use element_store::create;
use per_base::{Cause, Fresh, Sequence};
use std::alloc::{AllocError, Global};
use update_plan::initial_of;

/// What each storage of a deployment starts with at this moment, in seconds, in the order of the storages.
pub(crate) fn initial_contents(
    alloc: Global,
    deployment: &Deployment,
    now: u64,
) -> Result<Vec<Sequence<Fresh>>, AllocError>
    requires { IsDeployment (deployment_data deployment.now) }
    ensures contents { IfOk result (λ made. made.items ≡ initial_all now (deployment_data deployment.now)) }
    ensures fit { IfOk result (λ made. AllFit (map storage_data deployment.now.storages) made.items) }
{
    let mut all = Vec::new(alloc);
    for storage in deployment.storages.as_slice() {
        let contents = initial_of(alloc, storage, Cause::Installation, now)?;
        all.push(Sequence::new(contents))?;
    }
    Ok(all)
}

/// Makes the storages of a version in a bank, from the one with number `built` on; those before it are made already.
/// What the bank held of an earlier version is given up.
pub(crate) fn create_rest<D: Disk>(
    alloc: Global,
    disk: &mut D,
    app: u32,
    bank: u32,
    built: u32,
    deployment: &Deployment,
    contents: &[Sequence<Fresh>],
) -> Result<(), Stop>
    requires app { app < 8 }
    requires bank { bank ≤ 1 }
    requires deployment { IsDeployment (deployment_data deployment.now) }
    requires fit { AllFit (map storage_data deployment.now.storages) contents.now }
    requires within { built ≤ length contents.now }
    requires made { IsTrue D.told → AreMade (D.medium disk.old).image
        (take built (shapes_from app bank 0 (map storage_data deployment.now.storages))) (take built contents.now) }

    ensures made { IsTrue D.told → OnOk result (AreMade (D.medium disk.new).image
        (shapes_from app bank 0 (map storage_data deployment.now.storages)) contents.now) }
    ensures quiet { Quiet (D.medium disk.old) → OnOk result (Quiet (D.medium disk.new)) }
    ensures done { length contents.now ≤ built → disk.new ≡ disk.old }
    ensures cause { IsErrOf result Stop.Device → Rose (D.medium disk.old).faults (D.medium disk.new).faults }
    ensures passes { OnOk result ((D.medium disk.new).faults ≡ (D.medium disk.old).faults) }
    ensures fed { IsErrOf result Stop.OutOfMemory → (D.medium disk.new).faults ≡ (D.medium disk.old).faults }

    // Only files of the storages that remain change.
    ensures outside { Leaves D.told (IsBesideRest app bank built (length contents.now)) (D.medium disk.old)
        (D.medium disk.new) }
    ensures places { Leaves D.told (IsInNone
        (drop built (shapes_from app bank 0 (map storage_data deployment.now.storages))))
        (D.medium disk.old) (D.medium disk.new) }
    // No more is written than they cost.
    ensures written { (D.medium disk.new).written ≤ (D.medium disk.old).written
        + making_costs (drop built (map storage_data deployment.now.storages)) (drop built contents.now) }
    ensures time { Elapses (D.medium disk.old) (D.medium disk.new) }
{
    files_lie_apart();
    places_stand_apart();
    for number in built..contents.len() as u32 {
        create_one(
            alloc,
            disk,
            app,
            bank,
            number,
            &deployment.storages.as_slice()[number as usize],
            contents[number as usize].as_slice(),
        )?;
    }
    Ok(())
}

/// Creates one storage of a bank, with these contents.
pub(crate) fn create_one<D: Disk>(
    alloc: Global,
    disk: &mut D,
    app: u32,
    bank: u32,
    number: u32,
    config: &StorageConfig,
    contents: &[Fresh],
) -> Result<(), Stop>
    requires app { app < 8 }
    requires bank { bank ≤ 1 }
    requires number { number < 16 }
    requires config { IsStorage (storage_data config.now) }
    requires contents { AreContents config.now.kind config.now.maximum contents.now }

    ensures made { IsTrue D.told → OnOk result
        (store_at (D.medium disk.new).image (storage_shape app bank number (storage_data config.now))
        ≡ fresh_state 1 (fresh_map contents.now)) }
    ensures clean { IsTrue D.told → OnOk result (IsClean (storage_shape app bank number (storage_data config.now))
        (D.medium disk.new).image) }
    ensures quiet { OnOk result (Quiet (D.medium disk.new)) }
    ensures cause { IsErrOf result Stop.Device → Rose (D.medium disk.old).faults (D.medium disk.new).faults }
    ensures passes { OnOk result ((D.medium disk.new).faults ≡ (D.medium disk.old).faults) }
    ensures fed { IsErrOf result Stop.OutOfMemory → (D.medium disk.new).faults ≡ (D.medium disk.old).faults }

    // Only files of the storage change.
    ensures outside { Leaves D.told (IsBeside app bank number) (D.medium disk.old) (D.medium disk.new) }
    ensures place { Leaves D.told (IsOutside (storage_shape app bank number (storage_data config.now)).place)
        (D.medium disk.old) (D.medium disk.new) }
    ensures written { (D.medium disk.new).written
        ≤ (D.medium disk.old).written + making_cost (storage_data config.now) contents.now }
    ensures time { Elapses (D.medium disk.old) (D.medium disk.new) }
{
    files_lie_apart();
    let shape = shape_of(app, bank, number, config)?;
    let contents = copy_all(alloc, contents)?;
    let _store = create(alloc, disk, shape, contents)?;
    Ok(())
}

// A copy of the contents.
fn copy_all(alloc: Global, contents: &[Fresh]) -> Result<Vec<Fresh>, AllocError>
    ensures { IfOk result (λ copies. copies.items ≡ contents.now) }
{
    let mut copies = Vec::with_capacity(alloc, contents.len())?;
    for fresh in contents {
        copies.push(fresh.copy()?)?;
    }
    Ok(copies)
}
