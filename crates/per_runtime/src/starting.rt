//! The start: eight roots are opened, one after another.

ghost use Rattle.std.specs.Prelude.{◌≡◌, ◌≤◌, ◌+◌, ◌*◌, IfOk, IsErrOf, IsTrue, OnOk};
ghost use Rattle.per_base.specs.Causes.{Rose};
ghost use Rattle.disk_model.specs.Medium.{Elapses};
ghost use Rattle.deploy_rows.specs.Costs.{greatest_cost};
ghost use Rattle.run_model.specs.Runtimes.{StartKeeps, Starts};
ghost use Rattle.per_runtime.specs.Begun.{IsBegun, fresh};
ghost use Rattle.per_runtime.specs.Memories.{IsRuntime, memory_of};

use crate::application::{Running, running_stays};
use crate::runtime::Runtime;
use deploy::Stop;
use disk_model::Disk;
use run_model::applications_stand;
use std::alloc::Global;

/// The applications of a disk.
const APPS: u32 = 8;

/// Opens the roots of the eight applications: the moment is 0, no storage is open, and nothing is in doubt.
///
/// # Errors
///
/// `Device` where the disk fails, and `OutOfMemory`.
pub fn start<D: Disk>(alloc: Global, disk: &mut D) -> Result<Runtime, Stop>
    // What is in memory is in use on the disk.
    ensures memory { IfOk result (IsRuntime D.told (D.medium disk.new)) }
    // A start that ends well has opened every root, and keeps in memory what a fresh runtime does.
    ensures starts { IsTrue D.told → IfOk result (λ r. Starts (memory_of r) (D.medium disk.old) (D.medium disk.new)) }
    ensures fresh { IfOk result (λ r. memory_of r ≡ fresh) }

    // However it ends, at each moment each application stands between what it was and itself with its root mended; a
    // root that is bad or held alone keeps its slots, and where all are, nothing is written.
    ensures stopped { IsTrue D.told → StartKeeps (D.medium disk.old) (D.medium disk.new) }
    // No more is written than the eight longest roots cost.
    ensures written { (D.medium disk.new).written ≤ (D.medium disk.old).written + 8 * greatest_cost }
    // The count of faults rose where the device failed, and stayed where the call succeeded or memory ran out.
    ensures cause { IsErrOf result Stop.Device → Rose (D.medium disk.old).faults (D.medium disk.new).faults }
    ensures passes { OnOk result ((D.medium disk.new).faults ≡ (D.medium disk.old).faults) }
    ensures fed { IsErrOf result Stop.OutOfMemory → (D.medium disk.new).faults ≡ (D.medium disk.old).faults }
    ensures time { Elapses (D.medium disk.old) (D.medium disk.new) }
{
    let apps = open_all(alloc, disk)?;
    Ok(Runtime {
        alloc,
        now: 0,
        in_doubt: false,
        apps,
    })
}

// The applications, with their roots opened after a sync.
fn open_all<D: Disk>(alloc: Global, disk: &mut D) -> Result<Vec<Running>, Stop>
    ensures { IsBegun D.told (D.medium disk.old) (D.medium disk.new) result }
{
    applications_stand();
    running_stays();
    if disk.sync().is_err() {
        return Err(Stop::Device);
    }
    let mut apps = Vec::new(alloc);
    for app in 0..APPS {
        let mut running = Running::new(alloc, app)?;
        running.open_root(disk)?;
        apps.push(running)?;
    }
    Ok(apps)
}
