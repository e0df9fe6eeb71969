//! Roots that are formatted.

ghost use Rattle.std.specs.Prelude.{◌≡◌, ◌≤◌, ◌<◌, ◌+◌, ◌*◌, ℕ, [], IfOk, IsErrOf, IsTrue, OnOk};
ghost use Rattle.per_base.specs.Causes.{Rose};
ghost use Rattle.disk_model.specs.Frame.{Spares};
ghost use Rattle.disk_model.specs.Medium.{EachCase, Elapses, Quiet};
ghost use Rattle.disk_model.specs.Place.{IsNoSlot};
ghost use Rattle.guarded_cell.specs.Cells.{CellAt, IsCellOf};
ghost use Rattle.guarded_cell.specs.Register.{IsAlone};
ghost use Rattle.guarded_cell.specs.Stops.{FormatStops};
ghost use Rattle.root_text.specs.RootText.{absent, root_text};
ghost use Rattle.deploy_laws.specs.Apps.{IsCleanApp, app_at, root_sole};
ghost use Rattle.deploy_laws.specs.Places.{root_place};
ghost use Rattle.deploy_rows.specs.Rows.{empty_app};
ghost use Rattle.deploy.specs.Clauses.{IsNoRootSlot, Leaves};
ghost use Rattle.deploy_rows.specs.Costs.{format_cost};

use crate::errors::Stop;
use deploy_laws::{files_lie_apart, root_place, roots_say};
use disk_model::Disk;
use guarded_cell::{Cell, format_cell, held_is_lawful, stops_are_lawful};
use root_text::{one_root, write_absent};
use std::alloc::Global;

/// The applications of a disk.
const APPS: u32 = 8;

/// Formats the root of each application: nothing is installed. What the banks hold stays, and nothing names it.
///
/// # Errors
///
/// `Device` where the disk fails, and `OutOfMemory`: some of the applications may be formatted.
pub fn format_all<D: Disk>(alloc: Global, disk: &mut D) -> Result<(), Stop>
    // Of each application nothing is installed, no other text is held in its root's place, and its places are clean.
    ensures apps { IsTrue D.told → OnOk result ((app : ℕ) → app < 8
        → app_at (D.medium disk.new).image app ≡ empty_app 1) }
    ensures settled { IsTrue D.told → OnOk result ((app : ℕ) → app < 8
        → IsTrue (root_sole (D.medium disk.new).image app)) }
    ensures clean { IsTrue D.told → OnOk result ((app : ℕ) → app < 8 → IsCleanApp app (D.medium disk.new).image) }
    // Every copy of each root holds the text that nothing is installed, and no other text is held.
    ensures alone { IsTrue D.told → OnOk result ((app : ℕ) → app < 8
        → IsAlone (D.medium disk.new).image (root_place app) 1 (root_text absent)) }
    ensures quiet { OnOk result (Quiet (D.medium disk.new)) }
    // The count of faults rose where the device failed, and stayed where the call succeeded or memory ran out.
    ensures cause { IsErrOf result Stop.Device → Rose (D.medium disk.old).faults (D.medium disk.new).faults }
    ensures passes { OnOk result ((D.medium disk.new).faults ≡ (D.medium disk.old).faults) }
    ensures fed { IsErrOf result Stop.OutOfMemory → (D.medium disk.new).faults ≡ (D.medium disk.old).faults }

    // Only slots of roots change.
    ensures outside { Leaves D.told (λ file. (app : ℕ) → app < 8 → IsNoRootSlot app file) (D.medium disk.old)
        (D.medium disk.new) }
    // No more is written than eight roots cost that are formatted.
    ensures written { (D.medium disk.new).written ≤ (D.medium disk.old).written + 8 * format_cost }
    ensures time { Elapses (D.medium disk.old) (D.medium disk.new) }
{
    roots_say();
    files_lie_apart();
    held_is_lawful();
    one_root();
    for app in 0..APPS {
        let _cell = format_root(alloc, disk, app)?;
    }
    Ok(())
}

/// Formats one root.
pub(crate) fn format_root<D: Disk>(alloc: Global, disk: &mut D, app: u32) -> Result<Cell, Stop>
    requires { app < 8 }
    ensures cell { IfOk result (IsCellOf (root_place app) 1) }
    ensures held { IsTrue D.told → IfOk result (λ cell. CellAt (D.medium disk.new).image cell (root_text absent)) }
    ensures quiet { OnOk result (Quiet (D.medium disk.new)) }
    ensures memory { IsErrOf result Stop.OutOfMemory → disk.new ≡ disk.old }
    ensures cause { IsErrOf result Stop.Device → Rose (D.medium disk.old).faults (D.medium disk.new).faults }
    ensures passes { OnOk result ((D.medium disk.new).faults ≡ (D.medium disk.old).faults) }
    ensures elsewhere { IsTrue D.told
        → Spares (IsNoSlot (root_place app)) (D.medium disk.old).image
        (D.medium disk.new).image }
    ensures any_moment { IsTrue D.told → Quiet (D.medium disk.old)
        → EachCase (FormatStops (root_place app) 1 (root_text absent)
        (D.medium disk.old).image)
        (D.medium disk.old) (D.medium disk.new) }
    ensures written { (D.medium disk.new).written ≤ (D.medium disk.old).written + format_cost }
    ensures time { Elapses (D.medium disk.old) (D.medium disk.new) }
{
    one_root();
    stops_are_lawful();
    let text = write_absent(alloc)?;
    let cell = format_cell(alloc, disk, root_place(app), &text)?;
    Ok(cell)
}
