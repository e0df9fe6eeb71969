//! Opening a root.

ghost use Rattle.std.specs.Prelude.{◌≡◌, ◌≤◌, ◌<◌, ◌+◌, ◌*◌, ℕ, List, IfOk, IsErrOf, IsTrue, Ok, OnOk, Some};
ghost use Rattle.std.specs.Prelude.{length};
ghost use Rattle.per_base.specs.Causes.{Rose};
ghost use Rattle.disk_model.specs.Frame.{Spares};
ghost use Rattle.disk_model.specs.Image.{Image};
ghost use Rattle.disk_model.specs.Medium.{EachCase, Elapses, Quiet};
ghost use Rattle.disk_model.specs.Place.{IsNoSlot};
ghost use Rattle.guarded_cell.specs.Cells.{CellAt, generation_of};
ghost use Rattle.guarded_cell.specs.Register.{IsAlone};
ghost use Rattle.guarded_cell.specs.Seens.{IsSeenOn};
ghost use Rattle.guarded_cell.specs.Slots.{IsSlotsOf};
ghost use Rattle.guarded_cell.specs.Stops.{PutStops};
ghost use Rattle.root_text.specs.RootText.{IsRoot, root_text};
ghost use Rattle.root_text.specs.Views.{root_said};
ghost use Rattle.deploy_laws.specs.Apps.{IsCleanApp, app_at, nothing, says_at, says_by};
ghost use Rattle.deploy_laws.specs.Places.{root_place};
ghost use Rattle.deploy_rows.specs.Costs.{greatest_cost, kept_manifests, manifests_at, root_len};
ghost use Rattle.deploy_rows.specs.Rows.{reopened};
ghost use Rattle.deploy.specs.Clauses.{IsNoRootSlot, Leaves, StandsOnTheWay};
ghost use Rattle.deploy.specs.Roots.{RootAt, root_says, root_texts};
ghost use Rattle.deploy.specs.Standing.{IsSpelled};
ghost use Rattle.deploy.specs.Written.{WritesRoot};

use crate::errors::Stop;
use crate::roots::{Installed, Root};
use crate::standing::{Standing, find_standing};
use deploy_laws::{
    deploying_stands, files_lie_apart, others_stand, root_place, roots_say, untouched_stands,
};
use disk_model::Disk;
use guarded_cell::{Cell, adopt_seen, held_is_lawful};
use manifest::said_is_kept;
use root_text::{RootSays, one_root};
use std::alloc::Global;

/// Opens the root of an application: brings every copy to the text that two of them hold, without a report of what they
/// lacked. A root that is bad, of which no two copies hold one text that is a root's, is left as it is.
///
/// # Errors
///
/// `Device` where the disk fails, and `OutOfMemory`.
pub fn open_root<D: Disk>(alloc: Global, disk: &mut D, app: u32) -> Result<Root, Stop>
    requires { app < 8 }

    // The root that comes says what two copies held, and then no copy lacks it.
    ensures root { IfOk result (RootAt D.told (D.medium disk.new).image app) }
    ensures says { IsTrue D.told → IfOk result (λ root. root_says root ≡ says_at (D.medium disk.old).image app) }
    ensures app { IsTrue D.told → OnOk result (app_at (D.medium disk.new).image app
        ≡ reopened (app_at (D.medium disk.old).image app)) }
    // Clean places stay so. Where the root is bad, or memory ran out, nothing is written.
    ensures clean { IsTrue D.told → IsCleanApp app (D.medium disk.old).image
        → OnOk result (IsCleanApp app (D.medium disk.new).image) }
    ensures untouched { result ≡ Ok Root.Bad
        → ((D.medium disk.new).image ≡ (D.medium disk.old).image)
        × ((D.medium disk.new).written ≡ (D.medium disk.old).written) }
    ensures quiet { OnOk result (Quiet (D.medium disk.new)) }
    ensures memory { IsErrOf result Stop.OutOfMemory
        → ((D.medium disk.new).image ≡ (D.medium disk.old).image)
        × ((D.medium disk.new).written ≡ (D.medium disk.old).written) }
    // The count of faults rose where the device failed, and stayed where the call succeeded or memory ran out.
    ensures cause { IsErrOf result Stop.Device → Rose (D.medium disk.old).faults (D.medium disk.new).faults }
    ensures passes { OnOk result ((D.medium disk.new).faults ≡ (D.medium disk.old).faults) }
    ensures fed { IsErrOf result Stop.OutOfMemory → (D.medium disk.new).faults ≡ (D.medium disk.old).faults }

    // Where every copy holds one text and no other is held, nothing is written, however it ends.
    ensures already { IsTrue D.told → (generation : ℕ) (text : List ℕ)
        → IsAlone (D.medium disk.old).image (root_place app) generation text
        → ((D.medium disk.new).image ≡ (D.medium disk.old).image)
        × ((D.medium disk.new).written ≡ (D.medium disk.old).written) }

    // Nor where the root is bad: what single copies hold stays for who recovers it.
    ensures bad { IsTrue D.told → says_at (D.medium disk.old).image app ≡ nothing
        → ((D.medium disk.new).image ≡ (D.medium disk.old).image)
        × ((D.medium disk.new).written ≡ (D.medium disk.old).written) }

    // Only slots of the root change, and at any moment the application stands as it was, whatever later state it is to
    // come to next.
    ensures outside { Leaves D.told (IsNoRootSlot app) (D.medium disk.old) (D.medium disk.new) }
    ensures any_moment { IsTrue D.told → StandsOnTheWay app (D.medium disk.old) (D.medium disk.new) }
    // It keeps the manifests that it kept. At most the root that stands is written, once, however the call ends, and no
    // more than the longest root costs.
    ensures manifests { IsTrue D.told
        → IfOk result (λ root. root_texts root ≡ manifests_at (D.medium disk.old).image app) }
    ensures once { IsTrue D.told
        → WritesRoot (manifests_at (D.medium disk.old).image app) (D.medium disk.old) (D.medium disk.new) }
    ensures written { IfOk result (λ root. WritesRoot (root_texts root) (D.medium disk.old) (D.medium disk.new)) }
    ensures at_most { (D.medium disk.new).written ≤ (D.medium disk.old).written + greatest_cost }
    ensures time { Elapses (D.medium disk.old) (D.medium disk.new) }
{
    roots_say();
    files_lie_apart();
    others_stand();
    untouched_stands();
    deploying_stands();
    held_is_lawful();
    one_root();
    let Some(standing) = find_standing(alloc, disk, app)? else {
        return Ok(Root::Bad);
    };
    let root = bring_to(alloc, disk, app, standing)?;
    Ok(root)
}

// Brings every copy of the root to the text that stands.
fn bring_to<D: Disk>(
    alloc: Global,
    disk: &mut D,
    app: u32,
    standing: Standing,
) -> Result<Root, Stop>
    requires app { app < 8 }
    requires spelled { IsSpelled standing }
    requires seen { IsTrue D.told
        → IsSeenOn (D.medium disk.old).image (root_place app) standing.seen }
    requires slots { IsTrue D.told
        → IsSlotsOf (D.medium disk.old).image (root_place app) standing.slots }

    ensures root { IfOk result (RootAt D.told (D.medium disk.new).image app) }
    ensures says { IfOk result (λ root. root_says root ≡ says_by standing.seen.generation
        (Some (root_said standing.says))) }
    ensures alone { IsTrue D.told → OnOk result (IsAlone (D.medium disk.new).image (root_place app)
        standing.seen.generation (root_text (root_said standing.says))) }
    ensures quiet { OnOk result (Quiet (D.medium disk.new)) }
    ensures memory { IsErrOf result Stop.OutOfMemory → disk.new ≡ disk.old }
    ensures cause { IsErrOf result Stop.Device → Rose (D.medium disk.old).faults (D.medium disk.new).faults }
    ensures passes { OnOk result ((D.medium disk.new).faults ≡ (D.medium disk.old).faults) }

    // Only slots of the root change, and none where every copy holds the text alone. A stop at any moment leaves every
    // copy what it held or every copy the text.
    ensures already { IsTrue D.told
        → IsAlone (D.medium disk.old).image (root_place app) standing.seen.generation standing.seen.text
        → ((D.medium disk.new).image ≡ (D.medium disk.old).image)
        × ((D.medium disk.new).written ≡ (D.medium disk.old).written) }
    ensures elsewhere { IsTrue D.told
        → Spares (IsNoSlot (root_place app)) (D.medium disk.old).image (D.medium disk.new).image }
    ensures any_moment { IsTrue D.told → Quiet (D.medium disk.old)
        → EachCase (PutStops (root_place app) standing.seen.generation standing.seen.text
        (D.medium disk.old).image)
        (D.medium disk.old) (D.medium disk.new) }
    ensures texts { IfOk result (λ root. root_texts root ≡ kept_manifests (root_said standing.says)) }
    ensures once { WritesRoot (kept_manifests (root_said standing.says)) (D.medium disk.old) (D.medium disk.new) }
    ensures written { IfOk result (λ root. WritesRoot (root_texts root) (D.medium disk.old) (D.medium disk.new)) }
    ensures at_most { (D.medium disk.new).written ≤ (D.medium disk.old).written + greatest_cost }
    ensures time { Elapses (D.medium disk.old) (D.medium disk.new) }
{
    one_root();
    let Standing {
        seen,
        slots,
        says,
        ..
    } = standing;
    let cell = adopt_seen(alloc, disk, root_place(app), &seen, slots)?;
    Ok(Root::of(cell, says))
}

impl Root {
    ghost use Rattle.deploy.specs.Roots.{IsRootCell, IsRootOf, IsRootOn};

    // The root that says this, in its register.
    fn of(cell: Cell, says: RootSays) -> Root
        ensures says { root_says result ≡ says_by (generation_of cell) (Some (root_said says)) }
        ensures memory { (app : ℕ) → IsRootCell app cell → IsRoot (root_said says) → IsRootOf app result }
        ensures disk { (image : Image) (app : ℕ) → CellAt image cell (root_text (root_said says))
            → IsRootOn image app result }
        ensures texts { root_texts result ≡ kept_manifests (root_said says) }
        ensures long { length (root_text (root_said says)) ≡ root_len (root_texts result) }
    {
        said_is_kept();
        match says {
            RootSays::Absent => Root::Absent(cell),
            RootSays::Installed(bank, active, previous) => Root::Installed(Installed {
                cell,
                bank,
                active,
                previous,
            }),
        }
    }
}
