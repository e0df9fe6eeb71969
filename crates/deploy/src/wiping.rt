//! Wiping an application.

ghost use Rattle.std.specs.Prelude.{◌≡◌, ◌<◌, ◌+◌, ◌^◌, ◌⊎◌, ℕ, List, [], Err, IfErr, IfOk, IsErrOf, IsOk, IsTrue};
ghost use Rattle.std.specs.Prelude.{None, Ok, OnOk, option_map, ◌*◌, ◌≢◌, ◌≤◌};
ghost use Rattle.per_base.specs.Causes.{Rose};
ghost use Rattle.per_base.specs.declared.errors.PerError.{PerError};
ghost use Rattle.disk_model.specs.Frame.{Spares};
ghost use Rattle.disk_model.specs.Medium.{EachCase, Elapses, Quiet};
ghost use Rattle.disk_model.specs.Place.{IsNoSlot};
ghost use Rattle.guarded_cell.specs.Cells.{CellAt, IsCellOf, generation_of, place_of};
ghost use Rattle.guarded_cell.specs.Stops.{PutStops};
ghost use Rattle.root_text.specs.RootText.{absent, root_text};
ghost use Rattle.deploy_laws.specs.Apps.{IsCleanApp, app_at, app_saying};
ghost use Rattle.deploy_laws.specs.Apps as apps;
ghost use Rattle.deploy_laws.specs.Stands.{StandsThroughout};
ghost use Rattle.deploy_rows.specs.Rows.{AnswersRow, after, wiping};
ghost use Rattle.deploy.specs.Clauses.{IsNoRootSlot, Leaves};
ghost use Rattle.deploy.specs.Leaving.{IsEmptied, IsRegisterAt, IsRootRefused, empty_says, register_of};
ghost use Rattle.deploy.specs.Roots.{RootAt, root_app, root_says};
ghost use Rattle.deploy_rows.specs.Costs.{format_cost, root_len};
ghost use Rattle.deploy.specs.Written.{WritesRoot};

use crate::errors::Stop;
use crate::formatting::format_root;
use crate::leaving::busy_or_worn;
use crate::roots::{Outcome, Root};
use deploy_laws::{deploying_stands, files_lie_apart, others_stand, roots_say, untouched_stands};
use deploy_rows::{rows_lead_on, rows_read_the_root};
use disk_model::Disk;
use guarded_cell::{Cell, stops_are_lawful};
use per_base::Name;
use root_text::{one_root, write_absent};
use std::alloc::Global;

/// Removes everything that is installed: the root is written, and one that is bad is formatted. What the banks hold
/// stays, and nothing names it.
///
/// Refusals, the first that holds: `ResourceBusy` where `busy` names an open storage; `LimitReached` with `Generations`
/// where a root that is not bad has none left. They come before any call of the disk.
///
/// # Errors
///
/// `Device` where the disk fails, and `OutOfMemory`: then the root is to be opened again.
pub fn wipe<D: Disk>(
    alloc: Global,
    disk: &mut D,
    app: u32,
    root: Root,
    busy: Option<&Name>,
) -> Result<Outcome, Stop>
    requires app { app < 8 }
    requires root { RootAt D.told (D.medium disk.old).image app root }

    // What the row `wiping` says of the application comes: its refusal, or what the root in memory and the disk say.
    ensures root { IfOk result (λ o. RootAt D.told (D.medium disk.new).image app o.root) }
    ensures refused { IfOk result (λ o. AnswersRow o.refused
        (wiping (option_map (λ n. n.now) busy.entry) (root_app root []))) }
    ensures says { IfOk result (λ o. root_says o.root
        ≡ (after (root_app root []) (wiping (option_map (λ n. n.now) busy.entry) (root_app root []))).says) }
    ensures app { IsTrue D.told → OnOk result (app_at (D.medium disk.new).image app
        ≡ after (app_at (D.medium disk.old).image app)
        (wiping (option_map (λ n. n.now) busy.entry) (app_at (D.medium disk.old).image app))) }
    // The places are clean after a wipe that is done, and stay clean where it is refused.
    ensures clean { IsTrue D.told → IfOk result (λ o. (o.refused ≡ None) ⊎ IsCleanApp app (D.medium disk.old).image
        → IsCleanApp app (D.medium disk.new).image) }
    ensures quiet { Quiet (D.medium disk.old) → OnOk result (Quiet (D.medium disk.new)) }
    // A refused call changes nothing, and one that the row refuses does not call the disk, so no device fails there.
    ensures unchanged { IfOk result (λ o. o.refused ≢ None → (disk.new ≡ disk.old) × (o.root ≡ root)) }
    ensures early { (e : PerError) → wiping (option_map (λ n. n.now) busy.entry) (root_app root []) ≡ Err e
        → disk.new ≡ disk.old }

    // Where no storage is open, a refusal of the row is given however little memory there is.
    ensures due { (e : PerError) → wiping (option_map (λ n. n.now) busy.entry) (root_app root []) ≡ Err e
        → busy.entry ≡ None → IsOk result }
    // The count of faults rose where the device failed, and stayed where the call succeeded.
    ensures cause { IsErrOf result Stop.Device → Rose (D.medium disk.old).faults (D.medium disk.new).faults }
    ensures device_only { IsErrOf result Stop.Device → IsOk
        (wiping (option_map (λ n. n.now) busy.entry) (root_app root [])) }
    ensures memory { IsErrOf result Stop.OutOfMemory → disk.new ≡ disk.old }
    ensures passes { OnOk result ((D.medium disk.new).faults ≡ (D.medium disk.old).faults) }

    // Only slots of the root change, and at any moment the application stands as before or as after.
    ensures outside { Leaves D.told (IsNoRootSlot app) (D.medium disk.old) (D.medium disk.new) }
    ensures any_moment { IsTrue D.told → StandsThroughout app
        (after (app_at (D.medium disk.old).image app) (wiping (option_map (λ n. n.now) busy.entry)
        (app_at (D.medium disk.old).image app)))
        (D.medium disk.old) (D.medium disk.new) }
    // At most an empty root is written, once, and one that was bad is formatted.
    ensures written { root ≢ Root.Bad → WritesRoot [] (D.medium disk.old) (D.medium disk.new) }
    ensures at_most { (D.medium disk.new).written ≤ (D.medium disk.old).written + format_cost }
    ensures time { Elapses (D.medium disk.old) (D.medium disk.new) }
{
    roots_say();
    one_root();
    rows_lead_on();
    rows_read_the_root();
    untouched_stands();
    match root.without_versions(busy)? {
        Ok(register) => empty(alloc, disk, app, register),
        Err(refused) => Ok(refused),
    }
}

impl Root {
    // The register of the root to be emptied, which a bad root has not, or why that is refused.
    fn without_versions(self, busy: Option<&Name>) -> Result<Result<Option<Cell>, Outcome>, Stop>
        ensures emptied { IfOk result (λ left. IfOk left (IsEmptied (wiping (option_map (λ n. n.now) busy.entry))
            self)) }
        ensures refused { IfOk result (λ left. IfErr left (IsRootRefused (wiping (option_map (λ n. n.now) busy.entry))
            self)) }
        ensures due { busy.entry ≡ None → IsOk result }
        ensures memory { ¬ (IsErrOf result Stop.Device) }
    {
        let Some(refused) = busy_or_worn(busy, self.generation())? else {
            return Ok(Ok(self.register()));
        };
        Ok(Err(self.refuses(refused)))
    }

    // The generation of the root's text, 0 where it is bad.
    fn generation(&self) -> u64
        ensures { result ≡ apps.says_generation (root_says self.now) }
    {
        match self {
            Root::Bad => 0,
            Root::Absent(cell) => cell.generation(),
            Root::Installed(i) => i.cell.generation(),
        }
    }

    // The register that holds the root, if it is not bad.
    fn register(self) -> Option<Cell>
        ensures { result ≡ register_of self }
    {
        match self {
            Root::Bad => None,
            Root::Absent(cell) => Some(cell),
            Root::Installed(i) => Some(i.cell),
        }
    }
}

// Writes the root's next text, or formats a root that has no register: nothing is installed.
fn empty<D: Disk>(
    alloc: Global,
    disk: &mut D,
    app: u32,
    register: Option<Cell>,
) -> Result<Outcome, Stop>
    requires app { app < 8 }
    requires register { IsRegisterAt D.told (D.medium disk.old).image app register }

    ensures root { IfOk result (λ o. RootAt D.told (D.medium disk.new).image app o.root) }
    ensures says { IfOk result (λ o. root_says o.root ≡ empty_says register) }
    ensures done { IfOk result (λ o. o.refused ≡ None) }
    ensures app { IsTrue D.told → OnOk result (app_at (D.medium disk.new).image app
        ≡ app_saying (D.medium disk.old).image app (empty_says register)) }
    ensures clean { IsTrue D.told → OnOk result (IsCleanApp app (D.medium disk.new).image) }
    ensures quiet { OnOk result (Quiet (D.medium disk.new)) }
    ensures cause { IsErrOf result Stop.Device → Rose (D.medium disk.old).faults (D.medium disk.new).faults }
    ensures memory { IsErrOf result Stop.OutOfMemory → disk.new ≡ disk.old }
    ensures passes { OnOk result ((D.medium disk.new).faults ≡ (D.medium disk.old).faults) }

    // Only slots of the root change, and at any moment the application stands as before or with nothing installed.
    ensures outside { Leaves D.told (IsNoRootSlot app) (D.medium disk.old) (D.medium disk.new) }
    ensures any_moment { IsTrue D.told
        → StandsThroughout app (app_saying (D.medium disk.old).image app (empty_says register)) (D.medium disk.old)
        (D.medium disk.new) }
    ensures written { register ≢ None → WritesRoot [] (D.medium disk.old) (D.medium disk.new) }
    ensures at_most { (D.medium disk.new).written ≤ (D.medium disk.old).written + format_cost }
    ensures time { Elapses (D.medium disk.old) (D.medium disk.new) }
{
    roots_say();
    files_lie_apart();
    others_stand();
    deploying_stands();
    one_root();
    match register {
        None => {
            let cell = format_root(alloc, disk, app)?;
            Ok(emptied(cell))
        }
        Some(cell) => {
            let cell = write_none(alloc, disk, cell)?;
            Ok(emptied(cell))
        }
    }
}

// Writes the root's next text: nothing is installed.
fn write_none<D: Disk>(alloc: Global, disk: &mut D, cell: Cell) -> Result<Cell, Stop>
    requires generation { generation_of cell + 1 < 2 ^ 64 }
    requires held { IsTrue D.told → (text : List ℕ) × CellAt (D.medium disk.old).image cell text }

    ensures next { IfOk result (IsCellOf (place_of cell) (generation_of cell + 1)) }
    ensures held { IsTrue D.told → IfOk result (λ next. CellAt (D.medium disk.new).image next (root_text absent)) }
    ensures quiet { OnOk result (Quiet (D.medium disk.new)) }
    ensures memory { IsErrOf result Stop.OutOfMemory → disk.new ≡ disk.old }
    ensures cause { IsErrOf result Stop.Device → Rose (D.medium disk.old).faults (D.medium disk.new).faults }
    ensures passes { OnOk result ((D.medium disk.new).faults ≡ (D.medium disk.old).faults) }

    // Only slots of the root change, and a stop at any moment leaves the old text or the new one.
    ensures elsewhere { IsTrue D.told
        → Spares (IsNoSlot (place_of cell)) (D.medium disk.old).image
        (D.medium disk.new).image }
    ensures any_moment { IsTrue D.told → Quiet (D.medium disk.old)
        → EachCase (PutStops (place_of cell) (generation_of cell + 1) (root_text absent)
        (D.medium disk.old).image)
        (D.medium disk.old) (D.medium disk.new) }
    ensures written { (D.medium disk.new).written
        ≤ (D.medium disk.old).written + (place_of cell).copies * (root_len [] + 88) }
    ensures time { Elapses (D.medium disk.old) (D.medium disk.new) }
{
    one_root();
    stops_are_lawful();
    let text = write_absent(alloc)?;
    let next = cell.write(alloc, disk, &text)?;
    Ok(next)
}

// The end of a call after which nothing is installed.
fn emptied(cell: Cell) -> Outcome
    ensures { result ≡ record { root = Root.Absent cell; refused = None } }
{
    Outcome {
        root: Root::Absent(cell),
        refused: None,
    }
}
