//! Installing a first version.

ghost use Rattle.std.specs.Prelude.{◌≡◌, ◌≤◌, ◌<◌, ◌+◌, ◌⊎◌, [], ◌∷◌, Err, IfOk, IsErrOf, IsOk, IsTrue, None, Ok, OnOk};
ghost use Rattle.std.specs.Prelude.{drop, length, map, option_map, take, ◌≢◌};
ghost use Rattle.std.specs.Option.{ForSome};
ghost use Rattle.per_base.specs.Causes.{Rose};
ghost use Rattle.per_base.specs.declared.errors.PerError.{PerError};
ghost use Rattle.disk_model.specs.Medium.{Elapses, Quiet};
ghost use Rattle.guarded_cell.specs.Cells.{CellAt, IsCellOf, generation_of};
ghost use Rattle.deployment_model.specs.Data.{deployment_data, storage_data};
ghost use Rattle.element_state.specs.States.{greatest_generation};
ghost use Rattle.root_text.specs.RootText.{IsVersion, installed, root_text};
ghost use Rattle.root_text.specs.Views.{version_said};
ghost use Rattle.update_plan.specs.Plans.{AllFit};
ghost use Rattle.deploy_laws.specs.Apps.{IsCleanApp, app_at};
ghost use Rattle.deploy_laws.specs.Places.{root_place, shapes_from};
ghost use Rattle.deploy_laws.specs.Stands.{StandsThroughout};
ghost use Rattle.deploy_rows.specs.Rows.{AnswersRow, after, initial_all, installed_app, installing};
ghost use Rattle.deploy.specs.Clauses.{IsBesideNext, Leaves};
ghost use Rattle.deploy.specs.Filled.{filled_app};
ghost use Rattle.deploy.specs.Made.{AreMade};
ghost use Rattle.deploy_rows.specs.Costs.{install_cost, making_costs, storages_said};
ghost use Rattle.deploy.specs.Making.{IsBesideMade, RootComesLast, contents_said, making_from};
ghost use Rattle.deploy.specs.Next.{next_app, root_before};
ghost use Rattle.deploy.specs.Refusals.{AllocatesNothing};
ghost use Rattle.deploy.specs.Remaining.{IsBesideCommit};
ghost use Rattle.deploy.specs.Roots.{IsRootCell, RootAt, SaysDeployment, previous_texts, root_app, root_says};
ghost use Rattle.deploy.specs.Roots.{root_texts};
ghost use Rattle.deploy_rows.specs.Costs.{root_cost};

use crate::errors::Stop;
use crate::making::{create_rest, initial_contents};
use crate::roots::{Installed, Outcome, Root};
use crate::writing::{read_version, write_version};
use deploy_laws::{deploying_stands, files_lie_apart, others_stand, roots_say, untouched_stands};
use deploy_rows::{rows_lead_on, rows_read_the_root};
use disk_model::Disk;
use guarded_cell::Cell;
use per_base::{Fresh, Limit, PerError, Sequence, Unit};
use root_text::{VersionText, one_root};
use std::alloc::Global;

/// Installs the version that a manifest describes, at a moment in seconds: its storages are made in bank 0 with their
/// initial contents, and then the root is written.
///
/// Refusals, the first that holds: `IntegrityCorrupted` with the root where it is bad; `AlreadyInstalled`;
/// `ManifestRejected` with the first violated rule; `LimitReached` with `Generations` where the root has none
/// left. They come before any call of the disk.
///
/// # Errors
///
/// `Device` where the disk fails, and `OutOfMemory`: then the root is to be opened again.
pub fn install<D: Disk>(
    alloc: Global,
    disk: &mut D,
    app: u32,
    root: Root,
    manifest: &[u8],
    now: u64,
) -> Result<Outcome, Stop>
    requires app { app < 8 }
    requires root { RootAt D.told (D.medium disk.old).image app root }

    // What the row `installing` says of the application comes: its refusal, or what the root in memory and the disk
    // then say. The root has the text of the manifest.
    ensures root { IfOk result (λ o. RootAt D.told (D.medium disk.new).image app o.root) }
    ensures refused { IfOk result (λ o. AnswersRow o.refused (installing now manifest.now (root_app root []))) }
    ensures says { IfOk result (λ o. root_says o.root ≡ (after (root_app root [])
        (installing now manifest.now (root_app root []))).says) }
    ensures text { IfOk result (λ o. o.refused ≡ None → root_texts o.root ≡ manifest.now ∷ []) }
    ensures app { IsTrue D.told → OnOk result (app_at (D.medium disk.new).image app
        ≡ after (app_at (D.medium disk.old).image app) (installing now manifest.now
        (app_at (D.medium disk.old).image app))) }
    // The places are clean afterwards, of a refused call if they were so before.
    ensures clean { IsTrue D.told → IfOk result (λ o. (o.refused ≡ None) ⊎ IsCleanApp app (D.medium disk.old).image
        → IsCleanApp app (D.medium disk.new).image) }
    ensures quiet { Quiet (D.medium disk.old) → OnOk result (Quiet (D.medium disk.new)) }
    // A refused call changes nothing, one that the row refuses does not call the disk, and one that allocates nothing
    // is refused also where memory ran out. So the device fails only where the row has no refusal.
    ensures unchanged { IfOk result (λ o. o.refused ≢ None → (disk.new ≡ disk.old) × (o.root ≡ root)) }
    ensures early { (e : PerError) → installing now manifest.now (root_app root []) ≡ Err e → disk.new ≡ disk.old }
    ensures due { (e : PerError) → installing now manifest.now (root_app root []) ≡ Err e → AllocatesNothing e
        → IsOk result }
    // The count of faults rose where the device failed, and stayed where the call succeeded or memory ran out.
    ensures cause { IsErrOf result Stop.Device → Rose (D.medium disk.old).faults (D.medium disk.new).faults }
    ensures device_only { IsErrOf result Stop.Device → IsOk (installing now manifest.now (root_app root [])) }
    ensures passes { OnOk result ((D.medium disk.new).faults ≡ (D.medium disk.old).faults) }
    ensures fed { IsErrOf result Stop.OutOfMemory → (D.medium disk.new).faults ≡ (D.medium disk.old).faults }

    // Only slots of the root and files of the manifest's storages in bank 0 change, and at any moment the application
    // stands as before or as after.
    ensures outside { Leaves D.told (IsBesideNext app 0) (D.medium disk.old) (D.medium disk.new) }
    ensures places { Leaves D.told (IsBesideMade app (shapes_from app 0 0 (storages_said manifest.now)))
        (D.medium disk.old) (D.medium disk.new) }
    // No more is written than these storages cost, and then the root.
    ensures written { (D.medium disk.new).written ≤ (D.medium disk.old).written + install_cost now manifest.now }
    // The storages come first, and then the root, which is written once.
    ensures last { RootComesLast D.medium D.told app
        (making_from app 0 0 (storages_said manifest.now) (contents_said now manifest.now) (manifest.now ∷ []))
        disk.old disk.new }
    ensures any_moment { IsTrue D.told → StandsThroughout app
        (after (app_at (D.medium disk.old).image app) (installing now manifest.now
        (app_at (D.medium disk.old).image app)))
        (D.medium disk.old) (D.medium disk.new) }
    ensures time { Elapses (D.medium disk.old) (D.medium disk.new) }
{
    rows_lead_on();
    rows_read_the_root();
    one_root();
    roots_say();
    untouched_stands();
    match root {
        Root::Bad => Ok(Root::Bad.refuses(PerError::IntegrityCorrupted { unit: Unit::Root })),
        Root::Installed(i) => Ok(Root::Installed(i).refuses(PerError::AlreadyInstalled)),
        Root::Absent(cell) => install_first(alloc, disk, app, cell, manifest, now),
    }
}

// Installs over a root that says that nothing is installed.
fn install_first<D: Disk>(
    alloc: Global,
    disk: &mut D,
    app: u32,
    cell: Cell,
    manifest: &[u8],
    now: u64,
) -> Result<Outcome, Stop>
    requires app { app < 8 }
    requires root { RootAt D.told (D.medium disk.old).image app (Root.Absent cell) }

    ensures root { IfOk result (λ o. RootAt D.told (D.medium disk.new).image app o.root) }
    ensures refused { IfOk result (λ o. AnswersRow o.refused
        (installing now manifest.now (root_app (Root.Absent cell) []))) }
    ensures says { IfOk result (λ o. root_says o.root
        ≡ (after (root_app (Root.Absent cell) []) (installing now manifest.now
        (root_app (Root.Absent cell) []))).says) }
    ensures text { IfOk result (λ o. o.refused ≡ None → root_texts o.root ≡ manifest.now ∷ []) }
    ensures app { IsTrue D.told → OnOk result (app_at (D.medium disk.new).image app
        ≡ after (app_at (D.medium disk.old).image app) (installing now manifest.now
        (app_at (D.medium disk.old).image app))) }
    ensures clean { IsTrue D.told → IfOk result (λ o. (o.refused ≡ None) ⊎ IsCleanApp app (D.medium disk.old).image
        → IsCleanApp app (D.medium disk.new).image) }
    ensures quiet { Quiet (D.medium disk.old) → OnOk result (Quiet (D.medium disk.new)) }
    ensures unchanged { IfOk result (λ o. o.refused ≢ None
        → (disk.new ≡ disk.old) × (o.root ≡ Root.Absent cell)) }
    ensures early { (e : PerError) → installing now manifest.now (root_app (Root.Absent cell) []) ≡ Err e
        → disk.new ≡ disk.old }
    ensures cause { IsErrOf result Stop.Device → Rose (D.medium disk.old).faults (D.medium disk.new).faults }
    ensures device_only { IsErrOf result Stop.Device → IsOk
        (installing now manifest.now (root_app (Root.Absent cell) [])) }
    ensures passes { OnOk result ((D.medium disk.new).faults ≡ (D.medium disk.old).faults) }
    ensures fed { IsErrOf result Stop.OutOfMemory → (D.medium disk.new).faults ≡ (D.medium disk.old).faults }
    ensures outside { Leaves D.told (IsBesideNext app 0) (D.medium disk.old) (D.medium disk.new) }
    ensures places { Leaves D.told (IsBesideMade app (shapes_from app 0 0 (storages_said manifest.now)))
        (D.medium disk.old) (D.medium disk.new) }
    ensures written { (D.medium disk.new).written ≤ (D.medium disk.old).written + install_cost now manifest.now }
    ensures last { RootComesLast D.medium D.told app
        (making_from app 0 0 (storages_said manifest.now) (contents_said now manifest.now) (manifest.now ∷ []))
        disk.old disk.new }
    ensures any_moment { IsTrue D.told → StandsThroughout app
        (after (app_at (D.medium disk.old).image app) (installing now manifest.now
        (app_at (D.medium disk.old).image app)))
        (D.medium disk.old) (D.medium disk.new) }
    ensures time { Elapses (D.medium disk.old) (D.medium disk.new) }
{
    rows_lead_on();
    rows_read_the_root();
    one_root();
    roots_say();
    untouched_stands();
    let version = match read_version(alloc, manifest)? {
        Ok(version) => version,
        Err(rejected) => return Ok(Root::Absent(cell).refuses(rejected)),
    };
    if cell.generation() == u64::MAX {
        return Ok(Root::Absent(cell).refuses(worn_out()));
    }
    install_version(alloc, disk, app, cell, version, now)
}

// Installs a version where nothing is installed.
fn install_version<D: Disk>(
    alloc: Global,
    disk: &mut D,
    app: u32,
    cell: Cell,
    version: VersionText,
    now: u64,
) -> Result<Outcome, Stop>
    requires app { app < 8 }
    requires root { RootAt D.told (D.medium disk.old).image app (Root.Absent cell) }
    requires not_worn { generation_of cell < greatest_generation }
    requires version { SaysDeployment version }

    ensures root { IfOk result (λ o. RootAt D.told (D.medium disk.new).image app o.root) }
    ensures installed { IfOk result (λ o. o.refused ≡ None) }
    ensures says { IfOk result (λ o. root_says o.root ≡ (installed_app (generation_of cell) now
        (deployment_data version.deployment)).says) }
    ensures text { IfOk result (λ o. root_texts o.root ≡ version.text ∷ []) }
    ensures app { IsTrue D.told → OnOk result
        (app_at (D.medium disk.new).image app ≡ installed_app (generation_of cell) now
        (deployment_data version.deployment)) }
    ensures clean { IsTrue D.told → OnOk result (IsCleanApp app (D.medium disk.new).image) }
    ensures quiet { OnOk result (Quiet (D.medium disk.new)) }
    ensures cause { IsErrOf result Stop.Device → Rose (D.medium disk.old).faults (D.medium disk.new).faults }
    ensures passes { OnOk result ((D.medium disk.new).faults ≡ (D.medium disk.old).faults) }
    ensures fed { IsErrOf result Stop.OutOfMemory → (D.medium disk.new).faults ≡ (D.medium disk.old).faults }
    ensures outside { Leaves D.told (IsBesideNext app 0) (D.medium disk.old) (D.medium disk.new) }
    ensures places { Leaves D.told (IsBesideMade app
        (shapes_from app 0 0 (map storage_data version.deployment.storages)))
        (D.medium disk.old) (D.medium disk.new) }
    ensures written { (D.medium disk.new).written ≤ (D.medium disk.old).written
        + (making_costs (map storage_data version.deployment.storages)
        (initial_all now (deployment_data version.deployment)) + root_cost (version.text ∷ [])) }
    ensures last { RootComesLast D.medium D.told app
        (making_from app 0 0 (map storage_data version.deployment.storages)
        (initial_all now (deployment_data version.deployment)) (version.text ∷ []))
        disk.old disk.new }
    ensures any_moment { IsTrue D.told → StandsThroughout app
        (installed_app (generation_of cell) now (deployment_data version.deployment))
        (D.medium disk.old) (D.medium disk.new) }
    ensures time { Elapses (D.medium disk.old) (D.medium disk.new) }
{
    one_root();
    roots_say();
    untouched_stands();
    let contents = initial_contents(alloc, &version.deployment, now)?;
    let root = install_filled(alloc, disk, app, cell, version, &contents)?;
    Ok(Outcome {
        root,
        refused: None,
    })
}

/// Installs a version where nothing is installed, with these contents of its storages in place of the initial ones: the
/// storages are made in bank 0, and then the root is written.
///
/// # Errors
///
/// `Device` where the disk fails, and `OutOfMemory`: then the root is to be opened again.
pub fn install_filled<D: Disk>(
    alloc: Global,
    disk: &mut D,
    app: u32,
    cell: Cell,
    version: VersionText,
    contents: &[Sequence<Fresh>],
) -> Result<Root, Stop>
    requires app { app < 8 }
    requires root { RootAt D.told (D.medium disk.old).image app (Root.Absent cell) }
    requires not_worn { generation_of cell < greatest_generation }
    requires version { SaysDeployment version }
    requires fit { AllFit (map storage_data version.deployment.storages) contents.now }

    // The root that comes, and the disk, say the version in bank 0, its storages with these contents.
    ensures root { IfOk result (RootAt D.told (D.medium disk.new).image app) }
    ensures says { IfOk result (λ root. root_says root ≡ (filled_app (generation_of cell)
        (deployment_data version.deployment) contents.now).says) }
    ensures text { IfOk result (λ root. root_texts root ≡ version.text ∷ []) }
    ensures app { IsTrue D.told → OnOk result
        (app_at (D.medium disk.new).image app ≡ filled_app (generation_of cell)
        (deployment_data version.deployment) contents.now) }
    ensures clean { IsTrue D.told → OnOk result (IsCleanApp app (D.medium disk.new).image) }
    ensures quiet { OnOk result (Quiet (D.medium disk.new)) }
    // The count of faults rose where the device failed, and stayed where the call succeeded or memory ran out.
    ensures cause { IsErrOf result Stop.Device → Rose (D.medium disk.old).faults (D.medium disk.new).faults }
    ensures passes { OnOk result ((D.medium disk.new).faults ≡ (D.medium disk.old).faults) }
    ensures fed { IsErrOf result Stop.OutOfMemory → (D.medium disk.new).faults ≡ (D.medium disk.old).faults }

    // Only slots of the root and files of these storages in bank 0 change, and at any moment nothing is installed or
    // the whole version, filled.
    ensures outside { Leaves D.told (IsBesideNext app 0) (D.medium disk.old) (D.medium disk.new) }
    ensures places { Leaves D.told (IsBesideMade app
        (shapes_from app 0 0 (map storage_data version.deployment.storages)))
        (D.medium disk.old) (D.medium disk.new) }
    // No more is written than these storages cost, and then the root.
    ensures written { (D.medium disk.new).written ≤ (D.medium disk.old).written
        + (making_costs (map storage_data version.deployment.storages) contents.now + root_cost (version.text ∷ [])) }
    // The storages come first, and then the root, which is written once.
    ensures last { RootComesLast D.medium D.told app
        (making_from app 0 0 (map storage_data version.deployment.storages) contents.now (version.text ∷ []))
        disk.old disk.new }
    ensures any_moment { IsTrue D.told → StandsThroughout app
        (filled_app (generation_of cell) (deployment_data version.deployment) contents.now)
        (D.medium disk.old) (D.medium disk.new) }
    ensures time { Elapses (D.medium disk.old) (D.medium disk.new) }
{
    one_root();
    roots_say();
    let cell = make_version(alloc, disk, app, cell, 0, &version, None, contents, 0)?;
    Ok(Root::Installed(Installed {
        cell,
        bank: 0,
        active: version,
        previous: None,
    }))
}

/// Makes the storages of the next version, from the one with number `built` on, in a bank in which no version is, and
/// then writes the root: that version is active, and the one before it, if there is one, is in the other bank as it
/// was.
pub(crate) fn make_version<D: Disk>(
    alloc: Global,
    disk: &mut D,
    app: u32,
    cell: Cell,
    bank: u32,
    version: &VersionText,
    previous: Option<&VersionText>,
    contents: &[Sequence<Fresh>],
    built: u32,
) -> Result<Cell, Stop>
    requires app { app < 8 }
    requires bank { bank ≤ 1 }
    requires cell { IsRootCell app cell }
    requires not_worn { generation_of cell < greatest_generation }
    requires version { SaysDeployment version.now }
    requires previous { ForSome previous (λ v. IsVersion (version_said v.now)) }
    requires fit { AllFit (map storage_data version.now.deployment.storages) contents.now }
    requires within { built ≤ length contents.now }
    requires held { IsTrue D.told
        → CellAt (D.medium disk.old).image cell (root_text
        (root_before bank (option_map (λ v. version_said v.now) previous))) }
    requires made { IsTrue D.told → AreMade (D.medium disk.old).image
        (take built (shapes_from app bank 0 (map storage_data version.now.deployment.storages)))
        (take built contents.now) }

    ensures next { IfOk result (IsCellOf (root_place app) (generation_of cell + 1)) }
    ensures held { IsTrue D.told → IfOk result (λ next. CellAt (D.medium disk.new).image next
        (root_text (installed bank (version_said version.now) (option_map (λ v. version_said v.now) previous.entry)))) }
    ensures app { IsTrue D.told → OnOk result (app_at (D.medium disk.new).image app
        ≡ next_app (generation_of cell + 1) bank (version_said version.now)
        (option_map (λ v. version_said v.now) previous.entry) contents.now
        (app_at (D.medium disk.old).image app)) }
    ensures clean { IsTrue D.told → (option_map (λ v. version_said v.now) previous.entry ≡ None)
        ⊎ IsCleanApp app (D.medium disk.old).image
        → OnOk result (IsCleanApp app (D.medium disk.new).image) }
    ensures quiet { OnOk result (Quiet (D.medium disk.new)) }
    ensures cause { IsErrOf result Stop.Device → Rose (D.medium disk.old).faults (D.medium disk.new).faults }
    ensures passes { OnOk result ((D.medium disk.new).faults ≡ (D.medium disk.old).faults) }
    ensures fed { IsErrOf result Stop.OutOfMemory → (D.medium disk.new).faults ≡ (D.medium disk.old).faults }

    // Only slots of the root and files of the storages that remain change, and at any moment the application stands as
    // before or as after.
    ensures outside { Leaves D.told (IsBesideCommit app bank built (length contents.now)) (D.medium disk.old)
        (D.medium disk.new) }
    ensures places { Leaves D.told (IsBesideMade app
        (drop built (shapes_from app bank 0 (map storage_data version.now.deployment.storages))))
        (D.medium disk.old) (D.medium disk.new) }
    // No more is written than they cost, and then the root.
    ensures written { (D.medium disk.new).written ≤ (D.medium disk.old).written
        + (making_costs (drop built (map storage_data version.now.deployment.storages)) (drop built contents.now)
        + root_cost (version.now.text ∷ previous_texts (option_map (λ v. v.now) previous.entry))) }
    // The storages come first, and then the root, which is written once.
    ensures last { RootComesLast D.medium D.told app
        (making_from app bank built (map storage_data version.now.deployment.storages) contents.now
        (version.now.text ∷ previous_texts (option_map (λ v. v.now) previous.entry)))
        disk.old disk.new }
    ensures any_moment { IsTrue D.told → StandsThroughout app
        (next_app (generation_of cell + 1) bank (version_said version.now)
        (option_map (λ v. version_said v.now) previous.entry) contents.now
        (app_at (D.medium disk.old).image app))
        (D.medium disk.old) (D.medium disk.new) }
    ensures time { Elapses (D.medium disk.old) (D.medium disk.new) }
{
    one_root();
    roots_say();
    files_lie_apart();
    others_stand();
    deploying_stands();
    create_rest(alloc, disk, app, bank, built, &version.deployment, contents)?;
    write_version(alloc, disk, cell, bank, version, previous)
}

/// No generation is left.
pub(crate) fn worn_out() -> PerError
    ensures { result ≡ PerError.LimitReached Limit.Generations }
{
    PerError::LimitReached {
        which: Limit::Generations,
    }
}
