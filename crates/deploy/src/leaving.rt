//! Leaving one of two versions: the previous one is forgotten, or it is active again.

ghost use Rattle.std.specs.Prelude.{◌≡◌, ◌≤◌, ◌<◌, ◌⊎◌, ℕ, List, [], ◌∷◌, Err, IfErr, IfNone, IfOk, IsErrOf, IsOk};
ghost use Rattle.std.specs.Prelude.{IsTrue, None, Ok, OnOk, Result, drop, option_map, take, ◌≢◌};
ghost use Rattle.per_base.specs.Causes.{Rose};
ghost use Rattle.per_base.specs.declared.errors.PerError.{PerError};
ghost use Rattle.disk_model.specs.Medium.{Elapses, Quiet};
ghost use Rattle.guarded_cell.specs.Cells.{CellAt, generation_of};
ghost use Rattle.element_state.specs.States.{greatest_generation};
ghost use Rattle.deploy_laws.specs.Apps.{App, AreClean, IsCleanApp, app_at, app_saying, shapes_named};
ghost use Rattle.deploy_laws.specs.Stands.{StandsThroughout};
ghost use Rattle.deploy_rows.specs.Rows.{AnswersRow, after, finishing, not_busy, not_worn, rolling_back};
ghost use Rattle.deploy.specs.Clauses.{IsNoRootSlot, Leaves};
ghost use Rattle.deploy.specs.Leaving.{IsLone, IsRootRefused, lone_says, refused_or};
ghost use Rattle.deploy.specs.Refusals.{AllocatesNothing};
ghost use Rattle.deploy.specs.Roots.{AreParts, IsRootCell, IsRootOf, RootAt, SaysDeployment, root_app, root_says};
ghost use Rattle.deploy.specs.Roots.{root_texts};
ghost use Rattle.deploy.specs.Written.{WritesRoot};

use crate::errors::Stop;
use crate::installing::worn_out;
use crate::roots::{Installed, Outcome, Root};
use crate::writing::write_version;
use deploy_laws::{deploying_stands, files_lie_apart, others_stand, roots_say, untouched_stands};
use deploy_rows::{rows_lead_on, rows_read_the_root};
use disk_model::Disk;
use guarded_cell::Cell;
use per_base::{Holder, Name, PerError, Unit};
use root_text::{VersionText, one_root};
use std::alloc::Global;

/// Forgets the previous version: the root is written. What its bank holds stays, and nothing names it.
///
/// Refusals, the first that holds: `IntegrityCorrupted` with the root where it is bad; `NotInstalled`;
/// `NoPreviousVersion`; `LimitReached` with `Generations`. They come before any call of the disk and do not allocate.
///
/// # Errors
///
/// `Device` where the disk fails, and `OutOfMemory`: then the root is to be opened again.
pub fn finish<D: Disk>(alloc: Global, disk: &mut D, root: Root) -> Result<Outcome, Stop>
    requires root { (app : ℕ) × (app < 8) × RootAt D.told (D.medium disk.old).image app root }

    // What the row `finishing` says of the application comes: its refusal, which needs no memory, or what the root in
    // memory and the disk then say. Of the two manifests the root keeps the first, that of the active version.
    ensures root { (app : ℕ) → app < 8 → RootAt D.told (D.medium disk.old).image app root
        → IfOk result (λ o. RootAt D.told (D.medium disk.new).image app o.root) }
    ensures refused { IfOk result (λ o. AnswersRow o.refused (finishing (root_app root []))) }
    ensures due { (e : PerError) → finishing (root_app root []) ≡ Err e → IsOk result }
    ensures says { IfOk result (λ o. root_says o.root ≡ (after (root_app root [])
        (finishing (root_app root []))).says) }
    ensures text { IfOk result (λ o. o.refused ≡ None → root_texts o.root ≡ take 1 (root_texts root)) }
    ensures app { IsTrue D.told → (app : ℕ) → app < 8 → RootAt D.told (D.medium disk.old).image app root
        → OnOk result (app_at (D.medium disk.new).image app
        ≡ after (app_at (D.medium disk.old).image app) (finishing (app_at (D.medium disk.old).image app))) }
    // Clean places stay so, and a disk with nothing pending ends with nothing pending.
    ensures clean { IsTrue D.told → (app : ℕ) → app < 8 → RootAt D.told (D.medium disk.old).image app root
        → IsCleanApp app (D.medium disk.old).image → OnOk result (IsCleanApp app (D.medium disk.new).image) }
    ensures quiet { Quiet (D.medium disk.old) → OnOk result (Quiet (D.medium disk.new)) }
    // A refused call changes nothing, and one that the row refuses does not call the disk, so no device fails there.
    ensures unchanged { IfOk result (λ o. o.refused ≢ None → (disk.new ≡ disk.old) × (o.root ≡ root)) }
    ensures early { (e : PerError) → finishing (root_app root []) ≡ Err e → disk.new ≡ disk.old }
    // The count of faults rose where the device failed, and stayed where the call succeeded.
    ensures cause { IsErrOf result Stop.Device → Rose (D.medium disk.old).faults (D.medium disk.new).faults }
    ensures device_only { IsErrOf result Stop.Device → IsOk (finishing (root_app root [])) }
    ensures memory { IsErrOf result Stop.OutOfMemory → disk.new ≡ disk.old }
    ensures passes { OnOk result ((D.medium disk.new).faults ≡ (D.medium disk.old).faults) }

    // Only slots of the root change, and at any moment the application stands as before or as after.
    ensures outside { (app : ℕ) → app < 8 → RootAt D.told (D.medium disk.old).image app root
        → Leaves D.told (IsNoRootSlot app) (D.medium disk.old) (D.medium disk.new) }
    ensures any_moment { IsTrue D.told → (app : ℕ) → app < 8 → RootAt D.told (D.medium disk.old).image app root
        → StandsThroughout app
        (after (app_at (D.medium disk.old).image app) (finishing (app_at (D.medium disk.old).image app)))
        (D.medium disk.old) (D.medium disk.new) }
    // At most the root that comes is written, once.
    ensures written { WritesRoot (take 1 (root_texts root)) (D.medium disk.old) (D.medium disk.new) }
    ensures time { Elapses (D.medium disk.old) (D.medium disk.new) }
{
    roots_say();
    one_root();
    rows_lead_on();
    rows_read_the_root();
    untouched_stands();
    match root.without_previous() {
        Ok(lone) => lone.write(alloc, disk),
        Err(refused) => Ok(refused),
    }
}

/// Makes the previous version active again, as it was when the update began: the root is written. What the bank of the
/// newer version holds stays, and nothing names it.
///
/// Refusals, the first that holds: `IntegrityCorrupted` with the root where it is bad; `NotInstalled`;
/// `NoPreviousVersion`; `ResourceBusy` where `busy` names an open storage; `LimitReached` with `Generations`. They come
/// before any call of the disk.
///
/// # Errors
///
/// `Device` where the disk fails, and `OutOfMemory`: then the root is to be opened again.
pub fn rollback<D: Disk>(
    alloc: Global,
    disk: &mut D,
    root: Root,
    busy: Option<&Name>,
) -> Result<Outcome, Stop>
    requires root { (app : ℕ) × (app < 8) × RootAt D.told (D.medium disk.old).image app root }

    // What the row `rolling_back` says of the application comes: its refusal, or what the root in memory and the disk
    // then say. Of the two manifests the root keeps the second, that of the previous version.
    ensures root { (app : ℕ) → app < 8 → RootAt D.told (D.medium disk.old).image app root
        → IfOk result (λ o. RootAt D.told (D.medium disk.new).image app o.root) }
    ensures refused { IfOk result (λ o. AnswersRow o.refused
        (rolling_back (option_map (λ n. n.now) busy.entry) (root_app root []))) }
    ensures says { IfOk result (λ o. root_says o.root
        ≡ (after (root_app root []) (rolling_back (option_map (λ n. n.now) busy.entry) (root_app root []))).says) }
    ensures text { IfOk result (λ o. o.refused ≡ None → root_texts o.root ≡ drop 1 (root_texts root)) }
    ensures app { IsTrue D.told → (app : ℕ) → app < 8 → RootAt D.told (D.medium disk.old).image app root
        → OnOk result (app_at (D.medium disk.new).image app ≡ after (app_at (D.medium disk.old).image app)
        (rolling_back (option_map (λ n. n.now) busy.entry) (app_at (D.medium disk.old).image app))) }
    // Clean places stay so, and a disk with nothing pending ends with nothing pending.
    ensures clean { IsTrue D.told → (app : ℕ) → app < 8 → RootAt D.told (D.medium disk.old).image app root
        → IsCleanApp app (D.medium disk.old).image → OnOk result (IsCleanApp app (D.medium disk.new).image) }
    ensures quiet { Quiet (D.medium disk.old) → OnOk result (Quiet (D.medium disk.new)) }
    // A refused call changes nothing, and one that the row refuses does not call the disk, so no device fails there.
    ensures unchanged { IfOk result (λ o. o.refused ≢ None → (disk.new ≡ disk.old) × (o.root ≡ root)) }
    ensures early { (e : PerError) → rolling_back (option_map (λ n. n.now) busy.entry) (root_app root []) ≡ Err e
        → disk.new ≡ disk.old }

    // A refusal of the row is given however little memory there is, but where an open storage's name is copied.
    ensures due { (e : PerError) → rolling_back (option_map (λ n. n.now) busy.entry) (root_app root []) ≡ Err e
        → AllocatesNothing e ⊎ (busy.entry ≡ None) → IsOk result }
    // The count of faults rose where the device failed, and stayed where the call succeeded.
    ensures cause { IsErrOf result Stop.Device → Rose (D.medium disk.old).faults (D.medium disk.new).faults }
    ensures device_only { IsErrOf result Stop.Device → IsOk
        (rolling_back (option_map (λ n. n.now) busy.entry) (root_app root [])) }
    ensures memory { IsErrOf result Stop.OutOfMemory → disk.new ≡ disk.old }
    ensures passes { OnOk result ((D.medium disk.new).faults ≡ (D.medium disk.old).faults) }

    // Only slots of the root change, and at any moment the application stands as before or as after.
    ensures outside { (app : ℕ) → app < 8 → RootAt D.told (D.medium disk.old).image app root
        → Leaves D.told (IsNoRootSlot app) (D.medium disk.old) (D.medium disk.new) }
    ensures any_moment { IsTrue D.told → (app : ℕ) → app < 8 → RootAt D.told (D.medium disk.old).image app root
        → StandsThroughout app
        (after (app_at (D.medium disk.old).image app) (rolling_back (option_map (λ n. n.now) busy.entry)
        (app_at (D.medium disk.old).image app)))
        (D.medium disk.old) (D.medium disk.new) }
    // At most the root that comes is written, once.
    ensures written { WritesRoot (drop 1 (root_texts root)) (D.medium disk.old) (D.medium disk.new) }
    ensures time { Elapses (D.medium disk.old) (D.medium disk.new) }
{
    roots_say();
    one_root();
    rows_lead_on();
    rows_read_the_root();
    untouched_stands();
    match root.with_previous(busy)? {
        Ok(lone) => lone.write(alloc, disk),
        Err(refused) => Ok(refused),
    }
}

/// Why a root of this generation is not written: a storage is open, or no generation is left.
pub(crate) fn busy_or_worn(busy: Option<&Name>, generation: u64) -> Result<Option<PerError>, Stop>
    ensures row { (x : Result App PerError) → IfOk result (λ refused.
        not_busy (option_map (λ n. n.now) busy.entry) (not_worn generation x) ≡ refused_or refused x) }
    ensures left { IfOk result (λ refused. IfNone refused (generation < greatest_generation)) }
    ensures due { busy.entry ≡ None → IsOk result }
    ensures memory { ¬ (IsErrOf result Stop.Device) }
{
    if let Some(name) = busy {
        return Ok(Some(is_open(name)?));
    }
    if generation == u64::MAX {
        return Ok(Some(worn_out()));
    }
    Ok(None)
}

/// The storage is open.
pub(crate) fn is_open(storage: &Name) -> Result<PerError, Stop>
    ensures refused { IfOk result (λ e. e ≡ PerError.ResourceBusy (Holder.Storage storage.now)) }
    ensures memory { ¬ (IsErrOf result Stop.Device) }
{
    Ok(PerError::ResourceBusy {
        holder: Holder::Storage(storage.copy()?),
    })
}

/// A version that is to stand alone in its bank, and the register of the root.
#[derive(Drop)]
struct Lone {
    cell: Cell,
    bank: u32,
    version: VersionText,
}

impl Root {
    // The active version without the previous one, or why that is refused.
    fn without_previous(self) -> Result<Lone, Outcome>
        requires { (app : ℕ) × IsRootOf app self }
        ensures lone { IfOk result (IsLone finishing self) }
        ensures text { IfOk result (λ l. l.version.text ∷ [] ≡ take 1 (root_texts self)) }
        ensures refused { IfErr result (IsRootRefused finishing self) }
    {
        match self {
            Root::Bad => Err(Root::Bad.refuses(PerError::IntegrityCorrupted { unit: Unit::Root })),
            Root::Absent(cell) => Err(Root::Absent(cell).refuses(PerError::NotInstalled)),
            Root::Installed(i) => i.without_previous(),
        }
    }

    // The previous version without the active one, or why that is refused.
    fn with_previous(self, busy: Option<&Name>) -> Result<Result<Lone, Outcome>, Stop>
        requires { (app : ℕ) × IsRootOf app self }
        ensures lone { IfOk result (λ left. IfOk left (IsLone (rolling_back (option_map (λ n. n.now) busy.entry))
            self)) }
        ensures text { IfOk result (λ left. IfOk left (λ l. l.version.text ∷ [] ≡ drop 1 (root_texts self))) }
        ensures refused { IfOk result (λ left. IfErr left (IsRootRefused
            (rolling_back (option_map (λ n. n.now) busy.entry))
            self)) }
        ensures due { (e : PerError) → rolling_back (option_map (λ n. n.now) busy.entry) (root_app self []) ≡ Err e
            → AllocatesNothing e ⊎ (busy.entry ≡ None) → IsOk result }
        ensures memory { ¬ (IsErrOf result Stop.Device) }
    {
        match self {
            Root::Bad => Ok(Err(Root::Bad.refuses(PerError::IntegrityCorrupted {
                unit: Unit::Root,
            }))),
            Root::Absent(cell) => Ok(Err(Root::Absent(cell).refuses(PerError::NotInstalled))),
            Root::Installed(i) => i.with_previous(busy),
        }
    }
}

impl Installed {
    // The active version alone. Refused where there is no previous version, or no generation is left.
    fn without_previous(self) -> Result<Lone, Outcome>
        requires { AreParts self }
        ensures lone { IfOk result (IsLone finishing (Root.Installed self)) }
        ensures text { IfOk result (λ l. l.version.text ∷ [] ≡ take 1 (root_texts (Root.Installed self))) }
        ensures refused { IfErr result (IsRootRefused finishing (Root.Installed self)) }
    {
        if self.previous.is_none() {
            return Err(Root::Installed(self).refuses(PerError::NoPreviousVersion));
        }
        if self.cell.generation() == u64::MAX {
            return Err(Root::Installed(self).refuses(worn_out()));
        }
        Ok(Lone {
            cell: self.cell,
            bank: self.bank,
            version: self.active,
        })
    }

    // The previous version alone. Refused where there is none, a storage is open, or no generation is left.
    fn with_previous(self, busy: Option<&Name>) -> Result<Result<Lone, Outcome>, Stop>
        requires { AreParts self }
        ensures lone { IfOk result (λ left. IfOk left (IsLone (rolling_back (option_map (λ n. n.now) busy.entry))
            (Root.Installed self))) }
        ensures text { IfOk result (λ left. IfOk left (λ l. l.version.text ∷ []
            ≡ drop 1 (root_texts (Root.Installed self)))) }
        ensures refused { IfOk result (λ left. IfErr left (IsRootRefused
            (rolling_back (option_map (λ n. n.now) busy.entry))
            (Root.Installed self))) }
        ensures due { (e : PerError) → rolling_back (option_map (λ n. n.now) busy.entry)
            (root_app (Root.Installed self) []) ≡ Err e
            → AllocatesNothing e ⊎ (busy.entry ≡ None) → IsOk result }
        ensures memory { ¬ (IsErrOf result Stop.Device) }
    {
        let Installed {
            cell,
            bank,
            active,
            previous,
        } = self;
        let Some(version) = previous else {
            let root = Root::Installed(Installed {
                cell,
                bank,
                active,
                previous: None,
            });
            return Ok(Err(root.refuses(PerError::NoPreviousVersion)));
        };
        let Some(refused) = busy_or_worn(busy, cell.generation())? else {
            return Ok(Ok(Lone {
                cell,
                bank: 1 - bank,
                version,
            }));
        };
        let root = Root::Installed(Installed {
            cell,
            bank,
            active,
            previous: Some(version),
        });
        Ok(Err(root.refuses(refused)))
    }
}

impl Lone {
    // Writes a root in which this version stands alone.
    fn write<D: Disk>(self, alloc: Global, disk: &mut D) -> Result<Outcome, Stop>
        requires version { SaysDeployment self.version }
        requires bank { self.bank ≤ 1 }
        requires generation { generation_of self.cell < greatest_generation }
        requires held { IsTrue D.told → (text : List ℕ) × CellAt (D.medium disk.old).image self.cell text }

        ensures root { (app : ℕ) → IsRootCell app self.cell
            → IfOk result (λ o. RootAt D.told (D.medium disk.new).image app o.root) }
        ensures says { IfOk result (λ o. root_says o.root ≡ lone_says self) }
        ensures text { IfOk result (λ o. root_texts o.root ≡ self.version.text ∷ []) }
        ensures done { IfOk result (λ o. o.refused ≡ None) }
        ensures app { IsTrue D.told → (app : ℕ) → app < 8 → IsRootCell app self.cell
            → OnOk result (app_at (D.medium disk.new).image app
            ≡ app_saying (D.medium disk.old).image app (lone_says self)) }
        ensures clean { IsTrue D.told → (app : ℕ) → app < 8 → IsRootCell app self.cell
            → AreClean (D.medium disk.old).image (shapes_named app (lone_says self))
            → OnOk result (IsCleanApp app (D.medium disk.new).image) }
        ensures quiet { OnOk result (Quiet (D.medium disk.new)) }
        ensures cause { IsErrOf result Stop.Device → Rose (D.medium disk.old).faults (D.medium disk.new).faults }
        ensures memory { IsErrOf result Stop.OutOfMemory → disk.new ≡ disk.old }
        ensures passes { OnOk result ((D.medium disk.new).faults ≡ (D.medium disk.old).faults) }

        // Only slots of the root change, and at any moment the application stands as before or with this version alone.
        ensures outside { (app : ℕ) → app < 8 → IsRootCell app self.cell
            → Leaves D.told (IsNoRootSlot app) (D.medium disk.old) (D.medium disk.new) }
        ensures any_moment { IsTrue D.told → (app : ℕ) → app < 8 → IsRootCell app self.cell
            → AreClean (D.medium disk.old).image (shapes_named app (lone_says self))
            → StandsThroughout app (app_saying (D.medium disk.old).image app (lone_says self)) (D.medium disk.old)
            (D.medium disk.new) }
        ensures written { (app : ℕ) → IsRootCell app self.cell
            → WritesRoot (self.version.text ∷ []) (D.medium disk.old) (D.medium disk.new) }
        ensures time { Elapses (D.medium disk.old) (D.medium disk.new) }
    {
        roots_say();
        files_lie_apart();
        others_stand();
        deploying_stands();
        one_root();
        let Lone {
            cell,
            bank,
            version,
        } = self;
        let cell = write_version(alloc, disk, cell, bank, &version, None)?;
        Ok(Outcome {
            root: Root::Installed(Installed {
                cell,
                bank,
                active: version,
                previous: None,
            }),
            refused: None,
        })
    }
}
