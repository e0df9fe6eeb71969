//! Recovering a root.

ghost use Rattle.std.specs.Prelude.{◌≡◌, ◌<◌, ◌≤◌, ◌+◌, IfOk, IsErrOf, IsTrue, OnOk, length};
ghost use Rattle.per_base.specs.Causes.{Rose};
ghost use Rattle.disk_model.specs.Frame.{Spares};
ghost use Rattle.disk_model.specs.Medium.{EachCase, Elapses, Quiet};
ghost use Rattle.disk_model.specs.Place.{IsNoSlot};
ghost use Rattle.guarded_cell.specs.Register.{IsAlone};
ghost use Rattle.guarded_cell.specs.Seens.{IsSealable, IsSeenOn};
ghost use Rattle.guarded_cell.specs.Slots.{IsSlotsOf};
ghost use Rattle.guarded_cell.specs.Stops.{PutStops};
ghost use Rattle.deploy_laws.specs.Places.{root_place};
ghost use Rattle.deploy_laws.specs.Stands.{ChangesNothing};
ghost use Rattle.root_recovery.specs.Clauses.{IsRecovered, LeavesAll, RecoveryKeeps};
ghost use Rattle.root_recovery.specs.Clauses.{RecoveryKeepsSynced};
ghost use Rattle.root_recovery.specs.Recoveries.{IsRefused, most_written, row_answered};

use crate::choosing::{Choice, choose};
use crate::errors::RecoveryError;
use deploy_laws::{
    files_lie_apart, others_stand, root_place, roots_say, roots_stay, untouched_stands,
};
use disk_model::Disk;
use element_laws::untouched_is_kept;
use guarded_cell::{Looked, Seen, Slots, adopt_seen, held_is_lawful, look};
use per_base::Numbers;
use root_text::{RootSays, one_root};
use std::alloc::Global;

/// A root that was recovered.
#[derive(Debug, Drop)]
pub struct Recovered {
    /// The generation of its text.
    pub generation: u64,
    /// What it says.
    pub says: RootSays,
    /// The copies that held it, counted from 1 and ascending.
    pub copies: Numbers,
}

/// The outcome of a recovery.
#[derive(Debug, Drop)]
pub enum Recovery {
    /// The root reads, and nothing was changed.
    Reads,
    /// No copy holds a root, and nothing was changed.
    NoneLeft,
    /// Every copy holds this root now.
    Taken(Recovered),
}

/// Recovers the root of an application that cannot be read: of the roots that copies hold it takes the one of the
/// greatest generation, at one generation the one whose first copy is lowest, and brings every copy to it. Where the
/// root reads (the text that two copies hold says one), or no copy holds one, nothing is changed. It begins with a
/// sync.
///
/// # Errors
///
/// `Device` where the disk fails, and `OutOfMemory`, before which nothing was changed.
pub fn recover_root<D: Disk>(
    alloc: Global,
    disk: &mut D,
    app: u32,
) -> Result<Recovery, RecoveryError>
    requires { app < 8 }
    // Which root is taken, or why none is, is as `recovery_at` has it of the disk before; the application then is what
    // that root says, with its storages as they were.
    ensures ended { IsTrue D.told → IfOk result (λ recovery.
        IsRecovered app (row_answered recovery) (D.medium disk.old).image (D.medium disk.new).image) }
    // Where no root is taken, or memory ran out, nothing is changed.
    ensures refused { IfOk result (λ recovery. IsRefused (row_answered recovery)
        → LeavesAll (D.medium disk.old) (D.medium disk.new)) }
    ensures memory { IsErrOf result RecoveryError.OutOfMemory
        → ((D.medium disk.new).image ≡ (D.medium disk.old).image)
        × ((D.medium disk.new).written ≡ (D.medium disk.old).written) }
    ensures quiet { OnOk result (Quiet (D.medium disk.new)) }
    // The count of faults rose where the device failed, and stayed where the call succeeded or memory ran out.
    ensures cause { IsErrOf result RecoveryError.Device → Rose (D.medium disk.old).faults (D.medium disk.new).faults }
    ensures passes { OnOk result ((D.medium disk.new).faults ≡ (D.medium disk.old).faults) }
    ensures fed { IsErrOf result RecoveryError.OutOfMemory → (D.medium disk.new).faults ≡ (D.medium disk.old).faults }
    // However it ends, only slots of the root change, at any moment, and the application is as it was or recovered. At
    // most a root's text with its header and one blank, 44 zeros, are written into each of the three copies.
    ensures keeps { IsTrue D.told → RecoveryKeeps app (D.medium disk.old) (D.medium disk.new) }
    ensures written { (D.medium disk.new).written ≤ (D.medium disk.old).written + most_written }
    ensures time { Elapses (D.medium disk.old) (D.medium disk.new) }
{
    if disk.sync().is_err() {
        return Err(RecoveryError::Device);
    }
    recover_synced(alloc, disk, app)
}

// The same without the sync.
fn recover_synced<D: Disk>(alloc: Global, disk: &mut D, app: u32) -> Result<Recovery, RecoveryError>
    requires { app < 8 }
    ensures ended { IsTrue D.told → IfOk result (λ recovery.
        IsRecovered app (row_answered recovery) (D.medium disk.old).image (D.medium disk.new).image) }
    ensures refused { IfOk result (λ recovery. IsRefused (row_answered recovery)
        → ChangesNothing (D.medium disk.old) (D.medium disk.new)) }
    ensures memory { IsErrOf result RecoveryError.OutOfMemory
        → ((D.medium disk.new).image ≡ (D.medium disk.old).image)
        × ((D.medium disk.new).written ≡ (D.medium disk.old).written) }
    ensures quiet { OnOk result (Quiet (D.medium disk.new)) }
    ensures cause { IsErrOf result RecoveryError.Device → Rose (D.medium disk.old).faults (D.medium disk.new).faults }
    ensures passes { OnOk result ((D.medium disk.new).faults ≡ (D.medium disk.old).faults) }
    ensures fed { IsErrOf result RecoveryError.OutOfMemory → (D.medium disk.new).faults ≡ (D.medium disk.old).faults }
    ensures keeps { IsTrue D.told → RecoveryKeepsSynced app (D.medium disk.old) (D.medium disk.new) }
    ensures written { (D.medium disk.new).written ≤ (D.medium disk.old).written + most_written }
    ensures time { Elapses (D.medium disk.old) (D.medium disk.new) }
{
    roots_say();
    roots_stay();
    files_lie_apart();
    others_stand();
    untouched_stands();
    untouched_is_kept();
    held_is_lawful();
    one_root();
    let Looked { seens, slots } = look(alloc, disk, root_place(app))?;
    match choose(alloc, &seens)? {
        Choice::Reads => Ok(Recovery::Reads),
        Choice::NoneLeft => Ok(Recovery::NoneLeft),
        Choice::Takes(seen, recovered) => {
            bring(alloc, disk, app, seen, slots)?;
            Ok(Recovery::Taken(recovered))
        }
    }
}

// Brings every copy of the root to a text that was seen, which is that of this root.
fn bring<D: Disk>(
    alloc: Global,
    disk: &mut D,
    app: u32,
    seen: &Seen,
    slots: Slots,
) -> Result<(), RecoveryError>
    requires app { app < 8 }
    requires sealable { IsSealable seen.now }
    requires short { length seen.now.text ≤ 131084 }
    requires seen { IsTrue D.told → IsSeenOn (D.medium disk.old).image (root_place app) seen.now }
    requires slots { IsTrue D.told → IsSlotsOf (D.medium disk.old).image (root_place app) slots }

    ensures alone { IsTrue D.told → OnOk result (IsAlone (D.medium disk.new).image (root_place app) seen.now.generation
        seen.now.text) }
    ensures quiet { OnOk result (Quiet (D.medium disk.new)) }
    ensures memory { IsErrOf result RecoveryError.OutOfMemory → disk.new ≡ disk.old }
    ensures cause { IsErrOf result RecoveryError.Device → Rose (D.medium disk.old).faults (D.medium disk.new).faults }
    ensures passes { OnOk result ((D.medium disk.new).faults ≡ (D.medium disk.old).faults) }

    // Only slots of the root change. A stop at any moment leaves every copy what it held or every copy the text.
    ensures elsewhere { IsTrue D.told
        → Spares (IsNoSlot (root_place app)) (D.medium disk.old).image (D.medium disk.new).image }
    ensures any_moment { IsTrue D.told → Quiet (D.medium disk.old)
        → EachCase (PutStops (root_place app) seen.now.generation seen.now.text (D.medium disk.old).image)
        (D.medium disk.old) (D.medium disk.new) }
    ensures written { (D.medium disk.new).written ≤ (D.medium disk.old).written + most_written }
    ensures time { Elapses (D.medium disk.old) (D.medium disk.new) }
{
    adopt_seen(alloc, disk, root_place(app), seen, slots)?;
    Ok(())
}
