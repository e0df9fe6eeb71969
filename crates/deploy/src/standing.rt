//! What stands in the place of a root, found without a change.

ghost use Rattle.std.specs.Prelude.{◌≡◌, ◌<◌, IfOk, IfSome, IsErrOf, IsTrue, OnOk};
ghost use Rattle.std.specs.List.{All};
ghost use Rattle.per_base.specs.Causes.{Rose};
ghost use Rattle.disk_model.specs.Medium.{Elapses, IsIdle, Quiet};
ghost use Rattle.guarded_cell.specs.Held.{held};
ghost use Rattle.guarded_cell.specs.Seens.{IsSealable};
ghost use Rattle.guarded_cell.specs.Slots.{IsSlotsOf};
ghost use Rattle.deploy_laws.specs.Places.{root_place};
ghost use Rattle.deploy.specs.Standing.{IfSpelled, IsFoundAmong};

use crate::errors::Stop;
use deploy_laws::root_place;
use disk_model::Disk;
use guarded_cell::{Looked, Seen, Slots, look, standing_among};
use root_text::{RootError, RootSays, read_root};
use std::alloc::Global;

/// The text that two copies of a root hold, and the root that it says.
#[derive(Drop)]
pub(crate) struct Standing {
    pub(crate) seen: Seen,
    /// Which slots of the root hold a text.
    pub(crate) slots: Slots,
    pub(crate) says: RootSays,
    /// Whether no copy holds any other text.
    pub(crate) sole: bool,
}

/// Looks for the root of an application and changes nothing. Where no two copies hold one text, or what they hold is no
/// root's, there is none.
pub(crate) fn find_standing<D: Disk>(
    alloc: Global,
    disk: &mut D,
    app: u32,
) -> Result<Option<Standing>, Stop>
    requires { app < 8 }
    ensures among { IsTrue D.told → IfOk result (IsFoundAmong (held (D.medium disk.old).image (root_place app))) }
    ensures slots { IsTrue D.told → IfOk result (λ found. IfSome found (λ s.
        IsSlotsOf (D.medium disk.old).image (root_place app) s.slots)) }
    ensures spelled { IfOk result IfSpelled }
    ensures quiet { OnOk result (Quiet (D.medium disk.new)) }
    ensures image { (D.medium disk.new).image ≡ (D.medium disk.old).image }
    ensures idle { Quiet (D.medium disk.old) → IsIdle (D.medium disk.old) (D.medium disk.new) }
    ensures written { (D.medium disk.new).written ≡ (D.medium disk.old).written }
    ensures cause { IsErrOf result Stop.Device → Rose (D.medium disk.old).faults (D.medium disk.new).faults }
    ensures passes { OnOk result ((D.medium disk.new).faults ≡ (D.medium disk.old).faults) }
    ensures fed { IsErrOf result Stop.OutOfMemory → (D.medium disk.new).faults ≡ (D.medium disk.old).faults }
    ensures time { Elapses (D.medium disk.old) (D.medium disk.new) }
{
    let Looked { seens, slots } = look(alloc, disk, root_place(app))?;
    let found = root_among(alloc, seens, slots)?;
    Ok(found)
}

// The first of the texts that two copies hold, where it says a root.
fn root_among(alloc: Global, seens: Vec<Seen>, slots: Slots) -> Result<Option<Standing>, Stop>
    requires { All IsSealable seens.items }
    ensures among { IfOk result (IsFoundAmong seens.items) }
    ensures slots { IfOk result (λ found. IfSome found (λ s. s.slots ≡ slots)) }
    ensures spelled { IfOk result IfSpelled }
    ensures memory { ¬ (IsErrOf result Stop.Device) }
{
    let sole = seens.len() <= 1;
    let Some(seen) = standing_among(seens, 2) else {
        return Ok(None);
    };
    match read_root(alloc, seen.text.as_slice()) {
        Ok(says) => Ok(Some(Standing {
            seen,
            slots,
            says,
            sole,
        })),
        Err(RootError::NotARoot) => Ok(None),
        Err(RootError::OutOfMemory) => Err(Stop::OutOfMemory),
    }
}
