//! Putting a text into every copy: first where a copy lacks it, then, once that is durable, alone.

ghost use Rattle.std.specs.Prelude.{◌≡◌, ◌≤◌, ◌<◌, IsTrue, OnOk, length};
ghost use Rattle.hash_guard.specs.SealedText.{sealed, max_body};
ghost use Rattle.disk_model.specs.Medium.{Quiet};
ghost use Rattle.guarded_cell.specs.Register.{IsAlone, own, other};
ghost use Rattle.guarded_cell.specs.Slots.{Picks};
ghost use Rattle.guarded_cell.specs.declared.slots.Pick.TheVariants.{Lacking, Verifying};
ghost use Rattle.guarded_cell.specs.Changes.{Brings};
ghost use Rattle.guarded_cell.specs.Differing.{PutsOver};
ghost use Rattle.guarded_cell.specs.Faults.{DiskFaults};

use crate::starts::{put_durably, write_durably};
use disk_model::{Disk, DiskFailed, Place};
use hash_guard::BLANK;

/// Writes a sealed text over the slots of its parity that lack it, makes that durable, and only then blanks the stale
/// slots of the other parity.
pub(crate) fn replace<D: Disk>(
    disk: &mut D,
    place: Place,
    generation: u64,
    text: &[u8],
    sealed_text: &[u8],
    lacking: &[bool],
    stale: &[bool],
) -> Result<(), DiskFailed>
    requires positive { 1 ≤ generation }
    requires short { length text.now ≤ max_body }
    requires text { sealed_text.now ≡ sealed generation text.now }
    requires lacking_flags { place.copies ≤ length lacking.now }
    requires stale_flags { place.copies ≤ length stale.now }
    requires lacking { IsTrue D.told
        → Picks Lacking lacking.now (D.medium disk.old).image place (own generation) generation
        text.now }
    requires stale { IsTrue D.told
        → Picks Verifying stale.now (D.medium disk.old).image place (other generation) generation
        text.now }

    ensures alone { IsTrue D.told → OnOk result (IsAlone (D.medium disk.new).image place generation
        text.now) }
    ensures over { IsTrue D.told → OnOk result (PutsOver place generation lacking.now stale.now sealed_text.now
        (D.medium disk.old).image (D.medium disk.new).image) }
    ensures quiet { OnOk result (Quiet (D.medium disk.new)) }
    ensures brings { Brings D.told place generation text.now (D.medium disk.old) (D.medium disk.new) }
    ensures faults { DiskFaults result (D.medium disk.old) (D.medium disk.new) }
{
    let parity = (generation % 2) as u32;
    put_durably(disk, place, parity, lacking, sealed_text)?;
    write_durably(disk, place, 1 - parity, stale, &BLANK)?;
    Ok(())
}
