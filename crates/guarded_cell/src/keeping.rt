//! Blanking every text but one.

ghost use Rattle.std.specs.Prelude.{◌≡◌, ◌≤◌, IsTrue, OnOk, IsErrOf, length};
ghost use Rattle.disk_model.specs.Medium.{Quiet};
ghost use Rattle.guarded_cell.specs.Register.{IsKeptAlone, own, other};
ghost use Rattle.guarded_cell.specs.Slots.{front, Picks};
ghost use Rattle.guarded_cell.specs.declared.slots.Pick.TheVariants.{Others, Verifying};
ghost use Rattle.guarded_cell.specs.Changes.{Clears};
ghost use Rattle.guarded_cell.specs.Faults.{DiskFaults, CellFaults};

use crate::errors::CellError;
use crate::slots::{Pick, choose, front_room};
use crate::starts::{write_durably, write_starts};
use disk_model::{Disk, DiskFailed, Place};
use hash_guard::BLANK;
use std::alloc::Global;

/// Blanks every slot of the place that verifies, but those of the generation's parity that hold this text under it, and
/// makes that durable. The copies that held the text hold it still.
///
/// # Errors
///
/// `OutOfMemory` comes before any call of the disk. Never `Corrupt`.
pub fn keep_only<D: Disk>(
    alloc: Global,
    disk: &mut D,
    place: Place,
    generation: u64,
    text: &[u8],
) -> Result<(), CellError>
    // Just the copies that held the text hold it, no other slot verifies, and nothing is pending.
    ensures alone { IsTrue D.told → OnOk result
        (IsKeptAlone place generation text.now (D.medium disk.old).image (D.medium disk.new).image) }
    ensures quiet { OnOk result (Quiet (D.medium disk.new)) }

    ensures memory { IsErrOf result CellError.OutOfMemory → disk.new ≡ disk.old }
    ensures never_corrupt { ¬ (IsErrOf result CellError.Corrupt) }
    ensures faults { CellFaults result (D.medium disk.old) (D.medium disk.new) }

    // Only slots of the place change, and none that is clear already: one that holds no other text, or a blank one
    // of the other parity. At any moment the copies that held the text hold it.
    ensures clears { Clears D.told place generation text.now (D.medium disk.old) (D.medium disk.new) }
{
    let mut room = front_room(alloc)?;
    keep_in(disk, place, generation, text, &mut room)?;
    Ok(())
}

// Does what `keep_only` does, in `room`: nothing more is allocated.
fn keep_in<D: Disk>(
    disk: &mut D,
    place: Place,
    generation: u64,
    text: &[u8],
    room: &mut [u8],
) -> Result<(), DiskFailed>
    requires room { length room.old ≡ front }

    ensures alone { IsTrue D.told → OnOk result
        (IsKeptAlone place generation text.now (D.medium disk.old).image (D.medium disk.new).image) }
    ensures quiet { OnOk result (Quiet (D.medium disk.new)) }
    ensures clears { Clears D.told place generation text.now (D.medium disk.old) (D.medium disk.new) }
    ensures faults { DiskFaults result (D.medium disk.old) (D.medium disk.new) }
{
    let parity = (generation % 2) as u32;
    let others = choose(disk, place, parity, Pick::Others, generation, text, room)?;
    let stale = choose(
        disk,
        place,
        1 - parity,
        Pick::Verifying,
        generation,
        text,
        room,
    )?;
    blank_both(disk, place, generation, text, &others, &stale)?;
    Ok(())
}

// Blanks the chosen slots of both parities.
fn blank_both<D: Disk>(
    disk: &mut D,
    place: Place,
    generation: u64,
    text: &[u8],
    others: &[bool],
    stale: &[bool],
) -> Result<(), DiskFailed>
    requires others_flags { place.copies ≤ length others.now }
    requires stale_flags { place.copies ≤ length stale.now }
    requires others { IsTrue D.told
        → Picks Others others.now (D.medium disk.old).image place (own generation) generation
        text.now }
    requires stale { IsTrue D.told
        → Picks Verifying stale.now (D.medium disk.old).image place (other generation) generation
        text.now }

    ensures alone { IsTrue D.told → OnOk result
        (IsKeptAlone place generation text.now (D.medium disk.old).image (D.medium disk.new).image) }
    ensures quiet { OnOk result (Quiet (D.medium disk.new)) }
    ensures clears { Clears D.told place generation text.now (D.medium disk.old) (D.medium disk.new) }
    ensures faults { DiskFaults result (D.medium disk.old) (D.medium disk.new) }
{
    let parity = (generation % 2) as u32;
    write_starts(disk, place, parity, others, &BLANK)?;
    write_durably(disk, place, 1 - parity, stale, &BLANK)?;
    Ok(())
}
