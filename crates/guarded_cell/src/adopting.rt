//! Bringing every copy to a text that the caller chose.

ghost use Rattle.std.specs.Prelude.{◌≡◌, ◌≤◌, ◌<◌, IsTrue, IfOk, OnOk, IsErrOf, length};
ghost use Rattle.hash_guard.specs.SealedText.{max_body, sealed};
ghost use Rattle.disk_model.specs.Medium.{Quiet};
ghost use Rattle.guarded_cell.specs.Register.{own, IsAlone};
ghost use Rattle.guarded_cell.specs.Slots.{front, Picks, IsSlotsOf};
ghost use Rattle.guarded_cell.specs.Seens.{IsSealable, IsSeenOn};
ghost use Rattle.guarded_cell.specs.declared.slots.Pick.TheVariants.{Lacking};
ghost use Rattle.guarded_cell.specs.Cells.{CellAt, IsCellOf};
ghost use Rattle.guarded_cell.specs.Changes.{Brings};
ghost use Rattle.guarded_cell.specs.Faults.{DiskFaults, CellFaults};

use crate::cell::Cell;
use crate::errors::CellError;
use crate::looking::Seen;
use crate::replacing::replace;
use crate::slots::{Pick, Slots, all_but, choose, front_room};
use disk_model::{Disk, DiskFailed, Place};
use hash_guard::seal;
use std::alloc::Global;

/// Brings every copy of the place to this text under this generation: it is written where a copy lacks it, which is
/// made durable, and then every other slot that verifies is blanked, which is made durable too. It gives the register
/// in use.
///
/// # Errors
///
/// `OutOfMemory` comes before any call of the disk. Never `Corrupt`.
pub fn adopt<D: Disk>(
    alloc: Global,
    disk: &mut D,
    place: Place,
    generation: u64,
    text: &[u8],
) -> Result<Cell, CellError>
    requires positive { 1 ≤ generation }
    requires short { length text.now ≤ max_body }

    // The register is in use at this place and generation, every copy holds the text alone, and nothing is pending.
    ensures cell { IfOk result (IsCellOf place generation) }
    ensures held { IsTrue D.told → IfOk result (λ cell. CellAt (D.medium disk.new).image cell text.now) }
    ensures quiet { OnOk result (Quiet (D.medium disk.new)) }

    ensures memory { IsErrOf result CellError.OutOfMemory → disk.new ≡ disk.old }
    ensures never_corrupt { ¬ (IsErrOf result CellError.Corrupt) }
    ensures faults { CellFaults result (D.medium disk.old) (D.medium disk.new) }

    // Only slots of the place change, and none that is right already: one that holds the text, or a blank one of the
    // other parity. Where every copy holds the text alone, nothing is written. A stop at any moment leaves every copy
    // what it held or every copy the text.
    ensures brings { Brings D.told place generation text.now (D.medium disk.old) (D.medium disk.new) }
{
    let sealed_text = seal(alloc, generation, text)?;
    let mut room = front_room(alloc)?;
    adopt_in(disk, place, generation, text, &sealed_text, &mut room)?;
    Ok(Cell::new(place, generation))
}

/// The same as [`adopt`], for a text that [`look`](crate::look) saw among the copies, and the slots that it gave with
/// it, on a disk that has not changed since: it reads nothing.
///
/// # Errors
///
/// `OutOfMemory` comes before any call of the disk. Never `Corrupt`.
pub fn adopt_seen<D: Disk>(
    alloc: Global,
    disk: &mut D,
    place: Place,
    seen: &Seen,
    slots: Slots,
) -> Result<Cell, CellError>
    // The text can be sealed, just the copies listed with it hold it, and `slots` says in which slots any text
    // verifies.
    requires sealable { IsSealable seen.now }
    requires seen { IsTrue D.told → IsSeenOn (D.medium disk.old).image place seen.now }
    requires slots { IsTrue D.told → IsSlotsOf (D.medium disk.old).image place slots }

    // The register is in use at this place and generation, every copy holds the text alone, and nothing is pending.
    ensures cell { IfOk result (IsCellOf place seen.now.generation) }
    ensures held { IsTrue D.told → IfOk result (λ cell. CellAt (D.medium disk.new).image cell seen.now.text) }
    ensures quiet { OnOk result (Quiet (D.medium disk.new)) }

    ensures memory { IsErrOf result CellError.OutOfMemory → disk.new ≡ disk.old }
    ensures never_corrupt { ¬ (IsErrOf result CellError.Corrupt) }
    ensures faults { CellFaults result (D.medium disk.old) (D.medium disk.new) }

    // Only slots of the place change, and none that is right already: one that holds the text, or a blank one of the
    // other parity. Where every copy holds the text alone, nothing is written. A stop at any moment leaves every copy
    // what it held or every copy the text.
    ensures brings { Brings D.told place seen.now.generation seen.now.text (D.medium disk.old) (D.medium disk.new) }
{
    let text = seen.text.as_slice();
    let sealed_text = seal(alloc, seen.generation, text)?;
    let lacking = all_but(place.copies, seen.copies.as_slice());
    let stale = slots.others(seen.generation);
    replace(
        disk,
        place,
        seen.generation,
        text,
        &sealed_text,
        &lacking,
        &stale,
    )?;
    Ok(Cell::new(place, seen.generation))
}

// Does what `adopt` does, in `room`, once the text is sealed: nothing more is allocated.
fn adopt_in<D: Disk>(
    disk: &mut D,
    place: Place,
    generation: u64,
    text: &[u8],
    sealed_text: &[u8],
    room: &mut [u8],
) -> Result<(), DiskFailed>
    requires positive { 1 ≤ generation }
    requires short { length text.now ≤ max_body }
    requires text { sealed_text.now ≡ sealed generation text.now }
    requires room { length room.old ≡ front }

    ensures alone { IsTrue D.told → OnOk result (IsAlone (D.medium disk.new).image place generation
        text.now) }
    ensures quiet { OnOk result (Quiet (D.medium disk.new)) }
    ensures brings { Brings D.told place generation text.now (D.medium disk.old) (D.medium disk.new) }
    ensures faults { DiskFaults result (D.medium disk.old) (D.medium disk.new) }
{
    let parity = (generation % 2) as u32;
    let lacking = choose(disk, place, parity, Pick::Lacking, generation, text, room)?;
    bring_to(disk, place, generation, text, sealed_text, &lacking, room)?;
    Ok(())
}

// Brings every copy to the text, where it is known which copies lack it.
fn bring_to<D: Disk>(
    disk: &mut D,
    place: Place,
    generation: u64,
    text: &[u8],
    sealed_text: &[u8],
    lacking: &[bool],
    room: &mut [u8],
) -> Result<(), DiskFailed>
    requires positive { 1 ≤ generation }
    requires short { length text.now ≤ max_body }
    requires text { sealed_text.now ≡ sealed generation text.now }
    requires room { length room.old ≡ front }
    requires flags { place.copies ≤ length lacking.now }
    requires lacking { IsTrue D.told
        → Picks Lacking lacking.now (D.medium disk.old).image place (own generation) generation
        text.now }

    ensures alone { IsTrue D.told → OnOk result (IsAlone (D.medium disk.new).image place generation
        text.now) }
    ensures quiet { OnOk result (Quiet (D.medium disk.new)) }
    ensures brings { Brings D.told place generation text.now (D.medium disk.old) (D.medium disk.new) }
    ensures faults { DiskFaults result (D.medium disk.old) (D.medium disk.new) }
{
    let parity = (generation % 2) as u32;
    let stale = choose(
        disk,
        place,
        1 - parity,
        Pick::Verifying,
        generation,
        text,
        room,
    )?;
    replace(disk, place, generation, text, sealed_text, lacking, &stale)?;
    Ok(())
}
