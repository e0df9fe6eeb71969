//! What the copies hold.

ghost use Rattle.std.specs.Prelude.{◌≡◌, ◌≤◌, ◌<◌, ◌+◌, ◌-◌, ◌++◌, ◌∷◌, [], IsTrue, IfOk, OnOk, IsErrOf, All, length};
ghost use Rattle.disk_model.specs.Medium.{Quiet, IsIdle, OnlyReads, Elapses};
ghost use Rattle.disk_model.specs.Place.{slot};
ghost use Rattle.guarded_cell.specs.Slots.{IsFlag, IsSlotsOf};
ghost use Rattle.guarded_cell.specs.Held.{held, of_parity, text_held, is_seen, with_copy, with_slot};
ghost use Rattle.hash_guard.specs.SealedText.{header, verified, max_body};
ghost use Rattle.guarded_cell.specs.Seens.{IsSealable, IsPlaceOf};
ghost use Rattle.guarded_cell.specs.Faults.{CellFaults};

use crate::errors::CellError;
use crate::reach::{read_text, text_room};
use crate::slots::{MAX_COPIES, Slots, settle};
use disk_model::{Disk, Place};
use hash_guard::verify;
use per_base::{Bytes, Numbers};
use std::alloc::{AllocError, Global};

/// A text that some copies hold.
#[derive(Debug, Drop)]
pub struct Seen {
    /// The generation of the text, at least 1.
    pub generation: u64,
    /// The bytes of the text, at most as many as one seal can hold.
    pub text: Bytes,
    /// The copies that hold it, counted from 1 and ascending.
    pub copies: Numbers,
}

/// What the copies of a place hold.
#[derive(Debug, Drop)]
pub struct Looked {
    /// Every text that some copy holds, greatest generation first, then by first copy.
    pub seens: Vec<Seen>,
    /// Which slots hold a text.
    pub slots: Slots,
}

/// Every text that some copy of the place holds, greatest generation first, then by first copy, and which slots hold
/// one. It begins with a sync, reads each slot once and writes nothing.
///
/// # Errors
///
/// `Device` where the disk fails, and `OutOfMemory`. Never `Corrupt`.
pub fn look<D: Disk>(alloc: Global, disk: &mut D, place: Place) -> Result<Looked, CellError>
    // All texts that are held, and all slots that hold one; each text could be sealed again.
    ensures held { IsTrue D.told → IfOk result (λ looked. looked.seens.items
        ≡ held (D.medium disk.old).image place) }
    ensures slots { IsTrue D.told → IfOk result (λ looked.
        IsSlotsOf (D.medium disk.old).image place looked.slots) }
    ensures sealable { IfOk result (λ looked. All IsSealable looked.seens.items) }

    // Nothing is pending at the end, and no byte changes; on a disk where nothing was pending, nothing is at any
    // moment.
    ensures quiet { OnOk result (Quiet (D.medium disk.new)) }
    ensures image { (D.medium disk.new).image ≡ (D.medium disk.old).image }
    ensures idle { Quiet (D.medium disk.old) → IsIdle (D.medium disk.old) (D.medium disk.new) }
    ensures written { (D.medium disk.new).written ≡ (D.medium disk.old).written }

    ensures never_corrupt { ¬ (IsErrOf result CellError.Corrupt) }
    ensures faults { CellFaults result (D.medium disk.old) (D.medium disk.new) }
    ensures time { Elapses (D.medium disk.old) (D.medium disk.new) }
{
    settle(disk)?;
    let mut room = text_room(alloc)?;
    let looked = see_all(alloc, disk, place, &mut room)?;
    Ok(looked)
}

// The texts and the slots of all copies.
fn see_all<D: Disk>(
    alloc: Global,
    disk: &mut D,
    place: Place,
    room: &mut Vec<u8>,
) -> Result<Looked, CellError>
    requires { header ≤ length room.old.items }
    ensures held { IsTrue D.told → IfOk result (λ looked. looked.seens.items
        ≡ held (D.medium disk.old).image place) }
    ensures slots { IsTrue D.told → IfOk result (λ looked.
        IsSlotsOf (D.medium disk.old).image place looked.slots) }
    ensures sealable { IfOk result (λ looked. All IsSealable looked.seens.items) }
    ensures reads { OnlyReads (D.medium disk.old) (D.medium disk.new) }
    ensures never_corrupt { ¬ (IsErrOf result CellError.Corrupt) }
    ensures faults { CellFaults result (D.medium disk.old) (D.medium disk.new) }
    ensures time { Elapses (D.medium disk.old) (D.medium disk.new) }
{
    let mut seens = Vec::new(alloc);
    let mut even = [false; MAX_COPIES];
    let mut odd = [false; MAX_COPIES];
    for copy in 0..place.copies {
        even[copy as usize] = see_slot(alloc, disk, place, copy, 0, room, &mut seens)?;
        odd[copy as usize] = see_slot(alloc, disk, place, copy, 1, room, &mut seens)?;
    }
    Ok(Looked {
        seens,
        slots: Slots { even, odd },
    })
}

// Adds what one slot holds, and says whether it holds a text.
fn see_slot<D: Disk>(
    alloc: Global,
    disk: &mut D,
    place: Place,
    copy: u32,
    parity: u32,
    room: &mut Vec<u8>,
    seens: &mut Vec<Seen>,
) -> Result<bool, CellError>
    requires room { header ≤ length room.old.items }
    requires copy { copy < place.copies }
    requires parity { parity < 2 }
    requires sealable { All IsSealable seens.old.items }
    ensures seen { IsTrue D.told → OnOk result
        (seens.new.items ≡ with_slot (copy + 1) (text_held (D.medium disk.old).image place copy parity)
        seens.old.items) }
    ensures flag { IsTrue D.told → IfOk result (IsFlag ((D.medium disk.old).image (slot place copy parity))) }
    ensures sealable { OnOk result (All IsSealable seens.new.items) }
    ensures reads { OnlyReads (D.medium disk.old) (D.medium disk.new) }
    ensures room { header ≤ length room.new.items }
    ensures never_corrupt { ¬ (IsErrOf result CellError.Corrupt) }
    ensures faults { CellFaults result (D.medium disk.old) (D.medium disk.new) }
    ensures time { Elapses (D.medium disk.old) (D.medium disk.new) }
{
    let count = read_text(disk, place.slot(copy, parity), room)?;
    let verifies = note_front(alloc, &room[..count], copy, parity, seens)?;
    Ok(verifies)
}

// Adds what the start of a slot holds, if its generation has the slot's parity, and says whether it holds a text.
fn note_front(
    alloc: Global,
    bytes: &[u8],
    copy: u32,
    parity: u32,
    seens: &mut Vec<Seen>,
) -> Result<bool, AllocError>
    requires copy { copy < 8 }
    requires sealable { All IsSealable seens.old.items }
    ensures seen { OnOk result (seens.new.items ≡ with_slot (copy + 1) (of_parity parity (verified bytes.now))
        seens.old.items) }
    ensures flag { IfOk result (IsFlag bytes.now) }
    ensures sealable { OnOk result (All IsSealable seens.new.items) }
{
    match verify(bytes) {
        None => Ok(false),
        Some(found) => {
            if found.generation % 2 != u64::from(parity) {
                return Ok(true);
            }
            note(alloc, copy + 1, found.generation, found.body, seens)?;
            Ok(true)
        }
    }
}

// Adds a copy of a text.
fn note(
    alloc: Global,
    copy: u32,
    generation: u64,
    text: &[u8],
    seens: &mut Vec<Seen>,
) -> Result<(), AllocError>
    requires positive { 1 ≤ generation }
    requires short { length text.now ≤ max_body }
    requires sealable { All IsSealable seens.old.items }
    ensures seen { OnOk result (seens.new.items ≡ with_copy copy (generation, text.now) seens.old.items) }
    ensures sealable { OnOk result (All IsSealable seens.new.items) }
{
    let at = place_in(seens, generation, text);
    if at < seens.len() && is_text(&seens[at], generation, text) {
        add_copy(alloc, &mut seens[at], copy)?;
        return Ok(());
    }
    let new = first_seen(alloc, copy, generation, text)?;
    seens.insert(at, new)?;
    Ok(())
}

// Whether it is this text under this generation.
fn is_text(seen: &Seen, generation: u64, text: &[u8]) -> bool
    ensures { result ≡ is_seen (generation, text.now) seen.now }
{
    seen.generation == generation && seen.text.as_slice() == text
}

// Before how many texts, from the first on, this one does not come.
fn place_in(seens: &[Seen], generation: u64, text: &[u8]) -> usize
    ensures { IsPlaceOf (generation, text.now) seens.now result }
{
    for (i, seen) in seens.iter().enumerate() {
        if is_text(seen, generation, text) || seen.generation < generation {
            return i;
        }
    }
    seens.len()
}

// A text that one copy so far holds.
fn first_seen(alloc: Global, copy: u32, generation: u64, text: &[u8]) -> Result<Seen, AllocError>
    ensures { IfOk result (λ seen. seen ≡ record { generation = generation; text = text.now; copies = copy ∷ [] }) }
{
    let text = Bytes::new(Vec::from_slice(alloc, text)?);
    let copies = Numbers::new(vec![in alloc; copy]?);
    Ok(Seen {
        generation,
        text,
        copies,
    })
}

// Adds a copy, by its number from 1, to those that hold a text.
fn add_copy(alloc: Global, seen: &mut Seen, copy: u32) -> Result<(), AllocError>
    ensures { OnOk result (seen.new ≡ record seen.old { copies = seen.old.copies ++ copy ∷ [] }) }
{
    let mut copies = Vec::from_slice(alloc, seen.copies.as_slice())?;
    copies.push(copy)?;
    seen.copies = Numbers::new(copies);
    Ok(())
}
