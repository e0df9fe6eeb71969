//! Reading slots: what one slot holds, which slots hold a text, and which copies a pass picks.

ghost use Rattle.std.specs.Prelude.{◌≡◌, ◌≤◌, ◌<◌, ◌+◌, ℕ, IsTrue, IfOk, OnOk, length, take, nat_eq, ◌&&◌, not};
ghost use Rattle.std.specs.Prelude.{get_or, false};
ghost use Rattle.std.specs.Str.{bytes_eq};
ghost use Rattle.disk_model.specs.Medium.{Quiet, IsIdle, OnlyReads, Elapses};
ghost use Rattle.disk_model.specs.Orders.{named_in};
ghost use Rattle.guarded_cell.specs.Slots.{front, IsFoundInSlot, Picks, matches_pick};
ghost use Rattle.guarded_cell.specs.Faults.{DiskFaults};

use disk_model::{Disk, DiskFailed, Place};
use hash_guard::{HEADER, MAX_BODY, Sealed, verify};
use std::alloc::{AllocError, Global};

/// How many bytes of a slot are read at most: those of the longest sealed text.
pub(crate) const FRONT: usize = HEADER + MAX_BODY;

/// The greatest number of copies of a place.
pub(crate) const MAX_COPIES: usize = 8;

/// Which slots of a place hold a text, be its generation of the slot's parity or not: a flag for each copy's even slot,
/// and for its odd one.
#[derive(Clone, Copy, Debug)]
pub struct Slots {
    pub(crate) even: [bool; MAX_COPIES],
    pub(crate) odd: [bool; MAX_COPIES],
}

impl Slots {
    ghost use Rattle.guarded_cell.specs.Slots.{other_flags};

    // The slots of the other parity, in which no text of this generation belongs.
    pub(crate) fn others(self, generation: u64) -> [bool; MAX_COPIES]
        ensures { result ≡ other_flags self generation }
    {
        if generation % 2 == 0 {
            self.odd
        } else {
            self.even
        }
    }
}

/// What is found in a slot, where one text is wanted.
#[derive(Clone, Copy, PartialEq, Eq)]
pub(crate) enum Found {
    /// No text.
    Nothing,
    /// The wanted text under its generation.
    Wanted,
    /// Another text or another generation.
    Another,
}

/// Which slots a pass picks.
#[derive(Clone, Copy)]
pub(crate) enum Pick {
    /// Those that do not hold the wanted text.
    Lacking,
    /// Those that hold any text.
    Verifying,
    /// Those that hold another text than the wanted one.
    Others,
}

/// A buffer for the start of a slot.
pub(crate) fn front_room(alloc: Global) -> Result<Vec<u8>, AllocError>
    ensures { IfOk result (λ room. length room.items ≡ front) }
{
    let room = vec![in alloc; 0; FRONT]?;
    Ok(room)
}

/// Syncs the disk before its slots are read, so that what is read is durable.
pub(crate) fn settle<D: Disk>(disk: &mut D) -> Result<(), DiskFailed>
    ensures quiet { OnOk result (Quiet (D.medium disk.new)) }
    ensures image { (D.medium disk.new).image ≡ (D.medium disk.old).image }
    ensures idle { Quiet (D.medium disk.old) → IsIdle (D.medium disk.old) (D.medium disk.new) }
    ensures written { (D.medium disk.new).written ≡ (D.medium disk.old).written }
    ensures time { Elapses (D.medium disk.old) (D.medium disk.new) }
    ensures faults { DiskFaults result (D.medium disk.old) (D.medium disk.new) }
{
    disk.sync()?;
    Ok(())
}

/// Reads the start of a slot into `room`, and says how many bytes were read.
pub(crate) fn read_front<D: Disk>(
    disk: &mut D,
    file: u32,
    room: &mut [u8],
) -> Result<usize, DiskFailed>
    requires { length room.old ≡ front }
    ensures within { IfOk result (λ n. n ≤ length room.new) }
    ensures bytes { IsTrue D.told → IfOk result (λ n. take n room.new ≡ take front ((D.medium disk.old).image file)) }
    ensures reads { OnlyReads (D.medium disk.old) (D.medium disk.new) }
    ensures time { Elapses (D.medium disk.old) (D.medium disk.new) }
    ensures faults { DiskFaults result (D.medium disk.old) (D.medium disk.new) }
{
    let count = disk.read(file, 0, room)?;
    Ok(count)
}

// What the start of a slot holds.
fn find_text(bytes: &[u8], generation: u64, text: &[u8]) -> Found
    ensures { IsFoundInSlot result bytes.now generation text.now }
{
    match verify(bytes) {
        None => Found::Nothing,
        Some(found) => {
            if is_wanted(found, generation, text) {
                Found::Wanted
            } else {
                Found::Another
            }
        }
    }
}

// Whether what was found is this text under this generation.
fn is_wanted(found: Sealed<'_>, generation: u64, text: &[u8]) -> bool
    ensures { result ≡ (nat_eq found.entry.generation generation && bytes_eq found.entry.body.now text.now) }
{
    found.generation == generation && found.body == text
}

// What a slot holds.
fn look_at<D: Disk>(
    disk: &mut D,
    file: u32,
    generation: u64,
    text: &[u8],
    room: &mut [u8],
) -> Result<Found, DiskFailed>
    requires { length room.old ≡ front }
    ensures found { IsTrue D.told → IfOk result (λ found.
        IsFoundInSlot found ((D.medium disk.old).image file) generation text.now) }
    ensures reads { OnlyReads (D.medium disk.old) (D.medium disk.new) }
    ensures time { Elapses (D.medium disk.old) (D.medium disk.new) }
    ensures faults { DiskFaults result (D.medium disk.old) (D.medium disk.new) }
{
    let count = read_front(disk, file, room)?;
    let found = find_text(&room[..count], generation, text);
    Ok(found)
}

// Whether a slot with this in it is picked.
fn is_picked(pick: Pick, found: Found) -> bool
    ensures { result ≡ matches_pick pick found }
{
    match pick {
        Pick::Lacking => match found {
            Found::Wanted => false,
            _ => true,
        },
        Pick::Verifying => match found {
            Found::Nothing => false,
            _ => true,
        },
        Pick::Others => match found {
            Found::Another => true,
            _ => false,
        },
    }
}

/// Which copies are picked, by their slots of this parity, where this text under this generation is wanted: a flag for
/// each. `room` is a buffer for the start of a slot.
pub(crate) fn choose<D: Disk>(
    disk: &mut D,
    place: Place,
    parity: u32,
    pick: Pick,
    generation: u64,
    text: &[u8],
    room: &mut [u8],
) -> Result<[bool; MAX_COPIES], DiskFailed>
    requires parity { parity < 2 }
    requires room { length room.old ≡ front }
    ensures picks { IsTrue D.told → IfOk result (λ chosen.
        Picks pick chosen (D.medium disk.old).image place parity generation text.now) }
    ensures reads { OnlyReads (D.medium disk.old) (D.medium disk.new) }
    ensures time { Elapses (D.medium disk.old) (D.medium disk.new) }
    ensures faults { DiskFaults result (D.medium disk.old) (D.medium disk.new) }
{
    let mut chosen = [false; MAX_COPIES];
    for copy in 0..place.copies {
        let found = look_at(disk, place.slot(copy, parity), generation, text, room)?;
        chosen[copy as usize] = is_picked(pick, found);
    }
    Ok(chosen)
}

/// The flags of those among the first copies that these numbers, counted from 1, do not name.
pub(crate) fn all_but(copies: u32, numbers: &[u32]) -> [bool; MAX_COPIES]
    requires { copies ≤ 8 }
    ensures { (copy : ℕ) → copy < copies → get_or result copy false ≡ not (named_in numbers.now (copy + 1)) }
{
    let mut chosen = [false; MAX_COPIES];
    for copy in 0..copies {
        chosen[copy as usize] = !numbers.contains(&(copy + 1));
    }
    chosen
}
