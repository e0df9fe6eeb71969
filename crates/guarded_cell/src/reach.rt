//! How far the text in a slot may reach, and reading so far.

ghost use Rattle.std.specs.Prelude.{◌≡◌, ◌≤◌, ◌<◌, ◌+◌, IsTrue, IfOk, OnOk, IsErrOf, length, take};
ghost use Rattle.disk_model.specs.Medium.{OnlyReads, Elapses};
ghost use Rattle.guarded_cell.specs.Slots.{front, ReachesTo};
ghost use Rattle.guarded_cell.specs.Faults.{CellFaults, DiskFaults};
ghost use Rattle.hash_guard.specs.SealedText.{header, verified};

use crate::errors::CellError;
use byteorder::{ByteOrder, LittleEndian};
use disk_model::{Disk, DiskFailed};
use hash_guard::{HEADER, MAX_BODY};
use std::alloc::{AllocError, Global};

/// How many bytes of a slot are read before it is known how far its text reaches.
const BEGIN: usize = 4096;

/// The place of the body's length in a sealed text.
const LENGTH_AT: usize = HEADER - 4;

/// A buffer for the text of a slot.
pub(crate) fn text_room(alloc: Global) -> Result<Vec<u8>, AllocError>
    ensures { IfOk result (λ room. header ≤ length room.items) }
{
    let room = vec![in alloc; 0; BEGIN]?;
    Ok(room)
}

/// Reads the start of a slot into `room`, which grows where the text in the slot may reach further, and says how many
/// bytes were read: what the slot holds is what they hold.
pub(crate) fn read_text<D: Disk>(
    disk: &mut D,
    file: u32,
    room: &mut Vec<u8>,
) -> Result<usize, CellError>
    requires { header ≤ length room.old.items }
    ensures room { header ≤ length room.new.items }
    ensures within { IfOk result (λ n. n ≤ length room.new.items) }
    ensures bytes { IsTrue D.told → IfOk result (λ n.
        verified (take n room.new.items) ≡ verified ((D.medium disk.old).image file)) }
    ensures reads { OnlyReads (D.medium disk.old) (D.medium disk.new) }
    ensures time { Elapses (D.medium disk.old) (D.medium disk.new) }
    ensures never_corrupt { ¬ (IsErrOf result CellError.Corrupt) }
    ensures faults { CellFaults result (D.medium disk.old) (D.medium disk.new) }
{
    let begun = read_on(disk, file, 0, room)?;
    let reach = reach_of(&room[..begun]);
    if reach <= room.len() {
        return Ok(begun);
    }
    room.resize(reach, 0)?;
    let count = read_on(disk, file, begun, room)?;
    Ok(count)
}

// Fills the room with the start of a slot, of which it has the first `begun` bytes, and says how many bytes it then
// has.
fn read_on<D: Disk>(
    disk: &mut D,
    file: u32,
    begun: usize,
    room: &mut [u8],
) -> Result<usize, DiskFailed>
    requires inside { begun ≤ length room.old }
    requires begun { IsTrue D.told → take begun room.old ≡ take begun ((D.medium disk.old).image file) }
    ensures within { IfOk result (λ n. n ≤ length room.new) }
    ensures len { length room.new ≡ length room.old }
    ensures bytes { IsTrue D.told → IfOk result (λ n.
        take n room.new ≡ take (length room.old) ((D.medium disk.old).image file)) }
    ensures reads { OnlyReads (D.medium disk.old) (D.medium disk.new) }
    ensures time { Elapses (D.medium disk.old) (D.medium disk.new) }
    ensures faults { DiskFaults result (D.medium disk.old) (D.medium disk.new) }
{
    let more = disk.read(file, begun as u64, &mut room[begun..])?;
    Ok(begun + more)
}

// How many bytes the text has at most that begins so.
fn reach_of(start: &[u8]) -> usize
    ensures reach { ReachesTo result start.now }
    ensures most { result ≤ front }
{
    if start.len() < HEADER {
        return HEADER;
    }
    let body_length = LittleEndian::read_u32(&start[LENGTH_AT..]) as usize;
    if body_length > MAX_BODY {
        return HEADER;
    }
    HEADER + body_length
}
