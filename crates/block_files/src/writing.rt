//! Writes of contents into the areas of copies. Nothing here allocates.

ghost use Rattle.std.specs.Prelude.{◌≡◌, ◌≢◌, ◌<◌, ◌≤◌, ◌+◌, ◌-◌, ◌*◌, ℕ, IsTrue, OnOk, OnErr, length};
ghost use Rattle.std.specs.Prelude.{slice_index, true};
ghost use Rattle.per_base.specs.Contents.{blocks_for};
ghost use Rattle.disk_model.specs.Place.{area, IsNoArea};
ghost use Rattle.block_files.specs.BlockSets.{AreDistinct, IsNotAmong};
ghost use Rattle.block_files.specs.Parts.{is_changed, changed_blocks};
ghost use Rattle.block_files.specs.Areas.{HoldsBytes, HoldsShared, AllFull, NamedFull, area_of};
ghost use Rattle.block_files.specs.Contents.{AreCopies};
ghost use Rattle.block_files.specs.Writes.{Wrote, Tore, IsNoneOf, IsApartFromChanged, IsRun};

use crate::parts::{count_blocks, differs};
use disk_model::{Disk, DiskFailed, Place};
use per_base::BLOCK;

/// The numbers of the copies that a place can have.
const NUMBERS: [u32; 8] = [1, 2, 3, 4, 5, 6, 7, 8];

/// Writes the bytes into these blocks, 256 bytes each in order, in every copy of the place, for a caller who has chosen
/// the blocks before. Does not allocate. The bytes are durable after the caller's next sync.
///
/// # Errors
///
/// Only a failure of the disk.
pub fn write_blob<D: Disk>(
    disk: &mut D,
    place: Place,
    blocks: &[u32],
    bytes: &[u8],
) -> Result<(), DiskFailed>
    requires room { length bytes.now ≤ 256 * length blocks.now }
    requires distinct { AreDistinct blocks.now }

    // Every copy has the bytes; files that are no areas of the place, and other blocks, read as before. So they do
    // where the disk failed, but for what is past an old end.
    ensures whole { IsTrue D.told → OnOk result
        (AllFull place blocks.now bytes.now (D.medium disk.new).image) }
    ensures done { OnOk result (Wrote D.told (IsNoArea place) (IsNotAmong blocks.now)
        (place.copies * (256 * length blocks.now)) (D.medium disk.old) (D.medium disk.new)) }
    ensures failed { OnErr result (Tore D.told (IsNoArea place) (IsNotAmong blocks.now)
        (place.copies * (256 * length blocks.now)) (D.medium disk.old) (D.medium disk.new)) }
{
    write_shared(disk, place, blocks, bytes, &[])
}

/// Writes those parts of 256 bytes that differ from the earlier content `was` into their blocks in every copy of the
/// place, for a caller who has chosen the blocks before. Does not allocate. The bytes are durable after the caller's
/// next sync.
///
/// # Errors
///
/// Only a failure of the disk.
pub fn write_shared<D: Disk>(
    disk: &mut D,
    place: Place,
    blocks: &[u32],
    bytes: &[u8],
    was: &[u8],
) -> Result<(), DiskFailed>
    requires room { length bytes.now ≤ 256 * length blocks.now }
    requires distinct { AreDistinct blocks.now }
    // Each copy c has the parts that do not differ in their blocks already.
    requires shared { IsTrue D.told → (c : ℕ) → c < place.copies
        → HoldsShared ((D.medium disk.old).image (area place c)) blocks.now bytes.now was.now }

    // Every copy has the bytes; files that are no areas of the place, and blocks but those whose parts differ, read as
    // before. So they do where the disk failed, but for what is past an old end.
    ensures whole { IsTrue D.told → OnOk result
        (AllFull place blocks.now bytes.now (D.medium disk.new).image) }
    ensures done { OnOk result (Wrote D.told (IsNoArea place)
        (IsApartFromChanged blocks.now bytes.now was.now)
        (place.copies * (256 * changed_blocks bytes.now was.now)) (D.medium disk.old) (D.medium disk.new)) }
    ensures failed { OnErr result (Tore D.told (IsNoArea place)
        (IsApartFromChanged blocks.now bytes.now was.now)
        (place.copies * (256 * changed_blocks bytes.now was.now)) (D.medium disk.old) (D.medium disk.new)) }
{
    write_copies(
        disk,
        place,
        &NUMBERS[..place.copies as usize],
        blocks,
        bytes,
        was,
    )
}

// Does what `write_shared` does, in these copies alone, counted from 1.
pub(crate) fn write_copies<D: Disk>(
    disk: &mut D,
    place: Place,
    copies: &[u32],
    blocks: &[u32],
    bytes: &[u8],
    was: &[u8],
) -> Result<(), DiskFailed>
    requires copies { AreCopies place.copies copies.now }
    requires room { length bytes.now ≤ 256 * length blocks.now }
    requires distinct { AreDistinct blocks.now }
    requires shared { IsTrue D.told → (i : ℕ) → i < length copies.now
        → HoldsShared ((D.medium disk.old).image (area_of place (slice_index copies.now i))) blocks.now bytes.now
        was.now }
    ensures whole { IsTrue D.told → OnOk result
        (NamedFull place copies.now blocks.now bytes.now (D.medium disk.new).image) }
    ensures done { OnOk result (Wrote D.told (IsNoneOf place copies.now)
        (IsApartFromChanged blocks.now bytes.now was.now)
        (length copies.now * (256 * changed_blocks bytes.now was.now)) (D.medium disk.old) (D.medium disk.new)) }
    ensures failed { OnErr result (Tore D.told (IsNoneOf place copies.now)
        (IsApartFromChanged blocks.now bytes.now was.now)
        (length copies.now * (256 * changed_blocks bytes.now was.now)) (D.medium disk.old) (D.medium disk.new)) }
{
    for number in copies {
        write_changed(disk, place.area(*number - 1), blocks, bytes, was)?;
    }
    Ok(())
}

// Writes the parts that differ into the area file of one copy, those whose blocks follow one another by one write.
fn write_changed<D: Disk>(
    disk: &mut D,
    file: u32,
    blocks: &[u32],
    bytes: &[u8],
    was: &[u8],
) -> Result<(), DiskFailed>
    requires room { length bytes.now ≤ 256 * length blocks.now }
    requires distinct { AreDistinct blocks.now }
    requires shared { IsTrue D.told → HoldsShared ((D.medium disk.old).image file) blocks.now bytes.now was.now }
    ensures holds { IsTrue D.told → OnOk result (HoldsBytes ((D.medium disk.new).image file) blocks.now bytes.now) }
    ensures done { OnOk result (Wrote D.told (λ f. f ≢ file) (IsApartFromChanged blocks.now bytes.now was.now)
        (256 * changed_blocks bytes.now was.now) (D.medium disk.old) (D.medium disk.new)) }
    ensures failed { OnErr result (Tore D.told (λ f. f ≢ file) (IsApartFromChanged blocks.now bytes.now was.now)
        (256 * changed_blocks bytes.now was.now) (D.medium disk.old) (D.medium disk.new)) }
{
    let needed = count_blocks(bytes.len());
    let mut next = 0;
    while next < needed {
        if differs(bytes, was, next) {
            let end = run_end(blocks, bytes, was, next);
            let stop = (BLOCK * end).min(bytes.len());
            disk.write_at(
                file,
                BLOCK as u64 * u64::from(blocks[next]),
                &bytes[BLOCK * next..stop],
            )?;
            next = end;
        } else {
            next += 1;
        }
    }
    Ok(())
}

// Where the run of a part that differs ends: up to there the parts differ, and their blocks follow one another.
fn run_end(blocks: &[u32], bytes: &[u8], was: &[u8], first: usize) -> usize
    requires room { length bytes.now ≤ 256 * length blocks.now }
    requires inside { first < blocks_for (length bytes.now) }
    requires differs { is_changed bytes.now was.now first ≡ true }
    ensures run { IsRun blocks.now bytes.now was.now first result }
    ensures longest { result < blocks_for (length bytes.now) → is_changed bytes.now was.now result ≡ true
        → slice_index blocks.now result ≢ slice_index blocks.now first + (result - first) }
{
    let needed = count_blocks(bytes.len());
    for i in first + 1..needed {
        let follows = u64::from(blocks[i]) == u64::from(blocks[first]) + (i - first) as u64;
        if !follows || !differs(bytes, was, i) {
            return i;
        }
    }
    needed
}
