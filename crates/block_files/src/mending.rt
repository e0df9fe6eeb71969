//! Contents written again in place, in the copies that lack them.

ghost use Rattle.std.specs.Prelude.{◌≡◌, ◌≤◌, ◌*◌, IsTrue, OnOk, OnErr, IfErr, length};
ghost use Rattle.block_files.specs.BlockSets.{AreDistinct, IsNotAmong};
ghost use Rattle.block_files.specs.Areas.{NamedFull};
ghost use Rattle.block_files.specs.Contents.{AreCopies};
ghost use Rattle.block_files.specs.Writes.{Wrote, Tore, IsNoneOf};

use crate::errors::BlobError;
use crate::writing::write_copies;
use disk_model::{Disk, Place};

/// Writes the bytes into their blocks, 256 bytes each in order, in these copies of the place alone, counted from 1.
/// Does not allocate. The bytes are durable after the caller's next sync.
///
/// # Errors
///
/// Only `Device`.
pub fn mend<D: Disk>(
    disk: &mut D,
    place: Place,
    blocks: &[u32],
    bytes: &[u8],
    copies: &[u32],
) -> Result<(), BlobError>
    requires copies { AreCopies place.copies copies.now }
    requires room { length bytes.now ≤ 256 * length blocks.now }
    requires distinct { AreDistinct blocks.now }

    // These copies have the bytes; files that are none of their areas, and other blocks, read as before. So they do
    // where the disk failed, but for what is past an old end.
    ensures whole { IsTrue D.told → OnOk result
        (NamedFull place copies.now blocks.now bytes.now (D.medium disk.new).image) }
    ensures done { OnOk result (Wrote D.told (IsNoneOf place copies.now) (IsNotAmong blocks.now)
        (length copies.now * (256 * length blocks.now)) (D.medium disk.old) (D.medium disk.new)) }
    ensures failed { OnErr result (Tore D.told (IsNoneOf place copies.now) (IsNotAmong blocks.now)
        (length copies.now * (256 * length blocks.now)) (D.medium disk.old) (D.medium disk.new)) }
    ensures device { IfErr result (λ error. error ≡ BlobError.Device) }
{
    write_copies(disk, place, copies, blocks, bytes, &[])?;
    Ok(())
}
