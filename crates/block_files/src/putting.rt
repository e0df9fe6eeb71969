//! Contents put into fresh blocks, or into fresh and shared ones.

ghost use Rattle.std.specs.Prelude.{◌≡◌, ◌<◌, ◌≤◌, ◌+◌, ◌*◌, ℕ, List, true, IsTrue, IfOk, OnOk, OnErr, IsErrOf, length};
ghost use Rattle.std.specs.Prelude.{slice_index};
ghost use Rattle.sha2.specs.Sha256.{sha256};
ghost use Rattle.per_base.specs.Contents.{blocks_for};
ghost use Rattle.disk_model.specs.Place.{IsNoArea};
ghost use Rattle.block_files.specs.BlockSets.{contains, free_of, AreFree, AreDistinct, IsNotAmong, IsAdded};
ghost use Rattle.block_files.specs.BlockSets.{SharesBlocks};
ghost use Rattle.block_files.specs.Parts.{changed_blocks};
ghost use Rattle.block_files.specs.Areas.{AllFull};
ghost use Rattle.block_files.specs.Writes.{Wrote, Tore, IsTaken, IsApartFromChanged};

use crate::block_set::BlockSet;
use crate::choosing::{add, choose, merge};
use crate::errors::BlobError;
use crate::parts::{count_blocks, count_changed};
use crate::writing::{write_blob, write_shared};
use disk_model::{Disk, Place};
use hash_guard::hash;
use per_base::Numbers;
use std::alloc::{AllocError, Global};

/// Where a content was put, and its SHA-256.
#[derive(Debug, Drop)]
pub struct PutBlob {
    /// The numbers of the content's blocks, in order.
    pub blocks: Numbers,
    /// The hash of the content's bytes.
    pub hash: [u8; 32],
}

/// Chooses free blocks for the bytes and adds them to `used`, the blocks that are taken: all of `put_blob` but its
/// writes, which are for `write_blob`.
///
/// # Errors
///
/// Only `OutOfMemory`.
pub fn reserve_blob(alloc: Global, used: &mut BlockSet, bytes: &[u8]) -> Result<PutBlob, AllocError>
    // Enough blocks are free.
    requires { blocks_for (length bytes.now) ≤ free_of used.old }
    // One block for each 256 bytes, all free before, and taken now; the hash is that of the bytes.
    ensures count { IfOk result (λ blob. length blob.blocks ≡ blocks_for (length bytes.now)) }
    ensures free { IfOk result (λ blob. AreFree used.old blob.blocks) }
    ensures hash { IfOk result (λ blob. blob.hash ≡ sha256 bytes.now) }
    ensures used { IfOk result (λ blob. IsAdded blob.blocks used.old used.new) }
    ensures memory { OnErr result (used.new ≡ used.old) }
{
    let blocks = choose(alloc, used, count_blocks(bytes.len()))?;
    add(used, &blocks);
    Ok(PutBlob {
        blocks: Numbers::new(blocks),
        hash: hash(bytes),
    })
}

/// Writes the bytes into blocks outside `used`, the blocks that are taken, in every copy of the place, and adds the
/// blocks to `used`. The bytes are durable after the caller's next sync.
///
/// # Errors
///
/// `Device` where the disk fails; then `used` has the blocks that were chosen. `OutOfMemory` leaves `used` and the disk
/// as they were.
pub fn put_blob<D: Disk>(
    alloc: Global,
    disk: &mut D,
    place: Place,
    used: &mut BlockSet,
    bytes: &[u8],
) -> Result<PutBlob, BlobError>
    // Enough blocks are free.
    requires { blocks_for (length bytes.now) ≤ free_of used.old }

    // The blocks: one for each 256 bytes, all free before, and taken now; the hash is that of the bytes.
    ensures count { IfOk result (λ blob. length blob.blocks ≡ blocks_for (length bytes.now)) }
    ensures free { IfOk result (λ blob. AreFree used.old blob.blocks) }
    ensures hash { IfOk result (λ blob. blob.hash ≡ sha256 bytes.now) }
    ensures used { IfOk result (λ blob. IsAdded blob.blocks used.old used.new) }

    // The disk: every copy has the bytes; files that are no areas of the place, and other blocks, read as before.
    ensures whole { IsTrue D.told → IfOk result (λ blob.
        AllFull place blob.blocks bytes.now (D.medium disk.new).image) }
    ensures done { IfOk result (λ blob. Wrote D.told (IsNoArea place) (IsNotAmong blob.blocks)
        (place.copies * (256 * length blob.blocks)) (D.medium disk.old) (D.medium disk.new)) }

    // Errors: without memory nothing happened; where the disk failed, blocks that were taken read as before, and blocks
    // for the bytes are taken.
    ensures memory { IsErrOf result BlobError.OutOfMemory → (used.new ≡ used.old) × (disk.new ≡ disk.old) }
    ensures failed { IsErrOf result BlobError.Device → Tore D.told (IsNoArea place)
        (IsTaken used.old)
        (place.copies * (256 * blocks_for (length bytes.now))) (D.medium disk.old) (D.medium disk.new) }
    ensures reserved { IsErrOf result BlobError.Device → (blocks : List ℕ)
        × (length blocks ≡ blocks_for (length bytes.now)) × AreFree used.old blocks × IsAdded blocks used.old used.new }
{
    let blob = reserve_blob(alloc, used, bytes)?;
    write_blob(disk, place, blob.blocks.as_slice(), bytes)?;
    Ok(blob)
}

/// Chooses blocks for the bytes beside an earlier content, `old_bytes` in `old_blocks`: where both have the same part
/// of 256 bytes the earlier block is shared, and for the others free blocks are added to `used`, the blocks that are
/// taken. It is all of `put_shared` but its writes, which are for `write_shared`.
///
/// # Errors
///
/// Only `OutOfMemory`.
pub fn reserve_shared(
    alloc: Global,
    used: &mut BlockSet,
    bytes: &[u8],
    old_bytes: &[u8],
    old_blocks: &[u32],
) -> Result<PutBlob, AllocError>
    // The earlier content fits its blocks, which are taken and distinct, and blocks are free for the parts that differ.
    requires room { length old_bytes.now ≤ 256 * length old_blocks.now }
    requires taken { (i : ℕ) → i < length old_blocks.now → contains used.old (slice_index old_blocks.now i) ≡ true }
    requires distinct { AreDistinct old_blocks.now }
    requires free { changed_blocks bytes.now old_bytes.now ≤ free_of used.old }
    // One block for each 256 bytes, distinct, each shared or free before, and taken now; the hash is that of the bytes.
    ensures count { IfOk result (λ blob. length blob.blocks ≡ blocks_for (length bytes.now)) }
    ensures shared { IfOk result (λ blob. SharesBlocks bytes.now old_bytes.now old_blocks.now used.old blob.blocks) }
    ensures distinct { IfOk result (λ blob. AreDistinct blob.blocks) }
    ensures hash { IfOk result (λ blob. blob.hash ≡ sha256 bytes.now) }
    ensures used { IfOk result (λ blob. IsAdded blob.blocks used.old used.new) }
    ensures free { OnOk result (free_of used.old ≤ free_of used.new + changed_blocks bytes.now old_bytes.now) }
    ensures memory { OnErr result (used.new ≡ used.old) }
{
    reserve_hashed(alloc, used, bytes, hash(bytes), old_bytes, old_blocks)
}

/// Does what `reserve_shared` does, for bytes whose SHA-256 is known.
///
/// # Errors
///
/// Only `OutOfMemory`.
pub fn reserve_hashed(
    alloc: Global,
    used: &mut BlockSet,
    bytes: &[u8],
    hash: [u8; 32],
    old_bytes: &[u8],
    old_blocks: &[u32],
) -> Result<PutBlob, AllocError>
    requires hash { hash ≡ sha256 bytes.now }
    // The earlier content fits its blocks, which are taken and distinct, and blocks are free for the parts that differ.
    requires room { length old_bytes.now ≤ 256 * length old_blocks.now }
    requires taken { (i : ℕ) → i < length old_blocks.now → contains used.old (slice_index old_blocks.now i) ≡ true }
    requires distinct { AreDistinct old_blocks.now }
    requires free { changed_blocks bytes.now old_bytes.now ≤ free_of used.old }
    // One block for each 256 bytes, distinct, each shared or free before, and taken now; the hash is that of the bytes.
    ensures count { IfOk result (λ blob. length blob.blocks ≡ blocks_for (length bytes.now)) }
    ensures shared { IfOk result (λ blob. SharesBlocks bytes.now old_bytes.now old_blocks.now used.old blob.blocks) }
    ensures distinct { IfOk result (λ blob. AreDistinct blob.blocks) }
    ensures hash { IfOk result (λ blob. blob.hash ≡ sha256 bytes.now) }
    ensures used { IfOk result (λ blob. IsAdded blob.blocks used.old used.new) }
    ensures free { OnOk result (free_of used.old ≤ free_of used.new + changed_blocks bytes.now old_bytes.now) }
    ensures memory { OnErr result (used.new ≡ used.old) }
{
    let fresh = choose(alloc, used, count_changed(bytes, old_bytes))?;
    let blocks = merge(alloc, bytes, old_bytes, old_blocks, &fresh)?;
    add(used, &fresh);
    Ok(PutBlob {
        blocks: Numbers::new(blocks),
        hash,
    })
}

/// Puts the bytes beside an earlier content, `old_bytes` in `old_blocks`: where both have the same part of 256 bytes
/// the earlier block is shared, and the other parts are written into blocks outside `used`, the blocks that are taken,
/// in every copy of the place; these blocks are added to it. The bytes are durable after the caller's next sync.
///
/// # Errors
///
/// `Device` where the disk fails; then `used` has the blocks that were chosen. `OutOfMemory` leaves `used` and the disk
/// as they were.
pub fn put_shared<D: Disk>(
    alloc: Global,
    disk: &mut D,
    place: Place,
    used: &mut BlockSet,
    bytes: &[u8],
    old_bytes: &[u8],
    old_blocks: &[u32],
) -> Result<PutBlob, BlobError>
    // Every copy has the earlier content; its blocks are taken and distinct; blocks are free for the parts that differ.
    requires whole { IsTrue D.told
        → AllFull place old_blocks.now old_bytes.now (D.medium disk.old).image }
    requires room { length old_bytes.now ≤ 256 * length old_blocks.now }
    requires taken { (i : ℕ) → i < length old_blocks.now → contains used.old (slice_index old_blocks.now i) ≡ true }
    requires distinct { AreDistinct old_blocks.now }
    requires free { changed_blocks bytes.now old_bytes.now ≤ free_of used.old }

    // The blocks: one for each 256 bytes, distinct, each shared or free before, and taken now.
    ensures count { IfOk result (λ blob. length blob.blocks ≡ blocks_for (length bytes.now)) }
    ensures shared { IfOk result (λ blob. SharesBlocks bytes.now old_bytes.now old_blocks.now used.old blob.blocks) }
    ensures distinct { IfOk result (λ blob. AreDistinct blob.blocks) }
    ensures hash { IfOk result (λ blob. blob.hash ≡ sha256 bytes.now) }
    ensures used { IfOk result (λ blob. IsAdded blob.blocks used.old used.new) }
    ensures free { OnOk result (free_of used.old ≤ free_of used.new + changed_blocks bytes.now old_bytes.now) }

    // The disk: every copy has the bytes; files that are no areas of the place, and blocks but those whose parts
    // differ, read as before.
    ensures whole { IsTrue D.told → IfOk result (λ blob.
        AllFull place blob.blocks bytes.now (D.medium disk.new).image) }
    ensures done { IfOk result (λ blob.
        Wrote D.told (IsNoArea place) (IsApartFromChanged blob.blocks bytes.now old_bytes.now)
        (place.copies * (256 * changed_blocks bytes.now old_bytes.now)) (D.medium disk.old) (D.medium disk.new)) }

    // Errors: without memory nothing happened; where the disk failed, blocks that were taken read as before, and blocks
    // for the bytes are taken.
    ensures memory { IsErrOf result BlobError.OutOfMemory → (used.new ≡ used.old) × (disk.new ≡ disk.old) }
    ensures failed { IsErrOf result BlobError.Device → Tore D.told (IsNoArea place)
        (IsTaken used.old)
        (place.copies * (256 * changed_blocks bytes.now old_bytes.now)) (D.medium disk.old) (D.medium disk.new) }
    ensures reserved { IsErrOf result BlobError.Device → (blocks : List ℕ)
        × (length blocks ≡ blocks_for (length bytes.now)) × SharesBlocks bytes.now old_bytes.now old_blocks.now used.old
        blocks
        × IsAdded blocks used.old used.new }
{
    let blob = reserve_shared(alloc, used, bytes, old_bytes, old_blocks)?;
    write_shared(disk, place, blob.blocks.as_slice(), bytes, old_bytes)?;
    Ok(blob)
}
