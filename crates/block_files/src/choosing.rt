//! The choice of blocks for a content.

ghost use Rattle.std.specs.Prelude.{◌≡◌, ◌<◌, ◌≤◌, ◌*◌, ℕ, length, take, slice_index, IfOk};
ghost use Rattle.block_files.specs.BlockSets.{free_blocks, IsAdded};
ghost use Rattle.block_files.specs.Parts.{changed_blocks, IsMerged};

use crate::block_set::BlockSet;
use crate::parts::{count_blocks, differs};
use std::alloc::{AllocError, Global};

// The lowest free blocks. No block below the first of them is looked at.
pub(crate) fn choose(alloc: Global, used: &BlockSet, count: usize) -> Result<Vec<u32>, AllocError>
    ensures { IfOk result (λ blocks. blocks.items ≡ take count (free_blocks used.now)) }
{
    let mut blocks = Vec::new(alloc);
    for block in used.first_free()..used.capacity() {
        if blocks.len() == count {
            return Ok(blocks);
        }
        if used.contains(block) {
            continue;
        }
        blocks.push(block)?;
    }
    Ok(blocks)
}

// Puts blocks into the set.
pub(crate) fn add(used: &mut BlockSet, blocks: &[u32])
    requires { (i : ℕ) → i < length blocks.now → slice_index blocks.now i < length used.old }
    ensures { IsAdded blocks.now used.old used.new }
{
    for block in blocks {
        used.insert(*block);
    }
}

// The blocks of a content beside an earlier one: the earlier block where the parts are equal, else the next of the
// fresh ones.
pub(crate) fn merge(
    alloc: Global,
    bytes: &[u8],
    old_bytes: &[u8],
    old_blocks: &[u32],
    fresh: &[u32],
) -> Result<Vec<u32>, AllocError>
    requires room { length old_bytes.now ≤ 256 * length old_blocks.now }
    requires enough { length fresh.now ≡ changed_blocks bytes.now old_bytes.now }
    ensures { IfOk result (λ blocks. IsMerged bytes.now old_bytes.now old_blocks.now fresh.now blocks.items) }
{
    let mut blocks = Vec::new(alloc);
    let mut next = 0;
    for i in 0..count_blocks(bytes.len()) {
        if differs(bytes, old_bytes, i) {
            blocks.push(fresh[next])?;
            next += 1;
        } else {
            blocks.push(old_blocks[i])?;
        }
    }
    Ok(blocks)
}
