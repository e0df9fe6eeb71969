//! The blocks that the contents of an index take.

ghost use Rattle.std.specs.Prelude.{◌≡◌, ◌<◌, length, IfOk};
ghost use Rattle.std.specs.List.{All};
ghost use Rattle.block_files.specs.BlockSets.{IsAdded};
ghost use Rattle.index_text.specs.Rules.{blocks_of};
ghost use Rattle.element_store.specs.Stores.{AreTaken};
ghost use Rattle.element_store.specs.Taking.{AreOfEither, Loses};

use block_files::BlockSet;
use index_text::IndexEntry;
use std::alloc::{AllocError, Global};

// The set of the blocks of these entries.
pub(crate) fn blocks_taken_by(
    alloc: Global,
    capacity: u32,
    entries: &[IndexEntry],
) -> Result<BlockSet, AllocError>
    requires { All (λ b. b < capacity) (blocks_of entries.now) }
    ensures { IfOk result (AreTaken capacity entries.now) }
{
    let mut taken = BlockSet::new(alloc, capacity)?;
    for entry in entries {
        take(&mut taken, entry.blocks.as_slice());
    }
    Ok(taken)
}

// Makes the set of the blocks of two indexes that of the later one: what only the earlier one has is free again.
pub(crate) fn release_replaced(taken: &mut BlockSet, earlier: &[IndexEntry], later: &[IndexEntry])
    requires earlier { All (λ b. b < length taken.old) (blocks_of earlier.now) }
    requires later { All (λ b. b < length taken.old) (blocks_of later.now) }
    requires either { AreOfEither earlier.now later.now taken.old }
    ensures { AreTaken (length taken.old) later.now taken.new }
{
    for entry in earlier {
        release(taken, entry.blocks.as_slice());
    }
    for entry in later {
        take(taken, entry.blocks.as_slice());
    }
}

// Takes blocks out of the set.
fn release(taken: &mut BlockSet, blocks: &[u32])
    requires { All (λ b. b < length taken.old) blocks.now }
    ensures lost { Loses blocks.now taken.old taken.new }
    ensures capacity { length taken.new ≡ length taken.old }
{
    for block in blocks {
        taken.remove(*block);
    }
}

// Puts blocks into the set.
fn take(taken: &mut BlockSet, blocks: &[u32])
    requires { All (λ b. b < length taken.old) blocks.now }
    ensures { IsAdded blocks.now taken.old taken.new }
{
    for block in blocks {
        taken.insert(*block);
    }
}
