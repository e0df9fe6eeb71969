//! Which blocks of an area are taken.

ghost use Rattle.std.specs.Prelude.{◌≡◌, ◌<◌, ◌≤◌, ◌+◌, ◌^◌, ℕ, true, false, length, replicate, slice_set, IfOk};
ghost use Rattle.block_files.specs.BlockSets.{contains, free_of, IsFirstFree};

use std::alloc::{AllocError, Global};
use std::marker::Model;

/// A set of blocks of an area: those that are taken. Contracts see it as a list of flags, one for each block below the
/// capacity, true for each that is in the set. A block that is not in the set is free.
#[derive(Debug, Drop)]
pub struct BlockSet {
    flags: Vec<bool>,
    // The lowest block that is free, or the capacity: a choice of blocks begins here.
    first_free: u32,
}

impl Model for BlockSet {
    ghost use Rattle.std.specs.Prelude.{◌<◌, ◌^◌, List, Bool, length};
    ghost use Rattle.block_files.specs.BlockSets.{IsFirstFree};

    ghost Value = { List Bool };

    ghost view = { λ set. set.flags.items };

    ghost invariant = { λ set. (length set.flags.items < 2 ^ 32) × IsFirstFree set.flags.items set.first_free };
}

impl BlockSet {
    /// The empty set of blocks below the capacity: all of them are free.
    ///
    /// # Errors
    ///
    /// Only `OutOfMemory`.
    pub fn new(alloc: Global, capacity: u32) -> Result<BlockSet, AllocError>
        ensures empty { IfOk result (λ set. set ≡ replicate capacity false) }
        ensures free { IfOk result (λ set. free_of set ≡ capacity) }
    {
        let flags = vec![in alloc; false; capacity as usize]?;
        Ok(BlockSet {
            flags,
            first_free: 0,
        })
    }

    /// A copy that holds the same blocks.
    ///
    /// # Errors
    ///
    /// Only `OutOfMemory`.
    pub fn copy(&self) -> Result<BlockSet, AllocError>
        ensures { IfOk result (λ copy. copy ≡ self.now) }
    {
        Ok(BlockSet {
            flags: self.flags.clone()?,
            first_free: self.first_free,
        })
    }

    /// The blocks that the set can hold are those below this number. Does not allocate.
    pub fn capacity(&self) -> u32
        ensures { result ≡ length self.now }
    {
        self.flags.len() as u32
    }

    // The lowest block outside the set, or the capacity.
    pub(crate) fn first_free(&self) -> u32
        ensures { IsFirstFree self.now result }
    {
        self.first_free
    }

    /// Whether the block is in the set. Does not allocate.
    pub fn contains(&self, block: u32) -> bool
        requires { block < length self.now }
        ensures { result ≡ contains self.now block }
    {
        self.flags[block as usize]
    }

    /// Puts the block into the set. Does not allocate.
    pub fn insert(&mut self, block: u32)
        requires { block < length self.old }
        ensures set { self.new ≡ slice_set self.old block true }
        ensures free { free_of self.old ≤ free_of self.new + 1 }
    {
        self.flags[block as usize] = true;
        if block == self.first_free {
            self.first_free = next_free(&self.flags, block + 1);
        }
    }

    /// Takes the block out of the set. Does not allocate.
    pub fn remove(&mut self, block: u32)
        requires { block < length self.old }
        ensures set { self.new ≡ slice_set self.old block false }
        ensures free { free_of self.old ≤ free_of self.new }
    {
        self.flags[block as usize] = false;
        self.first_free = self.first_free.min(block);
    }
}

// The lowest free block that is not below `from`, or the number of the flags.
fn next_free(flags: &[bool], from: u32) -> u32
    requires few { length flags.now < 2 ^ 32 }
    requires inside { from ≤ length flags.now }
    ensures within { (from ≤ result) × (result ≤ length flags.now) }
    ensures taken { (b : ℕ) → from ≤ b → b < result → contains flags.now b ≡ true }
    ensures free { result < length flags.now → contains flags.now result ≡ false }
{
    for block in from..flags.len() as u32 {
        if !flags[block as usize] {
            return block;
        }
    }
    flags.len() as u32
}
