//! What holds of the entries together: names ascend, and no block occurs twice.

ghost use Rattle.std.specs.Prelude.{◌≡◌, IfOk};
ghost use Rattle.std.specs.BTreeSet.{IsFromIterResult};
ghost use Rattle.std.specs.Ordering.{is_lt, nat_cmp};
ghost use Rattle.per_base.specs.Names.{name_cmp};
ghost use Rattle.index_text.specs.Rules.{blocks_of, names_of};
ghost use Rattle.index_text.specs.Reading.{are_distinct, ascends};

use crate::entries::IndexEntry;
use per_base::Name;
use std::alloc::{AllocError, Global};
use std::collections::BTreeSet;

/// Whether each name is below the next.
pub fn names_ascend(entries: &[IndexEntry]) -> bool
    ensures { result ≡ ascends (names_of entries.now) }
{
    for i in 1..entries.len() {
        if !is_below(&entries[i - 1].name, &entries[i].name) {
            return false;
        }
    }
    true
}

fn is_below(name: &Name, next: &Name) -> bool
    ensures { result ≡ is_lt (name_cmp name.now next.now) }
{
    name < next
}

/// Whether no block occurs twice in all entries together.
pub fn blocks_are_distinct(alloc: Global, entries: &[IndexEntry]) -> Result<bool, AllocError>
    ensures { IfOk result (λ distinct. distinct ≡ are_distinct (blocks_of entries.now)) }
{
    let blocks = all_blocks(alloc, entries)?;
    numbers_are_distinct(alloc, blocks.as_slice())
}

fn all_blocks(alloc: Global, entries: &[IndexEntry]) -> Result<Vec<u32>, AllocError>
    ensures { IfOk result (λ blocks. blocks.items ≡ blocks_of entries.now) }
{
    let mut blocks = Vec::new(alloc);
    for entry in entries {
        blocks.extend_from_slice(entry.blocks.as_slice())?;
    }
    Ok(blocks)
}

fn numbers_are_distinct(alloc: Global, numbers: &[u32]) -> Result<bool, AllocError>
    ensures { IfOk result (λ distinct. distinct ≡ are_distinct numbers.now) }
{
    let different = different_numbers(alloc, numbers)?;
    Ok(different.len() == numbers.len())
}

fn different_numbers(alloc: Global, numbers: &[u32]) -> Result<BTreeSet<u32>, AllocError>
    ensures { IfOk result (λ different. IsFromIterResult nat_cmp numbers.now different) }
{
    numbers.iter().copied().collect(alloc)
}
