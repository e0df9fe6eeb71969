//! Plans: blocks, entries and jobs for contents, before anything is written.

ghost use Rattle.std.specs.Prelude.{◌≡◌, ◌≤◌, IfOk, length};
ghost use Rattle.std.specs.List.{All};
ghost use Rattle.sha2.specs.Sha256.{sha256};
ghost use Rattle.per_base.specs.Contents.{blocks_for};
ghost use Rattle.block_files.specs.BlockSets.{free_of};
ghost use Rattle.element_store.specs.Plans.{IsPlanOf, IsWrittenEntry, blocks_of_all};

use crate::jobs::Job;
use block_files::{BlockSet, PutBlob, reserve_blob};
use index_text::IndexEntry;
use per_base::Fresh;
use std::alloc::{AllocError, Global};

/// What is to be written: the entries of an index, and the contents on their way into their blocks.
#[derive(Drop)]
pub(crate) struct Plan<'a> {
    pub(crate) entries: Vec<IndexEntry>,
    pub(crate) jobs: Vec<Job<'a>>,
}

// Chooses blocks outside the set for contents that are written whole.
pub(crate) fn plan_contents<'a>(
    alloc: Global,
    generation: u64,
    contents: &'a [Fresh],
    used: &mut BlockSet,
) -> Result<Plan<'a>, AllocError>
    requires small { All (λ f. length f.bytes ≤ 1048576) contents.now }
    requires free { blocks_of_all contents.now ≤ free_of used.old }
    ensures { IfOk result (λ plan. IsPlanOf generation contents.now used.old used.new plan.entries.items
        plan.jobs.items) }
{
    let mut entries = Vec::new(alloc);
    let mut jobs = Vec::new(alloc);
    for fresh in contents {
        let bytes = fresh.bytes.as_slice();
        let blob = reserve_blob(alloc, used, bytes)?;
        let blocks = blob.blocks.copy()?;
        let entry = entry_of(generation, fresh, blob)?;
        entries.push(entry)?;
        let job = Job {
            blocks,
            bytes,
            was: &[],
        };
        jobs.push(job)?;
    }
    Ok(Plan { entries, jobs })
}

// The entry of a content for which blocks were chosen.
pub(crate) fn entry_of(
    generation: u64,
    fresh: &Fresh,
    blob: PutBlob,
) -> Result<IndexEntry, AllocError>
    requires small { length fresh.now.bytes ≤ 1048576 }
    requires hash { blob.hash ≡ sha256 fresh.now.bytes }
    requires count { length blob.blocks ≡ blocks_for (length fresh.now.bytes) }
    ensures made { IfOk result (IsWrittenEntry generation fresh.now) }
    ensures in_place { IfOk result (λ e. e.blocks ≡ blob.blocks) }
{
    let PutBlob { blocks, hash } = blob;
    let name = fresh.name.copy()?;
    Ok(IndexEntry {
        name,
        info: fresh.info,
        changed: generation,
        len: fresh.bytes.len() as u32,
        hash,
        blocks,
    })
}
