//! Plans of changes: the next entries of an index and the jobs that write their contents, before anything is written.

ghost use Rattle.std.specs.Prelude.{◌≡◌, [], ◌∷◌, ◌<◌, ◌≤◌, ◌+◌, ◌^◌, List, Bool, IfOk, OnOk, length, map, sum_by};
ghost use Rattle.std.specs.List.{AllByRecursion, AllZip, IsDistinct};
ghost use Rattle.std.specs.Str.{bytes_eq};
ghost use Rattle.std.specs.Vec.{vec_len, vec_capacity};
ghost use Rattle.sha2.specs.Sha256.{sha256};
ghost use Rattle.block_files.specs.BlockSets.{free_of};
ghost use Rattle.per_base.specs.declared.elements.Entry.{Entry};
ghost use Rattle.per_base.specs.declared.elements.Change.TheVariants.{Put};
ghost use Rattle.per_base.specs.Changes.{changed_name};
ghost use Rattle.per_base.specs.Names.{NamesAscend};
ghost use Rattle.element_state.specs.Changes.{after_change, after_changes};
ghost use Rattle.index_text.specs.Contents.{SuitsKind};
ghost use Rattle.element_state.specs.Conditions.{IsChange};
ghost use Rattle.element_state.specs.Written.{change_cost};
ghost use Rattle.element_store.specs.Hashing.{IsHashedAs};
ghost use Rattle.element_store.specs.Jobs.{jobs_cost};
ghost use Rattle.element_store.specs.Changing.{named_by, IsSeenAs, change_blocks, blocks_of_changes};
ghost use Rattle.element_store.specs.Changing.{AreStandingEntries};
ghost use Rattle.element_store.specs.Changing.{IsEarlierContent, IsPlanned, KeepsOthers, IsGrownBy, IsTraced};
ghost use Rattle.element_store.specs.Changing.{touched_entry};

use crate::jobs::Job;
use crate::named::{place_of, put_in, take_out};
use crate::planning::{Plan, entry_of};
use block_files::{BlockSet, Hashed, reserve_hashed};
use index_text::IndexEntry;
use per_base::{Change, Content, Entry, FileInfo, Fresh, Name, StoreKind};
use std::alloc::{AllocError, Global};

/// What stands before the changes, and the generation that they make.
#[derive(Clone, Copy)]
pub(crate) struct Standing<'a> {
    pub(crate) kind: StoreKind,
    pub(crate) generation: u64,
    pub(crate) index: &'a [IndexEntry],
    pub(crate) entries: &'a [Entry],
}

/// A content in its blocks, beside which a new one is written; nothing where there is none.
#[derive(Clone, Copy)]
struct Earlier<'a> {
    bytes: &'a [u8],
    blocks: &'a [u32],
}

// Chooses blocks outside the set for what the changes put, and changes the entries of the index.
pub(crate) fn plan_changes<'a>(
    alloc: Global,
    standing: Standing<'a>,
    spare: Vec<IndexEntry>,
    changes: &'a [Change],
    hashed: &[Hashed],
    used: &mut BlockSet,
) -> Result<Plan<'a>, AllocError>
    requires hashed { AllZip IsHashedAs changes.now hashed.now }
    requires standing { AreStandingEntries standing.kind used.old standing.index.now standing.entries.now }
    requires changes { AllByRecursion (IsChange standing.kind standing.entries.now) changes.now }
    requires apart { IsDistinct bytes_eq (map changed_name changes.now) }
    requires free { blocks_of_changes changes.now ≤ free_of used.old }
    ensures planned { IfOk result (λ plan. IsPlanned standing.entry.kind standing.entry.index.now
        standing.entry.entries.now used.old used.new
        plan.entries.items (after_changes standing.entry.generation standing.entry.entries.now changes.now)
        plan.jobs.items) }
    ensures traced { IfOk result (λ plan. IsTraced standing.entry.index.now used.old used.new changes.now
        plan.entries.items) }
    ensures cost { IfOk result (λ plan.
        jobs_cost plan.jobs.items ≤ sum_by (change_cost standing.entry.kind standing.entry.entries.now) changes.now) }
{
    let entries = with_room(alloc, standing.index, spare, changes.len())?;
    let jobs = Vec::new(alloc);
    let mut plan = Plan { entries, jobs };
    for (i, change) in changes.iter().enumerate() {
        plan_change(alloc, standing, change, &hashed[i], used, &mut plan)?;
    }
    Ok(plan)
}

// Copies of the entries, with room for that many more. Spare entries are taken in place of copies where they are the
// same.
fn with_room(
    alloc: Global,
    entries: &[IndexEntry],
    spare: Vec<IndexEntry>,
    more: usize,
) -> Result<Vec<IndexEntry>, AllocError>
    requires { length entries.now + more < 2 ^ 64 }
    ensures copies { IfOk result (λ copies. copies.items ≡ entries.now) }
    ensures room { IfOk result (λ copies. vec_len copies + more ≤ vec_capacity copies) }
{
    let mut copies = Vec::with_capacity(alloc, entries.len() + more)?;
    let mut spare = spare.into_iter();
    for entry in entries {
        copies.push(copy_over(entry, spare.next())?)?;
    }
    Ok(copies)
}

// A copy of the entry, which takes the name and the blocks of a spare one where they are the same.
fn copy_over(entry: &IndexEntry, spare: Option<IndexEntry>) -> Result<IndexEntry, AllocError>
    ensures { IfOk result (λ copy. copy ≡ entry.now) }
{
    if let Some(spare) = spare {
        if spare.name == entry.name && spare.blocks.as_slice() == entry.blocks.as_slice() {
            return Ok(IndexEntry {
                name: spare.name,
                info: entry.info,
                changed: entry.changed,
                len: entry.len,
                hash: entry.hash,
                blocks: spare.blocks,
            });
        }
    }
    entry.copy()
}

// Plans one change after others.
fn plan_change<'a>(
    alloc: Global,
    standing: Standing<'a>,
    change: &'a Change,
    hashed: &Hashed,
    used: &mut BlockSet,
    plan: &mut Plan<'a>,
) -> Result<(), AllocError>
    requires hashed { IsHashedAs change.now hashed.now }
    requires standing { AreStandingEntries standing.kind used.old standing.index.now standing.entries.now }
    requires change { IsChange standing.kind standing.entries.now change.now }
    requires ascend { NamesAscend named_by plan.old.entries.items }
    requires room { vec_len plan.old.entries < vec_capacity plan.old.entries }
    requires free { change_blocks change.now ≤ free_of used.old }
    ensures planned { OnOk result ((start : List Bool) (elements : List Entry)
        → IsPlanned standing.entry.kind standing.entry.index.now standing.entry.entries.now start used.old
        plan.old.entries.items elements plan.old.jobs.items
        → IsPlanned standing.entry.kind standing.entry.index.now standing.entry.entries.now start used.new
        plan.new.entries.items
        (after_change standing.entry.generation elements change.now) plan.new.jobs.items) }
    ensures others { OnOk result (KeepsOthers (change.now ∷ []) plan.old.entries.items plan.new.entries.items) }
    ensures grown { OnOk result (IsGrownBy plan.new.entries.items used.old used.new) }
    ensures standing { OnOk result (AreStandingEntries standing.entry.kind used.new standing.entry.index.now
        standing.entry.entries.now) }
    ensures free { OnOk result (free_of used.old ≤ free_of used.new + change_blocks change.now) }
    ensures cost { OnOk result (jobs_cost plan.new.jobs.items
        ≤ jobs_cost plan.old.jobs.items + change_cost standing.entry.kind standing.entry.entries.now change.now) }
    ensures capacity { OnOk result (vec_capacity plan.old.entries ≤ vec_capacity plan.new.entries) }
    ensures one_more { OnOk result (vec_len plan.new.entries ≤ vec_len plan.old.entries + 1) }
{
    match change {
        Change::Put(fresh) => plan_put(alloc, standing, fresh, hashed.hash, used, plan)?,
        Change::Remove(name) => take_out(&mut plan.entries, name),
        Change::Touch(name, info) => {
            touch_entry(&mut plan.entries, standing.generation, name, *info)
        }
    }
    Ok(())
}

// Plans a content that is new, or another one for an element.
fn plan_put<'a>(
    alloc: Global,
    standing: Standing<'a>,
    fresh: &'a Fresh,
    hash: [u8; 32],
    used: &mut BlockSet,
    plan: &mut Plan<'a>,
) -> Result<(), AllocError>
    requires hash { hash ≡ sha256 fresh.now.bytes }
    requires standing { AreStandingEntries standing.kind used.old standing.index.now standing.entries.now }
    requires fresh { SuitsKind standing.kind fresh.now }
    requires ascend { NamesAscend named_by plan.old.entries.items }
    requires room { vec_len plan.old.entries < vec_capacity plan.old.entries }
    requires free { change_blocks (Put fresh.now) ≤ free_of used.old }
    ensures planned { OnOk result ((start : List Bool) (elements : List Entry)
        → IsPlanned standing.entry.kind standing.entry.index.now standing.entry.entries.now start used.old
        plan.old.entries.items elements plan.old.jobs.items
        → IsPlanned standing.entry.kind standing.entry.index.now standing.entry.entries.now start used.new
        plan.new.entries.items
        (after_change standing.entry.generation elements (Put fresh.now)) plan.new.jobs.items) }
    ensures others { OnOk result (KeepsOthers (Put fresh.now ∷ []) plan.old.entries.items plan.new.entries.items) }
    ensures grown { OnOk result (IsGrownBy plan.new.entries.items used.old used.new) }
    ensures standing { OnOk result (AreStandingEntries standing.entry.kind used.new standing.entry.index.now
        standing.entry.entries.now) }
    ensures free { OnOk result (free_of used.old ≤ free_of used.new + change_blocks (Put fresh.now)) }
    ensures cost { OnOk result (jobs_cost plan.new.jobs.items
        ≤ jobs_cost plan.old.jobs.items + change_cost standing.entry.kind standing.entry.entries.now (Put fresh.now)) }
    ensures capacity { OnOk result (vec_capacity plan.old.entries ≤ vec_capacity plan.new.entries) }
    ensures one_more { OnOk result (vec_len plan.new.entries ≤ vec_len plan.old.entries + 1) }
{
    let bytes = fresh.bytes.as_slice();
    let earlier = earlier_content(standing, &fresh.name);
    let blob = reserve_hashed(alloc, used, bytes, hash, earlier.bytes, earlier.blocks)?;
    let blocks = blob.blocks.copy()?;
    let entry = entry_of(standing.generation, fresh, blob)?;
    let job = Job {
        blocks,
        bytes,
        was: earlier.bytes,
    };
    plan.jobs.push(job)?;
    put_in(&mut plan.entries, entry);
    Ok(())
}

// A file that can be read shares its blocks; a key is written whole.
fn earlier_content<'a>(standing: Standing<'a>, name: &Name) -> Earlier<'a>
    requires ascend { NamesAscend named_by standing.index.now }
    requires seen { AllZip IsSeenAs standing.index.now standing.entries.now }
    ensures { IsEarlierContent standing.entry.kind standing.entry.index.now standing.entry.entries.now name.now
        result.bytes.now result.blocks.now }
{
    match standing.kind {
        StoreKind::Keys => nothing(),
        StoreKind::Files => match place_of(standing.entries, name) {
            Ok(at) => match &standing.entries[at].content {
                Content::Good(bytes) => Earlier {
                    bytes: bytes.as_slice(),
                    blocks: standing.index[at].blocks.as_slice(),
                },
                Content::Bad(_) => nothing(),
            },
            Err(_) => nothing(),
        },
    }
}

fn nothing<'a>() -> Earlier<'a>
    ensures bytes { result.bytes.now ≡ [] }
    ensures blocks { result.blocks.now ≡ [] }
{
    Earlier {
        bytes: &[],
        blocks: &[],
    }
}

// Gives the entry of a name another info, and the number of the change.
fn touch_entry(entries: &mut Vec<IndexEntry>, generation: u64, name: &Name, info: FileInfo)
    requires { NamesAscend named_by entries.old.items }
    ensures items { entries.new.items ≡ map (touched_entry generation name.now info) entries.old.items }
    ensures capacity { vec_capacity entries.old ≤ vec_capacity entries.new }
    ensures no_more { vec_len entries.new ≤ vec_len entries.old }
{
    if let Ok(at) = place_of(entries, name) {
        let entry = &mut entries[at];
        entry.info = Some(info);
        entry.changed = generation;
    }
}
