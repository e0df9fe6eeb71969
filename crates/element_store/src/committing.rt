//! A commit: all of its changes, or none.

ghost use Rattle.std.specs.Prelude.{◌≡◌, [], ◌<◌, ◌≤◌, ◌+◌, ◌*◌, ◌^◌, List, length, map, IsTrue, IfSome, unwrap_or};
ghost use Rattle.std.specs.Prelude.{IfOk, IfErr, OnOk};
ghost use Rattle.std.specs.List.{AllByRecursion, AllZip};
ghost use Rattle.std.specs.Vec.{vec_len, vec_capacity};
ghost use Rattle.hash_guard.specs.SealedText.{header};
ghost use Rattle.per_base.specs.Causes.{Rose};
ghost use Rattle.per_base.specs.Names.{NamesAscend};
ghost use Rattle.disk_model.specs.Frame.{Spares, IsSettledOn};
ghost use Rattle.disk_model.specs.Medium.{Quiet, EachCase, Elapses};
ghost use Rattle.disk_model.specs.Place.{IsOutside};
ghost use Rattle.element_state.specs.Changes.{after_changes, committed_by, entry_name, touched};
ghost use Rattle.element_state.specs.Conditions.{AreCommittable};
ghost use Rattle.element_state.specs.States.{Opens};
ghost use Rattle.element_state.specs.Kept.{KeptThroughout};
ghost use Rattle.element_store.specs.Changing.{IsSmallChange, KeepsOthers};
ghost use Rattle.element_store.specs.Committing.{IsPrepared, IsReadyToPut};
ghost use Rattle.element_store.specs.Hashing.{IsHashedAs};
ghost use Rattle.element_store.specs.Stores.{IsStore, IsUsed, store_shape, view_in};

use crate::changing::{Standing, plan_changes};
use crate::creating::fresh_entry;
use crate::hashing::kept_after;
use crate::jobs::{Job, write_durably};
use crate::named::{place_of, put_in, take_out};
use crate::planning::Plan;
use crate::spelling::{Spelled, spell};
use crate::store::Store;
use crate::taking::release_replaced;
use block_files::{BlockSet, Hashed};
use disk_model::Disk;
use element_laws::{contents_keep, index_keeps, untouched_is_kept, use_is_adopted};
use guarded_cell::Cell;
use index_text::Index;
use per_base::{Bytes, Change, Entry, Fault, FileInfo, Name, Numbers};
use std::alloc::{AllocError, Global};

/// What the second half of a commit needs, which takes no more memory.
#[derive(Drop)]
struct Ready {
    index: Index,
    text: Bytes,
    room: Vec<u8>,
    /// The blocks of the index that stands and of the next one.
    used: BlockSet,
    /// Where the elements are moved to, if the list that has them has no room for the changes.
    roomy: Option<Vec<Entry>>,
    hashed: Vec<Hashed>,
}

/// What a commit needs, and the contents that it writes first.
#[derive(Drop)]
struct Prepared<'a> {
    ready: Ready,
    jobs: Vec<Job<'a>>,
}

impl Store {
    ghost use Rattle.element_state.specs.Clean.{IsClean};
    ghost use Rattle.element_state.specs.Written.{commit_cost, IsWithin};
    ghost use Rattle.index_text.specs.Spelling.{index_text};
    ghost use Rattle.element_store.specs.Stores.{entries_of};
    ghost use Rattle.element_store.specs.Committing.{index_in, index_length};
    ghost use Rattle.guarded_cell.specs.Differing.{texts_cost};
    ghost use Rattle.guarded_cell.specs.Register.{own};
    ghost use Rattle.hash_guard.specs.SealedText.{sealed};
    ghost use Rattle.element_store.specs.Stores.{store_generation};
    ghost use Rattle.per_base.specs.Faults.{HandsBack, IsDeviceFault};

    /// Makes the changes all at once: a stop at any moment leaves the storage as before or as after. Only what
    /// changed is written, and of a file that could be read only the blocks that differ. What is given beside them is
    /// let go before the first call of the disk, so that its memory is free while a sync holds what it may have to
    /// write once more.
    ///
    /// # Errors
    ///
    /// `OutOfMemory` hands back the storage, the changes and what was given beside, before any call of the disk.
    /// `Device` closes it.
    #[tactic(none)]
    pub fn commit<D: Disk, T: Drop>(
        self,
        disk: &mut D,
        changes: Vec<Change>,
        beside: T,
    ) -> Result<Store, Fault<(Store, Vec<Change>, T)>>
        // The storage is in use on this disk; the changes name each element once, and lead to a view within the limits.
        requires used { IsUsed D.told (D.medium disk.old).image self }
        requires changes { AreCommittable (store_shape self) (view_in self) changes.items }

        // It stays in use, in the same shape, and its view is the old one with the changes, under the next generation.
        ensures used { IfOk result (IsUsed D.told (D.medium disk.new).image) }
        ensures shape { IfOk result (λ store. store_shape store ≡ store_shape self) }
        ensures view { IfOk result (λ store. view_in store
            ≡ committed_by (store_shape self) (view_in self) changes.items) }
        // Nothing is pending, and a clean place stays clean.
        ensures quiet { OnOk result (Quiet (D.medium disk.new)) }
        ensures clean { IsTrue D.told → IsClean (store_shape self) (D.medium disk.old).image
            → OnOk result (IsClean (store_shape self) (D.medium disk.new).image) }

        // What no change names keeps its entry: the same blocks, length, hash, info and generation of its last change.
        // The new index is of format 2, of whichever the old one was.
        ensures carried { IfOk result (λ store. KeepsOthers changes.items (index_in self).entries
            (index_in store).entries) }
        ensures format { IfOk result (λ store. (index_in store).format ≡ 2) }

        // Running out of memory hands all that was given back, and then nothing happened. Only a disk that failed
        // closes the storage.
        ensures memory { IfErr result (λ fault. HandsBack (self, changes, beside) fault (disk.new ≡ disk.old)) }
        ensures cause { IfErr result (λ fault. IsDeviceFault fault
            → Rose (D.medium disk.old).faults (D.medium disk.new).faults) }
        ensures passes { OnOk result ((D.medium disk.new).faults ≡ (D.medium disk.old).faults) }

        // No file outside the place changes, and a stop at any moment leaves the storage as before or as after.
        ensures elsewhere { IsTrue D.told → Spares (IsOutside (store_shape self).place)
            (D.medium disk.old).image (D.medium disk.new).image }
        ensures outside { IsTrue D.told → Quiet (D.medium disk.old)
            → EachCase (IsSettledOn (IsOutside (store_shape self).place)
            (D.medium disk.old).image)
            (D.medium disk.old) (D.medium disk.new) }
        ensures any_moment { IsTrue D.told → KeptThroughout (store_shape self)
            (Opens (committed_by (store_shape self) (view_in self) changes.items) []) (D.medium disk.old)
            (D.medium disk.new) }

        // In each copy the contents that changed, and the index; at most as much where the disk failed.
        ensures written { IfOk result (λ store. IsWithin (store_shape self).place.copies
            (commit_cost (store_shape self).kind (entries_of self) changes.items) (length (index_text (index_in store)))
            (D.medium disk.old).written (D.medium disk.new).written) }
        // Where the slots' starts are blank, of the index only the runs of 256 bytes that differ from what stands
        // there, and in each copy the 44 bytes that blank the head of the old one.
        ensures differing { IsTrue D.told → IfOk result (λ store. (D.medium disk.new).written
            ≤ (D.medium disk.old).written + (store_shape self).place.copies
            * (commit_cost (store_shape self).kind (entries_of self) changes.items + 44)
            + texts_cost (store_shape self).place (own (store_generation self + 1))
            (sealed (store_generation self + 1) (index_text (index_in store))) (D.medium disk.old).image
            (store_shape self).place.copies) }
        // The length of its text follows from the elements.
        ensures text { IfOk result (λ store. length (index_text (index_in store))
            ≡ index_length (store_shape self).kind (entries_of store)) }
        // However it ends, no more than the contents and that text cost.
        ensures at_most { IsWithin (store_shape self).place.copies
            (commit_cost (store_shape self).kind (entries_of self) changes.items)
            (index_length (store_shape self).kind
            (committed_by (store_shape self) (view_in self) changes.items).entries)
            (D.medium disk.old).written (D.medium disk.new).written }
        // The clock and the counts of the disk only go on.
        ensures time { Elapses (D.medium disk.old) (D.medium disk.new) }
    {
        use_is_adopted();
        contents_keep();
        index_keeps();
        let ready = match self.write_contents(disk, &changes, beside) {
            Ok(ready) => ready,
            Err(Fault::OutOfMemory(beside)) => {
                return Err(Fault::OutOfMemory((self, changes, beside)));
            }
            Err(Fault::Device) => return Err(Fault::Device),
        };
        let Ready {
            index,
            text,
            mut room,
            mut used,
            roomy,
            hashed,
        } = ready;
        let Store {
            alloc,
            shape,
            cell,
            index: standing,
            entries,
            used: _,
            kept,
        } = self;
        let Ok(cell) = cell.write_in(disk, text.as_slice(), &mut room) else {
            return Err(Fault::Device);
        };
        release_replaced(&mut used, standing.entries(), index.entries.as_slice());
        let kept = kept_after(kept, &changes, hashed);
        let entries = changed(alloc, cell.generation(), moved(entries, roomy), changes);
        let store = Store::new(alloc, shape, cell, index, entries, used, kept);
        store.index.keep_spare(standing);
        Ok(store)
    }

    // Allocates all that the commit needs, lets go what is given beside it, and then makes the contents durable in
    // blocks outside those of the index.
    fn write_contents<D: Disk, T: Drop>(
        &self,
        disk: &mut D,
        changes: &[Change],
        beside: T,
    ) -> Result<Ready, Fault<T>>
        requires used { IsUsed D.told (D.medium disk.old).image self.now }
        requires changes { AreCommittable (store_shape self.now) (view_in self.now) changes.now }

        ensures ready { IfOk result (λ ready. IsReadyToPut D.told self.now changes.now (D.medium disk.old)
            (D.medium disk.new)
            ready.index ready.text ready.used) }
        ensures room { IfOk result (λ ready. length ready.room.items ≡ header + length ready.text) }
        ensures empty { IfOk result (λ ready. IfSome ready.roomy (λ roomy. roomy.items ≡ [])) }
        ensures capacity { IfOk result (λ ready. length (entries_of self.now) + length changes.now
            ≤ vec_capacity (unwrap_or ready.roomy self.now.entries)) }
        ensures hashed { IfOk result (λ ready. AllZip IsHashedAs changes.now ready.hashed.items) }

        ensures cost { (D.medium disk.new).written ≤ (D.medium disk.old).written
            + (store_shape self.now).place.copies * commit_cost (store_shape self.now).kind (entries_of self.now)
            changes.now }

        ensures memory { IfErr result (λ fault. HandsBack beside fault (disk.new ≡ disk.old)) }
        ensures cause { IfErr result (λ fault. IsDeviceFault fault
            → Rose (D.medium disk.old).faults (D.medium disk.new).faults) }
        ensures passes { OnOk result ((D.medium disk.new).faults ≡ (D.medium disk.old).faults) }
        ensures elsewhere { IsTrue D.told → Spares (IsOutside (store_shape self.now).place)
            (D.medium disk.old).image (D.medium disk.new).image }
        ensures outside { IsTrue D.told → Quiet (D.medium disk.old)
            → EachCase (IsSettledOn (IsOutside (store_shape self.now).place)
            (D.medium disk.old).image)
            (D.medium disk.old) (D.medium disk.new) }
        ensures any_moment { IsTrue D.told → KeptThroughout (store_shape self.now)
            (Opens (committed_by (store_shape self.now) (view_in self.now) changes.now) []) (D.medium disk.old)
            (D.medium disk.new) }
        ensures time { Elapses (D.medium disk.old) (D.medium disk.new) }
    {
        untouched_is_kept();
        use_is_adopted();
        contents_keep();
        match self.prepare(changes) {
            Err(_) => Err(Fault::OutOfMemory(beside)),
            Ok(prepared) => {
                drop(beside);
                match write_durably(disk, self.shape.place, &prepared.jobs) {
                    Ok(()) => Ok(prepared.ready),
                    Err(_) => Err(Fault::Device),
                }
            }
        }
    }

    // Takes all the memory of a commit.
    fn prepare<'a>(&'a self, changes: &'a [Change]) -> Result<Prepared<'a>, AllocError>
        requires store { IsStore self.now }
        requires changes { AreCommittable (store_shape self.now) (view_in self.now) changes.now }
        ensures plan { IfOk result (λ p. IsPrepared self.now changes.now p.ready.index p.ready.text p.ready.used
            p.jobs.items) }
        ensures room { IfOk result (λ p. length p.ready.room.items ≡ header + length p.ready.text) }
        ensures empty { IfOk result (λ p. IfSome p.ready.roomy (λ roomy. roomy.items ≡ [])) }
        ensures capacity { IfOk result (λ p. length (entries_of self.now) + length changes.now
            ≤ vec_capacity (unwrap_or p.ready.roomy self.now.entries)) }
        ensures hashed { IfOk result (λ p. AllZip IsHashedAs changes.now p.ready.hashed.items) }
    {
        let alloc = self.alloc;
        let standing = Standing {
            kind: self.shape.kind,
            generation: self.cell.generation() + 1,
            index: self.index.entries(),
            entries: self.entries.as_slice(),
        };
        let mut used = self.used.copy()?;
        let hashed = self.hash_changes(changes)?;
        let spare = self.index.take_spare(alloc);
        let Plan { entries, jobs } = plan_changes(
            alloc, standing, spare, changes, &hashed, &mut used,
        )?;
        let Spelled { index, text } = spell(alloc, standing.kind, entries)?;
        let room = Cell::room(alloc, text.len())?;
        let roomy = room_for(alloc, &self.entries, changes.len())?;
        let ready = Ready {
            index,
            text,
            room,
            used,
            roomy,
            hashed,
        };
        Ok(Prepared { ready, jobs })
    }
}

// An empty list with room for the elements and that many more, where the list that has them has no such room.
fn room_for(
    alloc: Global,
    entries: &Vec<Entry>,
    more: usize,
) -> Result<Option<Vec<Entry>>, AllocError>
    requires { length entries.now.items + more < 2 ^ 64 }
    ensures empty { IfOk result (λ room. IfSome room (λ roomy. roomy.items ≡ [])) }
    ensures capacity { IfOk result (λ room. length entries.now.items + more
        ≤ vec_capacity (unwrap_or room entries.now)) }
{
    let needed = entries.len() + more;
    if needed <= entries.capacity() {
        return Ok(None);
    }
    let roomy = Vec::with_capacity(alloc, needed)?;
    Ok(Some(roomy))
}

// The elements, moved to the list that has room for more, if there is one.
fn moved(entries: Vec<Entry>, room: Option<Vec<Entry>>) -> Vec<Entry>
    requires empty { IfSome room (λ roomy. roomy.items ≡ []) }
    requires room { vec_len entries ≤ vec_capacity (unwrap_or room entries) }
    ensures items { result.items ≡ entries.items }
    ensures capacity { vec_capacity (unwrap_or room entries) ≤ vec_capacity result }
{
    let Some(mut roomy) = room else {
        return entries;
    };
    let mut entries = entries;
    let _ = roomy.append(&mut entries);
    roomy
}

// The elements after these changes.
fn changed(alloc: Global, generation: u64, entries: Vec<Entry>, changes: Vec<Change>) -> Vec<Entry>
    requires ascend { NamesAscend entry_name entries.items }
    requires small { AllByRecursion IsSmallChange changes.items }
    requires room { vec_len entries + length changes.items ≤ vec_capacity entries }
    ensures { result.items ≡ after_changes generation entries.items changes.items }
{
    let mut entries = entries;
    for change in changes {
        match change {
            Change::Put(fresh) => put_in(&mut entries, fresh_entry(alloc, generation, fresh)),
            Change::Remove(name) => take_out(&mut entries, &name),
            Change::Touch(name, info) => touch(alloc, generation, &mut entries, &name, info),
        }
    }
    entries
}

// Gives the element of a name another info, and the number of the change.
fn touch(alloc: Global, generation: u64, entries: &mut Vec<Entry>, name: &Name, info: FileInfo)
    requires { NamesAscend entry_name entries.old.items }
    ensures items { entries.new.items ≡ map (touched generation name.now info) entries.old.items }
    ensures ascend { NamesAscend entry_name entries.new.items }
    ensures capacity { vec_capacity entries.old ≤ vec_capacity entries.new }
    ensures no_more { vec_len entries.new ≤ vec_len entries.old }
{
    if let Ok(at) = place_of(entries, name) {
        let entry = &mut entries[at];
        entry.info = Some(info);
        entry.changed = generation;
        entry.lacking = Numbers::new(Vec::new(alloc));
    }
}
