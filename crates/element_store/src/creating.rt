//! A new storage.

ghost use Rattle.std.specs.Prelude.{◌≡◌, ◌≤◌, ◌+◌, IsTrue, IfOk, OnOk, IsErrOf, map, length};
ghost use Rattle.std.specs.List.{All};
ghost use Rattle.per_base.specs.Causes.{Rose};
ghost use Rattle.disk_model.specs.Damage.{IsSoundFor};
ghost use Rattle.disk_model.specs.Frame.{Spares, IsSettledOn};
ghost use Rattle.guarded_cell.specs.Stops.{IsSlotPiece};
ghost use Rattle.index_text.specs.Spelling.{index_text};
ghost use Rattle.disk_model.specs.Medium.{Quiet, EachCase, Elapses};
ghost use Rattle.disk_model.specs.Place.{IsOutside};
ghost use Rattle.element_state.specs.States.{store_at, fresh_element, fresh_entry, fresh_map, fresh_state, fresh_view};
ghost use Rattle.element_state.specs.Clean.{IsClean, IsPiece};
ghost use Rattle.index_text.specs.Contents.{AreContents};
ghost use Rattle.element_state.specs.Conditions.{IsShape};
ghost use Rattle.element_store.specs.Committing.{index_in};
ghost use Rattle.element_store.specs.Creates.{IsUntorn, creating_cost, fresh_length};
ghost use Rattle.element_store.specs.Stores.{IsUsed, store_shape, view_in};

use crate::store::Store;
use crate::taking::blocks_taken_by;
use crate::writing::{blocks_in_area, put_contents};
use block_files::BlockSet;
use disk_model::Disk;
use element_state::{Shape, StoreError};
use guarded_cell::{format_cell, keep_only};
use per_base::{Content, Entry, Fresh, Numbers};
use std::alloc::{AllocError, Global};

/// Creates a storage with these contents, and gives up what its place held. The old indexes are blanked before any
/// content is written, since they may name the blocks that are being written.
///
/// # Errors
///
/// `Device` where the disk fails, and `OutOfMemory`. Never `Corrupt`.
pub fn create<D: Disk>(
    alloc: Global,
    disk: &mut D,
    shape: Shape,
    contents: Vec<Fresh>,
) -> Result<Store, StoreError>
    requires shape { IsShape shape }
    requires contents { AreContents shape.kind shape.allowed contents.items }

    // Just these contents stand there, under generation 1, with no other text; and the storage is in use, by an index
    // of format 2.
    ensures opens { IsTrue D.told → OnOk result (store_at (D.medium disk.new).image shape
        ≡ fresh_state 1 (fresh_map contents.items)) }
    ensures used { IfOk result (IsUsed D.told (D.medium disk.new).image) }
    ensures shape { IfOk result (λ store. store_shape store ≡ shape) }
    ensures view { IfOk result (λ store. view_in store ≡ fresh_view 1 (fresh_map contents.items)) }
    ensures format { IfOk result (λ store. (index_in store).format ≡ 2) }
    // The place is clean, whatever it held, and nothing is pending.
    ensures clean { IsTrue D.told → OnOk result (IsClean shape (D.medium disk.new).image) }
    ensures quiet { OnOk result (Quiet (D.medium disk.new)) }

    // The disk's count of faults rose where the answer is `Device`, and stayed with any other answer.
    ensures never_corrupt { ¬ (IsErrOf result StoreError.Corrupt) }
    ensures cause { IsErrOf result StoreError.Device → Rose (D.medium disk.old).faults (D.medium disk.new).faults }
    ensures passes { OnOk result ((D.medium disk.new).faults ≡ (D.medium disk.old).faults) }
    ensures fed { IsErrOf result StoreError.OutOfMemory → (D.medium disk.new).faults ≡ (D.medium disk.old).faults }

    // At no moment does an index name blocks that are being written. So where a crash makes by chance no text in a
    // slot, that is a torn one that passes its hash, it makes no content by chance either.
    ensures untorn { IsTrue D.told → Quiet (D.medium disk.old)
        → EachCase (IsUntorn shape.place) (D.medium disk.old) (D.medium disk.new) }
    ensures sound { IsTrue D.told → Quiet (D.medium disk.old)
        → EachCase (λ c. IsSoundFor (IsSlotPiece shape.place) c
        → IsSoundFor (IsPiece shape.place) c)
        (D.medium disk.old) (D.medium disk.new) }

    // No file outside the place changes, at the end and at any moment.
    ensures elsewhere { IsTrue D.told
        → Spares (IsOutside shape.place) (D.medium disk.old).image (D.medium disk.new).image }
    ensures outside { IsTrue D.told → Quiet (D.medium disk.old)
        → EachCase (IsSettledOn (IsOutside shape.place) (D.medium disk.old).image)
        (D.medium disk.old) (D.medium disk.new) }

    // The length of the index's text follows from the contents.
    ensures text { IfOk result (λ store. length (index_text (index_in store))
        ≡ fresh_length shape.kind contents.items) }
    // However it ends, no more is written than the contents, that text and the blanks in each copy.
    ensures at_most { (D.medium disk.new).written ≤ (D.medium disk.old).written
        + creating_cost shape.place.copies shape.kind contents.items }
    // The clock and the counts of the disk only go on.
    ensures time { Elapses (D.medium disk.old) (D.medium disk.new) }
{
    let mut used = BlockSet::new(alloc, blocks_in_area(&shape))?;
    keep_only(alloc, disk, shape.place, 1, &[])?;
    let spelled = put_contents(alloc, disk, &shape, 1, &contents, &mut used)?;
    let taken = blocks_taken_by(
        alloc,
        blocks_in_area(&shape),
        spelled.index.entries.as_slice(),
    )?;
    let entries = fresh_entries(alloc, 1, contents)?;
    let cell = format_cell(alloc, disk, shape.place, spelled.text.as_slice())?;
    Ok(Store::new(
        alloc,
        shape,
        cell,
        spelled.index,
        entries,
        taken,
        Vec::new(alloc),
    ))
}

// The elements of contents that this generation wrote.
fn fresh_entries(
    alloc: Global,
    generation: u64,
    contents: Vec<Fresh>,
) -> Result<Vec<Entry>, AllocError>
    requires { All (λ f. length f.bytes ≤ 1048576) contents.items }
    ensures { IfOk result (λ entries. entries.items ≡ map (fresh_entry generation) (fresh_map contents.items)) }
{
    let mut entries = Vec::new(alloc);
    for fresh in contents {
        entries.push(fresh_entry(alloc, generation, fresh))?;
    }
    Ok(entries)
}

// The element of a content that this generation wrote.
pub(crate) fn fresh_entry(alloc: Global, generation: u64, fresh: Fresh) -> Entry
    requires { length fresh.bytes ≤ 1048576 }
    ensures { result ≡ fresh_entry generation (fresh_element fresh) }
{
    let Fresh { name, info, bytes } = fresh;
    let len = bytes.len() as u32;
    Entry {
        name,
        info,
        changed: generation,
        len,
        content: Content::Good(bytes),
        lacking: Numbers::new(Vec::new(alloc)),
    }
}
