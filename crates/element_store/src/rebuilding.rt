//! A storage rebuilt beside what its place holds.

ghost use Rattle.std.specs.Prelude.{◌≡◌, ◌≤◌, ◌<◌, ◌+◌, ◌*◌, ◌/◌, IsTrue, IfOk, OnOk, IsErrOf, length};
ghost use Rattle.per_base.specs.Causes.{Rose};
ghost use Rattle.disk_model.specs.Frame.{Spares, IsSettledOn};
ghost use Rattle.disk_model.specs.Medium.{Quiet, EachCase, Elapses};
ghost use Rattle.disk_model.specs.Place.{IsNoSlot, IsOutside};
ghost use Rattle.hash_guard.specs.SealedText.{header, max_body};
ghost use Rattle.guarded_cell.specs.Seens.{IsSealable};
ghost use Rattle.block_files.specs.BlockSets.{free_of};
ghost use Rattle.index_text.specs.Sizes.{area_blocks};
ghost use Rattle.element_state.specs.States.{State, store_at, salvage_of, next_generation, fresh_map, fresh_state};
ghost use Rattle.element_state.specs.States.{fresh_view};
ghost use Rattle.element_state.specs.Clean.{IsClean};
ghost use Rattle.index_text.specs.Contents.{AreContents};
ghost use Rattle.element_state.specs.Conditions.{IsShape};
ghost use Rattle.element_state.specs.Kept.{KeptThroughout};
ghost use Rattle.element_store.specs.Rebuilds.{IsGround, IsRebuilt, IsLeftWith, OneTextStops, HasNext};
ghost use Rattle.element_store.specs.Rebuilds.{rebuilding_cost};

use crate::taking::blocks_taken_by;
use crate::writing::{blocks_in_area, put_contents};
use block_files::BlockSet;
use disk_model::{Disk, Place};
use element_state::{Found, Shape, StoreError, survey};
use guarded_cell::{adopt, keep_only};
use per_base::Fresh;
use std::alloc::Global;

/// Rebuilds a storage with these contents, under the generation after that of the text at which it opens or, where it
/// is corrupt, of its salvage; under generation 1 where it has none. Until the new index stands, a stop leaves the
/// storage as it was.
///
/// # Errors
///
/// `Device` where the disk fails, and `OutOfMemory`. Never `Corrupt`.
pub fn rebuild<D: Disk>(
    alloc: Global,
    disk: &mut D,
    shape: &Shape,
    contents: Vec<Fresh>,
) -> Result<(), StoreError>
    requires shape { IsShape shape.now }
    requires contents { AreContents shape.now.kind shape.now.allowed contents.items }
    // The generation of what the place holds, if it holds anything, is not the greatest.
    requires not_worn { IsTrue D.told → HasNext (salvage_of (store_at (D.medium disk.old).image shape.now)) }

    // Just these contents stand there, under the next generation, with no other text; and the storage could be used, by
    // an index of format 2.
    ensures opens { IsTrue D.told → OnOk result (store_at (D.medium disk.new).image shape.now
        ≡ fresh_state (next_generation (salvage_of (store_at (D.medium disk.old).image shape.now)))
        (fresh_map contents.items)) }
    ensures in_use { IsTrue D.told → OnOk result (IsRebuilt shape.now (D.medium disk.new).image
        (fresh_view (next_generation (salvage_of (store_at (D.medium disk.old).image shape.now)))
        (fresh_map contents.items))) }
    // The place is clean, whatever it held, and nothing is pending.
    ensures clean { IsTrue D.told → OnOk result (IsClean shape.now (D.medium disk.new).image) }
    ensures quiet { OnOk result (Quiet (D.medium disk.new)) }

    // The disk's count of faults rose where the answer is `Device`, and stayed with any other answer.
    ensures never_corrupt { ¬ (IsErrOf result StoreError.Corrupt) }
    ensures cause { IsErrOf result StoreError.Device → Rose (D.medium disk.old).faults (D.medium disk.new).faults }
    ensures passes { OnOk result ((D.medium disk.new).faults ≡ (D.medium disk.old).faults) }
    ensures fed { IsErrOf result StoreError.OutOfMemory → (D.medium disk.new).faults ≡ (D.medium disk.old).faults }

    // A stop at any moment, on a clean place where nothing was pending, keeps the storage as it was or with the new
    // contents; and no file outside the place changes.
    ensures any_moment { IsTrue D.told → KeptThroughout shape.now
        (fresh_state (next_generation (salvage_of (store_at (D.medium disk.old).image shape.now)))
        (fresh_map contents.items))
        (D.medium disk.old) (D.medium disk.new) }
    ensures elsewhere { IsTrue D.told
        → Spares (IsOutside shape.now.place) (D.medium disk.old).image
        (D.medium disk.new).image }
    ensures outside { IsTrue D.told → Quiet (D.medium disk.old)
        → EachCase (IsSettledOn (IsOutside shape.now.place) (D.medium disk.old).image)
        (D.medium disk.old) (D.medium disk.new) }

    // However it ends, in each copy no more than the contents in whole blocks of 256 bytes and two indexes.
    ensures written { (D.medium disk.new).written
        ≤ (D.medium disk.old).written + rebuilding_cost shape.now.place.copies contents.items }
    // The clock and the counts of the disk only go on.
    ensures time { Elapses (D.medium disk.old) (D.medium disk.new) }
{
    let Ground {
        mut used,
        generation,
    } = prepare(alloc, disk, shape)?;
    let spelled = put_contents(alloc, disk, shape, generation, &contents, &mut used)?;
    adopt(
        alloc,
        disk,
        shape.place,
        generation,
        spelled.text.as_slice(),
    )?;
    Ok(())
}

/// Where new contents may be beside what a storage holds, and the generation of their index.
#[derive(Drop)]
struct Ground {
    used: BlockSet,
    generation: u64,
}

// Settles the copies on the text beside which a storage is rebuilt.
fn prepare<D: Disk>(alloc: Global, disk: &mut D, shape: &Shape) -> Result<Ground, StoreError>
    requires shape { IsShape shape.now }
    requires not_worn { IsTrue D.told → HasNext (salvage_of (store_at (D.medium disk.old).image shape.now)) }

    ensures ready { IsTrue D.told → IsClean shape.now (D.medium disk.old).image → IfOk result (λ ground.
        IsGround shape.now (D.medium disk.old).image (D.medium disk.new).image ground.used ground.generation) }
    ensures generation { IsTrue D.told → IfOk result (λ ground.
        ground.generation ≡ next_generation (salvage_of (store_at (D.medium disk.old).image shape.now))) }
    ensures positive { IfOk result (λ ground. 1 ≤ ground.generation) }
    ensures capacity { IfOk result (λ ground. length ground.used ≡ area_blocks shape.now.allowed) }
    ensures free { IfOk result (λ ground. shape.now.allowed / 256 + 1024 ≤ free_of ground.used) }
    ensures quiet { OnOk result (Quiet (D.medium disk.new)) }
    ensures never_corrupt { ¬ (IsErrOf result StoreError.Corrupt) }
    ensures cause { IsErrOf result StoreError.Device → Rose (D.medium disk.old).faults (D.medium disk.new).faults }
    ensures passes { OnOk result ((D.medium disk.new).faults ≡ (D.medium disk.old).faults) }
    ensures fed { IsErrOf result StoreError.OutOfMemory → (D.medium disk.new).faults ≡ (D.medium disk.old).faults }

    // Only slots change, and at any moment the storage stands.
    ensures kept { IsTrue D.told → (state : State) → KeptThroughout shape.now state (D.medium disk.old)
        (D.medium disk.new) }
    ensures elsewhere { IsTrue D.told
        → Spares (IsNoSlot shape.now.place) (D.medium disk.old).image
        (D.medium disk.new).image }
    ensures any_moment { IsTrue D.told → Quiet (D.medium disk.old)
        → EachCase (IsSettledOn (IsNoSlot shape.now.place) (D.medium disk.old).image)
        (D.medium disk.old) (D.medium disk.new) }
    ensures written { (D.medium disk.new).written
        ≤ (D.medium disk.old).written + shape.now.place.copies * (header + max_body + header) }
    ensures time { Elapses (D.medium disk.old) (D.medium disk.new) }
{
    let blocks = blocks_in_area(shape);
    match survey(alloc, disk, shape)? {
        Some(found) => {
            let used = blocks_taken_by(alloc, blocks, found.index.entries.as_slice())?;
            leave_one_text(alloc, disk, shape.place, &found)?;
            let generation = found.view.generation.saturating_add(1);
            Ok(Ground { used, generation })
        }
        None => {
            let used = BlockSet::new(alloc, blocks)?;
            Ok(Ground {
                used,
                generation: 1,
            })
        }
    }
}

// Brings every copy to the text at which a storage opens, or takes away all texts but its salvage.
fn leave_one_text<D: Disk>(
    alloc: Global,
    disk: &mut D,
    place: Place,
    found: &Found,
) -> Result<(), StoreError>
    requires { IsSealable found.now.seen }
    ensures left { IsTrue D.told → OnOk result (IsLeftWith found.now.opens place
        found.now.seen.generation found.now.seen.text
        (D.medium disk.old).image (D.medium disk.new).image) }
    ensures quiet { OnOk result (Quiet (D.medium disk.new)) }
    ensures never_corrupt { ¬ (IsErrOf result StoreError.Corrupt) }
    ensures cause { IsErrOf result StoreError.Device → Rose (D.medium disk.old).faults (D.medium disk.new).faults }
    ensures passes { OnOk result ((D.medium disk.new).faults ≡ (D.medium disk.old).faults) }
    ensures fed { IsErrOf result StoreError.OutOfMemory → (D.medium disk.new).faults ≡ (D.medium disk.old).faults }
    ensures elsewhere { IsTrue D.told → Spares (IsNoSlot place) (D.medium disk.old).image
        (D.medium disk.new).image }
    ensures any_moment { IsTrue D.told → Quiet (D.medium disk.old)
        → EachCase (OneTextStops found.now.opens place found.now.seen.generation found.now.seen.text
        (D.medium disk.old).image)
        (D.medium disk.old) (D.medium disk.new) }
    ensures written { (D.medium disk.new).written
        ≤ (D.medium disk.old).written + place.copies * (header + max_body + header) }
    ensures time { Elapses (D.medium disk.old) (D.medium disk.new) }
{
    let generation = found.seen.generation;
    let text = found.seen.text.as_slice();
    if found.opens {
        adopt(alloc, disk, place, generation, text)?;
    } else {
        keep_only(alloc, disk, place, generation, text)?;
    }
    Ok(())
}
