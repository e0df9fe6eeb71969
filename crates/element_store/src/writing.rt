//! Contents that are written whole, with the index that names them.

ghost use Rattle.std.specs.Prelude.{◌≡◌, ◌≤◌, ◌+◌, ◌*◌, IsTrue, IfOk, OnOk, IsErrOf, IsOk, Some, true, length};
ghost use Rattle.std.specs.List.{AllZip};
ghost use Rattle.per_base.specs.Causes.{Rose};
ghost use Rattle.disk_model.specs.Frame.{Keeps, Spares};
ghost use Rattle.disk_model.specs.Medium.{Quiet, EachCase, Elapses};
ghost use Rattle.disk_model.specs.Place.{IsNoArea};
ghost use Rattle.block_files.specs.BlockSets.{contains, free_of};
ghost use Rattle.index_text.specs.Sizes.{area_blocks};
ghost use Rattle.index_text.specs.Spelling.{index_text};
ghost use Rattle.index_text.specs.Contents.{AreContents};
ghost use Rattle.element_state.specs.Conditions.{IsShape};
ghost use Rattle.element_store.specs.Plans.{IsWrittenEntry, blocks_of_all};
ghost use Rattle.element_store.specs.Spelled.{ShowsFresh, IsContentsCase, IsTextOf};

use crate::jobs::write_durably;
use crate::planning::{Plan, plan_contents};
use crate::spelling::{Spelled, spell};
use block_files::BlockSet;
use disk_model::Disk;
use element_state::{Shape, StoreError};
use per_base::Fresh;
use std::alloc::Global;

// How many blocks the area of a storage has.
pub(crate) fn blocks_in_area(shape: &Shape) -> u32
    requires { shape.now.allowed ≤ 4194304 }
    ensures { result ≡ area_blocks shape.now.allowed }
{
    2 * (shape.allowed as u32 / 256 + 1024)
}

// Writes contents into blocks outside the set, durably, and gives their index with its text.
pub(crate) fn put_contents<D: Disk>(
    alloc: Global,
    disk: &mut D,
    shape: &Shape,
    generation: u64,
    contents: &[Fresh],
    used: &mut BlockSet,
) -> Result<Spelled, StoreError>
    requires shape { IsShape shape.now }
    requires contents { AreContents shape.now.kind shape.now.allowed contents.now }
    requires capacity { length used.old ≡ area_blocks shape.now.allowed }
    requires free { blocks_of_all contents.now ≤ free_of used.old }

    ensures fit { IfOk result (λ s. IsTextOf shape.now s.text s.index) }
    ensures format { IfOk result (λ s. s.index.format ≡ 2) }
    ensures made { IfOk result (λ s. AllZip (IsWrittenEntry generation) contents.now s.index.entries) }
    ensures shown { IsTrue D.told → IfOk result (λ s.
        ShowsFresh (D.medium disk.new).image shape.now.place shape.now.m generation contents.now s.index.entries) }
    ensures keeps { IsTrue D.told → OnOk result (Keeps (IsNoArea shape.now.place)
        (λ k. contains used.old k ≡ true)
        (D.medium disk.old).image (D.medium disk.new).image) }
    ensures quiet { OnOk result (Quiet (D.medium disk.new)) }
    ensures never_corrupt { ¬ (IsErrOf result StoreError.Corrupt) }
    ensures cause { IsErrOf result StoreError.Device → Rose (D.medium disk.old).faults (D.medium disk.new).faults }
    ensures passes { OnOk result ((D.medium disk.new).faults ≡ (D.medium disk.old).faults) }
    ensures fed { IsErrOf result StoreError.OutOfMemory → (D.medium disk.new).faults ≡ (D.medium disk.old).faults }

    // Only areas change, and at any moment a crash leaves the blocks of the set alone.
    ensures elsewhere { IsTrue D.told
        → Spares (IsNoArea shape.now.place) (D.medium disk.old).image
        (D.medium disk.new).image }
    ensures during { EachCase
        (IsContentsCase shape.now.place used.old (D.medium disk.old) (D.medium disk.new)
        (IsOk result))
        (D.medium disk.old) (D.medium disk.new) }
    ensures written { (D.medium disk.new).written ≤ (D.medium disk.old).written
        + shape.now.place.copies * (256 * blocks_of_all contents.now) }
    ensures time { Elapses (D.medium disk.old) (D.medium disk.new) }
{
    let Plan { entries, jobs } = plan_contents(alloc, generation, contents, used)?;
    let spelled = spell(alloc, shape.kind, entries)?;
    match write_durably(disk, shape.place, &jobs) {
        Ok(()) => Ok(spelled),
        Err(_) => Err(StoreError::Device),
    }
}
