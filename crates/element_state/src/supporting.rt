//! Which copies support a text where the whole storage must agree: those that hold the text, and in which every content
//! counts.

ghost use Rattle.std.specs.Prelude.{◌≡◌, ◌≤◌, ◌<◌, IsTrue, IfOk, IsErrOf, length, OnOk};
ghost use Rattle.std.specs.List.{AllZip, list_all};
ghost use Rattle.per_base.specs.Causes.{Rose};
ghost use Rattle.disk_model.specs.Medium.{Elapses, OnlyReads};
ghost use Rattle.guarded_cell.specs.Held.{copies_that};
ghost use Rattle.element_state.specs.Views.{counts};
ghost use Rattle.element_state.specs.Chosen.{Vouches, is_whole_of};

use crate::errors::StoreError;
use block_files::get_blob;
use disk_model::{Disk, Place};
use index_text::IndexEntry;
use per_base::{Entry, Numbers};
use std::alloc::Global;

// How many of the copies of a list have every content. The elements as they were read are at hand, so only contents
// that a copy lacks are looked at again: bytes that have the hash count also where they are not the value, or not all
// within the file.
pub(crate) fn count_whole<D: Disk>(
    alloc: Global,
    disk: &mut D,
    place: Place,
    holders: &Numbers,
    entries: &[IndexEntry],
    views: &[Entry],
) -> Result<usize, StoreError>
    requires vouched { IsTrue D.told → AllZip (Vouches (D.medium disk.old).image place) entries.now views.now }
    requires length { length views.now ≡ length entries.now }
    ensures count { IsTrue D.told → IfOk result (λ n. n ≡ length
        (copies_that (is_whole_of (D.medium disk.old).image place holders.now entries.now) place.copies)) }
    ensures reads { OnlyReads (D.medium disk.old) (D.medium disk.new) }
    ensures time { Elapses (D.medium disk.old) (D.medium disk.new) }
    ensures never_corrupt { ¬ (IsErrOf result StoreError.Corrupt) }
    ensures cause { IsErrOf result StoreError.Device → Rose (D.medium disk.old).faults (D.medium disk.new).faults }
    ensures passes { OnOk result ((D.medium disk.new).faults ≡ (D.medium disk.old).faults) }
    ensures fed { IsErrOf result StoreError.OutOfMemory → (D.medium disk.new).faults ≡ (D.medium disk.old).faults }
{
    let mut count = 0;
    for copy in 0..place.copies {
        if is_whole(alloc, disk, place, copy, holders, entries, views)? {
            count += 1;
        }
    }
    Ok(count)
}

// Whether a copy is one of the list, and has every content.
fn is_whole<D: Disk>(
    alloc: Global,
    disk: &mut D,
    place: Place,
    copy: u32,
    holders: &Numbers,
    entries: &[IndexEntry],
    views: &[Entry],
) -> Result<bool, StoreError>
    requires copy { copy < place.copies }
    requires vouched { IsTrue D.told → AllZip (Vouches (D.medium disk.old).image place) entries.now views.now }
    requires length { length views.now ≡ length entries.now }
    ensures whole { IsTrue D.told → IfOk result (λ b. b ≡ is_whole_of (D.medium disk.old).image place holders.now
        entries.now copy) }
    ensures reads { OnlyReads (D.medium disk.old) (D.medium disk.new) }
    ensures time { Elapses (D.medium disk.old) (D.medium disk.new) }
    ensures never_corrupt { ¬ (IsErrOf result StoreError.Corrupt) }
    ensures cause { IsErrOf result StoreError.Device → Rose (D.medium disk.old).faults (D.medium disk.new).faults }
    ensures passes { OnOk result ((D.medium disk.new).faults ≡ (D.medium disk.old).faults) }
    ensures fed { IsErrOf result StoreError.OutOfMemory → (D.medium disk.new).faults ≡ (D.medium disk.old).faults }
{
    if !holders.as_slice().contains(&(copy + 1)) {
        return Ok(false);
    }
    let whole = have_contents(alloc, disk, place, copy, entries, views)?;
    Ok(whole)
}

// Whether every content counts in a copy.
fn have_contents<D: Disk>(
    alloc: Global,
    disk: &mut D,
    place: Place,
    copy: u32,
    entries: &[IndexEntry],
    views: &[Entry],
) -> Result<bool, StoreError>
    requires copy { copy < place.copies }
    requires vouched { IsTrue D.told → AllZip (Vouches (D.medium disk.old).image place) entries.now views.now }
    requires length { length views.now ≡ length entries.now }
    ensures all { IsTrue D.told → IfOk result (λ b. b ≡ list_all (λ e. counts (D.medium disk.old).image place e copy)
        entries.now) }
    ensures reads { OnlyReads (D.medium disk.old) (D.medium disk.new) }
    ensures time { Elapses (D.medium disk.old) (D.medium disk.new) }
    ensures never_corrupt { ¬ (IsErrOf result StoreError.Corrupt) }
    ensures cause { IsErrOf result StoreError.Device → Rose (D.medium disk.old).faults (D.medium disk.new).faults }
    ensures passes { OnOk result ((D.medium disk.new).faults ≡ (D.medium disk.old).faults) }
    ensures fed { IsErrOf result StoreError.OutOfMemory → (D.medium disk.new).faults ≡ (D.medium disk.old).faults }
{
    for i in 0..entries.len() {
        if !has_content(alloc, disk, place, copy, &entries[i], &views[i])? {
            return Ok(false);
        }
    }
    Ok(true)
}

// Whether a content counts in a copy.
fn has_content<D: Disk>(
    alloc: Global,
    disk: &mut D,
    place: Place,
    copy: u32,
    entry: &IndexEntry,
    view: &Entry,
) -> Result<bool, StoreError>
    requires copy { copy < place.copies }
    requires vouched { IsTrue D.told → Vouches (D.medium disk.old).image place entry.now view.now }
    ensures counts { IsTrue D.told → IfOk result (λ b. b ≡ counts (D.medium disk.old).image place entry.now copy) }
    ensures reads { OnlyReads (D.medium disk.old) (D.medium disk.new) }
    ensures time { Elapses (D.medium disk.old) (D.medium disk.new) }
    ensures never_corrupt { ¬ (IsErrOf result StoreError.Corrupt) }
    ensures cause { IsErrOf result StoreError.Device → Rose (D.medium disk.old).faults (D.medium disk.new).faults }
    ensures passes { OnOk result ((D.medium disk.new).faults ≡ (D.medium disk.old).faults) }
    ensures fed { IsErrOf result StoreError.OutOfMemory → (D.medium disk.new).faults ≡ (D.medium disk.old).faults }
{
    if !view.lacking.as_slice().contains(&(copy + 1)) {
        return Ok(true);
    }
    let counted = read_counted(alloc, disk, place, copy, entry)?;
    Ok(counted)
}

// Whether the bytes of one copy have the hash.
fn read_counted<D: Disk>(
    alloc: Global,
    disk: &mut D,
    place: Place,
    copy: u32,
    entry: &IndexEntry,
) -> Result<bool, StoreError>
    requires copy { copy < place.copies }
    ensures counts { IsTrue D.told → IfOk result (λ b. b ≡ counts (D.medium disk.old).image place entry.now copy) }
    ensures reads { OnlyReads (D.medium disk.old) (D.medium disk.new) }
    ensures time { Elapses (D.medium disk.old) (D.medium disk.new) }
    ensures never_corrupt { ¬ (IsErrOf result StoreError.Corrupt) }
    ensures cause { IsErrOf result StoreError.Device → Rose (D.medium disk.old).faults (D.medium disk.new).faults }
    ensures passes { OnOk result ((D.medium disk.new).faults ≡ (D.medium disk.old).faults) }
    ensures fed { IsErrOf result StoreError.OutOfMemory → (D.medium disk.new).faults ≡ (D.medium disk.old).faults }
{
    let alone = Place {
        first: place.first + 4 * copy,
        copies: 1,
    };
    let blob = get_blob(
        alloc,
        disk,
        alone,
        entry.blocks.as_slice(),
        entry.len,
        &entry.hash,
        1,
    )?;
    Ok(blob.value.is_some())
}
