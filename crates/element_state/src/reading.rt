//! Reading the elements of a text: each content once, in all copies.

ghost use Rattle.std.specs.Prelude.{◌≡◌, ◌≤◌, IsTrue, IfOk, IsErrOf, map, length, OnOk};
ghost use Rattle.std.specs.List.{AllZip, AllByRecursion};
ghost use Rattle.per_base.specs.Causes.{Rose};
ghost use Rattle.disk_model.specs.Medium.{Elapses, OnlyReads};
ghost use Rattle.element_state.specs.Views.{content_of, entry_view};
ghost use Rattle.element_state.specs.Chosen.{IsReadBy, HasBlocks};
ghost use Rattle.element_state.specs.Surveys.{AreOfEntry};

use crate::errors::StoreError;
use block_files::get_blob;
use disk_model::{Disk, Place};
use index_text::IndexEntry;
use per_base::{Bytes, Content, Entry, Sequence};
use sha2::Sha256;
use std::alloc::Global;

/// The elements of a text, and of each the states of the hasher on the way through its content.
#[derive(Drop)]
pub(crate) struct ReadEntries {
    pub(crate) entries: Sequence<Entry>,
    pub(crate) states: Vec<Vec<Sha256>>,
}

/// One of them.
#[derive(Drop)]
struct ReadEntry {
    entry: Entry,
    states: Vec<Sha256>,
}

// The elements of an index.
pub(crate) fn read_entries<D: Disk>(
    alloc: Global,
    disk: &mut D,
    place: Place,
    m: u32,
    entries: &[IndexEntry],
) -> Result<ReadEntries, StoreError>
    requires m { 1 ≤ m }
    requires blocks { AllByRecursion HasBlocks entries.now }
    ensures views { IsTrue D.told → IfOk result (λ read. read.entries
        ≡ map (entry_view (D.medium disk.old).image place m) entries.now) }
    ensures read { IfOk result (λ read. AllZip (IsReadBy place.copies) entries.now read.entries) }
    ensures states { IfOk result (λ read. AllZip AreOfEntry read.entries read.states.items) }
    ensures reads { OnlyReads (D.medium disk.old) (D.medium disk.new) }
    ensures time { Elapses (D.medium disk.old) (D.medium disk.new) }
    ensures never_corrupt { ¬ (IsErrOf result StoreError.Corrupt) }
    ensures cause { IsErrOf result StoreError.Device → Rose (D.medium disk.old).faults (D.medium disk.new).faults }
    ensures passes { OnOk result ((D.medium disk.new).faults ≡ (D.medium disk.old).faults) }
    ensures fed { IsErrOf result StoreError.OutOfMemory → (D.medium disk.new).faults ≡ (D.medium disk.old).faults }
{
    let mut views = Vec::new(alloc);
    let mut states = Vec::new(alloc);
    for entry in entries {
        let read = read_entry(alloc, disk, place, m, entry)?;
        views.push(read.entry)?;
        states.push(read.states)?;
    }
    Ok(ReadEntries {
        entries: Sequence::new(views),
        states,
    })
}

// One element: the value on which m copies agree, or else the salvage.
#[tactic(auto, using(crate::proofs::Contents::content_unvoted), unfolding(crate::specs::Views::entry_view))]
fn read_entry<D: Disk>(
    alloc: Global,
    disk: &mut D,
    place: Place,
    m: u32,
    entry: &IndexEntry,
) -> Result<ReadEntry, StoreError>
    requires m { 1 ≤ m }
    requires blocks { HasBlocks entry.now }
    ensures view { IsTrue D.told → IfOk result (λ read. read.entry
        ≡ entry_view (D.medium disk.old).image place m entry.now) }
    ensures read { IfOk result (λ read. IsReadBy place.copies entry.now read.entry) }
    ensures states { IfOk result (λ read. AreOfEntry read.entry read.states) }
    ensures reads { OnlyReads (D.medium disk.old) (D.medium disk.new) }
    ensures time { Elapses (D.medium disk.old) (D.medium disk.new) }
    ensures never_corrupt { ¬ (IsErrOf result StoreError.Corrupt) }
    ensures cause { IsErrOf result StoreError.Device → Rose (D.medium disk.old).faults (D.medium disk.new).faults }
    ensures passes { OnOk result ((D.medium disk.new).faults ≡ (D.medium disk.old).faults) }
    ensures fed { IsErrOf result StoreError.OutOfMemory → (D.medium disk.new).faults ≡ (D.medium disk.old).faults }
{
    let blob = get_blob(
        alloc,
        disk,
        place,
        entry.blocks.as_slice(),
        entry.len,
        &entry.hash,
        m,
    )?;
    let name = entry.name.copy()?;
    let content = content_of(blob.value, blob.salvage);
    let entry = Entry {
        name,
        info: entry.info,
        changed: entry.changed,
        len: entry.len,
        content,
        lacking: blob.lacking,
    };
    Ok(ReadEntry {
        entry,
        states: blob.states,
    })
}

// The value, or else the salvage.
fn content_of(value: Option<Bytes>, salvage: Option<Bytes>) -> Content
    ensures { result ≡ content_of value salvage }
{
    match value {
        Some(value) => Content::Good(value),
        None => Content::Bad(salvage),
    }
}
