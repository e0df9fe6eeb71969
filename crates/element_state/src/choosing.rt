//! Which of the texts that fit a storage opens at, and its view.

ghost use Rattle.std.specs.Prelude.{◌≡◌, ◌≤◌, ◌+◌, IsTrue, IfOk, IfSome, IsErrOf, length, not, slice_index_or, ◌<◌};
ghost use Rattle.std.specs.Prelude.{OnOk};
ghost use Rattle.std.specs.List.{AllByRecursion, AllZip};
ghost use Rattle.std.specs.Option.{option_map};
ghost use Rattle.per_base.specs.Causes.{Rose};
ghost use Rattle.disk_model.specs.Medium.{OnlyReads, Elapses};
ghost use Rattle.disk_model.specs.Orders.{named_in};
ghost use Rattle.element_state.specs.Conditions.{IsShape};
ghost use Rattle.element_state.specs.Fit.{fit_texts};
ghost use Rattle.element_state.specs.Views.{lacks_one, lacks_number, entries_seen, qualifies, store_lacking};
ghost use Rattle.element_state.specs.Chosen.{chosen, IsFit, IsReadBy};
ghost use Rattle.element_state.specs.Surveys.{IsFirstQualified, IsFoundView, IsHeldOn, IsReadText, IsTried, IsViewedOn};
ghost use Rattle.element_state.specs.Surveys.{AreOfEntry, HasStates, found_text};
ghost use Rattle.element_state.specs.Surveys.{view_by};

use crate::errors::StoreError;
use crate::reading::{ReadEntries, read_entries};
use crate::shapes::{Shape, View};
use crate::supporting::count_whole;
use crate::surveying::Found;
use disk_model::{Disk, Place};
use guarded_cell::{Seen, Slots};
use index_text::Index;
use per_base::{Entry, Numbers, Scope, Sequence};
use std::alloc::{AllocError, Global};

// The first text that qualifies, or else the first, with its view.
pub(crate) fn choose<D: Disk>(
    alloc: Global,
    disk: &mut D,
    shape: &Shape,
    slots: Slots,
    texts: Vec<(Seen, Index)>,
) -> Result<Option<Found>, StoreError>
    requires shape { IsShape shape.now }
    requires fit { AllByRecursion (IsFit shape.now) texts.items }
    requires texts { IsTrue D.told → texts.items ≡ fit_texts shape.now (D.medium disk.old).image }
    requires held { IsTrue D.told → AllByRecursion (IsHeldOn (D.medium disk.old).image shape.now) texts.items }
    ensures chosen { IsTrue D.told → IfOk result (λ found. option_map found_text found
        ≡ chosen (D.medium disk.old).image shape.now) }
    ensures viewed { IsTrue D.told → IfOk result (λ found.
        IfSome found (IsViewedOn (D.medium disk.old).image shape.now)) }
    ensures slots { IfOk result (λ found. IfSome found (λ f. f.slots ≡ slots)) }
    ensures found { IfOk result (λ found. IfSome found (IsFoundView shape.now)) }
    ensures states { IfOk result (λ found. IfSome found HasStates) }
    ensures reads { OnlyReads (D.medium disk.old) (D.medium disk.new) }
    ensures time { Elapses (D.medium disk.old) (D.medium disk.new) }
    ensures never_corrupt { ¬ (IsErrOf result StoreError.Corrupt) }
    ensures cause { IsErrOf result StoreError.Device → Rose (D.medium disk.old).faults (D.medium disk.new).faults }
    ensures passes { OnOk result ((D.medium disk.new).faults ≡ (D.medium disk.old).faults) }
    ensures fed { IsErrOf result StoreError.OutOfMemory → (D.medium disk.new).faults ≡ (D.medium disk.old).faults }
{
    let sole = texts.len() <= 1;
    if let Some((at, read)) = first_qualifying(alloc, disk, shape, &texts)? {
        let found = found_at(alloc, shape, slots, texts, at, true, sole, read)?;
        return Ok(Some(found));
    }
    if texts.is_empty() {
        return Ok(None);
    }
    let read = read_entries(
        alloc,
        disk,
        shape.place,
        shape.m,
        texts[0].1.entries.as_slice(),
    )?;
    let found = found_at(alloc, shape, slots, texts, 0, false, sole, read)?;
    Ok(Some(found))
}

// One of the texts, with the view of its elements.
fn found_at(
    alloc: Global,
    shape: &Shape,
    slots: Slots,
    texts: Vec<(Seen, Index)>,
    at: usize,
    opens: bool,
    sole: bool,
    read: ReadEntries,
) -> Result<Found, AllocError>
    requires { at < length texts.items }
    ensures opens { IfOk result (λ found. found.opens ≡ opens) }
    ensures slots { IfOk result (λ found. found.slots ≡ slots) }
    ensures text { IfOk result (λ found. (found.seen, found.index)
        ≡ slice_index_or texts.items at (found.seen, found.index)) }
    ensures view { IfOk result (λ found. found.view ≡ view_by shape.now found.seen sole read.entries) }
    ensures states { IfOk result (λ found. found.states ≡ read.states) }
{
    let mut texts = texts;
    let (seen, index) = texts.swap_remove(at);
    let view = view_of(alloc, shape, &seen, sole, read.entries)?;
    Ok(Found {
        opens,
        seen,
        index,
        view,
        states: read.states,
        slots,
    })
}

// The first text that qualifies, with its elements.
fn first_qualifying<D: Disk>(
    alloc: Global,
    disk: &mut D,
    shape: &Shape,
    texts: &[(Seen, Index)],
) -> Result<Option<(usize, ReadEntries)>, StoreError>
    requires shape { IsShape shape.now }
    requires fit { AllByRecursion (IsFit shape.now) texts.now }
    requires held { IsTrue D.told → AllByRecursion (IsHeldOn (D.medium disk.old).image shape.now) texts.now }
    ensures first { IsTrue D.told → IfOk result (λ found. IsFirstQualified
        (D.medium disk.old).image shape.now texts.now found) }
    ensures among { IfOk result (λ found. IfSome found (IsReadText shape.now.place.copies texts.now)) }
    ensures states { IfOk result (λ found. IfSome found (λ f. AllZip AreOfEntry f.1.entries f.1.states.items)) }
    ensures reads { OnlyReads (D.medium disk.old) (D.medium disk.new) }
    ensures time { Elapses (D.medium disk.old) (D.medium disk.new) }
    ensures never_corrupt { ¬ (IsErrOf result StoreError.Corrupt) }
    ensures cause { IsErrOf result StoreError.Device → Rose (D.medium disk.old).faults (D.medium disk.new).faults }
    ensures passes { OnOk result ((D.medium disk.new).faults ≡ (D.medium disk.old).faults) }
    ensures fed { IsErrOf result StoreError.OutOfMemory → (D.medium disk.new).faults ≡ (D.medium disk.old).faults }
{
    for at in 0..texts.len() {
        let tried = try_text(alloc, disk, shape, &texts[at])?;
        if let Some(read) = tried {
            return Ok(Some((at, read)));
        }
    }
    Ok(None)
}

// The elements of a text that qualifies.
fn try_text<D: Disk>(
    alloc: Global,
    disk: &mut D,
    shape: &Shape,
    text: &(Seen, Index),
) -> Result<Option<ReadEntries>, StoreError>
    requires shape { IsShape shape.now }
    requires fit { IsFit shape.now text.now }
    requires held { IsTrue D.told → IsHeldOn (D.medium disk.old).image shape.now text.now }
    ensures tried { IsTrue D.told → IfOk result (λ tried. IsTried (D.medium disk.old).image shape.now text.now tried) }
    ensures read { IfOk result (λ tried. IfSome tried (λ read.
        AllZip (IsReadBy shape.now.place.copies) text.now.1.entries read.entries)) }
    ensures states { IfOk result (λ tried. IfSome tried (λ read. AllZip AreOfEntry read.entries read.states.items)) }
    ensures reads { OnlyReads (D.medium disk.old) (D.medium disk.new) }
    ensures time { Elapses (D.medium disk.old) (D.medium disk.new) }
    ensures never_corrupt { ¬ (IsErrOf result StoreError.Corrupt) }
    ensures cause { IsErrOf result StoreError.Device → Rose (D.medium disk.old).faults (D.medium disk.new).faults }
    ensures passes { OnOk result ((D.medium disk.new).faults ≡ (D.medium disk.old).faults) }
    ensures fed { IsErrOf result StoreError.OutOfMemory → (D.medium disk.new).faults ≡ (D.medium disk.old).faults }
{
    let (seen, index) = text;
    if seen.copies.as_slice().len() < shape.m as usize {
        return Ok(None);
    }
    let read = read_entries(alloc, disk, shape.place, shape.m, index.entries.as_slice())?;
    if !is_supported(alloc, disk, shape, seen, index, read.entries.as_slice())? {
        return Ok(None);
    }
    Ok(Some(read))
}

// Whether a text that enough copies hold qualifies.
fn is_supported<D: Disk>(
    alloc: Global,
    disk: &mut D,
    shape: &Shape,
    seen: &Seen,
    index: &Index,
    entries: &[Entry],
) -> Result<bool, StoreError>
    requires enough { shape.now.m ≤ length seen.now.copies }
    requires length { length entries.now ≡ length index.now.entries }
    requires views { IsTrue D.told → entries.now ≡ entries_seen (D.medium disk.old).image shape.now
        (seen.now, index.now) }
    requires held { IsTrue D.told → IsHeldOn (D.medium disk.old).image shape.now (seen.now, index.now) }
    ensures qualifies { IsTrue D.told → IfOk result (λ b. b
        ≡ qualifies (D.medium disk.old).image shape.now (seen.now, index.now)) }
    ensures reads { OnlyReads (D.medium disk.old) (D.medium disk.new) }
    ensures time { Elapses (D.medium disk.old) (D.medium disk.new) }
    ensures never_corrupt { ¬ (IsErrOf result StoreError.Corrupt) }
    ensures cause { IsErrOf result StoreError.Device → Rose (D.medium disk.old).faults (D.medium disk.new).faults }
    ensures passes { OnOk result ((D.medium disk.new).faults ≡ (D.medium disk.old).faults) }
    ensures fed { IsErrOf result StoreError.OutOfMemory → (D.medium disk.new).faults ≡ (D.medium disk.old).faults }
{
    match shape.scope {
        Scope::Element => Ok(true),
        Scope::Storage => {
            let whole = count_whole(
                alloc,
                disk,
                shape.place,
                &seen.copies,
                index.entries.as_slice(),
                entries,
            )?;
            Ok(whole >= shape.m as usize)
        }
    }
}

// The view of a text by its elements.
fn view_of(
    alloc: Global,
    shape: &Shape,
    seen: &Seen,
    sole: bool,
    entries: Sequence<Entry>,
) -> Result<View, AllocError>
    ensures { IfOk result (λ view. view ≡ view_by shape.now seen.now sole entries) }
{
    let lacking = list_lacking(
        alloc,
        shape.place,
        shape.scope,
        &seen.copies,
        entries.as_slice(),
    )?;
    Ok(View {
        generation: seen.generation,
        lacking,
        sole,
        entries,
    })
}

// The copies that lack the storage, counted from 1.
fn list_lacking(
    alloc: Global,
    place: Place,
    scope: Scope,
    holders: &Numbers,
    entries: &[Entry],
) -> Result<Numbers, AllocError>
    ensures { IfOk result (λ numbers. numbers ≡ store_lacking scope (λ copy. not (named_in holders.now (copy + 1)))
        entries.now place.copies) }
{
    let mut numbers = Vec::new(alloc);
    for copy in 0..place.copies {
        if is_lacking(scope, holders, entries, copy + 1) {
            numbers.push(copy + 1)?;
        }
    }
    Ok(Numbers::new(numbers))
}

// Whether a copy, counted from 1, lacks the storage.
fn is_lacking(scope: Scope, holders: &Numbers, entries: &[Entry], number: u32) -> bool
    ensures { result ≡ lacks_number scope (not (named_in holders.now number)) entries.now number }
{
    if !holders.as_slice().contains(&number) {
        return true;
    }
    match scope {
        Scope::Element => false,
        Scope::Storage => lacks_one(entries, number),
    }
}

// Whether a copy, counted from 1, lacks one of the elements.
fn lacks_one(entries: &[Entry], number: u32) -> bool
    ensures { result ≡ lacks_one entries.now number }
{
    entries
        .iter()
        .any(|entry| entry.lacking.as_slice().contains(&number))
}
