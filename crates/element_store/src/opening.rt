//! The opening of a storage.

ghost use Rattle.std.specs.Prelude.{◌≡◌, ◌≤◌, ◌+◌, IsTrue, IfOk, OnOk, IsErrOf, Some, None, true, find};
ghost use Rattle.per_base.specs.Causes.{Rose};
ghost use Rattle.disk_model.specs.Frame.{Spares, IsSettledOn};
ghost use Rattle.disk_model.specs.Medium.{Quiet, IsIdle, EachCase, Elapses};
ghost use Rattle.disk_model.specs.Place.{IsOutside};
ghost use Rattle.element_state.specs.Chosen.{opened_of};
ghost use Rattle.element_state.specs.Clean.{IsClean};
ghost use Rattle.element_state.specs.Conditions.{IsShape};
ghost use Rattle.element_state.specs.Kept.{KeptWhileMending};
ghost use Rattle.element_state.specs.Read.{IsView};
ghost use Rattle.element_state.specs.Reports.{reports};
ghost use Rattle.element_state.specs.States.{State, store_at, mended_view};
ghost use Rattle.element_store.specs.Opened.{IsOpeningPlan, IsFoundOn, LacksNothing, OpensBy};
ghost use Rattle.element_store.specs.Committing.{index_in};
ghost use Rattle.element_store.specs.Mends.{IsAsBefore, mending_cost};
ghost use Rattle.element_store.specs.Stores.{IsUsed, store_shape, view_in};

use crate::hashing::{KeptStates, kept_of};
use crate::mending::{mend_durably, mended_entries};
use crate::reporting::reports_of;
use crate::store::Store;
use crate::taking::blocks_taken_by;
use crate::writing::blocks_in_area;
use block_files::BlockSet;
use disk_model::Disk;
use element_laws::{
    adopting_keeps, mending_keeps, places_are_clean, untouched_is_kept, use_is_adopted,
};
use element_state::{Found, Shape, StoreError, View, survey};
use guarded_cell::{Seen, Slots, adopt_seen};
use index_text::Index;
use per_base::{Entry, Report};
use std::alloc::Global;

/// A storage that was opened.
#[derive(Debug, Drop)]
pub struct OpenedStore {
    /// The storage, in use.
    pub store: Store,
    /// What was lacking, or could not be read: of the storage first, then of its elements by their names.
    pub reports: Vec<Report>,
    /// What the storage was seen as before the opening.
    pub before: View,
}

/// Opens a storage: brings every copy to the text at which it opens, and writes each element on which enough copies
/// agree into the copies that lack it.
///
/// # Errors
///
/// `Corrupt` exactly where no text qualifies, as one does that enough copies support: then nothing is written. `Device`
/// where the disk fails. `OutOfMemory`, before anything is written.
pub fn open_store<D: Disk>(
    alloc: Global,
    disk: &mut D,
    shape: Shape,
) -> Result<OpenedStore, StoreError>
    requires { IsShape shape }

    // `before` is the view at which the storage opens, and the storage then shows it mended: no copy lacks a readable
    // element. Both are views within the limits, on any disk.
    ensures before { IsTrue D.told → IfOk result (λ o. opened_of (store_at (D.medium disk.old).image shape)
        ≡ Some o.before) }
    ensures view { IfOk result (λ o. view_in o.store ≡ mended_view shape o.before) }
    ensures used { IfOk result (λ o. IsUsed D.told (D.medium disk.new).image o.store) }
    ensures shape { IfOk result (λ o. store_shape o.store ≡ shape) }
    ensures read { IfOk result (λ o. IsView shape o.before) }
    ensures shown { IfOk result (λ o. IsView shape (view_in o.store)) }

    // Its index is that of the first text that qualifies, at which the storage opens.
    ensures adopted { IsTrue D.told → IfOk result (λ o. OpensBy (D.medium disk.old).image shape (index_in o.store)) }
    // What is reported is what copies lack of `before`, or what of it cannot be read; any bytes pass as a content.
    ensures reports { IfOk result (λ o. o.reports.items ≡ reports (λ bytes. true) shape o.before) }
    // A clean place stays clean, and nothing is pending.
    ensures clean { IsTrue D.told → IsClean shape (D.medium disk.old).image
        → OnOk result (IsClean shape (D.medium disk.new).image) }
    ensures quiet { OnOk result (Quiet (D.medium disk.new)) }

    // `Corrupt` is answered only where no text qualifies; then no file changes, nothing is written, nothing is pending.
    ensures corrupt { IsTrue D.told → IsErrOf result StoreError.Corrupt
        → opened_of (store_at (D.medium disk.old).image shape) ≡ None }
    ensures untouched { IsErrOf result StoreError.Corrupt → (D.medium disk.new).image ≡ (D.medium disk.old).image }
    ensures unwritten { IsErrOf result StoreError.Corrupt → (D.medium disk.new).written ≡ (D.medium disk.old).written }
    ensures settled { IsErrOf result StoreError.Corrupt → Quiet (D.medium disk.new) }

    // Memory runs out only before anything is written.
    ensures memory { IsErrOf result StoreError.OutOfMemory
        → ((D.medium disk.new).image ≡ (D.medium disk.old).image)
        × ((D.medium disk.new).written ≡ (D.medium disk.old).written) }
    // The disk's count of faults rose where the answer is `Device`, and stayed with any other answer.
    ensures cause { IsErrOf result StoreError.Device → Rose (D.medium disk.old).faults (D.medium disk.new).faults }
    ensures passes { OnOk result ((D.medium disk.new).faults ≡ (D.medium disk.old).faults) }
    ensures fed { IsErrOf result StoreError.OutOfMemory → (D.medium disk.new).faults ≡ (D.medium disk.old).faults }
    ensures unfailed { IsErrOf result StoreError.Corrupt → (D.medium disk.new).faults ≡ (D.medium disk.old).faults }

    // Where every copy holds the index, no other text and each readable element, nothing is written.
    ensures idle { IsTrue D.told → LacksNothing shape (D.medium disk.old).image
        → IsAsBefore (D.medium disk.old) (D.medium disk.new) }
    // However it ends, no more than what copies lack of the view at which it opens, and the index; nothing where it
    // opens at none.
    ensures written { IsTrue D.told → (D.medium disk.new).written ≤ (D.medium disk.old).written
        + mending_cost shape.place.copies (opened_of (store_at (D.medium disk.old).image shape)) }

    // No file outside the place changes, at the end and at any moment.
    ensures elsewhere { IsTrue D.told
        → Spares (IsOutside shape.place) (D.medium disk.old).image (D.medium disk.new).image }
    ensures outside { IsTrue D.told → Quiet (D.medium disk.old)
        → EachCase (IsSettledOn (IsOutside shape.place) (D.medium disk.old).image)
        (D.medium disk.old) (D.medium disk.new) }

    // A stop at any moment, on a clean place where nothing was pending, keeps the storage as it was, and so on its way
    // to whatever state comes next.
    ensures any_moment { IsTrue D.told → (after : State)
        → KeptWhileMending shape after (D.medium disk.old) (D.medium disk.new) }
    // The clock and the counts of the disk only go on.
    ensures time { Elapses (D.medium disk.old) (D.medium disk.new) }
{
    use_is_adopted();
    untouched_is_kept();
    adopting_keeps();
    mending_keeps();
    places_are_clean();
    let OpeningPlan {
        seen,
        slots,
        index,
        before,
        entries,
        kept,
        reports,
        used,
    } = prepare(alloc, disk, &shape)?;
    let cell = adopt_seen(alloc, disk, shape.place, &seen, slots)?;
    mend_durably(disk, &shape, &index, before.entries.as_slice())?;
    Ok(OpenedStore {
        store: Store::new(alloc, shape, cell, index, entries, used, kept),
        reports,
        before,
    })
}

/// What an opening knows and takes before it writes anything.
#[derive(Drop)]
struct OpeningPlan {
    seen: Seen,
    slots: Slots,
    index: Index,
    before: View,
    /// The elements once they are mended.
    entries: Vec<Entry>,
    /// States of the hasher after parts of contents.
    kept: Vec<KeptStates>,
    reports: Vec<Report>,
    /// The blocks of the index.
    used: BlockSet,
}

// Reads the text at which the storage opens, and allocates for the rest.
fn prepare<D: Disk>(alloc: Global, disk: &mut D, shape: &Shape) -> Result<OpeningPlan, StoreError>
    requires { IsShape shape.now }
    ensures ready { IfOk result (IsOpeningPlan shape.now) }
    ensures found { IsTrue D.told → IfOk result (IsFoundOn (D.medium disk.old).image shape.now) }
    ensures corrupt { IsTrue D.told → IsErrOf result StoreError.Corrupt
        → opened_of (store_at (D.medium disk.old).image shape.now) ≡ None }

    ensures quiet { OnOk result (Quiet (D.medium disk.new)) }
    ensures settled { IsErrOf result StoreError.Corrupt → Quiet (D.medium disk.new) }
    ensures image { (D.medium disk.new).image ≡ (D.medium disk.old).image }
    ensures idle { Quiet (D.medium disk.old) → IsIdle (D.medium disk.old) (D.medium disk.new) }
    ensures written { (D.medium disk.new).written ≡ (D.medium disk.old).written }
    ensures cause { IsErrOf result StoreError.Device → Rose (D.medium disk.old).faults (D.medium disk.new).faults }
    ensures passes { OnOk result ((D.medium disk.new).faults ≡ (D.medium disk.old).faults) }
    ensures fed { IsErrOf result StoreError.OutOfMemory → (D.medium disk.new).faults ≡ (D.medium disk.old).faults }
    ensures unfailed { IsErrOf result StoreError.Corrupt → (D.medium disk.new).faults ≡ (D.medium disk.old).faults }
    ensures time { Elapses (D.medium disk.old) (D.medium disk.new) }
{
    let Some(
        Found {
            opens: true,
            seen,
            index,
            view,
            states,
            slots,
        },
    ) = survey(alloc, disk, shape)?
    else {
        return Err(StoreError::Corrupt);
    };
    let entries = mended_entries(alloc, view.entries.as_slice())?;
    let kept = kept_of(alloc, &entries, states);
    let reports = reports_of(alloc, shape, &view)?;
    let used = blocks_taken_by(alloc, blocks_in_area(shape), index.entries.as_slice())?;
    Ok(OpeningPlan {
        seen,
        slots,
        index,
        before: view,
        entries,
        kept,
        reports,
        used,
    })
}
