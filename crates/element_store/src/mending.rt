//! Elements that are written again in the copies that lack them.

ghost use Rattle.std.specs.Prelude.{◌≡◌, ◌≤◌, ◌+◌, IsTrue, IfOk, OnOk, IfErr, map, length, sum_by};
ghost use Rattle.std.specs.List.{AllZip, AllByRecursion};
ghost use Rattle.per_base.specs.Causes.{Rose};
ghost use Rattle.disk_model.specs.Frame.{Spares};
ghost use Rattle.disk_model.specs.Medium.{Quiet, EachCase, Elapses};
ghost use Rattle.disk_model.specs.Place.{IsNoArea};
ghost use Rattle.index_text.specs.Rules.{IsIndex};
ghost use Rattle.element_state.specs.States.{mended_entry};
ghost use Rattle.element_state.specs.Chosen.{IsReadBy};
ghost use Rattle.element_state.specs.Conditions.{IsMended};
ghost use Rattle.element_store.specs.Mends.{IsAsBefore, IsWholeIn, MendsCase, SparesOthers, lacking_cost};

use block_files::{BlobError, mend};
use disk_model::Disk;
use element_laws::mending_keeps;
use element_state::Shape;
use index_text::Index;
use per_base::{Content, Entry, Numbers};
use std::alloc::{AllocError, Global};

// Writes each good element in place into the copies that lack it, and makes that durable. Does not allocate.
pub(crate) fn mend_durably<D: Disk>(
    disk: &mut D,
    shape: &Shape,
    index: &Index,
    views: &[Entry],
) -> Result<(), BlobError>
    requires rules { IsIndex index.now }
    requires read { AllZip (IsReadBy shape.now.place.copies) index.now.entries views.now }
    requires quiet { Quiet (D.medium disk.old) }

    ensures whole { IsTrue D.told → OnOk result (AllZip (IsWholeIn (D.medium disk.new).image shape.now.place)
        index.now.entries views.now) }
    ensures spared { IsTrue D.told → OnOk result (SparesOthers shape.now index.now views.now (D.medium disk.old).image
        (D.medium disk.new).image) }
    ensures quiet { OnOk result (Quiet (D.medium disk.new)) }

    // Where no copy lacks a good element, nothing is written.
    ensures idle { IsTrue D.told → AllByRecursion (λ e. IsMended e.content e.lacking) views.now
        → IsAsBefore (D.medium disk.old) (D.medium disk.new) }
    // However it ends, no more than the good elements in the copies that lack them.
    ensures written { (D.medium disk.new).written ≤ (D.medium disk.old).written + sum_by lacking_cost views.now }

    // Only areas change, and at any moment only in the blocks of what is mended.
    ensures elsewhere { IsTrue D.told
        → Spares (IsNoArea shape.now.place) (D.medium disk.old).image
        (D.medium disk.new).image }
    ensures during { IsTrue D.told → EachCase (MendsCase shape.now index.now views.now (D.medium disk.old).image)
        (D.medium disk.old) (D.medium disk.new) }
    ensures device { IfErr result (λ error. error ≡ BlobError.Device) }
    ensures cause { IfErr result (λ error. Rose (D.medium disk.old).faults (D.medium disk.new).faults) }
    ensures passes { OnOk result ((D.medium disk.new).faults ≡ (D.medium disk.old).faults) }
    ensures time { Elapses (D.medium disk.old) (D.medium disk.new) }
{
    mending_keeps();
    mend_each(disk, shape, index, views)?;
    disk.sync()?;
    Ok(())
}

// Does what `mend_durably` does, without the sync: what is written is durable after the next one.
fn mend_each<D: Disk>(
    disk: &mut D,
    shape: &Shape,
    index: &Index,
    views: &[Entry],
) -> Result<(), BlobError>
    requires rules { IsIndex index.now }
    requires read { AllZip (IsReadBy shape.now.place.copies) index.now.entries views.now }
    requires quiet { Quiet (D.medium disk.old) }

    ensures whole { IsTrue D.told → OnOk result (AllZip (IsWholeIn (D.medium disk.new).image shape.now.place)
        index.now.entries views.now) }
    ensures spared { IsTrue D.told → OnOk result (SparesOthers shape.now index.now views.now (D.medium disk.old).image
        (D.medium disk.new).image) }
    ensures idle { IsTrue D.told → AllByRecursion (λ e. IsMended e.content e.lacking) views.now
        → IsAsBefore (D.medium disk.old) (D.medium disk.new) }
    ensures written { (D.medium disk.new).written ≤ (D.medium disk.old).written + sum_by lacking_cost views.now }
    ensures elsewhere { IsTrue D.told
        → Spares (IsNoArea shape.now.place) (D.medium disk.old).image
        (D.medium disk.new).image }
    ensures during { EachCase (MendsCase shape.now index.now views.now (D.medium disk.old).image) (D.medium disk.old)
        (D.medium disk.new) }
    ensures device { IfErr result (λ error. error ≡ BlobError.Device) }
    ensures cause { IfErr result (λ error. Rose (D.medium disk.old).faults (D.medium disk.new).faults) }
    ensures passes { OnOk result ((D.medium disk.new).faults ≡ (D.medium disk.old).faults) }
    ensures time { Elapses (D.medium disk.old) (D.medium disk.new) }
{
    mending_keeps();
    let entries = index.entries.as_slice();
    for i in 0..entries.len() {
        let view = &views[i];
        let Content::Good(value) = &view.content else {
            continue;
        };
        mend(
            disk,
            shape.place,
            entries[i].blocks.as_slice(),
            value.as_slice(),
            view.lacking.as_slice(),
        )?;
    }
    Ok(())
}

// The elements after that.
pub(crate) fn mended_entries(alloc: Global, views: &[Entry]) -> Result<Vec<Entry>, AllocError>
    ensures { IfOk result (λ mended. mended.items ≡ map mended_entry views.now) }
{
    let mut mended = Vec::new(alloc);
    for view in views {
        mended.push(mended_entry(alloc, view)?)?;
    }
    Ok(mended)
}

// No copy lacks a good element any more.
fn mended_entry(alloc: Global, view: &Entry) -> Result<Entry, AllocError>
    ensures { IfOk result (λ mended. mended ≡ mended_entry view.now) }
{
    let name = view.name.copy()?;
    let content = view.content.copy()?;
    let lacking = match &view.content {
        Content::Good(_) => Numbers::new(Vec::new(alloc)),
        Content::Bad(_) => view.lacking.copy()?,
    };
    Ok(Entry {
        name,
        info: view.info,
        changed: view.changed,
        len: view.len,
        content,
        lacking,
    })
}
