//! Finding the text at which a storage opens, and reading it.

ghost use Rattle.std.specs.Prelude.{◌≡◌, IsTrue, IfOk, IfSome, OnOk, IsErrOf};
ghost use Rattle.std.specs.Option.{option_map};
ghost use Rattle.per_base.specs.Causes.{Rose};
ghost use Rattle.disk_model.specs.Medium.{Quiet, IsIdle, Elapses};
ghost use Rattle.guarded_cell.specs.Slots.{IsSlotsOf};
ghost use Rattle.element_state.specs.Conditions.{IsShape};
ghost use Rattle.element_state.specs.States.{store_at, salvage_of};
ghost use Rattle.element_state.specs.Chosen.{chosen, opened_of};
ghost use Rattle.element_state.specs.Read.{IsView};
ghost use Rattle.element_state.specs.Surveys.{HasStates, IsFoundView, IsViewedOn, found_text, opened_view};

use crate::choosing::choose;
use crate::errors::StoreError;
use crate::fitting::fit_texts;
use crate::shapes::{Shape, View};
use disk_model::Disk;
use guarded_cell::{Looked, Seen, Slots, look};
use index_text::Index;
use sha2::Sha256;
use std::alloc::Global;

/// A text that denotes a storage, with all that was read of it.
#[derive(Debug, Drop)]
pub struct Found {
    /// Whether the storage opens at this text; else it is the first that fits.
    pub opens: bool,
    /// The text, with the copies that hold it.
    pub seen: Seen,
    /// The index that the text spells.
    pub index: Index,
    /// What it denotes.
    pub view: View,
    /// Of each element of the view the states of the hasher after each 32 KiB of its content, in order; fewer where
    /// memory was short, and none of a content that cannot be read.
    pub states: Vec<Vec<Sha256>>,
    /// Which slots of the place hold a text.
    pub slots: Slots,
}

/// Finds the text at which the storage opens, or else the first that fits, and reads it: each content once. None where
/// no text fits. It begins with a sync and writes nothing.
///
/// # Errors
///
/// `Device` where the disk fails, and `OutOfMemory`. Never `Corrupt`.
pub fn survey<D: Disk>(
    alloc: Global,
    disk: &mut D,
    shape: &Shape,
) -> Result<Option<Found>, StoreError>
    requires { IsShape shape.now }

    // Which text it is, and whether the storage opens at it. Its view and its copies are what the bytes of the disk
    // give: at this view the storage opens, or it is the salvage.
    ensures chosen { IsTrue D.told → IfOk result (λ found. option_map found_text found
        ≡ chosen (D.medium disk.old).image shape.now) }
    ensures viewed { IsTrue D.told → IfOk result (λ found.
        IfSome found (IsViewedOn (D.medium disk.old).image shape.now)) }
    ensures opened { IsTrue D.told → IfOk result (λ found. opened_of (store_at (D.medium disk.old).image shape.now)
        ≡ opened_view found) }
    ensures salvaged { IsTrue D.told → IfOk result (λ found. salvage_of (store_at (D.medium disk.old).image shape.now)
        ≡ option_map (λ f. f.view) found) }

    // Which slots hold a text.
    ensures slots { IsTrue D.told → IfOk result (λ found. IfSome found (λ f.
        IsSlotsOf (D.medium disk.old).image shape.now.place f.slots)) }

    // Whether the disk's bytes are modelled or not: the text fits, the view has an element for each of its entries, and
    // the states of the hasher are those of the contents in the view.
    ensures found { IfOk result (λ found. IfSome found (IsFoundView shape.now)) }
    ensures states { IfOk result (λ found. IfSome found HasStates) }

    // On success nothing is pending afterwards. However it ends, no byte changes and none is written; on a disk that
    // was quiet a crash meanwhile leaves what reads gave.
    ensures quiet { OnOk result (Quiet (D.medium disk.new)) }
    ensures image { (D.medium disk.new).image ≡ (D.medium disk.old).image }
    ensures idle { Quiet (D.medium disk.old) → IsIdle (D.medium disk.old) (D.medium disk.new) }
    ensures written { (D.medium disk.new).written ≡ (D.medium disk.old).written }
    // The disk's count of faults rose where the answer is `Device`, and stayed with any other answer.
    ensures never_corrupt { ¬ (IsErrOf result StoreError.Corrupt) }
    ensures cause { IsErrOf result StoreError.Device → Rose (D.medium disk.old).faults (D.medium disk.new).faults }
    ensures passes { OnOk result ((D.medium disk.new).faults ≡ (D.medium disk.old).faults) }
    ensures fed { IsErrOf result StoreError.OutOfMemory → (D.medium disk.new).faults ≡ (D.medium disk.old).faults }
    // The clock and the counts of the disk only go on.
    ensures time { Elapses (D.medium disk.old) (D.medium disk.new) }
{
    let Looked { seens, slots } = look(alloc, disk, shape.place)?;
    let texts = fit_texts(alloc, shape, seens)?;
    let found = choose(alloc, disk, shape, slots, texts)?;
    Ok(found)
}

/// What the storage denotes. It begins with a sync and writes nothing.
///
/// # Errors
///
/// `Corrupt` exactly where no text qualifies, `Device` where the disk fails, and `OutOfMemory`.
pub fn inspect<D: Disk>(alloc: Global, disk: &mut D, shape: &Shape) -> Result<View, StoreError>
    requires { IsShape shape.now }

    // Where the disk's bytes are modelled: the view at which the storage opens, and `Corrupt` where it does not.
    ensures view { IsTrue D.told → IfOk result (λ view. opened_of (store_at (D.medium disk.old).image shape.now)
        ≡ Some view) }
    ensures corrupt { IsTrue D.told → IsErrOf result StoreError.Corrupt
        → opened_of (store_at (D.medium disk.old).image shape.now) ≡ None }

    // Whether the disk's bytes are modelled or not: names ascend, and lengths are right.
    ensures read { IfOk result (IsView shape.now) }

    // On success, and where the answer is `Corrupt`, nothing is pending afterwards. However it ends, no byte changes
    // and none is written; on a disk that was quiet a crash meanwhile leaves what reads gave.
    ensures quiet { OnOk result (Quiet (D.medium disk.new)) }
    ensures settled { IsErrOf result StoreError.Corrupt → Quiet (D.medium disk.new) }
    ensures image { (D.medium disk.new).image ≡ (D.medium disk.old).image }
    ensures idle { Quiet (D.medium disk.old) → IsIdle (D.medium disk.old) (D.medium disk.new) }
    ensures written { (D.medium disk.new).written ≡ (D.medium disk.old).written }
    // The disk's count of faults rose where the answer is `Device`, and stayed with any other answer.
    ensures cause { IsErrOf result StoreError.Device → Rose (D.medium disk.old).faults (D.medium disk.new).faults }
    ensures passes { OnOk result ((D.medium disk.new).faults ≡ (D.medium disk.old).faults) }
    ensures fed { IsErrOf result StoreError.OutOfMemory → (D.medium disk.new).faults ≡ (D.medium disk.old).faults }
    ensures unfailed { IsErrOf result StoreError.Corrupt → (D.medium disk.new).faults ≡ (D.medium disk.old).faults }
    // The clock and the counts of the disk only go on.
    ensures time { Elapses (D.medium disk.old) (D.medium disk.new) }
{
    match survey(alloc, disk, shape)? {
        Some(
            Found {
                opens: true,
                view,
                ..
            },
        ) => Ok(view),
        _ => Err(StoreError::Corrupt),
    }
}

/// The view at which the storage opens, or else that of the first text that fits; none exactly where no text fits. It
/// begins with a sync and writes nothing.
///
/// # Errors
///
/// `Device` where the disk fails, and `OutOfMemory`. Never `Corrupt`.
pub fn salvage<D: Disk>(
    alloc: Global,
    disk: &mut D,
    shape: &Shape,
) -> Result<Option<View>, StoreError>
    requires { IsShape shape.now }
    ensures view { IsTrue D.told → IfOk result (λ view. view
        ≡ salvage_of (store_at (D.medium disk.old).image shape.now)) }

    // Whether the disk's bytes are modelled or not: names ascend, and lengths are right.
    ensures read { IfOk result (λ view. IfSome view (IsView shape.now)) }

    // On success nothing is pending afterwards. However it ends, no byte changes and none is written; on a disk that
    // was quiet a crash meanwhile leaves what reads gave.
    ensures quiet { OnOk result (Quiet (D.medium disk.new)) }
    ensures image { (D.medium disk.new).image ≡ (D.medium disk.old).image }
    ensures idle { Quiet (D.medium disk.old) → IsIdle (D.medium disk.old) (D.medium disk.new) }
    ensures written { (D.medium disk.new).written ≡ (D.medium disk.old).written }
    // The disk's count of faults rose where the answer is `Device`, and stayed with any other answer.
    ensures never_corrupt { ¬ (IsErrOf result StoreError.Corrupt) }
    ensures cause { IsErrOf result StoreError.Device → Rose (D.medium disk.old).faults (D.medium disk.new).faults }
    ensures passes { OnOk result ((D.medium disk.new).faults ≡ (D.medium disk.old).faults) }
    ensures fed { IsErrOf result StoreError.OutOfMemory → (D.medium disk.new).faults ≡ (D.medium disk.old).faults }
    // The clock and the counts of the disk only go on.
    ensures time { Elapses (D.medium disk.old) (D.medium disk.new) }
{
    match survey(alloc, disk, shape)? {
        Some(found) => Ok(Some(found.view)),
        None => Ok(None),
    }
}
