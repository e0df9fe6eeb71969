//! Opening the register at the text that stands.

ghost use Rattle.std.specs.Prelude.{◌≡◌, ◌≤◌, ◌<◌, ◌+◌, ◌*◌, IsTrue, IfOk, OnOk, IsErrOf, length, nat_le, None, get_or};
ghost use Rattle.std.specs.Prelude.{false};
ghost use Rattle.disk_model.specs.Medium.{Quiet};
ghost use Rattle.guarded_cell.specs.Held.{standing, standing_in, lacking, copies_that};
ghost use Rattle.guarded_cell.specs.Seens.{IsSealable, IsSeenOn};
ghost use Rattle.guarded_cell.specs.Slots.{IsSlotsOf};
ghost use Rattle.hash_guard.specs.SealedText.{header};
ghost use Rattle.guarded_cell.specs.Opens.{StandsAs};
ghost use Rattle.guarded_cell.specs.Cells.{CellAt, IsCellOf, place_of, generation_of};
ghost use Rattle.guarded_cell.specs.Changes.{Brings, OpensRegister};
ghost use Rattle.guarded_cell.specs.Faults.{CellFaults};

use crate::adopting::adopt_seen;
use crate::cell::Cell;
use crate::errors::CellError;
use crate::looking::{Looked, Seen, look};
use crate::slots::{Slots, all_but};
use disk_model::{Disk, Place};
use per_base::{Bytes, Numbers};
use std::alloc::{AllocError, Global};

/// A register that was opened.
#[derive(Debug, Drop)]
pub struct OpenedCell {
    /// The register in use, under the generation at which the text stood.
    pub cell: Cell,
    /// The text that stood, which every copy holds now.
    pub text: Bytes,
    /// The copies that did not hold it, counted from 1 and ascending.
    pub lacking: Numbers,
}

/// Finds the text that stands, which is of those that at least `m` copies hold the one of the greatest generation, and
/// at one generation the one whose first copy is lowest, and brings every copy of the place to it. It begins with a
/// sync.
///
/// # Errors
///
/// `Corrupt` only where no text stands, and then nothing was written; `Device` where the disk fails; `OutOfMemory`.
pub fn open_cell<D: Disk>(
    alloc: Global,
    disk: &mut D,
    place: Place,
    m: u32,
) -> Result<OpenedCell, CellError>
    requires { 1 ≤ m }

    // The text is what stood, `lacking` are the copies that did not hold it, every copy holds it alone now, and nothing
    // is pending.
    ensures place { IfOk result (λ opened. place_of opened.cell ≡ place) }
    ensures stands { IsTrue D.told → IfOk result (λ opened.
        StandsAs (standing (D.medium disk.old).image place m) (generation_of opened.cell)
        opened.text) }
    ensures lacking { IsTrue D.told → IfOk result (λ opened.
        opened.lacking ≡ lacking (D.medium disk.old).image place
        (generation_of opened.cell) opened.text) }
    ensures held { IsTrue D.told → IfOk result (λ opened. CellAt (D.medium disk.new).image opened.cell opened.text) }
    ensures quiet { OnOk result (Quiet (D.medium disk.new)) }

    // `Corrupt` comes only where nothing stands, and then nothing is written, and nothing is pending; nor is anything
    // written where memory runs out.
    ensures corrupt { IsTrue D.told → IsErrOf result CellError.Corrupt
        → standing (D.medium disk.old).image place m ≡ None }
    ensures not_written { IsErrOf result CellError.Corrupt → (D.medium disk.new).image ≡ (D.medium disk.old).image }
    ensures settled { IsErrOf result CellError.Corrupt
        → Quiet (D.medium disk.new) × ((D.medium disk.new).written ≡ (D.medium disk.old).written) }
    ensures memory { IsErrOf result CellError.OutOfMemory
        → ((D.medium disk.new).image ≡ (D.medium disk.old).image)
        × ((D.medium disk.new).written ≡ (D.medium disk.old).written) }
    ensures faults { CellFaults result (D.medium disk.old) (D.medium disk.new) }
    ensures unfailed { IsErrOf result CellError.Corrupt → (D.medium disk.new).faults ≡ (D.medium disk.old).faults }

    // Only slots of the place change, and none that is right already: one that holds the text that stands, or a blank
    // one of the other parity. A stop at any moment leaves every copy what it held or every copy the text that stood.
    ensures opens { OpensRegister D.told place m (D.medium disk.old) (D.medium disk.new) }
    // At most the sealed text and a blank are written for each copy.
    ensures written { IfOk result (λ opened.
        (D.medium disk.new).written ≤ (D.medium disk.old).written
        + place.copies * (header + length opened.text + header)) }
{
    let Looked { seens, slots } = look(alloc, disk, place)?;
    match standing_among(seens, m) {
        None => Err(CellError::Corrupt),
        Some(seen) => {
            let opened = open_at(alloc, disk, place, seen, slots)?;
            Ok(opened)
        }
    }
}

/// The text that stands among those that [`look`] gave: the first that at least `m` copies hold, if any. Neither
/// allocates nor calls the disk, so that a text can be judged before [`adopt_seen`](crate::adopt_seen) brings every
/// copy to it.
pub fn standing_among(seens: Vec<Seen>, m: u32) -> Option<Seen>
    ensures { result ≡ standing_in m seens.items }
{
    seens.into_iter().find(|seen| is_enough(seen, m))
}

// Whether at least m copies hold it.
fn is_enough(seen: &Seen, m: u32) -> bool
    ensures { result ≡ nat_le m (length seen.now.copies) }
{
    seen.copies.as_slice().len() >= m as usize
}

// Brings every copy to a text that some hold.
fn open_at<D: Disk>(
    alloc: Global,
    disk: &mut D,
    place: Place,
    seen: Seen,
    slots: Slots,
) -> Result<OpenedCell, CellError>
    requires sealable { IsSealable seen }
    requires seen { IsTrue D.told → IsSeenOn (D.medium disk.old).image place seen }
    requires slots { IsTrue D.told → IsSlotsOf (D.medium disk.old).image place slots }
    ensures cell { IfOk result (λ opened. IsCellOf place seen.generation opened.cell) }
    ensures text { IfOk result (λ opened. opened.text ≡ seen.text) }
    ensures lacking { IsTrue D.told → IfOk result (λ opened.
        opened.lacking ≡ lacking (D.medium disk.old).image place seen.generation seen.text) }
    ensures held { IsTrue D.told → IfOk result (λ opened. CellAt (D.medium disk.new).image opened.cell seen.text) }
    ensures quiet { OnOk result (Quiet (D.medium disk.new)) }
    ensures never_corrupt { ¬ (IsErrOf result CellError.Corrupt) }
    ensures memory { IsErrOf result CellError.OutOfMemory → disk.new ≡ disk.old }
    ensures faults { CellFaults result (D.medium disk.old) (D.medium disk.new) }
    ensures brings { Brings D.told place seen.generation seen.text (D.medium disk.old) (D.medium disk.new) }
{
    let chosen = all_but(place.copies, seen.copies.as_slice());
    let lacking = numbers_of(alloc, place.copies, &chosen)?;
    let cell = adopt_seen(alloc, disk, place, &seen, slots)?;
    let Seen { text, .. } = seen;
    Ok(OpenedCell {
        cell,
        text,
        lacking,
    })
}

// The chosen ones among the first copies, ascending.
fn numbers_of(alloc: Global, copies: u32, chosen: &[bool]) -> Result<Numbers, AllocError>
    requires few { copies ≤ 8 }
    requires flags { copies ≤ length chosen.now }
    ensures { IfOk result (λ numbers. numbers ≡ copies_that (λ copy. get_or chosen.now copy false) copies) }
{
    let mut numbers = Vec::new(alloc);
    for copy in 0..copies {
        if chosen[copy as usize] {
            numbers.push(copy + 1)?;
        }
    }
    Ok(Numbers::new(numbers))
}
