//! Formatting a register.

ghost use Rattle.std.specs.Prelude.{◌≡◌, ◌≤◌, IsTrue, IfOk, OnOk, IsErrOf, length};
ghost use Rattle.hash_guard.specs.SealedText.{max_body, sealed};
ghost use Rattle.disk_model.specs.Medium.{Quiet};
ghost use Rattle.guarded_cell.specs.Register.{IsAlone};
ghost use Rattle.guarded_cell.specs.Cells.{CellAt, IsCellOf};
ghost use Rattle.guarded_cell.specs.Changes.{FormatsRegister};
ghost use Rattle.guarded_cell.specs.Faults.{DiskFaults, CellFaults};

use crate::cell::Cell;
use crate::errors::CellError;
use crate::slots::MAX_COPIES;
use crate::starts::{write_durably, write_starts};
use disk_model::{Disk, DiskFailed, Place};
use hash_guard::{BLANK, seal};
use std::alloc::Global;

/// Gives up what the place held: all slots are blanked, which is made durable, and then every copy takes the text under
/// generation 1, which is made durable too. It gives the register in use.
///
/// # Errors
///
/// `OutOfMemory` comes before any call of the disk. Never `Corrupt`.
pub fn format_cell<D: Disk>(
    alloc: Global,
    disk: &mut D,
    place: Place,
    text: &[u8],
) -> Result<Cell, CellError>
    requires { length text.now ≤ max_body }

    // The register is in use at this place under generation 1, every copy holds the text alone, and nothing is pending.
    ensures cell { IfOk result (IsCellOf place 1) }
    ensures held { IsTrue D.told → IfOk result (λ cell. CellAt (D.medium disk.new).image cell text.now) }
    ensures quiet { OnOk result (Quiet (D.medium disk.new)) }

    ensures memory { IsErrOf result CellError.OutOfMemory → disk.new ≡ disk.old }
    ensures never_corrupt { ¬ (IsErrOf result CellError.Corrupt) }
    ensures faults { CellFaults result (D.medium disk.old) (D.medium disk.new) }

    // Only slots of the place change, and a stop at any moment leaves only what was held or only the new text.
    ensures formats { FormatsRegister D.told place text.now (D.medium disk.old) (D.medium disk.new) }
{
    let sealed_text = seal(alloc, 1, text)?;
    format_in(disk, place, text, &sealed_text)?;
    Ok(Cell::new(place, 1))
}

// Does what `format_cell` does, once the text is sealed: nothing more is allocated.
fn format_in<D: Disk>(
    disk: &mut D,
    place: Place,
    text: &[u8],
    sealed_text: &[u8],
) -> Result<(), DiskFailed>
    requires short { length text.now ≤ max_body }
    requires text { sealed_text.now ≡ sealed 1 text.now }

    ensures alone { IsTrue D.told → OnOk result (IsAlone (D.medium disk.new).image place 1
        text.now) }
    ensures quiet { OnOk result (Quiet (D.medium disk.new)) }
    ensures formats { FormatsRegister D.told place text.now (D.medium disk.old) (D.medium disk.new) }
    ensures faults { DiskFaults result (D.medium disk.old) (D.medium disk.new) }
{
    let all = [true; MAX_COPIES];
    write_starts(disk, place, 0, &all, &BLANK)?;
    write_durably(disk, place, 1, &all, &BLANK)?;
    write_durably(disk, place, 1, &all, sealed_text)?;
    Ok(())
}
