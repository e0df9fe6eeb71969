//! Writing at the starts of slots.

ghost use Rattle.std.specs.Prelude.{◌≡◌, ◌≤◌, ◌<◌, ◌+◌, ◌*◌, IsTrue, IsOk, IfOk, OnOk, OnErr, length};
ghost use Rattle.disk_model.specs.Case.{Follows};
ghost use Rattle.disk_model.specs.Frame.{Spares};
ghost use Rattle.disk_model.specs.Medium.{Quiet, EachCase, Elapses};
ghost use Rattle.guarded_cell.specs.Starts.{IsChosen, IsNone, StartsPut, StartsCase, IsStartsCase};
ghost use Rattle.guarded_cell.specs.Faults.{DiskFaults};
ghost use Rattle.guarded_cell.specs.Differing.{front_is_blank, front_cost, texts_cost, FrontCase, TextsCase};
ghost use Rattle.guarded_cell.specs.Differing.{IsTextsCase};
ghost use Rattle.changed_runs.specs.Parts.{HasNoFailedWrite};
ghost use Rattle.disk_model.specs.Image.{put_image, TornImage};
ghost use Rattle.disk_model.specs.Medium.{OnlyReads};
ghost use Rattle.per_base.specs.Causes.{Rose};

use changed_runs::write_changed;
use disk_model::{Disk, DiskFailed, Place};
use hash_guard::{BLANK, HEADER};

/// Writes the bytes at the starts of the chosen slots of one parity; `chosen` has a flag for each copy.
pub(crate) fn write_starts<D: Disk>(
    disk: &mut D,
    place: Place,
    parity: u32,
    chosen: &[bool],
    bytes: &[u8],
) -> Result<(), DiskFailed>
    requires parity { parity < 2 }
    requires flags { place.copies ≤ length chosen.now }
    ensures put { IsTrue D.told → OnOk result
        (StartsPut place parity chosen.now bytes.now (D.medium disk.old).image
        (D.medium disk.new).image) }
    ensures elsewhere { IsTrue D.told
        → Spares (λ f. ¬ (IsChosen place parity chosen.now f)) (D.medium disk.old).image
        (D.medium disk.new).image }
    ensures during { Follows (StartsCase place parity chosen.now bytes.now)
        (D.medium disk.old).now ((D.medium disk.new).since (D.medium disk.old).moment) }
    ensures written { (D.medium disk.new).written ≤ (D.medium disk.old).written + place.copies * length bytes.now }
    ensures none { IsNone place.copies chosen.now → (D.medium disk.new).written ≡ (D.medium disk.old).written }
    ensures time { Elapses (D.medium disk.old) (D.medium disk.new) }
    ensures faults { DiskFaults result (D.medium disk.old) (D.medium disk.new) }
{
    for copy in 0..place.copies {
        if !chosen[copy as usize] {
            continue;
        }
        disk.write_at(place.slot(copy, parity), 0, bytes)?;
    }
    Ok(())
}

/// Writes the bytes at the starts of the chosen slots of one parity, and makes them durable.
pub(crate) fn write_durably<D: Disk>(
    disk: &mut D,
    place: Place,
    parity: u32,
    chosen: &[bool],
    bytes: &[u8],
) -> Result<(), DiskFailed>
    requires parity { parity < 2 }
    requires flags { place.copies ≤ length chosen.now }
    ensures put { IsTrue D.told → OnOk result
        (StartsPut place parity chosen.now bytes.now (D.medium disk.old).image
        (D.medium disk.new).image) }
    ensures elsewhere { IsTrue D.told
        → Spares (λ f. ¬ (IsChosen place parity chosen.now f)) (D.medium disk.old).image
        (D.medium disk.new).image }
    ensures quiet { OnOk result (Quiet (D.medium disk.new)) }
    ensures during { EachCase
        (IsStartsCase place parity chosen.now bytes.now (D.medium disk.old) (D.medium disk.new)
        (IsOk result))
        (D.medium disk.old) (D.medium disk.new) }
    ensures written { (D.medium disk.new).written ≤ (D.medium disk.old).written + place.copies * length bytes.now }
    ensures none { IsNone place.copies chosen.now → (D.medium disk.new).written ≡ (D.medium disk.old).written }
    ensures time { Elapses (D.medium disk.old) (D.medium disk.new) }
    ensures faults { DiskFaults result (D.medium disk.old) (D.medium disk.new) }
{
    write_starts(disk, place, parity, chosen, bytes)?;
    disk.sync()?;
    Ok(())
}

/// Puts a text at the starts of the chosen slots of one parity; where a slot's start is blank, it writes only what
/// differs.
pub(crate) fn put_starts<D: Disk>(
    disk: &mut D,
    place: Place,
    parity: u32,
    chosen: &[bool],
    bytes: &[u8],
) -> Result<(), DiskFailed>
    requires parity { parity < 2 }
    requires flags { place.copies ≤ length chosen.now }
    ensures put { IsTrue D.told → OnOk result
        (StartsPut place parity chosen.now bytes.now (D.medium disk.old).image
        (D.medium disk.new).image) }
    ensures elsewhere { IsTrue D.told
        → Spares (λ f. ¬ (IsChosen place parity chosen.now f)) (D.medium disk.old).image
        (D.medium disk.new).image }
    ensures during { IsTrue D.told → Quiet (D.medium disk.old) →
        Follows (TextsCase (IsChosen place parity chosen.now) bytes.now)
        (D.medium disk.old).now ((D.medium disk.new).since (D.medium disk.old).moment) }
    ensures written { (D.medium disk.new).written ≤ (D.medium disk.old).written + place.copies * length bytes.now }
    ensures differing { IsTrue D.told → (D.medium disk.new).written ≤ (D.medium disk.old).written
        + texts_cost place parity bytes.now (D.medium disk.old).image place.copies }
    ensures none { IsNone place.copies chosen.now → (D.medium disk.new).written ≡ (D.medium disk.old).written }
    ensures time { Elapses (D.medium disk.old) (D.medium disk.new) }
    ensures faults { DiskFaults result (D.medium disk.old) (D.medium disk.new) }
{
    for copy in 0..place.copies {
        if !chosen[copy as usize] {
            continue;
        }
        write_front(disk, place.slot(copy, parity), bytes)?;
    }
    Ok(())
}

/// Puts a text as `put_starts` does, and makes it durable.
pub(crate) fn put_durably<D: Disk>(
    disk: &mut D,
    place: Place,
    parity: u32,
    chosen: &[bool],
    bytes: &[u8],
) -> Result<(), DiskFailed>
    requires parity { parity < 2 }
    requires flags { place.copies ≤ length chosen.now }
    ensures put { IsTrue D.told → OnOk result
        (StartsPut place parity chosen.now bytes.now (D.medium disk.old).image
        (D.medium disk.new).image) }
    ensures elsewhere { IsTrue D.told
        → Spares (λ f. ¬ (IsChosen place parity chosen.now f)) (D.medium disk.old).image
        (D.medium disk.new).image }
    ensures quiet { OnOk result (Quiet (D.medium disk.new)) }
    ensures during { IsTrue D.told → Quiet (D.medium disk.old) → EachCase
        (IsTextsCase place parity chosen.now bytes.now (D.medium disk.old) (D.medium disk.new)
        (IsOk result))
        (D.medium disk.old) (D.medium disk.new) }
    ensures written { (D.medium disk.new).written ≤ (D.medium disk.old).written + place.copies * length bytes.now }
    ensures differing { IsTrue D.told → (D.medium disk.new).written ≤ (D.medium disk.old).written
        + texts_cost place parity bytes.now (D.medium disk.old).image place.copies }
    ensures none { IsNone place.copies chosen.now → (D.medium disk.new).written ≡ (D.medium disk.old).written }
    ensures time { Elapses (D.medium disk.old) (D.medium disk.new) }
    ensures faults { DiskFaults result (D.medium disk.old) (D.medium disk.new) }
{
    put_starts(disk, place, parity, chosen, bytes)?;
    disk.sync()?;
    Ok(())
}

// Puts the bytes at the start of a file: where its start is blank, only the runs that differ, and the first one last.
fn write_front<D: Disk>(disk: &mut D, file: u32, bytes: &[u8]) -> Result<(), DiskFailed>
    ensures image { IsTrue D.told → OnOk result
        ((D.medium disk.new).image ≡ put_image (D.medium disk.old).image file 0 bytes.now) }
    ensures torn { IsTrue D.told → OnErr result
        (TornImage file 0 (length bytes.now) (D.medium disk.old).image (D.medium disk.new).image) }
    ensures during { IsTrue D.told → HasNoFailedWrite file (D.medium disk.old) →
        Follows (FrontCase file bytes.now) (D.medium disk.old).now
        ((D.medium disk.new).since (D.medium disk.old).moment) }
    ensures differing { IsTrue D.told → (D.medium disk.new).written
        ≤ (D.medium disk.old).written + front_cost ((D.medium disk.old).image file) bytes.now }
    ensures at_most { (D.medium disk.new).written ≤ (D.medium disk.old).written + length bytes.now }
    ensures time { Elapses (D.medium disk.old) (D.medium disk.new) }
    ensures cause { OnErr result (Rose (D.medium disk.old).faults (D.medium disk.new).faults) }
    ensures passes { OnOk result ((D.medium disk.new).faults ≡ (D.medium disk.old).faults) }
{
    if has_blank_front(disk, file)? {
        write_changed(disk, file, 0, bytes)
    } else {
        disk.write_at(file, 0, bytes)
    }
}

// Whether zeros stand at the start of a file.
fn has_blank_front<D: Disk>(disk: &mut D, file: u32) -> Result<bool, DiskFailed>
    ensures blank { IsTrue D.told → IfOk result (λ blank. blank ≡ front_is_blank ((D.medium disk.old).image file)) }
    ensures reads { OnlyReads (D.medium disk.old) (D.medium disk.new) }
    ensures time { Elapses (D.medium disk.old) (D.medium disk.new) }
    ensures cause { OnErr result (Rose (D.medium disk.old).faults (D.medium disk.new).faults) }
    ensures passes { OnOk result ((D.medium disk.new).faults ≡ (D.medium disk.old).faults) }
{
    let mut held = [0; HEADER];
    let count = disk.read(file, 0, &mut held)?;
    Ok(held[..count] == BLANK[..count])
}
