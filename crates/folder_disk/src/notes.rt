//! Notes of what was written and not synced.

ghost use Rattle.std.specs.Prelude.{◌≡◌, ◌⊎◌, ◌↔◌, ℕ, IsTrue, IsFalse, IfSome, [], ◌∷◌, ◌++◌, filter, not, ◌==◌};
ghost use Rattle.system_model.specs.SystemMedium.{InRange};
ghost use Rattle.folder_disk.specs.Knows.{Covered};

use crate::range::Range;

/// With how many bytes that wait for a sync a file is synced unasked: 512 KiB. What is noted is read again before a
/// sync, so this is what it has to hold at most, but after one that failed.
pub(crate) const MOST_BYTES: u64 = 524_288;

/// In how many ranges they may wait.
const MOST_RANGES: usize = 1024;

/// Notes that a range was written, and says whether there was memory for it. One that goes on where the last one ended
/// is noted with it.
pub(crate) fn note(ranges: &mut Vec<Range>, range: Range) -> bool
    ensures noted { IsTrue result → (f i : ℕ) → Covered ranges.new.items f i
        ↔ (Covered ranges.old.items f i ⊎ ((f ≡ range.file) × InRange range.at range.len i)) }
    ensures failed { IsFalse result → (f i : ℕ) → Covered ranges.new.items f i → Covered ranges.old.items f i }
{
    if range.len == 0 {
        return true;
    }
    let Some(last) = ranges.pop() else {
        return add(ranges, range);
    };
    match joined(last, range) {
        Some(both) => add(ranges, both),
        None => add(ranges, last) && add(ranges, range),
    }
}

/// Adds a range, if there is memory for it.
fn add(ranges: &mut Vec<Range>, range: Range) -> bool
    ensures added { IsTrue result → ranges.new.items ≡ ranges.old.items ++ range ∷ [] }
    ensures failed { IsFalse result → ranges.new.items ≡ ranges.old.items }
{
    match ranges.push(range) {
        Ok(()) => true,
        Err(_) => false,
    }
}

/// Two ranges as one, where the second goes on where the first ends.
fn joined(first: Range, second: Range) -> Option<Range>
    ensures { IfSome result (λ both. (f i : ℕ) → ((f ≡ both.file) × InRange both.at both.len i)
        ↔ (((f ≡ first.file) × InRange first.at first.len i) ⊎ ((f ≡ second.file) × InRange second.at second.len i))) }
{
    if first.file != second.file || first.at.checked_add(first.len) != Some(second.at) {
        return None;
    }
    let len = first.len.checked_add(second.len)?;
    Some(Range {
        file: first.file,
        at: first.at,
        len,
    })
}

/// Whether something that was written to the file is noted.
pub(crate) fn is_noted(ranges: &[Range], file: u32) -> bool
    ensures { IsFalse result → (i : ℕ) → ¬ (Covered ranges.now file i) }
{
    for range in ranges {
        if range.file == file {
            return true;
        }
    }
    false
}

/// How many bytes that were written to the file are noted.
pub(crate) fn noted(ranges: &[Range], file: u32) -> u64 {
    let mut bytes: u64 = 0;
    for range in ranges {
        if range.file == file {
            bytes = bytes.saturating_add(range.len);
        }
    }
    bytes
}

/// Whether so much of the file is noted, in bytes or in ranges, that it is to be synced before more is written.
pub(crate) fn is_full(ranges: &[Range], file: u32) -> bool {
    let mut count: usize = 0;
    for range in ranges {
        if range.file == file {
            count = count.saturating_add(1);
        }
    }
    count >= MOST_RANGES || noted(ranges, file) >= MOST_BYTES
}

/// Leaves out the ranges of a file.
pub(crate) fn forget(ranges: &mut Vec<Range>, file: u32)
    ensures { ranges.new.items ≡ filter (λ r. not (r.file == file)) ranges.old.items }
{
    ranges.retain(|range| range.file != file);
}
