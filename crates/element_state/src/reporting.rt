//! The report of a storage that did not open.

ghost use Rattle.std.specs.Prelude.{◌≡◌, IfOk};
ghost use Rattle.std.specs.List.{range_with_len};
ghost use Rattle.element_state.specs.Reports.{store_failed, failed_report};

use crate::shapes::Shape;
use per_base::{Numbers, Report, ReportKind, StoreKind};
use std::alloc::{AllocError, Global};

/// What an opening reports of a storage that is corrupt: all its copies.
///
/// # Errors
///
/// Only `OutOfMemory`.
pub fn failed_report(alloc: Global, shape: &Shape) -> Result<Report, AllocError>
    ensures { IfOk result (λ report. report ≡ failed_report shape.now) }
{
    Ok(Report {
        kind: store_failed(shape.kind),
        storage: shape.name.copy()?,
        element: None,
        copies: all_copies(alloc, shape.place.copies)?,
    })
}

// The numbers of that many copies, from 1 on.
fn all_copies(alloc: Global, copies: u32) -> Result<Numbers, AllocError>
    ensures { IfOk result (λ numbers. numbers ≡ range_with_len 1 copies) }
{
    let mut numbers = Vec::new(alloc);
    for copy in 0..copies {
        numbers.push(copy + 1)?;
    }
    Ok(Numbers::new(numbers))
}

fn store_failed(kind: StoreKind) -> ReportKind
    ensures { result ≡ store_failed kind }
{
    match kind {
        StoreKind::Keys => ReportKind::KvsFailed,
        StoreKind::Files => ReportKind::FilesFailed,
    }
}
