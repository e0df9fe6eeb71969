//! The reports of an opening.

ghost use Rattle.std.specs.Prelude.{◌≡◌, ◌++◌, IfOk, OnOk, true};
ghost use Rattle.element_state.specs.Reports.{reports, report_of, report_some, store_recovered, element_recovered};
ghost use Rattle.element_state.specs.Reports.{element_failed, element_reports};
ghost use Rattle.element_store.specs.Mends.{reported};

use element_state::{Shape, View};
use per_base::{Content, Entry, Name, Numbers, Report, ReportKind, Scope, StoreKind};
use std::alloc::{AllocError, Global};

/// What an opening reports of this view: first of the storage, then of its elements by their names. With storage scope
/// a copy that lacks a readable element lacks the storage, and is reported with it alone; an element that cannot be
/// read is reported besides.
///
/// # Errors
///
/// Only `OutOfMemory`.
pub fn reports_of(alloc: Global, shape: &Shape, view: &View) -> Result<Vec<Report>, AllocError>
    // Any bytes pass as a content: none is decoded.
    ensures { IfOk result (λ found. found.items ≡ reports (λ bytes. true) shape.now view.now) }
{
    let mut found = Vec::new(alloc);
    if !view.lacking.as_slice().is_empty() {
        found.push(report_of(store_recovered(shape.kind), shape, None, &view.lacking)?)?;
    }
    for entry in view.entries.as_slice() {
        if let Some(kind) = element_kind(shape, entry) {
            let name = entry.name.copy()?;
            found.push(report_of(kind, shape, Some(name), &entry.lacking)?)?;
        }
    }
    Ok(found)
}

fn report_of(
    kind: ReportKind,
    shape: &Shape,
    element: Option<Name>,
    copies: &Numbers,
) -> Result<Report, AllocError>
    ensures { IfOk result (λ report. report ≡ report_of kind shape.now element copies.now) }
{
    Ok(Report {
        kind,
        storage: shape.name.copy()?,
        element,
        copies: copies.copy()?,
    })
}

// What is to be reported of an element, if anything.
fn element_kind(shape: &Shape, entry: &Entry) -> Option<ReportKind>
    ensures { element_reports (λ bytes. true) shape.now entry.now ≡ reported shape.now entry.now result }
{
    match (&entry.content, shape.scope) {
        (Content::Bad(_), _) => Some(element_failed(shape.kind)),
        (Content::Good(_), Scope::Storage) => None,
        (Content::Good(_), Scope::Element) if entry.lacking.as_slice().is_empty() => None,
        (Content::Good(_), Scope::Element) => Some(element_recovered(shape.kind)),
    }
}

fn store_recovered(kind: StoreKind) -> ReportKind
    ensures { result ≡ store_recovered kind }
{
    match kind {
        StoreKind::Keys => ReportKind::KvsRecovered,
        StoreKind::Files => ReportKind::FilesRecovered,
    }
}

fn element_recovered(kind: StoreKind) -> ReportKind
    ensures { result ≡ element_recovered kind }
{
    match kind {
        StoreKind::Keys => ReportKind::KeyRecovered,
        StoreKind::Files => ReportKind::FileRecovered,
    }
}

fn element_failed(kind: StoreKind) -> ReportKind
    ensures { result ≡ element_failed kind }
{
    match kind {
        StoreKind::Keys => ReportKind::KeyFailed,
        StoreKind::Files => ReportKind::FileFailed,
    }
}
