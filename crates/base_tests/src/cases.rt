//! Which kind of case a line is.

use crate::anywhere::twice;
use crate::contents::{content, shared};
use crate::indexes::index;
use crate::seals::{hash_of, sealed, verified};
use crate::sessions::session;
use crate::sizes::{name, size};
use crate::stops::stops;
use crate::streams::{sink, source};
use crate::votes::voted;
use case_words::{CaseError, cut};
use std::alloc::{AllocError, Global};

/// What came of a line.
pub fn answer(alloc: Global, line: &str) -> Result<String, AllocError> {
    if line.is_empty() || line.starts_with('#') {
        return String::from_str(alloc, line);
    }
    match case(alloc, line) {
        Ok(said) => Ok(said),
        Err(CaseError::NoCase) => String::from_str(alloc, "no case"),
        Err(CaseError::OutOfMemory) => Err(AllocError),
    }
}

// What came of a case.
fn case(alloc: Global, line: &str) -> Result<String, CaseError> {
    let (kind, rest) = cut(line, ' ');
    match kind {
        "name" => name(alloc, rest),
        "size" => size(alloc, rest),
        "source" => source(alloc, rest),
        "sink" => sink(alloc, rest),
        "hash" => hash_of(alloc, rest),
        "seal" => sealed(alloc, rest),
        "verify" => verified(alloc, rest),
        "vote" => voted(alloc, rest),
        "twice" => twice(alloc, rest),
        "disk" | "register" => session(alloc, rest),
        "content" => content(alloc, rest),
        "shared" => shared(alloc, rest),
        "index" => index(alloc, rest),
        "stops" => stops(alloc, rest),
        _ => Err(CaseError::NoCase),
    }
}
