//! Which kind of case a line is.

use crate::courses::course;
use crate::stops::{damaged, stops};
use case_words::{CaseError, cut};
use std::alloc::{AllocError, Global};

/// What came of a line.
pub fn answer(alloc: Global, line: &str) -> Result<String, AllocError> {
    if line.is_empty() || line.starts_with('#') {
        return String::from_str(alloc, line);
    }
    match case(alloc, line) {
        Ok(said) => Ok(said),
        Err(CaseError::NoCase) => String::from_str(alloc, "no case"),
        Err(CaseError::OutOfMemory) => Err(AllocError),
    }
}

// What came of a case.
fn case(alloc: Global, line: &str) -> Result<String, CaseError> {
    let (kind, rest) = cut(line, ' ');
    match kind {
        "course" => course(alloc, rest),
        "stops" => stops(alloc, rest),
        "damaged" => damaged(alloc, rest),
        _ => Err(CaseError::NoCase),
    }
}
