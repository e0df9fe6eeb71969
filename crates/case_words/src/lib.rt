//! The words in which cases are written: numbers, bytes, and lists of both.
//!
//! Bytes are hexadecimal digits; `3*07` is a piece that repeats, parts are joined by `+`, and `empty` is no byte. What
//! is printed has the same form, so that the answer of one case can stand in another.
#![tactic(auto)]

use block_files::BlobError;
use disk_model::DiskFailed;
use hex::FromHexError;
use std::alloc::{AllocError, AllocFailed, Global};
use std::fmt::Write;
use std::num::ParseIntError;

/// Why a line has no answer.
#[derive(Clone, Copy, Debug, PartialEq, Eq)]
pub enum CaseError {
    /// It is not a test case.
    NoCase,
    /// Memory ran out.
    OutOfMemory,
}

impl From<AllocError> for CaseError {
    fn from(_failed: AllocError) -> CaseError {
        CaseError::OutOfMemory
    }
}

impl<T: Drop> From<AllocFailed<T>> for CaseError {
    fn from(_failed: AllocFailed<T>) -> CaseError {
        CaseError::OutOfMemory
    }
}

impl From<ParseIntError> for CaseError {
    fn from(_error: ParseIntError) -> CaseError {
        CaseError::NoCase
    }
}

impl From<DiskFailed> for CaseError {
    fn from(_failed: DiskFailed) -> CaseError {
        CaseError::NoCase
    }
}

impl From<BlobError> for CaseError {
    fn from(error: BlobError) -> CaseError {
        match error {
            BlobError::Device => CaseError::NoCase,
            BlobError::OutOfMemory => CaseError::OutOfMemory,
        }
    }
}

impl From<FromHexError> for CaseError {
    fn from(error: FromHexError) -> CaseError {
        match error {
            FromHexError::OutOfMemory => CaseError::OutOfMemory,
            _ => CaseError::NoCase,
        }
    }
}

/// What stands before the first such character, and what after it.
pub fn cut(text: &str, at: char) -> (&str, &str) {
    match text.split_once(at) {
        Some(parts) => parts,
        None => (text, ""),
    }
}

/// A decimal number.
pub fn number(word: &str) -> Result<u64, CaseError> {
    Ok(word.parse::<u64>()?)
}

/// A decimal number below 2^32.
pub fn small(word: &str) -> Result<u32, CaseError> {
    Ok(word.parse::<u32>()?)
}

/// Decimal numbers with commas between them; `-` for none.
pub fn numbers(alloc: Global, word: &str) -> Result<Vec<u64>, CaseError> {
    let mut list = Vec::new(alloc);
    if word != "-" {
        for part in word.split(',') {
            list.push(number(part)?)?;
        }
    }
    Ok(list)
}

/// The bytes that a word writes.
pub fn bytes_of(alloc: Global, word: &str) -> Result<Vec<u8>, CaseError> {
    let mut bytes = Vec::new(alloc);
    if word != "empty" {
        for part in word.split('+') {
            put_part(alloc, &mut bytes, part)?;
        }
    }
    Ok(bytes)
}

// Adds digits, or digits that repeat.
fn put_part(alloc: Global, bytes: &mut Vec<u8>, part: &str) -> Result<(), CaseError> {
    let (count, digits) = part.split_once('*').unwrap_or(("1", part));
    let piece = hex::decode(alloc, digits)?;
    for _ in 0..small(count)? {
        bytes.extend_from_slice(&piece)?;
    }
    Ok(())
}

/// A text of its own.
pub fn text(alloc: Global, words: &str) -> Result<String, CaseError> {
    Ok(String::from_str(alloc, words)?)
}

/// Bytes as they are written in a line: digits, and runs where they are many.
pub fn bytes_text(alloc: Global, bytes: &[u8]) -> Result<String, CaseError> {
    if bytes.is_empty() {
        return text(alloc, "empty");
    }
    if bytes.len() <= 128 {
        return Ok(hex::encode(alloc, bytes)?);
    }
    Ok(runs_text(alloc, bytes)?)
}

// Bytes as runs.
fn runs_text(alloc: Global, bytes: &[u8]) -> Result<String, AllocError> {
    let mut said = String::new(alloc);
    let mut start = 0;
    for end in 1..=bytes.len() {
        if bytes.get(end) == bytes.get(start) {
            continue;
        }
        let count = end.saturating_sub(start);
        let byte = bytes.get(start).copied().unwrap_or(0);
        if start > 0 {
            said.push('+')?;
        }
        write!(said, "{count}*{byte:02x}")?;
        start = end;
    }
    Ok(said)
}

/// Numbers with commas between them; `-` for none.
pub fn numbers_text(alloc: Global, numbers: &[u32]) -> Result<String, CaseError> {
    let mut said = String::new(alloc);
    for number in numbers {
        if !said.is_empty() {
            said.push(',')?;
        }
        write!(said, "{number}")?;
    }
    if said.is_empty() {
        said.push('-')?;
    }
    Ok(said)
}

/// Adds a word after others.
pub fn add(said: &mut String, word: &str) -> Result<(), CaseError> {
    if !said.is_empty() {
        said.push(' ')?;
    }
    said.push_str(word)?;
    Ok(())
}
