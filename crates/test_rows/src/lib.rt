//! Rows of tests: short texts for long inputs.
//!
//! In a row a part and its count stand between backquotes: ``"ab`c`3`"`` spells `abccc`, and in the part `#` is the
//! number of each, counted from 1. After the word `hex` a row spells bytes, in two digits each.
#![tactic(auto)]

use std::alloc::{AllocError, AllocFailed, Global};
use thiserror::Error;

/// Why a row is of no use.
#[derive(Clone, Copy, Debug, Error, PartialEq, Eq)]
pub enum RowError {
    #[error("not a row")]
    NotARow,
    #[error("out of memory")]
    OutOfMemory,
}

impl From<AllocError> for RowError {
    fn from(_error: AllocError) -> RowError {
        RowError::OutOfMemory
    }
}

impl<T: Drop> From<AllocFailed<T>> for RowError {
    fn from(_error: AllocFailed<T>) -> RowError {
        RowError::OutOfMemory
    }
}

/// The text that a row spells.
pub fn spelled(alloc: Global, row: &str) -> Result<String, RowError> {
    let mut text = String::new(alloc);
    let mut part = "";
    for (place, piece) in row.split('`').enumerate() {
        match place % 3 {
            0 => text.push_str(piece)?,
            1 => part = piece,
            _ => push_repeated(&mut text, part, number(piece)?)?,
        }
    }
    Ok(text)
}

/// The bytes that a row spells.
pub fn spelled_bytes(alloc: Global, row: &str) -> Result<Vec<u8>, RowError> {
    let text = spelled(alloc, row)?;
    match text.as_str().strip_prefix("hex ") {
        None => Ok(text.into_bytes()),
        Some(digits) => hex::decode(alloc, digits).map_err(|_| RowError::NotARow),
    }
}

/// The number that a word of a row spells.
pub fn number(word: &str) -> Result<u32, RowError> {
    word.parse::<u32>().map_err(|_| RowError::NotARow)
}

/// Appends the part so often, each time with its number.
fn push_repeated(text: &mut String, part: &str, count: u32) -> Result<(), AllocError> {
    for number in 0..count {
        push_numbered(text, part, number as u64 + 1)?;
    }
    Ok(())
}

/// Appends the part with a number in the place of each `#`.
fn push_numbered(text: &mut String, part: &str, number: u64) -> Result<(), AllocError> {
    for (place, piece) in part.split('#').enumerate() {
        if place > 0 {
            write!(text, "{number}")?;
        }
        text.push_str(piece)?;
    }
    Ok(())
}
