//! Votes among copies.

use case_words::{CaseError, bytes_of, bytes_text, cut, small, text};
use m_of_n::vote;
use std::alloc::Global;

/// `vote M BYTES ..`: the text on which M copies agree; `-` is a copy without one.
pub fn voted(alloc: Global, words: &str) -> Result<String, CaseError> {
    let (m, words) = cut(words, ' ');
    let m = small(m)?;
    if m == 0 {
        return Err(CaseError::NoCase);
    }
    let copies = copies(alloc, words)?;
    match vote(m, &lent(alloc, &copies)?) {
        Some(text) => bytes_text(alloc, text),
        None => text(alloc, "none"),
    }
}

// The copies, lent.
fn lent(alloc: Global, copies: &[Option<Vec<u8>>]) -> Result<Vec<Option<&[u8]>>, CaseError> {
    let mut lent = Vec::new(alloc);
    for copy in copies {
        match copy {
            Some(text) => lent.push(Some(text.as_slice()))?,
            None => lent.push(None)?,
        }
    }
    Ok(lent)
}

// The copies; none where there are no words.
fn copies(alloc: Global, words: &str) -> Result<Vec<Option<Vec<u8>>>, CaseError> {
    let mut copies = Vec::new(alloc);
    if !words.is_empty() {
        for word in words.split(' ') {
            copies.push(copy(alloc, word)?)?;
        }
    }
    Ok(copies)
}

fn copy(alloc: Global, word: &str) -> Result<Option<Vec<u8>>, CaseError> {
    if word == "-" {
        return Ok(None);
    }
    Ok(Some(bytes_of(alloc, word)?))
}
