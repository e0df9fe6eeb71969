//! Bytes as texts.

use std::alloc::{AllocError, Global};

/// Bytes as numbers, those that repeat as the byte and how often.
pub fn runs(alloc: Global, bytes: &[u8]) -> Result<String, AllocError> {
    let mut text = String::new(alloc);
    let mut value = 0;
    let mut count: usize = 0;
    for byte in bytes {
        if *byte != value {
            push_run(&mut text, value, count)?;
            value = *byte;
            count = 0;
        }
        count = count.saturating_add(1);
    }
    push_run(&mut text, value, count)?;
    Ok(text)
}

fn push_run(text: &mut String, value: u8, count: usize) -> Result<(), AllocError> {
    if count == 0 {
        return Ok(());
    }
    if !text.is_empty() {
        text.push(' ')?;
    }
    if count == 1 {
        return write!(text, "{value}");
    }
    write!(text, "{value}*{count}")
}
