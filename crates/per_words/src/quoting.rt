//! A word as it is typed in a shell.

ghost use Rattle.std.specs.Prelude.{◌≡◌, ◌++◌, IfOk, OnOk};
ghost use Rattle.per_words.specs.Quoted.{dir_option, joint, quoted, quoted_byte};

use crate::meeting::is_name;
use std::alloc::{AllocError, Global};

/// The word as a shell reads it back as one: as it is where it is a name, and else in single quotes, between which each
/// byte denotes itself, with `'\''` for a single quote.
pub fn quoted(alloc: Global, word: &[u8]) -> Result<Vec<u8>, AllocError>
    ensures { IfOk result (λ text. text.items ≡ quoted word.now) }
{
    if is_name(alloc, word)? {
        return Vec::from_slice(alloc, word);
    }
    let mut text = Vec::new(alloc);
    text.push(b'\'')?;
    for byte in word {
        push_quoted(&mut text, *byte)?;
    }
    text.push(b'\'')?;
    Ok(text)
}

/// The option that names this folder, as it is typed in a shell. A name that begins with a dash stands after an equals
/// sign, since it would be read as an option of its own.
pub fn dir_option(alloc: Global, dir: &[u8]) -> Result<Vec<u8>, AllocError>
    ensures { IfOk result (λ text. text.items ≡ dir_option dir.now) }
{
    let word = quoted(alloc, dir)?;
    let mut text = Vec::from_slice(alloc, b"--dir")?;
    text.push(joint(dir))?;
    text.extend_from_slice(word.as_slice())?;
    Ok(text)
}

/// What stands between the option and this value.
fn joint(value: &[u8]) -> u8
    ensures { result ≡ joint value.now }
{
    if value.starts_with(b"-") { b'=' } else { b' ' }
}

/// Appends the byte as it is typed between single quotes.
fn push_quoted(text: &mut Vec<u8>, byte: u8) -> Result<(), AllocError>
    ensures { OnOk result (text.new.items ≡ text.old.items ++ quoted_byte byte) }
{
    if byte == b'\'' {
        text.extend_from_slice(b"'\\''")?;
        return Ok(());
    }
    text.push(byte)?;
    Ok(())
}
