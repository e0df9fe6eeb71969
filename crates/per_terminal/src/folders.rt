//! A folder, as a person names it.

ghost use Rattle.std.specs.Prelude.{◌≡◌, IfOk, codes, false, string_bytes, true};
ghost use Rattle.std.specs.Str.{IsUtf8};
ghost use Rattle.per_words.specs.Quoted.{dir_option, quoted};
ghost use Rattle.per_words.specs.Screens.{are_visible};

use per_words::{are_visible, dir_option, quoted};
use std::alloc::{AllocError, Global};
use std::fs;
use std::rt::Files;

/// The name of a folder as it is typed in a shell; `DIR` for one that no screen shows.
pub fn typed(alloc: Global, dir: &str) -> Result<String, AllocError>
    ensures shown { are_visible dir.now ≡ true → IsUtf8 (quoted dir.now)
        → IfOk result (λ word. string_bytes word ≡ quoted dir.now) }
    ensures hidden { are_visible dir.now ≡ false → IfOk result (λ word. string_bytes word ≡ codes "DIR") }
{
    if !are_visible(dir) {
        return String::from_str(alloc, "DIR");
    }
    let word = quoted(alloc, dir.as_bytes())?;
    match str::from_utf8(word.as_slice()) {
        Ok(word) => String::from_str(alloc, word),
        Err(_) => String::from_str(alloc, dir),
    }
}

/// The option that names a folder, as it is typed in a shell, likewise.
pub fn typed_option(alloc: Global, dir: &str) -> Result<String, AllocError>
    ensures shown { are_visible dir.now ≡ true → IsUtf8 (dir_option dir.now)
        → IfOk result (λ option. string_bytes option ≡ dir_option dir.now) }
    ensures hidden { are_visible dir.now ≡ false
        → IfOk result (λ option. string_bytes option ≡ codes "--dir=DIR") }
{
    if !are_visible(dir) {
        return String::from_str(alloc, "--dir=DIR");
    }
    let option = dir_option(alloc, dir.as_bytes())?;
    match str::from_utf8(option.as_slice()) {
        Ok(option) => String::from_str(alloc, option),
        Err(_) => format!(in alloc; "--dir={dir}"),
    }
}

/// Whether the folder is there, as far as the system says.
pub fn has_folder<R: Files>(rt: &R, dir: &str) -> bool {
    !matches!(fs::exists(rt, dir), Ok(false))
}
