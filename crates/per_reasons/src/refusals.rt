//! Why a line was refused, by its answer.

ghost use Rattle.std.specs.Prelude.{◌≡◌, ◌^◌, ◌<◌, ◌++◌, ℕ, IfOk, IfSome, codes, nat_eq, option_map, string_bytes};
ghost use Rattle.std.specs.Prelude.{true};
ghost use Rattle.std.specs.Fmt.{decimal};
ghost use Rattle.std.specs.List.{starts_with};
ghost use Rattle.std.specs.Str.{IsUtf8, bytes_eq};
ghost use Rattle.per_words.specs.Flaws.{takes_text};
ghost use Rattle.per_reasons.specs.Reasons.{explained_text, manifest_of_line};
ghost use Rattle.per_reasons.specs.Rules.{NamesRule};

use crate::lines::why_no_line;
use crate::rules::why_rejected;
use crate::words::split;
use std::alloc::{AllocError, Global};
use value_text::parse_unsigned;

/// Why a line was answered so, in words; nothing where the line and the answer say no more. Of a bad line it is where
/// the line stops being one, of a manifest that is rejected the rule with the storage and the element that break it.
///
/// # Errors
///
/// Memory ran out.
pub fn why_refused(alloc: Global, answer: &[u8], line: &[u8]) -> Result<Option<String>, AllocError>
    // Of a bad line the answer and where the line stops being one; of a rejected manifest a text that names the rule.
    ensures bad { IfOk result (λ why. starts_with nat_eq answer.now (codes "bad-line ") ≡ true → IsUtf8 answer.now
        → option_map string_bytes why ≡ explained_text answer.now line.now) }
    ensures rejected { IfOk result (λ why. (rule : ℕ) → rule < 2 ^ 32
        → answer.now ≡ codes "error 22 ManifestRejected " ++ decimal rule
        → IfSome (manifest_of_line line.now) (λ manifest. NamesRule rule manifest (option_map string_bytes why))) }
{
    if answer.starts_with(b"bad-line ") {
        return why_bad(alloc, answer, line);
    }
    match manifest_of_line(line) {
        Some(manifest) => why_unfit(alloc, answer, manifest),
        None => Ok(None),
    }
}

/// Where a line stops being one.
fn why_bad(alloc: Global, answer: &[u8], line: &[u8]) -> Result<Option<String>, AllocError>
    ensures { IfOk result (λ why. IsUtf8 answer.now
        → option_map string_bytes why ≡ explained_text answer.now line.now) }
{
    let Ok(answer) = str::from_utf8(answer) else {
        return Ok(None);
    };
    match why_no_line(alloc, line)? {
        Some(why) => Ok(Some(format!(in alloc; "{answer}: {why}")?)),
        None => Ok(None),
    }
}

/// Why a manifest was answered so.
fn why_unfit(alloc: Global, answer: &[u8], manifest: &[u8]) -> Result<Option<String>, AllocError>
    ensures { IfOk result (λ why. (rule : ℕ) → rule < 2 ^ 32
        → answer.now ≡ codes "error 22 ManifestRejected " ++ decimal rule
        → NamesRule rule manifest.now (option_map string_bytes why)) }
{
    if let Some(digits) = answer.strip_prefix(b"error 22 ManifestRejected ") {
        return match parse_unsigned(u32::MAX as u64, digits) {
            Ok(rule) => Ok(Some(why_rejected(alloc, rule as u32, manifest)?)),
            Err(_) => Ok(None),
        };
    }
    Ok(None)
}

/// The manifest in a line that has one.
pub(crate) fn manifest_of_line(line: &[u8]) -> Option<&[u8]>
    ensures { option_map (λ m. m.now) result ≡ manifest_of_line line.now }
{
    let (_, call) = split(line)?;
    let (word, manifest) = split(call)?;
    has_manifest(word).then_some(manifest)
}

/// Whether the word is that of a call with a manifest.
fn has_manifest(word: &[u8]) -> bool
    ensures { result ≡ takes_text word.now }
{
    is_word(word, b"install") || is_word(word, b"update") || is_word(word, b"update-begin")
}

fn is_word(text: &[u8], word: &[u8]) -> bool
    ensures { result ≡ bytes_eq text.now word.now }
{
    text == word
}
