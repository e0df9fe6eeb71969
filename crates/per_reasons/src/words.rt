//! The words of a line.

ghost use Rattle.std.specs.Prelude.{◌≡◌, ◌≤◌, IfNone, IfSome, false, length, true};
ghost use Rattle.per_words.specs.Flaws.{after_space, has_space, leading_length, leading_word};
ghost use Rattle.per_reasons.specs.Reasons.{IsShown, dots_after, shown_length, word_shown};

use per_words::are_visible;

/// How many bytes of a word are shown at most.
const SHOWN_BYTES: usize = 60;

/// What stands before the first space, and after it.
pub(crate) fn split(text: &[u8]) -> Option<(&[u8], &[u8])>
    ensures found { IfSome result (λ parts. (has_space text.now ≡ true) × ((parts.0.now ≡ leading_word text.now)
        × (parts.1.now ≡ after_space text.now))) }
    ensures none { IfNone result (has_space text.now ≡ false) }
{
    let length = leading_length(text);
    if length == text.len() {
        return None;
    }
    let (word, _) = text.split_at(length);
    let (_, rest) = text.split_at(length + 1);
    Some((word, rest))
}

/// How many bytes stand before the first space.
fn leading_length(text: &[u8]) -> usize
    ensures value { result ≡ leading_length text.now }
    ensures bound { result ≤ length text.now }
{
    for (at, byte) in text.iter().enumerate() {
        if *byte == b' ' {
            return at;
        }
    }
    text.len()
}

/// The first word of a text, as far as a refusal shows it: at most its first 60 bytes; none where they are no text, or
/// a character in them would begin a row or move the cursor.
pub fn text_shown(text: &[u8]) -> Option<&str>
    ensures found { IfSome result (λ word. IsShown (word_shown text.now) × (word.now ≡ word_shown text.now)) }
    ensures none { IfNone result (¬ (IsShown (word_shown text.now))) }
{
    shown(word_shown(text))
}

/// The word as a text, where it is shown.
pub(crate) fn shown(word: &[u8]) -> Option<&str>
    ensures found { IfSome result (λ text. IsShown word.now × (text.now ≡ word.now)) }
    ensures none { IfNone result (¬ (IsShown word.now)) }
{
    match str::from_utf8(word) {
        Ok(text) if are_visible(text) => Some(text),
        Ok(_) | Err(_) => None,
    }
}

/// The first word of a text, as far as it may be shown: at most its first 60 bytes.
pub(crate) fn word_shown(text: &[u8]) -> &[u8]
    ensures { result.now ≡ word_shown text.now }
{
    let (word, _) = text.split_at(shown_length(text));
    word
}

/// What a refusal shows after the first word of a text: two dots where it has more than 60 bytes, else nothing.
pub fn dots_after(text: &[u8]) -> &'static str
    ensures { result.now ≡ dots_after text.now }
{
    if leading_length(text) > SHOWN_BYTES {
        ".."
    } else {
        ""
    }
}

/// How much of the first word is shown.
fn shown_length(text: &[u8]) -> usize
    ensures value { result ≡ shown_length text.now }
    ensures bound { result ≤ length text.now }
{
    let length = leading_length(text);
    if length > SHOWN_BYTES {
        SHOWN_BYTES
    } else {
        length
    }
}
