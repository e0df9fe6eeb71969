//! The words of a line.

ghost use Rattle.std.specs.Prelude.{◌≡◌};
ghost use Rattle.std.specs.Str.{bytes_eq};
ghost use Rattle.value_text.specs.Readers.{Finds};
ghost use Rattle.command_text.specs.Reading.{split};

/// What stands before the first space, and after it.
pub(crate) fn split(text: &[u8]) -> Option<(&[u8], &[u8])>
    ensures { Finds (λ parts. (parts.0.now, parts.1.now)) result (split text.now) }
{
    for (at, byte) in text.iter().enumerate() {
        if *byte == b' ' {
            return Some((&text[..at], &text[at + 1..]));
        }
    }
    None
}

/// Whether the text is this word.
pub(crate) fn is_word(text: &[u8], word: &[u8]) -> bool
    ensures { result ≡ bytes_eq text.now word.now }
{
    text == word
}
