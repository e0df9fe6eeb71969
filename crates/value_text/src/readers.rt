//! Words and numbers at the start of a text.

ghost use Rattle.std.specs.Prelude.{◌≡◌};
ghost use Rattle.value_model.specs.Decoding.{Gives};
ghost use Rattle.value_text.specs.Readers.{Finds, literal_at, punctuation_at};

use value_model::DecodeError;

/// What follows the word, where the bytes begin with it.
pub(crate) fn after<'a>(word: &[u8], bytes: &'a [u8]) -> Option<&'a [u8]>
    ensures { Finds (λ rest. rest.now) result (literal_at word.now bytes.now) }
{
    bytes.strip_prefix(word)
}

/// What follows a thing of a list: whether it is the closing byte and not a comma, and the rest.
pub(crate) fn punctuation(close: u8, bytes: &[u8]) -> Result<(bool, &[u8]), DecodeError>
    ensures { Gives (λ x. (x.0, x.1.now)) result (punctuation_at close bytes.now) }
{
    let Some((byte, rest)) = bytes.split_first() else {
        return Err(DecodeError::NotAValue);
    };
    if *byte == close {
        return Ok((true, rest));
    }
    if *byte == b',' {
        return Ok((false, rest));
    }
    Err(DecodeError::NotAValue)
}
