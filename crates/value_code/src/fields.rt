//! What stands at the start of bytes: a byte, a number with its lowest byte first, or a length with that many bytes.

ghost use Rattle.std.specs.Int.{w16, w32, w64, w8};
ghost use Rattle.std.specs.Prelude.{◌≡◌};
ghost use Rattle.per_base.specs.Fields.{byte_at};
ghost use Rattle.value_model.specs.Decoding.{Gives};
ghost use Rattle.value_code.specs.Reading.{counted_at, number_at, text_of};

use value_model::DecodeError;

/// The byte at the start, and what follows it.
pub(crate) fn byte_at(bytes: &[u8]) -> Result<(u8, &[u8]), DecodeError>
    ensures { Gives (λ x. (x.0, x.1.now)) result (byte_at bytes.now) }
{
    match bytes {
        [] => Err(DecodeError::NotAValue),
        [first, rest @ ..] => Ok((*first, rest)),
    }
}

/// The number of one byte at the start, and what follows it.
pub(crate) fn u8_at(bytes: &[u8]) -> Result<(u8, &[u8]), DecodeError>
    ensures { Gives (λ x. (x.0, x.1.now)) result (number_at w8 bytes.now) }
{
    if bytes.is_empty() {
        return Err(DecodeError::NotAValue);
    }
    let (front, rest) = bytes.split_at(1);
    Ok((u8::from_le_bytes([front[0]]), rest))
}

/// The number of two bytes at the start, and what follows it.
pub(crate) fn u16_at(bytes: &[u8]) -> Result<(u16, &[u8]), DecodeError>
    ensures { Gives (λ x. (x.0, x.1.now)) result (number_at w16 bytes.now) }
{
    if bytes.len() < 2 {
        return Err(DecodeError::NotAValue);
    }
    let (front, rest) = bytes.split_at(2);
    Ok((u16::from_le_bytes([front[0], front[1]]), rest))
}

/// The number of four bytes at the start, and what follows it.
pub(crate) fn u32_at(bytes: &[u8]) -> Result<(u32, &[u8]), DecodeError>
    ensures { Gives (λ x. (x.0, x.1.now)) result (number_at w32 bytes.now) }
{
    if bytes.len() < 4 {
        return Err(DecodeError::NotAValue);
    }
    let (front, rest) = bytes.split_at(4);
    let number = u32::from_le_bytes([front[0], front[1], front[2], front[3]]);
    Ok((number, rest))
}

/// The number of eight bytes at the start, and what follows it.
pub(crate) fn u64_at(bytes: &[u8]) -> Result<(u64, &[u8]), DecodeError>
    ensures { Gives (λ x. (x.0, x.1.now)) result (number_at w64 bytes.now) }
{
    if bytes.len() < 8 {
        return Err(DecodeError::NotAValue);
    }
    let (front, rest) = bytes.split_at(8);
    let number = u64::from_le_bytes([
        front[0], front[1], front[2], front[3], front[4], front[5], front[6], front[7],
    ]);
    Ok((number, rest))
}

/// A length as a number of four bytes at the start: the bytes after it, as many as it says, and what follows those.
#[tactic(auto, unfolding(crate::specs::Reading::counted_at))]
pub(crate) fn counted_at(bytes: &[u8]) -> Result<(&[u8], &[u8]), DecodeError>
    ensures { Gives (λ x. (x.0.now, x.1.now)) result (counted_at bytes.now) }
{
    let (length, rest) = u32_at(bytes)?;
    let length = length as usize;
    if rest.len() < length {
        return Err(DecodeError::NotAValue);
    }
    Ok(rest.split_at(length))
}

/// The bytes as a text.
pub(crate) fn text_of(bytes: &[u8]) -> Result<&str, DecodeError>
    ensures { Gives (λ text. text.now) result (text_of bytes.now) }
{
    match str::from_utf8(bytes) {
        Ok(text) => Ok(text),
        Err(_) => Err(DecodeError::NotAValue),
    }
}
