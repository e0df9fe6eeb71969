//! Bytes and numbers read from the start of a text. Each function gives what it read, and the bytes after it, or
//! `Ended` exactly where the text is too short.

ghost use Rattle.std.specs.Prelude.{◌≡◌, IfOk, length};
ghost use Rattle.std.specs.Int.{w16, w32, w64};
ghost use Rattle.per_base.specs.Fields.{Reads, byte_at, bytes_at, number_at};

/// The text ends before the field does.
#[derive(Clone, Copy, Debug, PartialEq, Eq)]
pub struct Ended;

/// Reads the first byte, and gives it with the bytes after it; `Ended` exactly where there is none.
pub fn byte_of(bytes: &[u8]) -> Result<(u8, &[u8]), Ended>
    // The pair x of the byte and the bytes after it is what the definition reads; an error where it reads nothing.
    ensures { Reads (λ x. (x.0, x.1.now)) result (byte_at bytes.now) }
{
    match bytes {
        [] => Err(Ended),
        [byte, rest @ ..] => Ok((*byte, rest)),
    }
}

/// Reads the first `count` bytes, and gives them with the bytes after them; `Ended` exactly where there are fewer.
#[tactic(auto, unfolding(crate::specs::Fields::bytes_at))]
pub fn bytes_of(count: usize, bytes: &[u8]) -> Result<(&[u8], &[u8]), Ended>
    // The pair x of the bytes read and those after them is what the definition reads, and an error where it reads
    // nothing.
    ensures front { Reads (λ x. (x.0.now, x.1.now)) result (bytes_at count bytes.now) }
    ensures length { IfOk result (λ x. length x.0.now ≡ count) }
{
    if bytes.len() < count {
        return Err(Ended);
    }
    Ok(bytes.split_at(count))
}

/// Reads a little-endian number of two bytes, and gives it with the bytes after it; `Ended` exactly where there are
/// fewer than two.
#[tactic(auto, unfolding(crate::specs::Fields::number_at))]
pub fn u16_of(bytes: &[u8]) -> Result<(u16, &[u8]), Ended>
    // The pair x of the number and the bytes after it is what the definition reads; an error where it reads nothing.
    ensures { Reads (λ x. (x.0, x.1.now)) result (number_at w16 bytes.now) }
{
    if bytes.len() < 2 {
        return Err(Ended);
    }
    let (front, rest) = bytes.split_at(2);
    let number = u16::from_le_bytes([front[0], front[1]]);
    Ok((number, rest))
}

/// Reads a little-endian number of four bytes, and gives it with the bytes after it; `Ended` exactly where there are
/// fewer than four.
#[tactic(auto, unfolding(crate::specs::Fields::number_at))]
pub fn u32_of(bytes: &[u8]) -> Result<(u32, &[u8]), Ended>
    // The pair x of the number and the bytes after it is what the definition reads; an error where it reads nothing.
    ensures { Reads (λ x. (x.0, x.1.now)) result (number_at w32 bytes.now) }
{
    if bytes.len() < 4 {
        return Err(Ended);
    }
    let (front, rest) = bytes.split_at(4);
    let number = u32::from_le_bytes([front[0], front[1], front[2], front[3]]);
    Ok((number, rest))
}

/// Reads a little-endian number of eight bytes, and gives it with the bytes after it; `Ended` exactly where there are
/// fewer than eight.
#[tactic(auto, unfolding(crate::specs::Fields::number_at))]
pub fn u64_of(bytes: &[u8]) -> Result<(u64, &[u8]), Ended>
    // The pair x of the number and the bytes after it is what the definition reads; an error where it reads nothing.
    ensures { Reads (λ x. (x.0, x.1.now)) result (number_at w64 bytes.now) }
{
    if bytes.len() < 8 {
        return Err(Ended);
    }
    let (front, rest) = bytes.split_at(8);
    let number = u64::from_le_bytes([
        front[0], front[1], front[2], front[3], front[4], front[5], front[6], front[7],
    ]);
    Ok((number, rest))
}
