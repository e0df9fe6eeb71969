//! Numbers and bytes that are the whole of a text.

ghost use Rattle.std.specs.Prelude.{◌≡◌, ◌≢◌, ◌+◌, ◌<◌, ◌≤◌, ◌^◌, ℕ, ℤ, List, IfOk, slice_index, IsErrOf};
ghost use Rattle.std.specs.Fmt.{decimal, signed_decimal};
ghost use lib.Signed.{mag};
ghost use Rattle.value_text.specs.Texts.{hex_text};
ghost use Rattle.value_text.specs.Whole.{bytes_in, signed_in, unsigned_in};
ghost use Rattle.value_model.specs.Decoding.{Gives};

use crate::numbers::{signed, unsigned};
use crate::strings::bytes_reusing;
use per_base::Bytes;
use std::alloc::Global;
use std::mem;
use value_model::DecodeError;

/// The number that the whole text writes.
#[tactic(auto, unfolding(crate::specs::Whole::unsigned_in))]
fn unsigned_in(max: u64, text: &[u8]) -> Result<u64, DecodeError>
    ensures read { Gives (λ n. n) result (unsigned_in (max + 1) text.now) }
    ensures memory { result ≢ Err DecodeError.OutOfMemory }
{
    let (n, rest) = unsigned(max, text)?;
    if !rest.is_empty() {
        return Err(DecodeError::NotAValue);
    }
    Ok(n)
}

/// Parses the whole text as a decimal number, at most `max`, without a plus sign and without leading zeros.
///
/// # Errors
///
/// `NotAValue` exactly where the text is no such number. Does not allocate.
pub fn parse_unsigned(max: u64, text: &[u8]) -> Result<u64, DecodeError>
    // the text is the decimal digits of the number found, and a text that is refused is those of no number up to `max`
    ensures found { IfOk result (λ n. (n ≤ max) × (text.now ≡ decimal n)) }
    ensures only { IsErrOf result DecodeError.NotAValue → (n : ℕ) → n ≤ max → text.now ≢ decimal n }

    // what it gives depends on the text and the bound alone, and it needs no memory
    ensures exact { Gives (λ n. n) result (unsigned_in (max + 1) text.now) }
    ensures memory { result ≢ Err DecodeError.OutOfMemory }
{
    unsigned_in(max, text)
}

/// The number that the whole text writes, with its sign.
#[tactic(auto, unfolding(crate::specs::Whole::signed_in))]
fn signed_in(max: u64, text: &[u8]) -> Result<i64, DecodeError>
    requires { max < 2 ^ 63 }
    ensures read { Gives (λ z. z) result (signed_in (max + 1) text.now) }
    ensures memory { result ≢ Err DecodeError.OutOfMemory }
{
    let (z, rest) = signed(max, text)?;
    if !rest.is_empty() {
        return Err(DecodeError::NotAValue);
    }
    Ok(z)
}

/// Parses the whole text as a decimal number from `-max - 1` to `max`, without a plus sign and without leading zeros; a
/// minus sign before 0 is not allowed.
///
/// # Errors
///
/// `NotAValue` exactly where the text is no such number. Does not allocate.
pub fn parse_signed(max: u64, text: &[u8]) -> Result<i64, DecodeError>
    requires { max < 2 ^ 63 }
    ensures found { IfOk result (λ z. (mag z ≤ max) × (text.now ≡ signed_decimal z)) }
    ensures only { IsErrOf result DecodeError.NotAValue → (z : ℤ) → mag z ≤ max → text.now ≢ signed_decimal z }
    // (`mag z` is z, or -z - 1 where z is negative: at most `max` just for the numbers from `-max - 1` to `max`.)
    // What it returns is what reading the text gives, `signed_in`, and an error where that is `None`.
    ensures exact { Gives (λ z. z) result (signed_in (max + 1) text.now) }
    ensures memory { result ≢ Err DecodeError.OutOfMemory }
{
    signed_in(max, text)
}

/// The bytes that the whole text writes, in a room whose items are of no use any more.
#[tactic(auto, unfolding(crate::specs::Whole::bytes_in))]
fn bytes_in(room: Vec<u8>, text: &[u8]) -> Result<Bytes, DecodeError>
    ensures { Gives (λ b. b) result (bytes_in text.now) }
{
    let (bytes, rest) = bytes_reusing(room, text)?;
    if !rest.is_empty() {
        return Err(DecodeError::NotAValue);
    }
    Ok(bytes)
}

/// Parses the whole text as bytes, each of two lower-case hexadecimal digits.
///
/// # Errors
///
/// `NotAValue` exactly where the text is not of this form; `OutOfMemory`.
pub fn parse_hex(alloc: Global, text: &[u8]) -> Result<Bytes, DecodeError>
    // the text is the digits of the bytes found, and a text that is refused is those of no bytes `b`
    ensures found { IfOk result (λ b. text.now ≡ hex_text b) }
    ensures only { IsErrOf result DecodeError.NotAValue → (b : List ℕ) → ((i : ℕ) → slice_index b i < 256)
        → text.now ≢ hex_text b }

    // What it returns is what reading the text gives, `bytes_in`, or an error where that is `None` or memory ran out.
    ensures exact { Gives (λ b. b) result (bytes_in text.now) }
{
    parse_hex_reusing(alloc, &mut Vec::new(alloc), text)
}

/// The same as [`parse_hex`], in the memory that `room` has, whose items are of no use any more. The bytes found hold
/// that memory: given back by [`Bytes::into_vec`] it serves the next text. What `room` has after the call is left open.
///
/// # Errors
///
/// `NotAValue` exactly where the text is not of this form; `OutOfMemory`.
pub fn parse_hex_reusing(
    alloc: Global,
    room: &mut Vec<u8>,
    text: &[u8],
) -> Result<Bytes, DecodeError>
    ensures found { IfOk result (λ b. text.now ≡ hex_text b) }
    ensures only { IsErrOf result DecodeError.NotAValue → (b : List ℕ) → ((i : ℕ) → slice_index b i < 256)
        → text.now ≢ hex_text b }
    ensures exact { Gives (λ b. b) result (bytes_in text.now) }
{
    bytes_in(mem::replace(room, Vec::new(alloc)), text)
}
