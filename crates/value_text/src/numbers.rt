//! Decimal numbers at the start of a text: no plus sign, no leading zero, and a minus only before a number that is not
//! 0.

ghost use Rattle.std.specs.Prelude.{◌≡◌, ◌≢◌, ◌+◌, ◌^◌, ◌<◌, ◌≤◌, IfOk, true};
ghost use Rattle.std.specs.List.{prefix_len};
ghost use Rattle.std.specs.Char.{is_ascii_digit};
ghost use Rattle.std.specs.Str.{all_ascii_digits};
ghost use lib.Signed.{mag};
ghost use Rattle.value_text.specs.Readers.{is_canonical, number_of, number_at, unsigned_at, negative, signed_at};
ghost use Rattle.value_model.specs.Decoding.{Gives};

use crate::readers::after;
use value_model::DecodeError;

/// How many digits stand at the start.
fn digit_count(bytes: &[u8]) -> usize
    ensures { result ≡ prefix_len is_ascii_digit bytes.now }
{
    bytes
        .iter()
        .take_while(|byte| byte.is_ascii_digit())
        .count()
}

/// Whether there is a digit, and no leading zero.
fn is_canonical(digits: &[u8]) -> bool
    ensures { result ≡ is_canonical digits.now }
{
    let Some((first, others)) = digits.split_first() else {
        return false;
    };
    *first != b'0' || others.is_empty()
}

/// The number that the digits write.
fn number_of(digits: &[u8]) -> Option<u64>
    requires { all_ascii_digits digits.now ≡ true }
    ensures { result ≡ number_of digits.now }
{
    if !is_canonical(digits) {
        return None;
    }
    match str::from_utf8(digits) {
        Ok(text) => text.parse::<u64>().ok(),
        Err(_) => None,
    }
}

/// The number at the start, and what follows it.
#[tactic(auto, unfolding(crate::specs::Readers::number_at))]
fn number(bytes: &[u8]) -> Result<(u64, &[u8]), DecodeError>
    ensures read { Gives (λ x. (x.0, x.1.now)) result (number_at bytes.now) }
    ensures memory { result ≢ Err DecodeError.OutOfMemory }
{
    let (digits, rest) = bytes.split_at(digit_count(bytes));
    let Some(n) = number_of(digits) else {
        return Err(DecodeError::NotAValue);
    };
    Ok((n, rest))
}

/// A number of at most `max` at the start, and what follows it.
#[tactic(auto, unfolding(crate::specs::Readers::unsigned_at))]
pub(crate) fn unsigned(max: u64, bytes: &[u8]) -> Result<(u64, &[u8]), DecodeError>
    ensures read { Gives (λ x. (x.0, x.1.now)) result (unsigned_at (max + 1) bytes.now) }
    ensures range { IfOk result (λ x. x.0 ≤ max) }
    ensures memory { result ≢ Err DecodeError.OutOfMemory }
{
    let (n, rest) = number(bytes)?;
    if n > max {
        return Err(DecodeError::NotAValue);
    }
    Ok((n, rest))
}

/// The number after a minus.
fn negative(max: u64, n: u64) -> Result<i64, DecodeError>
    requires { max < 2 ^ 63 }
    ensures read { Gives (λ z. z) result (negative (max + 1) n) }
    ensures range { IfOk result (λ z. mag z ≤ max) }
    ensures memory { result ≢ Err DecodeError.OutOfMemory }
{
    if n == 0 || n - 1 > max {
        return Err(DecodeError::NotAValue);
    }
    Ok(-1 - (n - 1) as i64)
}

/// A number from `-max - 1` to `max` at the start, and what follows it.
#[tactic(auto, unfolding(crate::specs::Readers::signed_at))]
pub(crate) fn signed(max: u64, bytes: &[u8]) -> Result<(i64, &[u8]), DecodeError>
    requires { max < 2 ^ 63 }
    ensures read { Gives (λ x. (x.0, x.1.now)) result (signed_at (max + 1) bytes.now) }
    ensures range { IfOk result (λ x. mag x.0 ≤ max) }
    ensures memory { result ≢ Err DecodeError.OutOfMemory }
{
    if let Some(rest) = after(b"-", bytes) {
        let (n, rest) = number(rest)?;
        return Ok((negative(max, n)?, rest));
    }
    let (n, rest) = unsigned(max, bytes)?;
    Ok((n as i64, rest))
}
