ghost use Rattle.std.specs.Prelude.{◌≡◌, ◌+◌, ◌≤◌, ℕ, List, ◌++◌, length, IfOk};
ghost use Rattle.hash_guard.specs.SealedText.{VerifiesAs, max_body, header, numbered, sealed};

use crate::hashing::hash;
use crate::layout::{HASH, HEADER, LENGTH_AT};
use byteorder::{ByteOrder, LittleEndian};
use std::alloc::{AllocError, Global};

/// The sealed text of this generation and body, of 44 bytes more than the body: the hash of what follows, the
/// generation, the body's length, and the body.
///
/// # Errors
///
/// Only where memory runs out.
pub fn seal(alloc: Global, generation: u64, body: &[u8]) -> Result<Vec<u8>, AllocError>
    requires positive { 1 ≤ generation }
    requires short { length body.now ≤ max_body }
    ensures text { IfOk result (λ text. text.items ≡ sealed generation body.now) }
    // The text verifies as what was sealed, whatever follows it.
    ensures verifies { IfOk result (λ text. (rest : List ℕ)
        → VerifiesAs (text.items ++ rest) generation body.now) }
{
    let mut text = vec![in alloc; 0; HEADER + body.len()]?;
    seal_into(&mut text, generation, body);
    Ok(text)
}

/// Writes the sealed text of this generation and body over `text`, which has just its length. It verifies as them,
/// whatever follows it. Does not allocate.
pub fn seal_into(text: &mut [u8], generation: u64, body: &[u8])
    requires positive { 1 ≤ generation }
    requires short { length body.now ≤ max_body }
    requires room { length text.old ≡ header + length body.now }
    ensures text { text.new ≡ sealed generation body.now }
    // The text verifies as what was sealed, whatever follows it.
    ensures verifies { (rest : List ℕ) → VerifiesAs (text.new ++ rest) generation body.now }
{
    let (stated, rest) = text.split_at_mut(HASH);
    write_numbered(rest, generation, body);
    stated.copy_from_slice(&hash(rest));
}

// Writes what the hash is taken of.
fn write_numbered(rest: &mut [u8], generation: u64, body: &[u8])
    requires short { length body.now ≤ max_body }
    requires room { length rest.old ≡ 12 + length body.now }
    ensures { rest.new ≡ numbered generation body.now }
{
    let (generation_bytes, rest) = rest.split_at_mut(LENGTH_AT - HASH);
    let (length_bytes, rest) = rest.split_at_mut(HEADER - LENGTH_AT);
    LittleEndian::write_u64(generation_bytes, generation);
    LittleEndian::write_u32(length_bytes, body.len() as u32);
    rest.copy_from_slice(body);
}
