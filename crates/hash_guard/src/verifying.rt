ghost use Rattle.std.specs.Prelude.{◌≡◌, ◌+◌, ◌≤◌, ℕ, List, ◌↔◌, length, take, drop, IfSome, IfNone, IsTrue};
ghost use Rattle.hash_guard.specs.SealedText.{VerifiesAs, header, generation_in, length_in, sealed};
ghost use Rattle.sha2.specs.Sha256.{sha256};

use crate::hashing::hash;
use crate::layout::{HASH, HEADER, LENGTH_AT, MAX_BODY};
use byteorder::{ByteOrder, LittleEndian};

/// The generation and the body of a sealed text.
#[derive(Clone, Copy, Debug)]
pub struct Sealed<'a> {
    /// At least 1.
    pub generation: u64,
    /// At most [`MAX_BODY`] bytes, borrowed from the slot.
    pub body: &'a [u8],
}

/// The generation and the body of the sealed text at the slot's start; `None` exactly where there is no such text. Does
/// not allocate, and reads nothing after the text.
pub fn verify(slot: &[u8]) -> Option<Sealed<'_>>
    // What is found is that as which the slot verifies; where nothing is, it verifies as no generation and body.
    ensures some { IfSome result (λ found. VerifiesAs slot.now found.generation found.body.now) }
    ensures none { IfNone result ((generation : ℕ) (body : List ℕ)
        → VerifiesAs slot.now generation body → ⊥) }
    // The slot begins with the very text that seals what was found.
    ensures front { IfSome result (λ found. take (header + length found.body.now) slot.now
        ≡ sealed found.generation found.body.now) }
{
    if slot.len() < HEADER {
        return None;
    }
    let generation = generation_of(slot);
    let body_length = length_of(slot);
    if generation == 0 || body_length > MAX_BODY || body_length > slot.len() - HEADER {
        return None;
    }
    if !is_hashed(slot, body_length) {
        return None;
    }
    Some(Sealed {
        generation,
        body: &slot[HEADER..HEADER + body_length],
    })
}

fn generation_of(slot: &[u8]) -> u64
    requires { header ≤ length slot.now }
    ensures { result ≡ generation_in slot.now }
{
    LittleEndian::read_u64(&slot[HASH..])
}

fn length_of(slot: &[u8]) -> usize
    requires { header ≤ length slot.now }
    ensures { result ≡ length_in slot.now }
{
    LittleEndian::read_u32(&slot[LENGTH_AT..]) as usize
}

// Whether the slot begins with the hash of what follows, up to the end of a body of this length.
fn is_hashed(slot: &[u8], body_length: usize) -> bool
    requires { header + body_length ≤ length slot.now }
    ensures { IsTrue result ↔ (take 32 slot.now ≡ sha256 (take (12 + body_length) (drop 32 slot.now))) }
{
    let (stated, rest) = slot.split_at(HASH);
    let digest = hash(&rest[..HEADER - HASH + body_length]);
    stated == digest.as_slice()
}
