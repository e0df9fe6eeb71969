//! Hashes of contents, with the states of the hasher on the way, and taken from where a content begins to differ from
//! another.

ghost use Rattle.std.specs.Prelude.{◌≡◌, ◌≤◌, ◌*◌, ◌+◌, ◌++◌, ℕ, List, length, take};
ghost use Rattle.sha2.specs.Sha256.{sha256};
ghost use Rattle.sha2.specs.Hashers.{Holds256};
ghost use Rattle.block_files.specs.States.{AreStatesOf};

use sha2::{Digest, Sha256};
use std::alloc::Global;

/// How many bytes there are from one state to the next.
const STEP: usize = 32_768;

/// The hash of a content, and the states of the hasher on the way to it.
#[derive(Drop)]
pub struct Hashed {
    /// SHA-256 of the bytes.
    pub hash: [u8; 32],
    /// The states of the hasher after each 32 KiB, in order; fewer where memory was short.
    pub states: Vec<Sha256>,
}

/// A content, and states of the hasher after its first parts of 32 KiB, in order.
#[derive(Clone, Copy)]
pub struct HashedParts<'a> {
    /// The bytes of the content.
    pub bytes: &'a [u8],
    /// The i-th one, from 0, is that after the first i + 1 parts; they may be fewer than the parts.
    pub states: &'a [Sha256],
}

/// No content, of which nothing is known.
pub fn nothing_known<'a>() -> HashedParts<'a>
    ensures { AreStatesOf result.bytes.now result.states.now }
{
    HashedParts {
        bytes: &[],
        states: &[],
    }
}

/// The SHA-256 of the bytes, and states of the hasher on the way. The hasher goes on from the last state of the known
/// content up to which both begin with the same bytes. Where memory is short, fewer states are kept.
pub fn hash_beside(alloc: Global, bytes: &[u8], known: HashedParts<'_>) -> Hashed
    // The known states are those of the known bytes.
    requires { AreStatesOf known.bytes.now known.states.now }
    ensures hash { result.hash ≡ sha256 bytes.now }
    ensures states { AreStatesOf bytes.now result.states.items }
{
    let shared = count_shared(bytes, known.bytes, known.states.len());
    let shared_states = &known.states[..shared];
    hash_from(alloc, bytes, shared_states)
}

// How many steps of the bytes are those of others; it looks at no more than that many.
fn count_shared(bytes: &[u8], others: &[u8], most: usize) -> usize
    ensures most { result ≤ most }
    ensures inside { 32768 * result ≤ length bytes.now }
    ensures shared { take (32768 * result) bytes.now ≡ take (32768 * result) others.now }
{
    let whole = most.min(bytes.len() / STEP).min(others.len() / STEP);
    for i in 0..whole {
        if step_of(bytes, i) != step_of(others, i) {
            return i;
        }
    }
    whole
}

// The bytes from one state to the next.
fn step_of(bytes: &[u8], i: usize) -> &[u8]
    requires { 32768 * (i + 1) ≤ length bytes.now }
    ensures { take (32768 * i) bytes.now ++ result.now ≡ take (32768 * (i + 1)) bytes.now }
{
    &bytes[STEP * i..STEP * (i + 1)]
}

// The hash of bytes of which these are states.
pub(crate) fn hash_from(alloc: Global, bytes: &[u8], states: &[Sha256]) -> Hashed
    requires states { AreStatesOf bytes.now states.now }
    requires inside { 32768 * length states.now ≤ length bytes.now }
    ensures hash { result.hash ≡ sha256 bytes.now }
    ensures states { AreStatesOf bytes.now result.states.items }
{
    let whole = bytes.len() / STEP;
    let mut kept = copied(alloc, states, whole);
    let mut hasher = hasher_after(bytes, states);
    for i in states.len()..whole {
        hasher.update(step_of(bytes, i));
        keep_state(&mut kept, i, &hasher);
    }
    hasher.update(&bytes[STEP * whole..]);
    Hashed {
        hash: hasher.finalize(),
        states: kept,
    }
}

// The hasher after the last of these states.
fn hasher_after(bytes: &[u8], states: &[Sha256]) -> Sha256
    requires states { AreStatesOf bytes.now states.now }
    requires inside { 32768 * length states.now ≤ length bytes.now }
    ensures { Holds256 result (take (32768 * length states.now) bytes.now) }
{
    if !states.is_empty() {
        if let Ok(state) = states[states.len() - 1].clone() {
            return state;
        }
    }
    Sha256::new_with_prefix(&bytes[..STEP * states.len()])
}

// Copies of states, in a list with room for that many; where memory is short, of none or of fewer.
fn copied(alloc: Global, states: &[Sha256], room: usize) -> Vec<Sha256>
    ensures { (bytes : List ℕ) → AreStatesOf bytes states.now → AreStatesOf bytes result.items }
{
    let mut copies = match Vec::with_capacity(alloc, room) {
        Ok(copies) => copies,
        Err(_) => Vec::new(alloc),
    };
    for (i, state) in states.iter().enumerate() {
        keep_state(&mut copies, i, state);
    }
    copies
}

// Keeps the state after a step where those before it are kept, and memory lasts.
fn keep_state(states: &mut Vec<Sha256>, at: usize, state: &Sha256)
    ensures { (bytes : List ℕ) → AreStatesOf bytes states.old.items
        → Holds256 state.now (take (32768 * (at + 1)) bytes) → AreStatesOf bytes states.new.items }
{
    if states.len() != at {
        return;
    }
    if let Ok(state) = state.clone() {
        let _ = states.push(state);
    }
}
