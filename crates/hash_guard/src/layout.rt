//! The sizes and places of a sealed text, in bytes.

/// How many bytes are before the body: 32 of the hash, 8 of the generation and 4 of the body's length.
pub const HEADER: usize = 44;

/// The greatest length of a body in bytes, so that a sealed text has at most 512 KiB (524,288 bytes).
pub const MAX_BODY: usize = 524_244;

/// The zeros that, written at the start of a slot, blank it: its generation is then 0, which never verifies.
pub const BLANK: [u8; HEADER] = [0; HEADER];

/// How many bytes the hash has, with which a sealed text begins.
pub(crate) const HASH: usize = 32;

/// The place of the body's length in a sealed text.
pub(crate) const LENGTH_AT: usize = 40;
