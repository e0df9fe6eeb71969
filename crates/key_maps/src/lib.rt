//! The two maps of a session of keys: what is synchronised, and what calls see.
//!
//! A [`KeyMaps`] keeps both in one ordered map of key states, so that a look-up and a change take logarithmic time, and
//! so that discarding all pending changes, removing all keys and marking all as synchronised do not allocate. The
//! number and the size of the visible keys are kept, never recounted.
//!
//! A map holds encodings ([`StoredValue`]), since the tree of a value takes many times the memory of its bytes: a value
//! is decoded where it is asked for, and encoded once, when it is put. What comes from the disk is judged: bytes that
//! encode no value are unreadable, and no salvage. What a sync writes ([`KeyMaps::changes`]) is exactly what differs
//! between the maps.
#![tactic(auto)]

mod extents;
mod key_elements;
mod key_states;
mod maps;
mod opening;
mod stored;
mod type_codes;

pub use key_elements::{KeyContent, KeyElement};
pub use maps::{KEYS, KeyMaps, STORAGE_BYTES};
pub use stored::StoredValue;
