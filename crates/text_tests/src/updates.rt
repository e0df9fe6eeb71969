//! Updates as a whole, and the converters that they use.
//!
//! | row | what is printed |
//! |---|---|
//! | `plan CONVERTERS\|OLD\|DAMAGE\|NEW` | the plan of an update at the moment 50, where the manifest OLD was installed at 1 and then damaged, or the refusal |
//! | `nothing NEW` | the plan of an update where nothing is stored |
//! | `start CAUSE\|NEW` | what the storages start with |
//! | `find CONVERTERS\|ELEMENT\|VALUE\|TYPE` | what the first converter makes of the value |
//! | `chain CONVERTERS\|ELEMENT\|VALUE\|TYPE` | the places of the chain, and what it makes of the value |
//!
//! A converter is two types, as `u8>u16`, or the name of its element before them, as `k:u8>u16`; they have a space
//! between them. Damage is nothing, or `unreadable` or `shortened` and the name of a storage or an element.

mod chains;
mod converters;
mod installed;
mod plans;
mod texts;
mod with_converters;

use std::alloc::Global;
use test_rows::{RowError, spelled};

/// What comes of a row that begins with this word.
pub(crate) fn shown(alloc: Global, word: &str, rest: &str) -> Result<String, RowError> {
    let rest = spelled(alloc, rest)?;
    let rest = rest.as_str();
    match word {
        "plan" | "find" | "chain" => with_converters::shown(alloc, word, rest),
        "nothing" => plans::nothing_stored(alloc, rest),
        "start" => plans::start(alloc, rest),
        _ => Err(RowError::NotARow),
    }
}
