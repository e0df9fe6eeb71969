//! Values: their texts and encodings both ways, which nodes are values, and Rust types as values.
//!
//! | row | what is printed |
//! |---|---|
//! | `value TEXT` | the node, the encoding and the text of the value that the text spells |
//! | `bytes HEX` | the same of the value that the bytes encode |
//! | `type TEXT` | the type that the text spells, and its text |
//! | `node WORD N` | whether the node is a value, or why not |
//! | `parts TEXT` | what a value says of its type and its node |
//! | `thing TYPE TEXT` | the type, the value and the returned things of a thing of a Rust type |
//! | `long TEXT` | whether a thing that is a text is a value, or why not |

mod nodes;
mod texts;
mod things;

use std::alloc::Global;
use test_rows::RowError;

/// What comes of a row that begins with this word.
pub(crate) fn shown(alloc: Global, word: &str, rest: &str) -> Result<String, RowError> {
    match word {
        "value" => texts::value(alloc, rest),
        "bytes" => texts::bytes(alloc, rest),
        "type" => texts::value_type(alloc, rest),
        "node" => nodes::node(alloc, rest),
        "parts" => nodes::parts(alloc, rest),
        "thing" => things::thing(alloc, rest),
        "long" => things::long(alloc, rest),
        _ => Err(RowError::NotARow),
    }
}
