//! Manifests, and what is read of them.
//!
//! | row | what is printed |
//! |---|---|
//! | `rule MANIFEST` | the first violated rule, and 0 where none is |
//! | `prefixes MANIFEST` | the same of each proper prefix of the manifest, from the empty one on |
//! | `read MANIFEST` | the deployment |
//! | `copy MANIFEST` | a copy of the deployment |
//! | `storage NAME MANIFEST` | the number of the storage of this name, and the storage |
//! | `element STORAGE NAME MANIFEST` | the element of this name, and its initial content |

mod lookups;
mod rules;
mod texts;

use std::alloc::Global;
use test_rows::RowError;

/// What comes of a row that begins with this word.
pub(crate) fn shown(alloc: Global, word: &str, rest: &str) -> Result<String, RowError> {
    match word {
        "rule" => rules::rule(alloc, rest),
        "prefixes" => rules::prefixes(alloc, rest),
        "read" => lookups::read(alloc, rest),
        "copy" => lookups::copy(alloc, rest),
        "storage" => lookups::storage(alloc, rest),
        "element" => lookups::element(alloc, rest),
        _ => Err(RowError::NotARow),
    }
}
