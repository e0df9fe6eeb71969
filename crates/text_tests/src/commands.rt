//! Lines and replies of the whole engine, both ways.
//!
//! | row | what is printed |
//! |---|---|
//! | `line LINE` | what the line says, in all its parts |
//! | `kind LINE` | whether it says an event, nothing or the end, or is refused |
//! | `reply REPLY` | the text of the reply |
//! | `next X` | the number after a number |
//! | `generated N X I` | a line of the generated input |
//! | `first-lines`, `last-lines` | the lines before the generated ones and after them |

mod errors;
mod generated;
mod lines;
mod replies;
mod words;

use std::alloc::Global;
use test_rows::RowError;

/// What comes of a row that begins with this word.
pub(crate) fn shown(alloc: Global, word: &str, rest: &str) -> Result<String, RowError> {
    match word {
        "line" => lines::parts(alloc, rest),
        "kind" => lines::kind(alloc, rest),
        "reply" => replies::text(alloc, rest),
        "next" => generated::next(alloc, rest),
        "generated" => generated::line(alloc, rest),
        "first-lines" => generated::first(alloc),
        "last-lines" => generated::last(alloc),
        _ => Err(RowError::NotARow),
    }
}
