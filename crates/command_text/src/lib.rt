//! The lines that a user writes, and the replies to them.
//!
//! [`parse_line`] reads one line: nothing, the end, or an [`Event`], which sets the moment or makes a [`Call`] of an
//! application. The grammar is one table in `specs/Grammar`: of each call its word and its arguments. An event has one
//! line and a line one event, and every other text is refused. [`print_reply`] gives the one text of a [`Reply`]: a
//! line for each report, and the answer's line. [`parse_line_reusing`] reads into the memory of a line before it.
//!
//! [`generated_line`] and [`next_number`] make a large input from a number, between [`first_lines`] and [`last_lines`].
#![tactic(auto)]

mod arguments;
mod asked;
mod calls;
mod errors;
mod generated;
mod laws;
mod lines;
mod parsing;
mod printing;
mod replies;
mod words;

pub use asked::AskedType;
pub use calls::{Call, Event};
pub use errors::LineError;
pub use generated::{first_lines, generated_line, last_lines, next_number};
pub use laws::{errors_have_texts, generated_is_spelled, one_event, one_line};
pub use lines::{LINE_BYTES, Line, parse_line, parse_line_reusing};
pub use printing::{print_reply, push_copies, push_reply, push_unit};
pub use replies::{Answer, AppStatus, Reply};
