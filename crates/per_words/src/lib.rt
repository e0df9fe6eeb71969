//! One call from a shell: the lines that make it, and what a person is shown of its reply.
//!
//! A call that is made alone has its storage opened before it, and made durable after it where it changes something
//! ([`call_lines`]). Each line that is made is one of an event, whatever the words were, so that no word becomes a line
//! of its own. A manifest of many lines becomes one ([`manifest_lines`]), and a content that is too long for a line is
//! written in pieces ([`content_lines`]). [`shown_in`] says what a line of a reply is to a person, and [`shown_bytes`]
//! what is written of it: a value stands without the word before it, and bytes as they are.
//!
//! The words of a shell are told apart by [`options_in`] and [`named_words`]; [`unknown_in`] finds one that is refused,
//! and [`asks_for`] one that goes before all others. [`quoted`] is a word as a shell reads it back, and [`dir_option`]
//! the option that names a folder. [`flaw_in`] says where a text stops being a line, also within a value.
//! For a screen [`broken`] breaks a text between its words, and [`visible`] has a number in the place of each character
//! that would begin a row or move the cursor; [`are_visible`] says that there is none. At a terminal [`call_shown`] is
//! what a prompt shows, and [`rows_of`] the rows of a help of which a line asks ([`help_asked`]).
#![tactic(auto)]

mod call_text;
mod flaws;
mod kinds;
mod lines;
mod meeting;
mod needs;
mod numbers;
mod places;
mod prompting;
mod pushing;
mod putting;
mod quoting;
mod screens;
mod showing;
mod words;

pub use call_text::CallText;
pub use flaws::{Flaw, flaw_in};
pub use kinds::{CallKind, call_word, is_call, takes_manifest};
pub use lines::{call_lines, manifest_lines};
pub use needs::Needed;
pub use numbers::{ValuePlace, leading_number};
pub use prompting::{call_shown, column_after, help_asked, is_line_word, row_word, rows_of};
pub use putting::{PIECE_BYTES, content_lines};
pub use quoting::{dir_option, quoted};
pub use screens::{are_visible, broken, visible};
pub use showing::{Shown, shown_bytes, shown_in};
pub use words::{WordRole, asks_for, named_words, options_in, unknown_in};
