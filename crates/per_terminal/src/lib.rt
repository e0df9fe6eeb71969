//! What a person is told: on a screen, at a prompt, by the help, and why a run ended.
//!
//! What is said on standard error is said in lines ([`say`]), which are broken between their words where a screen shows
//! them ([`Screen`]), and no character of which begins a row or moves the cursor. [`Asking`] is an input that asks a
//! person for each line, and again for one that is outside the grammar. [`show_help`] writes the help. [`say_end`] says
//! why a run ended, and [`wrong_word`] what is wrong with a word among its arguments.
//!
//! What is written goes to the standard streams, whose bytes no clause can name: the lines are tested. The clauses
//! speak of the texts that are made for them, and of statuses.
#![tactic(auto)]

mod arguments;
mod asking;
mod causes;
mod folders;
mod help;
mod saying;
mod statuses;

pub use arguments::{dashed_folder, say_unread, words_of, wrong_word};
pub use asking::Asking;
pub use causes::{Ended, Fault, say_answered, say_end, say_foreign, say_of_folder};
pub use folders::{has_folder, typed, typed_option};
pub use help::{show_help, show_version};
pub use saying::{Screen, no_memory, say, say_awaited, say_command, say_stream};
pub use statuses::{
    NO_DISK, NO_INPUT, NO_MEMORY, NO_OUTPUT, NO_WORDS, REFUSED_CALL, REFUSED_WORDS, UNUSABLE,
    WRONG_SIZE,
};
