//! One call from a shell over standard streams: what it takes, the lines that a run handles for it, and its replies.
//!
//! It is made by the lines of [`per_words`], which a run of the program handles, one after another. [`accepted_in`] says
//! what its words say, and [`lines_of_call`] makes its lines, with what it takes of a file or of standard input.
//! [`LineByLine`] gives them to a run, and after the first that is refused no other, so that nothing is made durable
//! then. [`Answers`] takes the replies: what one says is written as a person or a script wants it, the text of a value
//! alone, the bytes of a file as they are, an error on standard error. [`say_unmade`] says why no call was made.
#![tactic(auto)]

mod accepting;
mod answers;
mod refusals;
mod taking;
mod unmade;

pub use accepting::{Accepted, accepted_in, is_installation};
pub use answers::{Answers, LineByLine, Refusal};
pub use taking::lines_of_call;
pub use unmade::{Unmade, say_unmade};
