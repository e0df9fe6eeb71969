//! What replies come to, counted.

ghost use Rattle.std.specs.Prelude.{◌≡◌, ◌<◌, ◌++◌, ◌^◌, List, [], ◌∷◌, IfOk, length, string_bytes};
ghost use Rattle.command_text.specs.declared.replies.Reply.{Reply};
ghost use Rattle.command_text.specs.Replies.{number_or_dash};
ghost use Rattle.per_run.specs.Jobs.{done_in, error_in, number_in, summary_text};
ghost use Rattle.per_run.specs.Steps.{Tallies};

use command_text::{Answer, Reply};
use std::alloc::{AllocError, Global};

/// How many replies were of each sort, and the first number that one gave.
#[derive(Clone, Copy, Debug, PartialEq, Eq)]
pub struct Tally {
    pub done: u64,
    pub other: u64,
    pub errors: u64,
    pub size: Option<u64>,
}

impl Tally {
    /// A tally in which no reply is counted yet.
    pub fn new() -> Tally
        ensures { Tallies [] result }
    {
        Tally {
            done: 0,
            other: 0,
            errors: 0,
            size: None,
        }
    }

    /// Counts one reply more.
    pub fn count(&mut self, reply: &Reply)
        // Where these replies were counted before, they are counted with this one after them; below 2 ^ 32 of them no
        // count is at its end.
        ensures { (replies : List Reply) → length replies < 2 ^ 32 → Tallies replies self.old
            → Tallies (replies ++ reply.now ∷ []) self.new }
    {
        let answer = &reply.answer;
        self.size = self.size.or(number_in(answer));
        if is_done(answer) {
            self.done = self.done.saturating_add(1);
        } else if is_error(answer) {
            self.errors = self.errors.saturating_add(1);
        } else {
            self.other = self.other.saturating_add(1);
        }
    }

    /// The summary of the replies that were counted, to this many lines, as a text.
    pub fn summary(&self, alloc: Global, lines: u64) -> Result<String, AllocError>
        ensures { IfOk result (λ text. string_bytes text ≡ summary_text lines self.now.done self.now.other
            self.now.errors self.now.size) }
    {
        let size = print_size(alloc, self.size)?;
        let done = self.done;
        let other = self.other;
        let errors = self.errors;
        format!(in alloc; "lines {lines} ok {done} other {other} errors {errors} size {size}\n")
    }
}

/// The text of the size; a dash where no reply gave one.
fn print_size(alloc: Global, size: Option<u64>) -> Result<String, AllocError>
    ensures { IfOk result (λ text. string_bytes text ≡ number_or_dash size) }
{
    match size {
        Some(number) => format!(in alloc; "{number}"),
        None => String::from_str(alloc, "-"),
    }
}

fn is_done(answer: &Answer) -> bool
    ensures { result ≡ done_in answer.now }
{
    match answer {
        Answer::Done => true,
        _ => false,
    }
}

fn is_error(answer: &Answer) -> bool
    ensures { result ≡ error_in answer.now }
{
    match answer {
        Answer::Error(_) => true,
        _ => false,
    }
}

fn number_in(answer: &Answer) -> Option<u64>
    ensures { result ≡ number_in answer.now }
{
    match answer {
        Answer::Number(number) => Some(*number),
        _ => None,
    }
}
