//! Replies without reports.

ghost use Rattle.std.specs.Prelude.{◌≡◌, []};
ghost use Rattle.per_runtime.specs.storages.Durables.{RepliesDone};

use command_text::{Answer, Reply};
use per_base::{PerError, Sequence};
use std::alloc::Global;

/// An answer without a report. Does not allocate.
pub(crate) fn answered(alloc: Global, answer: Answer) -> Reply
    ensures { result ≡ record { reports = []; answer = answer } }
{
    Reply {
        reports: Sequence::new(Vec::new(alloc)),
        answer,
    }
}

/// The call is refused. Does not allocate.
#[cold]
#[inline(never)]
pub(crate) fn refusal(alloc: Global, error: PerError) -> Reply
    ensures { result ≡ record { reports = []; answer = Answer.Error error } }
{
    answered(alloc, Answer::Error(error))
}

/// Nothing is to be said of a call but that it is done, or that it is refused.
pub(crate) fn done_or(alloc: Global, refused: Option<PerError>) -> Reply
    ensures { RepliesDone result refused }
{
    match refused {
        None => answered(alloc, Answer::Done),
        Some(error) => refusal(alloc, error),
    }
}
