//! The line of a refused call.

ghost use Rattle.std.specs.Prelude.{◌≡◌, ◌⊎◌, IsSome};
ghost use Rattle.per_base.specs.Causes.{Rose};
ghost use Rattle.per_base.specs.Errors.{error_number};
ghost use Rattle.per_run.specs.Jobs.{WritesOutput, error_line};

use crate::endings::CALL_REFUSED;
use crate::writing::write_made_output;
use command_text::{Answer, Reply, print_reply};
use per_base::{PerError, Sequence, Sink};
use std::alloc::Global;

/// Writes the line of an error, and gives the status of a refused call where the sink took all.
pub fn write_refusal<K: Sink>(alloc: Global, sink: &mut K, error: PerError) -> u8
    requires { IsSome (error_number error) }
    // The sink took the line, by the status: 9 for all of it, 6 only where the sink failed, 4 where memory ran out.
    ensures output { WritesOutput result (K.written sink.old) (K.written sink.new) (error_line error) }
    ensures status { (result ≡ 9) ⊎ ((result ≡ 4) ⊎ ((result ≡ 6) × Rose (K.faults sink.old) (K.faults sink.new))) }
{
    let reply = Reply {
        reports: Sequence::new(Vec::new(alloc)),
        answer: Answer::Error(error),
    };
    write_made_output(sink, print_reply(alloc, &reply), CALL_REFUSED)
}
