//! The laws: neither of these functions does anything when it runs.

ghost use Rattle.store_outcome_laws.specs.Files.{HandleLeft, WriterBesideReader};
ghost use Rattle.store_outcome_laws.specs.Stores.{BlankedFirst, ContentsNotDurable, CopyLacks, EqualBlocksWritten};
ghost use Rattle.store_outcome_laws.specs.Stores.{FailureAsNoMemory, FewCopies, StandingOverwritten, TextsNotGivenUp};
ghost use Rattle.store_outcome_laws.specs.Stores.{UnchangedWritten};

use disk_model::Disk;
use element_laws::outcomes_are_refused as stops_are_refused;

/// What no call on a storage leaves, each clause named by the mistake that would leave it. Each says that what the
/// contract of the call promises and that outcome contradict one another.
pub fn outcomes_are_refused<D: Disk>()
    // A commit that writes what did not change; and a failed write that is answered as `OutOfMemory`.
    ensures equal_blocks_written { EqualBlocksWritten }
    ensures unchanged_content_written { UnchangedWritten }
    ensures failed_write_as_out_of_memory { FailureAsNoMemory }

    // A commit that writes only as many copies as must agree, and an opening that leaves a readable element lacking.
    ensures copy_without_the_index { FewCopies }
    ensures copy_without_a_content { CopyLacks }

    // What a stop would leave of a commit or a rebuild that writes in the wrong order or in the wrong blocks.
    ensures contents_not_durable { ContentsNotDurable D.medium }
    ensures blocks_that_stand_overwritten { StandingOverwritten D.medium }
    ensures blanked_before_a_rebuild { BlankedFirst D.medium }
    // A creation that writes contents while an old index may name their blocks.
    ensures texts_not_given_up_first { TextsNotGivenUp }
{
    stops_are_refused();
}

/// What no call on open files leaves, each clause named by the mistake that would leave it.
pub fn sessions_are_refused()
    // A file that has a handle is opened for writing.
    ensures writer_beside_a_reader { WriterBesideReader }
    // The drop of a scoped handle leaves all handles as they were.
    ensures handle_left_by_its_drop { HandleLeft }
{}
