//! The laws: this function does nothing when it runs.

ghost use Rattle.migrate_fns.specs.Stored.{answers_of, rules_of};
ghost use Rattle.deploy_outcome_laws.specs.Calls.{DueAllocates, LookMends, MadeAgain, MadeTwice, RefusalWrote};
ghost use Rattle.deploy_outcome_laws.specs.Calls.{RefusedDone, RootFirst, RootStamped};
ghost use Rattle.deploy_outcome_laws.specs.Rows.{ActiveBankTaken, BadRootFormatted, CopyLeft, GenerationsFirst};
ghost use Rattle.deploy_outcome_laws.specs.Rows.{InitialWhereConverted};
ghost use Rattle.deploy_outcome_laws.specs.Rows.{NewContentsKept, OtherBankRead, PreviousKept, UnreadableKept};

use deploy_laws::outcomes_are_refused as stops_are_refused;
use disk_model::Disk;
use migrate_fns::Migrations;

/// What no call of a deployment leaves, each clause named by the mistake that would leave it; with any converters.
pub fn outcomes_are_refused<D: Disk>(_migrations: &Migrations)
    // By what the row of a call makes of the application.
    ensures bad_root_formatted { BadRootFormatted }
    ensures previous_version_kept_by_a_finish { PreviousKept }
    ensures new_contents_kept_by_a_rollback { NewContentsKept }
    ensures copy_of_the_root_left_by_a_wipe { CopyLeft }
    ensures update_into_the_active_bank { ActiveBankTaken }
    ensures contents_from_the_other_bank { OtherBankRead (rules_of _migrations.now) (answers_of _migrations.now) }
    ensures generations_before_the_plan { GenerationsFirst (rules_of _migrations.now) (answers_of _migrations.now) }
    ensures initial_value_where_a_converter_is_due { InitialWhereConverted (answers_of _migrations.now) }
    ensures unreadable_key_kept_by_a_recovery { UnreadableKept }

    // By what a call may change and answer, and when.
    ensures opening_stamps_the_root { RootStamped D.medium }
    ensures look_mends_the_root { LookMends D.medium }
    ensures refusal_has_written { RefusalWrote D.medium }
    ensures due_refusal_wants_memory { DueAllocates }
    ensures refused_update_answered_done { RefusedDone (rules_of _migrations.now) (answers_of _migrations.now) }
    ensures storage_made_twice { MadeTwice }
    ensures made_again_by_a_commit { MadeAgain D.medium }
    ensures root_before_its_storages { RootFirst D.medium }
{
    stops_are_refused();
}
