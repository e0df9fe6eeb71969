//! The laws, for the proofs of callers: none of these functions does anything when it runs.
//!
//! `migrations` are the stored converters, of which a law takes which they are and what they may answer
//! (`converters_of`). `old`, `now` and `new` are a disk at moments one after another, of which a law takes what the
//! model knows at each (`D.medium`).

ghost use Rattle.std.specs.Prelude.{IsTrue};
ghost use Rattle.run_model.specs.AppLaws.{AppLaws};
ghost use Rattle.run_model.specs.Converters.{converters_of};
ghost use Rattle.run_model.specs.Laws.{AlikeLaw, AllOpenedLaw, AnswersLastLaw, BlamedLaw, CallFailsLaw, CallKeepsLaw};
ghost use Rattle.run_model.specs.Laws.{DoubtStaysLaw, FailedSyncKeepsLaw, FailedSyncLastsLaw, FailureKeepsLaw};
ghost use Rattle.run_model.specs.Laws.{
  FailureLastsLaw,
  IdleKeepsLaw,
  LifeLaw,
  LifeStopsLaw,
  NoneOpenedLaw,
  NotFurtherBackLaw,
  NowLastsLaw,
};
ghost use Rattle.run_model.specs.Onward.{LifeOnwardLaw, MomentOnwardLaw};
ghost use Rattle.run_model.specs.Laws.{OnTheWayLaw, OneOpenedLaw, OpensAsEitherLaw, OthersStayLaw, RootKeepsLaw};
ghost use Rattle.run_model.specs.Laws.{RootThenLaw, RunBeginsLaw, RunEndsLaw, RunGoesOnLaw, RunStopsLaw};
ghost use Rattle.run_model.specs.Laws.{SessionEndsLaw, StartStopsLaw, StorageFailureLastsLaw, StorageLaterLaw};
ghost use Rattle.run_model.specs.Laws.{SyncedKeepsLaw};

use deploy_laws::{damage_is_counted_by_pieces, others_stand, roots_stay, untouched_stands};
use deploy_rows::manifests_stay;
use disk_model::Disk;
use migrate_fns::Migrations;

/// What a run relies on of applications: one that no file of is touched, or only another's are, stands as it was; what
/// stands with nothing damaged has clean places; copies that lack a root do not matter beside two that hold it; and
/// which manifests a root keeps rests on its own application's files.
pub fn applications_stand()
    ensures { AppLaws }
{
    untouched_stands();
    others_stand();
    roots_stay();
    manifests_stay();
}

/// Where two worlds agree on an application and on the moment, each answer that a command of it can have in the one,
/// with no device failing, it can have in the other, leading the application to the same; and every other application
/// stays as it was, however a command is answered.
pub fn answers_are_alike(migrations: &Migrations)
    ensures alike { AlikeLaw (converters_of migrations.now) }
    ensures others { OthersStayLaw (converters_of migrations.now) }
{}

/// Nothing but a sync ends a doubt, and a command on a storage that failed at the device ends its session.
pub fn failures_end_sessions(migrations: &Migrations)
    ensures doubt { DoubtStaysLaw (converters_of migrations.now) }
    ensures session { SessionEndsLaw (converters_of migrations.now) }
{}

/// A command that is answered with no device failing keeps what holds of every world: what an open session has as
/// synchronised is what its storage holds, with no other text beside it, and no session is open while a root is to be
/// opened again or an update is in progress. So does setting the moment.
pub fn answers_keep_worlds(migrations: &Migrations)
    ensures now { NowLastsLaw (converters_of migrations.now) }
    ensures answered { AnswersLastLaw (converters_of migrations.now) }
{}

/// A command whose device failed keeps what holds of every world, too: in the sync that ends a doubt, in a call that
/// names no storage, and in one on a storage, whose state alone may be another than what was there before.
pub fn failures_keep_worlds(migrations: &Migrations)
    ensures sync { FailedSyncLastsLaw }
    ensures call { FailureLastsLaw (converters_of migrations.now) }
    ensures storage { StorageFailureLastsLaw (converters_of migrations.now) }
{}

/// An application of which one storage is in another state counts as later (`IsLater`): its root says the same, and it
/// has as many storages.
pub fn storages_lead_on()
    ensures { StorageLaterLaw }
{}

/// At a moment after the last command the root says what it said then, or what the command in progress leads to,
/// nothing older; and a storage whose command failed at the device opens at its view before or after it, and is not
/// emptied. Whatever damage follows, copies are counted by pieces (`onward`): of each element by its own blocks.
pub fn moments_are_bounded()
    ensures back { NotFurtherBackLaw }
    ensures either { OpensAsEitherLaw }
    ensures onward { MomentOnwardLaw }
{
    damage_is_counted_by_pieces();
}

/// How a command keeps each application at every moment: one that calls no disk, one whose sync of a doubt failed, one
/// that was answered, and one whose device failed.
pub fn a_command_keeps<D: Disk>(old: &D, new: &D)
    ensures idle { IdleKeepsLaw (D.medium new.now) }
    ensures failed_sync { FailedSyncKeepsLaw (D.medium old.now) (D.medium new.now) }
    ensures on_the_way { OnTheWayLaw (D.medium old.now) (D.medium new.now) }
    ensures answered { CallKeepsLaw (D.medium old.now) (D.medium new.now) }
    ensures failed { CallFailsLaw (D.medium old.now) (D.medium new.now) }
    ensures failure { FailureKeepsLaw (D.medium old.now) (D.medium new.now) }
{
    applications_stand();
}

/// A command before which something else is done keeps each application through both: the sync that ends a doubt, or
/// the opening of its application's root, from `old` to `now`, and then the command, from `now` to `new`.
pub fn a_command_follows<D: Disk>(old: &D, now: &D, new: &D)
    ensures synced { SyncedKeepsLaw (D.medium old.now) (D.medium now.now) (D.medium new.now) }
    ensures root { RootKeepsLaw (D.medium old.now) (D.medium now.now) (D.medium new.now) }
    ensures moments { RootThenLaw (D.medium old.now) (D.medium now.now) (D.medium new.now) }
{
    applications_stand();
}

/// The start of a run opens the eight roots, one after another, and keeps each application at every moment. From `old`
/// to `now` some are opened, and from `now` to `new` the next.
pub fn a_start_keeps<D: Disk>(old: &D, now: &D, new: &D)
    ensures none { NoneOpenedLaw (D.medium old.now) (D.medium new.now) }
    ensures one { OneOpenedLaw (D.medium old.now) (D.medium now.now) (D.medium new.now) }
    ensures all { AllOpenedLaw (D.medium old.now) (D.medium new.now) }
{
    applications_stand();
}

/// Where each reply of a run that the device failed has its cause in its own command, in which the count of faults
/// rose, so it is in the run with one such command more.
pub fn causes_add_up()
    ensures { BlamedLaw }
{}

/// A start that ended is a run without a command, and one that did not is a run that ended there.
pub fn a_run_begins<D: Disk>(migrations: &Migrations, old: &D, new: &D)
    ensures begins { RunBeginsLaw (converters_of migrations.now) (D.medium old.now)
        (D.medium new.now) }
    ensures stops { StartStopsLaw (converters_of migrations.now) (D.medium old.now)
        (D.medium new.now) }
{
    applications_stand();
}

/// A run from `old` to `now`, and then a command that is answered, from `now` to `new`, are a run of one turn more,
/// over a disk whose bytes are modelled (`D.told`).
pub fn a_run_goes_on<D: Disk>(migrations: &Migrations, old: &D, now: &D, new: &D)
    ensures { IsTrue D.told → RunGoesOnLaw (converters_of migrations.now) (D.medium old.now)
        (D.medium now.now) (D.medium new.now) }
{}

/// Whatever ends came before, each run of a life begins with clean places, and each application stands between the two
/// states of one of the pairs that its life keeps; and so it does across each power loss, also with copies counted by
/// pieces (`onward`).
pub fn a_life_goes_on<D: Disk>(migrations: &Migrations)
    ensures goes_on { LifeLaw D.medium (converters_of migrations.now) }
    ensures stops { LifeStopsLaw D.medium (converters_of migrations.now) }
    ensures onward { LifeOnwardLaw D.medium (converters_of migrations.now) }
{
    applications_stand();
    damage_is_counted_by_pieces();
}

/// Where every command of a run has ended, all holds that a run promises of the disk (`DiskSide`).
pub fn a_run_ends<D: Disk>(migrations: &Migrations, old: &D, now: &D)
    ensures { RunEndsLaw (converters_of migrations.now) (D.medium old.now) (D.medium now.now) }
{
    applications_stand();
}

/// All that a run promises of the disk holds also where the command of the next line is in progress.
pub fn a_run_stops<D: Disk>(migrations: &Migrations, old: &D, now: &D, new: &D)
    ensures { RunStopsLaw (converters_of migrations.now) (D.medium old.now) (D.medium now.now)
        (D.medium new.now) }
{
    applications_stand();
}
