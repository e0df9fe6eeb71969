//! Laws, for the proofs of callers: none of these functions does anything when it runs.

ghost use Rattle.per_backup.specs.Laws.{AgainLaw, ExportNumbersLaw, ExportedLaw, ImportNumbersLaw, ImportsLaw};
ghost use Rattle.per_backup.specs.Laws.{RestoreNumbersLaw, RestoredLaw};
ghost use Rattle.per_backup.specs.StorageLaws.{BackupLaws};

use deploy_laws::{
    files_lie_apart, others_stand, roots_say, roots_stay, storing_stands, untouched_stands,
};
use deployment_model::names_are_apart;
use element_laws::untouched_is_kept;
use export_text::export_is_exact;
use manifest::said_is_kept;

/// An import makes exactly what its text spells. What was exported can be imported, but for types that differ, room and
/// generations. And what was imported is exported again as the same text, and what was restored as the same texts.
pub fn exports_come_back()
    ensures imports { ImportsLaw }
    ensures exported { ExportedLaw }
    ensures again { AgainLaw }
    ensures restored { RestoredLaw }
{
    export_is_exact();
    names_are_apart();
    said_is_kept();
}

/// Every refusal of an export, of an import and of a restore has an error number (`error_number` of `per_base`, which
/// only `OutOfMemory` lacks), and so a line of text that says it.
pub fn refusals_are_numbered()
    ensures exports { ExportNumbersLaw }
    ensures imports { ImportNumbersLaw }
    ensures restores { RestoreNumbersLaw }
{}

/// A storage's files are apart from all others: what changes them alone changes that storage alone, also at every
/// moment.
pub(crate) fn storages_stand()
    ensures { BackupLaws }
{
    roots_say();
    files_lie_apart();
    others_stand();
    untouched_is_kept();
    untouched_stands();
    storing_stands();
    roots_stay();
}
