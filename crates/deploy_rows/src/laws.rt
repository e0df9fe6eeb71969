//! The laws of the rows, for the proofs of callers: none of these functions does anything when it runs.

ghost use Rattle.std.specs.Prelude.{ℕ, List, Option};
ghost use Rattle.deploy_rows.specs.Laws.{FinishLaterLaw, InstallLaterLaw, ManifestsFrameLaw, NoManifestsLaw};
ghost use Rattle.deploy_rows.specs.Laws.{RefusesAlike, RejectedLaw, ReopenedLaterLaw, RollbackLaterLaw};
ghost use Rattle.deploy_rows.specs.Laws.{SaysAlike, UpdateLaterLaw, WipeLaterLaw};
ghost use Rattle.deploy_rows.specs.Rows.{finishing, installing, offered, rolling_back, wiping};

use deploy_laws::files_lie_apart;
use guarded_cell::held_is_lawful;

/// What a call that is not refused makes of an application comes later than what was: its root has a greater
/// generation, or says the same of as many storages.
pub fn rows_lead_on()
    ensures install { InstallLaterLaw }
    ensures finish { FinishLaterLaw }
    ensures rollback { RollbackLaterLaw }
    ensures wipe { WipeLaterLaw }
    ensures update { UpdateLaterLaw }
    ensures open { ReopenedLaterLaw }
{}

/// A manifest that is rejected violates a rule, and is rejected with the first one that it violates.
pub fn manifests_are_judged()
    ensures { RejectedLaw }
{}

/// The manifests that the root of an application keeps depend on the files of that application alone, and a root that
/// says that nothing is installed keeps none.
pub fn manifests_stay()
    ensures frame { ManifestsFrameLaw }
    ensures absent { NoManifestsLaw }
{
    files_lie_apart();
    held_is_lawful();
}

/// Whether a call is refused, and what the next root says, depends on what the root says alone, which is known in
/// memory. `busy` is the name of an open storage, if one is open, `text` a manifest, and `now` a moment in seconds.
pub fn rows_read_the_root()
    ensures install { (now : ℕ) (text : List ℕ) → RefusesAlike (installing now text) }
    ensures finish { RefusesAlike finishing }
    ensures rollback { (busy : Option (List ℕ)) → RefusesAlike (rolling_back busy) }
    ensures wipe { (busy : Option (List ℕ)) → RefusesAlike (wiping busy) }
    ensures offer { (busy : Option (List ℕ)) (text : List ℕ) → RefusesAlike (offered busy text) }
    ensures installed { (now : ℕ) (text : List ℕ) → SaysAlike (installing now text) }
    ensures finished { SaysAlike finishing }
    ensures rolled_back { (busy : Option (List ℕ)) → SaysAlike (rolling_back busy) }
    ensures wiped { (busy : Option (List ℕ)) → SaysAlike (wiping busy) }
{}
