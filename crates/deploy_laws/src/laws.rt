//! The laws, for the proofs of callers: none of these functions does anything when it runs.
//!
//! `app` is the number of an application, below 8, and a bank is 0 or 1. An image has the bytes of each file, by its
//! number. `damaged` lists the numbers of files that damage may change after a stop.

ghost use Rattle.std.specs.Prelude.{◌≡◌, ◌<◌, ◌≤◌, ℕ, List, Some, slice_get};
ghost use Rattle.disk_model.specs.Frame.{Spares};
ghost use Rattle.disk_model.specs.Image.{Image};
ghost use Rattle.element_state.specs.declared.shapes.Shape.{Shape};
ghost use Rattle.element_state.specs.Kept.{Kept};
ghost use Rattle.element_state.specs.States.{State, store_at};
ghost use Rattle.deploy_laws.specs.Places.{IsOutsideBank};
ghost use Rattle.deploy_laws.specs.Apps.{App, IsCleanApp, IsFree, app_at, nothing, says_at, shapes_named};
ghost use Rattle.deploy_laws.specs.Stands.{Stands, HasEnoughRoot};
ghost use Rattle.deploy_laws.specs.Laws.{VersionsLaw, SaysFrameLaw, AloneFrameLaw, NumberLaw, AloneLaw, AloneCleanLaw};
ghost use Rattle.deploy_laws.specs.Laws.{RootFilesLaw, RootSlotsLaw, StorageFilesLaw, BesideLaw, ApartLaw};
ghost use Rattle.deploy_laws.specs.Laws.{RootAloneLaw, AppFrameLaw, StoredLaw, OtherApplicationsLaw, OthersCaseLaw};
ghost use Rattle.deploy_laws.specs.Laws.{CoveredLaw};
ghost use Rattle.deploy_laws.specs.Laws.{RootStandsLaw, StandsCleanLaw, RootMendLaw, UntouchedAppLaw, StillAppLaw};
ghost use Rattle.deploy_laws.specs.Laws.{OpeningLaw, FormattingLaw, CreatingLaw, WritingLaw, StoringLaw};
ghost use Rattle.deploy_laws.specs.Onward.{OnwardAppLaw};
ghost use Rattle.deploy_laws.specs.Refused.{OldVersionLost, OtherRoot, RootRaised, RootTooEarly, StorageStrays};

use element_laws::{copies_are_counted_by_pieces, places_stand_apart, untouched_is_kept};
use guarded_cell::held_is_lawful;
use manifest::said_is_kept;
use root_text::one_root;

/// What a root says, on every image: versions, each in bank 0 or 1 and by the rules of deployments, decided by files
/// of the root alone. Where each copy holds one text and no other, the application is what that says, and its places
/// are clean where those of its storages are.
pub fn roots_say()
    ensures versions { VersionsLaw }
    ensures says { SaysFrameLaw }
    // A storage's number is its place in its version's list.
    ensures numbers { NumberLaw }
    // Of a text that is held alone, by each copy and with no other beside it.
    ensures alone { AloneLaw }
    ensures held { AloneFrameLaw }
    ensures clean { AloneCleanLaw }
{
    said_is_kept();
    one_root();
    held_is_lawful();
}

/// The files of a root, of the storages in both banks, and of other applications are apart, and hold all slots and
/// areas.
pub fn files_lie_apart()
    ensures root { RootFilesLaw }
    ensures storage { StorageFilesLaw }
    ensures apart { ApartLaw }
    ensures slots { RootSlotsLaw }
    ensures beside { BesideLaw }
{}

/// What leaves the files of an application alone leaves the application as it was, and so does what writes in a bank in
/// which no version is. What writes the files of one storage changes the state of that storage alone, and what writes
/// those of the root that of none.
pub fn others_stand()
    ensures frame { AppFrameLaw }
    // Where only files of a free bank change, the application stays as it was, and its places stay clean.
    ensures free_bank { (app bank : ℕ) (old new : Image) → app < 8 → bank ≤ 1 → IsFree bank (says_at old app)
        → Spares (IsOutsideBank app bank) old new
        → (app_at new app ≡ app_at old app) × (IsCleanApp app old → IsCleanApp app new) }
    ensures stored { StoredLaw }
    ensures root { RootAloneLaw }
    ensures others { OtherApplicationsLaw }
    ensures cases { OthersCaseLaw }
{
    said_is_kept();
    one_root();
    held_is_lawful();
    places_stand_apart();
}

/// The assumptions on hash collisions and damage cover every storage that a root names afterwards. Where nothing is
/// damaged, a root that says something has its two copies, and a stop leaves clean places; what stands of a root that
/// no copy lacks stands where copies lack it, too.
pub fn roots_stay()
    ensures covered { CoveredLaw }
    ensures root { RootStandsLaw }
    ensures clean { StandsCleanLaw }
    ensures mended { RootMendLaw }
{}

/// A stop leaves an application of which no file is touched as it was, whatever later state it was to come to.
pub fn untouched_stands()
    ensures untouched { UntouchedAppLaw }
    ensures still { StillAppLaw }
{
    said_is_kept();
    one_root();
    untouched_is_kept();
}

/// A stop while the root is brought to every copy, while a bad root is formatted, while storages are made in a bank in
/// which no version is, and while the root is written, leaves the application as before or as after.
pub fn deploying_stands()
    ensures opening { OpeningLaw }
    ensures formatting { FormattingLaw }
    ensures creating { CreatingLaw }
    ensures writing { WritingLaw }
{
    said_is_kept();
    one_root();
    untouched_is_kept();
}

/// A stop while one storage of the active version changes its state leaves the application as before or as after that.
pub fn storing_stands()
    ensures { StoringLaw }
{
    said_is_kept();
    one_root();
    untouched_is_kept();
}

/// Of what a stop leaves of an application, damage leaves each storage and each of its elements while enough copies are
/// undamaged, counted by pieces: of an element by its own blocks, and of the index apart.
pub fn damage_is_counted_by_pieces()
    ensures { OnwardAppLaw }
{
    said_is_kept();
    one_root();
    copies_are_counted_by_pieces();
}

/// What a stop and damage may not leave: no root, or another one, where damage spares two copies that held it; what no
/// call gave, said by a root that was bad; an old version whose bank was touched; a root that says a version before its
/// storages are made; a storage in a state that is neither before nor after.
pub fn outcomes_are_refused()
    // `image` is what a stop on the way from `before` to `after`, and then damage, would have left; `Stands` is false
    // of it. First: a root that two spared copies held is gone.
    ensures root_gone { (app : ℕ) (image : Image) (damaged : List ℕ) (before after : App)
        → ¬ (before.says ≡ nothing) → ¬ (after.says ≡ nothing)
        → HasEnoughRoot app damaged before.lacking
        → says_at image app ≡ nothing → ¬ (Stands app image damaged before after) }
    // It became another root than the next; and a root that was bad says what no call gave it.
    ensures other_root { OtherRoot }
    ensures root_raised { RootRaised }

    // The root is as before, and the storage of this number, in the old version, is not as it was.
    ensures old_bank_touched { (app number : ℕ) (image : Image) (damaged : List ℕ) (before after : App) (shape : Shape)
        (state : State)
        → slice_get (shapes_named app before.says) number ≡ Some shape → slice_get before.states number ≡ Some state
        → ¬ (Kept shape damaged (store_at image shape) state state)
        → says_at image app ≡ before.says → ¬ (after.says ≡ before.says) → ¬ (Stands app image damaged before after) }
    // With nothing damaged, a storage of the old version that opened is corrupt.
    ensures old_version_lost { OldVersionLost }
    // The root says the next version, and a storage of that is not as it was made.
    ensures root_too_early { RootTooEarly }
    // The root stayed, and a storage is neither as before nor as after.
    ensures storage_strays { StorageStrays }
{}
