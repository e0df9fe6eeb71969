//! The laws of roots in use, for the proofs of callers: none of these functions does anything when it runs.

ghost use Rattle.deploy.specs.Laws.{ManifestsLaw, RootFrameLaw, RootInUseLaw, RootLenLaw, StagedFrameLaw};

use deploy_laws::{files_lie_apart, roots_say};
use element_laws::places_stand_apart;
use guarded_cell::held_is_lawful;
use root_text::one_root;

/// What an image says of an application whose root is in use is what the root says, with the states of the storages
/// that it names, and the manifests that it keeps are those of its versions. How long the text of a root is follows
/// from its manifests.
pub fn roots_in_use()
    ensures app { RootInUseLaw }
    ensures manifests { ManifestsLaw }
    ensures len { RootLenLaw }
{
    one_root();
    roots_say();
    held_is_lawful();
}

/// A root stays in use while none of its files changes, and an update in progress while none of the files of its
/// application does.
pub fn in_use_stays()
    ensures root { RootFrameLaw }
    ensures staged { StagedFrameLaw }
{
    files_lie_apart();
    places_stand_apart();
    roots_say();
}
