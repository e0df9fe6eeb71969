//! The laws that every call on a storage relies on, in one: the function does nothing when it runs.

ghost use Rattle.per_runtime.specs.storages.StorageLaws.{StorageLaws};

use deploy::{in_use_stays, roots_in_use};
use deploy_laws::{files_lie_apart, others_stand, roots_say, storing_stands, untouched_stands};
use element_store::use_stays;

// A storage's files are apart from all others: what changes them alone changes that storage alone, also at every
// moment.
pub(crate) fn storages_stand()
    ensures { StorageLaws }
{
    roots_in_use();
    in_use_stays();
    roots_say();
    files_lie_apart();
    others_stand();
    untouched_stands();
    storing_stands();
    use_stays();
}
