//! The laws, for the proofs of callers: none of these functions does anything when it runs.

ghost use Rattle.kvs_laws.specs.Laws.{ReadsLaw, SetLaw, StillLaw, SyncLaw};

use element_laws::untouched_is_kept;
use element_maps::{syncs_are_decided, views_are_maps};
use value_code::decoded_is_exact;

/// A value that was set is what `get` answers, asked for by its type.
pub fn set_is_got()
    // In whatever map of keys it was set.
    ensures { SetLaw }
{
    decoded_is_exact();
}

/// What an open storage shows as synchronised is what its disk denotes. A stop at any moment of a sync, and then damage
/// that spares as many copies as must agree, leaves each value as before or as after; while no call is on the disk a
/// stop leaves it so too.
pub fn values_stand()
    // A key that has a value in an open storage has it on the disk.
    ensures reads { ReadsLaw }
    // A stop in a sync leaves the value that was synchronised, or the one that the calls see.
    ensures sync { SyncLaw }
    // A stop while no call is under way and nothing is pending leaves the value that is synchronised, or the next one.
    ensures still { StillLaw }
{
    syncs_are_decided();
    views_are_maps();
    untouched_is_kept();
}
