//! What a recovery takes, in words of what the copies hold. The function does nothing: its contract is the law.

ghost use Rattle.root_recovery.specs.Left.{RowLaw};
ghost use Rattle.root_recovery.specs.Recoveries.{recovery_at};

use guarded_cell::held_is_lawful;

/// Only a root that says nothing is recovered: the one that is taken is of the greatest generation of all that copies
/// hold, and at one generation has the lowest copy; none is taken only where no copy holds one.
pub fn recoveries_are_lawful()
    ensures { RowLaw recovery_at }
{
    held_is_lawful();
}
