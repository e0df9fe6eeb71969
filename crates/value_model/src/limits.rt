//! The limits of values, and sums of lengths that stop just above the greatest.

ghost use Rattle.std.specs.Prelude.{◌≡◌, ◌+◌, ◌≤◌, min};
ghost use Rattle.value_model.specs.Kinds.{is_group};

/// The greatest number of members of a group of fields; the least is 1.
pub const MAX_MEMBERS: usize = 32;

/// The greatest depth of a value's type. A scalar has depth 1; a list or a group has one more than its deepest part.
pub const MAX_DEPTH: u32 = 8;

/// The greatest number of bytes of a value's encoding.
pub const MAX_LENGTH: usize = 65_536;

/// A depth that denotes every depth above the limit.
pub(crate) const OVER_DEPTH: u32 = MAX_DEPTH + 1;

/// A length that denotes every length above the limit.
pub(crate) const OVER_LENGTH: usize = MAX_LENGTH + 1;

/// Whether a group of fields may have this many members.
pub(crate) fn is_group_size(count: usize) -> bool
    ensures { result ≡ is_group count }
{
    1 <= count && count <= MAX_MEMBERS
}

/// The sum of two lengths, or the first length above the limit.
pub(crate) fn add_lengths(a: usize, b: usize) -> usize
    requires left { a ≤ 65537 }
    requires right { b ≤ 65537 }
    ensures { result ≡ min (a + b) 65537 }
{
    (a + b).min(OVER_LENGTH)
}
