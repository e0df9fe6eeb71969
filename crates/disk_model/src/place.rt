//! A place: the numbers of the files that hold the copies of one thing.

ghost use Rattle.std.specs.Prelude.{◌+◌, ◌*◌, ◌≤◌};

/// The files of one thing that is kept in copies. Copy c, counted from 0, has four numbers from `first + 4 * c` on: the
/// slot for texts of even generation, the slot for those of odd generation, the area, which keeps contents in blocks of
/// 256 bytes, and one that is not used. The generation of a text is the number of its version.
#[derive(Clone, Copy, Debug, PartialEq, Eq)]
pub struct Place {
    /// The number of the first file of the first copy.
    pub first: u32,
    /// How many copies there are.
    pub copies: u32,
    // There are 1 to 8 copies, and the numbers of all their files are below the greatest `u32`.
    pub ghost some: { 1 ≤ copies },
    pub ghost few: { copies ≤ 8 },
    pub ghost room: { first + 4 * copies ≤ 4294967295 },
}
