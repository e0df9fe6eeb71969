//! How a read ends that did not fail.

/// What a read from some byte of a file on gave.
#[derive(Clone, Copy, Debug, PartialEq, Eq)]
pub enum Reading {
    /// That many bytes: none only at the end of the file, or where there was no room.
    Bytes(usize),
    /// That many bytes from that byte on, one at least, cannot be read, though the device answers. They count as
    /// zeros.
    Unreadable(usize),
}
