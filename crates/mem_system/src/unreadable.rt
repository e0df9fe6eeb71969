//! Places that a device cannot read, until they are written.

ghost use Rattle.std.specs.Prelude.{◌≡◌, ◌<◌, ◌≤◌, ◌+◌, ℕ, slice_index};

/// A stretch of a file: `len` bytes of the file of this number, from the byte `at` on.
#[derive(Clone, Copy, Debug, PartialEq, Eq)]
pub struct Stretch {
    pub file: u32,
    pub at: u64,
    pub len: u64,
}

impl Stretch {
    /// The byte after the last one.
    fn end(self) -> u64 {
        self.at.saturating_add(self.len)
    }

    /// Whether both have a byte in common.
    pub(crate) fn meets(self, other: Stretch) -> bool {
        self.file == other.file && self.at < other.end() && other.at < self.end()
    }
}

/// How many bytes from `at` on cannot be read, one after the other.
pub(crate) fn unreadable_from(unreadable: &[Stretch], file: u32, at: u64) -> u64 {
    let mut count = 0u64;
    for stretch in unreadable {
        if stretch.file == file && stretch.at <= at {
            count = count.max(stretch.end().saturating_sub(at));
        }
    }
    count
}

/// How many bytes from `at` on are before the next that cannot be read.
pub(crate) fn readable_from(unreadable: &[Stretch], file: u32, at: u64) -> u64
    ensures { 0 < result }
{
    let mut count = u64::MAX;
    for stretch in unreadable {
        if stretch.file == file && stretch.at > at {
            count = count.min(stretch.at - at);
        }
    }
    count
}

/// How many zeros stand from `at` on, and at most `len`.
pub(crate) fn zeros_from(bytes: &[u8], at: u64, len: u64) -> u64
    ensures { (j : ℕ) → j < result → slice_index bytes.now (at + j) ≡ 0 }
{
    if at >= bytes.len() as u64 {
        return 0;
    }
    let rest = &bytes[at as usize..];
    let most = rest.len().min(len as usize);
    for i in 0..most {
        if rest[i] != 0 {
            return i as u64;
        }
    }
    most as u64
}
