//! Which calls to come are to fail.

/// What the calls meet. They are counted from 0 from the moment on at which it was set; closing, announcing and
/// settling do not count.
#[derive(Clone, Copy, Debug, PartialEq, Eq)]
pub enum Trouble {
    /// No call fails.
    Nothing,
    /// The call of this number fails. Where it syncs a file, what was to be written is dropped.
    Call(u64),
    /// The sync of this number fails, of a file or of the folder, and what it was to write is dropped.
    Sync(u64),
    /// The process ends before the call of this number: this one and all later ones fail and change nothing.
    Kill(u64),
}

/// What one call meets.
#[derive(Clone, Copy, Debug, PartialEq, Eq)]
pub(crate) enum Course {
    Passes,
    Fails,
    /// The process has ended.
    IsOver,
}

/// A trouble, and how many calls were made since it was set.
#[derive(Clone, Copy, Debug)]
pub struct Calls {
    trouble: Trouble,
    calls: u64,
    syncs: u64,
}

impl Calls {
    /// No call yet, and this trouble to come.
    pub(crate) fn new(trouble: Trouble) -> Calls {
        Calls {
            trouble,
            calls: 0,
            syncs: 0,
        }
    }

    /// How many calls were made.
    pub(crate) fn calls(&self) -> u64 {
        self.calls
    }

    /// How many of them were syncs.
    pub(crate) fn syncs(&self) -> u64 {
        self.syncs
    }

    /// Whether the process has ended.
    pub(crate) fn is_over(&self) -> bool {
        match self.trouble {
            Trouble::Kill(number) => number <= self.calls,
            Trouble::Nothing | Trouble::Call(_) | Trouble::Sync(_) => false,
        }
    }

    /// Counts a call that is no sync.
    pub(crate) fn next(&mut self) -> Course {
        let call = self.calls;
        self.calls = call.saturating_add(1);
        match self.trouble {
            Trouble::Call(number) if number == call => Course::Fails,
            Trouble::Kill(number) if number <= call => Course::IsOver,
            _ => Course::Passes,
        }
    }

    /// Counts a sync.
    pub(crate) fn next_sync(&mut self) -> Course {
        let sync = self.syncs;
        self.syncs = sync.saturating_add(1);
        match (self.next(), self.trouble) {
            (Course::Passes, Trouble::Sync(number)) if number == sync => Course::Fails,
            (course, _) => course,
        }
    }
}
