//! What a power loss leaves of a record of calls.

use crate::files::{Files, bytes_of, put};
use crate::record::Call;
use crate::unreadable::Stretch;
use std::alloc::{AllocError, Global};

/// A write that the device does not have yet.
#[derive(Clone, Copy)]
struct Unsynced {
    stretch: Stretch,
    /// Whether a sync failed that was to write it: no later one does.
    is_dropped: bool,
}

/// How much of an unsynced write a power loss leaves.
#[derive(Clone, Copy)]
enum Left {
    Nothing,
    All,
    FirstHalf,
    SecondHalf,
}

impl Left {
    /// What two bits of the seed say of the write of this number, or of the name.
    fn of(seed: u64, number: usize) -> Left {
        match (seed >> (2 * (number as u64 % 32))) % 4 {
            0 => Left::Nothing,
            1 => Left::All,
            2 => Left::FirstHalf,
            _ => Left::SecondHalf,
        }
    }

    /// The part that is not left, of that many bytes: from where to where.
    fn missing(self, len: u64) -> (u64, u64) {
        match self {
            Left::Nothing => (0, len),
            Left::All => (0, 0),
            Left::FirstHalf => (len / 2, len),
            Left::SecondHalf => (0, len / 2),
        }
    }
}

/// What the system and the device hold while the calls of a record are made again.
#[derive(Drop)]
pub(crate) struct Device {
    alloc: Global,
    /// What reads give.
    files: Files,
    /// What the device has.
    durable: Files,
    unsynced: Vec<Unsynced>,
    /// The files whose names the device does not have.
    unnamed: Vec<u32>,
}

impl Device {
    /// A device that has these files.
    pub(crate) fn new(alloc: Global, files: &Files) -> Result<Device, AllocError> {
        Ok(Device {
            alloc,
            files: files.clone()?,
            durable: files.clone()?,
            unsynced: Vec::new(alloc),
            unnamed: Vec::new(alloc),
        })
    }

    /// Makes the calls again.
    pub(crate) fn replay(&mut self, calls: &[Call]) -> Result<(), AllocError> {
        for call in calls {
            match call {
                Call::Write(file, at, bytes) => self.write(*file, *at, bytes)?,
                Call::Make(file) => self.make(*file)?,
                Call::Sync(file) => self.sync(*file)?,
                Call::FailSync(file) => self.drop_writes(*file),
                Call::SyncFolder => self.unnamed.clear(),
                Call::Announce(..) | Call::Settle => {}
            }
        }
        Ok(())
    }

    /// Writes, which the device does not have yet; what it overlaps is no longer dropped.
    fn write(&mut self, file: u32, at: u64, bytes: &[u8]) -> Result<(), AllocError> {
        put(self.alloc, &mut self.files, file, at, bytes)?;
        let stretch = Stretch {
            file,
            at,
            len: bytes.len() as u64,
        };
        for unsynced in self.unsynced.iter_mut() {
            if unsynced.stretch.meets(stretch) {
                unsynced.is_dropped = false;
            }
        }
        self.unsynced.push(Unsynced {
            stretch,
            is_dropped: false,
        })?;
        Ok(())
    }

    /// Makes an empty file, whose name the device does not have yet.
    fn make(&mut self, file: u32) -> Result<(), AllocError> {
        self.files.insert(file, Vec::new(self.alloc))?;
        self.durable.insert(file, Vec::new(self.alloc))?;
        self.unnamed.push(file)?;
        Ok(())
    }

    /// Writes to the device what a file has where it was written, but for what was dropped.
    fn sync(&mut self, file: u32) -> Result<(), AllocError> {
        for unsynced in self.unsynced.iter() {
            let stretch = unsynced.stretch;
            if stretch.file == file && !unsynced.is_dropped {
                let bytes = part_of(bytes_of(&self.files, file), stretch);
                put(self.alloc, &mut self.durable, file, stretch.at, bytes)?;
            }
        }
        self.unsynced.retain(|unsynced| unsynced.stretch.file != file || unsynced.is_dropped);
        Ok(())
    }

    /// Drops all unsynced writes of a file.
    fn drop_writes(&mut self, file: u32) {
        for unsynced in self.unsynced.iter_mut() {
            if unsynced.stretch.file == file {
                unsynced.is_dropped = true;
            }
        }
    }

    /// What is left: by two bits of the seed each of the unsynced writes, in their order, and each of the unsynced
    /// names.
    pub(crate) fn left(self, seed: u64) -> Result<Files, AllocError> {
        let Device {
            files,
            durable,
            unsynced,
            unnamed,
            ..
        } = self;
        let mut left = files;
        for (number, write) in unsynced.iter().enumerate() {
            let kept = if write.is_dropped {
                Left::Nothing
            } else {
                Left::of(seed, number)
            };
            take_back(&mut left, &durable, write.stretch, kept);
        }
        for (number, file) in unnamed.iter().enumerate() {
            if let Left::Nothing = Left::of(seed, number) {
                left.remove(file);
            }
        }
        Ok(left)
    }
}

/// Takes back what is not left of a write.
fn take_back(left: &mut Files, durable: &Files, stretch: Stretch, kept: Left) {
    let old = bytes_of(durable, stretch.file);
    let (from, to) = kept.missing(stretch.len);
    if let Some(bytes) = left.get_mut(&stretch.file) {
        let from = stretch.at.saturating_add(from) as usize;
        let to = stretch.at.saturating_add(to) as usize;
        for place in from..to.min(bytes.len()) {
            bytes[place] = byte_at(old, place);
        }
        if to > from && to >= bytes.len() {
            bytes.truncate(from.max(old.len()));
        }
    }
}

/// A byte, with zeros past the end.
fn byte_at(bytes: &[u8], place: usize) -> u8 {
    match bytes.get(place) {
        Some(byte) => *byte,
        None => 0,
    }
}

/// The bytes of a stretch.
fn part_of(bytes: &[u8], stretch: Stretch) -> &[u8] {
    let from = stretch.at as usize;
    let to = stretch.at.saturating_add(stretch.len) as usize;
    bytes.get(from..to).unwrap_or(&[])
}
