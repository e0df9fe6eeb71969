//! A disk that counts its calls.

use disk_model::{Disk, DiskFailed, MemDisk};

/// A disk in memory with the number of its calls, and of those after which a stop finds something else than before. Its
/// bytes are not modelled.
#[derive(Drop)]
pub(crate) struct Counting {
    disk: MemDisk,
    calls: u64,
    moments: Vec<u64>,
    faults: u64,
}

impl Counting {
    /// The disk, of which no call was counted yet.
    pub(crate) fn new(disk: MemDisk, moments: Vec<u64>) -> Counting {
        Counting {
            disk,
            calls: 0,
            moments,
            faults: 0,
        }
    }

    /// How many calls were made.
    pub(crate) fn calls(&self) -> u64 {
        self.calls
    }

    /// After how many calls something was written or synced.
    pub(crate) fn into_moments(self) -> Vec<u64> {
        let Counting { moments, disk, .. } = self;
        drop(disk);
        moments
    }
}

impl Disk for Counting {
    ghost use Rattle.std.specs.Prelude.{false};
    ghost use Rattle.disk_model.specs.Silence.{silent_medium, silent_is_lawful};

    ghost told = { false };

    ghost medium = { λ disk. silent_medium disk.faults };

    ghost lawful = { λ disk. silent_is_lawful disk.faults };

    fn read(&mut self, file: u32, at: u64, out: &mut [u8]) -> Result<usize, DiskFailed> {
        self.calls = self.calls.saturating_add(1);
        match self.disk.read(file, at, out) {
            Ok(count) => Ok(count),
            Err(failed) => {
                self.faults = self.faults.saturating_add(1);
                Err(failed)
            }
        }
    }

    fn write_at(&mut self, file: u32, at: u64, bytes: &[u8]) -> Result<(), DiskFailed> {
        self.calls = self.calls.saturating_add(1);
        let is_noted = self.moments.push(self.calls).is_ok();
        match self.disk.write_at(file, at, bytes) {
            Ok(()) if is_noted => Ok(()),
            _ => {
                self.faults = self.faults.saturating_add(1);
                Err(DiskFailed)
            }
        }
    }

    fn size(&mut self, file: u32) -> Result<u64, DiskFailed> {
        self.calls = self.calls.saturating_add(1);
        match self.disk.size(file) {
            Ok(size) => Ok(size),
            Err(failed) => {
                self.faults = self.faults.saturating_add(1);
                Err(failed)
            }
        }
    }

    fn sync(&mut self) -> Result<(), DiskFailed> {
        self.calls = self.calls.saturating_add(1);
        let is_noted = self.moments.push(self.calls).is_ok();
        match self.disk.sync() {
            Ok(()) if is_noted => Ok(()),
            _ => {
                self.faults = self.faults.saturating_add(1);
                Err(DiskFailed)
            }
        }
    }
}
