//! The last call of the system that failed.

ghost use Rattle.std.specs.Prelude.{◌≡◌};

use disk_model::{Disk, DiskFailed};
use flash_model::{Flash, FlashFailed};
use folder_disk::FolderDisk;
use folder_flash::FolderFlash;
use std::cell::Cell;
use system_model::{Failure, System};

/// Where the last call of the system that failed is noted, for error reporting.
#[derive(Drop)]
pub struct Notes {
    last: Cell<Option<Failure>>,
    is_new: Cell<bool>,
}

impl Notes {
    /// No call failed yet.
    pub fn new() -> Notes {
        Notes {
            last: Cell::new(None),
            is_new: Cell::new(false),
        }
    }

    /// The last call that failed.
    pub fn last(&self) -> Option<Failure> {
        self.last.get()
    }

    /// The same, where it failed since this was asked before.
    pub fn news(&self) -> Option<Failure> {
        if self.is_new.replace(false) {
            self.last.get()
        } else {
            None
        }
    }

    /// Notes a call that failed.
    pub fn note(&self, failure: Option<Failure>) {
        self.last.set(failure);
        self.is_new.set(true);
    }
}

/// A device over a folder, whose failures are noted where they are answered.
#[derive(Drop)]
pub struct Noted<'a, D: Drop> {
    device: D,
    notes: &'a Notes,
}

impl<'a, D: Drop> Noted<'a, D> {
    /// This device; each of its calls that fails from then on is noted in `notes`.
    pub fn new(device: D, notes: &'a Notes) -> Noted<'a, D>
        ensures { result.device ≡ device }
    {
        Noted { device, notes }
    }

    /// The device itself.
    pub fn device(&self) -> &D {
        &self.device
    }
}

impl<'a, D: Disk + Explains + Drop> Noted<'a, D> {
    /// Hands an answer on, and notes why where it is a failure.
    fn noted<T>(&self, done: Result<T, DiskFailed>) -> Result<T, DiskFailed>
        ensures { result ≡ done }
    {
        if done.is_err() {
            self.notes.note(self.device.failure());
        }
        done
    }
}

impl<'a, D: Disk + Explains + Drop> Disk for Noted<'a, D> {
    ghost told = { D.told };

    ghost medium = { λ noted. D.medium noted.device };

    ghost lawful = { λ noted. D.lawful noted.device };

    fn read(&mut self, file: u32, at: u64, out: &mut [u8]) -> Result<usize, DiskFailed> {
        let done = self.device.read(file, at, out);
        self.noted(done)
    }

    fn write_at(&mut self, file: u32, at: u64, bytes: &[u8]) -> Result<(), DiskFailed> {
        let done = self.device.write_at(file, at, bytes);
        self.noted(done)
    }

    fn size(&mut self, file: u32) -> Result<u64, DiskFailed> {
        let done = self.device.size(file);
        self.noted(done)
    }

    fn sync(&mut self) -> Result<(), DiskFailed> {
        let done = self.device.sync();
        self.noted(done)
    }
}

/// A flash over a folder, whose failures are noted where they are answered.
#[derive(Drop)]
pub struct NotedFlash<'a, F: Drop> {
    device: F,
    notes: &'a Notes,
}

impl<'a, F: Drop> NotedFlash<'a, F> {
    /// This flash, whose failures are noted from then on where they are answered.
    pub fn new(device: F, notes: &'a Notes) -> NotedFlash<'a, F>
        ensures { result.device ≡ device }
    {
        NotedFlash { device, notes }
    }

    /// The flash itself.
    pub fn device(&self) -> &F {
        &self.device
    }

    /// The flash itself, to be asked more than a flash is.
    pub fn device_mut(&mut self) -> &mut F {
        &mut self.device
    }
}

impl<'a, F: Flash + Explains + Drop> NotedFlash<'a, F> {
    /// Hands an answer on, and notes why where it is a failure.
    fn noted(&self, done: Result<(), FlashFailed>) -> Result<(), FlashFailed>
        ensures { result ≡ done }
    {
        if done.is_err() {
            self.notes.note(self.device.failure());
        }
        done
    }
}

impl<'a, F: Flash + Explains + Drop> Flash for NotedFlash<'a, F> {
    ghost told = { F.told };

    ghost medium = { λ noted. F.medium noted.device };

    ghost lawful = { λ noted. F.lawful noted.device };

    fn blocks(&self) -> u32 {
        self.device.blocks()
    }

    fn read(&mut self, block: u32, page: u32, out: &mut [u8; 512]) -> Result<(), FlashFailed> {
        let done = self.device.read(block, page, out);
        self.noted(done)
    }

    fn program(&mut self, block: u32, page: u32, bytes: &[u8; 512]) -> Result<(), FlashFailed> {
        let done = self.device.program(block, page, bytes);
        self.noted(done)
    }

    fn erase(&mut self, block: u32) -> Result<(), FlashFailed> {
        let done = self.device.erase(block);
        self.noted(done)
    }

    fn announce(&mut self, file: u32, at: u64, bytes: &[u8]) -> Result<(), FlashFailed> {
        let done = self.device.announce(file, at, bytes);
        self.noted(done)
    }

    fn settle(&mut self) -> Result<(), FlashFailed> {
        let done = self.device.settle();
        self.noted(done)
    }
}

/// What can say why its last call failed.
pub trait Explains {
    /// The last call of the system that failed, and how; none where none failed.
    fn failure(&self) -> Option<Failure>;
}

impl<S: System> Explains for FolderDisk<S> {
    fn failure(&self) -> Option<Failure> {
        FolderDisk::failure(self)
    }
}

impl<S: System> Explains for FolderFlash<S> {
    fn failure(&self) -> Option<Failure> {
        FolderFlash::failure(self)
    }
}
