//! A disk over a folder.

ghost use Rattle.std.specs.Prelude.{◌≡◌, IsTrue, ℕ, IfOk};
ghost use Rattle.disk_model.specs.Medium.{Quiet, Elapses, WritesNothing};

use crate::folder::Folder;
use crate::opened::Opened;
use std::alloc::Global;
use std::io;
use std::marker::Model;
use system_model::{Asked, Failure, Part, System};

/// A disk over the files of a folder: each file of the disk is the file of its number. Contracts see the system that
/// has the files, and what the disk counts: calls that failed, and bytes written.
#[derive(Drop)]
pub struct FolderDisk<S: System> {
    pub(crate) folder: Folder<S>,
}

/// A folder that could not be opened as a disk: its system, and the call that failed.
#[derive(Drop)]
pub struct FolderRefused<S> {
    /// The system, as the disk left it.
    pub system: S,
    /// The call of the system that failed, if one did.
    pub failure: Option<Failure>,
}

impl<S: System> Model for FolderDisk<S> {
    ghost use Rattle.folder_disk.specs.FolderView.{FolderView, view_code};
    ghost use Rattle.folder_disk.specs.Knows.{Knows};

    ghost Value = { FolderView S };

    ghost coded = { view_code S.code };

    ghost view = { λ disk. record {
      system = disk.folder.system;
      faults = disk.folder.faults;
      written = disk.folder.written;
    } };

    ghost invariant = { λ disk. Knows S.told (S.medium disk.folder.system) disk.folder.ranges.items
        disk.folder.is_fresh disk.folder.is_grown disk.folder.is_lost };
}

impl<S: System> FolderDisk<S> {
    ghost use Rattle.system_model.specs.SystemMedium.{IsWhole};
    ghost use Rattle.folder_disk.specs.FolderView.{disk_seen};

    /// The disk over these files, whatever an earlier process left there, but for what a failed sync dropped: no sync
    /// failed since the system was started, or what it was to write is there. Its first sync covers what any process
    /// wrote.
    fn new(alloc: Global, system: S) -> FolderDisk<S>
        requires { IsTrue S.told → (f : ℕ) → IsWhole (S.medium system) f }
        ensures system { result.system ≡ system }
        ensures faults { result.faults ≡ 0 }
        ensures written { result.written ≡ 0 }
    {
        FolderDisk {
            folder: Folder {
                system: Opened::new(alloc, system),
                alloc,
                ranges: Vec::new(alloc),
                is_fresh: true,
                is_grown: true,
                is_lost: false,
                faults: 0,
                written: 0,
                failure: None,
            },
        }
    }

    /// Opens the files as a disk, and syncs whatever any process wrote to them, so that nothing is pending. A file that
    /// cannot be opened counts as one that is not there. A folder is refused that lists files of which none can be
    /// opened, or no byte can be read; an empty folder is none of these.
    pub fn open(alloc: Global, system: S) -> Result<FolderDisk<S>, FolderRefused<S>>
        // No failed sync has dropped anything of any file f.
        requires { IsTrue S.told → (f : ℕ) → IsWhole (S.medium system) f }
        // Nothing is pending on the disk, and no byte was changed.
        ensures quiet { IfOk result (λ disk. Quiet (disk_seen S.medium disk)) }
        ensures writes_nothing { IfOk result (λ disk.
            WritesNothing (S.medium system).disk (S.medium disk.system).disk) }
        ensures time { IfOk result (λ disk. Elapses (S.medium system).disk (S.medium disk.system).disk) }
    {
        let mut disk = FolderDisk::new(alloc, system);
        if disk.folder.sync().is_err() {
            return Err(refused(disk.folder));
        }
        if let Some(file) = disk.folder.system.refused() {
            let error = io::Error::other("neither it nor any other file can be opened");
            disk.folder.failed(Asked::Open, Part::File(file), error);
            return Err(refused(disk.folder));
        }
        if let Some(file) = disk.folder.system.unreadable() {
            let error = io::Error::other("neither it nor any other file can be read");
            disk.folder.failed(Asked::Read, Part::File(file), error);
            return Err(refused(disk.folder));
        }
        Ok(disk)
    }

    /// The system, as the disk left it.
    pub fn into_system(self) -> S
        ensures { result ≡ self.system }
    {
        self.folder.system.into_system()
    }

    /// The last call of the system that failed, for error reporting.
    pub fn failure(&self) -> Option<Failure> {
        self.folder.failure
    }

    /// Whether a file of the disk was seen in the folder, or made.
    pub fn has_files(&self) -> bool {
        self.folder.system.has_files()
    }
}

/// What is left of a folder that is refused.
fn refused<S: System>(folder: Folder<S>) -> FolderRefused<S> {
    let failure = folder.failure;
    FolderRefused {
        system: folder.system.into_system(),
        failure,
    }
}
