//! A folder as a disk, and the clock.

use folder_disk::FolderDisk;
use per_base::PerError;
use per_system::{Access, DeviceKind, HostSystem};
use std::alloc::Global;
use std::fs::File;
use std::rt::Files;
use std::time::{Clock, SystemTime, UNIX_EPOCH};

/// The folder as a disk, which holds and locks it. The standard streams are to be filled before
/// (`per_system::fill_streams`).
///
/// # Errors
///
/// `PhysicalStorageFailure` where the folder is not there, is in use, or cannot be read or written; `OutOfMemory`.
pub fn open_folder<'a, R: Files<File = File>>(
    rt: &'a R,
    alloc: Global,
    folder: &str,
) -> Result<FolderDisk<HostSystem<'a, R>>, PerError> {
    let Ok(folder) = String::from_str(alloc, folder) else {
        return Err(PerError::OutOfMemory);
    };
    let Ok(system) = HostSystem::hold(rt, alloc, folder, DeviceKind::Disk, Access::Write) else {
        return Err(PerError::PhysicalStorageFailure);
    };
    match FolderDisk::open(alloc, system) {
        Ok(disk) => Ok(disk),
        Err(_) => Err(PerError::PhysicalStorageFailure),
    }
}

/// The moment, in seconds since 1970; 0 where the clock does not say.
pub fn seconds(clock: &impl Clock) -> u64 {
    match SystemTime::now(clock) {
        Ok(now) => match now.duration_since(UNIX_EPOCH) {
            Ok(since) => since.as_secs(),
            Err(_) => 0,
        },
        Err(_) => 0,
    }
}
