//! A folder that is held: open and locked, until its holder is dropped.

use crate::listing::list_folder;
use crate::names::DeviceKind;
use std::alloc::Global;
use std::fs::{File, TryLockError};
use std::io;
use std::rt::Files;
use system_model::{Asked, Failure, Part};

/// For what a folder is held.
#[derive(Clone, Copy, Debug, PartialEq, Eq)]
pub enum Access {
    /// Its files are read, and none is written. Others may read it meanwhile.
    Read,
    /// Its files are read and written. Nobody else holds it meanwhile.
    Write,
}

/// The files of a folder, or none where it is not there. Their bytes are not modelled: what
/// [`System`](system_model::System) says of them is what is believed of the operating system.
#[derive(Drop)]
pub struct HostSystem<'a, R: Files<File = File>> {
    pub(crate) rt: &'a R,
    pub(crate) alloc: Global,
    pub(crate) dir: String,
    pub(crate) kind: DeviceKind,
    pub(crate) access: Access,
    /// The folder itself, which is locked.
    pub(crate) folder: Option<File>,
}

impl<'a, R: Files<File = File>> HostSystem<'a, R> {
    /// Opens and locks the folder, if it is there.
    pub fn hold(
        rt: &'a R,
        alloc: Global,
        dir: String,
        kind: DeviceKind,
        access: Access,
    ) -> Result<HostSystem<'a, R>, Failure> {
        let folder = unless_missing(File::open(rt, dir.as_str()))?;
        if let Some(folder) = &folder {
            locked(lock(folder, access))?;
        }
        Ok(HostSystem {
            rt,
            alloc,
            dir,
            kind,
            access,
            folder,
        })
    }
}

fn lock(folder: &File, access: Access) -> Result<(), TryLockError> {
    match access {
        Access::Read => folder.try_lock_shared(),
        Access::Write => folder.try_lock(),
    }
}

/// A folder that was opened, or none where it is not there.
fn unless_missing(opened: io::Result<File>) -> Result<Option<File>, Failure> {
    match opened {
        Ok(folder) => Ok(Some(folder)),
        Err(error) if error.kind() == io::ErrorKind::NotFound => Ok(None),
        Err(error) => Err(of_folder(Asked::Open, error)),
    }
}

/// The outcome of taking a lock.
fn locked(done: Result<(), TryLockError>) -> Result<(), Failure> {
    match done {
        Ok(()) => Ok(()),
        Err(TryLockError::WouldBlock) => Err(of_folder(
            Asked::Lock,
            io::Error::from(io::ErrorKind::WouldBlock),
        )),
        Err(TryLockError::Error(error)) => Err(of_folder(Asked::Lock, error)),
    }
}

fn of_folder(asked: Asked, error: io::Error) -> Failure {
    Failure {
        asked,
        part: Part::Folder,
        error,
    }
}

/// Whether something is in the folder of this name, and nothing of what it is to hold.
pub fn holds_only_others<R: Files<File = File>>(
    rt: &R,
    alloc: Global,
    dir: &str,
    kind: DeviceKind,
) -> io::Result<bool> {
    let found = list_folder(rt, alloc, dir, kind)?;
    Ok(found.numbers.is_empty() && found.has_others)
}
