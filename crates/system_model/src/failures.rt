//! Calls of the system that failed.

use std::{fmt, io};

/// What was asked of the system.
#[derive(Clone, Copy, Debug, PartialEq, Eq)]
pub enum Asked {
    /// To open a file, or the folder.
    Open,
    /// To make a file.
    Make,
    /// To read a file.
    Read,
    /// To write a file.
    Write,
    /// How many bytes a file has.
    Size,
    /// To sync a file, or the folder: to make it durable.
    Sync,
    /// Which files the folder has.
    List,
    /// To lock the folder for one process.
    Lock,
}

impl Asked {
    fn words(self) -> &'static str {
        match self {
            Asked::Open => "opening",
            Asked::Make => "making",
            Asked::Read => "reading",
            Asked::Write => "writing",
            Asked::Size => "asking the size of",
            Asked::Sync => "syncing",
            Asked::List => "listing",
            Asked::Lock => "locking",
        }
    }
}

/// Of which part of a folder it was asked.
#[derive(Clone, Copy, Debug, PartialEq, Eq)]
pub enum Part {
    /// The folder itself.
    Folder,
    /// The file of this number of a disk.
    File(u32),
    /// The file of a flash.
    Flash,
}

/// A call of the system that failed: what was asked, of which part of the folder, and why it failed.
#[derive(Clone, Copy, Debug)]
pub struct Failure {
    /// What was asked.
    pub asked: Asked,
    /// Of which part of the folder.
    pub part: Part,
    /// What the system answered.
    pub error: io::Error,
}

impl fmt::Display for Failure {
    fn fmt<W: fmt::Write>(&self, f: &mut fmt::Formatter<W>) -> fmt::Result {
        let asked = self.asked.words();
        let error = self.error;
        match self.part {
            Part::Folder => write!(f, "{asked} the folder: {error}"),
            Part::File(number) => write!(f, "{asked} file f{number}: {error}"),
            Part::Flash => write!(f, "{asked} file flash: {error}"),
        }
    }
}
