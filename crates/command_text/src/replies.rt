//! Replies.

use per_base::{Bytes, FileInfo, Name, PerError, Report, Sequence};
use value_model::Value;

/// The deployment of an application.
#[derive(Clone, Copy, Debug, PartialEq, Eq)]
pub enum AppStatus {
    /// There is none.
    Absent,
    /// The active version, and the previous one where there is one.
    Active { version: u32, previous: Option<u32> },
}

/// What an event is answered.
#[derive(Debug, Drop)]
pub enum Answer {
    /// It is done.
    Done,
    /// A value that was read.
    Val(Value),
    /// Bytes that were read.
    Octets(Bytes),
    /// One byte that was read.
    Byte(u8),
    /// A number: a size or a position in bytes, or how many storages of an update remain to be built.
    Number(u64),
    /// Yes or no.
    Truth(bool),
    /// Names of keys or files, in their order.
    Names(Sequence<Name>),
    /// The number of a handle.
    Handle(u32),
    /// The moments and causes of a file.
    Info(FileInfo),
    /// What is installed.
    Status(AppStatus),
    /// It is refused.
    Error(PerError),
}

/// The reports of an opening, and the answer.
#[derive(Debug, Drop)]
pub struct Reply {
    pub reports: Sequence<Report>,
    pub answer: Answer,
}
