//! The errors that calls answer, and what they carry.

ghost use Rattle.std.specs.Prelude.{◌≡◌, IfOk};

use crate::lists::ValueText;
use crate::names::Name;
use std::alloc::AllocError;
use thiserror::Error;

/// What is damaged.
#[derive(Debug, Drop)]
pub enum Unit {
    /// The root of the application.
    Root,
    /// A storage.
    Whole(Name),
    /// An element of a storage: the storage, then the element.
    Part(Name, Name),
}

/// What holds up a call.
#[derive(Debug, Drop)]
pub enum Holder {
    /// An open storage.
    Storage(Name),
    /// An open handle.
    Handle(u32),
    /// An update in progress, by the version that it offers.
    Update(u32),
}

/// Which limit a call would pass.
#[derive(Clone, Copy, Debug, PartialEq, Eq)]
pub enum Limit {
    /// The elements of a storage, 1,024.
    Elements,
    /// The open handles of a file storage, 64.
    Handles,
    /// The bytes of a file, 1,048,576.
    FileBytes,
    /// The bytes of an encoded value, 65,536.
    ValueBytes,
    /// The depth of a value, 8.
    ValueDepth,
    /// The generations of a text, which end at the greatest `u64`.
    Generations,
}

/// An error of a call, with what it carries. The number of each is in `error_number` of the definitions.
#[derive(Debug, Drop, Error)]
pub enum PerError {
    /// 1: no such storage of the kind in the active deployment.
    #[error("no such storage of this kind is deployed")]
    StorageNotFound,
    /// 2: the key is not visible.
    #[error("no such key")]
    KeyNotFound,
    /// 3: a write to a read-only storage, or through a handle that reads.
    #[error("the storage or the handle is read-only")]
    IllegalWriteAccess,
    /// 4: the device failed.
    #[error("the device failed")]
    PhysicalStorageFailure,
    /// 5: too few copies agree and verify.
    #[error("too few copies agree")]
    IntegrityCorrupted { unit: Unit },
    /// 7: the stored type and the type that was asked for differ.
    #[error("the stored value has another type")]
    DataTypeMismatch { stored: ValueText, asked: ValueText },
    /// 8: the deployment has no initial value for the name.
    #[error("the deployment has no initial value")]
    InitValueNotAvailable,
    /// 9: something holds up the call.
    #[error("something open or in progress is in the way")]
    ResourceBusy { holder: Holder },
    /// 10: the storage would need more bytes than it is allowed.
    #[error("the storage would pass its greatest size")]
    OutOfStorageSpace { needed: u64, allowed: u64 },
    /// 11: no such file.
    #[error("no such file")]
    FileNotFound,
    /// 12: the position is outside the file.
    #[error("the position is outside the file")]
    InvalidPosition,
    /// 13: the position is the end of the file.
    #[error("the position is the end of the file")]
    IsEof,
    /// 14: the flags of the opening contradict one another.
    #[error("the flags of the opening contradict one another")]
    InvalidOpenMode,
    /// 15: the new size of a file is above its size.
    #[error("the new size is above that of the file")]
    InvalidSize,
    /// 20: no deployment is installed.
    #[error("no deployment is installed")]
    NotInstalled,
    /// 21: a deployment is installed.
    #[error("a deployment is installed")]
    AlreadyInstalled,
    /// 22: the manifest breaks a rule; the first violated rule is carried.
    #[error("the manifest breaks rule {rule}")]
    ManifestRejected { rule: u32 },
    /// 23: there is no previous version.
    #[error("there is no previous version")]
    NoPreviousVersion,
    /// 24: the storage or the handle is not open.
    #[error("the storage or the handle is not open")]
    NotOpen,
    /// 25: a limit would be passed.
    #[error("a limit would be passed")]
    LimitReached { which: Limit },
    /// 26: a read through a handle that writes.
    #[error("the handle only writes")]
    IllegalReadAccess,
    /// 27: the previous version is still there.
    #[error("the update from version {previous} is not finished")]
    UpdateNotFinished { previous: u32 },
    /// 28: the offered version is not above the active one.
    #[error("version {offered} is not above version {active}")]
    VersionNotNewer { active: u32, offered: u32 },
    /// 29: the text is no name.
    #[error("not a name")]
    BadName,
    /// 30: no update is in progress.
    #[error("no update is in progress")]
    NoUpdateInProgress,
    /// 31: the bytes are no export of the kind.
    #[error("not an export of this kind")]
    ExportRejected,
    /// Memory ran out; it has no number and no reply.
    #[error("memory ran out")]
    OutOfMemory,
}

impl Unit {
    /// An equal copy.
    pub fn copy(&self) -> Result<Unit, AllocError>
        ensures { IfOk result (λ copy. copy ≡ self.now) }
    {
        match self {
            Unit::Root => Ok(Unit::Root),
            Unit::Whole(storage) => Ok(Unit::Whole(storage.copy()?)),
            Unit::Part(storage, element) => {
                let storage = storage.copy()?;
                Ok(Unit::Part(storage, element.copy()?))
            }
        }
    }
}

impl Holder {
    /// An equal copy.
    pub fn copy(&self) -> Result<Holder, AllocError>
        ensures { IfOk result (λ copy. copy ≡ self.now) }
    {
        match self {
            Holder::Storage(name) => Ok(Holder::Storage(name.copy()?)),
            Holder::Handle(number) => Ok(Holder::Handle(*number)),
            Holder::Update(version) => Ok(Holder::Update(*version)),
        }
    }
}

impl PerError {
    /// An equal copy.
    pub fn copy(&self) -> Result<PerError, AllocError>
        ensures { IfOk result (λ copy. copy ≡ self.now) }
    {
        match self {
            PerError::IntegrityCorrupted { unit } => Ok(PerError::IntegrityCorrupted {
                unit: unit.copy()?,
            }),
            PerError::DataTypeMismatch { stored, asked } => {
                let stored = stored.copy()?;
                let asked = asked.copy()?;
                Ok(PerError::DataTypeMismatch { stored, asked })
            }
            PerError::ResourceBusy { holder } => Ok(PerError::ResourceBusy {
                holder: holder.copy()?,
            }),
            PerError::OutOfStorageSpace { needed, allowed } => Ok(PerError::OutOfStorageSpace {
                needed: *needed,
                allowed: *allowed,
            }),
            PerError::ManifestRejected { rule } => Ok(PerError::ManifestRejected { rule: *rule }),
            PerError::LimitReached { which } => Ok(PerError::LimitReached { which: *which }),
            PerError::UpdateNotFinished { previous } => Ok(PerError::UpdateNotFinished {
                previous: *previous,
            }),
            PerError::VersionNotNewer { active, offered } => Ok(PerError::VersionNotNewer {
                active: *active,
                offered: *offered,
            }),
            PerError::StorageNotFound => Ok(PerError::StorageNotFound),
            PerError::KeyNotFound => Ok(PerError::KeyNotFound),
            PerError::IllegalWriteAccess => Ok(PerError::IllegalWriteAccess),
            PerError::PhysicalStorageFailure => Ok(PerError::PhysicalStorageFailure),
            PerError::InitValueNotAvailable => Ok(PerError::InitValueNotAvailable),
            PerError::FileNotFound => Ok(PerError::FileNotFound),
            PerError::InvalidPosition => Ok(PerError::InvalidPosition),
            PerError::IsEof => Ok(PerError::IsEof),
            PerError::InvalidOpenMode => Ok(PerError::InvalidOpenMode),
            PerError::InvalidSize => Ok(PerError::InvalidSize),
            PerError::NotInstalled => Ok(PerError::NotInstalled),
            PerError::AlreadyInstalled => Ok(PerError::AlreadyInstalled),
            PerError::NoPreviousVersion => Ok(PerError::NoPreviousVersion),
            PerError::NotOpen => Ok(PerError::NotOpen),
            PerError::IllegalReadAccess => Ok(PerError::IllegalReadAccess),
            PerError::BadName => Ok(PerError::BadName),
            PerError::NoUpdateInProgress => Ok(PerError::NoUpdateInProgress),
            PerError::ExportRejected => Ok(PerError::ExportRejected),
            PerError::OutOfMemory => Ok(PerError::OutOfMemory),
        }
    }
}
