//! Events and calls.

ghost use Rattle.std.specs.Prelude.{◌≡◌};
ghost use Rattle.command_text.specs.Carried.{bytes_of, call_bytes};

use crate::asked::AskedType;
use per_base::{Bytes, Name, OpenKind, OpenMode, Origin};
use value_model::Value;

/// What a line asks for.
#[derive(Debug, Drop)]
pub enum Event {
    /// The moment is set, in seconds.
    Now(u64),
    /// A call of the application with this number, 0 to 7.
    App(u8, Call),
}

impl Event {
    /// The bytes that are to be written by a handle, or to be the content of a file. Does not allocate.
    pub fn into_bytes(self) -> Option<Bytes>
        ensures { result ≡ bytes_of self }
    {
        match self {
            Event::Now(_) => None,
            Event::App(_, call) => call.into_bytes(),
        }
    }
}

/// A call, with its arguments in the order of its line. The first name is a storage's, the second a key's or a file's.
#[derive(Debug, Drop)]
pub enum Call {
    // ---- deployment
    Status,
    /// The text of a manifest.
    Install(Bytes),
    /// The text of a manifest.
    Update(Bytes),
    Finish,
    Rollback,
    Wipe,
    /// The text of a manifest.
    UpdateBegin(Bytes),
    UpdateNext,
    UpdateCommit,
    UpdateAbort,

    // ---- storages
    OpenKvs(Name),
    OpenFiles(Name),
    Close(Name),
    Size(Name),
    RecoverStorage(Name),
    ResetStorage(Name),

    // ---- keys
    Keys(Name),
    Exists(Name, Name),
    Get(Name, Name),
    GetAs(Name, Name, AskedType),
    Set(Name, Name, Value),
    Remove(Name, Name),
    RemoveAll(Name),
    RecoverKey(Name, Name),
    ResetKey(Name, Name),
    Sync(Name),
    Discard(Name),

    // ---- files: the number after a storage is a handle's
    Files(Name),
    FileExists(Name, Name),
    OpenFile(Name, Name, OpenKind, OpenMode),
    CloseFile(Name, u32),
    Peek(Name, u32),
    Byte(Name, u32),
    /// The number of bytes.
    Read(Name, u32, u64),
    ReadAll(Name, u32),
    /// The byte that ends the line.
    Line(Name, u32, u8),
    Write(Name, u32, Bytes),
    /// The size in bytes.
    SetSize(Name, u32, u64),
    HandleSize(Name, u32),
    Position(Name, u32),
    /// The position in bytes.
    Seek(Name, u32, u64),
    /// The offset in bytes.
    Move(Name, u32, Origin, i64),
    Eof(Name, u32),
    Flush(Name, u32),
    SizeOf(Name, Name),
    Info(Name, Name),
    Delete(Name, Name),
    RecoverFile(Name, Name),
    ResetFile(Name, Name),
    Cat(Name, Name),
    Put(Name, Name, Bytes),
}

impl Call {
    fn into_bytes(self) -> Option<Bytes>
        ensures { result ≡ call_bytes self }
    {
        match self {
            Call::Write(_, _, bytes) => Some(bytes),
            Call::Put(_, _, bytes) => Some(bytes),
            _ => None,
        }
    }
}
