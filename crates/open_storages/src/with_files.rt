//! The calls on files.

ghost use Rattle.std.specs.Prelude.{◌≡◌, IfErr, IfOk, OnErr, OnOk, Ok, true, false, ℕ};
ghost use Rattle.per_base.specs.Refusals.{IsDue, IsRefusal, NeedsMemory};
ghost use Rattle.file_handles.specs.Handling as handling;
ghost use Rattle.file_handles.specs.Opening.{open_file};
ghost use Rattle.run_model.specs.Sessions.{on_working, storage_of};
ghost use Rattle.open_storages.specs.Answers.{IsAnsweredAsRow, is_by_name, is_placing, is_reading};

use command_text::{Answer, Call};
use file_storage::Files;
use per_base::{Bytes, Name, OpenKind, OpenMode, PerError, Sequence};

/// Answers a call on files, at a moment in seconds.
#[tactic(auto, using(crate::proofs::Rows::refused_then, crate::proofs::Rows::due_then, crate::proofs::Rows::answered_then), unfolding(run_model::specs::Sessions::on_working))]
pub(crate) fn answer_files(files: &mut Files, now: u64, call: &Call) -> Result<Answer, PerError>
    ensures answered { IsAnsweredAsRow (on_working files.old.config now files.old.session call.now) files.old.session
        files.new.session result }
    ensures memory { IfErr result (λ error. error ≡ PerError.OutOfMemory
        → NeedsMemory (on_working files.old.config now files.old.session call.now)) }
    ensures beside { files.new ≡ record files.old { session = files.new.session; moment = files.new.moment } }
{
    match call {
        Call::Size(_)
        | Call::Files(_)
        | Call::FileExists(..)
        | Call::SizeOf(..)
        | Call::Info(..)
        | Call::Delete(..)
        | Call::RecoverFile(..)
        | Call::ResetFile(..) => by_name(files, now, call),
        Call::Peek(..) | Call::Byte(..) | Call::Read(..) | Call::ReadAll(..) | Call::Line(..) => {
            read(files, call)
        }
        Call::HandleSize(..)
        | Call::Position(..)
        | Call::Seek(..)
        | Call::Move(..)
        | Call::Eof(..) => place(files, call),
        _ => change(files, now, call),
    }
}

/// Looks at the files, or changes one by its name.
#[tactic(auto, using(crate::proofs::Rows::refused_then, crate::proofs::Rows::due_then, crate::proofs::Rows::answered_then), unfolding(run_model::specs::Sessions::on_working))]
fn by_name(files: &mut Files, now: u64, call: &Call) -> Result<Answer, PerError>
    requires { is_by_name call.now ≡ true }
    ensures answered { IsAnsweredAsRow (on_working files.old.config now files.old.session call.now) files.old.session
        files.new.session result }
    ensures memory { IfErr result (λ error. error ≡ PerError.OutOfMemory
        → NeedsMemory (on_working files.old.config now files.old.session call.now)) }
    ensures beside { files.new ≡ record files.old { session = files.new.session; moment = files.new.moment } }
{
    match call {
        Call::Size(_) => Ok(Answer::Number(files.current_size())),
        Call::Files(_) => Ok(Answer::Names(Sequence::new(files.all_file_names()?))),
        Call::FileExists(_, name) => Ok(Answer::Truth(files.file_exists(name))),
        Call::SizeOf(_, name) => Ok(Answer::Number(files.current_file_size(name)?)),
        Call::Info(_, name) => Ok(Answer::Info(files.file_info(name)?)),
        Call::Delete(_, name) => {
            files.delete_file(name)?;
            Ok(Answer::Done)
        }
        Call::RecoverFile(_, name) => {
            files.recover_file(name, now)?;
            Ok(Answer::Done)
        }
        Call::ResetFile(_, name) => {
            files.reset_file(name, now)?;
            Ok(Answer::Done)
        }
        _ => Err(PerError::StorageNotFound),
    }
}

/// Reads through a handle.
#[tactic(auto, using(crate::proofs::Rows::refused_then, crate::proofs::Rows::due_then, crate::proofs::Rows::answered_then), unfolding(run_model::specs::Sessions::on_working))]
fn read(files: &mut Files, call: &Call) -> Result<Answer, PerError>
    requires { is_reading call.now ≡ true }
    ensures answered { (now : ℕ) → IsAnsweredAsRow (on_working files.old.config now files.old.session call.now)
        files.old.session files.new.session result }
    ensures memory { IfErr result (λ error. error ≡ PerError.OutOfMemory
        → (now : ℕ) → NeedsMemory (on_working files.old.config now files.old.session call.now)) }
    ensures beside { files.new ≡ record files.old { session = files.new.session; moment = files.new.moment } }
{
    match call {
        Call::Peek(_, handle) => Ok(Answer::Byte(files.peek_byte(*handle)?)),
        Call::Byte(_, handle) => Ok(Answer::Byte(files.get_byte(*handle)?)),
        Call::Read(_, handle, count) => {
            Ok(Answer::Octets(Bytes::new(files.read(*handle, *count)?)))
        }
        Call::ReadAll(_, handle) => Ok(Answer::Octets(Bytes::new(files.read_all(*handle)?))),
        Call::Line(_, handle, delimiter) => {
            Ok(Answer::Octets(Bytes::new(files.read_line(*handle, *delimiter)?)))
        }
        _ => Err(PerError::StorageNotFound),
    }
}

/// Asks where a handle is, or moves it.
#[tactic(auto, using(crate::proofs::Rows::refused_then, crate::proofs::Rows::due_then, crate::proofs::Rows::answered_then), unfolding(run_model::specs::Sessions::on_working))]
fn place(files: &mut Files, call: &Call) -> Result<Answer, PerError>
    requires { is_placing call.now ≡ true }
    ensures answered { (now : ℕ) → IsAnsweredAsRow (on_working files.old.config now files.old.session call.now)
        files.old.session files.new.session result }
    ensures memory { IfErr result (λ error. error ≡ PerError.OutOfMemory
        → (now : ℕ) → NeedsMemory (on_working files.old.config now files.old.session call.now)) }
    ensures beside { files.new ≡ record files.old { session = files.new.session; moment = files.new.moment } }
{
    match call {
        Call::HandleSize(_, handle) => Ok(Answer::Number(files.size(*handle)?)),
        Call::Position(_, handle) => Ok(Answer::Number(files.position(*handle)?)),
        Call::Seek(_, handle, position) => {
            files.set_position(*handle, *position)?;
            Ok(Answer::Done)
        }
        Call::Move(_, handle, origin, offset) => {
            Ok(Answer::Number(files.move_position(*handle, *origin, *offset)?))
        }
        Call::Eof(_, handle) => Ok(Answer::Truth(files.is_eof(*handle)?)),
        _ => Err(PerError::StorageNotFound),
    }
}

/// Opens and closes handles, changes files through them, and reads and replaces whole contents.
#[tactic(auto, using(crate::proofs::Rows::refused_then, crate::proofs::Rows::due_then, crate::proofs::Rows::answered_then), unfolding(run_model::specs::Sessions::on_working))]
fn change(files: &mut Files, now: u64, call: &Call) -> Result<Answer, PerError>
    requires by_name { is_by_name call.now ≡ false }
    requires reading { is_reading call.now ≡ false }
    requires placing { is_placing call.now ≡ false }
    ensures answered { IsAnsweredAsRow (on_working files.old.config now files.old.session call.now) files.old.session
        files.new.session result }
    ensures memory { IfErr result (λ error. error ≡ PerError.OutOfMemory
        → NeedsMemory (on_working files.old.config now files.old.session call.now)) }
    ensures beside { files.new ≡ record files.old { session = files.new.session; moment = files.new.moment } }
{
    match call {
        Call::OpenFile(_, name, kind, mode) => {
            Ok(Answer::Handle(opened(files, name, *kind, *mode, now)?))
        }
        Call::CloseFile(_, handle) => {
            files.close(*handle)?;
            Ok(Answer::Done)
        }
        Call::Write(_, handle, bytes) => {
            written(files, *handle, bytes, now)?;
            Ok(Answer::Done)
        }
        Call::SetSize(_, handle, size) => {
            cut(files, *handle, *size, now)?;
            Ok(Answer::Done)
        }
        Call::Cat(_, name) => Ok(Answer::Octets(Bytes::new(files.whole_content(name, now)?))),
        Call::Put(_, name, bytes) => {
            files.replace(name, bytes.as_slice(), now)?;
            Ok(Answer::Done)
        }
        _ => Err(PerError::StorageNotFound),
    }
}

/// Opens a file, and gives the number of the handle.
fn opened(
    files: &mut Files,
    name: &Name,
    kind: OpenKind,
    mode: OpenMode,
    now: u64,
) -> Result<u32, PerError>
    ensures ok { IfOk result (λ handle. open_file (storage_of files.old.config) files.old.session name.now kind mode now
        ≡ Ok (handle, files.new.session)) }
    ensures refused { IfErr result (λ error. IsRefusal (open_file (storage_of files.old.config) files.old.session
        name.now kind mode now) error) }
    ensures memory { IfErr result (λ error. error ≡ PerError.OutOfMemory
        → NeedsMemory (open_file (storage_of files.old.config) files.old.session name.now kind mode now)) }
    ensures beside { files.new ≡ record files.old { session = files.new.session; moment = files.new.moment } }
    ensures unchanged { OnErr result (files.new ≡ files.old) }
{
    match kind {
        OpenKind::Read => files.open_read_only(name, mode, now),
        OpenKind::Write => files.open_write_only(name, mode, now),
        OpenKind::ReadWrite => files.open_read_write(name, mode, now),
    }
}

/// Writes a piece through a handle, at this moment.
fn written(files: &mut Files, handle: u32, bytes: &Bytes, now: u64) -> Result<(), PerError>
    ensures ok { OnOk result (handling.write (storage_of files.old.config) files.old.session now handle bytes.now
        ≡ Ok files.new.session) }
    ensures refused { IfErr result (λ error. IsRefusal (handling.write (storage_of files.old.config) files.old.session
        now handle bytes.now) error) }
    ensures due { IfErr result (λ error. error ≡ PerError.OutOfMemory
        → IsDue (handling.write (storage_of files.old.config) files.old.session now handle bytes.now)) }
    ensures beside { files.new ≡ record files.old { session = files.new.session; moment = files.new.moment } }
    ensures unchanged { OnErr result (files.new.session ≡ files.old.session) }
{
    files.set_now(now);
    files.write(handle, bytes.as_slice())
}

/// Cuts the file of a handle, at this moment.
fn cut(files: &mut Files, handle: u32, size: u64, now: u64) -> Result<(), PerError>
    ensures ok { OnOk result (handling.set_size files.old.session now handle size ≡ Ok files.new.session) }
    ensures refused { IfErr result (λ error. handling.set_size files.old.session now handle size ≡ Err error) }
    ensures beside { files.new ≡ record files.old { session = files.new.session; moment = files.new.moment } }
    ensures unchanged { OnErr result (files.new.session ≡ files.old.session) }
{
    files.set_now(now);
    files.set_size(handle, size)
}
