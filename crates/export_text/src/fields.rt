//! The fields of an element, each read from the start of what is left of a text.

ghost use Rattle.std.specs.Prelude.{◌≡◌, IsErrOf};
ghost use Rattle.per_base.specs.Fields.{only_if};
ghost use Rattle.per_base.specs.Names.{is_name};
ghost use Rattle.index_text.specs.Reading.{cause_at, coded_cause, coded_kind, file_info_at, info_at, len_at, name_at};
ghost use Rattle.index_text.specs.Rules.{max_len};
ghost use Rattle.export_text.specs.Exports.{content_at};
ghost use Rattle.export_text.specs.Views.{Gives};

use crate::contents::is_content_of;
use crate::errors::ExportError;
use crate::exports::{MAX_FILE_BYTES, MAX_KEY_BYTES};
use per_base::{
    Bytes, Cause, FileInfo, Name, PerError, StoreKind, byte_of, bytes_of, u32_of, u64_of,
};
use std::alloc::Global;
use std::str;

/// Reads a name: a byte with its length, and its bytes.
#[tactic(auto, unfolding(index_text::specs::Reading::name_at))]
pub fn name_of(alloc: Global, bytes: &[u8]) -> Result<(Name, &[u8]), ExportError>
    ensures { Gives (λ x. (x.0, x.1.now)) result (name_at bytes.now) }
{
    let (len, rest) = byte_of(bytes)?;
    let (text, rest) = bytes_of(len as usize, rest)?;
    let name = name_from(alloc, text)?;
    Ok((name, rest))
}

fn name_from(alloc: Global, bytes: &[u8]) -> Result<Name, ExportError>
    ensures { Gives (λ name. name) result (only_if (is_name bytes.now) bytes.now) }
{
    let Ok(text) = str::from_utf8(bytes) else {
        return Err(ExportError::NotAnExport);
    };
    match Name::new(alloc, text) {
        Ok(name) => Ok(name),
        Err(PerError::BadName) => Err(ExportError::NotAnExport),
        Err(_) => Err(ExportError::OutOfMemory),
    }
}

/// The kind of storage with this code.
pub fn kind_from(code: u8) -> Result<StoreKind, ExportError>
    ensures read { Gives (λ kind. kind) result (coded_kind code) }
    ensures memory { ¬ (IsErrOf result ExportError.OutOfMemory) }
{
    match code {
        1 => Ok(StoreKind::Keys),
        2 => Ok(StoreKind::Files),
        _ => Err(ExportError::NotAnExport),
    }
}

fn cause_from(code: u8) -> Result<Cause, ExportError>
    ensures { Gives (λ cause. cause) result (coded_cause code) }
{
    match code {
        1 => Ok(Cause::Installation),
        2 => Ok(Cause::Update),
        3 => Ok(Cause::Reset),
        4 => Ok(Cause::Recovery),
        5 => Ok(Cause::Application),
        _ => Err(ExportError::NotAnExport),
    }
}

#[tactic(auto, unfolding(index_text::specs::Reading::cause_at))]
fn cause_of(bytes: &[u8]) -> Result<(Cause, &[u8]), ExportError>
    ensures { Gives (λ x. (x.0, x.1.now)) result (cause_at bytes.now) }
{
    let (code, rest) = byte_of(bytes)?;
    let cause = cause_from(code)?;
    Ok((cause, rest))
}

#[tactic(auto, unfolding(index_text::specs::Reading::file_info_at))]
fn file_info_of(bytes: &[u8]) -> Result<(FileInfo, &[u8]), ExportError>
    ensures { Gives (λ x. (x.0, x.1.now)) result (file_info_at bytes.now) }
{
    let (created, rest) = u64_of(bytes)?;
    let (modified, rest) = u64_of(rest)?;
    let (accessed, rest) = u64_of(rest)?;
    let (creation, rest) = cause_of(rest)?;
    let (modification, rest) = cause_of(rest)?;
    let info = FileInfo {
        created,
        modified,
        accessed,
        creation,
        modification,
    };
    Ok((info, rest))
}

/// The info of a file; a key has none.
#[tactic(auto, unfolding(index_text::specs::Reading::info_at))]
pub fn info_of(kind: StoreKind, bytes: &[u8]) -> Result<(Option<FileInfo>, &[u8]), ExportError>
    ensures { Gives (λ x. (x.0, x.1.now)) result (info_at kind bytes.now) }
{
    match kind {
        StoreKind::Keys => Ok((None, bytes)),
        StoreKind::Files => {
            let (info, rest) = file_info_of(bytes)?;
            Ok((Some(info), rest))
        }
    }
}

/// The most bytes of an element of this kind.
pub fn max_len_of(kind: StoreKind) -> u32
    ensures { result ≡ max_len kind }
{
    match kind {
        StoreKind::Keys => MAX_KEY_BYTES,
        StoreKind::Files => MAX_FILE_BYTES,
    }
}

/// The length of a content in bytes, in four bytes: no more than the kind allows.
#[tactic(auto, unfolding(index_text::specs::Reading::len_at))]
pub fn len_of(kind: StoreKind, bytes: &[u8]) -> Result<(u32, &[u8]), ExportError>
    ensures { Gives (λ x. (x.0, x.1.now)) result (len_at kind bytes.now) }
{
    let (len, rest) = u32_of(bytes)?;
    if len > max_len_of(kind) {
        return Err(ExportError::NotAnExport);
    }
    Ok((len, rest))
}

/// Reads a content of this kind with `len` bytes, and copies it.
#[tactic(auto, unfolding(crate::specs::Exports::content_at))]
pub fn content_of(
    alloc: Global,
    kind: StoreKind,
    len: u32,
    bytes: &[u8],
) -> Result<(Bytes, &[u8]), ExportError>
    ensures { Gives (λ x. (x.0, x.1.now)) result (content_at kind len bytes.now) }
{
    let (content, rest) = bytes_of(len as usize, bytes)?;
    if !is_content_of(alloc, kind, content)? {
        return Err(ExportError::NotAnExport);
    }
    let content = Bytes::new(Vec::from_slice(alloc, content)?);
    Ok((content, rest))
}
