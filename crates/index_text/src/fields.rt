//! The fields of an entry, each read from the start of what is left of a text. The answer is the field and the bytes
//! after it, or `NotAnIndex` where no such field stands there.

ghost use Rattle.std.specs.Prelude.{◌≡◌};
ghost use Rattle.std.specs.Int.{w32};
ghost use Rattle.per_base.specs.Names.{is_name};
ghost use Rattle.index_text.specs.Rules.{max_len};
ghost use Rattle.per_base.specs.Fields.{bytes_at, many, number_at, only_if};
ghost use Rattle.per_base.specs.Contents.{blocks_for};
ghost use Rattle.index_text.specs.Reading.{Gives, cause_at, coded_cause, changed_at, file_info_at, info_at, coded_kind};
ghost use Rattle.index_text.specs.Reading.{len_at, name_at};

use crate::entries::{HASH_BYTES, MAX_FILE_BYTES, MAX_KEY_BYTES};
use crate::errors::IndexError;
use per_base::{
    BLOCK, Cause, FileInfo, Name, Numbers, PerError, StoreKind, byte_of, bytes_of, u32_of, u64_of,
};
use std::alloc::Global;
use std::str;

/// A name, after one byte of length.
#[tactic(auto, unfolding(crate::specs::Reading::name_at))]
pub fn name_of(alloc: Global, bytes: &[u8]) -> Result<(Name, &[u8]), IndexError>
    ensures { Gives (λ x. (x.0, x.1.now)) result (name_at bytes.now) }
{
    let (len, rest) = byte_of(bytes)?;
    let (text, rest) = bytes_of(len as usize, rest)?;
    let name = name_from(alloc, text)?;
    Ok((name, rest))
}

fn name_from(alloc: Global, bytes: &[u8]) -> Result<Name, IndexError>
    ensures { Gives (λ name. name) result (only_if (is_name bytes.now) bytes.now) }
{
    let Ok(text) = str::from_utf8(bytes) else {
        return Err(IndexError::NotAnIndex);
    };
    match Name::new(alloc, text) {
        Ok(name) => Ok(name),
        Err(PerError::BadName) => Err(IndexError::NotAnIndex),
        Err(_) => Err(IndexError::OutOfMemory),
    }
}

/// The kind of storage of which this byte is the code: 1 of keys, 2 of files; `NotAnIndex` of any other byte.
pub fn kind_from(code: u8) -> Result<StoreKind, IndexError>
    ensures { Gives (λ kind. kind) result (coded_kind code) }
{
    match code {
        1 => Ok(StoreKind::Keys),
        2 => Ok(StoreKind::Files),
        _ => Err(IndexError::NotAnIndex),
    }
}

fn cause_from(code: u8) -> Result<Cause, IndexError>
    ensures { Gives (λ cause. cause) result (coded_cause code) }
{
    match code {
        1 => Ok(Cause::Installation),
        2 => Ok(Cause::Update),
        3 => Ok(Cause::Reset),
        4 => Ok(Cause::Recovery),
        5 => Ok(Cause::Application),
        _ => Err(IndexError::NotAnIndex),
    }
}

#[tactic(auto, unfolding(crate::specs::Reading::cause_at))]
fn cause_of(bytes: &[u8]) -> Result<(Cause, &[u8]), IndexError>
    ensures { Gives (λ x. (x.0, x.1.now)) result (cause_at bytes.now) }
{
    let (code, rest) = byte_of(bytes)?;
    let cause = cause_from(code)?;
    Ok((cause, rest))
}

#[tactic(auto, unfolding(crate::specs::Reading::file_info_at))]
fn file_info_of(bytes: &[u8]) -> Result<(FileInfo, &[u8]), IndexError>
    ensures { Gives (λ x. (x.0, x.1.now)) result (file_info_at bytes.now) }
{
    let (created, rest) = u64_of(bytes)?;
    let (modified, rest) = u64_of(rest)?;
    let (accessed, rest) = u64_of(rest)?;
    let (creation, rest) = cause_of(rest)?;
    let (modification, rest) = cause_of(rest)?;
    let info = FileInfo {
        created,
        modified,
        accessed,
        creation,
        modification,
    };
    Ok((info, rest))
}

/// The info of a file; a key has none.
#[tactic(auto, unfolding(crate::specs::Reading::info_at))]
pub fn info_of(kind: StoreKind, bytes: &[u8]) -> Result<(Option<FileInfo>, &[u8]), IndexError>
    ensures { Gives (λ x. (x.0, x.1.now)) result (info_at kind bytes.now) }
{
    match kind {
        StoreKind::Keys => Ok((None, bytes)),
        StoreKind::Files => {
            let (info, rest) = file_info_of(bytes)?;
            Ok((Some(info), rest))
        }
    }
}

/// The generation of the last change; format 1 has none.
#[tactic(auto, unfolding(crate::specs::Reading::changed_at))]
pub fn changed_of(format: u8, bytes: &[u8]) -> Result<(u64, &[u8]), IndexError>
    ensures { Gives (λ x. (x.0, x.1.now)) result (changed_at format bytes.now) }
{
    if format == 2 {
        Ok(u64_of(bytes)?)
    } else {
        Ok((0, bytes))
    }
}

fn max_len_of(kind: StoreKind) -> u32
    ensures { result ≡ max_len kind }
{
    match kind {
        StoreKind::Keys => MAX_KEY_BYTES,
        StoreKind::Files => MAX_FILE_BYTES,
    }
}

/// The length of a content in bytes, no more than the kind allows.
#[tactic(auto, unfolding(crate::specs::Reading::len_at))]
pub fn len_of(kind: StoreKind, bytes: &[u8]) -> Result<(u32, &[u8]), IndexError>
    ensures { Gives (λ x. (x.0, x.1.now)) result (len_at kind bytes.now) }
{
    let (len, rest) = u32_of(bytes)?;
    if len > max_len_of(kind) {
        return Err(IndexError::NotAnIndex);
    }
    Ok((len, rest))
}

/// A hash, of 32 bytes.
pub fn hash_of(bytes: &[u8]) -> Result<([u8; 32], &[u8]), IndexError>
    ensures { Gives (λ x. (x.0, x.1.now)) result (bytes_at 32 bytes.now) }
{
    let (front, rest) = bytes_of(HASH_BYTES, bytes)?;
    let mut hash = [0; HASH_BYTES];
    hash.copy_from_slice(front);
    Ok((hash, rest))
}

/// The block numbers of a content of `len` bytes, in four bytes each.
pub fn blocks_of(alloc: Global, len: u32, bytes: &[u8]) -> Result<(Numbers, &[u8]), IndexError>
    ensures { Gives (λ x. (x.0, x.1.now)) result (many (number_at w32) (blocks_for len) bytes.now) }
{
    let (blocks, rest) = numbers_of(alloc, len.div_ceil(BLOCK as u32), bytes)?;
    Ok((Numbers::new(blocks), rest))
}

fn numbers_of(alloc: Global, count: u32, bytes: &[u8]) -> Result<(Vec<u32>, &[u8]), IndexError>
    ensures { Gives (λ x. (x.0.items, x.1.now)) result (many (number_at w32) count bytes.now) }
{
    let mut numbers = Vec::new(alloc);
    let mut rest = bytes;
    for _ in 0..count {
        let (number, after) = u32_of(rest)?;
        numbers.push(number)?;
        rest = after;
    }
    Ok((numbers, rest))
}
