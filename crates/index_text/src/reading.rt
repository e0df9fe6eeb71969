//! Reading an index from its text.

ghost use Rattle.std.specs.Prelude.{◌≡◌, ◌≢◌, IfOk, IsErrOf};
ghost use Rattle.index_text.specs.declared.entries.Index.{Index};
ghost use Rattle.index_text.specs.Rules.{IsIndex, EntriesInRange};
ghost use Rattle.index_text.specs.Spelling.{index_text};
ghost use Rattle.per_base.specs.Fields.{many};
ghost use Rattle.index_text.specs.Reading.{Gives, entry_at, header_at, index_of};

use crate::entries::{Index, IndexEntry, MAX_ENTRIES};
use crate::errors::IndexError;
use crate::fields::{blocks_of, changed_of, hash_of, info_of, kind_from, len_of, name_of};
use crate::rules::{blocks_are_distinct, names_ascend};
use per_base::{Sequence, StoreKind, byte_of, u16_of};
use std::alloc::Global;

/// The index that the bytes spell, in format 1 or format 2.
///
/// # Errors
///
/// `NotAnIndex` exactly where the bytes are the text of no index; `OutOfMemory`.
pub fn read_index(alloc: Global, bytes: &[u8]) -> Result<Index, IndexError>
    // What is read keeps the rules, with numbers within their types, and these bytes are its text.
    ensures rules { IfOk result (λ index. IsIndex index × EntriesInRange index) }
    ensures spelled { IfOk result (λ index. bytes.now ≡ index_text index) }

    // What is refused is the text of no index.
    ensures refused { IsErrOf result IndexError.NotAnIndex
        → (index : Index) → IsIndex index → EntriesInRange index → bytes.now ≢ index_text index }

    // Which index it is, as a function of the bytes, unless memory ran out.
    ensures read { Gives (λ index. index) result (index_of bytes.now) }
{
    read_whole(alloc, bytes)
}

#[tactic(auto, unfolding(crate::specs::Reading::index_of))]
fn read_whole(alloc: Global, bytes: &[u8]) -> Result<Index, IndexError>
    ensures { Gives (λ index. index) result (index_of bytes.now) }
{
    let (header, rest) = header_of(bytes)?;
    let (entries, rest) = entries_of(alloc, header, rest)?;
    if !rest.is_empty() || !names_ascend(entries.as_slice()) {
        return Err(IndexError::NotAnIndex);
    }
    if !blocks_are_distinct(alloc, entries.as_slice())? {
        return Err(IndexError::NotAnIndex);
    }
    Ok(Index {
        format: header.format,
        kind: header.kind,
        entries: Sequence::new(entries),
    })
}

/// What stands before the entries.
#[derive(Clone, Copy)]
pub(crate) struct Header {
    format: u8,
    kind: StoreKind,
    count: u16,
}

#[tactic(auto, unfolding(crate::specs::Reading::header_at))]
fn header_of(bytes: &[u8]) -> Result<(Header, &[u8]), IndexError>
    ensures { Gives (λ x. (x.0, x.1.now)) result (header_at bytes.now) }
{
    let (format, rest) = byte_of(bytes)?;
    let (code, rest) = byte_of(rest)?;
    let kind = kind_from(code)?;
    let (count, rest) = u16_of(rest)?;
    if format != 1 && format != 2 {
        return Err(IndexError::NotAnIndex);
    }
    if count > MAX_ENTRIES {
        return Err(IndexError::NotAnIndex);
    }
    let header = Header {
        format,
        kind,
        count,
    };
    Ok((header, rest))
}

fn entries_of(
    alloc: Global,
    header: Header,
    bytes: &[u8],
) -> Result<(Vec<IndexEntry>, &[u8]), IndexError>
    ensures { Gives (λ x. (x.0.items, x.1.now)) result (many (entry_at header.format header.kind) header.count
        bytes.now) }
{
    let mut entries = Vec::new(alloc);
    let mut rest = bytes;
    for _ in 0..header.count {
        let (entry, after) = entry_of(alloc, header.format, header.kind, rest)?;
        entries.push(entry)?;
        rest = after;
    }
    Ok((entries, rest))
}

#[tactic(auto, unfolding(crate::specs::Reading::entry_at))]
fn entry_of(
    alloc: Global,
    format: u8,
    kind: StoreKind,
    bytes: &[u8],
) -> Result<(IndexEntry, &[u8]), IndexError>
    ensures { Gives (λ x. (x.0, x.1.now)) result (entry_at format kind bytes.now) }
{
    let (name, rest) = name_of(alloc, bytes)?;
    let (info, rest) = info_of(kind, rest)?;
    let (changed, rest) = changed_of(format, rest)?;
    let (len, rest) = len_of(kind, rest)?;
    let (hash, rest) = hash_of(rest)?;
    let (blocks, rest) = blocks_of(alloc, len, rest)?;
    let entry = IndexEntry {
        name,
        info,
        changed,
        len,
        hash,
        blocks,
    };
    Ok((entry, rest))
}
