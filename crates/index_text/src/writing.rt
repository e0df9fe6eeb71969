//! Writing an index as its text.

ghost use Rattle.std.specs.Prelude.{[], ◌∷◌, ◌≡◌, ◌≤◌, ◌<◌, ◌^◌, ◌++◌, IfOk, OnOk, Some, length};
ghost use Rattle.std.specs.List.{AllByRecursion, flat_map};
ghost use Rattle.std.specs.Int.{to_le_bytes, w32, w64};
ghost use Rattle.index_text.specs.Rules.{EntryInRange, InfoInRange, InfoIsInRange, IsIndex};
ghost use Rattle.index_text.specs.Spelling.{cause_code, changed_text, entry_text, file_info_text, index_text};
ghost use Rattle.index_text.specs.Spelling.{info_text, name_text, store_kind_code};
ghost use Rattle.index_text.specs.Reading.{index_of};
ghost use Rattle.index_text.specs.Sizes.{text_length};

use crate::entries::{Index, IndexEntry};
use per_base::{Cause, FileInfo, StoreKind};
use std::alloc::{AllocError, Global};

/// Room for an entry whose name is short and whose content has few blocks; the list grows where a text needs more.
const ENTRY_ROOM: usize = 80;

/// The one text of an index that keeps the rules: format 1 or 2, at most 1,024 entries with ascending names, contents
/// within the limit of their kind, an info exactly for files, generations of last changes in format 2 alone, and no
/// block twice.
///
/// # Errors
///
/// Memory ran out.
pub fn write_index(alloc: Global, index: &Index) -> Result<Vec<u8>, AllocError>
    requires { IsIndex index.now }
    ensures text { IfOk result (λ text. text.items ≡ index_text index.now) }
    ensures length { IfOk result (λ text. length text.items ≡ text_length index.now) }

    // It spells this index, and so no other.
    ensures spells { IfOk result (λ text. index_of text.items ≡ Some index.now) }
{
    let entries = index.entries.as_slice();
    let mut text = Vec::with_capacity(alloc, entries.len() * ENTRY_ROOM)?;
    text.push(index.format)?;
    text.push(kind_byte(index.kind))?;
    text.extend_from_slice(&(entries.len() as u16).to_le_bytes())?;
    for entry in entries {
        put_entry(&mut text, index.format, entry)?;
    }
    Ok(text)
}

/// The byte that denotes a kind of storage in a text: 1 for keys, 2 for files.
pub fn kind_byte(kind: StoreKind) -> u8
    ensures { result ≡ store_kind_code kind }
{
    match kind {
        StoreKind::Keys => 1,
        StoreKind::Files => 2,
    }
}

fn cause_byte(cause: Cause) -> u8
    ensures { result ≡ cause_code cause }
{
    match cause {
        Cause::Installation => 1,
        Cause::Update => 2,
        Cause::Reset => 3,
        Cause::Recovery => 4,
        Cause::Application => 5,
    }
}

#[tactic(auto, unfolding(crate::specs::Spelling::entry_text))]
fn put_entry(text: &mut Vec<u8>, format: u8, entry: &IndexEntry) -> Result<(), AllocError>
    ensures text { OnOk result (text.new.items ≡ text.old.items ++ entry_text format entry.now) }
    ensures in_range { OnOk result (EntryInRange entry.now) }
{
    put_name(text, entry.name.as_str())?;
    put_info(text, &entry.info)?;
    put_changed(text, format, entry.changed)?;
    text.extend_from_slice(&entry.len.to_le_bytes())?;
    text.extend_from_slice(&entry.hash)?;
    put_blocks(text, entry.blocks.as_slice())?;
    Ok(())
}

/// Appends a name of at most 255 bytes, after one byte with its length.
///
/// # Errors
///
/// Memory ran out; what was appended before stays.
pub fn put_name(text: &mut Vec<u8>, name: &str) -> Result<(), AllocError>
    requires { length name.now ≤ 255 }
    ensures { OnOk result (text.new.items ≡ text.old.items ++ name_text name.now) }
{
    text.push(name.len() as u8)?;
    text.extend_from_slice(name.as_bytes())?;
    Ok(())
}

/// Appends the info of a file, and nothing for a key.
///
/// # Errors
///
/// Memory ran out; what was appended before stays.
pub fn put_info(text: &mut Vec<u8>, info: &Option<FileInfo>) -> Result<(), AllocError>
    ensures text { OnOk result (text.new.items ≡ text.old.items ++ info_text info.now) }
    // Its moments are numbers of 64 bits.
    ensures in_range { OnOk result (InfoIsInRange info.now) }
{
    match info {
        None => Ok(()),
        Some(info) => put_file_info(text, info),
    }
}

fn put_file_info(text: &mut Vec<u8>, info: &FileInfo) -> Result<(), AllocError>
    ensures text { OnOk result (text.new.items ≡ text.old.items ++ file_info_text info.now) }
    ensures in_range { OnOk result (InfoInRange info.now) }
{
    put_moment(text, info.created)?;
    put_moment(text, info.modified)?;
    put_moment(text, info.accessed)?;
    put_causes(text, info)
}

// A moment, in eight bytes.
fn put_moment(text: &mut Vec<u8>, moment: u64) -> Result<(), AllocError>
    ensures text { OnOk result (text.new.items ≡ text.old.items ++ to_le_bytes w64 moment) }
    ensures in_range { moment < 2 ^ 64 }
{
    text.extend_from_slice(&moment.to_le_bytes())
}

// What created a file and what last changed it, a byte each.
fn put_causes(text: &mut Vec<u8>, info: &FileInfo) -> Result<(), AllocError>
    ensures { OnOk result (text.new.items
        ≡ text.old.items ++ cause_code info.now.creation ∷ cause_code info.now.modification ∷ []) }
{
    text.extend_from_slice(&[cause_byte(info.creation), cause_byte(info.modification)])
}

fn put_changed(text: &mut Vec<u8>, format: u8, changed: u64) -> Result<(), AllocError>
    ensures text { OnOk result (text.new.items ≡ text.old.items ++ changed_text format changed) }
    ensures in_range { changed < 2 ^ 64 }
{
    if format == 2 {
        text.extend_from_slice(&changed.to_le_bytes())?;
    }
    Ok(())
}

fn put_blocks(text: &mut Vec<u8>, blocks: &[u32]) -> Result<(), AllocError>
    ensures text { OnOk result (text.new.items ≡ text.old.items ++ flat_map (to_le_bytes w32) blocks.now) }
    ensures in_range { AllByRecursion (λ b. b < 2 ^ 32) blocks.now }
{
    for block in blocks {
        text.extend_from_slice(&block.to_le_bytes())?;
    }
    Ok(())
}
