//! Changing one entry of a map in place.

ghost use Rattle.std.specs.Prelude.{◌≡◌, [], ℕ, ◌+◌, ◌≤◌, ◌^◌, length, None, Some, IsSome, IsTrue, IfErr, IfOk, OnErr};
ghost use Rattle.std.specs.Prelude.{OnOk, Ok, Err};
ghost use Rattle.std.specs.List.Sorted.{IsStrictlySortedBy};
ghost use Rattle.std.specs.Map.{keys_of};
ghost use Rattle.std.specs.Ordering.{nat_cmp};
ghost use Rattle.per_base.specs.declared.elements.Element.{Element};
ghost use Rattle.per_base.specs.Maps.{element_at, has, size_of, with_element, without};
ghost use Rattle.per_base.specs.Names.{name_cmp};
ghost use Rattle.per_base.specs.Refusals.{IsDue, IsRefusal};
ghost use Rattle.file_core.specs.Files as core;
ghost use Rattle.file_core.specs.Infos as infos;
ghost use Rattle.file_core.specs.Places.{writes};
ghost use Rattle.std.specs.Bool.{OnFalse, OnTrue};
ghost use Rattle.file_handles.specs.ByName.{HasSalvage, salvaged};
ghost use Rattle.file_handles.specs.Opening.{file_opened};
ghost use Rattle.file_handles.specs.Sessions.{IsFileAt, IsHeldAt, SameBeside, handle_at, with_changed, with_handle};

use crate::handle::Handle;
use file_core::{Cursor, File, Room, made};
use per_base::{Bytes, Cause, Name, OpenMode, PerError};
use std::alloc::Global;
use std::collections::BTreeMap;

/// Gives the handle of this number another cursor.
#[tactic(auto, using(crate::specs::lemmas::Entries::handle_set))]
pub fn set_cursor(handles: &mut BTreeMap<u32, Handle>, number: u32, cursor: Cursor)
    // There is such a handle; the numbers stay, and the handle alone changes.
    requires { IsSome (handle_at handles.old.entries number) }
    ensures moved { (handle : Handle) → handle_at handles.old.entries number ≡ Some handle
        → handles.new.entries ≡ with_handle handles.old.entries number (record handle { cursor = cursor }) }
    ensures keys { keys_of handles.new.entries ≡ keys_of handles.old.entries }
{
    if let Some(handle) = handles.get_mut(&number) {
        handle.cursor = cursor;
    }
}

/// The length of the file of this name, or 0.
#[tactic(auto, using(crate::specs::lemmas::Entries::len_fits))]
pub fn len_of(files: &BTreeMap<Name, File>, name: &Name) -> u64
    // It is no more than all files together take.
    ensures len { (file : Element) → element_at files.now.entries name.now ≡ Some file → result ≡ file.len }
    ensures fits { result ≤ size_of files.now.entries }
{
    match files.get(name) {
        Some(file) => u64::from(file.len()),
        None => 0,
    }
}

/// Writes a piece into the readable file of this name, and gives its new length.
#[tactic(auto, using(crate::specs::lemmas::Entries::file_set, crate::specs::lemmas::Entries::size_set, std::proofs::lemmas::Map::Steps::set_value_same))]
pub fn write_file(
    files: &mut BTreeMap<Name, File>,
    name: &Name,
    cursor: &mut Cursor,
    piece: &[u8],
    now: u64,
    room: Room,
) -> Result<u32, PerError>
    // The file is there and readable, the position is in it or at its end, and no sum of bytes overflows.
    requires held { IsHeldAt (element_at files.old.entries name.now) cursor.old.position }
    requires bounded { room.others ≤ 2 ^ 32 }
    // The file, the cursor and the error are those of a write by this cursor; all other files stay.
    ensures ok { OnOk result ((old : Element) → element_at files.old.entries name.now ≡ Some old
        → with_changed files.old.entries name.now (core.written cursor.old old piece.now now room)
        ≡ Ok (cursor.new, files.new.entries)) }
    ensures refused { IfErr result (λ error. (old : Element) → element_at files.old.entries name.now ≡ Some old
        → IsRefusal (core.written cursor.old old piece.now now room) error) }
    ensures unchanged { OnErr result ((files.new.entries ≡ files.old.entries) × (cursor.new ≡ cursor.old)) }
    ensures keys { keys_of files.new.entries ≡ keys_of files.old.entries }
    ensures beside { SameBeside files.old.entries files.new.entries name.now }
    // All files together grow by what this one does, and stay within the room; the cursor writes, and is in a file.
    ensures size { IfOk result (λ len. (old : Element) → element_at files.old.entries name.now ≡ Some old
        → size_of files.new.entries + old.len ≡ size_of files.old.entries + len) }
    ensures within { IfOk result (λ len. (old : Element) → element_at files.old.entries name.now ≡ Some old
        → room.others + old.len ≤ room.allowed → room.others + len ≤ room.allowed) }
    ensures held { OnOk result (IsHeldAt (element_at files.new.entries name.now) cursor.new.position) }
    ensures writer { OnOk result (IsTrue (writes cursor.old.kind) × (cursor.new.kind ≡ cursor.old.kind)) }
    ensures file { OnOk result (IsFileAt (element_at files.new.entries name.now)) }
    // Memory runs out only where nothing refuses the write and the piece reaches past the end.
    ensures due { IfErr result (λ error. error ≡ PerError.OutOfMemory → (old : Element)
        → element_at files.old.entries name.now ≡ Some old → IsDue (core.written cursor.old old piece.now now room)) }
    ensures memory { IfErr result (λ error. error ≡ PerError.OutOfMemory → (old : Element)
        → element_at files.old.entries name.now ≡ Some old → core.GrowsBy cursor.old old piece.now) }
{
    match files.get_mut(name) {
        Some(file) => {
            file.write(cursor, piece, now, room)?;
            Ok(file.len())
        }
        None => Err(PerError::NotOpen),
    }
}

/// Cuts the readable file of this name, and gives its new length.
#[tactic(auto, using(crate::specs::lemmas::Entries::file_set, crate::specs::lemmas::Entries::size_set, std::proofs::lemmas::Map::Steps::set_value_same))]
pub fn cut_file(
    files: &mut BTreeMap<Name, File>,
    name: &Name,
    cursor: &mut Cursor,
    size: u64,
    now: u64,
) -> Result<u32, PerError>
    // The file is there and readable, and the position is in it or at its end.
    requires { IsHeldAt (element_at files.old.entries name.now) cursor.old.position }
    // The file, the cursor and the error are those of a cut; all other files stay.
    ensures ok { OnOk result ((old : Element) → element_at files.old.entries name.now ≡ Some old
        → with_changed files.old.entries name.now (core.cut cursor.old old size now)
        ≡ Ok (cursor.new, files.new.entries)) }
    ensures refused { IfErr result (λ error. (old : Element) → element_at files.old.entries name.now ≡ Some old
        → core.cut cursor.old old size now ≡ Err error) }
    ensures unchanged { OnErr result ((files.new.entries ≡ files.old.entries) × (cursor.new ≡ cursor.old)) }
    ensures keys { keys_of files.new.entries ≡ keys_of files.old.entries }
    ensures beside { SameBeside files.old.entries files.new.entries name.now }
    ensures size { IfOk result (λ len. (old : Element) → element_at files.old.entries name.now ≡ Some old
        → size_of files.new.entries + old.len ≡ size_of files.old.entries + len) }
    ensures smaller { IfOk result (λ len. (old : Element) → element_at files.old.entries name.now ≡ Some old
        → len ≤ old.len) }
    ensures held { OnOk result (IsHeldAt (element_at files.new.entries name.now) cursor.new.position) }
    ensures writer { OnOk result (IsTrue (writes cursor.old.kind) × (cursor.new.kind ≡ cursor.old.kind)) }
    ensures file { OnOk result (IsFileAt (element_at files.new.entries name.now)) }
{
    match files.get_mut(name) {
        Some(file) => {
            file.set_size(cursor, size, now)?;
            Ok(file.len())
        }
        None => Err(PerError::NotOpen),
    }
}

/// Opens a file at a moment, and empties it where the flags say so; a read-only storage keeps it.
fn reopen(alloc: Global, file: &mut File, read_only: bool, mode: OpenMode, now: u64)
    ensures { file.new ≡ file_opened read_only mode now (Some file.old) }
{
    if read_only {
        return;
    }
    file.open(now);
    if mode.is_truncating() {
        file.replace(Bytes::new(Vec::new(alloc)), now, Cause::Application);
    }
}

/// Opens the file of this name at a moment, and empties it where the flags say so; a read-only storage keeps it.
#[tactic(auto, using(crate::specs::lemmas::Entries::file_set))]
pub fn reopen_file(
    alloc: Global,
    files: &mut BTreeMap<Name, File>,
    name: &Name,
    read_only: bool,
    mode: OpenMode,
    now: u64,
)
    // There is a file of this name; the names stay, and the file alone changes.
    requires { IsSome (element_at files.old.entries name.now) }
    ensures opened { (old : Element) → element_at files.old.entries name.now ≡ Some old
        → files.new.entries ≡ with_element files.old.entries name.now (file_opened read_only mode now (Some old)) }
    ensures keys { keys_of files.new.entries ≡ keys_of files.old.entries }
{
    if let Some(file) = files.get_mut(name) {
        reopen(alloc, file, read_only, mode, now);
    }
}

/// Adds a handle with this number and cursor on a file.
pub fn add_handle(
    handles: &mut BTreeMap<u32, Handle>,
    number: u32,
    name: &Name,
    cursor: Cursor,
) -> Result<(), PerError>
    ensures ok { OnOk result (handles.new.entries ≡ with_handle handles.old.entries number
        (record { name = name.now; cursor = cursor })) }
    ensures unchanged { OnErr result (handles.new.entries ≡ handles.old.entries) }
    // The only error is that memory ran out.
    ensures memory { IfErr result (λ error. error ≡ PerError.OutOfMemory) }
    ensures ordered { OnOk result (IsStrictlySortedBy nat_cmp (keys_of handles.new.entries)) }
    ensures few { OnOk result (length handles.new.entries ≤ length handles.old.entries + 1) }
{
    let Ok(name) = name.copy() else {
        return Err(PerError::OutOfMemory);
    };
    match handles.insert(number, Handle { name, cursor }) {
        Ok(_) => Ok(()),
        Err(_) => Err(PerError::OutOfMemory),
    }
}

/// Adds a file under a name that is missing.
pub fn add_file(files: &mut BTreeMap<Name, File>, name: &Name, file: File) -> Result<(), PerError>
    ensures ok { OnOk result (files.new.entries ≡ with_element files.old.entries name.now file) }
    ensures unchanged { OnErr result (files.new.entries ≡ files.old.entries) }
    // The only error is that memory ran out.
    ensures memory { IfErr result (λ error. error ≡ PerError.OutOfMemory) }
    ensures ordered { OnOk result (IsStrictlySortedBy name_cmp (keys_of files.new.entries)) }
    ensures few { OnOk result (length files.new.entries ≤ length files.old.entries + 1) }
{
    let Ok(name) = name.copy() else {
        return Err(PerError::OutOfMemory);
    };
    match files.insert(name, file) {
        Ok(_) => Ok(()),
        Err(_) => Err(PerError::OutOfMemory),
    }
}

/// The length that an opening leaves of a file of this length.
pub fn opened_len(before: u64, read_only: bool, mode: OpenMode) -> u64
    // So for an opening at any moment of a file that was this long; it is no longer than before.
    ensures len { (now : ℕ) (old : Element) → before ≡ old.len
        → result ≡ (file_opened read_only mode now (Some old)).len }
    ensures smaller { result ≤ before }
{
    if !read_only && mode.is_truncating() {
        return 0;
    }
    before
}

/// Adds a file under a name that is missing, and a handle on it: both, or neither where memory runs out.
#[tactic(auto, using(crate::specs::lemmas::Opens::file_put_removed))]
pub fn add_file_and_handle(
    files: &mut BTreeMap<Name, File>,
    handles: &mut BTreeMap<u32, Handle>,
    name: &Name,
    file: File,
    number: u32,
    cursor: Cursor,
) -> Result<(), PerError>
    requires { element_at files.old.entries name.now ≡ None }
    ensures files { OnOk result (files.new.entries ≡ with_element files.old.entries name.now file) }
    ensures handles { OnOk result (handles.new.entries ≡ with_handle handles.old.entries number
        (record { name = name.now; cursor = cursor })) }
    ensures files_unchanged { OnErr result (files.new.entries ≡ files.old.entries) }
    ensures handles_unchanged { OnErr result (handles.new.entries ≡ handles.old.entries) }
    // The only error is that memory ran out.
    ensures memory { IfErr result (λ error. error ≡ PerError.OutOfMemory) }
    ensures names { OnOk result (IsStrictlySortedBy name_cmp (keys_of files.new.entries)) }
    ensures few_files { OnOk result (length files.new.entries ≤ length files.old.entries + 1) }
    ensures numbers { OnOk result (IsStrictlySortedBy nat_cmp (keys_of handles.new.entries)) }
    ensures few_handles { OnOk result (length handles.new.entries ≤ length handles.old.entries + 1) }
{
    add_file(files, name, file)?;
    let added = add_handle(handles, number, name, cursor);
    if let Err(error) = added {
        remove_file(files, name);
        return Err(error);
    }
    Ok(())
}

/// Removes a file.
pub fn remove_file(files: &mut BTreeMap<Name, File>, name: &Name)
    // The names stay in order, and there are no more files than before.
    ensures gone { files.new.entries ≡ without files.old.entries name.now }
    ensures names { IsStrictlySortedBy name_cmp (keys_of files.new.entries) }
    ensures few { length files.new.entries ≤ length files.old.entries }
{
    let _file = files.remove(name);
}

/// An empty file that an application makes now.
pub fn empty_file(alloc: Global, now: u64) -> File
    ensures { result ≡ core.file_of (Some (infos.made now Cause.Application)) [] }
{
    File::new(made(now, Cause::Application), Bytes::new(Vec::new(alloc)))
}

/// The number of bytes of a name.
#[tactic(auto, using(crate::specs::lemmas::Entries::name_fits))]
pub fn name_len(name: &Name) -> u64
    // It is at most 255.
    ensures exact { result ≡ length name.now }
    ensures small { result ≤ 255 }
{
    name.as_str().len() as u64
}

/// Makes the salvage of an unreadable file its content, where there is a salvage, and answers whether it did; its
/// length stays.
#[tactic(auto, using(crate::specs::lemmas::Named::salvage_len))]
fn recover(file: &mut File, now: u64) -> bool
    ensures recovered { OnTrue result (file.new ≡ salvaged now file.old) }
    ensures some { OnTrue result (HasSalvage file.old.content) }
    ensures unchanged { OnFalse result (file.new ≡ file.old) }
    ensures none { OnFalse result (core.NoSalvage file.old.content) }
    ensures len { file.new.len ≡ file.old.len }
    ensures file { core.IsFile file.new }
{
    let _len = file.len();
    file.recover(now)
}

/// Makes the salvage of the file of this name its content, where it is unreadable and there is a salvage, and answers
/// whether it did; its length stays.
#[tactic(auto, using(crate::specs::lemmas::Entries::file_set, crate::specs::lemmas::Entries::size_set, std::proofs::lemmas::Map::Steps::set_value_same))]
pub fn recover_in(files: &mut BTreeMap<Name, File>, name: &Name, now: u64) -> bool
    // Where there is a salvage it is the content; else nothing changed. Names and sizes stay, and every other file;
    // what the name has, if anything, is a file.
    ensures recovered { OnTrue result ((old : Element) → element_at files.old.entries name.now ≡ Some old
        → files.new.entries ≡ with_element files.old.entries name.now (salvaged now old)) }
    ensures some { OnTrue result ((old : Element) → element_at files.old.entries name.now ≡ Some old
        → HasSalvage old.content) }
    ensures unchanged { OnFalse result (files.new.entries ≡ files.old.entries) }
    ensures none { OnFalse result ((old : Element) → element_at files.old.entries name.now ≡ Some old
        → core.NoSalvage old.content) }
    ensures keys { keys_of files.new.entries ≡ keys_of files.old.entries }
    ensures size { size_of files.new.entries ≡ size_of files.old.entries }
    ensures beside { SameBeside files.old.entries files.new.entries name.now }
    ensures file { IsFileAt (element_at files.new.entries name.now) }
{
    match files.get_mut(name) {
        Some(file) => recover(file, now),
        None => false,
    }
}

/// Gives the file of this name other bytes.
#[tactic(auto, using(crate::specs::lemmas::Entries::file_set))]
pub fn replace_in(
    files: &mut BTreeMap<Name, File>,
    name: &Name,
    bytes: Bytes,
    now: u64,
    cause: Cause,
)
    // There is such a file, and the bytes are at most 1,048,576, the most of a file; the names stay.
    requires there { IsTrue (has files.old.entries name.now) }
    requires small { length bytes ≤ 1048576 }
    ensures replaced { (old : Element) → element_at files.old.entries name.now ≡ Some old
        → files.new.entries ≡ with_element files.old.entries name.now (core.changed_to bytes now cause old) }
    ensures keys { keys_of files.new.entries ≡ keys_of files.old.entries }
{
    if let Some(file) = files.get_mut(name) {
        file.replace(bytes, now, cause);
    }
}
