//! What differs between the stored files and the working ones.

ghost use Rattle.std.specs.Prelude.{◌≡◌, ◌++◌, List, [], ◌∷◌, ℕ, map, false, true, IfOk, OnOk, IsTrue, Some};
ghost use Rattle.std.specs.Option.{option_copied, option_map, option_to_list};
ghost use Rattle.per_base.specs.declared.elements.Element.{Element};
ghost use Rattle.per_base.specs.Maps.{Map, element_at};
ghost use Rattle.per_base.specs.Contents.{same_content};
ghost use Rattle.element_state.specs.Changes as changes;
ghost use Rattle.element_state.specs.Views.{element_of};
ghost use Rattle.element_maps.specs.Differences as differences;
ghost use Rattle.element_maps.specs.Sessions.{same_map};
ghost use Rattle.file_handles.specs.Lending.{bytes_there, filled};
ghost use Rattle.file_storage.specs.FileSessions.{AreAsStored};
ghost use Rattle.file_storage.specs.Walks.{bare, walked};

use file_core::File;
use per_base::{Bytes, Change, Content, Entry, FileInfo, Fresh, Name};
use std::alloc::{AllocError, Global};
use std::cmp::Ordering;
use std::collections::BTreeMap;

/// Whether the working files are the stored ones. Does not allocate.
pub fn are_same(entries: &[Entry], files: &BTreeMap<Name, File>) -> bool
    // The same names, and the same info, length and content under each.
    ensures { result ≡ same_map (map element_of entries.now) files.now.entries }
{
    let mut rest = entries;
    for (name, file) in files {
        let Some((entry, more)) = rest.split_first() else {
            return false;
        };
        if entry.name != *name || !is_same(entry, file) {
            return false;
        }
        rest = more;
    }
    rest.is_empty()
}

/// The changes that make the stored files (`entries`) into the working ones (`files`), in the order of the names,
/// without the bytes that they put.
pub fn differences(
    alloc: Global,
    entries: &[Entry],
    files: &BTreeMap<Name, File>,
) -> Result<Vec<Change>, AllocError>
    ensures { IfOk result (λ list. list.items
        ≡ map bare (walked files.now.entries (map element_of entries.now))) }
{
    let mut list = Vec::new(alloc);
    let mut rest = entries;
    for (name, file) in files {
        rest = pass(alloc, &mut list, rest, name, file)?;
    }
    remove_all(&mut list, rest)?;
    Ok(list)
}

/// Appends the changes that remove these files.
fn remove_all(list: &mut Vec<Change>, entries: &[Entry]) -> Result<(), AllocError>
    ensures { OnOk result (list.new.items ≡ list.old.items ++ map (λ e. Change.Remove e.name) entries.now) }
{
    for entry in entries {
        list.push(Change::Remove(entry.name.copy()?))?;
    }
    Ok(())
}

/// The changes up to the working file of this name, and at it; what is given back of the entries follows it.
fn pass<'a>(
    alloc: Global,
    list: &mut Vec<Change>,
    entries: &'a [Entry],
    name: &Name,
    file: &File,
) -> Result<&'a [Entry], AllocError>
    ensures { IfOk result (λ rest. (files : Map) → list.new.items
        ++ map bare (walked files (map element_of rest.now))
        ≡ list.old.items ++ map bare (walked ((name.now, file.now) ∷ files) (map element_of entries.now))) }
{
    let mut rest = entries;
    while let Some((entry, more)) = rest.split_first() {
        match entry.name.cmp(name) {
            Ordering::Less => list.push(Change::Remove(entry.name.copy()?))?,
            Ordering::Equal => {
                meet(alloc, list, entry, file)?;
                return Ok(more);
            }
            Ordering::Greater => break,
        }
        rest = more;
    }
    list.push(put(alloc, name, file)?)?;
    Ok(rest)
}

/// The change at a name that a stored file and a working file have, where they differ.
fn meet(alloc: Global, list: &mut Vec<Change>, entry: &Entry, file: &File) -> Result<(), AllocError>
    ensures { OnOk result (list.new.items ≡ list.old.items
        ++ option_to_list (option_map bare (differences.arrival entry.now.name (Some (element_of entry.now).1)
        file.now))) }
{
    if is_same(entry, file) {
        return Ok(());
    }
    list.push(replacement(alloc, entry, file)?)?;
    Ok(())
}

/// The change of a stored file that differs: its info alone where its bytes are the same.
fn replacement(alloc: Global, entry: &Entry, file: &File) -> Result<Change, AllocError>
    ensures { IfOk result (λ change. change ≡ bare (differences.replacement entry.now.name (element_of entry.now).1
        file.now)) }
{
    if has_same_bytes(entry, file) {
        return Ok(Change::Touch(entry.name.copy()?, file.info()));
    }
    put(alloc, &entry.name, file)
}

/// A file, as a change without its bytes.
fn put(alloc: Global, name: &Name, file: &File) -> Result<Change, AllocError>
    ensures { IfOk result (λ change. change ≡ bare (differences.put name.now file.now)) }
{
    let name = name.copy()?;
    Ok(Change::Put(Fresh {
        name,
        info: Some(file.info()),
        bytes: Bytes::new(Vec::new(alloc)),
    }))
}

/// Copies the bytes of the files that the changes put into those changes.
pub fn copy_contents(
    alloc: Global,
    files: &BTreeMap<Name, File>,
    changes: &mut Vec<Change>,
) -> Result<(), AllocError>
    ensures { OnOk result (changes.new.items ≡ map (filled files.now.entries) changes.old.items) }
{
    for change in changes.iter_mut() {
        copy_content(alloc, files, change)?;
    }
    Ok(())
}

/// Copies the bytes of the file that the change puts into it.
fn copy_content(
    alloc: Global,
    files: &BTreeMap<Name, File>,
    change: &mut Change,
) -> Result<(), AllocError>
    ensures { OnOk result (change.new ≡ filled files.now.entries change.old) }
{
    if let Change::Put(fresh) = change {
        if let Some(bytes) = bytes_of(files, &fresh.name) {
            fresh.bytes = Bytes::new(Vec::from_slice(alloc, bytes)?);
        }
    }
    Ok(())
}

/// The bytes of the file of this name, where it is there and readable.
fn bytes_of<'a>(files: &'a BTreeMap<Name, File>, name: &Name) -> Option<&'a [u8]>
    ensures { option_copied result ≡ bytes_there (element_at files.now.entries name.now) }
{
    match files.get(name)?.content() {
        Content::Good(bytes) => Some(bytes.as_slice()),
        Content::Bad(_) => None,
    }
}

/// Whether both are the same in all.
fn is_same(entry: &Entry, file: &File) -> bool
    ensures { result ≡ changes.same_element (element_of entry.now).1 file.now }
{
    is_same_info(entry.info, file.info())
        && entry.len == file.len()
        && is_same_content(&entry.content, file.content())
}

/// Whether both infos are the same.
fn is_same_info(old: Option<FileInfo>, new: FileInfo) -> bool
    ensures { result ≡ changes.same_info old (Some new) }
{
    old == Some(new)
}

/// Whether both contents are the same, with the same salvage where they cannot be read.
fn is_same_content(old: &Content, new: &Content) -> bool
    ensures { result ≡ same_content old.now new.now }
{
    match (old, new) {
        (Content::Good(old), Content::Good(new)) => old.as_slice() == new.as_slice(),
        (Content::Bad(None), Content::Bad(None)) => true,
        (Content::Bad(Some(old)), Content::Bad(Some(new))) => old.as_slice() == new.as_slice(),
        _ => false,
    }
}

/// Whether both can be read, and have the same bytes.
fn has_same_bytes(entry: &Entry, file: &File) -> bool
    ensures { result ≡ differences.same_bytes (element_of entry.now).1 file.now }
{
    entry.len == file.len() && has_same_value(&entry.content, file.content())
}

/// Whether both contents can be read, and are the same bytes.
fn has_same_value(old: &Content, new: &Content) -> bool
    ensures { result ≡ differences.same_value old.now new.now }
{
    match (old, new) {
        (Content::Good(old), Content::Good(new)) => old.as_slice() == new.as_slice(),
        _ => false,
    }
}
