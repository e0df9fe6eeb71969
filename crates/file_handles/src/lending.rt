//! Lending the bytes of files to the changes that put them, in place of copying them.

ghost use Rattle.std.specs.Prelude.{◌≡◌, [], None, Some, map};
ghost use Rattle.std.specs.List.{AllByRecursion};
ghost use Rattle.per_base.specs.declared.elements.Element.{Element};
ghost use Rattle.per_base.specs.Changes.{changed_name};
ghost use Rattle.per_base.specs.Maps.{element_at, with_element};
ghost use Rattle.per_base.specs.Names.{NamesAscend};
ghost use Rattle.file_core.specs.Files as core;
ghost use Rattle.file_handles.specs.Lending.{PutsReadable, all_filled, all_lent, all_put_back, bytes_there, filled};
ghost use Rattle.file_handles.specs.Lending.{lent, put_back, taken_back};

use crate::table::FileTable;
use file_core::File;
use per_base::{Bytes, Change, Fresh, Name};
use std::collections::BTreeMap;

impl FileTable {
    /// Moves the bytes of the files that the changes put out of the table and into those changes. The files are
    /// unreadable then, until `take_back` moves the bytes back. Does not allocate.
    pub fn lend(&mut self, changes: &mut Vec<Change>)
        // No handle is open; each change is of another file, and each file that one puts is there and readable.
        requires free { self.old.session.handles ≡ [] }
        requires ascend { NamesAscend changed_name changes.old.items }
        requires readable { AllByRecursion (PutsReadable self.old.session.files) changes.old.items }
        // Each change that puts a file has its bytes then, and with the changes the table is the very one that it was.
        ensures filled { changes.new.items ≡ map (filled self.old.session.files) changes.old.items }
        ensures lent { taken_back self.new changes.new.items ≡ self.old }
    {
        lend_all(&mut self.files, changes);
    }

    /// Moves the bytes of these changes into the files of their names, out of which they were lent: each is as long as
    /// its file says. Does not allocate.
    pub fn take_back(&mut self, changes: Vec<Change>)
        ensures { self.new ≡ taken_back self.old changes.items }
    {
        put_all_back(&mut self.files, changes);
    }
}

/// Moves the bytes of the files that the changes put into those changes.
fn lend_all(files: &mut BTreeMap<Name, File>, changes: &mut Vec<Change>)
    ensures files { files.new.entries ≡ all_lent files.old.entries changes.old.items }
    ensures changes { changes.new.items ≡ all_filled files.old.entries changes.old.items }
{
    for change in changes.iter_mut() {
        lend_one(files, change);
    }
}

/// Moves the bytes of the file that the change puts into it.
fn lend_one(files: &mut BTreeMap<Name, File>, change: &mut Change)
    ensures change { change.new ≡ filled files.old.entries change.old }
    ensures files { files.new.entries ≡ lent files.old.entries change.old }
{
    if let Change::Put(fresh) = change {
        if let Some(bytes) = take_from(files, &fresh.name) {
            fresh.bytes = bytes;
        }
    }
}

/// Takes the bytes out of the file of this name, where it is there and readable.
#[tactic(auto, using(crate::specs::lemmas::Entries::file_set))]
fn take_from(files: &mut BTreeMap<Name, File>, name: &Name) -> Option<Bytes>
    ensures taken { result ≡ bytes_there (element_at files.old.entries name.now) }
    ensures left { (file : Element) → element_at files.old.entries name.now ≡ Some file
        → files.new.entries ≡ with_element files.old.entries name.now (core.without_bytes file) }
    ensures none { element_at files.old.entries name.now ≡ None → files.new.entries ≡ files.old.entries }
{
    match files.get_mut(name) {
        Some(file) => file.take_bytes(),
        None => None,
    }
}

/// Moves the bytes of these changes into the files of their names.
fn put_all_back(files: &mut BTreeMap<Name, File>, changes: Vec<Change>)
    ensures { files.new.entries ≡ all_put_back files.old.entries changes.items }
{
    let mut left = changes;
    while let Some(change) = left.pop() {
        put_one_back(files, change);
    }
}

/// Moves the bytes of this change into the file of its name.
fn put_one_back(files: &mut BTreeMap<Name, File>, change: Change)
    ensures { files.new.entries ≡ put_back files.old.entries change }
{
    if let Change::Put(Fresh { name, bytes, .. }) = change {
        put_into(files, &name, bytes);
    }
}

/// Puts the bytes into the file of this name, where there is one of that length.
#[tactic(auto, using(crate::specs::lemmas::Entries::file_set))]
fn put_into(files: &mut BTreeMap<Name, File>, name: &Name, bytes: Bytes)
    ensures put { (file : Element) → element_at files.old.entries name.now ≡ Some file
        → files.new.entries ≡ with_element files.old.entries name.now (core.with_bytes bytes file) }
    ensures none { element_at files.old.entries name.now ≡ None → files.new.entries ≡ files.old.entries }
{
    if let Some(file) = files.get_mut(name) {
        file.put_bytes(bytes);
    }
}
