//! The table of working files and handles.

ghost use Rattle.std.specs.Prelude.{◌≡◌, ◌≤◌, ◌<◌, ℕ, [], None, length, IfSome, IsSome, IsTrue, MatchOption};
ghost use Rattle.per_base.specs.Maps.{element_at, size_of};
ghost use Rattle.per_base.specs.Contents.{is_readable};
ghost use Rattle.file_handles.specs.Sessions.{IsHeldAt, free_number, handle_at, lowest, open_at, with_cursor};
ghost use Rattle.file_handles.specs.Tables.{AreFiles, IsTable, Table};

use crate::handle::Handle;
use crate::map::set_cursor;
use crate::storage::Storage;
use file_core::{Cursor, File};
use per_base::Name;
use std::alloc::Global;
use std::collections::BTreeMap;
use std::marker::Model;

/// The greatest number of files of a storage.
pub const FILES: usize = 1_024;

/// The greatest number of open handles of a storage.
pub const HANDLES: usize = 64;

/// The greatest number of bytes that a storage may be allowed.
pub const STORAGE_BYTES: u64 = 4_194_304;

/// The working files of a storage, the handles on them, and the moment last given, in seconds, which changes record.
/// Contracts see it as a `Table`.
#[derive(Drop)]
pub struct FileTable {
    pub(crate) alloc: Global,
    pub(crate) storage: Storage,
    pub(crate) files: BTreeMap<Name, File>,
    pub(crate) handles: BTreeMap<u32, Handle>,
    pub(crate) size: u64,
    pub(crate) moment: u64,
}

impl Model for FileTable {
    ghost use Rattle.std.specs.Prelude.{◌≡◌};
    ghost use Rattle.per_base.specs.Maps.{size_of};
    ghost use Rattle.file_handles.specs.Tables.{IsTable, Table};

    ghost Value = { Table };

    ghost view = { λ t. record {
      storage = t.storage;
      session =
          record { files = t.files.entries; handles = t.handles.entries };
      moment = t.moment;
    } };

    ghost invariant = { λ t. IsTable t.storage t.files.entries t.handles.entries × (t.size ≡ size_of t.files.entries) };
}

impl FileTable {
    /// A table of these files, whose names and contents take `size` bytes, with no handle and the moment 0.
    pub fn new(alloc: Global, storage: Storage, files: BTreeMap<Name, File>, size: u64) -> FileTable
        // The storage is allowed at most 4,194,304 bytes, the most of any storage; there are at most 1,024 files, and
        // they take no more than it is allowed. Each element of the map is a file.
        requires allowed { storage.maximum ≤ 4194304 }
        requires few { length files.entries ≤ 1024 }
        requires room { size_of files.entries ≤ storage.maximum }
        requires measured { size ≡ size_of files.entries }
        requires whole { AreFiles files.entries }
        ensures { result ≡ record {
          storage = storage;
          session =
              record { files = files.entries; handles = [] };
          moment = 0;
        } }
    {
        let _count = files.len();
        FileTable {
            alloc,
            storage,
            files,
            handles: BTreeMap::new(alloc),
            size,
            moment: 0,
        }
    }

    /// What always holds of a table: among it, that a new handle gets the lowest number from 1 that no handle has, and
    /// that a number is not open just where no handle has it.
    #[tactic(auto, using(crate::specs::lemmas::Numbers::lower_are_taken, crate::specs::lemmas::Numbers::lowest_is_free, crate::specs::lemmas::Sound::closed_without_handle))]
    pub fn invariants(&self)
        // The table is sound; all numbers below the free one are taken, and it is not; a number without an open file
        // has no handle.
        ensures table { IsTable self.now.storage self.now.session.files self.now.session.handles }
        ensures taken { (number : ℕ) → 1 ≤ number → number < free_number self.now.session.handles
            → IsSome (handle_at self.now.session.handles number) }
        ensures free { handle_at self.now.session.handles (free_number self.now.session.handles) ≡ None }
        ensures closed { (number : ℕ) → open_at self.now.session number ≡ None
            → handle_at self.now.session.handles number ≡ None }
    {
        let _size = self.size;
    }

    /// The size of the working files in bytes: names and contents. Does not allocate.
    pub fn current_size(&self) -> u64
        ensures { result ≡ size_of self.now.session.files }
    {
        self.size
    }

    /// Sets the moment, in seconds, that later writes and cuts record. Does not allocate.
    pub fn set_now(&mut self, now: u64)
        ensures { self.new ≡ record self.old { moment = now } }
    {
        self.moment = now;
    }

    /// The working files, in the order of their names. Does not allocate.
    pub fn files(&self) -> &BTreeMap<Name, File>
        ensures { result.now.entries ≡ self.now.session.files }
    {
        &self.files
    }

    /// The number of the lowest open handle of all, if one is open. Does not allocate.
    #[tactic(auto, using(crate::specs::lemmas::Numbers::lowest_first, crate::specs::lemmas::Numbers::lowest_none))]
    pub fn lowest_handle(&self) -> Option<u32>
        ensures { result ≡ lowest self.now.session.handles }
    {
        match self.handles.first_key_value() {
            Some((number, _)) => Some(*number),
            None => None,
        }
    }

    /// The handle of this number and its file; none where the number is not open.
    pub fn at(&self, number: u32) -> Option<(&Handle, &File)>
        // The handle is one of the table's and the file the one of its name, which is readable; the position is in
        // the file or at its end.
        ensures open { MatchOption result (open_at self.now.session number ≡ None)
            (λ o. open_at self.now.session number ≡ Some (o.0.now, o.1.now)) }
        ensures handle { IfSome result (λ o. handle_at self.now.session.handles number ≡ Some o.0.now) }
        ensures file { IfSome result (λ o. element_at self.now.session.files o.0.now.name ≡ Some o.1.now) }
        ensures good { IfSome result (λ o. IsTrue (is_readable o.1.now.content)) }
        ensures inside { IfSome result (λ o. o.0.now.cursor.position ≤ o.1.now.len) }
    {
        let handle = self.handles.get(&number)?;
        let file = self.files.get(&handle.name)?;
        if !file.is_good() {
            return None;
        }
        Some((handle, file))
    }

    /// Gives an open handle another position.
    pub(crate) fn put_cursor(&mut self, number: u32, cursor: Cursor)
        requires there { IsSome (handle_at self.old.session.handles number) }
        requires stands { (handle : Handle) → handle_at self.old.session.handles number ≡ Some handle
            → (cursor.kind ≡ handle.cursor.kind) × IsHeldAt (element_at self.old.session.files handle.name)
            cursor.position }
        ensures moved { (handle : Handle) → handle_at self.old.session.handles number ≡ Some handle
            → self.new.session ≡ with_cursor self.old.session number handle cursor }
        ensures storage { self.new.storage ≡ self.old.storage }
        ensures moment { self.new.moment ≡ self.old.moment }
    {
        set_cursor(&mut self.handles, number, cursor);
    }
}
