//! The openings of files.

ghost use Rattle.std.specs.Prelude.{◌≡◌, ◌≢◌, ◌≤◌, ◌^◌, None, Some, IfErr, IfOk, IsTrue, OnErr, OnOk};
ghost use Rattle.per_base.specs.Maps.{element_at, has};
ghost use Rattle.per_base.specs.Refusals.{IsRefusal, NeedsMemory};
ghost use Rattle.file_handles.specs.Sessions.{room_for};
ghost use Rattle.file_handles.specs.Opening as opening;

use crate::handle::{blocking, free_number};
use crate::map::{
    add_file_and_handle, add_handle, empty_file, len_of, name_len, opened_len, reopen_file,
};
use crate::table::{FILES, FileTable, HANDLES};
use file_core::{Cursor, Room, is_bad_mode, writes};
use per_base::{Holder, Limit, Name, OpenKind, OpenMode, PerError, Unit};

impl FileTable {
    /// Checks whether a file can be opened with this kind (to read, to write or both) and mode (the flags). Space is
    /// not checked. Changes nothing.
    ///
    /// Errors, in this order: `InvalidOpenMode` where the flags contradict one another or ask a reader to change the
    /// file; `IllegalWriteAccess` where the kind writes and the storage is read-only; `FileNotFound` where the kind is
    /// Read and the file is missing; `IntegrityCorrupted` where it is unreadable; `ResourceBusy` with the lowest
    /// conflicting handle; `LimitReached` with `Handles`, then with `Elements`. `OutOfMemory` comes only
    /// instead of `IntegrityCorrupted`.
    pub fn can_open(&self, name: &Name, kind: OpenKind, mode: OpenMode) -> Result<(), PerError>
        // Nothing refuses the opening, or the error is the one that is due.
        ensures ok { OnOk result (opening.can_open self.now.storage self.now.session name.now kind mode ≡ None) }
        ensures refused { IfErr result (λ error. error ≢ PerError.OutOfMemory
            → opening.can_open self.now.storage self.now.session name.now kind mode ≡ Some error) }
        // Memory runs out only for the names that `IntegrityCorrupted` carries.
        ensures memory { IfErr result (λ error. error ≡ PerError.OutOfMemory
            → opening.can_open self.now.storage self.now.session name.now kind mode
            ≡ Some (PerError.IntegrityCorrupted (Unit.Part self.now.storage.name name.now))) }
    {
        if is_bad_mode(kind, mode) {
            return Err(PerError::InvalidOpenMode);
        }
        if writes(kind) && self.storage.read_only {
            return Err(PerError::IllegalWriteAccess);
        }
        if !writes(kind) && !self.file_exists(name) {
            return Err(PerError::FileNotFound);
        }
        if self.is_unreadable(name) {
            return Err(self.damaged(name));
        }
        if let Some(number) = blocking(kind, name, &self.handles) {
            return Err(PerError::ResourceBusy {
                holder: Holder::Handle(number),
            });
        }
        if self.handles.len() >= HANDLES {
            return Err(PerError::LimitReached {
                which: Limit::Handles,
            });
        }
        if let Some(error) = self.too_many(name) {
            return Err(error);
        }
        Ok(())
    }

    /// Opens a file with this kind and mode at the moment `now`, and gives the number of its handle, the lowest free
    /// one. A missing file is created empty, unless it is opened only to read.
    ///
    /// The flags of the mode: the position starts at 0, or with `AT_THE_END` at the size that the opening leaves;
    /// `TRUNCATE` empties the file; with `APPEND` each write goes to the end.
    ///
    /// # Errors
    ///
    /// Those of `can_open`, then `OutOfStorageSpace` where an empty file of a missing name would exceed the maximum;
    /// `OutOfMemory`.
    #[tactic(auto, using(crate::specs::lemmas::Opens::refused_first, crate::specs::lemmas::Opens::refused_space))]
    pub fn open_file(
        &mut self,
        name: &Name,
        kind: OpenKind,
        mode: OpenMode,
        now: u64,
    ) -> Result<u32, PerError>
        // The number of the handle and the session after the call, or the refusal that is due, are what `open_file`
        // gives for the session before.
        ensures ok { IfOk result (λ number. opening.open_file self.old.storage self.old.session name.now kind mode now
            ≡ Ok (number, self.new.session)) }
        ensures refused { IfErr result (λ error. IsRefusal
            (opening.open_file self.old.storage self.old.session name.now kind mode now) error) }
        // Memory runs out where an opening is due, or for the names that `IntegrityCorrupted` carries.
        ensures memory { IfErr result (λ error. error ≡ PerError.OutOfMemory
            → NeedsMemory (opening.open_file self.old.storage self.old.session name.now kind mode now)) }
        ensures unchanged { OnErr result (self.new ≡ self.old) }
        // The moment is then this one, and the storage stays.
        ensures storage { self.new.storage ≡ self.old.storage }
        ensures moment { OnOk result (self.new.moment ≡ now) }
    {
        if let Err(error) = self.can_open(name, kind, mode) {
            return Err(error);
        }
        if let Some(error) = self.no_room_to_create(name) {
            return Err(error);
        }
        if self.file_exists(name) {
            self.open_present(name, kind, mode, now)
        } else {
            self.open_missing(name, kind, mode, now)
        }
    }

    /// Opens a file that is there and that nothing refuses.
    fn open_present(
        &mut self,
        name: &Name,
        kind: OpenKind,
        mode: OpenMode,
        now: u64,
    ) -> Result<u32, PerError>
        requires free { opening.can_open self.old.storage self.old.session name.now kind mode ≡ None }
        requires there { IsTrue (has self.old.session.files name.now) }
        ensures ok { IfOk result (λ number. opening.open_file self.old.storage self.old.session name.now kind mode now
            ≡ Ok (number, self.new.session)) }
        ensures memory { IfErr result (λ error. error ≡ PerError.OutOfMemory) }
        ensures unchanged { OnErr result (self.new ≡ self.old) }
        ensures storage { self.new.storage ≡ self.old.storage }
        ensures moment { OnOk result (self.new.moment ≡ now) }
    {
        let number = free_number(&self.handles);
        let before = len_of(&self.files, name);
        let size = opened_len(before, self.storage.read_only, mode);
        let cursor = Cursor::new(kind, mode, size);
        add_handle(&mut self.handles, number, name, cursor)?;
        reopen_file(
            self.alloc,
            &mut self.files,
            name,
            self.storage.read_only,
            mode,
            now,
        );
        self.size -= before - size;
        self.moment = now;
        Ok(number)
    }

    /// Creates an empty file that is missing and that nothing refuses, and opens it.
    fn open_missing(
        &mut self,
        name: &Name,
        kind: OpenKind,
        mode: OpenMode,
        now: u64,
    ) -> Result<u32, PerError>
        requires free { opening.can_open self.old.storage self.old.session name.now kind mode ≡ None }
        requires missing { element_at self.old.session.files name.now ≡ None }
        requires space { opening.no_room_to_create self.old.storage self.old.session.files name.now ≡ None }
        ensures ok { IfOk result (λ number. opening.open_file self.old.storage self.old.session name.now kind mode now
            ≡ Ok (number, self.new.session)) }
        ensures memory { IfErr result (λ error. error ≡ PerError.OutOfMemory) }
        ensures unchanged { OnErr result (self.new ≡ self.old) }
        ensures storage { self.new.storage ≡ self.old.storage }
        ensures moment { OnOk result (self.new.moment ≡ now) }
    {
        let number = free_number(&self.handles);
        let empty = empty_file(self.alloc, now);
        let extra = name_len(name);
        let cursor = Cursor::new(kind, mode, 0);
        add_file_and_handle(
            &mut self.files,
            &mut self.handles,
            name,
            empty,
            number,
            cursor,
        )?;
        self.size += extra;
        self.moment = now;
        Ok(number)
    }

    /// What refuses to create an empty file of a missing name.
    #[tactic(auto, using(crate::specs::lemmas::Entries::name_fits))]
    fn no_room_to_create(&self, name: &Name) -> Option<PerError>
        ensures { result ≡ opening.no_room_to_create self.now.storage self.now.session.files name.now }
    {
        if self.file_exists(name) {
            return None;
        }
        let needed = self.size + name.as_str().len() as u64;
        if needed > self.storage.maximum {
            return Some(PerError::OutOfStorageSpace {
                needed,
                allowed: self.storage.maximum,
            });
        }
        None
    }

    /// Checks whether a content of this length in bytes would fit under this name.
    ///
    /// # Errors
    ///
    /// `LimitReached` with `FileBytes` where the length is above 1,048,576; `OutOfStorageSpace` where the storage with
    /// this file at that length would exceed its maximum. Changes nothing, and does not allocate.
    pub fn would_fit(&self, name: &Name, len: u64) -> Result<(), PerError>
        // It fits where nothing refuses it; else the error is what refuses it.
        ensures ok { OnOk result (opening.would_fit self.now.storage self.now.session.files name.now len ≡ None) }
        ensures refused { IfErr result (λ error. opening.would_fit self.now.storage self.now.session.files name.now len
            ≡ Some error) }
    {
        match self.room_for(name).too_long(len) {
            Some(error) => Err(error),
            None => Ok(()),
        }
    }

    /// How many bytes all but the content of this file take, and how many the storage may have.
    #[tactic(auto, using(crate::specs::lemmas::Entries::len_fits, crate::specs::lemmas::Entries::name_fits))]
    pub(crate) fn room_for(&self, name: &Name) -> Room
        ensures room { result ≡ room_for self.now.session.files name.now self.now.storage.maximum }
        ensures bounded { result.others ≤ 2 ^ 32 }
    {
        let others = match self.files.get(name) {
            Some(file) => self.size - u64::from(file.len()),
            None => self.size + name.as_str().len() as u64,
        };
        Room {
            others,
            allowed: self.storage.maximum,
        }
    }

    /// Whether there is a file of this name. Does not allocate.
    pub fn file_exists(&self, name: &Name) -> bool
        ensures { result ≡ has self.now.session.files name.now }
    {
        self.files.contains_key(name)
    }

    /// Whether there is a file of this name that cannot be read.
    pub(crate) fn is_unreadable(&self, name: &Name) -> bool
        ensures { result ≡ opening.is_unreadable (element_at self.now.session.files name.now) }
    {
        match self.files.get(name) {
            Some(file) => !file.is_good(),
            None => false,
        }
    }

    /// That the file of this name is damaged.
    fn damaged(&self, name: &Name) -> PerError
        ensures { result ≢ PerError.OutOfMemory → result ≡ PerError.IntegrityCorrupted
            (Unit.Part self.now.storage.name name.now) }
    {
        let (Ok(storage), Ok(file)) = (self.storage.name.copy(), name.copy()) else {
            return PerError::OutOfMemory;
        };
        PerError::IntegrityCorrupted {
            unit: Unit::Part(storage, file),
        }
    }

    /// Whether one more file would be one too many.
    pub(crate) fn too_many(&self, name: &Name) -> Option<PerError>
        ensures { result ≡ opening.too_many self.now.session.files name.now }
    {
        if !self.file_exists(name) && self.files.len() >= FILES {
            return Some(PerError::LimitReached {
                which: Limit::Elements,
            });
        }
        None
    }
}
