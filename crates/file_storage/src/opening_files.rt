//! The openings of files, and what a handle on one would be refused for.

ghost use Rattle.std.specs.Prelude.{◌≡◌, ◌≢◌, IfErr, IfOk, OnErr, OnOk, Ok, Err, Some, None};
ghost use Rattle.per_base.specs.declared.errors.Unit.TheVariants.{Part};
ghost use Rattle.per_base.specs.Refusals.{IsRefusal, NeedsMemory};
ghost use Rattle.file_handles.specs.Opening as opening;
ghost use Rattle.file_storage.specs.FileSessions.{storage_of};

use crate::files::Files;
use per_base::{Name, OpenKind, OpenMode, PerError};

impl Files {
    /// Opens a file for reading, and gives the number of the handle, the lowest free one. The file must be there.
    ///
    /// The position starts at 0, or with `AT_THE_END` in `mode` at the size of the file; the flags `TRUNCATE` and
    /// `APPEND` are for kinds that write. `now` is the moment in seconds.
    ///
    /// # Errors
    ///
    /// Those of `can_open`; `OutOfMemory`.
    pub fn open_read_only(&mut self, name: &Name, mode: OpenMode, now: u64) -> Result<u32, PerError>
        // The number of the handle and the session after the call, or the refusal that is due, are what `open_file`
        // gives for the session before.
        ensures ok { IfOk result (λ handle. opening.open_file (storage_of self.old.config) self.old.session name.now
            OpenKind.Read mode now ≡ Ok (handle, self.new.session)) }
        ensures refused { IfErr result (λ error. IsRefusal
            (opening.open_file (storage_of self.old.config) self.old.session name.now OpenKind.Read mode now) error) }
        // Memory runs out where an opening is due, or for the names that `IntegrityCorrupted` carries.
        ensures memory { IfErr result (λ error. error ≡ PerError.OutOfMemory
            → NeedsMemory (opening.open_file (storage_of self.old.config) self.old.session name.now OpenKind.Read mode
            now)) }
        // The moment is then this one, and all else but the session stays.
        ensures moment { OnOk result (self.new.moment ≡ now) }
        ensures beside { self.new ≡ record self.old { session = self.new.session; moment = self.new.moment } }
        ensures unchanged { OnErr result (self.new ≡ self.old) }
    {
        self.open_file(name, OpenKind::Read, mode, now)
    }

    /// Opens a file for writing, and gives the number of the handle, the lowest free one. A missing file is created
    /// empty.
    ///
    /// The flags of `mode`: the position starts at 0, or with `AT_THE_END` at the size that the opening leaves;
    /// `TRUNCATE` empties the file; with `APPEND` each write goes to the end. `now` is the moment in seconds.
    ///
    /// # Errors
    ///
    /// Those of `can_open`, then `OutOfStorageSpace` where an empty file of a missing name would exceed the maximum;
    /// `OutOfMemory`.
    pub fn open_write_only(
        &mut self,
        name: &Name,
        mode: OpenMode,
        now: u64,
    ) -> Result<u32, PerError>
        // The number of the handle and the session after the call, or the refusal that is due, are what `open_file`
        // gives for the session before.
        ensures ok { IfOk result (λ handle. opening.open_file (storage_of self.old.config) self.old.session name.now
            OpenKind.Write mode now ≡ Ok (handle, self.new.session)) }
        ensures refused { IfErr result (λ error. IsRefusal
            (opening.open_file (storage_of self.old.config) self.old.session name.now OpenKind.Write mode now)
            error) }
        // Memory runs out where an opening is due, or for the names that `IntegrityCorrupted` carries.
        ensures memory { IfErr result (λ error. error ≡ PerError.OutOfMemory
            → NeedsMemory (opening.open_file (storage_of self.old.config) self.old.session name.now OpenKind.Write
            mode now)) }
        // The moment is then this one, and all else but the session stays.
        ensures moment { OnOk result (self.new.moment ≡ now) }
        ensures beside { self.new ≡ record self.old { session = self.new.session; moment = self.new.moment } }
        ensures unchanged { OnErr result (self.new ≡ self.old) }
    {
        self.open_file(name, OpenKind::Write, mode, now)
    }

    /// Opens a file for reading and writing, and gives the number of the handle, the lowest free one. A missing file is
    /// created empty.
    ///
    /// The flags of `mode`: the position starts at 0, or with `AT_THE_END` at the size that the opening leaves;
    /// `TRUNCATE` empties the file; with `APPEND` each write goes to the end. `now` is the moment in seconds.
    ///
    /// # Errors
    ///
    /// Those of `can_open`, then `OutOfStorageSpace` where an empty file of a missing name would exceed the maximum;
    /// `OutOfMemory`.
    pub fn open_read_write(
        &mut self,
        name: &Name,
        mode: OpenMode,
        now: u64,
    ) -> Result<u32, PerError>
        // The number of the handle and the session after the call, or the refusal that is due, are what `open_file`
        // gives for the session before.
        ensures ok { IfOk result (λ handle. opening.open_file (storage_of self.old.config) self.old.session name.now
            OpenKind.ReadWrite mode now ≡ Ok (handle, self.new.session)) }
        ensures refused { IfErr result (λ error. IsRefusal
            (opening.open_file (storage_of self.old.config) self.old.session name.now OpenKind.ReadWrite mode now)
            error) }
        // Memory runs out where an opening is due, or for the names that `IntegrityCorrupted` carries.
        ensures memory { IfErr result (λ error. error ≡ PerError.OutOfMemory
            → NeedsMemory (opening.open_file (storage_of self.old.config) self.old.session name.now OpenKind.ReadWrite
            mode now)) }
        // The moment is then this one, and all else but the session stays.
        ensures moment { OnOk result (self.new.moment ≡ now) }
        ensures beside { self.new ≡ record self.old { session = self.new.session; moment = self.new.moment } }
        ensures unchanged { OnErr result (self.new ≡ self.old) }
    {
        self.open_file(name, OpenKind::ReadWrite, mode, now)
    }

    /// Opens a file with this kind.
    ///
    /// # Errors
    ///
    /// Those of `can_open`, then `OutOfStorageSpace` where an empty file of a missing name would exceed the maximum;
    /// `OutOfMemory`.
    pub(crate) fn open_file(
        &mut self,
        name: &Name,
        kind: OpenKind,
        mode: OpenMode,
        now: u64,
    ) -> Result<u32, PerError>
        // The number of the handle and the session after the call, or the refusal that is due, are what `open_file`
        // gives for the session before.
        ensures ok { IfOk result (λ handle. opening.open_file (storage_of self.old.config) self.old.session name.now
            kind mode now ≡ Ok (handle, self.new.session)) }
        ensures refused { IfErr result (λ error. IsRefusal
            (opening.open_file (storage_of self.old.config) self.old.session name.now kind mode now) error) }
        // Memory runs out where an opening is due, or for the names that `IntegrityCorrupted` carries.
        ensures memory { IfErr result (λ error. error ≡ PerError.OutOfMemory
            → NeedsMemory (opening.open_file (storage_of self.old.config) self.old.session name.now kind mode now)) }
        // The moment is then this one, and all else but the session stays.
        ensures moment { OnOk result (self.new.moment ≡ now) }
        ensures beside { self.new ≡ record self.old { session = self.new.session; moment = self.new.moment } }
        ensures unchanged { OnErr result (self.new ≡ self.old) }
    {
        self.table.open_file(name, kind, mode, now)
    }

    /// Checks whether a file can be opened with this kind (to read, to write or both) and mode (the flags). Space is
    /// not checked. Changes nothing.
    ///
    /// Errors, in this order: `InvalidOpenMode` where the flags contradict one another or ask a reader to change the
    /// file; `IllegalWriteAccess` where the kind writes and the storage is read-only; `FileNotFound` where the kind is
    /// Read and the file is missing; `IntegrityCorrupted` where it is unreadable; `ResourceBusy` with the lowest
    /// conflicting handle; `LimitReached` with `Handles`, then with `Elements`. `OutOfMemory` comes only
    /// instead of `IntegrityCorrupted`.
    pub fn can_open(&self, name: &Name, kind: OpenKind, mode: OpenMode) -> Result<(), PerError>
        // Nothing refuses the opening, or the error is the one that is due.
        ensures ok { OnOk result (opening.can_open (storage_of self.now.config) self.now.session name.now kind mode
            ≡ None) }
        ensures refused { IfErr result (λ error. error ≢ PerError.OutOfMemory
            → opening.can_open (storage_of self.now.config) self.now.session name.now kind mode ≡ Some error) }
        // Memory runs out only for the names that `IntegrityCorrupted` carries.
        ensures memory { IfErr result (λ error. error ≡ PerError.OutOfMemory
            → opening.can_open (storage_of self.now.config) self.now.session name.now kind mode
            ≡ Some (PerError.IntegrityCorrupted (Part self.now.config.name name.now))) }
    {
        self.table.can_open(name, kind, mode)
    }

    /// Checks whether a content of this length in bytes would fit under this name. Changes nothing, and does not
    /// allocate.
    ///
    /// # Errors
    ///
    /// `LimitReached` with `FileBytes` where the length is above 1,048,576; `OutOfStorageSpace` where the storage with
    /// this file at that length would exceed its maximum.
    pub fn would_fit(&self, name: &Name, len: u64) -> Result<(), PerError>
        // It fits where nothing refuses it; else the error is what refuses it.
        ensures ok { OnOk result (opening.would_fit (storage_of self.now.config) self.now.session.files name.now len
            ≡ None) }
        ensures refused { IfErr result (λ error. opening.would_fit (storage_of self.now.config) self.now.session.files
            name.now len ≡ Some error) }
    {
        self.table.would_fit(name, len)
    }
}
