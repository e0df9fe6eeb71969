//! A handle that is closed when it is dropped.

ghost use Rattle.std.specs.Prelude.{◌≡◌, IfErr, IfOk, OnErr, OnOk, Ok, Err};
ghost use Rattle.std.specs.Borrow.{sem, RestsIfErr};
ghost use Rattle.per_base.specs.Refusals.{IsDue, IsRefusal, NeedsMemory};
ghost use Rattle.file_handles.specs.Handling as calls;
ghost use Rattle.file_handles.specs.Opening as opening;
ghost use Rattle.file_handles.specs.Sessions.{open_at, without_handle};
ghost use Rattle.file_storage.specs.contracts.files.Files.{the_row};
ghost use Rattle.file_storage.specs.FileSessions.{storage_of};
ghost use Rattle.file_storage.specs.Scopes.{without_open_handle};

use crate::files::Files;
use per_base::{Name, OpenKind, OpenMode, PerError};

/// A handle on a file, which is closed when this is dropped.
pub struct Scoped<'a> {
    pub(crate) files: &'a mut Files,
    pub(crate) handle: u32,
}

impl Files {
    /// Opens a file with a handle that is closed when it is dropped: the handles are then as before, and the working
    /// files and the moment stay as calls through it left them.
    ///
    /// The flags of `mode`: the position starts at 0, or with `AT_THE_END` at the size that the opening leaves;
    /// `TRUNCATE` empties the file; with `APPEND` each write goes to the end. `now` is the moment in seconds.
    ///
    /// # Errors
    ///
    /// Those of `can_open`, then `OutOfStorageSpace` where an empty file of a missing name would exceed the maximum;
    /// `OutOfMemory`.
    pub fn scoped(
        &mut self,
        name: &Name,
        kind: OpenKind,
        mode: OpenMode,
        now: u64,
    ) -> Result<Scoped<'_>, PerError>
        // Where it is refused, the storage is given back as it was; else the handle is on this very storage: both
        // hold the same reference.
        ensures* untouched { sem 𝓛 (RestsIfErr the_row self.entry (λ scoped. scoped.files.ghost_name) result
            (λ last. last ≡ self.old)) }
        ensures same_reference { IfOk result (λ scoped. scoped.files.ghost_name ≡ self.entry.ghost_name) }
        // The file is opened as by any opening, at this moment, and the other handles are those of before.
        ensures ok { IfOk result (λ scoped. opening.open_file (storage_of self.old.config) self.old.session name.now
            kind mode now ≡ Ok (scoped.handle, scoped.files.now.session)) }
        ensures moment { IfOk result (λ scoped. scoped.files.now.moment ≡ now) }
        ensures beside { IfOk result (λ scoped. scoped.files.now
            ≡ record self.old { session = scoped.files.now.session; moment = now }) }
        ensures others { IfOk result (λ scoped. without_handle scoped.files.now.session.handles scoped.handle
            ≡ self.old.session.handles) }
        ensures refused { IfErr result (λ error. IsRefusal
            (opening.open_file (storage_of self.old.config) self.old.session name.now kind mode now) error) }
        // Memory runs out where an opening is due, or for the names that `IntegrityCorrupted` carries.
        ensures memory { IfErr result (λ error. error ≡ PerError.OutOfMemory
            → NeedsMemory (opening.open_file (storage_of self.old.config) self.old.session name.now kind mode now)) }
    {
        self.table.invariants();
        let handle = self.open_file(name, kind, mode, now)?;
        Ok(Scoped {
            files: self,
            handle,
        })
    }
}

impl Files {
    /// Releases the handle of this number, where it is open; nothing else changes.
    fn release(&mut self, handle: u32)
        ensures { self.new ≡ without_open_handle self.old handle }
    {
        self.table.invariants();
        let _closed = self.close(handle);
    }
}

impl<'a> Scoped<'a> {
    /// What is left of the file from the position on; the position is then at its end.
    ///
    /// # Errors
    ///
    /// `IllegalReadAccess` for a kind that only writes; `IsEof` where nothing is left; `OutOfMemory`.
    pub fn read_all(&mut self) -> Result<Vec<u8>, PerError>
        // It stays the same handle on the same storage.
        ensures same_reference { self.new.files.ghost_name ≡ self.old.files.ghost_name }
        ensures handle { self.new.handle ≡ self.old.handle }
        // The answer and the session after it, or the refusal that is due, are what `read_all` gives for the session
        // before.
        ensures ok { IfOk result (λ piece. calls.read_all self.old.files.now.session self.old.handle
            ≡ Ok (piece.items, self.new.files.now.session)) }
        ensures refused { IfErr result (λ error. IsRefusal (calls.read_all self.old.files.now.session self.old.handle)
            error) }
        // `OutOfMemory` never comes instead of a refusal.
        ensures memory { IfErr result (λ error. error ≡ PerError.OutOfMemory
            → IsDue (calls.read_all self.old.files.now.session self.old.handle)) }
        // Only the session changes, and in it no other handle; an error changes nothing.
        ensures beside { self.new.files.now ≡ record self.old.files.now { session = self.new.files.now.session } }
        ensures others { without_handle self.new.files.now.session.handles self.new.handle
            ≡ without_handle self.old.files.now.session.handles self.old.handle }
        ensures unchanged { OnErr result (self.new.files.now ≡ self.old.files.now) }
    {
        self.files.invariants();
        self.files.read_all(self.handle)
    }

    /// Writes the piece: it overwrites and extends the file from the position on, or with `APPEND` from its end on,
    /// and the position is then past it. An empty piece changes nothing.
    ///
    /// # Errors
    ///
    /// `IllegalWriteAccess` for kind Read; `LimitReached` with `FileBytes` where the file would have more than
    /// 1,048,576 bytes; `OutOfStorageSpace` where the storage would exceed its maximum; `OutOfMemory`, and this only
    /// where the piece reaches past the end of the file.
    pub fn write(&mut self, bytes: &[u8]) -> Result<(), PerError>
        // It stays the same handle on the same storage.
        ensures same_reference { self.new.files.ghost_name ≡ self.old.files.ghost_name }
        ensures handle { self.new.handle ≡ self.old.handle }
        // The session after the call, or the refusal that is due, is what `write` gives for the session before.
        ensures ok { OnOk result (calls.write (storage_of self.old.files.now.config) self.old.files.now.session
            self.old.files.now.moment self.old.handle bytes.now ≡ Ok self.new.files.now.session) }
        ensures refused { IfErr result (λ error. IsRefusal
            (calls.write (storage_of self.old.files.now.config) self.old.files.now.session self.old.files.now.moment
            self.old.handle bytes.now) error) }
        // `OutOfMemory` never comes instead of a refusal, and only where the piece reaches past the file's end.
        ensures due { IfErr result (λ error. error ≡ PerError.OutOfMemory
            → IsDue (calls.write (storage_of self.old.files.now.config) self.old.files.now.session
            self.old.files.now.moment self.old.handle bytes.now)) }
        ensures memory { IfErr result (λ error. error ≡ PerError.OutOfMemory
            → calls.GrowsBy (open_at self.old.files.now.session self.old.handle) bytes.now) }
        // Only the session changes, and in it no other handle; an error changes nothing.
        ensures beside { self.new.files.now ≡ record self.old.files.now { session = self.new.files.now.session } }
        ensures others { without_handle self.new.files.now.session.handles self.new.handle
            ≡ without_handle self.old.files.now.session.handles self.old.handle }
        ensures unchanged { OnErr result (self.new.files.now ≡ self.old.files.now) }
    {
        self.files.invariants();
        self.files.write(self.handle, bytes)
    }
}

impl Drop for Scoped<'_> {
    /// Closes the handle; nothing else changes. Does not allocate.
    fn drop(self)
        ensures { self.exit.0.now ≡ without_open_handle self.entry.files.now self.entry.handle }
    {
        let Scoped { files, handle } = self;
        files.release(handle);
    }
}
