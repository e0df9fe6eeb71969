//! The calls on a handle that change its file or release it.

ghost use Rattle.std.specs.Prelude.{◌≡◌, IfErr, OnErr, OnOk, Ok, Err};
ghost use Rattle.per_base.specs.Refusals.{IsDue, IsRefusal};
ghost use Rattle.file_handles.specs.Handling as calls;
ghost use Rattle.file_handles.specs.Sessions.{open_at};
ghost use Rattle.file_storage.specs.FileSessions.{storage_of};

use crate::files::Files;
use per_base::PerError;

impl Files {
    /// Writes the piece: it overwrites and extends the file from the handle's position on, or with `APPEND` from its
    /// end on, and the position is then past it. An empty piece changes nothing.
    ///
    /// # Errors
    ///
    /// `NotOpen` for a number that no handle has; `IllegalWriteAccess` for kind Read; `LimitReached` with `FileBytes`
    /// where the file would have more than 1,048,576 bytes; `OutOfStorageSpace` where the storage would exceed its
    /// maximum; `OutOfMemory`, and this only where the piece reaches past the end of the file.
    pub fn write(&mut self, handle: u32, bytes: &[u8]) -> Result<(), PerError>
        // The session after the call, or the refusal that is due, is what `write` gives for the session before.
        ensures ok { OnOk result (calls.write (storage_of self.old.config) self.old.session self.old.moment handle
            bytes.now ≡ Ok self.new.session) }
        ensures refused { IfErr result (λ error. IsRefusal
            (calls.write (storage_of self.old.config) self.old.session self.old.moment handle bytes.now) error) }
        // `OutOfMemory` never comes instead of a refusal, and only where the piece reaches past the file's end.
        ensures due { IfErr result (λ error. error ≡ PerError.OutOfMemory
            → IsDue (calls.write (storage_of self.old.config) self.old.session self.old.moment handle bytes.now)) }
        ensures memory { IfErr result (λ error. error ≡ PerError.OutOfMemory
            → calls.GrowsBy (open_at self.old.session handle) bytes.now) }
        ensures beside { self.new ≡ record self.old { session = self.new.session } }
        ensures unchanged { OnErr result (self.new ≡ self.old) }
    {
        self.table.write(handle, bytes)
    }

    /// Cuts the handle's file to this size; a position beyond it becomes the new size. Does not allocate.
    ///
    /// # Errors
    ///
    /// `NotOpen` for a number that no handle has; `IllegalWriteAccess` for kind Read; `InvalidSize` where the size is
    /// above that of the file.
    pub fn set_size(&mut self, handle: u32, size: u64) -> Result<(), PerError>
        // The session after the call, or the refusal that is due, is what `set_size` gives for the session before.
        ensures ok { OnOk result (calls.set_size self.old.session self.old.moment handle size ≡ Ok self.new.session) }
        ensures refused { IfErr result (λ error. calls.set_size self.old.session self.old.moment handle size
            ≡ Err error) }
        ensures beside { self.new ≡ record self.old { session = self.new.session } }
        ensures unchanged { OnErr result (self.new ≡ self.old) }
    {
        self.table.set_size(handle, size)
    }

    /// Releases the handle; the working file stays. Does not allocate.
    ///
    /// # Errors
    ///
    /// `NotOpen` for a number that no handle has.
    pub fn close(&mut self, handle: u32) -> Result<(), PerError>
        // The session after the call, or the refusal that is due, is what `close` gives for the session before.
        ensures ok { OnOk result (calls.close self.old.session handle ≡ Ok self.new.session) }
        ensures refused { IfErr result (λ error. calls.close self.old.session handle ≡ Err error) }
        ensures beside { self.new ≡ record self.old { session = self.new.session } }
        ensures unchanged { OnErr result (self.new ≡ self.old) }
    {
        self.table.close(handle)
    }
}
