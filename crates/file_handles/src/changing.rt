//! The calls on a handle that change its file or release it.

ghost use Rattle.std.specs.Prelude.{◌≡◌, IfErr, OnErr, OnOk};
ghost use Rattle.per_base.specs.Refusals.{IsDue, IsRefusal};
ghost use Rattle.file_handles.specs.Handling as calls;
ghost use Rattle.file_handles.specs.Sessions.{open_at};

use crate::map::{cut_file, len_of, set_cursor, write_file};
use crate::table::FileTable;
use file_core::Room;
use per_base::PerError;

impl FileTable {
    /// Writes the piece: it overwrites and extends from the position, or with `APPEND` from the end; the position is
    /// then past it. An empty piece changes nothing.
    ///
    /// # Errors
    ///
    /// `NotOpen` for a number that no handle has; `IllegalWriteAccess` for kind Read; `LimitReached` with `FileBytes`;
    /// `OutOfStorageSpace`; `OutOfMemory`, and this only where the piece reaches past the end of the file.
    pub fn write(&mut self, number: u32, piece: &[u8]) -> Result<(), PerError>
        // The session after the call, or the refusal that is due, is what `write` gives for the session before.
        ensures ok { OnOk result (calls.write self.old.storage self.old.session self.old.moment number piece.now
            ≡ Ok self.new.session) }
        ensures refused { IfErr result (λ error. IsRefusal
            (calls.write self.old.storage self.old.session self.old.moment number piece.now) error) }
        // Memory runs out only where nothing refuses the call and the piece reaches past the end of the file.
        ensures due { IfErr result (λ error. error ≡ PerError.OutOfMemory
            → IsDue (calls.write self.old.storage self.old.session self.old.moment number piece.now)) }
        ensures memory { IfErr result (λ error. error ≡ PerError.OutOfMemory
            → calls.GrowsBy (open_at self.old.session number) piece.now) }
        ensures unchanged { OnErr result (self.new ≡ self.old) }
        ensures storage { self.new.storage ≡ self.old.storage }
        ensures moment { self.new.moment ≡ self.old.moment }
    {
        let Some(handle) = self.handles.get(&number) else {
            return Err(PerError::NotOpen);
        };
        let mut cursor = handle.cursor;
        let others = self.size - len_of(&self.files, &handle.name);
        let room = Room {
            others,
            allowed: self.storage.maximum,
        };
        let written = write_file(
            &mut self.files,
            &handle.name,
            &mut cursor,
            piece,
            self.moment,
            room,
        );
        let len = match written {
            Ok(len) => len,
            Err(error) => return Err(error),
        };
        self.size = others + u64::from(len);
        set_cursor(&mut self.handles, number, cursor);
        Ok(())
    }

    /// Cuts the file to this size; a position beyond becomes the size. Does not allocate.
    ///
    /// # Errors
    ///
    /// `NotOpen` for a number that no handle has; `IllegalWriteAccess` for kind Read; `InvalidSize` above the old size.
    pub fn set_size(&mut self, number: u32, size: u64) -> Result<(), PerError>
        // The session after the call, or the refusal that is due, is what `set_size` gives for the session before.
        ensures ok { OnOk result (calls.set_size self.old.session self.old.moment number size ≡ Ok self.new.session) }
        ensures refused { IfErr result (λ error. calls.set_size self.old.session self.old.moment number size
            ≡ Err error) }
        ensures unchanged { OnErr result (self.new ≡ self.old) }
        ensures storage { self.new.storage ≡ self.old.storage }
        ensures moment { self.new.moment ≡ self.old.moment }
    {
        let Some(handle) = self.handles.get(&number) else {
            return Err(PerError::NotOpen);
        };
        let mut cursor = handle.cursor;
        let others = self.size - len_of(&self.files, &handle.name);
        let cut = cut_file(
            &mut self.files,
            &handle.name,
            &mut cursor,
            size,
            self.moment,
        );
        let len = match cut {
            Ok(len) => len,
            Err(error) => return Err(error),
        };
        self.size = others + u64::from(len);
        set_cursor(&mut self.handles, number, cursor);
        Ok(())
    }

    /// Releases the handle; the content of its file stays. Does not allocate.
    ///
    /// # Errors
    ///
    /// `NotOpen` for a number that no handle has.
    pub fn close(&mut self, number: u32) -> Result<(), PerError>
        // The session after the call, or the refusal that is due, is what `close` gives for the session before.
        ensures ok { OnOk result (calls.close self.old.session number ≡ Ok self.new.session) }
        ensures refused { IfErr result (λ error. calls.close self.old.session number ≡ Err error) }
        ensures unchanged { OnErr result (self.new ≡ self.old) }
        ensures storage { self.new.storage ≡ self.old.storage }
        ensures moment { self.new.moment ≡ self.old.moment }
    {
        let Some(_handle) = self.handles.remove(&number) else {
            return Err(PerError::NotOpen);
        };
        Ok(())
    }
}
