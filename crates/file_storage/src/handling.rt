//! The calls on a handle.

ghost use Rattle.std.specs.Prelude.{◌≡◌, IfErr, IfOk, OnErr, OnOk, Ok, Err};
ghost use Rattle.per_base.specs.Refusals.{IsDue, IsRefusal};
ghost use Rattle.file_handles.specs.Handling as calls;
ghost use Rattle.file_storage.specs.FileSessions.{storage_of};

use crate::files::Files;
use per_base::{Origin, PerError};

impl Files {
    /// The next byte of the handle's file; the position stays. Does not allocate.
    ///
    /// # Errors
    ///
    /// `NotOpen` for a number that no handle has; `IllegalReadAccess` for a kind that only writes;
    /// `IsEof` where nothing is left.
    pub fn peek_byte(&self, handle: u32) -> Result<u8, PerError>
        // The answer, or the refusal that is due, is what `peek_byte` gives for this session and handle.
        ensures ok { IfOk result (λ byte. calls.peek_byte self.now.session handle ≡ Ok byte) }
        ensures refused { IfErr result (λ error. calls.peek_byte self.now.session handle ≡ Err error) }
    {
        self.table.peek_byte(handle)
    }

    /// The next byte of the handle's file, which the position passes. Does not allocate.
    ///
    /// # Errors
    ///
    /// `NotOpen` for a number that no handle has; `IllegalReadAccess` for a kind that only writes;
    /// `IsEof` where nothing is left.
    pub fn get_byte(&mut self, handle: u32) -> Result<u8, PerError>
        // The answer and the session after it, or the refusal that is due, are what `get_byte` gives for the session
        // before.
        ensures ok { IfOk result (λ byte. calls.get_byte self.old.session handle ≡ Ok (byte, self.new.session)) }
        ensures refused { IfErr result (λ error. calls.get_byte self.old.session handle ≡ Err error) }
        ensures beside { self.new ≡ record self.old { session = self.new.session } }
        ensures unchanged { OnErr result (self.new ≡ self.old) }
    {
        self.table.get_byte(handle)
    }

    /// That many bytes of the handle's file, or the rest where fewer are left; the position passes them.
    ///
    /// # Errors
    ///
    /// `NotOpen` for a number that no handle has; `IllegalReadAccess` for a kind that only writes;
    /// `IsEof` where nothing is left, also for a count of 0; `OutOfMemory`.
    pub fn read(&mut self, handle: u32, count: u64) -> Result<Vec<u8>, PerError>
        // The answer and the session after it, or the refusal that is due, are what `read` gives for the session
        // before.
        ensures ok { IfOk result (λ piece. calls.read self.old.session handle count
            ≡ Ok (piece.items, self.new.session)) }
        ensures refused { IfErr result (λ error. IsRefusal (calls.read self.old.session handle count) error) }
        // `OutOfMemory` never comes instead of a refusal.
        ensures memory { IfErr result (λ error. error ≡ PerError.OutOfMemory
            → IsDue (calls.read self.old.session handle count)) }
        ensures beside { self.new ≡ record self.old { session = self.new.session } }
        ensures unchanged { OnErr result (self.new ≡ self.old) }
    {
        self.table.read(handle, count)
    }

    /// What is left of the handle's file from the position on; the position is then at its end.
    ///
    /// # Errors
    ///
    /// `NotOpen` for a number that no handle has; `IllegalReadAccess` for a kind that only writes;
    /// `IsEof` where nothing is left; `OutOfMemory`.
    pub fn read_all(&mut self, handle: u32) -> Result<Vec<u8>, PerError>
        // The answer and the session after it, or the refusal that is due, are what `read_all` gives for the session
        // before.
        ensures ok { IfOk result (λ piece. calls.read_all self.old.session handle
            ≡ Ok (piece.items, self.new.session)) }
        ensures refused { IfErr result (λ error. IsRefusal (calls.read_all self.old.session handle) error) }
        // `OutOfMemory` never comes instead of a refusal.
        ensures memory { IfErr result (λ error. error ≡ PerError.OutOfMemory
            → IsDue (calls.read_all self.old.session handle)) }
        ensures beside { self.new ≡ record self.old { session = self.new.session } }
        ensures unchanged { OnErr result (self.new ≡ self.old) }
    {
        self.table.read_all(handle)
    }

    /// The bytes before the next delimiter, which is passed and not returned; or all that is left, where there is none.
    ///
    /// # Errors
    ///
    /// `NotOpen` for a number that no handle has; `IllegalReadAccess` for a kind that only writes;
    /// `IsEof` where nothing is left; `OutOfMemory`.
    pub fn read_line(&mut self, handle: u32, delimiter: u8) -> Result<Vec<u8>, PerError>
        // The answer and the session after it, or the refusal that is due, are what `read_line` gives for the session
        // before.
        ensures ok { IfOk result (λ piece. calls.read_line self.old.session handle delimiter
            ≡ Ok (piece.items, self.new.session)) }
        ensures refused { IfErr result (λ error. IsRefusal (calls.read_line self.old.session handle delimiter) error) }
        // `OutOfMemory` never comes instead of a refusal.
        ensures memory { IfErr result (λ error. error ≡ PerError.OutOfMemory
            → IsDue (calls.read_line self.old.session handle delimiter)) }
        ensures beside { self.new ≡ record self.old { session = self.new.session } }
        ensures unchanged { OnErr result (self.new ≡ self.old) }
    {
        self.table.read_line(handle, delimiter)
    }

    /// The size of the handle's file in bytes. Does not allocate.
    ///
    /// # Errors
    ///
    /// `NotOpen` for a number that no handle has.
    pub fn size(&self, handle: u32) -> Result<u64, PerError>
        // The answer, or the refusal that is due, is what `size` gives for this session and handle.
        ensures ok { IfOk result (λ size. calls.size self.now.session handle ≡ Ok size) }
        ensures refused { IfErr result (λ error. calls.size self.now.session handle ≡ Err error) }
    {
        self.table.size(handle)
    }

    /// The position of the handle. Does not allocate.
    ///
    /// # Errors
    ///
    /// `NotOpen` for a number that no handle has.
    pub fn position(&self, handle: u32) -> Result<u64, PerError>
        // The answer, or the refusal that is due, is what `position` gives for this session and handle.
        ensures ok { IfOk result (λ position. calls.position self.now.session handle ≡ Ok position) }
        ensures refused { IfErr result (λ error. calls.position self.now.session handle ≡ Err error) }
    {
        self.table.position(handle)
    }

    /// Whether the position of the handle is at the end of its file. Does not allocate.
    ///
    /// # Errors
    ///
    /// `NotOpen` for a number that no handle has.
    pub fn is_eof(&self, handle: u32) -> Result<bool, PerError>
        // The answer, or the refusal that is due, is what `is_eof` gives for this session and handle.
        ensures ok { IfOk result (λ is. calls.is_eof self.now.session handle ≡ Ok is) }
        ensures refused { IfErr result (λ error. calls.is_eof self.now.session handle ≡ Err error) }
    {
        self.table.is_eof(handle)
    }

    /// Moves the handle to this position. Does not allocate.
    ///
    /// # Errors
    ///
    /// `NotOpen` for a number that no handle has; `InvalidPosition` where the position is above the size of the file.
    pub fn set_position(&mut self, handle: u32, position: u64) -> Result<(), PerError>
        // The session after the call, or the refusal that is due, is what `set_position` gives for the session
        // before.
        ensures ok { OnOk result (calls.set_position self.old.session handle position ≡ Ok self.new.session) }
        ensures refused { IfErr result (λ error. calls.set_position self.old.session handle position ≡ Err error) }
        ensures beside { self.new ≡ record self.old { session = self.new.session } }
        ensures unchanged { OnErr result (self.new ≡ self.old) }
    {
        self.table.set_position(handle, position)
    }

    /// Moves the handle by an offset from the origin, which is the beginning, the position or the end of its file, and
    /// gives the new position. Does not allocate.
    ///
    /// # Errors
    ///
    /// `NotOpen` for a number that no handle has; `InvalidPosition` where the new position is not from 0 to the size of
    /// the file.
    pub fn move_position(
        &mut self,
        handle: u32,
        origin: Origin,
        offset: i64,
    ) -> Result<u64, PerError>
        // The answer and the session after it, or the refusal that is due, are what `move_position` gives for the
        // session before.
        ensures ok { IfOk result (λ at. calls.move_position self.old.session handle origin offset
            ≡ Ok (at, self.new.session)) }
        ensures refused { IfErr result (λ error. calls.move_position self.old.session handle origin offset
            ≡ Err error) }
        ensures beside { self.new ≡ record self.old { session = self.new.session } }
        ensures unchanged { OnErr result (self.new ≡ self.old) }
    {
        self.table.move_position(handle, origin, offset)
    }
}
