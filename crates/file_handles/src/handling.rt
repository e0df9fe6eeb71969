//! The calls on a handle.

ghost use Rattle.std.specs.Prelude.{◌≡◌, ◌≤◌, IfErr, IfOk, OnErr, OnOk};
ghost use Rattle.per_base.specs.Refusals.{IsDue, IsRefusal};
ghost use Rattle.file_handles.specs.Handling as calls;

use crate::table::FileTable;
use per_base::{Origin, PerError};

impl FileTable {
    /// The next byte of the handle's file; the position stays. Does not allocate.
    ///
    /// # Errors
    ///
    /// `NotOpen` for a number that no handle has; `IllegalReadAccess` for a kind that only writes;
    /// `IsEof` where nothing is left.
    pub fn peek_byte(&self, number: u32) -> Result<u8, PerError>
        // The answer, or the refusal that is due, is what `peek_byte` gives for this session and handle.
        ensures ok { IfOk result (λ byte. calls.peek_byte self.now.session number ≡ Ok byte) }
        ensures refused { IfErr result (λ error. calls.peek_byte self.now.session number ≡ Err error) }
    {
        let Some((handle, file)) = self.at(number) else {
            return Err(PerError::NotOpen);
        };
        handle.cursor.peek_byte(file.bytes())
    }

    /// The next byte of the handle's file, which the position passes. Does not allocate.
    ///
    /// # Errors
    ///
    /// `NotOpen` for a number that no handle has; `IllegalReadAccess` for a kind that only writes;
    /// `IsEof` where nothing is left.
    pub fn get_byte(&mut self, number: u32) -> Result<u8, PerError>
        // The answer and the session after it, or the refusal that is due, are what `get_byte` gives for the session
        // before.
        ensures ok { IfOk result (λ byte. calls.get_byte self.old.session number ≡ Ok (byte, self.new.session)) }
        ensures refused { IfErr result (λ error. calls.get_byte self.old.session number ≡ Err error) }
        ensures unchanged { OnErr result (self.new ≡ self.old) }
        ensures storage { self.new.storage ≡ self.old.storage }
        ensures moment { self.new.moment ≡ self.old.moment }
    {
        let Some((handle, file)) = self.at(number) else {
            return Err(PerError::NotOpen);
        };
        let mut cursor = handle.cursor;
        let byte = cursor.get_byte(file.bytes())?;
        self.put_cursor(number, cursor);
        Ok(byte)
    }

    /// That many bytes of the handle's file, or the rest where fewer are left; the position passes them.
    ///
    /// # Errors
    ///
    /// `NotOpen` for a number that no handle has; `IllegalReadAccess` for a kind that only writes;
    /// `IsEof` where nothing is left, also for a count of 0; `OutOfMemory`.
    pub fn read(&mut self, number: u32, count: u64) -> Result<Vec<u8>, PerError>
        // The answer and the session after it, or the refusal that is due, are what `read` gives for the session
        // before.
        ensures ok { IfOk result (λ piece. calls.read self.old.session number count
            ≡ Ok (piece.items, self.new.session)) }
        ensures refused { IfErr result (λ error. IsRefusal (calls.read self.old.session number count) error) }
        // Memory runs out only where bytes are due, not instead of a refusal.
        ensures memory { IfErr result (λ error. error ≡ PerError.OutOfMemory
            → IsDue (calls.read self.old.session number count)) }
        ensures unchanged { OnErr result (self.new ≡ self.old) }
        ensures storage { self.new.storage ≡ self.old.storage }
        ensures moment { self.new.moment ≡ self.old.moment }
    {
        let alloc = self.alloc;
        let Some((handle, file)) = self.at(number) else {
            return Err(PerError::NotOpen);
        };
        let mut cursor = handle.cursor;
        let piece = cursor.read(alloc, file.bytes(), count)?;
        self.put_cursor(number, cursor);
        Ok(piece)
    }

    /// What is left of the handle's file from the position on; the position is then at its end.
    ///
    /// # Errors
    ///
    /// `NotOpen` for a number that no handle has; `IllegalReadAccess` for a kind that only writes;
    /// `IsEof` where nothing is left; `OutOfMemory`.
    pub fn read_all(&mut self, number: u32) -> Result<Vec<u8>, PerError>
        // The answer and the session after it, or the refusal that is due, are what `read_all` gives for the session
        // before.
        ensures ok { IfOk result (λ piece. calls.read_all self.old.session number
            ≡ Ok (piece.items, self.new.session)) }
        ensures refused { IfErr result (λ error. IsRefusal (calls.read_all self.old.session number) error) }
        // Memory runs out only where bytes are due, not instead of a refusal.
        ensures memory { IfErr result (λ error. error ≡ PerError.OutOfMemory
            → IsDue (calls.read_all self.old.session number)) }
        ensures unchanged { OnErr result (self.new ≡ self.old) }
        ensures storage { self.new.storage ≡ self.old.storage }
        ensures moment { self.new.moment ≡ self.old.moment }
    {
        let alloc = self.alloc;
        let Some((handle, file)) = self.at(number) else {
            return Err(PerError::NotOpen);
        };
        let mut cursor = handle.cursor;
        let piece = cursor.read_all(alloc, file.bytes())?;
        self.put_cursor(number, cursor);
        Ok(piece)
    }

    /// The bytes before the next delimiter, which is passed and not returned, or the rest.
    ///
    /// # Errors
    ///
    /// `NotOpen` for a number that no handle has; `IllegalReadAccess` for a kind that only writes;
    /// `IsEof` where nothing is left; `OutOfMemory`.
    pub fn read_line(&mut self, number: u32, delimiter: u8) -> Result<Vec<u8>, PerError>
        // The answer and the session after it, or the refusal that is due, are what `read_line` gives for the session
        // before.
        ensures ok { IfOk result (λ piece. calls.read_line self.old.session number delimiter
            ≡ Ok (piece.items, self.new.session)) }
        ensures refused { IfErr result (λ error. IsRefusal (calls.read_line self.old.session number delimiter) error) }
        // Memory runs out only where bytes are due, not instead of a refusal.
        ensures memory { IfErr result (λ error. error ≡ PerError.OutOfMemory
            → IsDue (calls.read_line self.old.session number delimiter)) }
        ensures unchanged { OnErr result (self.new ≡ self.old) }
        ensures storage { self.new.storage ≡ self.old.storage }
        ensures moment { self.new.moment ≡ self.old.moment }
    {
        let alloc = self.alloc;
        let Some((handle, file)) = self.at(number) else {
            return Err(PerError::NotOpen);
        };
        let mut cursor = handle.cursor;
        let piece = cursor.read_line(alloc, file.bytes(), delimiter)?;
        self.put_cursor(number, cursor);
        Ok(piece)
    }

    /// The size of the handle's file in bytes. Does not allocate.
    ///
    /// # Errors
    ///
    /// `NotOpen` for a number that no handle has.
    pub fn size(&self, number: u32) -> Result<u64, PerError>
        // The answer, or the refusal that is due, is what `size` gives for this session and handle.
        ensures ok { IfOk result (λ size. calls.size self.now.session number ≡ Ok size) }
        ensures refused { IfErr result (λ error. calls.size self.now.session number ≡ Err error) }
    {
        match self.at(number) {
            Some((_, file)) => Ok(u64::from(file.len())),
            None => Err(PerError::NotOpen),
        }
    }

    /// The position of the handle, in bytes from the beginning of its file. Does not allocate.
    ///
    /// # Errors
    ///
    /// `NotOpen` for a number that no handle has.
    pub fn position(&self, number: u32) -> Result<u64, PerError>
        // The answer, or the refusal that is due, is what `position` gives for this session and handle.
        ensures ok { IfOk result (λ position. calls.position self.now.session number ≡ Ok position) }
        ensures refused { IfErr result (λ error. calls.position self.now.session number ≡ Err error) }
    {
        match self.at(number) {
            Some((handle, _)) => Ok(handle.cursor.position),
            None => Err(PerError::NotOpen),
        }
    }

    /// Whether the position is the size. Does not allocate.
    ///
    /// # Errors
    ///
    /// `NotOpen` for a number that no handle has.
    pub fn is_eof(&self, number: u32) -> Result<bool, PerError>
        // The answer, or the refusal that is due, is what `is_eof` gives for this session and handle.
        ensures ok { IfOk result (λ is. calls.is_eof self.now.session number ≡ Ok is) }
        ensures refused { IfErr result (λ error. calls.is_eof self.now.session number ≡ Err error) }
    {
        match self.at(number) {
            Some((handle, file)) => Ok(handle.cursor.is_eof(file.bytes())),
            None => Err(PerError::NotOpen),
        }
    }

    /// Moves the handle to this position, in bytes from the beginning of its file. Does not allocate.
    ///
    /// # Errors
    ///
    /// `NotOpen` for a number that no handle has; `InvalidPosition` where the position is above the size of the file.
    pub fn set_position(&mut self, number: u32, position: u64) -> Result<(), PerError>
        // The session after the call, or the refusal that is due, is what `set_position` gives for the session
        // before.
        ensures ok { OnOk result (calls.set_position self.old.session number position ≡ Ok self.new.session) }
        ensures refused { IfErr result (λ error. calls.set_position self.old.session number position ≡ Err error) }
        ensures unchanged { OnErr result (self.new ≡ self.old) }
        ensures storage { self.new.storage ≡ self.old.storage }
        ensures moment { self.new.moment ≡ self.old.moment }
    {
        let Some((handle, file)) = self.at(number) else {
            return Err(PerError::NotOpen);
        };
        let mut cursor = handle.cursor;
        cursor.set_position(u64::from(file.len()), position)?;
        self.put_cursor(number, cursor);
        Ok(())
    }

    /// Moves the handle by an offset in bytes from the origin, which is the beginning, the position or the end of its
    /// file, and gives the new position. Does not allocate.
    ///
    /// # Errors
    ///
    /// `NotOpen` for a number that no handle has; `InvalidPosition` where the new one is not from 0 to the file's size.
    pub fn move_position(
        &mut self,
        number: u32,
        origin: Origin,
        offset: i64,
    ) -> Result<u64, PerError>
        // The answer and the session after it, or the refusal that is due, are what `move_position` gives for the
        // session before.
        ensures ok { IfOk result (λ at. calls.move_position self.old.session number origin offset
            ≡ Ok (at, self.new.session)) }
        ensures refused { IfErr result (λ error. calls.move_position self.old.session number origin offset
            ≡ Err error) }
        ensures unchanged { OnErr result (self.new ≡ self.old) }
        ensures storage { self.new.storage ≡ self.old.storage }
        ensures moment { self.new.moment ≡ self.old.moment }
    {
        let Some((handle, file)) = self.at(number) else {
            return Err(PerError::NotOpen);
        };
        let mut cursor = handle.cursor;
        let position = cursor.move_position(u64::from(file.len()), origin, offset)?;
        self.put_cursor(number, cursor);
        Ok(position)
    }
}
