//! A position in a content, and what may be done there.

ghost use Rattle.std.specs.Prelude.{◌≡◌, ◌<◌, ◌≤◌, cond, length, min, IfOk, IfErr, IfSome, OnOk, OnErr};
ghost use Rattle.per_base.specs.Refusals.{IsDue, IsRefusal};
ghost use Rattle.file_core.specs.Places as places;

use per_base::{OpenKind, OpenMode, Origin, PerError};
use std::alloc::Global;

/// Whether a handle of this kind may read.
pub fn reads(kind: OpenKind) -> bool
    ensures { result ≡ places.reads kind }
{
    matches!(kind, OpenKind::Read | OpenKind::ReadWrite)
}

/// Whether a handle of this kind may write.
pub fn writes(kind: OpenKind) -> bool
    ensures { result ≡ places.writes kind }
{
    matches!(kind, OpenKind::Write | OpenKind::ReadWrite)
}

/// Whether the flags contradict one another, or ask a reader to change the file.
pub fn is_bad_mode(kind: OpenKind, mode: OpenMode) -> bool
    ensures { result ≡ places.is_bad_mode kind mode }
{
    let both_ends = mode.is_at_the_beginning() && mode.is_at_the_end();
    let changes = mode.is_truncating() || mode.is_appending();
    both_ends || (!writes(kind) && changes)
}

/// A position in a content: the kind of the opening, whether each write goes to the end, and the position in bytes
/// from the beginning.
#[derive(Clone, Copy, Debug)]
pub struct Cursor {
    pub kind: OpenKind,
    pub append: bool,
    pub position: u64,
}

impl Cursor {
    /// The cursor of a new opening of a content of this size in bytes: at its end where the flags say so, else at 0.
    pub fn new(kind: OpenKind, mode: OpenMode, size: u64) -> Cursor
        // It is the one that `opening_place` says, and its position is in the content or at its end.
        ensures placed { result ≡ places.opening_place kind mode size }
        ensures inside { result.position ≤ size }
    {
        let position = if mode.is_at_the_end() { size } else { 0 };
        Cursor {
            kind,
            append: mode.is_appending(),
            position,
        }
    }

    /// Whether nothing is left to read. Does not allocate.
    pub fn is_eof(&self, bytes: &[u8]) -> bool
        ensures { result ≡ places.is_eof self.now bytes.now }
    {
        self.position >= bytes.len() as u64
    }

    /// What is left to read.
    ///
    /// # Errors
    ///
    /// `IllegalReadAccess` for a kind that only writes; `IsEof` where nothing is left.
    fn rest<'a>(&self, bytes: &'a [u8]) -> Result<&'a [u8], PerError>
        ensures ok { IfOk result (λ rest. places.reading self.now bytes.now (λ left. left) ≡ Ok rest.now) }
        ensures some { IfOk result (λ rest. 1 ≤ length rest.now) }
        ensures refused { IfErr result (λ error. places.reading self.now bytes.now (λ left. left) ≡ Err error) }
    {
        if !reads(self.kind) {
            return Err(PerError::IllegalReadAccess);
        }
        if self.is_eof(bytes) {
            return Err(PerError::IsEof);
        }
        Ok(&bytes[self.position as usize..])
    }

    /// The next byte; the position stays. Does not allocate.
    ///
    /// # Errors
    ///
    /// `IllegalReadAccess` for a kind that only writes; `IsEof` where nothing is left.
    pub fn peek_byte(&self, bytes: &[u8]) -> Result<u8, PerError>
        // The answer, or the refusal that is due, is what `peek_byte` gives for this cursor.
        ensures ok { IfOk result (λ byte. places.peek_byte self.now bytes.now ≡ Ok byte) }
        ensures refused { IfErr result (λ error. places.peek_byte self.now bytes.now ≡ Err error) }
    {
        let rest = self.rest(bytes)?;
        Ok(rest[0])
    }

    /// The next byte, which the position passes. Does not allocate.
    ///
    /// # Errors
    ///
    /// `IllegalReadAccess` for a kind that only writes; `IsEof` where nothing is left.
    pub fn get_byte(&mut self, bytes: &[u8]) -> Result<u8, PerError>
        // The answer and the cursor after it, or the refusal that is due, are what `get_byte` gives for the cursor
        // before.
        ensures ok { IfOk result (λ byte. places.get_byte self.old bytes.now ≡ Ok (byte, self.new)) }
        ensures refused { IfErr result (λ error. places.get_byte self.old bytes.now ≡ Err error) }
        ensures unchanged { OnErr result (self.new ≡ self.old) }
        // A position in the content stays in it, and the kind is the same.
        ensures inside { self.old.position ≤ length bytes.now → self.new.position ≤ length bytes.now }
        ensures kind { self.new.kind ≡ self.old.kind }
    {
        let rest = self.rest(bytes)?;
        let byte = rest[0];
        self.position += 1;
        Ok(byte)
    }

    /// That many bytes, or the rest where fewer are left; the position passes them.
    ///
    /// # Errors
    ///
    /// `IllegalReadAccess` for a kind that only writes; `IsEof` where nothing is left, also for a count of 0;
    /// `OutOfMemory`.
    pub fn read(&mut self, alloc: Global, bytes: &[u8], count: u64) -> Result<Vec<u8>, PerError>
        // The answer and the cursor after it, or the refusal that is due, are what `read` gives for the cursor
        // before.
        ensures ok { IfOk result (λ piece. places.read self.old bytes.now count ≡ Ok (piece.items, self.new)) }
        ensures refused { IfErr result (λ error. IsRefusal (places.read self.old bytes.now count) error) }
        // Memory runs out only where bytes are due, not instead of a refusal.
        ensures memory { IfErr result (λ error. error ≡ PerError.OutOfMemory
            → IsDue (places.read self.old bytes.now count)) }
        ensures unchanged { OnErr result (self.new ≡ self.old) }
        // A position in the content stays in it, and the kind is the same.
        ensures inside { self.old.position ≤ length bytes.now → self.new.position ≤ length bytes.now }
        ensures kind { self.new.kind ≡ self.old.kind }
    {
        let rest = self.rest(bytes)?;
        let taken = u64::min(count, rest.len() as u64);
        let piece = copied(alloc, &rest[..taken as usize])?;
        self.position += taken;
        Ok(piece)
    }

    /// The rest, which the position passes.
    ///
    /// # Errors
    ///
    /// `IllegalReadAccess` for a kind that only writes; `IsEof` where nothing is left; `OutOfMemory`.
    pub fn read_all(&mut self, alloc: Global, bytes: &[u8]) -> Result<Vec<u8>, PerError>
        // The answer and the cursor after it, or the refusal that is due, are what `read_all` gives for the cursor
        // before.
        ensures ok { IfOk result (λ piece. places.read_all self.old bytes.now ≡ Ok (piece.items, self.new)) }
        ensures refused { IfErr result (λ error. IsRefusal (places.read_all self.old bytes.now) error) }
        // Memory runs out only where bytes are due, not instead of a refusal.
        ensures memory { IfErr result (λ error. error ≡ PerError.OutOfMemory
            → IsDue (places.read_all self.old bytes.now)) }
        ensures unchanged { OnErr result (self.new ≡ self.old) }
        // A position in the content stays in it, and the kind is the same.
        ensures inside { self.old.position ≤ length bytes.now → self.new.position ≤ length bytes.now }
        ensures kind { self.new.kind ≡ self.old.kind }
    {
        let rest = self.rest(bytes)?;
        let piece = copied(alloc, rest)?;
        self.position += rest.len() as u64;
        Ok(piece)
    }

    /// The bytes before the next delimiter, which is passed and not returned, or the rest.
    ///
    /// # Errors
    ///
    /// `IllegalReadAccess` for a kind that only writes; `IsEof` where nothing is left; `OutOfMemory`.
    pub fn read_line(
        &mut self,
        alloc: Global,
        bytes: &[u8],
        delimiter: u8,
    ) -> Result<Vec<u8>, PerError>
        // The answer and the cursor after it, or the refusal that is due, are what `read_line` gives for the cursor
        // before.
        ensures ok { IfOk result (λ piece. places.read_line self.old bytes.now delimiter ≡ Ok (piece.items, self.new)) }
        ensures refused { IfErr result (λ error. IsRefusal (places.read_line self.old bytes.now delimiter) error) }
        // Memory runs out only where bytes are due, not instead of a refusal.
        ensures memory { IfErr result (λ error. error ≡ PerError.OutOfMemory
            → IsDue (places.read_line self.old bytes.now delimiter)) }
        ensures unchanged { OnErr result (self.new ≡ self.old) }
        // A position in the content stays in it, and the kind is the same.
        ensures inside { self.old.position ≤ length bytes.now → self.new.position ≤ length bytes.now }
        ensures kind { self.new.kind ≡ self.old.kind }
    {
        let rest = self.rest(bytes)?;
        let (line, passed) = split_line(rest, delimiter);
        let piece = copied(alloc, line)?;
        self.position += passed;
        Ok(piece)
    }

    /// Moves to this position in a content of this size. Does not allocate.
    ///
    /// # Errors
    ///
    /// `InvalidPosition` where it is above the size.
    pub fn set_position(&mut self, size: u64, position: u64) -> Result<(), PerError>
        // The cursor after it, or the refusal that is due, is what `set_position` gives for the cursor before.
        ensures ok { OnOk result (places.set_position self.old size position ≡ Ok self.new) }
        ensures refused { IfErr result (λ error. places.set_position self.old size position ≡ Err error) }
        ensures unchanged { OnErr result (self.new ≡ self.old) }
        // A position in the content stays in it, and the kind is the same.
        ensures inside { self.old.position ≤ size → self.new.position ≤ size }
        ensures kind { self.new.kind ≡ self.old.kind }
    {
        if position > size {
            return Err(PerError::InvalidPosition);
        }
        self.position = position;
        Ok(())
    }

    /// Moves by an offset from the origin in a content of this size, and gives the new position. Does not allocate.
    ///
    /// # Errors
    ///
    /// `InvalidPosition` where it is not from 0 to the size.
    pub fn move_position(&mut self, size: u64, origin: Origin, offset: i64) -> Result<u64, PerError>
        // The answer and the cursor after it, or the refusal that is due, are what `move_position` gives for the
        // cursor before.
        ensures ok { IfOk result (λ at. places.move_position self.old size origin offset ≡ Ok (at, self.new)) }
        ensures refused { IfErr result (λ error. places.move_position self.old size origin offset ≡ Err error) }
        ensures unchanged { OnErr result (self.new ≡ self.old) }
        // A position in the content stays in it, and the kind is the same.
        ensures inside { self.old.position ≤ size → self.new.position ≤ size }
        ensures kind { self.new.kind ≡ self.old.kind }
    {
        let start = self.start_of(size, origin);
        let Some(target) = start.checked_add_signed(offset) else {
            return Err(PerError::InvalidPosition);
        };
        if target > size {
            return Err(PerError::InvalidPosition);
        }
        self.position = target;
        Ok(target)
    }

    /// The position where the next write begins in a content of this size: its end where the cursor appends, else the
    /// position of the cursor, or the end where that is above it.
    pub fn write_place(&self, size: usize) -> usize
        ensures { result ≡ cond self.now.append size (min self.now.position size) }
    {
        if self.append {
            size
        } else {
            u64::min(self.position, size as u64) as usize
        }
    }

    /// From where a move counts.
    fn start_of(&self, size: u64, origin: Origin) -> u64
        ensures { result ≡ places.origin_place origin self.now size }
    {
        match origin {
            Origin::Beginning => 0,
            Origin::Current => self.position,
            Origin::End => size,
        }
    }
}

/// The bytes before the next delimiter, or all; and how many those are with their delimiter.
fn split_line(rest: &[u8], delimiter: u8) -> (&[u8], u64)
    ensures line { result.0.now ≡ places.before (places.next_delimiter delimiter rest.now) rest.now }
    ensures passed { result.1 ≡ places.past (places.next_delimiter delimiter rest.now) rest.now }
    ensures inside { result.1 ≤ length rest.now }
{
    match next_delimiter(rest, delimiter) {
        Some(at) => (&rest[..at], at as u64 + 1),
        None => (rest, rest.len() as u64),
    }
}

fn next_delimiter(rest: &[u8], delimiter: u8) -> Option<usize>
    ensures next { result ≡ places.next_delimiter delimiter rest.now }
    ensures inside { IfSome result (λ at. at < length rest.now) }
{
    rest.iter().position(|&byte| byte == delimiter)
}

fn copied(alloc: Global, bytes: &[u8]) -> Result<Vec<u8>, PerError>
    ensures ok { IfOk result (λ copy. copy.items ≡ bytes.now) }
    ensures memory { IfErr result (λ error. error ≡ PerError.OutOfMemory) }
{
    match Vec::from_slice(alloc, bytes) {
        Ok(copy) => Ok(copy),
        Err(_) => Err(PerError::OutOfMemory),
    }
}
