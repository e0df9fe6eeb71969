//! A file: an info and a content, whose length is kept.

ghost use Rattle.std.specs.Prelude.{◌≡◌, ◌+◌, ◌<◌, ◌≤◌, ◌^◌, length, take, List, ℕ, IfOk, IfErr, IsTrue, OnOk, OnErr};
ghost use Rattle.std.specs.Bool.{OnTrue, OnFalse};
ghost use Rattle.per_base.specs.Contents.{is_readable, readable_bytes};
ghost use Rattle.per_base.specs.Refusals.{IsDue, IsRefusal};
ghost use Rattle.file_core.specs.Files.{GrowsBy, IsFile, NoSalvage, changed_to, cut, file_of, good_bytes, opened_at};
ghost use Rattle.file_core.specs.Files.{with_bytes, without_bytes, written};
ghost use Rattle.file_core.specs.Places as places;
ghost use Rattle.file_core.specs.Places.{overwritten};

use crate::contents::{overwrite_content, recover_content, truncate_content};
use crate::cursor::{Cursor, writes};
use crate::info::{changed, opened};
use crate::room::Room;
use per_base::{Bytes, Cause, Content, Element, FileInfo, PerError};
use std::alloc::AllocError;
use std::marker::Model;
use std::mem;

/// The greatest number of bytes of a file.
pub const FILE_BYTES: u64 = 1_048_576;

/// A file. Contracts see it as an element that has an info, and whose length is that of its content.
#[derive(Drop)]
pub struct File {
    info: FileInfo,
    len: u32,
    content: Content,
}

impl Model for File {
    ghost use Rattle.per_base.specs.declared.elements.Element.{Element};
    ghost use Rattle.std.specs.Prelude.{Some};
    ghost use Rattle.file_core.specs.Files.{IsFile};

    ghost Value = { Element };

    ghost view = { λ f. record { info = Some f.info; len = f.len; content = f.content } };

    ghost invariant = { λ f. IsFile (record { info = Some f.info; len = f.len; content = f.content }) };
}

impl File {
    /// A file with these bytes. Does not allocate.
    pub fn new(info: FileInfo, bytes: Bytes) -> File
        // At most 1,048,576 bytes, the most of a file.
        requires { length bytes ≤ 1048576 }
        ensures { result ≡ file_of (Some info) bytes }
    {
        File {
            info,
            len: bytes.len() as u32,
            content: Content::Good(bytes),
        }
    }

    /// A file as it was stored: its info, its length and its content, which may be unreadable. Does not allocate.
    pub fn stored(info: FileInfo, len: u32, content: Content) -> File
        // They are of a file: the length is that of the bytes or salvage, at most 1,048,576.
        requires { IsFile (record { info = Some info; len = len; content = content }) }
        ensures { result ≡ record { info = Some info; len = len; content = content } }
    {
        File { info, len, content }
    }

    /// The info.
    pub fn info(&self) -> FileInfo
        ensures { Some result ≡ self.now.info }
    {
        self.info
    }

    /// The length in bytes, also of an unreadable file.
    pub fn len(&self) -> u32
        // What always holds of a file is known too: it has an info, and its length is that of its content.
        ensures len { result ≡ self.now.len }
        ensures file { IsFile self.now }
    {
        self.len
    }

    /// The content.
    pub fn content(&self) -> &Content
        ensures { result.now ≡ self.now.content }
    {
        &self.content
    }

    /// Whether the content is readable.
    pub fn is_good(&self) -> bool
        ensures { result ≡ is_readable self.now.content }
    {
        matches!(&self.content, Content::Good(_))
    }

    /// The bytes; an unreadable file gives none.
    pub fn bytes(&self) -> &[u8]
        // They are at most 1,048,576, and for a readable file as many as its length says.
        ensures bytes { result.now ≡ readable_bytes self.now.content }
        ensures small { length result.now ≤ 1048576 }
        ensures len { IsTrue (is_readable self.now.content) → length result.now ≡ self.now.len }
    {
        match &self.content {
            Content::Good(bytes) => bytes.as_slice(),
            Content::Bad(_) => &[],
        }
    }

    /// Notes in the info that the file is opened at this moment.
    pub fn open(&mut self, now: u64)
        ensures { self.new ≡ opened_at now self.old }
    {
        self.info = opened(now, self.info);
    }

    /// Gives the file other bytes, for this cause. Does not allocate.
    pub fn replace(&mut self, bytes: Bytes, now: u64, cause: Cause)
        // At most 1,048,576 bytes, the most of a file.
        requires { length bytes ≤ 1048576 }
        ensures { self.new ≡ changed_to bytes now cause self.old }
    {
        self.info = changed(now, cause, self.info);
        self.len = bytes.len() as u32;
        self.content = Content::Good(bytes);
    }

    /// Takes the bytes out of a readable file, which is unreadable then; its info and its length stay. Does not
    /// allocate.
    pub fn take_bytes(&mut self) -> Option<Bytes>
        // An unreadable file gives none, and stays.
        ensures taken { result ≡ good_bytes self.old.content }
        ensures left { self.new ≡ without_bytes self.old }
    {
        match mem::replace(&mut self.content, Content::Bad(None)) {
            Content::Good(bytes) => Some(bytes),
            other => {
                self.content = other;
                None
            }
        }
    }

    /// Puts back bytes that were taken out of the file: they are as many as its length says, and else the file stays as
    /// it is. Does not allocate.
    pub fn put_bytes(&mut self, bytes: Bytes)
        ensures { self.new ≡ with_bytes bytes self.old }
    {
        if bytes.len() as u64 == u64::from(self.len) {
            self.content = Content::Good(bytes);
        }
    }

    /// Makes the salvage of an unreadable file its content, where there is a salvage, and says whether it did. Does not
    /// allocate.
    pub fn recover(&mut self, now: u64) -> bool
        // Where it did, the salvage is the content, changed now by a recovery; else the file had none, and stays.
        ensures recovered { OnTrue result ((salvage : List ℕ) × (self.old.content ≡ Content.Bad (Some salvage))
            × (self.new ≡ changed_to salvage now Cause.Recovery self.old)) }
        ensures unchanged { OnFalse result ((self.new ≡ self.old) × NoSalvage self.old.content) }
        ensures file { IsFile self.new }
    {
        let Some(len) = recover_content(&mut self.content) else {
            return false;
        };
        self.len = len as u32;
        self.info = changed(now, Cause::Recovery, self.info);
        true
    }

    /// Writes the piece at the moment `now`: from the position of the cursor on, or with append from the end on. The
    /// cursor then stands past it. An empty piece changes nothing. `room` says what all else of the storage takes.
    ///
    /// # Errors
    ///
    /// `IllegalWriteAccess` for a kind that only reads; `LimitReached` with `FileBytes`; `OutOfStorageSpace`;
    /// `OutOfMemory`, and this only where the piece reaches past the end.
    pub fn write(
        &mut self,
        cursor: &mut Cursor,
        piece: &[u8],
        now: u64,
        room: Room,
    ) -> Result<(), PerError>
        // The file is readable; what all else takes is bounded, so that no sum with it overflows.
        requires good { IsTrue (is_readable self.old.content) }
        requires bounded { room.others ≤ 2 ^ 32 }
        // The cursor and the file after it, or the refusal that is due, are what `written` gives for those before.
        ensures ok { OnOk result (written cursor.old self.old piece.now now room ≡ Ok (cursor.new, self.new)) }
        ensures refused { IfErr result (λ error. IsRefusal (written cursor.old self.old piece.now now room) error) }
        ensures unchanged { OnErr result ((self.new ≡ self.old) × (cursor.new ≡ cursor.old)) }
        // A position in the file stays in it, the file stays readable and the kind of the cursor the same.
        ensures inside { cursor.old.position ≤ self.old.len → cursor.new.position ≤ self.new.len }
        ensures good { IsTrue (is_readable self.new.content) }
        ensures kind { cursor.new.kind ≡ cursor.old.kind }
        // A storage that is within what it is allowed stays so; only a kind that writes has written.
        ensures within { room.others + self.old.len ≤ room.allowed → room.others + self.new.len ≤ room.allowed }
        ensures writer { OnOk result (IsTrue (places.writes cursor.old.kind)) }
        // `OutOfMemory` never replaces a refusal; it comes only where the file grows.
        ensures due { IfErr result (λ error. error ≡ PerError.OutOfMemory
            → IsDue (written cursor.old self.old piece.now now room)) }
        ensures memory { IfErr result (λ error. error ≡ PerError.OutOfMemory → GrowsBy cursor.old self.old piece.now) }
    {
        if !writes(cursor.kind) {
            return Err(PerError::IllegalWriteAccess);
        }
        if piece.is_empty() {
            return Ok(());
        }
        let size = self.bytes().len();
        let from = cursor.write_place(size);
        let end = usize::max(size, from + piece.len());
        if let Some(error) = room.too_long(end as u64) {
            return Err(error);
        }
        if self.put(from, piece, now).is_err() {
            return Err(PerError::OutOfMemory);
        }
        cursor.position = (from + piece.len()) as u64;
        Ok(())
    }

    /// Cuts the content to this size at the moment `now`; a position above becomes the size. Does not allocate.
    ///
    /// # Errors
    ///
    /// `IllegalWriteAccess` for a kind that only reads; `InvalidSize` where it is above the size.
    pub fn set_size(&mut self, cursor: &mut Cursor, size: u64, now: u64) -> Result<(), PerError>
        // The file is readable.
        requires { IsTrue (is_readable self.old.content) }
        // The cursor and the file after it, or the refusal that is due, are what `cut` gives for those before.
        ensures ok { OnOk result (cut cursor.old self.old size now ≡ Ok (cursor.new, self.new)) }
        ensures refused { IfErr result (λ error. cut cursor.old self.old size now ≡ Err error) }
        ensures unchanged { OnErr result ((self.new ≡ self.old) × (cursor.new ≡ cursor.old)) }
        // A position in the file stays in it, the file stays readable and the kind of the cursor the same; the file
        // does not grow, and only a kind that writes has cut it.
        ensures inside { cursor.old.position ≤ self.old.len → cursor.new.position ≤ self.new.len }
        ensures good { IsTrue (is_readable self.new.content) }
        ensures kind { cursor.new.kind ≡ cursor.old.kind }
        ensures smaller { self.new.len ≤ self.old.len }
        ensures writer { OnOk result (IsTrue (places.writes cursor.old.kind)) }
    {
        if !writes(cursor.kind) {
            return Err(PerError::IllegalWriteAccess);
        }
        if size > self.bytes().len() as u64 {
            return Err(PerError::InvalidSize);
        }
        self.keep(size as usize, now);
        cursor.position = u64::min(cursor.position, size);
        Ok(())
    }

    /// Puts the piece into the content from there on.
    fn put(&mut self, from: usize, piece: &[u8], now: u64) -> Result<(), AllocError>
        requires good { IsTrue (is_readable self.old.content) }
        requires inside { from ≤ length (readable_bytes self.old.content) }
        // The content is then at most 1,048,576 bytes, the most of a file.
        requires small { length (overwritten from piece.now (readable_bytes self.old.content)) ≤ 1048576 }
        ensures ok { OnOk result (self.new ≡ changed_to (overwritten from piece.now (readable_bytes self.old.content))
            now
            Cause.Application self.old) }
        ensures unchanged { OnErr result (self.new ≡ self.old) }
        ensures memory { OnErr result (length (readable_bytes self.old.content) < from + length piece.now) }
    {
        let len = overwrite_content(&mut self.content, from, piece)?;
        self.len = len as u32;
        self.info = changed(now, Cause::Application, self.info);
        Ok(())
    }

    /// Truncates the content to its first `size` bytes.
    fn keep(&mut self, size: usize, now: u64)
        requires good { IsTrue (is_readable self.old.content) }
        requires inside { size ≤ length (readable_bytes self.old.content) }
        ensures { self.new ≡ changed_to (take size (readable_bytes self.old.content)) now Cause.Application self.old }
    {
        truncate_content(&mut self.content, size);
        self.len = size as u32;
        self.info = changed(now, Cause::Application, self.info);
    }
}
