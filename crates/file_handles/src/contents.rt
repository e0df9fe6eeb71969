//! A whole content at once, through a handle that is closed again.

ghost use Rattle.std.specs.Prelude.{◌≡◌, IfErr, IfOk, OnErr, OnOk, Ok, Err};
ghost use Rattle.per_base.specs.Maps.{element_at};
ghost use Rattle.per_base.specs.Refusals.{IsRefusal, NeedsMemory};
ghost use Rattle.per_base.specs.Modes as modes;
ghost use Rattle.file_handles.specs.Whole.{bytes_of_file, cat, put_whole, released};

use crate::laws::whole_contents_are_given;
use crate::table::FileTable;
use bitflags::Flags;
use per_base::{Bytes, Cause, Name, OpenKind, OpenMode, PerError};
use std::alloc::Global;

impl FileTable {
    /// The whole content of a file, as a reader gets it that opens the file with no flag and closes it again.
    ///
    /// # Errors
    ///
    /// Those of an opening for reading with no flag; `OutOfMemory`.
    pub fn whole_content(&mut self, name: &Name, now: u64) -> Result<Vec<u8>, PerError>
        // The answer and the session after it, or the refusal that is due, are what `cat` gives for the session
        // before.
        ensures ok { IfOk result (λ content. cat self.old.storage self.old.session name.now now
            ≡ Ok (content.items, self.new.session)) }
        ensures refused { IfErr result (λ error. IsRefusal (cat self.old.storage self.old.session name.now now) error) }
        // Memory runs out where the call is not to be refused, or for the names that `IntegrityCorrupted` carries.
        ensures memory { IfErr result (λ error. error ≡ PerError.OutOfMemory
            → NeedsMemory (cat self.old.storage self.old.session name.now now)) }
        ensures unchanged { OnErr result (self.new ≡ self.old) }
        // The moment is then this one, and the storage stays.
        ensures storage { self.new.storage ≡ self.old.storage }
        ensures moment { OnOk result (self.new.moment ≡ now) }
    {
        whole_contents_are_given();
        if let Err(error) = self.can_open(name, OpenKind::Read, plain()) {
            return Err(error);
        }
        let content = self.content_of(name)?;
        let number = self.open_file(name, OpenKind::Read, plain(), now)?;
        self.release(number);
        Ok(content)
    }

    /// Makes these bytes the content of a file, which is made where it is missing, as a writer does that truncates the
    /// file, writes them and closes it again. Whether it may be opened and whether they fit is asked first, and they
    /// are copied before anything changes.
    ///
    /// # Errors
    ///
    /// Those of an opening for writing with the flag that truncates; those of `would_fit`; `OutOfMemory`.
    pub fn replace(&mut self, name: &Name, bytes: &[u8], now: u64) -> Result<(), PerError>
        // The session after the call, or the refusal that is due, is what `put_whole` gives for the session before.
        ensures ok { OnOk result (put_whole self.old.storage self.old.session name.now bytes.now now
            ≡ Ok self.new.session) }
        ensures refused { IfErr result (λ error. IsRefusal
            (put_whole self.old.storage self.old.session name.now bytes.now now) error) }
        // Memory runs out where the call is not to be refused, or for the names that `IntegrityCorrupted` carries.
        ensures memory { IfErr result (λ error. error ≡ PerError.OutOfMemory
            → NeedsMemory (put_whole self.old.storage self.old.session name.now bytes.now now)) }
        ensures unchanged { OnErr result (self.new ≡ self.old) }
        // The moment is then this one, and the storage stays.
        ensures storage { self.new.storage ≡ self.old.storage }
        ensures moment { OnOk result (self.new.moment ≡ now) }
    {
        whole_contents_are_given();
        self.invariants();
        if let Err(error) = self.can_open(name, OpenKind::Write, OpenMode::TRUNCATE) {
            return Err(error);
        }
        if let Err(error) = self.would_fit(name, bytes.len() as u64) {
            return Err(error);
        }
        let copy = copied(self.alloc, bytes)?;
        let number = self.open_file(name, OpenKind::Write, OpenMode::TRUNCATE, now)?;
        self.release(number);
        self.give(name, Bytes::new(copy), now, Cause::Application);
        Ok(())
    }

    /// A copy of the bytes of a file that is there.
    fn content_of(&self, name: &Name) -> Result<Vec<u8>, PerError>
        ensures ok { IfOk result (λ content. content.items ≡ bytes_of_file
            (element_at self.now.session.files name.now)) }
        ensures memory { IfErr result (λ error. error ≡ PerError.OutOfMemory) }
    {
        match self.files.get(name) {
            Some(file) => copied(self.alloc, file.bytes()),
            None => Ok(Vec::new(self.alloc)),
        }
    }

    /// Releases the handle of this number, where it is open; nothing else changes.
    fn release(&mut self, number: u32)
        ensures { self.new ≡ record self.old { session = released self.old.session number } }
    {
        let _handle = self.handles.remove(&number);
    }
}

/// No flag.
fn plain() -> OpenMode
    ensures { result ≡ modes.plain }
{
    OpenMode::empty()
}

/// A copy of these bytes; the only error is that memory ran out.
fn copied(alloc: Global, bytes: &[u8]) -> Result<Vec<u8>, PerError>
    ensures ok { IfOk result (λ copy. copy.items ≡ bytes.now) }
    ensures memory { IfErr result (λ error. error ≡ PerError.OutOfMemory) }
{
    match Vec::from_slice(alloc, bytes) {
        Ok(copy) => Ok(copy),
        Err(_) => Err(PerError::OutOfMemory),
    }
}
