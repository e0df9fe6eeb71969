//! Recovering and resetting files by name.

ghost use Rattle.std.specs.Prelude.{◌≡◌, ◌≢◌, ◌≤◌, ◌<◌, ℕ, List, None, Some, MatchOption, length, option_copied, IfErr};
ghost use Rattle.std.specs.Prelude.{IsTrue, OnErr, OnOk, ⊤};
ghost use Rattle.std.specs.Bool.{OnFalse, OnTrue};
ghost use Rattle.per_base.specs.declared.elements.Element.{Element};
ghost use Rattle.per_base.specs.Maps.{element_at, has, with_element, without};
ghost use Rattle.per_base.specs.Refusals.{IsDue, IsRefusal};
ghost use Rattle.file_core.specs.Files as core;
ghost use Rattle.file_core.specs.Infos as infos;
ghost use Rattle.file_handles.specs.ByName as calls;
ghost use Rattle.file_handles.specs.Opening as opening;
ghost use Rattle.file_handles.specs.Sessions.{blocking, room_for};

use crate::handle::blocking;
use crate::map::{add_file, len_of, name_len, recover_in, remove_file, replace_in};
use crate::table::FileTable;
use file_core::{File, made};
use per_base::{Bytes, Cause, Holder, Name, OpenKind, PerError};

impl FileTable {
    /// Recovers a file: a readable one stays; an unreadable one gets its salvage as its content, else its initial
    /// content (`initial`, where it has one), else it is deleted.
    ///
    /// # Errors
    ///
    /// `IllegalWriteAccess` where the storage is read-only; `FileNotFound`; `ResourceBusy` where the file has a handle;
    /// `OutOfStorageSpace` where the initial content does not fit; `OutOfMemory`.
    pub fn recover_file(
        &mut self,
        name: &Name,
        now: u64,
        initial: Option<&[u8]>,
    ) -> Result<(), PerError>
        // An initial content is at most as long as a file may be, 1,048,576 bytes.
        requires { MatchOption (option_copied initial) ⊤ (λ bytes. length bytes ≤ 1048576) }
        // The session after the call, or the refusal that is due, is what `recover_file` gives for the session
        // before.
        ensures ok { OnOk result (calls.recover_file self.old.storage self.old.session name.now now
            (option_copied initial.entry) ≡ Ok self.new.session) }
        ensures refused { IfErr result (λ error. IsRefusal
            (calls.recover_file self.old.storage self.old.session name.now now (option_copied initial.entry)) error) }
        // `OutOfMemory` never replaces a refusal; it comes only where the initial content is taken.
        ensures memory { IfErr result (λ error. error ≡ PerError.OutOfMemory
            → IsDue (calls.recover_file self.old.storage self.old.session name.now now
            (option_copied initial.entry))) }
        ensures copies { IfErr result (λ error. error ≡ PerError.OutOfMemory → (old : Element)
            → element_at self.old.session.files name.now ≡ Some old
            → calls.TakesInitial (option_copied initial.entry) old.content) }
        ensures unchanged { OnErr result (self.new ≡ self.old) }
        ensures storage { self.new.storage ≡ self.old.storage }
        ensures moment { self.new.moment ≡ self.old.moment }
    {
        if self.storage.read_only {
            return Err(PerError::IllegalWriteAccess);
        }
        if !self.file_exists(name) {
            return Err(PerError::FileNotFound);
        }
        if let Some(error) = self.held_by(name) {
            return Err(error);
        }
        self.recover_free(name, now, initial)
    }

    /// The same of a file that is there and has no handle.
    #[tactic(auto, using(crate::specs::lemmas::Named::recovers_good, crate::specs::lemmas::Named::recovers_salvage, crate::specs::lemmas::Named::recovers_initial, crate::specs::lemmas::Named::recovers_none))]
    fn recover_free(
        &mut self,
        name: &Name,
        now: u64,
        initial: Option<&[u8]>,
    ) -> Result<(), PerError>
        // An initial content is at most as long as a file may be, 1,048,576 bytes.
        requires small { MatchOption (option_copied initial) ⊤ (λ bytes. length bytes ≤ 1048576) }
        requires free { opening.busy (blocking OpenKind.Write name.now self.old.session.handles) ≡ None }
        requires there { IsTrue (has self.old.session.files name.now) }
        ensures ok { OnOk result ((old : Element) → element_at self.old.session.files name.now ≡ Some old
            → calls.recovered self.old.storage self.old.session name.now now (option_copied initial.entry) old
            old.content ≡ Ok self.new.session) }
        ensures refused { IfErr result (λ error. (old : Element) → element_at self.old.session.files name.now ≡ Some old
            → IsRefusal (calls.recovered self.old.storage self.old.session name.now now (option_copied initial.entry)
            old old.content) error) }
        ensures memory { IfErr result (λ error. error ≡ PerError.OutOfMemory → (old : Element)
            → element_at self.old.session.files name.now ≡ Some old
            → IsDue (calls.recovered self.old.storage self.old.session name.now now (option_copied initial.entry) old
            old.content)) }
        ensures copies { IfErr result (λ error. error ≡ PerError.OutOfMemory → (old : Element)
            → element_at self.old.session.files name.now ≡ Some old
            → calls.TakesInitial (option_copied initial.entry) old.content) }
        ensures unchanged { OnErr result (self.new ≡ self.old) }
        ensures storage { self.new.storage ≡ self.old.storage }
        ensures moment { self.new.moment ≡ self.old.moment }
    {
        if !self.is_unreadable(name) {
            return Ok(());
        }
        if self.salvage(name, now) {
            return Ok(());
        }
        let Some(bytes) = initial else {
            self.vanish(name);
            return Ok(());
        };
        if let Some(error) = self.refuses_content(name, bytes) {
            return Err(error);
        }
        let Ok(copy) = Vec::from_slice(self.alloc, bytes) else {
            return Err(PerError::OutOfMemory);
        };
        self.give(name, Bytes::new(copy), now, Cause::Recovery);
        Ok(())
    }

    /// Gives the file of this name its initial content (`initial`); the file is made where it is missing.
    ///
    /// # Errors
    ///
    /// `IllegalWriteAccess` where the storage is read-only; `InitValueNotAvailable` where there is no initial content;
    /// `ResourceBusy` where the file has a handle; `LimitReached` with `Elements`; `OutOfStorageSpace`; `OutOfMemory`.
    pub fn reset_file(
        &mut self,
        name: &Name,
        now: u64,
        initial: Option<&[u8]>,
    ) -> Result<(), PerError>
        // An initial content is at most as long as a file may be, 1,048,576 bytes.
        requires { MatchOption (option_copied initial) ⊤ (λ bytes. length bytes ≤ 1048576) }
        // The session after the call, or the refusal that is due, is what `reset_file` gives for the session before.
        ensures ok { OnOk result (calls.reset_file self.old.storage self.old.session name.now now
            (option_copied initial.entry) ≡ Ok self.new.session) }
        ensures refused { IfErr result (λ error. IsRefusal
            (calls.reset_file self.old.storage self.old.session name.now now (option_copied initial.entry)) error) }
        // Memory runs out only where nothing refuses the call.
        ensures memory { IfErr result (λ error. error ≡ PerError.OutOfMemory
            → IsDue (calls.reset_file self.old.storage self.old.session name.now now (option_copied initial.entry))) }
        ensures unchanged { OnErr result (self.new ≡ self.old) }
        ensures storage { self.new.storage ≡ self.old.storage }
        ensures moment { self.new.moment ≡ self.old.moment }
    {
        if self.storage.read_only {
            return Err(PerError::IllegalWriteAccess);
        }
        let Some(bytes) = initial else {
            return Err(PerError::InitValueNotAvailable);
        };
        if let Some(error) = self.held_by(name) {
            return Err(error);
        }
        if let Some(error) = self.too_many(name) {
            return Err(error);
        }
        if let Some(error) = self.refuses_content(name, bytes) {
            return Err(error);
        }
        let Ok(copy) = Vec::from_slice(self.alloc, bytes) else {
            return Err(PerError::OutOfMemory);
        };
        if self.file_exists(name) {
            self.give(name, Bytes::new(copy), now, Cause::Reset);
            Ok(())
        } else {
            self.make(name, Bytes::new(copy), now)
        }
    }

    /// The lowest handle on the file of this name, as an error.
    pub(crate) fn held_by(&self, name: &Name) -> Option<PerError>
        ensures busy { result ≡ opening.busy (blocking OpenKind.Write name.now self.now.session.handles) }
    {
        match blocking(OpenKind::Write, name, &self.handles) {
            Some(number) => Some(PerError::ResourceBusy {
                holder: Holder::Handle(number),
            }),
            None => None,
        }
    }

    /// Makes the salvage of a file without a handle its content.
    fn salvage(&mut self, name: &Name, now: u64) -> bool
        requires free { opening.busy (blocking OpenKind.Write name.now self.old.session.handles) ≡ None }
        requires there { IsTrue (has self.old.session.files name.now) }
        ensures some { OnTrue result ((old : Element) → element_at self.old.session.files name.now ≡ Some old
            → calls.HasSalvage old.content) }
        ensures recovered { OnTrue result ((old : Element) → element_at self.old.session.files name.now ≡ Some old
            → self.new.session ≡ record self.old.session {
              files =
                  with_element self.old.session.files name.now (calls.salvaged now old);
            }) }
        ensures storage { self.new.storage ≡ self.old.storage }
        ensures moment { self.new.moment ≡ self.old.moment }
        ensures unchanged { OnFalse result (self.new ≡ self.old) }
        ensures none { OnFalse result ((old : Element) → element_at self.old.session.files name.now ≡ Some old
            → core.NoSalvage old.content) }
    {
        recover_in(&mut self.files, name, now)
    }

    /// What refuses these bytes as the content of this name: they are too long, or there is no room.
    fn refuses_content(&self, name: &Name, bytes: &[u8]) -> Option<PerError>
        ensures { result ≡ core.too_long (room_for self.now.session.files name.now self.now.storage.maximum)
            (length bytes.now) }
    {
        self.room_for(name).too_long(bytes.len() as u64)
    }

    /// Gives a file without a handle other bytes, for which there is room.
    pub(crate) fn give(&mut self, name: &Name, bytes: Bytes, now: u64, cause: Cause)
        requires free { opening.busy (blocking OpenKind.Write name.now self.old.session.handles) ≡ None }
        requires there { IsTrue (has self.old.session.files name.now) }
        // At most 1,048,576 bytes, the most of a file.
        requires small { length bytes ≤ 1048576 }
        requires fits { core.too_long (room_for self.old.session.files name.now self.old.storage.maximum) (length bytes)
            ≡ None }
        ensures given { (old : Element) → element_at self.old.session.files name.now ≡ Some old
            → self.new.session ≡ record self.old.session {
              files =
                  with_element self.old.session.files name.now (core.changed_to bytes now cause old);
            } }
        ensures storage { self.new.storage ≡ self.old.storage }
        ensures moment { self.new.moment ≡ self.old.moment }
    {
        let after = bytes.len() as u64;
        let before = len_of(&self.files, name);
        replace_in(&mut self.files, name, bytes, now, cause);
        self.size = self.size - before + after;
    }

    /// Makes a file that is missing, with its initial content, for which there is room.
    fn make(&mut self, name: &Name, bytes: Bytes, now: u64) -> Result<(), PerError>
        requires missing { element_at self.old.session.files name.now ≡ None }
        requires few { opening.too_many self.old.session.files name.now ≡ None }
        // At most 1,048,576 bytes, the most of a file.
        requires small { length bytes ≤ 1048576 }
        requires fits { core.too_long (room_for self.old.session.files name.now self.old.storage.maximum) (length bytes)
            ≡ None }
        ensures ok { OnOk result (self.new.session ≡ record self.old.session {
          files =
              with_element self.old.session.files name.now (core.file_of (Some (infos.made now Cause.Reset)) bytes);
        }) }
        ensures memory { IfErr result (λ error. error ≡ PerError.OutOfMemory) }
        ensures unchanged { OnErr result (self.new ≡ self.old) }
        ensures storage { self.new.storage ≡ self.old.storage }
        ensures moment { self.new.moment ≡ self.old.moment }
    {
        let len = bytes.len() as u64;
        let extra = name_len(name) + len;
        let file = File::new(made(now, Cause::Reset), bytes);
        let added = add_file(&mut self.files, name, file);
        if let Err(error) = added {
            return Err(error);
        }
        self.size += extra;
        Ok(())
    }

    /// Removes a file without a handle.
    #[tactic(auto, using(crate::specs::lemmas::Entries::len_fits))]
    pub(crate) fn vanish(&mut self, name: &Name)
        requires free { opening.busy (blocking OpenKind.Write name.now self.old.session.handles) ≡ None }
        requires there { IsTrue (has self.old.session.files name.now) }
        ensures { self.new ≡ record self.old {
          session = record self.old.session {
            files =
                without self.old.session.files name.now;
          };
        } }
    {
        let Some(file) = self.files.get(name) else {
            return;
        };
        let taken = name_len(name) + u64::from(file.len());
        remove_file(&mut self.files, name);
        self.size -= taken;
    }
}
