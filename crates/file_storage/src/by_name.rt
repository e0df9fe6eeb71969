//! The calls by name.

ghost use Rattle.std.specs.Prelude.{◌≡◌, ◌≤◌, length, ⊤, MatchOption, option_copied, IfErr, IfOk, OnErr, OnOk, Ok, Err};
ghost use Rattle.std.specs.Prelude.{Some};
ghost use Rattle.per_base.specs.declared.elements.StoreKind.TheVariants as kinds;
ghost use Rattle.deployment_model.specs.Conditions.{IsStorage};
ghost use Rattle.deployment_model.specs.Data.{storage_data};
ghost use Rattle.per_base.specs.declared.elements.Element.{Element};
ghost use Rattle.per_base.specs.Maps.{element_at, has, names_of, size_of};
ghost use Rattle.per_base.specs.Refusals.{IsDue, IsRefusal};
ghost use Rattle.deployment_model.specs.Lookups.{initial_content};
ghost use Rattle.file_handles.specs.ByName as calls;
ghost use Rattle.file_storage.specs.FileSessions.{storage_of};

use crate::files::Files;
use deployment_model::StorageConfig;
use per_base::{FileInfo, Name, PerError};

impl Files {
    /// Whether there is a file of this name. Does not allocate.
    pub fn file_exists(&self, name: &Name) -> bool
        ensures { result ≡ has self.now.session.files name.now }
    {
        self.table.file_exists(name)
    }

    /// The names of all files, ascending.
    ///
    /// # Errors
    ///
    /// `OutOfMemory`.
    pub fn all_file_names(&self) -> Result<Vec<Name>, PerError>
        ensures names { IfOk result (λ names. names.items ≡ names_of self.now.session.files) }
        // The only error is that memory ran out.
        ensures memory { IfErr result (λ error. error ≡ PerError.OutOfMemory) }
    {
        self.table.all_file_names()
    }

    /// The length of the file of this name in bytes, also of an unreadable one. Does not allocate.
    ///
    /// # Errors
    ///
    /// `FileNotFound` where there is no file of this name.
    pub fn current_file_size(&self, name: &Name) -> Result<u64, PerError>
        // The answer, or the refusal that is due, is what `current_file_size` gives for these files and this name.
        ensures ok { IfOk result (λ size. calls.current_file_size self.now.session.files name.now ≡ Ok size) }
        ensures refused { IfErr result (λ error. calls.current_file_size self.now.session.files name.now ≡ Err error) }
    {
        self.table.current_file_size(name)
    }

    /// The info of the file of this name, also of an unreadable one. Does not allocate.
    ///
    /// # Errors
    ///
    /// `FileNotFound` where there is no file of this name.
    pub fn file_info(&self, name: &Name) -> Result<FileInfo, PerError>
        // The answer, or the refusal that is due, is what `file_info` gives for these files and this name.
        ensures ok { IfOk result (λ info. calls.file_info self.now.session.files name.now ≡ Ok info) }
        ensures refused { IfErr result (λ error. calls.file_info self.now.session.files name.now ≡ Err error) }
    {
        self.table.file_info(name)
    }

    /// The size of the working files in bytes: names and contents. Does not allocate.
    pub fn current_size(&self) -> u64
        ensures { result ≡ size_of self.now.session.files }
    {
        self.table.current_size()
    }

    /// Sets the time, in seconds, that is recorded in files that are written or cut from now on. Does not allocate.
    pub fn set_now(&mut self, now: u64)
        ensures { self.new ≡ record self.old { moment = now } }
    {
        self.table.set_now(now);
    }

    /// Deletes a file.
    ///
    /// # Errors
    ///
    /// `IllegalWriteAccess` where the storage is read-only; `FileNotFound`; `ResourceBusy` where it has a handle.
    pub fn delete_file(&mut self, name: &Name) -> Result<(), PerError>
        // The session after the call, or the refusal that is due, is what `delete_file` gives for the session before.
        ensures ok { OnOk result (calls.delete_file (storage_of self.old.config) self.old.session name.now
            ≡ Ok self.new.session) }
        ensures refused { IfErr result (λ error. calls.delete_file (storage_of self.old.config) self.old.session
            name.now ≡ Err error) }
        ensures beside { self.new ≡ record self.old { session = self.new.session } }
        ensures unchanged { OnErr result (self.new ≡ self.old) }
    {
        self.table.invariants();
        self.table.delete_file(name)
    }

    /// Recovers a file: a readable one stays as it is; an unreadable one gets its salvage as its content, else its
    /// initial content, else it is deleted.
    ///
    /// # Errors
    ///
    /// `IllegalWriteAccess` where the storage is read-only; `FileNotFound`; `ResourceBusy` where the file has a handle;
    /// `OutOfStorageSpace` where the initial content does not fit; `OutOfMemory`.
    pub fn recover_file(&mut self, name: &Name, now: u64) -> Result<(), PerError>
        // The session after the call, or the refusal that is due, is what `recover_file` gives for the session
        // before.
        ensures ok { OnOk result (calls.recover_file (storage_of self.old.config) self.old.session name.now now
            (initial_content self.old.config name.now) ≡ Ok self.new.session) }
        ensures refused { IfErr result (λ error. IsRefusal
            (calls.recover_file (storage_of self.old.config) self.old.session name.now now
            (initial_content self.old.config name.now)) error) }
        // `OutOfMemory` never comes instead of a refusal, and only where the initial content is copied.
        ensures memory { IfErr result (λ error. error ≡ PerError.OutOfMemory
            → IsDue (calls.recover_file (storage_of self.old.config) self.old.session name.now now
            (initial_content self.old.config name.now))) }
        ensures copies { IfErr result (λ error. error ≡ PerError.OutOfMemory → (file : Element)
            → element_at self.old.session.files name.now ≡ Some file
            → calls.TakesInitial (initial_content self.old.config name.now) file.content) }
        ensures beside { self.new ≡ record self.old { session = self.new.session } }
        ensures unchanged { OnErr result (self.new ≡ self.old) }
    {
        let initial = initial_content(&self.config, name);
        self.table.invariants();
        self.table.recover_file(name, now, initial)
    }

    /// The file of this name gets its initial content, and is made where it is missing.
    ///
    /// # Errors
    ///
    /// `IllegalWriteAccess` where the storage is read-only; `InitValueNotAvailable` where there is no initial content;
    /// `ResourceBusy` where the file has a handle; `LimitReached` with `Elements` where it is missing and there are
    /// 1,024; `OutOfStorageSpace` where the initial content does not fit; `OutOfMemory`.
    pub fn reset_file(&mut self, name: &Name, now: u64) -> Result<(), PerError>
        // The session after the call, or the refusal that is due, is what `reset_file` gives for the session before.
        ensures ok { OnOk result (calls.reset_file (storage_of self.old.config) self.old.session name.now now
            (initial_content self.old.config name.now) ≡ Ok self.new.session) }
        ensures refused { IfErr result (λ error. IsRefusal
            (calls.reset_file (storage_of self.old.config) self.old.session name.now now
            (initial_content self.old.config name.now)) error) }
        // `OutOfMemory` never comes instead of a refusal.
        ensures memory { IfErr result (λ error. error ≡ PerError.OutOfMemory
            → IsDue (calls.reset_file (storage_of self.old.config) self.old.session name.now now
            (initial_content self.old.config name.now))) }
        ensures beside { self.new ≡ record self.old { session = self.new.session } }
        ensures unchanged { OnErr result (self.new ≡ self.old) }
    {
        let initial = initial_content(&self.config, name);
        self.table.reset_file(name, now, initial)
    }
}

/// What the file of this name starts with.
fn initial_content<'a>(config: &'a StorageConfig, name: &Name) -> Option<&'a [u8]>
    requires valid { IsStorage (storage_data config.now) }
    requires of_files { config.now.kind ≡ kinds.Files }
    ensures initial { option_copied result ≡ initial_content (storage_data config.now) name.now }
    ensures small { MatchOption (option_copied result) ⊤ (λ bytes. length bytes ≤ 1048576) }
{
    match config.initial(name) {
        Some(bytes) => Some(bytes.as_slice()),
        None => None,
    }
}
