//! The calls by name.

ghost use Rattle.std.specs.Prelude.{◌≡◌, IfErr, IfOk, OnErr, OnOk};
ghost use Rattle.per_base.specs.Maps.{names_of};
ghost use Rattle.file_handles.specs.ByName as calls;

use crate::table::FileTable;
use file_core::File;
use per_base::{FileInfo, Name, PerError};
use std::alloc::Global;
use std::collections::BTreeMap;

impl FileTable {
    /// The length of the file of this name in bytes, also of an unreadable one. Does not allocate.
    ///
    /// # Errors
    ///
    /// `FileNotFound` where there is no file of this name.
    pub fn current_file_size(&self, name: &Name) -> Result<u64, PerError>
        // The answer, or the refusal that is due, is what `current_file_size` gives for these files and this name.
        ensures ok { IfOk result (λ size. calls.current_file_size self.now.session.files name.now ≡ Ok size) }
        ensures refused { IfErr result (λ error. calls.current_file_size self.now.session.files name.now ≡ Err error) }
    {
        match self.files.get(name) {
            Some(file) => Ok(u64::from(file.len())),
            None => Err(PerError::FileNotFound),
        }
    }

    /// The info of the file of this name, also of an unreadable one. Does not allocate.
    ///
    /// # Errors
    ///
    /// `FileNotFound` where there is no file of this name.
    pub fn file_info(&self, name: &Name) -> Result<FileInfo, PerError>
        // The answer, or the refusal that is due, is what `file_info` gives for these files and this name.
        ensures ok { IfOk result (λ info. calls.file_info self.now.session.files name.now ≡ Ok info) }
        ensures refused { IfErr result (λ error. calls.file_info self.now.session.files name.now ≡ Err error) }
    {
        match self.files.get(name) {
            Some(file) => Ok(file.info()),
            None => Err(PerError::FileNotFound),
        }
    }

    /// The names of all files, ascending.
    ///
    /// # Errors
    ///
    /// `OutOfMemory`.
    pub fn all_file_names(&self) -> Result<Vec<Name>, PerError>
        ensures names { IfOk result (λ names. names.items ≡ names_of self.now.session.files) }
        // The only error is that memory ran out.
        ensures memory { IfErr result (λ error. error ≡ PerError.OutOfMemory) }
    {
        copied_names(self.alloc, &self.files)
    }

    /// Deletes a file.
    ///
    /// # Errors
    ///
    /// `IllegalWriteAccess` where the storage is read-only; `FileNotFound`; `ResourceBusy` where it has a handle.
    pub fn delete_file(&mut self, name: &Name) -> Result<(), PerError>
        // The session after the call, or the refusal that is due, is what `delete_file` gives for the session before.
        ensures ok { OnOk result (calls.delete_file self.old.storage self.old.session name.now ≡ Ok self.new.session) }
        ensures refused { IfErr result (λ error. calls.delete_file self.old.storage self.old.session name.now
            ≡ Err error) }
        ensures unchanged { OnErr result (self.new ≡ self.old) }
        ensures storage { self.new.storage ≡ self.old.storage }
        ensures moment { self.new.moment ≡ self.old.moment }
    {
        if self.storage.read_only {
            return Err(PerError::IllegalWriteAccess);
        }
        if !self.file_exists(name) {
            return Err(PerError::FileNotFound);
        }
        if let Some(error) = self.held_by(name) {
            return Err(error);
        }
        self.vanish(name);
        Ok(())
    }
}

/// Copies of the names of these files, in their order.
fn copied_names(alloc: Global, files: &BTreeMap<Name, File>) -> Result<Vec<Name>, PerError>
    ensures names { IfOk result (λ names. names.items ≡ names_of files.now.entries) }
    ensures memory { IfErr result (λ error. error ≡ PerError.OutOfMemory) }
{
    let mut names = Vec::new(alloc);
    for (name, _) in files {
        let Ok(copy) = name.copy() else {
            return Err(PerError::OutOfMemory);
        };
        if names.push(copy).is_err() {
            return Err(PerError::OutOfMemory);
        }
    }
    Ok(names)
}
