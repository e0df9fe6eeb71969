//! The files of a folder, as the operating system has them: each call of the trait is one call of std.

ghost use Rattle.std.specs.Prelude.{◌≡◌, IfOk};

use crate::errors::{passed_by, unless_outside};
use crate::held::{Access, HostSystem};
use crate::listing::list_folder;
use std::alloc::Global;
use std::fs::{self, File, OpenOptions};
use std::io;
use std::os::unix::fs::FileExt;
use std::rt::Files;
use system_model::{Reading, System};

/// A file of a folder, which is open.
#[derive(Drop)]
pub struct HostFile {
    number: u32,
    file: File,
}

impl<'a, R: Files<File = File>> System for HostSystem<'a, R> {
    ghost use Rattle.std.specs.Prelude.{false};
    ghost use Rattle.disk_model.specs.Silence.{silent_is_lawful};
    ghost use Rattle.system_model.specs.Unmodelled.{unmodelled, unmodelled_saves};

    type File = HostFile;

    ghost number = { λ file. file.number };

    ghost told = { false };

    ghost medium = { λ _. unmodelled };

    ghost lawful = { λ _. silent_is_lawful 0 };

    ghost saves = { λ _ _. unmodelled_saves };

    fn list(&mut self, alloc: Global) -> io::Result<Vec<u32>> {
        match self.folder {
            Some(_) => Ok(list_folder(self.rt, alloc, self.dir.as_str(), self.kind)?.numbers),
            None => Ok(Vec::new(alloc)),
        }
    }

    fn is_file(&mut self, file: u32) -> io::Result<bool> {
        match fs::metadata(self.rt, self.path_of(file)?.as_str()) {
            Ok(found) => Ok(found.is_file()),
            Err(error) => unless_outside(error, false),
        }
    }

    fn open(&mut self, file: u32) -> io::Result<Option<HostFile>> {
        let mut options = OpenOptions::new();
        options.read(true).write(self.access == Access::Write);
        match self.opened(file, &options) {
            Ok(found) => Ok(Some(found)),
            Err(error) => unless_outside(error, None),
        }
    }

    fn set_aside(&mut self, file: u32) -> io::Result<()> {
        let path = self.path_of(file)?;
        let aside = format!(in self.alloc; "{path}.unreadable")?;
        self.rt.rename(path.as_str(), aside.as_str())
    }

    fn make(&mut self, file: u32) -> io::Result<HostFile> {
        let mut options = OpenOptions::new();
        options.read(true).write(true).create_new(true);
        self.opened(file, &options)
    }

    fn close(&mut self, _file: HostFile) {}

    fn read(&mut self, file: &HostFile, at: u64, out: &mut [u8]) -> io::Result<Reading> {
        match file.file.read_at(out, at) {
            Ok(count) => Ok(Reading::Bytes(count)),
            Err(error) => {
                let rest = (PAGE_BYTES - at % PAGE_BYTES) as usize;
                unless_outside(error, Reading::Unreadable(rest))
            }
        }
    }

    fn length(&mut self, file: &HostFile) -> io::Result<u64> {
        Ok(file.file.metadata()?.len())
    }

    fn write(&mut self, file: &HostFile, at: u64, bytes: &[u8]) -> io::Result<usize> {
        file.file.write_at(bytes, at)
    }

    fn sync_file(&mut self, file: &HostFile) -> io::Result<()> {
        file.file.sync_data().or_else(passed_by)
    }

    fn sync_folder(&mut self) -> io::Result<()> {
        match (&self.folder, self.access) {
            (Some(folder), Access::Write) => folder.sync_all(),
            (Some(folder), Access::Read) => folder.sync_all().or_else(passed_by),
            (None, _) => Ok(()),
        }
    }

    fn announce(&mut self, _file: u32, _at: u64, _bytes: &[u8]) -> io::Result<()> {
        Ok(())
    }

    fn settle(&mut self) -> io::Result<()> {
        Ok(())
    }
}

impl<'a, R: Files<File = File>> HostSystem<'a, R> {
    fn opened(&self, number: u32, options: &OpenOptions) -> io::Result<HostFile>
        ensures { IfOk result (λ file. file.number ≡ number) }
    {
        if self.folder.is_none() {
            return Err(io::Error::from(io::ErrorKind::NotFound));
        }
        let file = options.open(self.rt, self.path_of(number)?.as_str())?;
        Ok(HostFile { number, file })
    }

    fn path_of(&self, number: u32) -> io::Result<String> {
        Ok(self.kind.path_of(self.alloc, self.dir.as_str(), number)?)
    }
}

/// How many bytes the system reads as one, and cannot read as one.
const PAGE_BYTES: u64 = 4096;
