//! What is in a folder.

ghost use Rattle.std.specs.Prelude.{◌≡◌, ◌++◌, ◌∷◌, ℕ, [], OnOk, IfSome, Contains};

use crate::names::DeviceKind;
use std::alloc::{AllocError, Global};
use std::fs::{self, File};
use std::io;
use std::rt::Files;

/// What is in a folder: the numbers of its files, and whether something else is.
#[derive(Drop)]
pub(crate) struct Listing {
    pub(crate) numbers: Vec<u32>,
    pub(crate) has_others: bool,
}

/// Lists a folder. A name that is no text is none of a file.
pub(crate) fn list_folder<R: Files<File = File>>(
    rt: &R,
    alloc: Global,
    dir: &str,
    kind: DeviceKind,
) -> io::Result<Listing> {
    let mut found = Listing {
        numbers: Vec::new(alloc),
        has_others: false,
    };
    for entry in fs::read_dir(&(rt, alloc), dir)? {
        match entry {
            Ok(entry) => found.note(kind, entry.file_name())?,
            Err(error) if error.kind() == io::ErrorKind::InvalidFilename => found.has_others = true,
            Err(error) => return Err(error),
        }
    }
    Ok(found)
}

impl Listing {
    ghost use Rattle.per_system.specs.Names.{IsNumberOf, file_name};

    /// Notes a name.
    fn note(&mut self, kind: DeviceKind, name: &str) -> Result<(), AllocError>
        ensures listed { OnOk result ((n : ℕ) → IsNumberOf kind n → name.now ≡ file_name kind n
            → self.new.numbers.items ≡ self.old.numbers.items ++ n ∷ []) }
    {
        match kind.number_of(name) {
            Some(number) => self.numbers.push(number)?,
            None => self.has_others = true,
        }
        Ok(())
    }
}
