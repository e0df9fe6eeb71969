//! The files that are open.

ghost use Rattle.std.specs.Prelude.{◌≡◌, ◌≢◌, ◌⊎◌, ◌↔◌, ℕ, ◌≤◌, ◌+◌, IsTrue, IsFalse, IfOk, OnOk, OnErr, length, take};
ghost use Rattle.std.specs.Prelude.{[], Contains};
ghost use Rattle.disk_model.specs.Image.{put_image};
ghost use Rattle.disk_model.specs.Case.{Case, Follows};
ghost use Rattle.disk_model.specs.Medium.{Quiet, Elapses, OnlyReads, WritesNothing};
ghost use Rattle.system_model.specs.SystemMedium.{IsSafe, IsWhole, HasNothingFree, InRange, ShowsBytes, Looks};
ghost use Rattle.system_model.specs.SystemMedium.{IsAbsent};
ghost use Rattle.system_model.specs.SystemMedium.{AnnounceCase, TearCase, read_count, ReadGives};

use crate::notes::is_noted;
use crate::range::Range;
use crate::reading::{Answer, answer_of};
use std::alloc::Global;
use std::collections::{BTreeMap, BTreeSet};
use std::io;
use std::marker::Model;
use system_model::{Reading, System};

/// How many files are open at once at most; fewer than a system lets a program have.
const OPEN_FILES: usize = 500;

/// A system, with its files that are open, each under its number. Contracts see the system.
#[derive(Drop)]
pub struct Opened<S: System> {
    system: S,
    files: BTreeMap<u32, S::File>,
    /// When each was last asked for, as the number of the question.
    uses: BTreeMap<u32, u64>,
    /// Those that were open, or are: what stands in their place is a file.
    found: BTreeSet<u32>,
    /// How often files were asked for.
    questions: u64,
    /// Whether a file was found, or made.
    has_files: bool,
    /// The first file that the folder listed.
    listed: Option<u32>,
    /// Whether a byte of a file could be read.
    has_read: bool,
    /// The first file of which none could be read.
    unreadable: Option<u32>,
}

impl<S: System> Model for Opened<S> {
    ghost use Rattle.folder_disk.specs.Files.{AreByNumber};

    ghost Value = { S };

    ghost coded = { S.code };

    ghost view = { λ opened. opened.system };

    ghost invariant = { λ opened. AreByNumber S.number opened.files };
}

impl<S: System> Opened<S> {
    /// The system, with no file open yet.
    pub(crate) fn new(alloc: Global, system: S) -> Opened<S>
        ensures { result ≡ system }
    {
        Opened {
            system,
            files: BTreeMap::new(alloc),
            uses: BTreeMap::new(alloc),
            found: BTreeSet::new(alloc),
            questions: 0,
            has_files: false,
            listed: None,
            has_read: false,
            unreadable: None,
        }
    }

    /// The system alone.
    pub(crate) fn into_system(self) -> S
        ensures { result ≡ self }
    {
        self.system
    }

    /// Whether a file was found, or made.
    pub(crate) fn has_files(&self) -> bool {
        self.has_files
    }

    /// The first file that the folder lists, where it gives none of them.
    pub(crate) fn refused(&self) -> Option<u32> {
        if self.has_files { None } else { self.listed }
    }

    /// The first file of which no byte could be read, where none could be of any other.
    pub(crate) fn unreadable(&self) -> Option<u32> {
        if self.has_read { None } else { self.unreadable }
    }

    /// Whether one file more can be open, or this one is.
    pub(crate) fn has_room_for(&self, file: u32) -> bool {
        self.files.len() < OPEN_FILES || self.files.contains_key(&file)
    }

    /// The file that was not asked for the longest, of those that are open and in none of these ranges.
    pub(crate) fn least_used(&self, ranges: &[Range]) -> Option<u32> {
        let mut least = None;
        for (file, used) in self.uses.iter() {
            if is_noted(ranges, *file) {
                continue;
            }
            least = earlier(least, *file, *used);
        }
        match least {
            Some((file, _)) => Some(file),
            None => None,
        }
    }

    /// Opens the file, if it is there and not open yet, and says whether it is there.
    pub(crate) fn find(&mut self, file: u32) -> io::Result<bool>
        ensures absent { IsTrue S.told → IfOk result (λ found. IsFalse found
            → IsAbsent (S.medium self.new) file) }
        ensures looks { Looks (S.medium self.old) (S.medium self.new) }
    {
        self.questions = self.questions.saturating_add(1);
        if self.files.contains_key(&file) {
            self.note_use(file);
            return Ok(true);
        }
        if !self.found.contains(&file) && !self.system.is_file(file)? {
            return Ok(false);
        }
        match self.system.open(file)? {
            Some(found) => {
                self.keep(file, found)?;
                Ok(true)
            }
            None => Ok(false),
        }
    }

    /// Looks whether the file can be read, as long as none could: a device that answers nowhere has failed.
    pub(crate) fn look_into(&mut self, file: u32)
        ensures { Looks (S.medium self.old) (S.medium self.new) }
    {
        if self.has_read {
            return;
        }
        let answer = answer_of(self, file);
        self.note_answer(file, answer);
    }

    /// Notes whether a file can be read.
    fn note_answer(&mut self, file: u32, answer: Answer)
        ensures { self.new ≡ self.old }
    {
        match answer {
            Answer::Unknown => {}
            Answer::Readable => self.has_read = true,
            Answer::Unreadable => self.unreadable = self.unreadable.or(Some(file)),
        }
    }

    /// Makes the file, which is not there, and opens it. What stands in its place and cannot be opened is set aside.
    pub(crate) fn make(&mut self, file: u32) -> io::Result<()>
        requires { IsTrue S.told → (S.medium self.old).disk.image file ≡ [] }
        ensures reads { OnlyReads (S.medium self.old).disk (S.medium self.new).disk }
        ensures time { Elapses (S.medium self.old).disk (S.medium self.new).disk }
        ensures free { (f i : ℕ) → (S.medium self.new).free f i ↔ (S.medium self.old).free f i }
        ensures lost { (f i : ℕ) → (S.medium self.new).lost f i → (S.medium self.old).lost f i }
    {
        let made = self.made(file)?;
        self.keep(file, made)
    }

    /// The file that is made, once what stands in its place is set aside.
    fn made(&mut self, file: u32) -> io::Result<S::File>
        requires { IsTrue S.told → (S.medium self.old).disk.image file ≡ [] }
        ensures number { IfOk result (λ it. S.number it ≡ file) }
        ensures reads { OnlyReads (S.medium self.old).disk (S.medium self.new).disk }
        ensures time { Elapses (S.medium self.old).disk (S.medium self.new).disk }
        ensures free { (f i : ℕ) → (S.medium self.new).free f i ↔ (S.medium self.old).free f i }
        ensures lost { (f i : ℕ) → (S.medium self.new).lost f i → (S.medium self.old).lost f i }
    {
        match self.system.make(file) {
            Err(error) if error.kind() == io::ErrorKind::AlreadyExists => {
                self.system.set_aside(file)?;
                self.system.make(file)
            }
            done => done,
        }
    }

    /// Closes the file, if it is open.
    pub(crate) fn close(&mut self, file: u32)
        requires { IsTrue S.told → HasNothingFree (S.medium self.old) file }
        ensures looks { Looks (S.medium self.old) (S.medium self.new) }
    {
        self.uses.remove(&file);
        if let Some(open) = self.files.remove(&file) {
            self.system.close(open);
        }
    }

    /// Keeps an open file under its number.
    fn keep(&mut self, number: u32, file: S::File) -> io::Result<()>
        requires { S.number file ≡ number }
        ensures { self.new ≡ self.old }
    {
        self.has_files = true;
        let _ = self.found.insert(number);
        match self.files.insert(number, file) {
            Ok(_) => {
                self.note_use(number);
                Ok(())
            }
            Err(_) => Err(io::Error::from(io::ErrorKind::OutOfMemory)),
        }
    }

    /// Notes that the file was asked for now.
    fn note_use(&mut self, file: u32)
        ensures { self.new ≡ self.old }
    {
        let _ = self.uses.insert(file, self.questions);
    }

    /// The numbers of the files that the folder has.
    pub(crate) fn list(&mut self, alloc: Global) -> io::Result<Vec<u32>>
        ensures others { IsTrue S.told → IfOk result (λ files. (f : ℕ) → ¬ (Contains files.items f)
            → IsAbsent (S.medium self.new) f) }
        ensures looks { Looks (S.medium self.old) (S.medium self.new) }
    {
        let files = self.system.list(alloc)?;
        self.listed = files.first().copied();
        Ok(files)
    }

    /// Reads some bytes of an open file from `at` on, as the system does.
    pub(crate) fn read(&mut self, file: u32, at: u64, out: &mut [u8]) -> io::Result<Reading>
        ensures count { IfOk result (λ reading. read_count reading ≤ length out.old) }
        ensures gives { IsTrue S.told → IsWhole (S.medium self.old) file → IfOk result (λ reading.
            ReadGives ((S.medium self.old).disk.image file) at (length out.old) out.new reading) }
        ensures looks { Looks (S.medium self.old) (S.medium self.new) }
    {
        match self.files.get(&file) {
            Some(open) => self.system.read(open, at, out),
            None => Err(not_open()),
        }
    }

    /// How many bytes an open file has.
    pub(crate) fn length(&mut self, file: u32) -> io::Result<u64>
        ensures length { IsTrue S.told → IfOk result (λ n. n ≡ length ((S.medium self.old).disk.image file)) }
        ensures looks { Looks (S.medium self.old) (S.medium self.new) }
    {
        match self.files.get(&file) {
            Some(open) => self.system.length(open),
            None => Err(not_open()),
        }
    }

    /// Writes the bytes into an open file from `at` on, or some of the first of them, as the system does.
    pub(crate) fn write(&mut self, file: u32, at: u64, bytes: &[u8]) -> io::Result<usize>
        ensures count { IfOk result (λ n. n ≤ length bytes.now) }
        ensures image { IsTrue S.told → IfOk result (λ n. (S.medium self.new).disk.image
            ≡ put_image (S.medium self.old).disk.image file at (take n bytes.now)) }
        ensures now { IfOk result (λ n. Follows (TearCase file at n) (S.medium self.old).disk.now
            (S.medium self.new).disk.now) }
        ensures during { Follows (TearCase file at (length bytes.now)) (S.medium self.old).disk.now
            ((S.medium self.new).disk.since (S.medium self.old).disk.moment) }
        ensures time { Elapses (S.medium self.old).disk (S.medium self.new).disk }
        ensures named { (f : ℕ) → (S.medium self.old).named f → (S.medium self.new).named f }
        ensures failed { OnErr result (Looks (S.medium self.old) (S.medium self.new)) }
        ensures frees { IsTrue S.told → IfOk result (λ n. (f i : ℕ) → (S.medium self.new).free f i
            ↔ ((S.medium self.old).free f i ⊎ ((f ≡ file) × InRange at n i))) }
        ensures lost { (f i : ℕ) → (S.medium self.new).lost f i → (S.medium self.old).lost f i }
        ensures found { IsTrue S.told → IfOk result (λ n. (i : ℕ) → InRange at n i
            → ¬ ((S.medium self.new).lost file i)) }
        ensures again { (IsTrue S.told → (i : ℕ) → InRange at (length bytes.now) i → (S.medium self.old).free file i)
            → (IsTrue S.told → ShowsBytes ((S.medium self.old).disk.image file) at bytes.now)
            → OnlyReads (S.medium self.old).disk (S.medium self.new).disk }
    {
        match self.files.get(&file) {
            Some(open) => self.system.write(open, at, bytes),
            None => Err(not_open()),
        }
    }

    /// Syncs an open file, as the system does.
    pub(crate) fn sync_file(&mut self, file: u32) -> io::Result<()>
        ensures still { IsTrue S.told → OnOk result (IsWhole (S.medium self.old) file
            → HasNothingFree (S.medium self.new) file) }
        ensures kept { IsTrue S.told → OnOk result ((f i : ℕ) → (S.medium self.new).lost f i
            → (S.medium self.old).lost f i) }
        ensures others { IsTrue S.told → (f i : ℕ) → f ≢ file
            → ((S.medium self.new).lost f i → (S.medium self.old).lost f i)
            × ((S.medium self.new).free f i ↔ (S.medium self.old).free f i) }
        ensures failed { IsTrue S.told → OnErr result ((i : ℕ)
            → ((S.medium self.new).free file i ↔ (S.medium self.old).free file i)
            × ((S.medium self.new).lost file i → (S.medium self.old).free file i ⊎ (S.medium self.old).lost file i)) }
        ensures no_more { IsTrue S.told → (f i : ℕ) → (S.medium self.new).free f i → (S.medium self.old).free f i }
        ensures named { (f : ℕ) → (S.medium self.old).named f → (S.medium self.new).named f }
        ensures reads { OnlyReads (S.medium self.old).disk (S.medium self.new).disk }
        ensures time { Elapses (S.medium self.old).disk (S.medium self.new).disk }
    {
        match self.files.get(&file) {
            Some(open) => self.system.sync_file(open),
            None => Err(not_open()),
        }
    }

    /// Makes the names of all files durable, as the system does.
    pub(crate) fn sync_folder(&mut self) -> io::Result<()>
        ensures names { OnOk result ((f : ℕ) → (S.medium self.new).named f) }
        ensures looks { OnOk result (Looks (S.medium self.old) (S.medium self.new)) }
        ensures named { (f : ℕ) → (S.medium self.old).named f → (S.medium self.new).named f }
        ensures free { (f i : ℕ) → (S.medium self.new).free f i ↔ (S.medium self.old).free f i }
        ensures reads { OnlyReads (S.medium self.old).disk (S.medium self.new).disk }
        ensures time { Elapses (S.medium self.old).disk (S.medium self.new).disk }
    {
        self.system.sync_folder()
    }

    /// Notes that the writes to come serve this one, as the system does.
    pub(crate) fn announce(&mut self, file: u32, at: u64, bytes: &[u8]) -> io::Result<()>
        ensures image { (S.medium self.new).disk.image ≡ (S.medium self.old).disk.image }
        ensures now { OnOk result (Follows (AnnounceCase file at bytes.now) (S.medium self.old).disk.now
            (S.medium self.new).disk.now) }
        ensures during { (c : Case) → (S.medium self.new).disk.since (S.medium self.old).disk.moment c
            → (S.medium self.old).disk.now c ⊎ (S.medium self.new).disk.now c }
        ensures time { Elapses (S.medium self.old).disk (S.medium self.new).disk }
        ensures named { (f : ℕ) → (S.medium self.old).named f → (S.medium self.new).named f }
        ensures free { (f i : ℕ) → (S.medium self.new).free f i ↔ (S.medium self.old).free f i }
        ensures lost { (f i : ℕ) → (S.medium self.new).lost f i → (S.medium self.old).lost f i }
        ensures failed { OnErr result (Looks (S.medium self.old) (S.medium self.new)) }
    {
        self.system.announce(file, at, bytes)
    }

    /// Notes that all that was announced is durable, as the system does.
    pub(crate) fn settle(&mut self) -> io::Result<()>
        requires { IsTrue S.told → (f : ℕ) → IsSafe (S.medium self.old).disk f }
        ensures quiet { OnOk result (Quiet (S.medium self.new).disk) }
        ensures writes_nothing { WritesNothing (S.medium self.old).disk (S.medium self.new).disk }
        ensures time { Elapses (S.medium self.old).disk (S.medium self.new).disk }
        ensures named { (f : ℕ) → (S.medium self.old).named f → (S.medium self.new).named f }
        ensures free { (f i : ℕ) → (S.medium self.new).free f i ↔ (S.medium self.old).free f i }
        ensures lost { (f i : ℕ) → (S.medium self.new).lost f i → (S.medium self.old).lost f i }
        ensures failed { OnErr result (Looks (S.medium self.old) (S.medium self.new)) }
    {
        self.system.settle()
    }
}

/// Of two files the one that was used earlier.
fn earlier(least: Option<(u32, u64)>, file: u32, used: u64) -> Option<(u32, u64)> {
    match least {
        Some((_, least_use)) if least_use <= used => least,
        _ => Some((file, used)),
    }
}

/// The error of a call on a file that is not open.
fn not_open() -> io::Error {
    io::Error::from(io::ErrorKind::NotFound)
}
