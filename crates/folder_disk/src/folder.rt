//! What is between the calls of a disk and those of the system.

ghost use Rattle.std.specs.Prelude.{◌≡◌, ◌⊎◌, ℕ, ◌≤◌, ◌<◌, ◌+◌, ◌-◌, ◌^◌, IsTrue, IsFalse, IfOk, OnOk, OnErr, length};
ghost use Rattle.std.specs.Prelude.{take};
ghost use Rattle.std.specs.Prelude.{[], drop, min};
ghost use Rattle.per_base.specs.Causes.{Rose};
ghost use Rattle.disk_model.specs.Image.{put_image, TornImage};
ghost use Rattle.disk_model.specs.Case.{WriteCase, WriteOrNot, Follows};
ghost use Rattle.disk_model.specs.Medium.{Quiet, Elapses, OnlyReads, WritesNothing};
ghost use Rattle.system_model.specs.SystemMedium.{IsAbsent, Looks};
ghost use Rattle.folder_disk.specs.Knows.{Knows};
ghost use Rattle.folder_disk.specs.FolderView.{counted};
ghost use Rattle.folder_disk.specs.Writes.{PutsBytes, PutCase};

use crate::notes::is_full;
use crate::opened::Opened;
use crate::range::Range;
use crate::reading::read_all;
use crate::writing::{Progress, write_all};
use disk_model::DiskFailed;
use std::alloc::Global;
use std::io;
use system_model::{Asked, Failure, Part, System};

/// The system, and what is known of it.
#[derive(Drop)]
pub struct Folder<S: System> {
    pub system: Opened<S>,
    pub alloc: Global,
    /// What was written since the last sync.
    pub ranges: Vec<Range>,
    /// Whether there may be writes that were not synced and are in no range.
    pub is_fresh: bool,
    /// Whether a file was made since the folder was synced.
    pub is_grown: bool,
    /// Whether a sync failed whose bytes could not be written again.
    pub is_lost: bool,
    /// How many calls of the disk have failed, up to the greatest u64.
    pub faults: u64,
    /// How many bytes were written by calls of the disk.
    pub written: u64,
    /// The last call of the system that failed.
    pub failure: Option<Failure>,
}

impl<S: System> Folder<S> {
    /// Counts one failure more.
    pub(crate) fn fault(&mut self) -> DiskFailed
        ensures system { self.new.system ≡ self.old.system }
        ensures ranges { self.new.ranges ≡ self.old.ranges }
        ensures fresh { self.new.is_fresh ≡ self.old.is_fresh }
        ensures grown { self.new.is_grown ≡ self.old.is_grown }
        ensures lost { self.new.is_lost ≡ self.old.is_lost }
        ensures written { self.new.written ≡ self.old.written }
        ensures rose { Rose self.old.faults self.new.faults }
        ensures later { self.old.faults ≤ self.new.faults }
    {
        self.faults = self.faults.saturating_add(1);
        DiskFailed
    }

    /// Counts a failure, and keeps what failed.
    pub(crate) fn failed(&mut self, asked: Asked, part: Part, error: io::Error) -> DiskFailed
        ensures system { self.new.system ≡ self.old.system }
        ensures ranges { self.new.ranges ≡ self.old.ranges }
        ensures fresh { self.new.is_fresh ≡ self.old.is_fresh }
        ensures grown { self.new.is_grown ≡ self.old.is_grown }
        ensures lost { self.new.is_lost ≡ self.old.is_lost }
        ensures written { self.new.written ≡ self.old.written }
        ensures rose { Rose self.old.faults self.new.faults }
        ensures later { self.old.faults ≤ self.new.faults }
    {
        self.failure = Some(Failure { asked, part, error });
        self.fault()
    }

    /// How many bytes the file has; none where it is not there.
    pub(crate) fn size(&mut self, file: u32) -> Result<u64, DiskFailed>
        requires { Knows S.told (S.medium self.old.system) self.old.ranges.items self.old.is_fresh self.old.is_grown
            self.old.is_lost }
        ensures size { IsTrue S.told → IfOk result (λ n. n ≡ length ((S.medium self.old.system).disk.image file)) }
        ensures reads { OnlyReads (S.medium self.old.system).disk (S.medium self.new.system).disk }
        ensures time { Elapses (S.medium self.old.system).disk (S.medium self.new.system).disk }
        ensures cause { OnErr result (Rose self.old.faults self.new.faults) }
        ensures later { self.old.faults ≤ self.new.faults }
        ensures passes { OnOk result (self.new.faults ≡ self.old.faults) }
        ensures written { self.new.written ≡ self.old.written }
        ensures knows { Knows S.told (S.medium self.new.system) self.new.ranges.items self.new.is_fresh
            self.new.is_grown self.new.is_lost }
    {
        if self.is_lost {
            return Err(self.fault());
        }
        if !self.find(file)? {
            return Ok(0);
        }
        match self.system.length(file) {
            Ok(size) => Ok(size),
            Err(error) => Err(self.failed(Asked::Size, Part::File(file), error)),
        }
    }

    /// Reads from the byte `at` on as many bytes as there are and as there is room for, and says how many.
    pub(crate) fn read(&mut self, file: u32, at: u64, out: &mut [u8]) -> Result<usize, DiskFailed>
        requires { Knows S.told (S.medium self.old.system) self.old.ranges.items self.old.is_fresh
            self.old.is_grown self.old.is_lost }
        ensures count { IfOk result (λ n. n ≤ length out.old) }
        ensures bytes { IsTrue S.told → IfOk result (λ n.
            (n ≡ min (length out.old) (length ((S.medium self.old.system).disk.image file) - at))
            × (take n out.new ≡ take n (drop at ((S.medium self.old.system).disk.image file)))) }
        ensures reads { OnlyReads (S.medium self.old.system).disk (S.medium self.new.system).disk }
        ensures time { Elapses (S.medium self.old.system).disk (S.medium self.new.system).disk }
        ensures cause { OnErr result (Rose self.old.faults self.new.faults) }
        ensures later { self.old.faults ≤ self.new.faults }
        ensures passes { OnOk result (self.new.faults ≡ self.old.faults) }
        ensures written { self.new.written ≡ self.old.written }
        ensures knows { Knows S.told (S.medium self.new.system) self.new.ranges.items self.new.is_fresh
            self.new.is_grown self.new.is_lost }
    {
        if self.is_lost || at.checked_add(out.len() as u64).is_none() {
            return Err(self.fault());
        }
        if !self.find(file)? {
            return Ok(0);
        }
        match read_all(&mut self.system, file, at, out) {
            Ok(count) => Ok(count),
            Err(error) => Err(self.failed(Asked::Read, Part::File(file), error)),
        }
    }

    /// Opens the file, if it is there and not open yet, and says whether it is there.
    fn find(&mut self, file: u32) -> Result<bool, DiskFailed>
        requires knows { Knows S.told (S.medium self.old.system) self.old.ranges.items self.old.is_fresh
            self.old.is_grown self.old.is_lost }
        requires lost { IsFalse self.old.is_lost }
        ensures absent { IsTrue S.told → IfOk result (λ found. IsFalse found
            → IsAbsent (S.medium self.new.system) file) }
        ensures lost { OnOk result (IsFalse self.new.is_lost) }
        ensures reads { OnlyReads (S.medium self.old.system).disk (S.medium self.new.system).disk }
        ensures time { Elapses (S.medium self.old.system).disk (S.medium self.new.system).disk }
        ensures knows { Knows S.told (S.medium self.new.system) self.new.ranges.items self.new.is_fresh
            self.new.is_grown self.new.is_lost }
        ensures cause { OnErr result (Rose self.old.faults self.new.faults) }
        ensures later { self.old.faults ≤ self.new.faults }
        ensures passes { OnOk result (self.new.faults ≡ self.old.faults) }
        ensures written { self.new.written ≡ self.old.written }
    {
        if !self.system.has_room_for(file) {
            return self.find_in_room(file);
        }
        match self.system.find(file) {
            Ok(found) => Ok(found),
            Err(error) if lacks_descriptors(error) => self.find_in_room(file),
            Err(error) => Err(self.failed(Asked::Open, Part::File(file), error)),
        }
    }

    /// Closes another file, and then does what `find` does.
    fn find_in_room(&mut self, file: u32) -> Result<bool, DiskFailed>
        requires knows { Knows S.told (S.medium self.old.system) self.old.ranges.items self.old.is_fresh
            self.old.is_grown self.old.is_lost }
        requires lost { IsFalse self.old.is_lost }
        ensures absent { IsTrue S.told → IfOk result (λ found. IsFalse found
            → IsAbsent (S.medium self.new.system) file) }
        ensures lost { OnOk result (IsFalse self.new.is_lost) }
        ensures reads { OnlyReads (S.medium self.old.system).disk (S.medium self.new.system).disk }
        ensures time { Elapses (S.medium self.old.system).disk (S.medium self.new.system).disk }
        ensures knows { Knows S.told (S.medium self.new.system) self.new.ranges.items self.new.is_fresh
            self.new.is_grown self.new.is_lost }
        ensures cause { OnErr result (Rose self.old.faults self.new.faults) }
        ensures later { self.old.faults ≤ self.new.faults }
        ensures passes { OnOk result (self.new.faults ≡ self.old.faults) }
        ensures written { self.new.written ≡ self.old.written }
    {
        self.close_one()?;
        match self.system.find(file) {
            Ok(found) => Ok(found),
            Err(error) => Err(self.failed(Asked::Open, Part::File(file), error)),
        }
    }

    /// Makes room for a write of these bytes: syncs the file where much of it waits for that, and makes it where it is
    /// not there.
    fn prepare(&mut self, file: u32, bytes: &[u8]) -> Result<(), DiskFailed>
        requires knows { Knows S.told (S.medium self.old.system) self.old.ranges.items self.old.is_fresh
            self.old.is_grown self.old.is_lost }
        requires lost { IsFalse self.old.is_lost }
        ensures lost { OnOk result (IsFalse self.new.is_lost) }
        ensures reads { OnlyReads (S.medium self.old.system).disk (S.medium self.new.system).disk }
        ensures time { Elapses (S.medium self.old.system).disk (S.medium self.new.system).disk }
        ensures knows { Knows S.told (S.medium self.new.system) self.new.ranges.items self.new.is_fresh
            self.new.is_grown self.new.is_lost }
        ensures cause { OnErr result (Rose self.old.faults self.new.faults) }
        ensures later { self.old.faults ≤ self.new.faults }
        ensures passes { OnOk result (self.new.faults ≡ self.old.faults) }
        ensures written { self.new.written ≡ self.old.written }
    {
        if bytes.is_empty() {
            return Ok(());
        }
        if is_full(self.ranges.as_slice(), file) {
            self.sync_early(file)?;
        }
        if self.find(file)? {
            return Ok(());
        }
        match self.make(file) {
            Ok(()) => Ok(()),
            Err(error) if lacks_descriptors(error) => self.make_in_room(file),
            Err(error) => Err(self.failed(Asked::Make, Part::File(file), error)),
        }
    }

    /// Makes the file, which is not there, and opens it.
    fn make(&mut self, file: u32) -> io::Result<()>
        requires knows { Knows S.told (S.medium self.old.system) self.old.ranges.items self.old.is_fresh
            self.old.is_grown self.old.is_lost }
        requires lost { IsFalse self.old.is_lost }
        requires none { IsTrue S.told → (S.medium self.old.system).disk.image file ≡ [] }
        ensures lost { IsFalse self.new.is_lost }
        ensures reads { OnlyReads (S.medium self.old.system).disk (S.medium self.new.system).disk }
        ensures time { Elapses (S.medium self.old.system).disk (S.medium self.new.system).disk }
        ensures knows { Knows S.told (S.medium self.new.system) self.new.ranges.items self.new.is_fresh
            self.new.is_grown self.new.is_lost }
        ensures faults { self.new.faults ≡ self.old.faults }
        ensures written { self.new.written ≡ self.old.written }
    {
        self.is_grown = true;
        self.system.make(file)
    }

    /// Closes another file, and then does what `make` does.
    fn make_in_room(&mut self, file: u32) -> Result<(), DiskFailed>
        requires knows { Knows S.told (S.medium self.old.system) self.old.ranges.items self.old.is_fresh
            self.old.is_grown self.old.is_lost }
        requires lost { IsFalse self.old.is_lost }
        requires none { IsTrue S.told → (S.medium self.old.system).disk.image file ≡ [] }
        ensures lost { OnOk result (IsFalse self.new.is_lost) }
        ensures reads { OnlyReads (S.medium self.old.system).disk (S.medium self.new.system).disk }
        ensures time { Elapses (S.medium self.old.system).disk (S.medium self.new.system).disk }
        ensures knows { Knows S.told (S.medium self.new.system) self.new.ranges.items self.new.is_fresh
            self.new.is_grown self.new.is_lost }
        ensures cause { OnErr result (Rose self.old.faults self.new.faults) }
        ensures later { self.old.faults ≤ self.new.faults }
        ensures passes { OnOk result (self.new.faults ≡ self.old.faults) }
        ensures written { self.new.written ≡ self.old.written }
    {
        self.close_one()?;
        match self.make(file) {
            Ok(()) => Ok(()),
            Err(error) => Err(self.failed(Asked::Make, Part::File(file), error)),
        }
    }

    /// Writes the bytes, or some of the first of them, and notes that or syncs it. Where that is not even begun,
    /// nothing changes.
    fn put(&mut self, file: u32, at: u64, bytes: &[u8]) -> io::Result<Progress>
        requires fits { at + length bytes.now < 2 ^ 64 }
        requires knows { Knows S.told (S.medium self.old.system) self.old.ranges.items self.old.is_fresh
            self.old.is_grown self.old.is_lost }
        requires lost { IsFalse self.old.is_lost }
        ensures count { IfOk result (λ progress. progress.done ≤ length bytes.now) }
        ensures puts { IfOk result (λ progress. PutsBytes S.told file at bytes.now progress.done
            (S.medium self.old.system).disk (S.medium self.new.system).disk) }
        ensures failed { OnErr result (Looks (S.medium self.old.system) (S.medium self.new.system)) }
        ensures knows { Knows S.told (S.medium self.new.system) self.new.ranges.items self.new.is_fresh
            self.new.is_grown self.new.is_lost }
        ensures faults { self.new.faults ≡ self.old.faults }
        ensures written { self.new.written ≡ self.old.written }
    {
        self.system.announce(file, at, bytes)?;
        let progress = write_all(&mut self.system, file, at, bytes);
        self.cover(file, at, &bytes[..progress.done]);
        Ok(progress)
    }

    /// Writes all the bytes from the byte `at` on, into a file that it makes where it is not there.
    pub(crate) fn write_at(&mut self, file: u32, at: u64, bytes: &[u8]) -> Result<(), DiskFailed>
        requires { Knows S.told (S.medium self.old.system) self.old.ranges.items self.old.is_fresh
            self.old.is_grown self.old.is_lost }
        ensures image { IsTrue S.told → OnOk result ((S.medium self.new.system).disk.image
            ≡ put_image (S.medium self.old.system).disk.image file at bytes.now) }
        ensures torn { IsTrue S.told → OnErr result (TornImage file at (length bytes.now)
            (S.medium self.old.system).disk.image (S.medium self.new.system).disk.image) }
        ensures now { OnOk result (Follows (WriteCase file at bytes.now) (S.medium self.old.system).disk.now
            (S.medium self.new.system).disk.now) }
        ensures during { Follows (WriteOrNot file at bytes.now) (S.medium self.old.system).disk.now
            ((S.medium self.new.system).disk.since (S.medium self.old.system).disk.moment) }
        ensures written { IsTrue S.told → OnOk result (self.new.written ≡ self.old.written + length bytes.now) }
        ensures at_most { self.new.written ≤ self.old.written + length bytes.now }
        ensures no_less { self.old.written ≤ self.new.written }
        ensures time { Elapses (S.medium self.old.system).disk (S.medium self.new.system).disk }
        ensures cause { OnErr result (Rose self.old.faults self.new.faults) }
        ensures later { self.old.faults ≤ self.new.faults }
        ensures passes { OnOk result (self.new.faults ≡ self.old.faults) }
        ensures knows { Knows S.told (S.medium self.new.system) self.new.ranges.items self.new.is_fresh
            self.new.is_grown self.new.is_lost }
    {
        if self.is_lost || at.checked_add(bytes.len() as u64).is_none() {
            return Err(self.fault());
        }
        let Some(written) = self.written.checked_add(bytes.len() as u64) else {
            return Err(self.fault());
        };
        self.prepare(file, bytes)?;
        let progress = match self.put(file, at, bytes) {
            Ok(progress) => progress,
            Err(error) => return Err(self.failed(Asked::Write, Part::File(file), error)),
        };
        if self.is_lost {
            return Err(self.fault());
        }
        if progress.done < bytes.len() {
            return Err(self.failed(Asked::Write, Part::File(file), reason(progress)));
        }
        self.written = written;
        Ok(())
    }
}

/// Why a write went no further; a system that takes no more bytes may say no reason.
fn reason(progress: Progress) -> io::Error {
    match progress.error {
        Some(error) => error,
        None => io::Error::from(io::ErrorKind::WriteZero),
    }
}

/// Whether the process, or the system, has no descriptor left.
fn lacks_descriptors(error: io::Error) -> bool {
    matches!(
        error.raw_os_error(),
        Some(TOO_MANY_OPEN | TOO_MANY_IN_SYSTEM)
    )
}

/// The number of the error where the process has no descriptor left.
const TOO_MANY_OPEN: i32 = 24;

/// The same where the whole system has none left.
const TOO_MANY_IN_SYSTEM: i32 = 23;
