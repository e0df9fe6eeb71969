//! Syncs.

ghost use Rattle.std.specs.Prelude.{◌≡◌, ◌≢◌, ◌⊎◌, ◌↔◌, ℕ, ◌≤◌, ◌<◌, ◌+◌, ◌-◌, ◌^◌, IsTrue, IsFalse, IfOk, OnOk, OnErr};
ghost use Rattle.std.specs.Prelude.{length, take, drop, min, List, [], true, false, filter, not, ◌==◌};
ghost use Rattle.per_base.specs.Causes.{Rose};
ghost use Rattle.disk_model.specs.Medium.{Quiet, Elapses, OnlyReads, WritesNothing};
ghost use Rattle.system_model.specs.SystemMedium.{Looks, IsSafe, HasNothingFree, IsWhole, InRange, ShowsBytes};
ghost use Rattle.folder_disk.specs.Knows.{Knows, Covered};
ghost use Rattle.folder_disk.specs.Held.{HoldsFree, IsHeldByte, ShowsAll};

use crate::folder::Folder;
use crate::held::Held;
use crate::notes::{forget, is_noted};
use crate::opened::Opened;
use crate::range::Range;
use crate::reading::read_all;
use crate::writing::write_all;
use disk_model::DiskFailed;
use std::alloc::{AllocError, Global};
use std::{io, mem};
use system_model::{Asked, Part, System};

/// Writes once more what was held, and says whether all of it was written.
pub(crate) fn put_back<S: System>(system: &mut Opened<S>, file: u32, held: &[Held]) -> bool
    requires { IsTrue S.told → HoldsFree (S.medium system.old) file held.now }
    ensures reads { OnlyReads (S.medium system.old).disk (S.medium system.new).disk }
    ensures time { Elapses (S.medium system.old).disk (S.medium system.new).disk }
    ensures named { (f : ℕ) → (S.medium system.old).named f → (S.medium system.new).named f }
    ensures free { IsTrue S.told → (f i : ℕ) → (S.medium system.new).free f i ↔ (S.medium system.old).free f i }
    ensures lost { (f i : ℕ) → (S.medium system.new).lost f i → (S.medium system.old).lost f i }
    ensures found { IsTrue S.told → IsTrue result → (i : ℕ) → IsHeldByte held.now i
        → ¬ ((S.medium system.new).lost file i) }
{
    for part in held {
        if !write_back(system, file, part.at, part.bytes.as_slice()) {
            return false;
        }
    }
    true
}

/// Writes once more what is there and is free anyway, and says whether all of it was written.
pub(crate) fn write_back<S: System>(
    system: &mut Opened<S>,
    file: u32,
    at: u64,
    bytes: &[u8],
) -> bool
    requires free { IsTrue S.told → (i : ℕ) → InRange at (length bytes.now) i → (S.medium system.old).free file i }
    requires shows { IsTrue S.told → ShowsBytes ((S.medium system.old).disk.image file) at bytes.now }
    ensures reads { OnlyReads (S.medium system.old).disk (S.medium system.new).disk }
    ensures time { Elapses (S.medium system.old).disk (S.medium system.new).disk }
    ensures named { (f : ℕ) → (S.medium system.old).named f → (S.medium system.new).named f }
    ensures free { IsTrue S.told → (f i : ℕ) → (S.medium system.new).free f i ↔ (S.medium system.old).free f i }
    ensures lost { (f i : ℕ) → (S.medium system.new).lost f i → (S.medium system.old).lost f i }
    ensures found { IsTrue S.told → IsTrue result → (i : ℕ) → InRange at (length bytes.now) i
        → ¬ ((S.medium system.new).lost file i) }
{
    if at.checked_add(bytes.len() as u64).is_none() {
        return false;
    }
    let progress = write_all(system, file, at, bytes);
    progress.done == bytes.len()
}

impl<S: System> Folder<S> {
    /// Makes the names durable, where a file was made or may have been.
    fn sync_names(&mut self) -> Result<(), DiskFailed>
        requires { Knows S.told (S.medium self.old.system) self.old.ranges.items self.old.is_fresh
            self.old.is_grown self.old.is_lost }
        ensures names { OnOk result ((f : ℕ) → (S.medium self.new.system).named f) }
        ensures fresh { self.new.is_fresh ≡ self.old.is_fresh }
        ensures lost { OnOk result (self.new.is_lost ≡ self.old.is_lost) }
        ensures grown { OnOk result (self.new.is_grown ≡ false) }
        ensures knows { Knows S.told (S.medium self.new.system) self.new.ranges.items self.new.is_fresh
            self.new.is_grown self.new.is_lost }
        ensures reads { OnlyReads (S.medium self.old.system).disk (S.medium self.new.system).disk }
        ensures time { Elapses (S.medium self.old.system).disk (S.medium self.new.system).disk }
        ensures cause { OnErr result (Rose self.old.faults self.new.faults) }
        ensures later { self.old.faults ≤ self.new.faults }
        ensures passes { OnOk result (self.new.faults ≡ self.old.faults) }
        ensures written { self.new.written ≡ self.old.written }
    {
        if !self.is_fresh && !self.is_grown {
            return Ok(());
        }
        match self.system.sync_folder() {
            Ok(()) => {
                self.is_grown = false;
                Ok(())
            }
            Err(error) => Err(self.lose(Part::Folder, error)),
        }
    }

    /// Counts a sync that failed, after which nothing that was written can be relied on.
    fn lose(&mut self, part: Part, error: io::Error) -> DiskFailed
        ensures system { self.new.system ≡ self.old.system }
        ensures ranges { self.new.ranges ≡ self.old.ranges }
        ensures fresh { self.new.is_fresh ≡ self.old.is_fresh }
        ensures grown { self.new.is_grown ≡ self.old.is_grown }
        ensures lost { IsTrue self.new.is_lost }
        ensures written { self.new.written ≡ self.old.written }
        ensures rose { Rose self.old.faults self.new.faults }
        ensures later { self.old.faults ≤ self.new.faults }
    {
        self.is_lost = true;
        self.failed(Asked::Sync, part, error)
    }

    /// Syncs each file of the folder, whoever wrote it.
    fn sync_found(&mut self) -> Result<(), DiskFailed>
        requires knows { Knows S.told (S.medium self.old.system) self.old.ranges.items self.old.is_fresh
            self.old.is_grown self.old.is_lost }
        requires names { (f : ℕ) → (S.medium self.old.system).named f }
        requires lost { IsFalse self.old.is_lost }
        ensures safe { IsTrue S.told → OnOk result ((f : ℕ) → IsSafe (S.medium self.new.system).disk f) }
        ensures knows { Knows S.told (S.medium self.new.system) self.new.ranges.items self.new.is_fresh
            self.new.is_grown self.new.is_lost }
        ensures known { OnOk result (IsFalse self.new.is_fresh) }
        ensures lost { OnOk result (IsFalse self.new.is_lost) }
        ensures reads { OnlyReads (S.medium self.old.system).disk (S.medium self.new.system).disk }
        ensures time { Elapses (S.medium self.old.system).disk (S.medium self.new.system).disk }
        ensures cause { OnErr result (Rose self.old.faults self.new.faults) }
        ensures later { self.old.faults ≤ self.new.faults }
        ensures passes { OnOk result (self.new.faults ≡ self.old.faults) }
        ensures written { self.new.written ≡ self.old.written }
    {
        let files = match self.system.list(self.alloc) {
            Ok(files) => files,
            Err(error) => return Err(self.failed(Asked::List, Part::Folder, error)),
        };
        self.ranges.clear();
        self.is_fresh = true;
        for file in &files {
            self.sync_first(*file)?;
        }
        self.is_fresh = false;
        self.is_grown = false;
        Ok(())
    }

    /// Syncs a file, whoever wrote it, and closes it.
    fn sync_first(&mut self, file: u32) -> Result<(), DiskFailed>
        requires knows { Knows S.told (S.medium self.old.system) self.old.ranges.items self.old.is_fresh
            self.old.is_grown self.old.is_lost }
        requires names { (f : ℕ) → (S.medium self.old.system).named f }
        requires ranges { self.old.ranges.items ≡ [] }
        requires fresh { IsTrue self.old.is_fresh }
        requires lost { IsFalse self.old.is_lost }
        ensures still { IsTrue S.told → OnOk result (HasNothingFree (S.medium self.new.system) file) }
        ensures no_more { IsTrue S.told → OnOk result ((f i : ℕ) → (S.medium self.new.system).free f i
            → (S.medium self.old.system).free f i) }
        ensures names { (f : ℕ) → (S.medium self.new.system).named f }
        ensures ranges { self.new.ranges ≡ self.old.ranges }
        ensures fresh { IsTrue self.new.is_fresh }
        ensures lost { OnOk result (IsFalse self.new.is_lost) }
        ensures knows { Knows S.told (S.medium self.new.system) self.new.ranges.items self.new.is_fresh
            self.new.is_grown self.new.is_lost }
        ensures reads { OnlyReads (S.medium self.old.system).disk (S.medium self.new.system).disk }
        ensures time { Elapses (S.medium self.old.system).disk (S.medium self.new.system).disk }
        ensures cause { OnErr result (Rose self.old.faults self.new.faults) }
        ensures later { self.old.faults ≤ self.new.faults }
        ensures passes { OnOk result (self.new.faults ≡ self.old.faults) }
        ensures written { self.new.written ≡ self.old.written }
    {
        match self.system.find(file) {
            Ok(true) => {}
            Ok(false) => return Ok(()),
            Err(error) => return Err(self.failed(Asked::Open, Part::File(file), error)),
        }
        self.system.look_into(file);
        match self.system.sync_file(file) {
            Ok(()) => {
                self.system.close(file);
                Ok(())
            }
            Err(error) => Err(self.lose(Part::File(file), error)),
        }
    }

    /// Reads what was written to the file since its last sync, into what is spare as far as there is room.
    fn hold(&mut self, file: u32, spare: Vec<u8>) -> Result<Vec<Held>, DiskFailed>
        requires knows { Knows S.told (S.medium self.old.system) self.old.ranges.items self.old.is_fresh
            self.old.is_grown self.old.is_lost }
        requires fresh { IsFalse self.old.is_fresh }
        requires lost { IsFalse self.old.is_lost }
        ensures holds { IsTrue S.told → IfOk result (λ held. HoldsFree (S.medium self.new.system) file held.items) }
        ensures all { IsTrue S.told → IfOk result (λ held. (i : ℕ) → (S.medium self.new.system).free file i
            → IsHeldByte held.items i) }
        ensures ranges { self.new.ranges ≡ self.old.ranges }
        ensures fresh { self.new.is_fresh ≡ self.old.is_fresh }
        ensures grown { self.new.is_grown ≡ self.old.is_grown }
        ensures lost { self.new.is_lost ≡ self.old.is_lost }
        ensures looks { Looks (S.medium self.old.system) (S.medium self.new.system) }
        ensures knows { Knows S.told (S.medium self.new.system) self.new.ranges.items self.new.is_fresh
            self.new.is_grown self.new.is_lost }
        ensures cause { OnErr result (Rose self.old.faults self.new.faults) }
        ensures later { self.old.faults ≤ self.new.faults }
        ensures passes { OnOk result (self.new.faults ≡ self.old.faults) }
        ensures written { self.new.written ≡ self.old.written }
    {
        match held_of(
            &mut self.system,
            self.alloc,
            spare,
            self.ranges.as_slice(),
            file,
        ) {
            Ok(held) => Ok(held),
            Err(error) => Err(self.failed(Asked::Sync, Part::File(file), error)),
        }
    }

    /// Syncs a file. Where that fails, what it may have dropped is written again. What is spare is room for that, and
    /// is then for the next file.
    fn sync_one(&mut self, file: u32, spare: &mut Vec<u8>) -> Result<(), DiskFailed>
        requires knows { Knows S.told (S.medium self.old.system) self.old.ranges.items self.old.is_fresh
            self.old.is_grown self.old.is_lost }
        requires fresh { IsFalse self.old.is_fresh }
        requires lost { IsFalse self.old.is_lost }
        ensures knows { Knows S.told (S.medium self.new.system) self.new.ranges.items self.new.is_fresh
            self.new.is_grown self.new.is_lost }
        ensures named { (f : ℕ) → (S.medium self.old.system).named f → (S.medium self.new.system).named f }
        ensures fresh { self.new.is_fresh ≡ self.old.is_fresh }
        ensures lost { OnOk result (self.new.is_lost ≡ self.old.is_lost) }
        ensures grown { self.new.is_grown ≡ self.old.is_grown }
        ensures fewer { OnOk result (self.new.ranges.items
            ≡ filter (λ r. not (r.file == file)) self.old.ranges.items) }
        ensures reads { OnlyReads (S.medium self.old.system).disk (S.medium self.new.system).disk }
        ensures time { Elapses (S.medium self.old.system).disk (S.medium self.new.system).disk }
        ensures cause { OnErr result (Rose self.old.faults self.new.faults) }
        ensures later { self.old.faults ≤ self.new.faults }
        ensures passes { OnOk result (self.new.faults ≡ self.old.faults) }
        ensures written { self.new.written ≡ self.old.written }
    {
        let room = mem::replace(spare, Vec::new(self.alloc));
        let held = self.hold(file, room)?;
        match self.system.sync_file(file) {
            Ok(()) => {
                forget(&mut self.ranges, file);
                give_back(held, spare);
                Ok(())
            }
            Err(error) => {
                if !put_back(&mut self.system, file, held.as_slice()) {
                    self.is_lost = true;
                }
                Err(self.failed(Asked::Sync, Part::File(file), error))
            }
        }
    }

    /// Syncs each file that was written.
    fn sync_written(&mut self) -> Result<(), DiskFailed>
        requires knows { Knows S.told (S.medium self.old.system) self.old.ranges.items self.old.is_fresh
            self.old.is_grown self.old.is_lost }
        requires names { (f : ℕ) → (S.medium self.old.system).named f }
        requires fresh { IsFalse self.old.is_fresh }
        requires lost { IsFalse self.old.is_lost }
        ensures safe { IsTrue S.told → OnOk result ((f : ℕ) → IsSafe (S.medium self.new.system).disk f) }
        ensures lost { OnOk result (IsFalse self.new.is_lost) }
        ensures knows { Knows S.told (S.medium self.new.system) self.new.ranges.items self.new.is_fresh
            self.new.is_grown self.new.is_lost }
        ensures reads { OnlyReads (S.medium self.old.system).disk (S.medium self.new.system).disk }
        ensures time { Elapses (S.medium self.old.system).disk (S.medium self.new.system).disk }
        ensures cause { OnErr result (Rose self.old.faults self.new.faults) }
        ensures later { self.old.faults ≤ self.new.faults }
        ensures passes { OnOk result (self.new.faults ≡ self.old.faults) }
        ensures written { self.new.written ≡ self.old.written }
    {
        let mut spare = Vec::new(self.alloc);
        while let Some(last) = self.ranges.last() {
            let file = last.file;
            self.sync_one(file, &mut spare)?;
        }
        Ok(())
    }

    /// Makes all that was written durable, names and bytes, so that nothing is pending.
    pub(crate) fn sync(&mut self) -> Result<(), DiskFailed>
        requires { Knows S.told (S.medium self.old.system) self.old.ranges.items self.old.is_fresh
            self.old.is_grown self.old.is_lost }
        ensures quiet { OnOk result (Quiet (S.medium self.new.system).disk) }
        ensures failed { OnErr result (OnlyReads (S.medium self.old.system).disk (S.medium self.new.system).disk) }
        ensures writes_nothing { WritesNothing (S.medium self.old.system).disk (S.medium self.new.system).disk }
        ensures time { Elapses (S.medium self.old.system).disk (S.medium self.new.system).disk }
        ensures knows { Knows S.told (S.medium self.new.system) self.new.ranges.items self.new.is_fresh
            self.new.is_grown self.new.is_lost }
        ensures cause { OnErr result (Rose self.old.faults self.new.faults) }
        ensures later { self.old.faults ≤ self.new.faults }
        ensures passes { OnOk result (self.new.faults ≡ self.old.faults) }
        ensures written { self.new.written ≡ self.old.written }
    {
        if self.is_lost {
            return Err(self.fault());
        }
        self.sync_all()?;
        match self.system.settle() {
            Ok(()) => Ok(()),
            Err(error) => Err(self.failed(Asked::Sync, Part::Folder, error)),
        }
    }

    /// Syncs the folder and each file, as far as they may need it.
    fn sync_all(&mut self) -> Result<(), DiskFailed>
        requires knows { Knows S.told (S.medium self.old.system) self.old.ranges.items self.old.is_fresh
            self.old.is_grown self.old.is_lost }
        requires lost { IsFalse self.old.is_lost }
        ensures safe { IsTrue S.told → OnOk result ((f : ℕ) → IsSafe (S.medium self.new.system).disk f) }
        ensures lost { OnOk result (IsFalse self.new.is_lost) }
        ensures reads { OnlyReads (S.medium self.old.system).disk (S.medium self.new.system).disk }
        ensures time { Elapses (S.medium self.old.system).disk (S.medium self.new.system).disk }
        ensures knows { Knows S.told (S.medium self.new.system) self.new.ranges.items self.new.is_fresh
            self.new.is_grown self.new.is_lost }
        ensures cause { OnErr result (Rose self.old.faults self.new.faults) }
        ensures later { self.old.faults ≤ self.new.faults }
        ensures passes { OnOk result (self.new.faults ≡ self.old.faults) }
        ensures written { self.new.written ≡ self.old.written }
    {
        self.sync_names()?;
        if self.is_fresh {
            self.sync_found()
        } else {
            self.sync_written()
        }
    }

    /// Syncs the folder and one file, as far as they may need it.
    pub(crate) fn sync_early(&mut self, file: u32) -> Result<(), DiskFailed>
        requires knows { Knows S.told (S.medium self.old.system) self.old.ranges.items self.old.is_fresh
            self.old.is_grown self.old.is_lost }
        requires lost { IsFalse self.old.is_lost }
        ensures lost { OnOk result (IsFalse self.new.is_lost) }
        ensures reads { OnlyReads (S.medium self.old.system).disk (S.medium self.new.system).disk }
        ensures time { Elapses (S.medium self.old.system).disk (S.medium self.new.system).disk }
        ensures knows { Knows S.told (S.medium self.new.system) self.new.ranges.items self.new.is_fresh
            self.new.is_grown self.new.is_lost }
        ensures cause { OnErr result (Rose self.old.faults self.new.faults) }
        ensures later { self.old.faults ≤ self.new.faults }
        ensures passes { OnOk result (self.new.faults ≡ self.old.faults) }
        ensures written { self.new.written ≡ self.old.written }
    {
        self.sync_names()?;
        if !self.is_fresh {
            let mut spare = Vec::new(self.alloc);
            return self.sync_one(file, &mut spare);
        }
        self.sync_found()
    }

    /// Closes the file that was not asked for the longest, of those of which nothing is left to sync. Where there is
    /// none, all are synced before.
    pub(crate) fn close_one(&mut self) -> Result<(), DiskFailed>
        requires knows { Knows S.told (S.medium self.old.system) self.old.ranges.items self.old.is_fresh
            self.old.is_grown self.old.is_lost }
        requires lost { IsFalse self.old.is_lost }
        ensures lost { OnOk result (IsFalse self.new.is_lost) }
        ensures reads { OnlyReads (S.medium self.old.system).disk (S.medium self.new.system).disk }
        ensures time { Elapses (S.medium self.old.system).disk (S.medium self.new.system).disk }
        ensures knows { Knows S.told (S.medium self.new.system) self.new.ranges.items self.new.is_fresh
            self.new.is_grown self.new.is_lost }
        ensures cause { OnErr result (Rose self.old.faults self.new.faults) }
        ensures later { self.old.faults ≤ self.new.faults }
        ensures passes { OnOk result (self.new.faults ≡ self.old.faults) }
        ensures written { self.new.written ≡ self.old.written }
    {
        if self.close_least_used() {
            return Ok(());
        }
        self.sync_all()?;
        self.close_least_used();
        Ok(())
    }

    /// Closes the file that was not asked for the longest, of those of which nothing is left to sync, and says whether
    /// there is one.
    fn close_least_used(&mut self) -> bool
        requires knows { Knows S.told (S.medium self.old.system) self.old.ranges.items self.old.is_fresh
            self.old.is_grown self.old.is_lost }
        requires lost { IsFalse self.old.is_lost }
        ensures lost { IsFalse self.new.is_lost }
        ensures looks { Looks (S.medium self.old.system) (S.medium self.new.system) }
        ensures knows { Knows S.told (S.medium self.new.system) self.new.ranges.items self.new.is_fresh
            self.new.is_grown self.new.is_lost }
        ensures faults { self.new.faults ≡ self.old.faults }
        ensures written { self.new.written ≡ self.old.written }
    {
        match self.system.least_used(self.ranges.as_slice()) {
            Some(file) if !self.is_fresh && !is_noted(self.ranges.as_slice(), file) => {
                self.system.close(file);
                true
            }
            _ => false,
        }
    }
}

/// Reads what is in the ranges of a file, of the first of them into what is spare.
pub(crate) fn held_of<S: System>(
    system: &mut Opened<S>,
    alloc: Global,
    spare: Vec<u8>,
    ranges: &[Range],
    file: u32,
) -> io::Result<Vec<Held>>
    requires whole { IsTrue S.told → (f : ℕ) → IsWhole (S.medium system.old) f }
    ensures looks { Looks (S.medium system.old) (S.medium system.new) }
    ensures shows { IsTrue S.told → IfOk result (λ held.
        ShowsAll ((S.medium system.old).disk.image file) held.items) }
    ensures held { IfOk result (λ held. (i : ℕ) → IsHeldByte held.items i ↔ Covered ranges.now file i) }
{
    let mut spare = spare;
    let mut held = Vec::new(alloc);
    for range in ranges {
        if range.file == file {
            let room = mem::replace(&mut spare, Vec::new(alloc));
            let part = held_in(system, room, *range)?;
            match held.push(part) {
                Ok(()) => {}
                Err(_) => return Err(no_memory()),
            }
        }
    }
    Ok(held)
}

/// Reads what is in a range into this room, which grows where it is short.
fn held_in<S: System>(system: &mut Opened<S>, room: Vec<u8>, range: Range) -> io::Result<Held>
    requires whole { IsTrue S.told → (f : ℕ) → IsWhole (S.medium system.old) f }
    ensures looks { Looks (S.medium system.old) (S.medium system.new) }
    ensures shows { IsTrue S.told → IfOk result (λ held.
        ShowsBytes ((S.medium system.old).disk.image range.file) held.at held.bytes.items) }
    ensures place { IfOk result (λ held. (held.at ≡ range.at) × (length held.bytes.items ≡ range.len)) }
{
    if range.at.checked_add(range.len).is_none() {
        return Err(no_memory());
    }
    let Ok(mut bytes) = resized(room, range.len as usize) else {
        return Err(no_memory());
    };
    let count = read_all(system, range.file, range.at, bytes.as_mut_slice())?;
    if count < bytes.len() {
        return Err(io::Error::from(io::ErrorKind::UnexpectedEof));
    }
    Ok(Held {
        at: range.at,
        bytes,
    })
}

/// That many bytes, whatever they are.
fn resized(room: Vec<u8>, len: usize) -> Result<Vec<u8>, AllocError>
    ensures { IfOk result (λ bytes. length bytes.items ≡ len) }
{
    let mut bytes = room;
    bytes.resize(len, 0)?;
    Ok(bytes)
}

/// Makes the room of what was held last spare.
fn give_back(held: Vec<Held>, spare: &mut Vec<u8>) {
    let mut held = held;
    if let Some(last) = held.pop() {
        *spare = last.bytes;
    }
}

/// The error of a call for which memory ran out.
fn no_memory() -> io::Error {
    io::Error::from(io::ErrorKind::OutOfMemory)
}
