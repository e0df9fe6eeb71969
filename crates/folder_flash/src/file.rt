//! The file of a flash.

ghost use Rattle.std.specs.Prelude.{◌≡◌, ◌⊎◌, ◌≤◌, ◌<◌, ◌*◌, ◌+◌, ◌-◌, ◌^◌, ℕ, IfOk, OnOk, OnErr, IfSome, IsTrue};
ghost use Rattle.std.specs.Prelude.{length, replicate, slice_index, max, min};
ghost use Rattle.disk_model.specs.Image.{put_image, TornImage};
ghost use Rattle.disk_model.specs.Case.{IsSettledAt};
ghost use Rattle.disk_model.specs.Medium.{Quiet, Elapses, OnlyReads, EachCase};
ghost use Rattle.folder_disk.specs.FolderView.{disk_seen};
ghost use Rattle.folder_flash.specs.Bytes.{AreFlashBytes, IsSameFlash, PutsIntoFlash};
ghost use Rattle.folder_flash.specs.FilePages.{page_start, TornFile};
ghost use Rattle.folder_flash.specs.Parts.{IsOfFlash};

use disk_model::{Disk, DiskFailed};
use flash_model::FlashFailed;
use folder_disk::FolderDisk;
use std::alloc::{AllocError, Global};
use std::io;
use std::marker::Model;
use system_model::{Asked, Failure, Part, System};

/// How many bytes a page has.
const PAGE_BYTES: u64 = 512;

/// How many bytes a block has, of 64 pages.
const BLOCK_BYTES: usize = 32_768;

/// What a blank byte reads as.
const BLANK: u8 = 0xff;

/// The number of the one file.
const FILE: u32 = 0;

/// The file, in a disk that has no other. Contracts see the disk.
#[derive(Drop)]
pub(crate) struct FlashFile<S: System> {
    disk: FolderDisk<S>,
    alloc: Global,
    /// How many bytes it has, where the disk was asked for it and no write failed since: only this flash writes it.
    size: Option<u64>,
    /// Whether all that was written is durable. It may be so where this is not set.
    is_settled: bool,
    /// Whether the last call failed because memory ran out.
    is_starved: bool,
}

impl<S: System> Model for FlashFile<S> {
    ghost use Rattle.std.specs.Prelude.{◌≡◌, IfSome, IsTrue, length};
    ghost use Rattle.disk_model.specs.Medium.{Quiet};
    ghost use Rattle.folder_disk.specs.FolderView.{FolderView, view_code, disk_seen};

    ghost Value = { FolderView S };

    ghost coded = { view_code S.code };

    ghost view = { λ file. file.disk };

    ghost invariant = { λ file. (IsTrue S.told → IfSome file.size (λ n.
        n ≡ length ((S.medium file.disk.system).disk.image 0)))
        × (IsTrue file.is_settled → Quiet (disk_seen S.medium file.disk)) };
}

impl<S: System> FlashFile<S> {
    pub(crate) fn new(alloc: Global, disk: FolderDisk<S>) -> FlashFile<S>
        ensures { result ≡ disk }
    {
        FlashFile {
            disk,
            alloc,
            size: None,
            is_settled: false,
            is_starved: false,
        }
    }

    pub(crate) fn into_disk(self) -> FolderDisk<S>
        ensures { result ≡ self }
    {
        self.disk
    }

    /// The last failure, as one of the file of a flash.
    pub(crate) fn failure(&self) -> Option<Failure> {
        if self.is_starved {
            return Some(no_memory());
        }
        self.disk.failure().map(of_flash)
    }

    /// Whether the file was seen in the folder, or made.
    pub(crate) fn is_there(&self) -> bool {
        self.disk.has_files()
    }

    /// How many bytes it has.
    pub(crate) fn size(&mut self) -> Result<u64, FlashFailed>
        ensures size { IsTrue S.told → IfOk result (λ n. n ≡ length ((S.medium self.old.system).disk.image 0)) }
        ensures image { IsTrue S.told → (S.medium self.new.system).disk.image
            ≡ (S.medium self.old.system).disk.image }
        ensures reads { OnlyReads (disk_seen S.medium self.old) (disk_seen S.medium self.new) }
        ensures time { Elapses (disk_seen S.medium self.old) (disk_seen S.medium self.new) }
    {
        if let Some(size) = self.size {
            return Ok(size);
        }
        let size = self.disk.size(FILE).map_err(failed)?;
        self.size = Some(size);
        Ok(size)
    }

    /// The bytes from a place on; those that the file lacks are blank.
    pub(crate) fn read(&mut self, at: u64, out: &mut [u8; 512]) -> Result<(), FlashFailed>
        ensures bytes { IsTrue S.told → OnOk result
            (AreFlashBytes ((S.medium self.old.system).disk.image 0) at out.new) }
        ensures reads { OnlyReads (disk_seen S.medium self.old) (disk_seen S.medium self.new) }
        ensures time { Elapses (disk_seen S.medium self.old) (disk_seen S.medium self.new) }
    {
        if self.size()? <= at {
            make_blank(out, 0);
            return Ok(());
        }
        let count = self.disk.read(FILE, at, out).map_err(failed)?;
        make_blank(out, count);
        Ok(())
    }

    /// Writes bytes from a place on, durably. What an earlier call left pending is made durable before.
    pub(crate) fn write(&mut self, at: u64, bytes: &[u8]) -> Result<(), FlashFailed>
        requires some { 0 < length bytes.now }
        requires end { at + length bytes.now < 2 ^ 64 }
        ensures puts { IsTrue S.told → OnOk result (PutsIntoFlash at bytes.now
            ((S.medium self.old.system).disk.image 0) ((S.medium self.new.system).disk.image 0)) }
        ensures durable { OnOk result (Quiet (disk_seen S.medium self.new)) }
        ensures torn { IsTrue S.told → OnErr result (TornFile at (length bytes.now)
            (S.medium self.old.system).disk.image (S.medium self.new.system).disk.image) }
        ensures during { IsTrue S.told → EachCase (λ c. (disk_seen S.medium self.old).now c
            ⊎ TornFile at (length bytes.now) (S.medium self.old.system).disk.image c.left)
            (disk_seen S.medium self.old) (disk_seen S.medium self.new) }
        ensures time { Elapses (disk_seen S.medium self.old) (disk_seen S.medium self.new) }
    {
        self.settle()?;
        self.write_on(at, bytes)?;
        Ok(())
    }

    /// Makes durable what a failed call left pending: else a power loss in the next one might tear what both wrote.
    fn settle(&mut self) -> Result<(), FlashFailed>
        ensures image { (S.medium self.new.system).disk.image ≡ (S.medium self.old.system).disk.image }
        ensures quiet { OnOk result (Quiet (disk_seen S.medium self.new)) }
        ensures during { EachCase (λ c. (disk_seen S.medium self.old).now c
            ⊎ IsSettledAt (S.medium self.old.system).disk.image c)
            (disk_seen S.medium self.old) (disk_seen S.medium self.new) }
        ensures time { Elapses (disk_seen S.medium self.old) (disk_seen S.medium self.new) }
    {
        if self.is_settled {
            return Ok(());
        }
        self.disk.sync().map_err(failed)?;
        self.is_settled = true;
        Ok(())
    }

    /// The same where nothing is pending.
    fn write_on(&mut self, at: u64, bytes: &[u8]) -> Result<(), FlashFailed>
        requires some { 0 < length bytes.now }
        requires end { at + length bytes.now < 2 ^ 64 }
        ensures puts { IsTrue S.told → OnOk result (PutsIntoFlash at bytes.now
            ((S.medium self.old.system).disk.image 0) ((S.medium self.new.system).disk.image 0)) }
        ensures durable { OnOk result (Quiet (disk_seen S.medium self.new)) }
        ensures torn { IsTrue S.told → OnErr result (TornFile at (length bytes.now)
            (S.medium self.old.system).disk.image (S.medium self.new.system).disk.image) }
        ensures during { IsTrue S.told → Quiet (disk_seen S.medium self.old) → EachCase
            (λ c. TornFile at (length bytes.now) (S.medium self.old.system).disk.image c.left)
            (disk_seen S.medium self.old) (disk_seen S.medium self.new) }
        ensures time { Elapses (disk_seen S.medium self.old) (disk_seen S.medium self.new) }
    {
        self.fill_up_to(at)?;
        self.put(at, bytes)?;
        Ok(())
    }

    /// Writes a blank block from a place on, durably.
    pub(crate) fn write_blank(&mut self, at: u64) -> Result<(), FlashFailed>
        requires { at + 32768 < 2 ^ 64 }
        ensures puts { IsTrue S.told → OnOk result (PutsIntoFlash at (replicate 32768 255)
            ((S.medium self.old.system).disk.image 0) ((S.medium self.new.system).disk.image 0)) }
        ensures durable { OnOk result (Quiet (disk_seen S.medium self.new)) }
        ensures torn { IsTrue S.told → OnErr result (TornFile at 32768 (S.medium self.old.system).disk.image
            (S.medium self.new.system).disk.image) }
        ensures during { IsTrue S.told → EachCase (λ c. (disk_seen S.medium self.old).now c
            ⊎ TornFile at 32768 (S.medium self.old.system).disk.image c.left)
            (disk_seen S.medium self.old) (disk_seen S.medium self.new) }
        ensures time { Elapses (disk_seen S.medium self.old) (disk_seen S.medium self.new) }
    {
        let blank = self.blank_block()?;
        self.write(at, blank.as_slice())?;
        Ok(())
    }

    /// Writes what is missing up to a place as blank, a block at a time.
    fn fill_up_to(&mut self, at: u64) -> Result<(), FlashFailed>
        ensures long { IsTrue S.told → OnOk result (at ≤ length ((S.medium self.new.system).disk.image 0)) }
        ensures same { IsTrue S.told → OnOk result (IsSameFlash ((S.medium self.old.system).disk.image 0)
            ((S.medium self.new.system).disk.image 0)) }
        ensures quiet { IsTrue S.told → Quiet (disk_seen S.medium self.old)
            → OnOk result (Quiet (disk_seen S.medium self.new)) }
        ensures torn { IsTrue S.told → TornFile at 0 (S.medium self.old.system).disk.image
            (S.medium self.new.system).disk.image }
        ensures during { IsTrue S.told → Quiet (disk_seen S.medium self.old) → EachCase
            (λ c. TornFile at 0 (S.medium self.old.system).disk.image c.left)
            (disk_seen S.medium self.old) (disk_seen S.medium self.new) }
        ensures time { Elapses (disk_seen S.medium self.old) (disk_seen S.medium self.new) }
    {
        let mut size = self.size()?;
        if size >= at {
            return Ok(());
        }
        let blank = self.blank_block()?;
        while size < at {
            let count = (at - size).min(BLOCK_BYTES as u64);
            self.put(size, &blank.as_slice()[..count as usize])?;
            size += count;
        }
        Ok(())
    }

    /// A write and a sync.
    fn put(&mut self, at: u64, bytes: &[u8]) -> Result<(), FlashFailed>
        requires some { 0 < length bytes.now }
        requires end { at + length bytes.now < 2 ^ 64 }
        ensures image { IsTrue S.told → OnOk result ((S.medium self.new.system).disk.image
            ≡ put_image (S.medium self.old.system).disk.image 0 at bytes.now) }
        ensures durable { OnOk result (Quiet (disk_seen S.medium self.new)) }
        ensures torn { IsTrue S.told → OnErr result (TornImage 0 at (length bytes.now)
            (S.medium self.old.system).disk.image (S.medium self.new.system).disk.image) }
        ensures during { IsTrue S.told → Quiet (disk_seen S.medium self.old) → EachCase
            (λ c. TornImage 0 at (length bytes.now) (S.medium self.old.system).disk.image c.left)
            (disk_seen S.medium self.old) (disk_seen S.medium self.new) }
        ensures time { Elapses (disk_seen S.medium self.old) (disk_seen S.medium self.new) }
    {
        let known = self.size.take();
        self.is_settled = false;
        store(&mut self.disk, at, bytes)?;
        self.is_settled = true;
        self.size = size_after(known, at + bytes.len() as u64);
        Ok(())
    }

    /// A block without a byte that was written.
    fn blank_block(&mut self) -> Result<Vec<u8>, FlashFailed>
        ensures blank { IfOk result (λ bytes. bytes.items ≡ replicate 32768 255) }
        ensures same { self.new ≡ self.old }
    {
        let made = blank_bytes(self.alloc);
        self.is_starved = made.is_err();
        made.map_err(|_| FlashFailed)
    }
}

/// A write of the file and a sync.
fn store<S: System>(disk: &mut FolderDisk<S>, at: u64, bytes: &[u8]) -> Result<(), FlashFailed>
    ensures image { IsTrue S.told → OnOk result ((S.medium disk.new.system).disk.image
        ≡ put_image (S.medium disk.old.system).disk.image 0 at bytes.now) }
    ensures durable { OnOk result (Quiet (disk_seen S.medium disk.new)) }
    ensures torn { IsTrue S.told → OnErr result (TornImage 0 at (length bytes.now)
        (S.medium disk.old.system).disk.image (S.medium disk.new.system).disk.image) }
    ensures during { IsTrue S.told → Quiet (disk_seen S.medium disk.old) → EachCase
        (λ c. TornImage 0 at (length bytes.now) (S.medium disk.old.system).disk.image c.left)
        (disk_seen S.medium disk.old) (disk_seen S.medium disk.new) }
    ensures time { Elapses (disk_seen S.medium disk.old) (disk_seen S.medium disk.new) }
{
    disk.write_at(FILE, at, bytes).map_err(failed)?;
    disk.sync().map_err(failed)?;
    Ok(())
}

/// How many bytes the file has after a write that ended there, where that was known before.
fn size_after(known: Option<u64>, end: u64) -> Option<u64>
    ensures { (long : ℕ) → IfSome known (λ n. n ≡ long) → IfSome result (λ n. n ≡ max long end) }
{
    match known {
        Some(size) => Some(size.max(end)),
        None => None,
    }
}

/// The bytes of a block without a byte that was written.
fn blank_bytes(alloc: Global) -> Result<Vec<u8>, AllocError>
    ensures blank { IfOk result (λ bytes. bytes.items ≡ replicate 32768 255) }
{
    let bytes = Vec::from_elem(alloc, BLANK, BLOCK_BYTES)?;
    Ok(bytes)
}

/// A failure of a file of a folder that holds a flash, as one of the flash.
pub fn of_flash(failure: Failure) -> Failure
    ensures { IsOfFlash failure result }
{
    let part = match failure.part {
        Part::Folder => Part::Folder,
        Part::File(_) | Part::Flash => Part::Flash,
    };
    Failure {
        asked: failure.asked,
        part,
        error: failure.error,
    }
}

/// Makes what is after the first bytes blank.
fn make_blank(out: &mut [u8; 512], count: usize)
    requires { count ≤ length out.old }
    ensures kept { (j : ℕ) → j < count → slice_index out.new j ≡ slice_index out.old j }
    ensures blank { (j : ℕ) → count ≤ j → j < length out.new → slice_index out.new j ≡ 255 }
    ensures len { length out.new ≡ length out.old }
{
    for place in count..out.len() {
        out[place] = BLANK;
    }
}

/// Where a page begins in the file.
pub(crate) fn place_of(block: u32, page: u32) -> u64
    ensures { result ≡ page_start block page }
{
    (64 * u64::from(block) + u64::from(page)) * PAGE_BYTES
}

fn failed(_: DiskFailed) -> FlashFailed {
    FlashFailed
}

fn no_memory() -> Failure {
    Failure {
        asked: Asked::Write,
        part: Part::Flash,
        error: io::Error::from(io::ErrorKind::OutOfMemory),
    }
}
