//! A flash over a file.

ghost use Rattle.std.specs.Prelude.{◌≡◌, ◌⊎◌, ◌<◌, ◌*◌, IsTrue, IfOk, OnOk, OnErr, length, nat_lt};
ghost use Rattle.per_base.specs.Causes.{CountsFaults, Rose};
ghost use Rattle.disk_model.specs.Medium.{Quiet, Elapses, OnlyReads, EachCase};
ghost use Rattle.flash_model.specs.Pages.{program_page, erase_block};
ghost use Rattle.flash_model.specs.FlashMedium.{FlashElapses};
ghost use Rattle.folder_disk.specs.FolderView.{disk_seen};
ghost use Rattle.folder_flash.specs.FilePages.{TornPageOf, TornBlockOf, file_seen, pages_seen};

use crate::file::{FlashFile, place_of};
use flash_model::{Flash, FlashFailed};
use folder_disk::FolderDisk;
use std::alloc::Global;
use system_model::{Failure, System};

/// A flash in the file 0 of a folder: page `p` of block `b` is its bytes from `(64 * b + p) * 512` on. What is missing
/// of it reads as blank, and so does all where it is not there; it is made by the first call that changes a page. It
/// counts its failures.
///
/// A program is a write and a sync of the file, an erase likewise; both are durable before they are answered. Where a
/// page follows the end of the file, what is missing up to it is written as blank before. What a call that failed left
/// pending is made durable before anything else is written, so that one power loss never tears what two calls wrote.
#[derive(Drop)]
pub struct FolderFlash<S: System> {
    file: FlashFile<S>,
    blocks: u32,
    faults: u64,
}

impl<S: System> FolderFlash<S> {
    /// The flash of that many blocks in the one file of this disk, which contracts see as `file`.
    pub fn new(alloc: Global, disk: FolderDisk<S>, blocks: u32) -> FolderFlash<S>
        ensures file { result.file ≡ disk }
        ensures blocks { result.blocks ≡ blocks }
        ensures faults { result.faults ≡ 0 }
    {
        FolderFlash {
            file: FlashFile::new(alloc, disk),
            blocks,
            faults: 0,
        }
    }

    /// The disk that has the file.
    pub fn into_disk(self) -> FolderDisk<S>
        ensures { result ≡ self.file }
    {
        self.file.into_disk()
    }

    /// The last call of the system that failed, for error reporting.
    pub fn failure(&self) -> Option<Failure> {
        self.file.failure()
    }

    /// Whether the file was seen in the folder, or made.
    pub fn has_file(&self) -> bool {
        self.file.is_there()
    }

    /// Whether the file has more bytes than the blocks, of 32,768 bytes each: it was made as a flash of more. The disk
    /// is only read (`looks`).
    pub fn is_too_long(&mut self) -> Result<bool, FlashFailed>
        // Of the bytes of the file, against blocks of 32,768 bytes. Nothing is written, and the count of faults rises
        // where the call fails.
        ensures longer { IsTrue S.told → IfOk result (λ is.
            is ≡ nat_lt (32768 * self.old.blocks) (length (file_seen S.medium self.old.file))) }
        ensures looks { OnlyReads (disk_seen S.medium self.old.file) (disk_seen S.medium self.new.file) }
        ensures blocks { self.new.blocks ≡ self.old.blocks }
        ensures faults { CountsFaults self.old.faults self.new.faults result }
    {
        let size = self.file.size();
        let size = self.counted(size)?;
        Ok(size > place_of(self.blocks, 0))
    }

    /// The answer of a call, which is counted where the system failed.
    fn counted<T>(&mut self, done: Result<T, FlashFailed>) -> Result<T, FlashFailed>
        ensures faults { CountsFaults self.old.faults self.new.faults result }
        ensures blocks { self.new.blocks ≡ self.old.blocks }
        ensures file { self.new.file ≡ self.old.file }
        ensures same { result ≡ done }
    {
        if done.is_err() {
            self.faults = self.faults.saturating_add(1);
        }
        done
    }
}

impl<S: System> Flash for FolderFlash<S> {
    ghost use Rattle.std.specs.Prelude.{false};
    ghost use Rattle.flash_model.specs.Silence.{silent_flash, silent_is_lawful};

    ghost told = { false };

    ghost medium = { λ flash. silent_flash flash.blocks flash.faults };

    ghost lawful = { λ flash. silent_is_lawful flash.blocks flash.faults };

    fn blocks(&self) -> u32 {
        self.blocks
    }

    fn read(&mut self, block: u32, page: u32, out: &mut [u8; 512]) -> Result<(), FlashFailed>
        requires block { block < self.old.blocks }
        requires page { page < 64 }

        // The page of the file is read, and a power loss leaves nothing that none left before.
        ensures page { IsTrue S.told → OnOk result (out.new ≡ pages_seen S.medium self.old.file block page) }
        ensures looks { OnlyReads (disk_seen S.medium self.old.file) (disk_seen S.medium self.new.file) }
        ensures clock { Elapses (disk_seen S.medium self.old.file) (disk_seen S.medium self.new.file) }

        ensures time { FlashElapses (silent_flash self.old.blocks self.old.faults)
            (silent_flash self.new.blocks self.new.faults) }
        ensures cause { OnErr result (Rose self.old.faults self.new.faults) }
        ensures passes { OnOk result (self.new.faults ≡ self.old.faults) }
    {
        let done = self.file.read(place_of(block, page), out);
        self.counted(done)
    }

    fn program(&mut self, block: u32, page: u32, bytes: &[u8; 512]) -> Result<(), FlashFailed>
        requires block { block < self.old.blocks }
        requires page { page < 64 }

        // The page of the file is set, durably. Where the call fails nothing but the page is torn, and what the file
        // lacked up to it. A power loss at any moment of the call tears the same at most, or leaves what one before
        // the call would have left.
        ensures puts { IsTrue S.told → OnOk result (pages_seen S.medium self.new.file
            ≡ program_page (pages_seen S.medium self.old.file) block page bytes.now) }
        ensures durable { OnOk result (Quiet (disk_seen S.medium self.new.file)) }
        ensures torn { IsTrue S.told → OnErr result (TornPageOf block page (file_seen S.medium self.old.file)
            (file_seen S.medium self.new.file)) }
        ensures power { IsTrue S.told → EachCase (λ c. (disk_seen S.medium self.old.file).now c
            ⊎ TornPageOf block page (file_seen S.medium self.old.file) (c.left 0))
            (disk_seen S.medium self.old.file) (disk_seen S.medium self.new.file) }
        ensures clock { Elapses (disk_seen S.medium self.old.file) (disk_seen S.medium self.new.file) }

        ensures time { FlashElapses (silent_flash self.old.blocks self.old.faults)
            (silent_flash self.new.blocks self.new.faults) }
        ensures cause { OnErr result (Rose self.old.faults self.new.faults) }
        ensures passes { OnOk result (self.new.faults ≡ self.old.faults) }
    {
        let done = self.file.write(place_of(block, page), bytes);
        self.counted(done)
    }

    fn erase(&mut self, block: u32) -> Result<(), FlashFailed>
        requires { block < self.old.blocks }

        // The pages of the block are blank, durably. Where the call fails nothing but the block is torn, and what the
        // file lacked up to it. A power loss tears as little, as above.
        ensures puts { IsTrue S.told → OnOk result (pages_seen S.medium self.new.file
            ≡ erase_block (pages_seen S.medium self.old.file) block) }
        ensures durable { OnOk result (Quiet (disk_seen S.medium self.new.file)) }
        ensures torn { IsTrue S.told → OnErr result (TornBlockOf block (file_seen S.medium self.old.file)
            (file_seen S.medium self.new.file)) }
        ensures power { IsTrue S.told → EachCase (λ c. (disk_seen S.medium self.old.file).now c
            ⊎ TornBlockOf block (file_seen S.medium self.old.file) (c.left 0))
            (disk_seen S.medium self.old.file) (disk_seen S.medium self.new.file) }
        ensures clock { Elapses (disk_seen S.medium self.old.file) (disk_seen S.medium self.new.file) }

        ensures time { FlashElapses (silent_flash self.old.blocks self.old.faults)
            (silent_flash self.new.blocks self.new.faults) }
        ensures cause { OnErr result (Rose self.old.faults self.new.faults) }
        ensures passes { OnOk result (self.new.faults ≡ self.old.faults) }
    {
        let done = self.file.write_blank(place_of(block, 0));
        self.counted(done)
    }

    fn announce(&mut self, _file: u32, _at: u64, _bytes: &[u8]) -> Result<(), FlashFailed>
        ensures same { self.new ≡ self.old }
        ensures time { FlashElapses (silent_flash self.old.blocks self.old.faults)
            (silent_flash self.new.blocks self.new.faults) }
        ensures cause { OnErr result (Rose self.old.faults self.new.faults) }
    {
        Ok(())
    }

    fn settle(&mut self) -> Result<(), FlashFailed>
        ensures same { self.new ≡ self.old }
        ensures time { FlashElapses (silent_flash self.old.blocks self.old.faults)
            (silent_flash self.new.blocks self.new.faults) }
        ensures cause { OnErr result (Rose self.old.faults self.new.faults) }
    {
        Ok(())
    }
}
