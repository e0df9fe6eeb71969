//! What is between the files of a disk and the pages of its flash, and the calls of the flash that it makes.

ghost use Rattle.std.specs.Prelude.{◌≡◌, ◌⊎◌, ◌↔◌, ◌≤◌, ◌<◌, ◌+◌, IsTrue, OnOk, OnErr};
ghost use Rattle.per_base.specs.Causes.{Rose};
ghost use Rattle.flash_model.specs.Pages.{blank_page};
ghost use Rattle.flash_model.specs.State.{IsStill, ProgramCase, EraseCase, FailsToProgram, FailsToErase, programmed};
ghost use Rattle.flash_model.specs.State.{erased};
ghost use Rattle.flash_model.specs.FlashMedium.{EachFlashCase};
ghost use Rattle.flash_disk.specs.Accounts.{Accounts};
ghost use Rattle.flash_disk.specs.Steps.{LearnsNothing};
ghost use Rattle.flash_disk.specs.Apart.{IsApart};

use crate::streams::{Streams, are_apart};
use crate::table::{FilePage, FlashPage, Newest, Table};
use disk_model::DiskFailed;
use flash_model::{BLANK_PAGE, BLOCK_PAGES, Flash, PAGE_BYTES};

/// A flash, and what is known of it.
#[derive(Drop)]
pub struct Layer<F> {
    pub flash: F,
    pub state: LayerState,
    pub streams: Streams,
    /// How many writes failed though the flash did not, up to the greatest u64.
    pub own: u64,
}

/// What is known of a flash.
#[derive(Drop)]
pub struct LayerState {
    pub table: Table,
    /// The block that is to be filled next, and its page for that; no page of it while this is 64.
    pub current: u32,
    pub fill: u32,
    pub spare: u32,
    /// Whether that block is known to be blank.
    pub cleared: bool,
    /// The greatest sequence number that was used.
    pub sequence: u64,
    /// A page that a failed call may have left anything in.
    pub unsure: Option<FlashPage>,
    /// What was moved into the block that is to be filled next, with room for a block.
    pub moved: Vec<(FilePage, Newest)>,
    /// Whether two records of a page have its greatest number and differ, so that no block may be erased.
    pub has_rivals: bool,
    /// Where the last byte other than zero ended that a newest record had past the end of its file at the opening; 0
    /// where there was none.
    pub stray_end: u64,
}

impl<F: Flash> Layer<F> {
    ghost use Rattle.flash_disk.specs.Sound.{IsDescribedBy};

    // Counts a failure of its own.
    pub(crate) fn fault(&mut self) -> DiskFailed
        ensures flash { self.new.flash ≡ self.old.flash }
        ensures state { self.new.state ≡ self.old.state }
        ensures later { (F.medium self.old.flash).faults + self.old.own
            ≤ (F.medium self.new.flash).faults + self.new.own }
        ensures rose { Rose ((F.medium self.old.flash).faults + self.old.own)
            ((F.medium self.new.flash).faults + self.new.own) }
        ensures one { self.new.own ≤ self.old.own + 1 }
        ensures no_less { self.old.own ≤ self.new.own }
    {
        self.own = self.own.saturating_add(1);
        DiskFailed
    }

    // `true` only where nothing is unsure and each newest record is in a block with newest records of its copy alone.
    pub(crate) fn is_apart(&self) -> bool
        ensures { IsTrue F.told → IsDescribedBy (F.medium self.now.flash) self.now.state → IsTrue result
            → IsApart (F.medium self.now.flash).state.pages (F.medium self.now.flash).blocks }
    {
        if self.state.unsure.is_some() {
            return false;
        }
        are_apart(&self.state.table)
    }

    // Reads a page of the flash; one that the flash does not have reads as blank.
    pub(crate) fn read_page(
        &mut self,
        place: FlashPage,
        out: &mut [u8; PAGE_BYTES],
    ) -> Result<(), DiskFailed>
        ensures bytes { IsTrue F.told → OnOk result (place.block < (F.medium self.old.flash).blocks → place.page < 64
            → out.new ≡ (F.medium self.old.flash).state.pages place.block place.page) }
        ensures reads { LearnsNothing F.told F.medium self.old self.new result }
        ensures during { EachFlashCase (IsStill (F.medium self.old.flash).state) (F.medium self.old.flash)
            (F.medium self.new.flash) }
    {
        if !self.has(place) {
            *out = BLANK_PAGE;
            return Ok(());
        }
        match self.flash.read(place.block, place.page, out) {
            Ok(()) => Ok(()),
            Err(_) => Err(DiskFailed),
        }
    }

    // Programs a page that is blank.
    pub(crate) fn program_page(
        &mut self,
        place: FlashPage,
        bytes: &[u8; PAGE_BYTES],
    ) -> Result<(), DiskFailed>
        requires within { IsTrue F.told → (place.block < (F.medium self.old.flash).blocks) × (place.page < 64) }
        requires blank { IsTrue F.told → (F.medium self.old.flash).state.pages place.block place.page ≡ blank_page }
        ensures done { IsTrue F.told → OnOk result
            ((F.medium self.new.flash).state ≡ programmed (F.medium self.old.flash).state place.block place.page
            bytes.now) }
        ensures failed { IsTrue F.told → OnErr result
            (FailsToProgram place.block place.page bytes.now (F.medium self.old.flash).state
            (F.medium self.new.flash).state) }
        ensures during { IsTrue F.told → EachFlashCase (λ c. IsStill (F.medium self.old.flash).state c
            ⊎ (IsStill (F.medium self.new.flash).state c
            ⊎ ProgramCase place.block place.page bytes.now (F.medium self.old.flash).state c)) (F.medium self.old.flash)
            (F.medium self.new.flash) }
        ensures state { self.new.state ≡ self.old.state }
        ensures own { IsTrue F.told → self.new.own ≡ self.old.own }
        ensures accounts { Accounts F.told F.medium 0 self.old self.new result }
    {
        if !self.has(place) {
            return Err(self.fault());
        }
        match self.flash.program(place.block, place.page, bytes) {
            Ok(()) => Ok(()),
            Err(_) => Err(DiskFailed),
        }
    }

    // Makes a block blank.
    pub(crate) fn erase_block(&mut self, block: u32) -> Result<(), DiskFailed>
        requires { IsTrue F.told → block < (F.medium self.old.flash).blocks }
        ensures done { IsTrue F.told → OnOk result ((F.medium self.new.flash).state
            ≡ erased (F.medium self.old.flash).state block) }
        ensures failed { IsTrue F.told → OnErr result
            (FailsToErase block (F.medium self.old.flash).state (F.medium self.new.flash).state) }
        ensures during { IsTrue F.told → EachFlashCase (λ c. IsStill (F.medium self.old.flash).state c
            ⊎ (IsStill (F.medium self.new.flash).state c
            ⊎ EraseCase block (F.medium self.old.flash).state c)) (F.medium self.old.flash) (F.medium self.new.flash) }
        ensures state { self.new.state ≡ self.old.state }
        ensures own { IsTrue F.told → self.new.own ≡ self.old.own }
        ensures accounts { Accounts F.told F.medium 0 self.old self.new result }
    {
        if block >= self.flash.blocks() {
            return Err(self.fault());
        }
        match self.flash.erase(block) {
            Ok(()) => Ok(()),
            Err(_) => Err(DiskFailed),
        }
    }

    // Whether the flash has this page.
    pub(crate) fn has(&self, place: FlashPage) -> bool
        ensures { IsTrue result ↔ ((place.block < (F.medium self.now.flash).blocks) × (place.page < 64)) }
    {
        place.block < self.flash.blocks() && place.page < BLOCK_PAGES
    }
}
