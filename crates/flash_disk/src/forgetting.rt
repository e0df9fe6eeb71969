//! Files that are given up: their records leave the flash, and nothing else changes.

ghost use Rattle.std.specs.Prelude.{◌≡◌, ◌≢◌, ◌⊎◌, ◌+◌, ◌≤◌, ◌<◌, ℕ, IsTrue, IsFalse, IfOk, IfErr, IfSome, OnOk};
ghost use Rattle.std.specs.Prelude.{MatchResult};
ghost use Rattle.std.specs.Prelude.{Some, None, true, not};
ghost use Rattle.flash_record.specs.PageRecord.{PageRecord, record_in};
ghost use Rattle.flash_disk.specs.Accounts.{Accounts};
ghost use Rattle.flash_disk.specs.Does.{Does};
ghost use Rattle.flash_disk.specs.Apart.{StandApart};
ghost use Rattle.flash_disk.specs.Emptied.{HasEmptyBlock};
ghost use Rattle.flash_disk.specs.Kept.{lies_in, in_ranges, spares_record, kept_image, HoldsKept};
ghost use Rattle.flash_disk.specs.Standing.{StaysAgreed};
ghost use Rattle.flash_disk.specs.Known.{known, page_of};
ghost use Rattle.flash_disk.specs.Newest.{places};
ghost use Rattle.flash_disk.specs.Forgetting.{Forgets, LeadsKept, LeavesKept, IsForgetting, IsFreeBlock, IsMovingKept};
ghost use Rattle.flash_disk.specs.Forgetting.{GivesUp, MovesKept, MayBeFreed, NeedsBlock, MayGiveNothing};
ghost use Rattle.disk_model.specs.Medium.{Quiet};
ghost use Rattle.per_base.specs.Causes.{Rose};

use crate::disk::{FlashDisk, FlashOpenError, FlashRefused};
use crate::layer::Layer;
use crate::table::{FilePage, FlashPage, Newest};
use disk_model::DiskFailed;
use flash_model::{BLANK_PAGE, BLOCK_PAGES, Flash};
use flash_record::read_record;
use std::alloc::Global;

/// Files: those with numbers from `first` on and below `end`.
#[derive(Clone, Copy, Debug, PartialEq, Eq)]
pub struct FileRange {
    pub first: u32,
    pub end: u32,
}

/// A disk over a flash of which files were given up.
#[derive(Drop)]
pub struct Forgotten<F: Flash> {
    pub disk: FlashDisk<F>,
    /// Whether every file that was given up is empty now.
    pub whole: bool,
}

impl<F: Flash> FlashDisk<F> {
    ghost use Rattle.flash_disk.specs.FlashDiskMedium.{disk_seen, IsJustOpened};
    ghost use Rattle.flash_disk.specs.Sound.{files_on};

    /// Gives up every file but those in some ranges: afterwards it is empty, and what its records took is room for new
    /// ones. Each file in the ranges is as it was, also after a stop at any moment of the call and where it fails; of a
    /// file that is given up anything may be left then. The flash is opened anew as a disk that has counted nothing.
    ///
    /// Blocks with records of files that are given up are erased, each once, after what else is needed in them was
    /// copied into a block that is blank. Another stays blank all the while. Where there are no two such blocks, or two
    /// newest records of one page that differ, no file is given up: no page changes, and `whole` is `false`.
    ///
    /// # Errors
    ///
    /// Only `Device`, where a call of the flash fails, and `OutOfMemory`.
    pub fn forget(self, alloc: Global, kept: &[FileRange]) -> Result<Forgotten<F>, FlashRefused<F>>
        ensures error { IsTrue F.told → IfErr result (λ refused. (refused.error ≡ FlashOpenError.Device)
            ⊎ (refused.error ≡ FlashOpenError.OutOfMemory)) }
        ensures device { IsTrue F.told → IfErr result (λ refused. refused.error ≡ FlashOpenError.Device
            → Rose ((F.medium self.flash).faults + self.own) ((F.medium refused.flash).faults + self.own)) }
        ensures faults { IsTrue F.told → IfOk result (λ forgotten. (F.medium forgotten.disk.flash).faults
            ≡ (F.medium self.flash).faults) }

        // At each moment the files in the ranges are as they were, and the flash can be opened.
        ensures gives_up { IsTrue F.told → MatchResult result
            (λ forgotten. GivesUp (in_ranges kept.now) (F.medium self.flash) (F.medium forgotten.disk.flash))
            (λ refused. GivesUp (in_ranges kept.now) (F.medium self.flash) (F.medium refused.flash)) }

        // If `whole`, all others are empty and some block is; else no page changed, and there were rivals or each block
        // but one had a record that is needed. No rivals came, and copies stand apart where they did.
        ensures image { IsTrue F.told → IfOk result (λ forgotten. IsTrue forgotten.whole
            → files_on (F.medium forgotten.disk.flash)
            ≡ kept_image (in_ranges kept.now) (files_on (F.medium self.flash))) }
        ensures empty { IsTrue F.told → IfOk result (λ forgotten. IsTrue forgotten.whole
            → HasEmptyBlock (F.medium forgotten.disk.flash).state.pages (F.medium forgotten.disk.flash).blocks) }
        ensures pages { IsTrue F.told → IfOk result (λ forgotten. IsFalse forgotten.whole
            → (F.medium forgotten.disk.flash).state.pages ≡ (F.medium self.flash).state.pages) }
        ensures due { IsTrue F.told → IfOk result (λ forgotten. IsFalse forgotten.whole
            → MayGiveNothing (in_ranges kept.now) (F.medium self.flash)) }
        ensures agreed { IsTrue F.told → IfOk result (λ forgotten.
            StaysAgreed (F.medium self.flash) (F.medium forgotten.disk.flash).state.pages) }
        ensures apart { IsTrue F.told → IfOk result (λ forgotten.
            StandApart (F.medium self.flash).state.pages (F.medium self.flash).blocks
            → StandApart (F.medium forgotten.disk.flash).state.pages (F.medium forgotten.disk.flash).blocks) }

        // The disk is as one just opened: nothing is pending, and it has counted no fault of its own and no byte.
        ensures begins { IfOk result (λ forgotten. IsJustOpened F.told (F.medium forgotten.disk.flash)
            (disk_seen F.told F.medium forgotten.disk)) }
        ensures quiet { IfOk result (λ forgotten. Quiet (disk_seen F.told F.medium forgotten.disk)) }
        ensures own { IfOk result (λ forgotten. (forgotten.disk.own ≡ 0) × (forgotten.disk.written ≡ 0)) }
    {
        let mut layer = self.layer;
        let Ok(whole) = layer.forget_all(kept) else {
            return Err(FlashRefused {
                flash: layer.flash,
                error: FlashOpenError::Device,
            });
        };
        match FlashDisk::open(alloc, layer.flash) {
            Ok(disk) => Ok(Forgotten { disk, whole }),
            Err(refused) => Err(refused),
        }
    }
}

impl<F: Flash> Layer<F> {
    ghost use Rattle.flash_disk.specs.Sound.{IsDescribedBy};
    ghost use Rattle.flash_disk.specs.Steps.{LearnsNothing, IsSure};

    // Reads again what a failed call may have left anything in, and rids the flash of the records of all files but
    // those in some ranges.
    fn forget_all(&mut self, kept: &[FileRange]) -> Result<bool, DiskFailed>
        requires described { IsTrue F.told → IsDescribedBy (F.medium self.old.flash) self.old.state }
        ensures does { IsTrue F.told → Does (Forgets (in_ranges kept.now) (F.medium self.old.flash).blocks
            (F.medium self.old.flash).state.pages) (F.medium self.old.flash) (F.medium self.new.flash) }
        ensures whole { IsTrue F.told → IfOk result (λ whole. IsTrue whole → (block : ℕ)
            → block < (F.medium self.new.flash).blocks
            → HoldsKept (in_ranges kept.now) (F.medium self.new.flash).state.pages block) }
        ensures empty { IsTrue F.told → IfOk result (λ whole. IsTrue whole
            → HasEmptyBlock (F.medium self.new.flash).state.pages (F.medium self.new.flash).blocks) }
        ensures nothing { IsTrue F.told → IfOk result (λ whole. IsFalse whole
            → (F.medium self.new.flash).state.pages ≡ (F.medium self.old.flash).state.pages) }
        ensures due { IsTrue F.told → IfOk result (λ whole. IsFalse whole
            → MayGiveNothing (in_ranges kept.now) (F.medium self.old.flash)) }
        ensures accounts { Accounts F.told F.medium 0 self.old self.new result }
        ensures own { IsTrue F.told → self.new.own ≡ self.old.own }
    {
        self.make_sure()?;
        self.forget_others(kept)
    }

    // Rids the flash of the records of all files but those in some ranges; `false` where some may be left, since there
    // are rivals or no block into which records can be moved.
    fn forget_others(&mut self, kept: &[FileRange]) -> Result<bool, DiskFailed>
        requires ready { IsSure F.told F.medium self.old }
        ensures does { IsTrue F.told → Does (Forgets (in_ranges kept.now) (F.medium self.old.flash).blocks
            (F.medium self.old.flash).state.pages) (F.medium self.old.flash) (F.medium self.new.flash) }
        ensures whole { IsTrue F.told → IfOk result (λ whole. IsTrue whole → (block : ℕ)
            → block < (F.medium self.new.flash).blocks
            → HoldsKept (in_ranges kept.now) (F.medium self.new.flash).state.pages block) }
        ensures empty { IsTrue F.told → IfOk result (λ whole. IsTrue whole
            → HasEmptyBlock (F.medium self.new.flash).state.pages (F.medium self.new.flash).blocks) }
        ensures nothing { IsTrue F.told → IfOk result (λ whole. IsFalse whole
            → (F.medium self.new.flash).state.pages ≡ (F.medium self.old.flash).state.pages) }
        ensures due { IsTrue F.told → IfOk result (λ whole. IsFalse whole
            → MayGiveNothing (in_ranges kept.now) (F.medium self.old.flash)) }
        ensures accounts { Accounts F.told F.medium 0 self.old self.new result }
        ensures own { IsTrue F.told → self.new.own ≡ self.old.own }
    {
        if self.state.has_rivals {
            return Ok(false);
        }
        let Some(first) = self.find_other(kept)? else {
            self.clear_spare()?;
            return Ok(true);
        };
        let Some(free) = self.find_free(kept)? else {
            return Ok(false);
        };
        self.free_from(kept, first, free)?;
        Ok(true)
    }

    // Makes the spare block blank and another one, in which nothing is needed, and rids the blocks from one on of the
    // records of other files than those in some ranges.
    fn free_from(&mut self, kept: &[FileRange], first: u32, free: u32) -> Result<(), DiskFailed>
        requires ready { IsSure F.told F.medium self.old }
        requires agreed { IsFalse self.old.state.has_rivals }
        requires free { IsTrue F.told → MayBeFreed (in_ranges kept.now) (F.medium self.old.flash).blocks self.old.state
            free }
        requires before { IsTrue F.told → (block : ℕ) → block < first
            → HoldsKept (in_ranges kept.now) (F.medium self.old.flash).state.pages block }
        ensures whole { IsTrue F.told → OnOk result ((block : ℕ) → block < (F.medium self.new.flash).blocks
            → HoldsKept (in_ranges kept.now) (F.medium self.new.flash).state.pages block) }
        ensures empty { IsTrue F.told → OnOk result
            (HasEmptyBlock (F.medium self.new.flash).state.pages (F.medium self.new.flash).blocks) }
        ensures does { IsTrue F.told → Does (Forgets (in_ranges kept.now) (F.medium self.old.flash).blocks
            (F.medium self.old.flash).state.pages) (F.medium self.old.flash) (F.medium self.new.flash) }
        ensures accounts { Accounts F.told F.medium 0 self.old self.new result }
        ensures own { IsTrue F.told → self.new.own ≡ self.old.own }
    {
        self.clear_spare()?;
        self.empty_block(free)?;
        self.free_others(kept, first, free)
    }

    // The first block with a record of another file than those in some ranges.
    fn find_other(&mut self, kept: &[FileRange]) -> Result<Option<u32>, DiskFailed>
        ensures reads { LearnsNothing F.told F.medium self.old self.new result }
        ensures none { IsTrue F.told → IfOk result (λ found. found ≡ None → (block : ℕ)
            → block < (F.medium self.old.flash).blocks
            → HoldsKept (in_ranges kept.now) (F.medium self.old.flash).state.pages block) }
        ensures before { IsTrue F.told → IfOk result (λ found. IfSome found (λ first. (block : ℕ) → block < first
            → HoldsKept (in_ranges kept.now) (F.medium self.old.flash).state.pages block)) }
    {
        for block in 0..self.flash.blocks() {
            if self.holds_other(kept, block)? {
                return Ok(Some(block));
            }
        }
        Ok(None)
    }

    // Whether a block has a record of another file than those in some ranges.
    fn holds_other(&mut self, kept: &[FileRange], block: u32) -> Result<bool, DiskFailed>
        ensures reads { LearnsNothing F.told F.medium self.old self.new result }
        ensures none { IsTrue F.told → block < (F.medium self.old.flash).blocks → IfOk result (λ other. IsFalse other
            → HoldsKept (in_ranges kept.now) (F.medium self.old.flash).state.pages block) }
        ensures some { IsTrue F.told → block < (F.medium self.old.flash).blocks → IfOk result (λ other. IsTrue other
            → HoldsKept (in_ranges kept.now) (F.medium self.old.flash).state.pages block → ⊥) }
    {
        let mut page = BLANK_PAGE;
        for at in 0..BLOCK_PAGES {
            self.read_page(FlashPage { block, page: at }, &mut page)?;
            if is_of_other(&page, kept) {
                return Ok(true);
            }
        }
        Ok(false)
    }

    // The first block but the spare one that has no newest record of a file in some ranges.
    fn find_free(&mut self, kept: &[FileRange]) -> Result<Option<u32>, DiskFailed>
        ensures reads { LearnsNothing F.told F.medium self.old self.new result }
        ensures free { IsTrue F.told → LeadsKept (in_ranges kept.now) (F.medium self.old.flash).state.pages
            (places (F.medium self.old.flash).blocks) self.old.state.table
            → IfOk result (λ found. IfSome found
            (MayBeFreed (in_ranges kept.now) (F.medium self.old.flash).blocks self.old.state)) }
        ensures full { IfOk result (λ found. found ≡ None → (block : ℕ) → block < (F.medium self.old.flash).blocks
            → block ≢ self.old.state.spare → NeedsBlock (in_ranges kept.now) self.old.state.table block) }
    {
        for block in 0..self.flash.blocks() {
            let needed = self.holds_needed(kept, block)?;
            if !needed && block != self.state.spare {
                return Ok(Some(block));
            }
        }
        Ok(None)
    }

    // Whether a block has the newest record of a page of a file in some ranges.
    fn holds_needed(&mut self, kept: &[FileRange], block: u32) -> Result<bool, DiskFailed>
        ensures reads { LearnsNothing F.told F.medium self.old self.new result }
        ensures none { IsTrue F.told → block < (F.medium self.old.flash).blocks
            → LeadsKept (in_ranges kept.now) (F.medium self.old.flash).state.pages
            (places (F.medium self.old.flash).blocks) self.old.state.table
            → IfOk result (λ needed. IsFalse needed
            → LeavesKept (in_ranges kept.now) self.old.state.table block 64) }
        ensures some { IfOk result (λ needed. IsTrue needed
            → NeedsBlock (in_ranges kept.now) self.old.state.table block) }
    {
        let mut page = BLANK_PAGE;
        for at in 0..BLOCK_PAGES {
            let place = FlashPage { block, page: at };
            self.read_page(place, &mut page)?;
            if self.needed_in(kept, place, &page).is_some() {
                return Ok(true);
            }
        }
        Ok(false)
    }

    // Rids the blocks from one on of the records of other files than those in some ranges; `free` is a block that is
    // blank.
    fn free_others(&mut self, kept: &[FileRange], first: u32, free: u32) -> Result<(), DiskFailed>
        requires forgetting { IsTrue F.told → IsForgetting (in_ranges kept.now) (F.medium self.old.flash).state.pages
            (F.medium self.old.flash).blocks self.old.state }
        requires free { IsTrue F.told → IsFreeBlock (F.medium self.old.flash).state.pages
            (F.medium self.old.flash).blocks self.old.state free }
        requires before { IsTrue F.told → (block : ℕ) → block < first
            → HoldsKept (in_ranges kept.now) (F.medium self.old.flash).state.pages block }
        ensures forgetting { IsTrue F.told → OnOk result (IsForgetting (in_ranges kept.now)
            (F.medium self.new.flash).state.pages (F.medium self.new.flash).blocks self.new.state) }
        ensures whole { IsTrue F.told → OnOk result ((block : ℕ) → block < (F.medium self.new.flash).blocks
            → HoldsKept (in_ranges kept.now) (F.medium self.new.flash).state.pages block) }
        ensures does { IsTrue F.told → Does (Forgets (in_ranges kept.now) (F.medium self.old.flash).blocks
            (F.medium self.old.flash).state.pages) (F.medium self.old.flash) (F.medium self.new.flash) }
        ensures accounts { Accounts F.told F.medium 0 self.old self.new result }
        ensures own { IsTrue F.told → self.new.own ≡ self.old.own }
    {
        let mut target = free;
        for block in first..self.flash.blocks() {
            target = self.free_one(kept, block, target)?;
        }
        Ok(())
    }

    // Rids a block of the records of other files than those in some ranges; `free` is a block that is blank, and so is
    // the one that is returned.
    fn free_one(&mut self, kept: &[FileRange], block: u32, free: u32) -> Result<u32, DiskFailed>
        requires forgetting { IsTrue F.told → IsForgetting (in_ranges kept.now) (F.medium self.old.flash).state.pages
            (F.medium self.old.flash).blocks self.old.state }
        requires within { IsTrue F.told → block < (F.medium self.old.flash).blocks }
        requires free { IsTrue F.told → IsFreeBlock (F.medium self.old.flash).state.pages
            (F.medium self.old.flash).blocks self.old.state free }
        ensures forgetting { IsTrue F.told → OnOk result (IsForgetting (in_ranges kept.now)
            (F.medium self.new.flash).state.pages (F.medium self.new.flash).blocks self.new.state) }
        ensures free { IsTrue F.told → IfOk result (IsFreeBlock (F.medium self.new.flash).state.pages
            (F.medium self.new.flash).blocks self.new.state) }
        ensures here { IsTrue F.told → OnOk result
            (HoldsKept (in_ranges kept.now) (F.medium self.new.flash).state.pages block) }
        ensures holds { IsTrue F.told → OnOk result ((b : ℕ)
            → HoldsKept (in_ranges kept.now) (F.medium self.old.flash).state.pages b
            → HoldsKept (in_ranges kept.now) (F.medium self.new.flash).state.pages b) }
        ensures does { IsTrue F.told → Does (Forgets (in_ranges kept.now) (F.medium self.old.flash).blocks
            (F.medium self.old.flash).state.pages) (F.medium self.old.flash) (F.medium self.new.flash) }
        ensures accounts { Accounts F.told F.medium 0 self.old self.new result }
        ensures own { IsTrue F.told → self.new.own ≡ self.old.own }
    {
        if !self.holds_other(kept, block)? {
            return Ok(free);
        }
        self.move_kept(kept, block, free)?;
        self.erase_block(block)?;
        Ok(block)
    }

    // Copies the newest records of the files in some ranges from a block to the start of another, to which the table
    // leads from then on.
    fn move_kept(&mut self, kept: &[FileRange], from: u32, to: u32) -> Result<(), DiskFailed>
        requires moving { IsTrue F.told → IsMovingKept (in_ranges kept.now) (F.medium self.old.flash).state.pages
            (F.medium self.old.flash).blocks self.old.state from to 0 0 }
        ensures forgetting { IsTrue F.told → OnOk result (IsForgetting (in_ranges kept.now)
            (F.medium self.new.flash).state.pages (F.medium self.new.flash).blocks self.new.state) }
        ensures left { IsTrue F.told → OnOk result (LeavesKept (in_ranges kept.now) self.new.state.table from 64) }
        ensures holds { IsTrue F.told → OnOk result (HoldsKept (in_ranges kept.now)
            (F.medium self.new.flash).state.pages to) }
        ensures does { IsTrue F.told → Does (MovesKept (in_ranges kept.now) (F.medium self.old.flash).blocks from to
            (F.medium self.old.flash).state.pages) (F.medium self.old.flash) (F.medium self.new.flash) }
        ensures spare { self.new.state.spare ≡ self.old.state.spare }
        ensures accounts { Accounts F.told F.medium 0 self.old self.new result }
        ensures own { IsTrue F.told → self.new.own ≡ self.old.own }
    {
        let mut count = 0;
        for page in 0..BLOCK_PAGES {
            let place = FlashPage { block: from, page };
            let next = FlashPage {
                block: to,
                page: count,
            };
            count = self.move_one(kept, place, next)?;
        }
        Ok(())
    }

    // Copies a record to a blank page, if it is the newest of its page and the file is in some range; then the table
    // leads to the copy. It returns the next page of the copy's block that is blank.
    fn move_one(
        &mut self,
        kept: &[FileRange],
        from: FlashPage,
        to: FlashPage,
    ) -> Result<u32, DiskFailed>
        requires page { from.page < 64 }
        requires count { to.page ≤ from.page }
        requires moving { IsTrue F.told → IsMovingKept (in_ranges kept.now) (F.medium self.old.flash).state.pages
            (F.medium self.old.flash).blocks self.old.state from.block to.block from.page to.page }
        ensures moving { IsTrue F.told → IfOk result (IsMovingKept (in_ranges kept.now)
            (F.medium self.new.flash).state.pages (F.medium self.new.flash).blocks self.new.state from.block to.block
            (from.page + 1)) }
        ensures count { IfOk result (λ next. next ≤ to.page + 1) }
        ensures does { IsTrue F.told → Does (MovesKept (in_ranges kept.now) (F.medium self.old.flash).blocks
            from.block to.block (F.medium self.old.flash).state.pages) (F.medium self.old.flash)
            (F.medium self.new.flash) }
        ensures spare { self.new.state.spare ≡ self.old.state.spare }
        ensures accounts { Accounts F.told F.medium 0 self.old self.new result }
        ensures own { IsTrue F.told → self.new.own ≡ self.old.own }
    {
        let mut page = BLANK_PAGE;
        self.read_page(from, &mut page)?;
        let Some((key, old)) = self.needed_in(kept, from, &page) else {
            return Ok(to.page);
        };
        self.program_page(to, &page)?;
        self.state.table.put(key, Newest { place: to, ..old });
        Ok(to.page + 1)
    }

    // The page of a file in some ranges of which a page of the flash is the newest record, and that record.
    fn needed_in(
        &self,
        kept: &[FileRange],
        place: FlashPage,
        page: &[u8],
    ) -> Option<(FilePage, Newest)>
        ensures known { IfSome result (λ found. known self.now.state.table found.0 ≡ Some found.1) }
        ensures kept { IfSome result (λ found. in_ranges kept.now found.0.file ≡ true) }
        ensures block { IfSome result (λ found. found.1.place.block ≡ place.block) }
        ensures page { IfSome result (λ found. found.1.place.page ≡ place.page) }
        ensures found { (r : PageRecord) (newest : Newest) → record_in page.now ≡ Some r
            → in_ranges kept.now r.file ≡ true → known self.now.state.table (page_of r) ≡ Some newest
            → newest.place.block ≡ place.block → newest.place.page ≡ place.page → result ≡ Some (page_of r, newest) }
    {
        let (key, newest) = self.newest_in(page)?;
        if newest.place != place || !is_in(kept, key.file) {
            return None;
        }
        Some((key, newest))
    }
}

// Whether a page is a record of another file than those in some ranges.
fn is_of_other(page: &[u8], kept: &[FileRange]) -> bool
    ensures { result ≡ not (spares_record (in_ranges kept.now) (record_in page.now)) }
{
    match read_record(page) {
        Some(record) => !is_in(kept, record.file),
        None => false,
    }
}

// Whether a file is in one of some ranges.
fn is_in(ranges: &[FileRange], file: u32) -> bool
    ensures { result ≡ in_ranges ranges.now file }
{
    ranges.iter().any(|range| has_file(range, file))
}

// Whether a file is in a range.
fn has_file(range: &FileRange, file: u32) -> bool
    ensures { result ≡ lies_in file range.now }
{
    range.first <= file && file < range.end
}
