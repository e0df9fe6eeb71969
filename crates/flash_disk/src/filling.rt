//! Records that are added to the block that is being filled, and blocks that are made free for it.

ghost use Rattle.std.specs.Prelude.{◌≡◌, ◌≢◌, ◌⊎◌, ◌+◌, ◌*◌, ◌≤◌, ◌<◌, ℕ, IsTrue, IsFalse, IfOk, IfSome, OnOk};
ghost use Rattle.std.specs.Prelude.{OnErr, Some, None, length, vec_len};
ghost use Rattle.flash_model.specs.State.{IsStill};
ghost use Rattle.flash_model.specs.FlashMedium.{EachFlashCase};
ghost use Rattle.flash_model.specs.Pages.{Pages, blank_page};
ghost use Rattle.flash_record.specs.PageRecord.{PageRecord, record_in};
ghost use Rattle.flash_record.specs.Stated.{stated};
ghost use Rattle.flash_disk.specs.Known.{known, page_of};
ghost use Rattle.flash_disk.specs.Counted.{entries_in, copied_below};
ghost use Rattle.flash_disk.specs.Entries.{SameEntries, Occupies};
ghost use Rattle.flash_disk.specs.Does.{Does};
ghost use Rattle.flash_disk.specs.PutPart.{PutPart};
ghost use Rattle.flash_disk.specs.Newest.{places};
ghost use Rattle.flash_disk.specs.Standing.{DenotesFiles, KeepsRecords};
ghost use Rattle.flash_disk.specs.Accounts.{Accounts};
ghost use Rattle.flash_disk.specs.Apart.{copy_of, HoldsOneCopy};
ghost use Rattle.flash_disk.specs.LedApart.{LeadsOnly};
ghost use Rattle.flash_disk.specs.KeepsApart.{KeepsApart, HasHome};
ghost use Rattle.flash_disk.specs.Emptied.{IsEmptyBlock, Empties};

use crate::layer::Layer;
use crate::opening::newest_at;
use crate::table::{FilePage, FlashPage, Newest};
use disk_model::DiskFailed;
use flash_model::{BLANK_PAGE, BLOCK_PAGES, Flash, PAGE_BYTES};
use flash_record::{RECORD_BYTES, Record, read_record, record_page};

impl<F: Flash> Layer<F> {
    ghost use Rattle.flash_disk.specs.Sound.{files_on, Sound, IsSoundLayer, IsDescribedBy, HasFreshPage, FitsIn};
    ghost use Rattle.flash_disk.specs.Sound.{Enters};
    ghost use Rattle.flash_disk.specs.Sound.{LeavesPut, LeavesAdded};
    ghost use Rattle.flash_disk.specs.Sound.{ShowsPage, ShowsSame};
    ghost use Rattle.flash_disk.specs.Moving.{IsMoving, StandsMoved, MayJoin};
    ghost use Rattle.flash_disk.specs.Steps.{LearnsNothing, IsSure, StaysSound, AddsRecords};

    // Reads again what a failed call may have left anything in.
    pub(crate) fn make_sure(&mut self) -> Result<(), DiskFailed>
        requires described { IsTrue F.told → IsDescribedBy (F.medium self.old.flash) self.old.state }
        ensures described { IsTrue F.told → IsDescribedBy (F.medium self.new.flash) self.new.state }
        ensures stays { StaysSound F.told F.medium self.new result }
        ensures sequence { self.new.state.sequence ≡ self.old.state.sequence }
        ensures unchanged { IsTrue F.told → (F.medium self.new.flash).state ≡ (F.medium self.old.flash).state }
        ensures during { EachFlashCase (IsStill (F.medium self.old.flash).state) (F.medium self.old.flash)
            (F.medium self.new.flash) }
        ensures own { self.new.own ≡ self.old.own }
        ensures accounts { Accounts F.told F.medium 0 self.old self.new result }
    {
        let Some(place) = self.state.unsure else {
            return Ok(());
        };
        let mut page = BLANK_PAGE;
        self.read_page(place, &mut page)?;
        self.state.unsure = None;
        if let Some(record) = read_record(&page) {
            self.enter(place, record);
        }
        Ok(())
    }

    // The next sequence number.
    fn next_sequence(&mut self) -> Result<u64, DiskFailed>
        ensures positive { IfOk result (λ sequence. 1 ≤ sequence) }
        ensures flash { self.new.flash ≡ self.old.flash }
        ensures next { IfOk result (λ sequence. (sequence ≡ self.old.state.sequence + 1)
            × (self.new ≡ record self.old { state = record self.old.state { sequence = sequence } })) }
        ensures none { OnErr result (self.new.state ≡ self.old.state) }
        ensures accounts { Accounts F.told F.medium 1 self.old self.new result }
        ensures last { OnErr result (self.old.state.sequence ≡ 18446744073709551615) }
    {
        if self.state.sequence == u64::MAX {
            return Err(self.fault());
        }
        self.state.sequence += 1;
        Ok(self.state.sequence)
    }

    // Adds a record, which is the newest of its page from then on.
    pub(crate) fn append(
        &mut self,
        file: u32,
        page: u32,
        len: u64,
        bytes: &[u8; RECORD_BYTES],
    ) -> Result<(), DiskFailed>
        requires ready { IsSure F.told F.medium self.old }
        requires fits { IsTrue F.told → FitsIn (F.medium self.old.flash) self.old.state file page len bytes.now }
        ensures adds { AddsRecords F.told F.medium 1 self.old self.new result }
        ensures put { IsTrue F.told → OnOk result (PutPart file (256 * page) bytes.now len
            (files_on (F.medium self.old.flash)) (files_on (F.medium self.new.flash))) }
        ensures shown { IsTrue F.told → OnOk result (ShowsPage (F.medium self.old.flash) (F.medium self.new.flash) file
            page bytes.now) }
        ensures does { IsTrue F.told → Does (LeavesPut file (256 * page) bytes.now len (F.medium self.old.flash))
            (F.medium self.old.flash) (F.medium self.new.flash) }
        ensures apart { IsTrue F.told → KeepsApart (copy_of file) (F.medium self.old.flash) (F.medium self.new.flash) }
        ensures rises { OnOk result (self.old.state.sequence < self.new.state.sequence) }
        ensures entries { IsTrue F.told → OnOk result (Occupies self.old.state.table self.new.state.table
            (record { file = file; page = page })) }
        ensures no_rivals { IsTrue F.told → OnOk result (IsFalse self.old.state.has_rivals) }
        ensures cleared { OnOk result (IsTrue self.new.state.cleared) }
    {
        self.make_room(file)?;
        self.add(file, page, len, bytes)
    }

    // Adds a record to the current block.
    fn add(&mut self, file: u32, page: u32, len: u64, bytes: &[u8]) -> Result<(), DiskFailed>
        requires bytes { length bytes.now ≡ 256 }
        requires ready { IsSure F.told F.medium self.old }
        requires room { self.old.state.fill < 64 }
        requires fits { IsTrue F.told → FitsIn (F.medium self.old.flash) self.old.state file page len bytes.now }
        ensures stays { StaysSound F.told F.medium self.new result }
        ensures put { IsTrue F.told → OnOk result (PutPart file (256 * page) bytes.now len
            (files_on (F.medium self.old.flash)) (files_on (F.medium self.new.flash))) }
        ensures shown { IsTrue F.told → OnOk result (ShowsPage (F.medium self.old.flash) (F.medium self.new.flash) file
            page bytes.now) }
        ensures does { IsTrue F.told → Does (LeavesAdded self.old.state.current file (256 * page) bytes.now len
            (F.medium self.old.flash)) (F.medium self.old.flash) (F.medium self.new.flash) }
        ensures rises { OnOk result (self.old.state.sequence < self.new.state.sequence) }
        ensures accounts { Accounts F.told F.medium 1 self.old self.new result }
        ensures own { IsTrue F.told → (self.new.own ≡ self.old.own) ⊎ (self.new.state.sequence ≡ 18446744073709551615) }
        ensures entries { IsTrue F.told → OnOk result (Occupies self.old.state.table self.new.state.table
            (record { file = file; page = page })) }
        ensures no_rivals { IsTrue F.told → OnOk result (IsFalse self.old.state.has_rivals) }
        ensures cleared { self.new.state.cleared ≡ self.old.state.cleared }
    {
        let sequence = self.next_sequence()?;
        let place = FlashPage {
            block: self.state.current,
            page: self.state.fill,
        };
        self.state.fill = BLOCK_PAGES;
        self.streams.go_on(file, place);
        let record = Record {
            sequence,
            file,
            page,
            len,
            bytes,
        };
        match self.program_page(place, &page_with(record)) {
            Ok(()) => {
                self.enter(place, record);
                self.streams.end_with(FilePage {
                    file,
                    page: page as u64,
                });
                Ok(())
            }
            Err(e) => {
                self.state.unsure = Some(place);
                Err(e)
            }
        }
    }

    // A record is the newest of its page.
    fn enter(&mut self, place: FlashPage, found: Record<'_>)
        ensures flash { self.new.flash ≡ self.old.flash }
        ensures own { self.new.own ≡ self.old.own }
        ensures unsure { self.new.state.unsure ≡ self.old.state.unsure }
        ensures sequence { self.new.state.sequence ≡ self.old.state.sequence }
        ensures sound { (old new : Pages) (blocks : ℕ) → Sound old blocks self.old.state
            → IsFalse self.old.state.has_rivals
            → Enters old new blocks self.old.state place (stated found.entry) → Sound new blocks self.new.state }
        ensures has_rivals { self.new.state.has_rivals ≡ self.old.state.has_rivals }
        ensures cleared { self.new.state.cleared ≡ self.old.state.cleared }
        ensures entries { (old new : Pages) (blocks : ℕ) → Sound old blocks self.old.state
            → IsFalse self.old.state.has_rivals
            → Enters old new blocks self.old.state place (stated found.entry)
            → Occupies self.old.state.table self.new.state.table (page_of (stated found.entry)) }
    {
        let key = FilePage {
            file: found.file,
            page: found.page as u64,
        };
        if self.state.table.put(key, newest_at(place, found)) {
            self.state.table.lengthen(found.file, found.len);
        }
    }

    // Finds the page that is to be filled next with a record of a file, and makes the spare block blank.
    fn make_room(&mut self, file: u32) -> Result<(), DiskFailed>
        requires ready { IsSure F.told F.medium self.old }
        ensures ready { IsSure F.told F.medium self.new }
        ensures room { OnOk result (self.new.state.fill < 64) }
        ensures fits { IsTrue F.told → (file page len : ℕ) (bytes : _)
            → FitsIn (F.medium self.old.flash) self.old.state file page len bytes
            → FitsIn (F.medium self.new.flash) self.new.state file page len bytes }
        ensures does { IsTrue F.told → Does (DenotesFiles (F.medium self.old.flash))
            (F.medium self.old.flash) (F.medium self.new.flash) }
        ensures shown { IsTrue F.told → OnOk result (ShowsSame (F.medium self.old.flash) (F.medium self.new.flash)) }
        ensures apart { IsTrue F.told → KeepsApart (copy_of file) (F.medium self.old.flash) (F.medium self.new.flash) }
        ensures home { IsTrue F.told → OnOk result (HasHome (copy_of file) (F.medium self.old.flash)
            (F.medium self.new.flash) self.new.state.current) }
        ensures sequence { self.new.state.sequence ≡ self.old.state.sequence }
        ensures accounts { Accounts F.told F.medium 0 self.old self.new result }
        ensures own { IsTrue F.told → IsFalse self.old.state.has_rivals → self.new.own ≡ self.old.own }
        ensures entries { IsTrue F.told → OnOk result (SameEntries self.old.state.table self.new.state.table) }
        ensures cleared { OnOk result (IsTrue self.new.state.cleared) }
    {
        self.find_room(file)?;
        self.clear_spare()
    }

    // Makes the spare block blank, if it is not known to be, so that no record in it counts again where a newer one is
    // lost.
    pub(crate) fn clear_spare(&mut self) -> Result<(), DiskFailed>
        requires ready { IsSure F.told F.medium self.old }
        ensures does { IsTrue F.told → Does (Empties self.old.state.spare (F.medium self.old.flash).state.pages)
            (F.medium self.old.flash) (F.medium self.new.flash) }
        ensures cleared { OnOk result (IsTrue self.new.state.cleared) }
        ensures blank { IsTrue F.told → IsTrue self.new.state.cleared → IsEmptyBlock
            (F.medium self.new.flash).state.pages self.old.state.spare }
        ensures state { self.new.state ≡ record self.old.state { cleared = self.new.state.cleared } }
        ensures accounts { Accounts F.told F.medium 0 self.old self.new result }
        ensures own { IsTrue F.told → self.new.own ≡ self.old.own }
    {
        if self.state.cleared {
            return Ok(());
        }
        self.empty_block(self.state.spare)?;
        self.state.cleared = true;
        Ok(())
    }

    // Makes a block blank, if it is not.
    pub(crate) fn empty_block(&mut self, block: u32) -> Result<(), DiskFailed>
        requires { IsTrue F.told → block < (F.medium self.old.flash).blocks }
        ensures does { IsTrue F.told → Does (Empties block (F.medium self.old.flash).state.pages)
            (F.medium self.old.flash) (F.medium self.new.flash) }
        ensures blank { IsTrue F.told → OnOk result (IsEmptyBlock (F.medium self.new.flash).state.pages block) }
        ensures state { self.new.state ≡ self.old.state }
        ensures accounts { Accounts F.told F.medium 0 self.old self.new result }
        ensures own { IsTrue F.told → self.new.own ≡ self.old.own }
    {
        let empty = self.is_empty_block(block)?;
        if empty {
            return Ok(());
        }
        self.erase_block(block)
    }

    // `true` only where each page of a block is blank.
    fn is_empty_block(&mut self, block: u32) -> Result<bool, DiskFailed>
        ensures reads { LearnsNothing F.told F.medium self.old self.new result }
        ensures empty { IsTrue F.told → block < (F.medium self.old.flash).blocks → IfOk result (λ empty. IsTrue empty
            → IsEmptyBlock (F.medium self.old.flash).state.pages block) }
    {
        let mut bytes = BLANK_PAGE;
        for page in 0..BLOCK_PAGES {
            self.read_page(FlashPage { block, page }, &mut bytes)?;
            if !is_blank(&bytes) {
                return Ok(false);
            }
        }
        Ok(true)
    }

    // Finds the page that is to be filled next with a record of a file: the one after the last of the same copy, or
    // one of a block that is made free.
    fn find_room(&mut self, file: u32) -> Result<(), DiskFailed>
        requires ready { IsSure F.told F.medium self.old }
        ensures ready { IsSure F.told F.medium self.new }
        ensures room { OnOk result (self.new.state.fill < 64) }
        ensures fits { IsTrue F.told → (file page len : ℕ) (bytes : _)
            → FitsIn (F.medium self.old.flash) self.old.state file page len bytes
            → FitsIn (F.medium self.new.flash) self.new.state file page len bytes }
        ensures does { IsTrue F.told → Does (DenotesFiles (F.medium self.old.flash))
            (F.medium self.old.flash) (F.medium self.new.flash) }
        ensures shown { IsTrue F.told → OnOk result (ShowsSame (F.medium self.old.flash) (F.medium self.new.flash)) }
        ensures apart { IsTrue F.told → KeepsApart (copy_of file) (F.medium self.old.flash) (F.medium self.new.flash) }
        ensures home { IsTrue F.told → OnOk result (HasHome (copy_of file) (F.medium self.old.flash)
            (F.medium self.new.flash) self.new.state.current) }
        ensures sequence { self.new.state.sequence ≡ self.old.state.sequence }
        ensures accounts { Accounts F.told F.medium 0 self.old self.new result }
        ensures own { IsTrue F.told → IsFalse self.old.state.has_rivals → self.new.own ≡ self.old.own }
        ensures entries { IsTrue F.told → OnOk result (SameEntries self.old.state.table self.new.state.table) }
    {
        let next = self.streams.next_of(&self.state.table, file);
        let fresh = self.is_fresh(next)?;
        if fresh {
            self.state.current = next.block;
            self.state.fill = next.page;
            return Ok(());
        }
        self.free_block(file)
    }

    // Makes a block free for the records of a file's copy.
    fn free_block(&mut self, file: u32) -> Result<(), DiskFailed>
        requires ready { IsSure F.told F.medium self.old }
        ensures ready { IsSure F.told F.medium self.new }
        ensures room { OnOk result (self.new.state.fill < 64) }
        ensures fits { IsTrue F.told → (file page len : ℕ) (bytes : _)
            → FitsIn (F.medium self.old.flash) self.old.state file page len bytes
            → FitsIn (F.medium self.new.flash) self.new.state file page len bytes }
        ensures does { IsTrue F.told → Does (DenotesFiles (F.medium self.old.flash))
            (F.medium self.old.flash) (F.medium self.new.flash) }
        ensures shown { IsTrue F.told → OnOk result (ShowsSame (F.medium self.old.flash) (F.medium self.new.flash)) }
        ensures apart { IsTrue F.told → KeepsApart (copy_of file) (F.medium self.old.flash) (F.medium self.new.flash) }
        ensures home { IsTrue F.told → OnOk result (HasHome (copy_of file) (F.medium self.old.flash)
            (F.medium self.new.flash) self.new.state.current) }
        ensures sequence { self.new.state.sequence ≡ self.old.state.sequence }
        ensures accounts { Accounts F.told F.medium 0 self.old self.new result }
        ensures own { IsTrue F.told → IsFalse self.old.state.has_rivals → self.new.own ≡ self.old.own }
        ensures entries { IsTrue F.told → OnOk result (SameEntries self.old.state.table self.new.state.table) }
    {
        self.state.fill = BLOCK_PAGES;
        self.collect(file)?;
        if self.state.fill < BLOCK_PAGES {
            return Ok(());
        }
        Err(self.fault())
    }

    // `true` only where a page may be filled next: records may be added, it is outside the spare block and is blank.
    fn is_fresh(&mut self, place: FlashPage) -> Result<bool, DiskFailed>
        ensures reads { LearnsNothing F.told F.medium self.old self.new result }
        ensures page { IfOk result (λ fresh. IsTrue fresh → place.page < 64) }
        ensures fresh { IsTrue F.told → IfOk result (λ fresh. IsTrue fresh → HasFreshPage
            (F.medium self.old.flash).state.pages (F.medium self.old.flash).blocks
            (record self.old.state { current = place.block; fill = place.page })) }
    {
        if self.state.has_rivals || place.block == self.state.spare || !self.has(place) {
            return Ok(false);
        }
        let mut page = BLANK_PAGE;
        self.read_page(place, &mut page)?;
        Ok(is_blank(&page))
    }

    // Makes a block free for the records of a file's copy, the spare one, by moving the newest records of another into
    // it. That is a block with newest records of the copy alone, or with none; where there is no such block that leaves
    // a page, and none comes by joining two others, it is the one where they are fewest.
    fn collect(&mut self, file: u32) -> Result<(), DiskFailed>
        requires ready { IsSure F.told F.medium self.old }
        requires full { 64 ≤ self.old.state.fill }
        ensures ready { IsSure F.told F.medium self.new }
        ensures fits { IsTrue F.told → (file page len : ℕ) (bytes : _)
            → FitsIn (F.medium self.old.flash) self.old.state file page len bytes
            → FitsIn (F.medium self.new.flash) self.new.state file page len bytes }
        ensures does { IsTrue F.told → Does (DenotesFiles (F.medium self.old.flash))
            (F.medium self.old.flash) (F.medium self.new.flash) }
        ensures shown { IsTrue F.told → OnOk result (ShowsSame (F.medium self.old.flash) (F.medium self.new.flash)) }
        ensures apart { IsTrue F.told → KeepsApart (copy_of file) (F.medium self.old.flash) (F.medium self.new.flash) }
        ensures home { IsTrue F.told → OnOk result (HasHome (copy_of file) (F.medium self.old.flash)
            (F.medium self.new.flash) self.new.state.current) }
        ensures sequence { self.new.state.sequence ≡ self.old.state.sequence }
        ensures accounts { Accounts F.told F.medium 0 self.old self.new result }
        ensures light { IsTrue F.told → OnOk result (self.new.state.fill < 64) }
        ensures own { IsTrue F.told → IsFalse self.old.state.has_rivals → self.new.own ≡ self.old.own }
        ensures entries { IsTrue F.told → OnOk result (SameEntries self.old.state.table self.new.state.table) }
    {
        if self.state.has_rivals {
            return Err(self.fault());
        }
        let own = self.find_own(file)?;
        let target = self.state.spare;
        let victim = self.state.table.given_up(own, target);
        if victim == target {
            return Err(self.fault());
        }
        self.move_block(victim)?;
        self.streams.begin(file, target, victim, self.state.fill);
        Ok(())
    }

    // Moves the newest records of a block into the spare block, which is the current one from then on, while the block
    // is the spare one.
    pub(crate) fn move_block(&mut self, victim: u32) -> Result<(), DiskFailed>
        requires ready { IsSure F.told F.medium self.old }
        requires full { 64 ≤ self.old.state.fill }
        requires agreed { IsFalse self.old.state.has_rivals }
        requires within { victim < self.old.state.table.blocks }
        requires other { victim ≢ self.old.state.spare }
        ensures ready { IsSure F.told F.medium self.new }
        ensures spare { OnOk result (self.new.state.spare ≡ victim) }
        ensures current { OnOk result (self.new.state.current ≡ self.old.state.spare) }
        ensures few { IsTrue F.told → OnOk result (self.new.state.fill ≤ entries_in self.old.state.table victim) }
        ensures joins { IsTrue F.told → OnOk result (MayJoin (F.medium self.new.flash) self.old.state self.new.state
            victim) }
        ensures fits { IsTrue F.told → (file page len : ℕ) (bytes : _)
            → FitsIn (F.medium self.old.flash) self.old.state file page len bytes
            → FitsIn (F.medium self.new.flash) self.new.state file page len bytes }
        ensures does { IsTrue F.told → Does (DenotesFiles (F.medium self.old.flash))
            (F.medium self.old.flash) (F.medium self.new.flash) }
        ensures shown { IsTrue F.told → OnOk result (ShowsSame (F.medium self.old.flash) (F.medium self.new.flash)) }
        ensures apart { IsTrue F.told → (copy only : ℕ) → LeadsOnly self.old.state.table only victim
            → KeepsApart copy (F.medium self.old.flash) (F.medium self.new.flash) }
        ensures home { IsTrue F.told → OnOk result ((only : ℕ) → LeadsOnly self.old.state.table only victim
            → HoldsOneCopy (F.medium self.new.flash).state.pages (places (F.medium self.new.flash).blocks)
            self.old.state.spare only) }
        ensures sequence { self.new.state.sequence ≡ self.old.state.sequence }
        ensures accounts { Accounts F.told F.medium 0 self.old self.new result }
        ensures own { IsTrue F.told → self.new.own ≡ self.old.own }
        ensures entries { IsTrue F.told → OnOk result (SameEntries self.old.state.table self.new.state.table) }
    {
        let target = self.state.spare;
        self.clear_spare()?;
        self.state.cleared = false;
        self.state.moved.clear();
        self.copy_needed(victim, target)?;
        self.state.table.put_all(&self.state.moved);
        self.state.fill = self.state.moved.len().min(BLOCK_PAGES as usize) as u32;
        self.state.current = target;
        self.state.spare = victim;
        Ok(())
    }

    // Copies the newest records of a block to the start of another; the table still leads to where they were.
    fn copy_needed(&mut self, from: u32, to: u32) -> Result<(), DiskFailed>
        requires none { vec_len self.old.state.moved ≡ 0 }
        requires moving { IsTrue F.told → IsMoving (F.medium self.old.flash).state.pages
            (F.medium self.old.flash).blocks self.old.state from to 0 }
        ensures moving { IsTrue F.told → OnOk result
            (IsMoving (F.medium self.new.flash).state.pages (F.medium self.new.flash).blocks self.new.state from to
            64) }
        ensures failed { IsTrue F.told → OnErr result (IsSoundLayer (F.medium self.new.flash) self.new.state) }
        ensures state { self.new.state ≡ record self.old.state { moved = self.new.state.moved } }
        ensures keeps { IsTrue F.told → KeepsRecords (F.medium self.old.flash).state.pages
            (F.medium self.new.flash).state.pages (places (F.medium self.old.flash).blocks) }
        ensures does { IsTrue F.told → Does (StandsMoved self.old.state.table from to (F.medium self.old.flash))
            (F.medium self.old.flash) (F.medium self.new.flash) }
        ensures accounts { Accounts F.told F.medium 0 self.old self.new result }
        ensures few { vec_len self.new.state.moved ≤ entries_in self.old.state.table from }
        ensures own { IsTrue F.told → self.new.own ≡ self.old.own }
    {
        for page in 0..BLOCK_PAGES {
            self.copy_one(FlashPage { block: from, page }, to)?;
        }
        Ok(())
    }

    // Copies a record to the next page of another block, if it is the newest of its page.
    fn copy_one(&mut self, from: FlashPage, to: u32) -> Result<(), DiskFailed>
        requires page { from.page < 64 }
        requires count { vec_len self.old.state.moved ≤ from.page }
        requires moving { IsTrue F.told
            → IsMoving (F.medium self.old.flash).state.pages (F.medium self.old.flash).blocks self.old.state from.block
            to from.page }
        ensures moving { IsTrue F.told → OnOk result
            (IsMoving (F.medium self.new.flash).state.pages (F.medium self.new.flash).blocks self.new.state from.block
            to (from.page + 1)) }
        ensures count { vec_len self.new.state.moved ≤ vec_len self.old.state.moved + 1 }
        ensures failed { IsTrue F.told → OnErr result (IsSoundLayer (F.medium self.new.flash) self.new.state) }
        ensures state { self.new.state ≡ record self.old.state { moved = self.new.state.moved } }
        ensures keeps { IsTrue F.told → KeepsRecords (F.medium self.old.flash).state.pages
            (F.medium self.new.flash).state.pages (places (F.medium self.old.flash).blocks) }
        ensures does { IsTrue F.told → Does (StandsMoved self.old.state.table from.block to
            (F.medium self.old.flash)) (F.medium self.old.flash) (F.medium self.new.flash) }
        ensures accounts { Accounts F.told F.medium 0 self.old self.new result }
        ensures few { vec_len self.old.state.moved ≤ copied_below self.old.state.table from.block from.page
            → vec_len self.new.state.moved ≤ copied_below self.old.state.table from.block (from.page + 1) }
        ensures own { IsTrue F.told → self.new.own ≡ self.old.own }
    {
        let mut page = BLANK_PAGE;
        self.read_page(from, &mut page)?;
        let Some((key, old)) = self.newest_in(&page) else {
            return Ok(());
        };
        if old.place != from {
            return Ok(());
        }
        let place = FlashPage {
            block: to,
            page: self.state.moved.len() as u32,
        };
        self.program_page(place, &page)?;
        if self
            .state
            .moved
            .push((key, Newest { place, ..old }))
            .is_err()
        {
            return Err(self.fault());
        }
        Ok(())
    }

    // The page of a file that a page of the flash is a record of, and the newest record of it.
    pub(crate) fn newest_in(&self, page: &[u8]) -> Option<(FilePage, Newest)>
        ensures known { IfSome result (λ found. known self.now.state.table found.0 ≡ Some found.1) }
        ensures found { (r : PageRecord) (newest : Newest) → record_in page.now ≡ Some r
            → known self.now.state.table (page_of r) ≡ Some newest
            → result ≡ Some (page_of r, newest) }
    {
        let record = read_record(page)?;
        let key = FilePage {
            file: record.file,
            page: record.page as u64,
        };
        let newest = self.state.table.find(key)?;
        Some((key, newest))
    }
}

// `true` only where a page is blank.
#[tactic(auto, unfolding(flash_model::specs::Pages::blank_page))]
pub(crate) fn is_blank(page: &[u8]) -> bool
    ensures { IsTrue result → page.now ≡ blank_page }
{
    page == [0xff; 512].as_slice()
}

// The page of flash that is this record.
fn page_with(found: Record<'_>) -> [u8; PAGE_BYTES]
    requires sequence { 1 ≤ found.sequence }
    requires bytes { length found.bytes.now ≡ 256 }
    ensures { record_in result ≡ Some (stated found.entry) }
{
    let mut bytes = [0; RECORD_BYTES];
    bytes.copy_from_slice(found.bytes);
    record_page(found.sequence, found.file, found.page, found.len, &bytes)
}
