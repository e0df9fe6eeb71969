//! Opening a flash as a disk.

ghost use Rattle.std.specs.Prelude.{◌≡◌, ◌⊎◌, ◌↔◌, ◌≤◌, ◌<◌, ◌+◌, ◌*◌, ℕ, IsTrue, IsFalse, IfOk, IfErr, IfSome};
ghost use Rattle.std.specs.Prelude.{MatchResult, OnOk, OnErr, Some, None, length, slice_index, vec_capacity};
ghost use Rattle.flash_record.specs.PageRecord.{record_in};
ghost use Rattle.flash_record.specs.Stated.{stated};
ghost use Rattle.flash_disk.specs.Newest.{record_at, places, page_limit, IsSpare, NeedsPlace, FindsSpare, IsUsable};
ghost use Rattle.flash_disk.specs.Newest.{IsUnusable, SaysUsable};
ghost use Rattle.flash_disk.specs.Known.{known, limit_of, page_len, page_of, IsEmptyTable};
ghost use Rattle.flash_disk.specs.Counted.{IsCountedTable};
ghost use Rattle.flash_disk.specs.Learnt.{number, HasLearnt, LearnsNext, LearnsAll, SaysTheSame, TwinAt, RivalledAt};
ghost use Rattle.flash_disk.specs.Learnt.{IsTop, LeavesBlock};
ghost use Rattle.flash_model.specs.State.{settle_pages};
ghost use Rattle.per_base.specs.Causes.{CountsFaults, Rose};

use crate::disk::{FlashDisk, FlashOpenError, FlashRefused};
use crate::layer::{Layer, LayerState};
use crate::streams::Streams;
use crate::table::{FilePage, FlashPage, Newest, Table};
use disk_model::DiskFailed;
use flash_model::{BLANK_PAGE, BLOCK_PAGES, Flash};
use flash_record::{Record, read_record};
use std::alloc::{AllocError, Global};

impl<F: Flash> FlashDisk<F> {
    ghost use Rattle.flash_disk.specs.FlashDiskMedium.{disk_seen, IsJustOpened};
    ghost use Rattle.flash_disk.specs.Looks.{LeavesFlashAlone, OpensFlash};
    ghost use Rattle.flash_disk.specs.Throughout.{KeepsUsable, KeepsAgreed};
    ghost use Rattle.disk_model.specs.Medium.{Quiet};

    /// Opens a flash as a disk. It reads every page, and takes all the memory that the disk ever needs.
    pub fn open(alloc: Global, flash: F) -> Result<FlashDisk<F>, FlashRefused<F>>
        ensures size { OnOk result ((4 ≤ (F.medium flash).blocks) × ((F.medium flash).blocks ≤ 4096)) }
        ensures wrong_size { IfErr result (λ refused. (refused.error ≡ FlashOpenError.WrongSize)
            ↔ (((F.medium flash).blocks < 4) ⊎ (4096 < (F.medium flash).blocks))) }
        ensures device { IfErr result (λ refused. refused.error ≡ FlashOpenError.Device
            → Rose (F.medium flash).faults (F.medium refused.flash).faults) }

        // No count of faults falls, and where the flash opens it is as before.
        ensures faults { MatchResult result (λ disk. (F.medium disk.flash).faults ≡ (F.medium flash).faults)
            (λ refused. (F.medium flash).faults ≤ (F.medium refused.flash).faults) }

        // A flash that opens is usable; one that is refused as unusable is not, and none of its calls failed.
        ensures usable { IsTrue F.told → OnOk result (IsUsable (F.medium flash).state.pages (F.medium flash).blocks) }
        ensures throughout { IsTrue F.told → IfOk result (λ disk. KeepsUsable (F.medium flash) (F.medium disk.flash)) }
        ensures agreed { IsTrue F.told → IfOk result (λ disk. KeepsAgreed (F.medium flash) (F.medium disk.flash)) }
        ensures unusable { IsTrue F.told → IfErr result (λ refused. refused.error ≡ FlashOpenError.Unusable
            → IsUnusable (F.medium flash).state.pages (F.medium flash).blocks) }
        ensures unfailed { IfErr result (λ refused. refused.error ≡ FlashOpenError.Unusable
            → (F.medium refused.flash).faults ≡ (F.medium flash).faults) }

        // No page changes, nothing counts as a fault of the disk yet, its number is the greatest of a record, and a
        // crash leaves what the flash held, meanwhile and afterwards.
        ensures pages { IsTrue F.told → IfOk result (λ disk. (F.medium disk.flash).state.pages
            ≡ (F.medium flash).state.pages) }
        ensures blocks { IfOk result (λ disk. (F.medium disk.flash).blocks ≡ (F.medium flash).blocks) }
        ensures own { IfOk result (λ disk. (disk.own ≡ 0) × (disk.written ≡ 0)) }
        ensures sequence { IsTrue F.told → IfOk result (λ disk.
            IsTop (F.medium flash).state.pages (places (F.medium flash).blocks) disk.sequence) }
        ensures settled { IsTrue F.told → IfOk result (λ disk. (F.medium disk.flash).state
            ≡ settle_pages (F.medium flash).state) }
        ensures quiet { IfOk result (λ disk. Quiet (disk_seen F.told F.medium disk)) }
        ensures begins { IfOk result (λ disk. IsJustOpened F.told (F.medium flash) (disk_seen F.told F.medium disk)) }
        ensures opens { MatchResult result (λ disk. OpensFlash F.told (F.medium flash) (F.medium disk.flash))
            (λ refused. LeavesFlashAlone F.told (F.medium flash) (F.medium refused.flash)) }
        ensures returned { IsTrue F.told → IfErr result (λ refused. (F.medium refused.flash).state
            ≡ (F.medium flash).state) }
        ensures returned_blocks { IfErr result (λ refused. (F.medium refused.flash).blocks ≡ (F.medium flash).blocks) }
        ensures untouched { IfErr result (λ refused. (refused.error ≡ FlashOpenError.WrongSize)
            ⊎ (refused.error ≡ FlashOpenError.OutOfMemory)
            → refused.flash ≡ flash) }
    {
        let blocks = flash.blocks();
        if blocks < 4 || blocks > 4096 {
            return Err(FlashRefused {
                flash,
                error: FlashOpenError::WrongSize,
            });
        }
        let Ok(state) = empty_state(alloc, blocks) else {
            return Err(FlashRefused {
                flash,
                error: FlashOpenError::OutOfMemory,
            });
        };
        let streams = Streams::new(&state.table);
        let mut layer = Layer {
            flash,
            state,
            streams,
            own: 0,
        };
        match layer.learn(blocks) {
            Ok(true) => Ok(FlashDisk { layer, written: 0 }),
            Ok(false) => Err(FlashRefused {
                flash: layer.flash,
                error: FlashOpenError::Unusable,
            }),
            Err(_) => Err(FlashRefused {
                flash: layer.flash,
                error: FlashOpenError::Device,
            }),
        }
    }
}

// What is known of a flash of that many blocks before it is read, with all the memory that it will ever need.
fn empty_state(alloc: Global, blocks: u32) -> Result<LayerState, AllocError>
    ensures table { IfOk result (λ state. IsEmptyTable state.table × (limit_of state.table ≡ page_limit blocks)) }
    ensures full { IfOk result (λ state. state.fill ≡ 64) }
    ensures sure { IfOk result (λ state. state.unsure ≡ None) }
    ensures sequence { IfOk result (λ state. state.sequence ≡ 0) }
    ensures counted { 4 ≤ blocks → blocks ≤ 4096 → IfOk result (λ state. IsCountedTable blocks state.table) }
    ensures moved { IfOk result (λ state. 64 ≤ vec_capacity state.moved) }
{
    Ok(LayerState {
        table: Table::new(alloc, blocks)?,
        current: 0,
        fill: BLOCK_PAGES,
        spare: 0,
        cleared: false,
        sequence: 0,
        unsure: None,
        moved: Vec::with_capacity(alloc, BLOCK_PAGES as usize)?,
        has_rivals: false,
        stray_end: 0,
    })
}

impl<F: Flash> Layer<F> {
    ghost use Rattle.flash_disk.specs.Sound.{Sound};
    ghost use Rattle.flash_disk.specs.Looks.{LeavesFlashAlone, OpensFlash};
    ghost use Rattle.flash_disk.specs.Steps.{LearnsNothing, IsOpeningStep};

    // Learns what the flash holds, and says whether it is usable.
    fn learn(&mut self, blocks: u32) -> Result<bool, DiskFailed>
        requires blocks { blocks ≡ (F.medium self.old.flash).blocks }
        requires empty { IsEmptyTable self.old.state.table }
        requires limit { limit_of self.old.state.table ≡ page_limit blocks }
        requires full { self.old.state.fill ≡ 64 }
        requires sure { self.old.state.unsure ≡ None }
        requires counted { IsCountedTable blocks self.old.state.table }
        requires moved { 64 ≤ vec_capacity self.old.state.moved }
        requires sequence { self.old.state.sequence ≡ 0 }
        ensures flash { CountsFaults (F.medium self.old.flash).faults (F.medium self.new.flash).faults result }
        ensures pages { IsTrue F.told → (F.medium self.new.flash).state.pages ≡ (F.medium self.old.flash).state.pages }
        ensures blocks { (F.medium self.new.flash).blocks ≡ (F.medium self.old.flash).blocks }
        ensures opens { OpensFlash F.told (F.medium self.old.flash) (F.medium self.new.flash) }
        ensures usable { IsTrue F.told → IfOk result (SaysUsable (F.medium self.old.flash).state.pages blocks) }
        ensures sound { IsTrue F.told → IfOk result (λ usable. IsTrue usable
            → Sound (F.medium self.old.flash).state.pages blocks self.new.state) }
        ensures top { IsTrue F.told → IfOk result (λ usable. IsTrue usable
            → IsTop (F.medium self.old.flash).state.pages (places blocks) self.new.state.sequence) }
        ensures sure { IfOk result (λ usable. IsTrue usable → self.new.state.unsure ≡ None) }
        ensures settled { IsTrue F.told → IfOk result (λ usable. IsTrue usable
            → (F.medium self.new.flash).state ≡ settle_pages (F.medium self.old.flash).state) }
        ensures unusable { IfOk result (λ usable. IsFalse usable
            → LeavesFlashAlone F.told (F.medium self.old.flash) (F.medium self.new.flash)) }
        ensures failed { OnErr result (LeavesFlashAlone F.told (F.medium self.old.flash) (F.medium self.new.flash)) }
        ensures own { self.new.own ≡ self.old.own }
    {
        if !self.learn_blocks(blocks)? {
            return Ok(false);
        }
        if !self.find_spare(blocks)? {
            return Ok(false);
        }
        self.leave_spare()?;
        self.state.table.measure();
        self.state.stray_end = self.state.table.stray_end();
        self.state.has_rivals = self.state.table.has_rivals();
        self.state.cleared = false;
        self.streams.leave_mixed(&self.state.table);
        match self.flash.settle() {
            Ok(()) => Ok(true),
            Err(_) => Err(DiskFailed),
        }
    }

    // Learns what all blocks hold; `false` where there is no room for it.
    fn learn_blocks(&mut self, blocks: u32) -> Result<bool, DiskFailed>
        requires blocks { blocks ≡ (F.medium self.old.flash).blocks }
        requires empty { IsEmptyTable self.old.state.table }
        ensures step { IsOpeningStep F.told F.medium self.old self.new result }
        ensures learns { IsTrue F.told
            → IfOk result (LearnsAll (F.medium self.old.flash).state.pages (places blocks)
            (limit_of self.old.state.table) self.new.state.table) }
        ensures tops { IsTrue F.told → IsTop (F.medium self.old.flash).state.pages 0 self.old.state.sequence
            → IfOk result (λ fits. IsTrue fits → IsTop (F.medium self.old.flash).state.pages (places blocks)
            self.new.state.sequence) }
    {
        for block in 0..blocks {
            if !self.learn_block(block)? {
                return Ok(false);
            }
        }
        Ok(true)
    }

    // Learns what one block holds; `false` where there is no room for it.
    fn learn_block(&mut self, block: u32) -> Result<bool, DiskFailed>
        requires { block < (F.medium self.old.flash).blocks }
        ensures step { IsOpeningStep F.told F.medium self.old self.new result }
        ensures learns { IsTrue F.told → HasLearnt (F.medium self.old.flash).state.pages (64 * block)
            self.old.state.table
            → IfOk result (LearnsAll (F.medium self.old.flash).state.pages (64 * block + 64)
            (limit_of self.old.state.table) self.new.state.table) }
        ensures tops { IsTrue F.told → IsTop (F.medium self.old.flash).state.pages (64 * block) self.old.state.sequence
            → IfOk result (λ fits. IsTrue fits → IsTop (F.medium self.old.flash).state.pages (64 * block + 64)
            self.new.state.sequence) }
    {
        for page in 0..BLOCK_PAGES {
            if !self.learn_page(FlashPage { block, page })? {
                return Ok(false);
            }
        }
        Ok(true)
    }

    // Finds a block that is spare; `false` where there is none.
    fn find_spare(&mut self, blocks: u32) -> Result<bool, DiskFailed>
        requires blocks { blocks ≡ (F.medium self.old.flash).blocks }
        ensures step { IsOpeningStep F.told F.medium self.old self.new result }
        ensures sequence { self.new.state.sequence ≡ self.old.state.sequence }
        ensures table { self.new.state.table ≡ self.old.state.table }
        ensures spare { IsTrue F.told → HasLearnt (F.medium self.old.flash).state.pages (places blocks)
            self.old.state.table
            → IfOk result (FindsSpare (F.medium self.old.flash).state.pages blocks self.new.state.spare) }
    {
        for block in 0..blocks {
            if self.is_spare(block)? {
                self.state.spare = block;
                return Ok(true);
            }
        }
        Ok(false)
    }

    // Leads from the newest records in the spare block to the equal ones in other blocks.
    fn leave_spare(&mut self) -> Result<(), DiskFailed>
        ensures step { IsOpeningStep F.told F.medium self.old self.new result }
        ensures sequence { self.new.state.sequence ≡ self.old.state.sequence }
        ensures spare { self.new.state.spare ≡ self.old.state.spare }
        ensures len { page_len self.new.state.table ≡ page_len self.old.state.table }
        ensures left { IsTrue F.told → self.old.state.spare < (F.medium self.old.flash).blocks
            → OnOk result (LeavesBlock (F.medium self.old.flash).state.pages (places (F.medium self.old.flash).blocks)
            self.old.state.spare
            0 64 self.old.state.table self.new.state.table) }
    {
        let spare = self.state.spare;
        for page in 0..BLOCK_PAGES {
            self.leave_page(FlashPage { block: spare, page })?;
        }
        Ok(())
    }

    // Leads from the record in a page, if it is a newest one, to the equal one in another block.
    fn leave_page(&mut self, place: FlashPage) -> Result<(), DiskFailed>
        ensures step { IsOpeningStep F.told F.medium self.old self.new result }
        ensures sequence { self.new.state.sequence ≡ self.old.state.sequence }
        ensures spare { self.new.state.spare ≡ self.old.state.spare }
        ensures len { page_len self.new.state.table ≡ page_len self.old.state.table }
        ensures left { IsTrue F.told → place.block < (F.medium self.old.flash).blocks → place.page < 64
            → OnOk result (LeavesBlock (F.medium self.old.flash).state.pages (places (F.medium self.old.flash).blocks)
            place.block
            place.page (place.page + 1) self.old.state.table self.new.state.table) }
    {
        let mut page = BLANK_PAGE;
        self.read_page(place, &mut page)?;
        let Some((key, old)) = self.newest_in(&page) else {
            return Ok(());
        };
        if old.place != place {
            return Ok(());
        }
        let Some(twin) = old.twin else {
            return Ok(());
        };
        let new = Newest { place: twin, ..old };
        self.state.table.put(key, new);
        Ok(())
    }

    // Whether a block has no record that is needed.
    fn is_spare(&mut self, block: u32) -> Result<bool, DiskFailed>
        requires { block < (F.medium self.old.flash).blocks }
        ensures reads { LearnsNothing F.told F.medium self.old self.new result }
        ensures spare { IsTrue F.told
            → HasLearnt (F.medium self.old.flash).state.pages (places (F.medium self.old.flash).blocks)
            self.old.state.table
            → IfOk result (λ spare. IsTrue spare
            ↔ IsSpare (F.medium self.old.flash).state.pages (places (F.medium self.old.flash).blocks) block) }
    {
        for page in 0..BLOCK_PAGES {
            if self.is_needed(FlashPage { block, page })? {
                return Ok(false);
            }
        }
        Ok(true)
    }

    // Whether a page holds a record that is needed.
    fn is_needed(&mut self, place: FlashPage) -> Result<bool, DiskFailed>
        requires block { place.block < (F.medium self.old.flash).blocks }
        requires page { place.page < 64 }
        ensures reads { LearnsNothing F.told F.medium self.old self.new result }
        ensures needed { IsTrue F.told
            → HasLearnt (F.medium self.old.flash).state.pages (places (F.medium self.old.flash).blocks)
            self.old.state.table
            → IfOk result (λ needed. IsTrue needed
            ↔ NeedsPlace (F.medium self.old.flash).state.pages (places (F.medium self.old.flash).blocks)
            (number place)) }
    {
        let mut page = BLANK_PAGE;
        self.read_page(place, &mut page)?;
        let Some(record) = read_record(&page) else {
            return Ok(false);
        };
        let key = FilePage {
            file: record.file,
            page: record.page as u64,
        };
        let Some(newest) = self.state.table.find(key) else {
            return Ok(false);
        };
        if newest.twin.is_some() {
            return Ok(false);
        }
        Ok(newest.place.block == place.block && newest.place.page == place.page)
    }

    // Learns what one page holds; `false` where there is no room for it.
    fn learn_page(&mut self, place: FlashPage) -> Result<bool, DiskFailed>
        requires block { place.block < (F.medium self.old.flash).blocks }
        requires page { place.page < 64 }
        ensures step { IsOpeningStep F.told F.medium self.old self.new result }
        ensures learns { IsTrue F.told → HasLearnt (F.medium self.old.flash).state.pages (number place)
            self.old.state.table
            → IfOk result (LearnsNext (F.medium self.old.flash).state.pages (number place + 1) self.old.state.table
            self.new.state.table) }
        ensures tops { IsTrue F.told → IsTop (F.medium self.old.flash).state.pages (number place)
            self.old.state.sequence
            → OnOk result (IsTop (F.medium self.old.flash).state.pages (number place + 1) self.new.state.sequence) }
    {
        let mut page = BLANK_PAGE;
        self.read_page(place, &mut page)?;
        let Some(record) = read_record(&page) else {
            return Ok(true);
        };
        self.state.sequence = self.state.sequence.max(record.sequence);
        let key = FilePage {
            file: record.file,
            page: record.page as u64,
        };
        self.streams.learn(key, record.sequence, place);
        self.learn_record(place, record)
    }

    // Learns of a record that was found in this place; `false` where there is no room for it.
    fn learn_record(&mut self, place: FlashPage, found: Record<'_>) -> Result<bool, DiskFailed>
        requires block { place.block < (F.medium self.old.flash).blocks }
        requires page { place.page < 64 }
        requires long { length found.bytes.now ≡ 256 }
        ensures step { IsOpeningStep F.told F.medium self.old self.new result }
        ensures sequence { self.new.state.sequence ≡ self.old.state.sequence }
        ensures learns { IsTrue F.told → HasLearnt (F.medium self.old.flash).state.pages (number place)
            self.old.state.table
            → record_at (F.medium self.old.flash).state.pages (number place) ≡ Some (stated found.entry)
            → IfOk result (LearnsNext (F.medium self.old.flash).state.pages (number place + 1) self.old.state.table
            self.new.state.table) }
    {
        let key = FilePage {
            file: found.file,
            page: found.page as u64,
        };
        let Some(old) = self.state.table.find(key) else {
            return Ok(self.state.table.put(key, newest_at(place, found)));
        };
        if old.sequence < found.sequence {
            return Ok(self.state.table.put(key, newest_at(place, found)));
        }
        if old.sequence > found.sequence {
            return Ok(true);
        }
        self.learn_equal(key, old, place, found)
    }

    // Learns of a record with the number of an earlier one, which stays the newest.
    fn learn_equal(
        &mut self,
        key: FilePage,
        old: Newest,
        place: FlashPage,
        found: Record<'_>,
    ) -> Result<bool, DiskFailed>
        requires block { place.block < (F.medium self.old.flash).blocks }
        requires page { place.page < 64 }
        requires key { key ≡ page_of (stated found) }
        requires old { known self.old.state.table key ≡ Some old }
        requires sequence { old.sequence ≡ found.sequence }
        ensures step { IsOpeningStep F.told F.medium self.old self.new result }
        ensures sequence { self.new.state.sequence ≡ self.old.state.sequence }
        ensures learns { IsTrue F.told → HasLearnt (F.medium self.old.flash).state.pages (number place)
            self.old.state.table
            → record_at (F.medium self.old.flash).state.pages (number place) ≡ Some (stated found.entry)
            → IfOk result (LearnsNext (F.medium self.old.flash).state.pages (number place + 1) self.old.state.table
            self.new.state.table) }
    {
        let mut page = BLANK_PAGE;
        self.read_page(old.place, &mut page)?;
        let new = Newest {
            twin: twin_at(&page, found, old, place),
            rivalled: is_rivalled(&page, found, old),
            ..old
        };
        Ok(self.state.table.put(key, new))
    }
}

// The entry of a record that was found in this place.
pub(crate) fn newest_at(place: FlashPage, found: Record<'_>) -> Newest
    ensures place { result.place ≡ place }
    ensures sequence { result.sequence ≡ found.entry.sequence }
    ensures len { result.len ≡ found.entry.len }
    ensures twin { result.twin ≡ None }
    ensures no_rivals { IsFalse result.rivalled }
    ensures page { found.entry.page < 4294967296 }
    ensures filled { length found.entry.bytes.now ≡ 256 → (j : ℕ) → result.filled ≤ j
        → slice_index found.entry.bytes.now j ≡ 0 }
{
    Newest {
        place,
        sequence: found.sequence,
        len: found.len,
        twin: None,
        rivalled: false,
        filled: filled_of(found.bytes),
    }
}

// How many bytes are left without the zeros at their end.
fn filled_of(bytes: &[u8]) -> u32
    ensures { length bytes.now ≡ 256 → (j : ℕ) → result ≤ j → slice_index bytes.now j ≡ 0 }
{
    let mut filled = 0;
    for (i, byte) in bytes.iter().enumerate() {
        if *byte != 0 {
            filled = i.saturating_add(1);
        }
    }
    filled.min(256) as u32
}

// Where the twin of a newest record is, after another with its number was found in this place.
fn twin_at(page: &[u8], found: Record<'_>, old: Newest, place: FlashPage) -> Option<FlashPage>
    ensures at { TwinAt (record_in page.now) (stated found.entry) old place result }
    ensures one { (result ≡ old.twin) ⊎ (result ≡ Some place) }
{
    if place.block == old.place.block || !says_the_same(page, found) {
        return old.twin;
    }
    Some(place)
}

// Whether a newest record is rivalled, after another with its number was found.
fn is_rivalled(page: &[u8], found: Record<'_>, old: Newest) -> bool
    ensures { RivalledAt (record_in page.now) (stated found.entry) old result }
{
    old.rivalled || !says_the_same(page, found)
}

// Whether a page is a record with the length and the bytes of another.
fn says_the_same(page: &[u8], found: Record<'_>) -> bool
    ensures record { IsTrue result → IfSome (record_in page.now) (λ first. SaysTheSame first (stated found.entry)) }
    ensures another { IsFalse result → IfSome (record_in page.now)
        (λ first. SaysTheSame first (stated found.entry) → ⊥) }
    ensures none { record_in page.now ≡ None → IsFalse result }
{
    let Some(first) = read_record(page) else {
        return false;
    };
    first.len == found.len && first.bytes == found.bytes
}
