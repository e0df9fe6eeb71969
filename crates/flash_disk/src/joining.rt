//! Two blocks of one copy that are joined in one, where another copy would have to go on in a block that is not its
//! own.

ghost use Rattle.std.specs.Prelude.{◌≡◌, ◌≢◌, ◌⊎◌, ◌+◌, ◌≤◌, ◌<◌, ℕ, IsTrue, IsFalse, IfOk, IfSome, OnOk, OnErr};
ghost use Rattle.std.specs.Prelude.{None};
ghost use Rattle.flash_disk.specs.Accounts.{Accounts};
ghost use Rattle.flash_disk.specs.Apart.{copy_of, HasNoRoom};
ghost use Rattle.flash_disk.specs.Does.{Does};
ghost use Rattle.flash_disk.specs.Entries.{SameEntries};
ghost use Rattle.flash_disk.specs.KeepsApart.{KeepsApart};
ghost use Rattle.flash_disk.specs.Known.{load_known};
ghost use Rattle.flash_disk.specs.LedApart.{LeadsOnly, IsPair, HasNoPair};
ghost use Rattle.flash_disk.specs.Newest.{places};
ghost use Rattle.flash_disk.specs.Standing.{DenotesFiles, KeepsRecords};

use crate::layer::Layer;
use crate::table::{FlashPage, MOST_BLOCKS, Newest, Table, mark};
use disk_model::DiskFailed;
use flash_model::{BLANK_PAGE, BLOCK_PAGES, Flash};

impl<F: Flash> Layer<F> {
    ghost use Rattle.flash_disk.specs.Sound.{IsSoundLayer, FitsIn, ShowsSame, LeavesOut};
    ghost use Rattle.flash_disk.specs.Moving.{IsJoining, LeadsFewer, StandsMoved};
    ghost use Rattle.flash_disk.specs.Steps.{IsSure};

    // The block to be given up for the records of a file's copy: one with newest records of that copy alone, or with
    // none. Where there is no such block that leaves a page, two blocks of another copy are joined; where no two can
    // be, it is the spare block.
    pub(crate) fn find_own(&mut self, file: u32) -> Result<u32, DiskFailed>
        requires ready { IsSure F.told F.medium self.old }
        requires full { 64 ≤ self.old.state.fill }
        requires agreed { IsFalse self.old.state.has_rivals }
        ensures ready { IsSure F.told F.medium self.new }
        ensures full { OnOk result (64 ≤ self.new.state.fill) }
        ensures own_block { IfOk result (λ own. own ≢ self.new.state.spare → (own < self.new.state.table.blocks)
            × (load_known self.new.state.table own < 64) × LeadsOnly self.new.state.table (copy_of file) own) }
        ensures none { IsTrue F.told → IfOk result (λ own. own ≡ self.new.state.spare
            → 16 ≤ (F.medium self.new.flash).blocks → HasNoRoom (F.medium self.new.flash).state.pages
            (F.medium self.new.flash).blocks (copy_of file)) }
        ensures fits { IsTrue F.told → (file page len : ℕ) (bytes : _)
            → FitsIn (F.medium self.old.flash) self.old.state file page len bytes
            → FitsIn (F.medium self.new.flash) self.new.state file page len bytes }
        ensures does { IsTrue F.told → Does (DenotesFiles (F.medium self.old.flash))
            (F.medium self.old.flash) (F.medium self.new.flash) }
        ensures shown { IsTrue F.told → OnOk result (ShowsSame (F.medium self.old.flash) (F.medium self.new.flash)) }
        ensures apart { IsTrue F.told → KeepsApart (copy_of file) (F.medium self.old.flash) (F.medium self.new.flash) }
        ensures sequence { self.new.state.sequence ≡ self.old.state.sequence }
        ensures accounts { Accounts F.told F.medium 0 self.old self.new result }
        ensures own { IsTrue F.told → self.new.own ≡ self.old.own }
        ensures entries { IsTrue F.told → OnOk result (SameEntries self.old.state.table self.new.state.table) }
    {
        let own = self
            .streams
            .lightest(&self.state.table, file, self.state.spare);
        if own != self.state.spare {
            return Ok(own);
        }
        let Some((first, second)) = find_pair(&self.state.table, self.state.spare) else {
            return Ok(own);
        };
        self.join(first, second)?;
        let joined = self
            .streams
            .lightest(&self.state.table, file, self.state.spare);
        Ok(joined)
    }

    // Moves the newest records of two blocks of one copy into the spare block. The first is the spare one from then on,
    // and the second has none.
    fn join(&mut self, first: u32, second: u32) -> Result<(), DiskFailed>
        requires ready { IsSure F.told F.medium self.old }
        requires full { 64 ≤ self.old.state.fill }
        requires agreed { IsFalse self.old.state.has_rivals }
        requires pair { IsPair self.old.state.table self.old.state.spare first second }
        ensures ready { IsSure F.told F.medium self.new }
        ensures full { OnOk result (64 ≤ self.new.state.fill) }
        ensures spare { OnOk result (self.new.state.spare ≡ first) }
        ensures out { IsTrue F.told → OnOk result (LeavesOut self.new.state.table second) }
        ensures fits { IsTrue F.told → (file page len : ℕ) (bytes : _)
            → FitsIn (F.medium self.old.flash) self.old.state file page len bytes
            → FitsIn (F.medium self.new.flash) self.new.state file page len bytes }
        ensures does { IsTrue F.told → Does (DenotesFiles (F.medium self.old.flash))
            (F.medium self.old.flash) (F.medium self.new.flash) }
        ensures shown { IsTrue F.told → OnOk result (ShowsSame (F.medium self.old.flash) (F.medium self.new.flash)) }
        ensures apart { IsTrue F.told → (copy : ℕ)
            → KeepsApart copy (F.medium self.old.flash) (F.medium self.new.flash) }
        ensures sequence { self.new.state.sequence ≡ self.old.state.sequence }
        ensures accounts { Accounts F.told F.medium 0 self.old self.new result }
        ensures own { IsTrue F.told → self.new.own ≡ self.old.own }
        ensures entries { IsTrue F.told → OnOk result (SameEntries self.old.state.table self.new.state.table) }
    {
        self.move_block(first)?;
        self.add_needed(second)?;
        self.streams
            .join(first, second, self.state.current, self.state.fill);
        self.state.fill = BLOCK_PAGES;
        Ok(())
    }

    // Copies the newest records of a block to the pages of the current one that are blank, to which the table leads
    // from then on.
    fn add_needed(&mut self, from: u32) -> Result<(), DiskFailed>
        requires joining { IsTrue F.told → IsJoining (F.medium self.old.flash).state.pages
            (F.medium self.old.flash).blocks self.old.state from 0 }
        ensures sound { IsTrue F.told → IsSoundLayer (F.medium self.new.flash) self.new.state }
        ensures out { IsTrue F.told → OnOk result (LeavesOut self.new.state.table from) }
        ensures state { self.new.state ≡ record self.old.state {
          table = self.new.state.table;
          fill = self.new.state.fill;
        } }
        ensures keeps { IsTrue F.told → KeepsRecords (F.medium self.old.flash).state.pages
            (F.medium self.new.flash).state.pages (places (F.medium self.old.flash).blocks) }
        ensures does { IsTrue F.told → Does (StandsMoved self.old.state.table from self.old.state.current
            (F.medium self.old.flash)) (F.medium self.old.flash) (F.medium self.new.flash) }
        ensures entries { IsTrue F.told → SameEntries self.old.state.table self.new.state.table }
        ensures accounts { Accounts F.told F.medium 0 self.old self.new result }
        ensures own { IsTrue F.told → self.new.own ≡ self.old.own }
    {
        for page in 0..BLOCK_PAGES {
            self.add_one(FlashPage { block: from, page })?;
        }
        Ok(())
    }

    // Copies a record to the next page of the current block, if it is the newest of its page; then the table leads to
    // the copy.
    fn add_one(&mut self, from: FlashPage) -> Result<(), DiskFailed>
        requires page { from.page < 64 }
        requires joining { IsTrue F.told → IsJoining (F.medium self.old.flash).state.pages
            (F.medium self.old.flash).blocks self.old.state from.block from.page }
        ensures joining { IsTrue F.told → OnOk result (IsJoining (F.medium self.new.flash).state.pages
            (F.medium self.new.flash).blocks self.new.state from.block (from.page + 1)) }
        ensures failed { IsTrue F.told → OnErr result (IsSoundLayer (F.medium self.new.flash) self.new.state) }
        ensures state { self.new.state ≡ record self.old.state {
          table = self.new.state.table;
          fill = self.new.state.fill;
        } }
        ensures fewer { IsTrue F.told → LeadsFewer self.old.state.table self.new.state.table from.block }
        ensures keeps { IsTrue F.told → KeepsRecords (F.medium self.old.flash).state.pages
            (F.medium self.new.flash).state.pages (places (F.medium self.old.flash).blocks) }
        ensures does { IsTrue F.told → Does (StandsMoved self.old.state.table from.block self.old.state.current
            (F.medium self.old.flash)) (F.medium self.old.flash) (F.medium self.new.flash) }
        ensures entries { IsTrue F.told → SameEntries self.old.state.table self.new.state.table }
        ensures accounts { Accounts F.told F.medium 0 self.old self.new result }
        ensures own { IsTrue F.told → self.new.own ≡ self.old.own }
    {
        let mut page = BLANK_PAGE;
        self.read_page(from, &mut page)?;
        let Some((key, old)) = self.newest_in(&page) else {
            return Ok(());
        };
        if old.place != from {
            return Ok(());
        }
        let place = FlashPage {
            block: self.state.current,
            page: self.state.fill,
        };
        self.state.fill = BLOCK_PAGES;
        self.program_page(place, &page)?;
        self.state.table.put(key, Newest { place, ..old });
        self.state.fill = place.page.saturating_add(1);
        Ok(())
    }
}

// Two blocks other than the spare one that have newest records of one copy alone, and fewer together than a block has
// pages: of all such pairs, the lightest of the copy for which they are fewest. None on a flash of few blocks.
fn find_pair(table: &Table, spare: u32) -> Option<(u32, u32)>
    ensures pair { IfSome result (λ pair. IsPair table.now spare pair.0 pair.1) }
    ensures none { 16 ≤ table.now.blocks → table.now.blocks ≤ 4096 → result ≡ None → (copy : ℕ) → copy < 8
        → HasNoPair table.now spare copy }
{
    let mut best = None;
    if !table.has_many_blocks() {
        return None;
    }
    for copy in 0..8 {
        best = lighter_pair(table, best, pair_of(table, 4 * copy, spare));
    }
    best
}

// The one of two pairs that has fewer newest records.
fn lighter_pair(
    table: &Table,
    one: Option<(u32, u32)>,
    other: Option<(u32, u32)>,
) -> Option<(u32, u32)>
    ensures either { (result ≡ one) ⊎ (result ≡ other) }
    ensures none { result ≡ None → (one ≡ None) × (other ≡ None) }
{
    let Some((a, b)) = one else {
        return other;
    };
    let Some((c, d)) = other else {
        return one;
    };
    if load_of_both(table, c, d) < load_of_both(table, a, b) {
        return other;
    }
    one
}

// How many newest records two blocks have together.
fn load_of_both(table: &Table, first: u32, second: u32) -> u32 {
    table.load_of(first).saturating_add(table.load_of(second))
}

// The two lightest blocks other than the spare one that have newest records of a file's copy alone, if they have fewer
// together than a block has pages.
fn pair_of(table: &Table, file: u32, spare: u32) -> Option<(u32, u32)>
    ensures pair { IfSome result (λ pair. IsPair table.now spare pair.0 pair.1) }
    ensures none { table.now.blocks ≤ 4096 → result ≡ None → HasNoPair table.now spare (copy_of file) }
{
    let mut marked = [0u8; MOST_BLOCKS];
    table.mark_foreign(file, &mut marked);
    let first = table.lightest_own(&marked, spare);
    mark(&mut marked, first);
    let second = table.lightest_own(&marked, spare);
    if first == spare || second == spare {
        return None;
    }
    if table.load_of(first) + table.load_of(second) >= BLOCK_PAGES {
        return None;
    }
    Some((first, second))
}
