//! Where the newest record of each page of a file is, and how long each file is.

ghost use Rattle.std.specs.Prelude.{◌≡◌, ◌≢◌, ◌⊎◌, ◌↔◌, ◌≤◌, ◌<◌, ◌+◌, ◌-◌, ◌*◌, ◌==◌, ℕ, IfOk, IsSome, IsTrue};
ghost use Rattle.std.specs.Prelude.{IsFalse, Some, None, All, length, max, slice_index, if◌then◌else◌};
ghost use Rattle.std.specs.HashMap.{get, hash_map_len, spare};
ghost use Rattle.flash_disk.specs.Known.{same_page, len_in, HasLenIn, IsLongest, IsFilledUpTo};
ghost use Rattle.flash_disk.specs.Apart.{copy_of};
ghost use Rattle.flash_disk.specs.LedApart.{LeadsOnly, LeadsSome, HasOneEach, IsUnmarked};
ghost use Rattle.flash_disk.specs.Counted.{leads_into, had_in, entries_in, IsInside, IsCountedTable};

use flash_model::BLOCK_PAGES;
use std::alloc::{AllocError, Global};
use std::collections::HashMap;

/// The least number of blocks of a flash on which copies are kept apart.
const LEAST_BLOCKS: u32 = 16;

/// The greatest number of blocks of a flash.
pub const MOST_BLOCKS: usize = 4096;

/// A page of a file. Records are only of pages below 2^32.
#[derive(Clone, Copy, Debug, PartialEq, Eq, Hash)]
pub struct FilePage {
    pub file: u32,
    pub page: u64,
}

/// A page of the flash.
#[derive(Clone, Copy, Debug, PartialEq, Eq)]
pub struct FlashPage {
    pub block: u32,
    pub page: u32,
}

/// The newest record of a page of a file.
#[derive(Clone, Copy, Debug)]
pub struct Newest {
    pub place: FlashPage,
    pub sequence: u64,
    /// How long the record says that the file is.
    pub len: u64,
    /// Where another block has an equal record.
    pub twin: Option<FlashPage>,
    /// Whether another record of the page has its number and says something else.
    pub rivalled: bool,
    /// How many of its bytes are left without the zeros at their end.
    pub filled: u32,
}

/// The newest records of all pages: of each page that has one, an entry that leads to where it is on the flash.
#[derive(Drop)]
pub struct Table {
    newest: HashMap<FilePage, Newest>,
    lens: HashMap<u32, u64>,
    /// How many entries lead into each block.
    load: Vec<u32>,
    blocks: u32,
    /// At most how many pages may have a record.
    limit: usize,
}

impl Table {
    ghost use Rattle.flash_disk.specs.Known.{known, page_len, limit_of, len_known, HasLen, load_known, SetsEntry};
    ghost use Rattle.flash_disk.specs.Known.{PutsAll};
    ghost use Rattle.flash_disk.specs.Known.{SameRecords, SameBounds, Lengthens, SameLens, IsEmptyTable, HasCapacity};

    /// An empty table for a flash of that many blocks, with room for as many pages as all blocks but two have.
    pub fn new(alloc: Global, blocks: u32) -> Result<Table, AllocError>
        ensures empty { IfOk result IsEmptyTable }
        ensures limit { IfOk result (λ table. limit_of table ≡ 64 * (blocks - 2)) }
        ensures counted { 4 ≤ blocks → blocks ≤ 4096 → IfOk result (IsCountedTable blocks) }
    {
        let limit = 64 * (blocks.saturating_sub(2) as usize);
        Ok(Table {
            newest: HashMap::with_capacity(alloc, limit)?,
            lens: HashMap::with_capacity(alloc, limit)?,
            load: vec![in alloc; 0; blocks as usize]?,
            blocks,
            limit,
        })
    }

    /// The newest record of a page.
    pub fn find(&self, key: FilePage) -> Option<Newest>
        ensures { result ≡ known self.now key }
    {
        self.newest.get(&key).copied()
    }

    /// How long a file is.
    pub fn len_of(&self, file: u32) -> u64
        ensures { result ≡ len_known self.now file }
    {
        self.lens.get(&file).copied().unwrap_or(0)
    }

    /// How many pages more may have a record.
    pub fn room(&self) -> usize
        ensures { result ≡ limit_of self.now - page_len self.now }
    {
        self.limit.saturating_sub(self.newest.len())
    }

    /// How many pages it takes to move the newest records of a block.
    pub fn load_of(&self, block: u32) -> u32
        ensures { result ≡ load_known self.now block }
    {
        self.load.get(block as usize).copied().unwrap_or(0)
    }

    /// Sets the newest record of a page. Gives `false`, and changes nothing, where there is no room for it.
    pub fn put(&mut self, key: FilePage, new: Newest) -> bool
        ensures full { HasCapacity self.old → (IsFalse result ↔
            ((known self.old key ≡ None) × (limit_of self.old ≤ page_len self.old))) }
        ensures put { IsTrue result → SetsEntry self.old self.new key new }
        ensures same { IsFalse result → SameRecords self.old self.new }
        ensures bounds { SameBounds self.old self.new }
        ensures counted { (blocks : ℕ) → IsCountedTable blocks self.old → IsInside blocks new
            → IsCountedTable blocks self.new }
        ensures counts { IsTrue result → (block : ℕ)
            → entries_in self.new block + had_in block (known self.old key)
            ≡ entries_in self.old block + leads_into block new }
        ensures no_more { (block : ℕ) → new.place.block ≢ block
            → entries_in self.new block ≤ entries_in self.old block }
    {
        let old = self.find(key);
        if !self.store(key, new) {
            return false;
        }
        if let Some(old) = old {
            self.count_less(old);
        }
        self.count_more(new);
        true
    }

    // Sets the newest record of a page, and counts nothing.
    fn store(&mut self, key: FilePage, new: Newest) -> bool
        ensures full { HasCapacity self.old → (IsFalse result ↔
            ((known self.old key ≡ None) × (limit_of self.old ≤ page_len self.old))) }
        ensures put { IsTrue result → SetsEntry self.old self.new key new }
        ensures same { IsFalse result → SameRecords self.old self.new }
        ensures bounds { SameBounds self.old self.new }
        ensures counts { IsTrue result → (block : ℕ)
            → entries_in self.new block + had_in block (known self.old key)
            ≡ entries_in self.old block + leads_into block new }
        ensures entries { IsFalse result → (block : ℕ) → entries_in self.new block ≡ entries_in self.old block }
        ensures load { self.new.load ≡ self.old.load }
    {
        if self.newest.contains_key(&key) {
            self.replace(key, new);
            return true;
        }
        self.room() > 0 && self.newest.insert(key, new).is_ok()
    }

    // Sets the newest record of a page that has one.
    fn replace(&mut self, key: FilePage, new: Newest)
        requires { IsSome (known self.old key) }
        ensures put { SetsEntry self.old self.new key new }
        ensures bounds { SameBounds self.old self.new }
        ensures counts { (block : ℕ)
            → entries_in self.new block + had_in block (known self.old key)
            ≡ entries_in self.old block + leads_into block new }
        ensures load { self.new.load ≡ self.old.load }
    {
        if let Some(slot) = self.newest.get_mut(&key) {
            *slot = new;
        }
    }

    /// Sets the newest records of pages that all have one already; of two for the same page the later stays.
    pub fn put_all(&mut self, news: &[(FilePage, Newest)])
        ensures put { All (λ new. IsSome (known self.old new.0)) news.now → HasCapacity self.old
            → PutsAll self.old self.new news.now }
        ensures len { All (λ new. IsSome (known self.old new.0)) news.now → HasCapacity self.old
            → page_len self.new ≡ page_len self.old }
        ensures room { All (λ new. IsSome (known self.old new.0)) news.now → HasCapacity self.old
            → HasCapacity self.new }
        ensures stays { All (λ new. IsSome (known self.old new.0)) news.now → HasCapacity self.old
            → (key : FilePage) → IsSome (known self.old key) → IsSome (known self.new key) }
        ensures bounds { SameBounds self.old self.new }
        ensures counted { (blocks : ℕ) → All (λ new. IsInside blocks new.1) news.now → IsCountedTable blocks self.old
            → IsCountedTable blocks self.new }
        ensures no_more { (block : ℕ) → All (λ new. new.1.place.block ≢ block) news.now
            → entries_in self.new block ≤ entries_in self.old block }
    {
        for new in news {
            self.put(new.0, new.1);
        }
    }

    /// Makes a file at least `len` bytes long. Gives `false`, and changes nothing, where there is no room for it; only
    /// a file that has no length yet takes room.
    pub fn lengthen(&mut self, file: u32, len: u64) -> bool
        ensures lengthened { IsTrue result → Lengthens self.old self.new file len }
        ensures has { IsTrue result → (f : ℕ) → HasLen self.old f ⊎ (f ≡ file) → HasLen self.new f }
        ensures same { IsFalse result → SameLens self.old self.new }
        ensures succeeds { (0 < spare self.old.lens) ⊎ HasLen self.old file → IsTrue result }
        ensures spare { spare self.old.lens ≤ spare self.new.lens + 1 }
        ensures in_place { HasLen self.old file → spare self.old.lens ≤ spare self.new.lens }
        ensures records { self.new.newest ≡ self.old.newest }
        ensures limit { limit_of self.new ≡ limit_of self.old }
        ensures counted { (blocks : ℕ) → IsCountedTable blocks self.old → IsCountedTable blocks self.new }
    {
        raise(&mut self.lens, file, len)
    }

    /// The block whose newest records are moved next: `own`, if it is not `but` and they leave a page of a block free,
    /// and else the block other than `but` with the fewest pages to move.
    pub fn given_up(&self, own: u32, but: u32) -> u32
        ensures within { result ≢ but → result < self.now.blocks }
        ensures light { (block : ℕ) → block < self.now.blocks → block ≢ but → (result ≢ but)
            × ((load_known self.now result < 64) ⊎ (load_known self.now result ≤ load_known self.now block)) }
        ensures own { own ≢ but → own < self.now.blocks → load_known self.now own < 64 → result ≡ own }
    {
        if own != but && own < self.blocks && self.load_of(own) < 64 {
            return own;
        }
        self.lightest_but(but)
    }

    /// Whether the flash has enough blocks for each copy to be written in blocks of its own.
    pub fn has_many_blocks(&self) -> bool
        ensures { IsTrue result ↔ (16 ≤ self.now.blocks) }
    {
        self.blocks >= LEAST_BLOCKS
    }

    /// `true` only where the page is of `file`'s copy, its newest record in this block: then the block has one of that.
    pub fn has_in(&self, key: FilePage, file: u32, block: u32) -> bool
        ensures { IsTrue result → LeadsSome self.now (copy_of file) block }
    {
        match self.find(key) {
            Some(newest) => newest.place.block == block && key.file / 4 % 8 == file / 4 % 8,
            None => false,
        }
    }

    /// Marks in `foreign`, which has a byte for each block, the blocks with the newest record of a page of another copy
    /// than that of `file`.
    pub fn mark_foreign(&self, file: u32, foreign: &mut [u8])
        ensures len { length foreign.new ≡ length foreign.old }
        ensures unique { HasOneEach self.now }
        ensures own { (block : ℕ) → IsUnmarked foreign.new block → LeadsOnly self.now (copy_of file) block }
        ensures foreign { (block : ℕ) → LeadsOnly self.now (copy_of file) block → IsUnmarked foreign.old block
            → IsUnmarked foreign.new block }
    {
        for (key, newest) in self.newest.iter() {
            if key.file / 4 % 8 != file / 4 % 8 {
                mark(foreign, newest.place.block);
            }
        }
    }

    /// The block other than this one that is not marked and whose newest records take the fewest pages to move; this
    /// one where none leaves a page.
    pub fn lightest_own(&self, foreign: &[u8], but: u32) -> u32
        ensures own { result ≢ but → (result < self.now.blocks) × IsUnmarked foreign.now result
            × (load_known self.now result < 64) }
        ensures lightest { (block : ℕ) → block < self.now.blocks → block ≢ but → IsUnmarked foreign.now block
            → (64 ≤ load_known self.now block)
            ⊎ ((result ≢ but) × (load_known self.now result ≤ load_known self.now block)) }
    {
        let mut best = but;
        for block in 0..self.blocks {
            if self.is_better(foreign, block, best, but) {
                best = block;
            }
        }
        best
    }

    // Whether a block that is not marked leaves a page, and is better than the best other than `but` so far or the
    // first.
    fn is_better(&self, foreign: &[u8], block: u32, best: u32, but: u32) -> bool
        ensures good { IsTrue result → (block ≢ but) × IsUnmarked foreign.now block × (load_known self.now block < 64)
            × (best ≢ but → load_known self.now block ≤ load_known self.now best) }
        ensures worse { IsFalse result → block ≢ but → IsUnmarked foreign.now block → (64 ≤ load_known self.now block)
            ⊎ ((best ≢ but) × (load_known self.now best ≤ load_known self.now block)) }
    {
        let load = self.load_of(block);
        if block == but || load >= 64 || !is_free(foreign, block) {
            return false;
        }
        best == but || load < self.load_of(best)
    }

    /// `true` only where a block leaves fewer than 8 of its 64 pages, and less than a quarter of those which the
    /// lightest but the spare one would.
    pub fn leaves_little(&self, block: u32, spare: u32) -> bool
        ensures { IsTrue result → 57 ≤ load_known self.now block }
    {
        let leaves = BLOCK_PAGES.saturating_sub(self.load_of(block));
        let most = BLOCK_PAGES.saturating_sub(self.load_of(self.lightest_but(spare)));
        leaves < 8 && 4 * leaves < most
    }

    /// Says of each block of which copy the newest records in it are: `none` where there is none, and `several` where
    /// they are of several.
    pub fn find_owners(&self, owners: &mut [u8], none: u8, several: u8) {
        for (key, newest) in self.newest.iter() {
            let copy = (key.file / 4 % 8) as u8;
            if let Some(owner) = owners.get_mut(newest.place.block as usize) {
                *owner = if *owner == none || *owner == copy {
                    copy
                } else {
                    several
                };
            }
        }
    }

    /// The block other than this one whose newest records take the fewest pages to move; this one where there is no
    /// other.
    pub fn lightest_but(&self, but: u32) -> u32
        ensures within { result ≢ but → result < self.now.blocks }
        ensures lightest { (block : ℕ) → block < self.now.blocks → block ≢ but
            → (result ≢ but) × (load_known self.now result ≤ load_known self.now block) }
    {
        let mut best = but;
        for block in 0..self.blocks {
            if self.is_lighter(block, best, but) {
                best = block;
            }
        }
        best
    }

    // Whether a block is better than the best other than `but` so far, or the first.
    fn is_lighter(&self, block: u32, best: u32, but: u32) -> bool
        ensures { IsTrue result ↔ ((block ≢ but) × ((best ≡ but)
            ⊎ (load_known self.now block < load_known self.now best))) }
    {
        block != but && (best == but || self.load_of(block) < self.load_of(best))
    }

    /// Takes the files' lengths from the newest records, where there is room for them and none is known yet.
    pub fn measure(&mut self)
        ensures lens { page_len self.old ≤ spare self.old.lens → ((file : ℕ) → len_known self.old file ≡ 0)
            → (file : ℕ) → IsLongest self.old.newest file (len_known self.new file) }
        ensures measured { page_len self.old ≤ spare self.old.lens
            → (key : FilePage) (entry : Newest) → known self.old key ≡ Some entry → HasLen self.new key.file }
        ensures spare { spare self.old.lens ≤ spare self.new.lens + page_len self.old }
        ensures records { self.new.newest ≡ self.old.newest }
        ensures limit { limit_of self.new ≡ limit_of self.old }
        ensures counted { (blocks : ℕ) → IsCountedTable blocks self.old → IsCountedTable blocks self.new }
    {
        raise_all(&mut self.lens, &self.newest);
    }

    /// Whether two records of a page have its greatest number and differ.
    pub fn has_rivals(&self) -> bool
        ensures no_rivals { IsFalse result → (key : FilePage) (entry : Newest) → known self.now key ≡ Some entry
            → IsFalse entry.rivalled }
        ensures rivals { IsTrue result → (key : FilePage) × (entry : Newest) × (known self.now key ≡ Some entry)
            × IsTrue entry.rivalled }
    {
        self.newest.values().any(|newest| newest.rivalled)
    }

    /// `true` only where each newest record is in a block that `copies` says is of its file's copy.
    pub fn is_apart(&self, copies: &[u8]) -> bool
        ensures { IsTrue result → (key : FilePage) (entry : Newest) → known self.now key ≡ Some entry
            → slice_index copies.now entry.place.block ≡ copy_of key.file }
    {
        for (key, newest) in self.newest.iter() {
            if !is_of(copies, newest.place.block, key.file) {
                return false;
            }
        }
        true
    }

    /// Where the last byte other than zero ends that is past the end of its file; 0 where there is none.
    pub fn stray_end(&self) -> u64
        ensures { (key : FilePage) (entry : Newest) → known self.now key ≡ Some entry
            → IsFilledUpTo self.now.lens key entry result }
    {
        let mut stray = 0;
        for (key, newest) in self.newest.iter() {
            let end = end_of_bytes(*key, *newest);
            if end > self.len_of(key.file) {
                stray = end.max(stray);
            }
        }
        stray
    }

    fn count_more(&mut self, newest: Newest)
        ensures records { SameRecords self.old self.new }
        ensures bounds { SameBounds self.old self.new }
        ensures newest { self.new.newest ≡ self.old.newest }
        ensures loads { length self.new.load.items ≡ length self.old.load.items }
        ensures counts { load_known self.old newest.place.block < 4294967295
            → newest.place.block < length self.old.load.items
            → (block : ℕ) → load_known self.new block ≡ load_known self.old block + leads_into block newest }
    {
        if let Some(load) = self.load.get_mut(newest.place.block as usize) {
            *load = load.saturating_add(1);
        }
    }

    fn count_less(&mut self, newest: Newest)
        ensures records { SameRecords self.old self.new }
        ensures bounds { SameBounds self.old self.new }
        ensures newest { self.new.newest ≡ self.old.newest }
        ensures loads { length self.new.load.items ≡ length self.old.load.items }
        ensures counts { newest.place.block < length self.old.load.items
            → (block : ℕ) → load_known self.new block ≡ load_known self.old block - leads_into block newest }
    {
        if let Some(load) = self.load.get_mut(newest.place.block as usize) {
            *load = load.saturating_sub(1);
        }
    }
}

// Takes the lengths of the files from the newest records.
fn raise_all(lens: &mut HashMap<u32, u64>, newest: &HashMap<FilePage, Newest>)
    ensures longest { hash_map_len newest.now ≤ spare lens.old → ((file : ℕ) → len_in lens.old file ≡ 0)
        → (file : ℕ) → IsLongest newest.now file (len_in lens.new file) }
    ensures has { hash_map_len newest.now ≤ spare lens.old
        → (key : FilePage) (entry : Newest) → get same_page newest.now key ≡ Some entry → HasLenIn lens.new key.file }
    ensures spare { spare lens.old ≤ spare lens.new + hash_map_len newest.now }
{
    for (key, entry) in newest.iter() {
        raise(lens, key.file, entry.len);
    }
}

// Makes a file at least so long; `false`, and no change, where there is no room for it.
fn raise(lens: &mut HashMap<u32, u64>, file: u32, len: u64) -> bool
    ensures raised { IsTrue result → (f : ℕ) → len_in lens.new f
        ≡ (if f == file then max (len_in lens.old f) len else len_in lens.old f) }
    ensures same { IsFalse result → (f : ℕ) → len_in lens.new f ≡ len_in lens.old f }
    ensures has { IsTrue result → (f : ℕ) → HasLenIn lens.old f ⊎ (f ≡ file) → HasLenIn lens.new f }
    ensures succeeds { 0 < spare lens.old → IsTrue result }
    ensures known { HasLenIn lens.old file → IsTrue result }
    ensures spare { spare lens.old ≤ spare lens.new + 1 }
    ensures in_place { HasLenIn lens.old file → spare lens.old ≤ spare lens.new }
{
    if lens.contains_key(&file) {
        raise_known(lens, file, len);
        return true;
    }
    lens.insert(file, len).is_ok()
}

// Makes a file that has a length at least so long.
fn raise_known(lens: &mut HashMap<u32, u64>, file: u32, len: u64)
    requires { HasLenIn lens.old file }
    ensures raised { (f : ℕ) → len_in lens.new f ≡ (if f == file then max (len_in lens.old f) len else len_in lens.old
        f) }
    ensures has { (f : ℕ) → HasLenIn lens.old f → HasLenIn lens.new f }
    ensures spare { spare lens.new ≡ spare lens.old }
{
    if let Some(known) = lens.get_mut(&file) {
        *known = len.max(*known);
    }
}

// Marks a block.
pub(crate) fn mark(foreign: &mut [u8], block: u32)
    ensures len { length foreign.new ≡ length foreign.old }
    ensures here { block < length foreign.old → slice_index foreign.new block ≡ 1 }
    ensures others { (b : ℕ) → b ≢ block → slice_index foreign.new b ≡ slice_index foreign.old b }
{
    if (block as usize) < foreign.len() {
        foreign[block as usize] = 1;
    }
}

// Whether a block can be marked and is not.
fn is_free(foreign: &[u8], block: u32) -> bool
    ensures { IsTrue result ↔ IsUnmarked foreign.now block }
{
    match foreign.get(block as usize) {
        Some(marked) => *marked == 0,
        None => false,
    }
}

// `true` only where a block is said to be of a file's copy.
fn is_of(copies: &[u8], block: u32, file: u32) -> bool
    ensures { IsTrue result → slice_index copies.now block ≡ copy_of file }
{
    match copies.get(block as usize) {
        Some(copy) => *copy as u32 == file / 4 % 8,
        None => false,
    }
}

/// Where the last byte other than zero of a record ends in its file.
pub fn end_of_bytes(key: FilePage, newest: Newest) -> u64
    ensures { key.page < 4294967296 → 0 < newest.filled → result ≡ 256 * key.page + newest.filled }
{
    if newest.filled == 0 {
        return 0;
    }
    key.page
        .saturating_mul(256)
        .saturating_add(newest.filled as u64)
}
