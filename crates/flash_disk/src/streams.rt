//! Where the records of each copy go on. What is kept here is a guess that a disk looks at before it relies on it.

ghost use Rattle.std.specs.Prelude.{◌≡◌, ◌≢◌, ◌≤◌, ◌<◌, ℕ, IsTrue};
ghost use Rattle.flash_disk.specs.Apart.{copy_of};
ghost use Rattle.flash_disk.specs.Known.{load_known};
ghost use Rattle.flash_disk.specs.LedApart.{IsLedApart, LeadsOnly, LeadsSome, HasOneEach};

use crate::table::{FilePage, FlashPage, MOST_BLOCKS, Table};
use flash_model::BLOCK_PAGES;

/// How many copies are kept apart.
const COPIES: usize = 8;

/// The copy of a block that holds nothing, and of one that holds records of several copies.
const NONE: u8 = 254;

const SEVERAL: u8 = 255;

/// Where the records of each copy go on.
#[derive(Drop)]
pub struct Streams {
    next: [FlashPage; COPIES],
    /// The greatest number of a record of each copy that was learnt.
    tops: [u64; COPIES],
    /// The page of the last record of each copy.
    last: [FilePage; COPIES],
    /// Whether each copy goes on in a block of its own.
    apart: bool,
}

impl Streams {
    /// Streams of a flash of which nothing is known but its table.
    pub fn new(table: &Table) -> Streams {
        let nowhere = FlashPage {
            block: 0,
            page: BLOCK_PAGES,
        };
        Streams {
            next: [nowhere; COPIES],
            tops: [0; COPIES],
            last: [FilePage { file: 0, page: 0 }; COPIES],
            apart: table.has_many_blocks(),
        }
    }

    /// Learns of a record that was found in a place. The page after it may have been torn, so the copy goes on with the
    /// one after that.
    pub fn learn(&mut self, key: FilePage, sequence: u64, place: FlashPage) {
        let copy = self.stream_of(key.file) as usize;
        if sequence > self.tops[copy] {
            self.tops[copy] = sequence;
            self.last[copy] = key;
            self.next[copy] = FlashPage {
                block: place.block,
                page: place.page.saturating_add(2),
            };
        }
    }

    /// The page that is to be filled next with a record of a file. Where each copy has a block of its own, the last
    /// record of the file's copy is in its block; where it is not, no page of the block is.
    pub fn next_of(&self, table: &Table, file: u32) -> FlashPage
        // On 16 blocks or more, where it is one of the 64 pages of its block and not past them, some newest record in
        // the block is of the file's copy.
        ensures { 16 ≤ table.now.blocks → result.page < 64 → LeadsSome table.now (copy_of file) result.block }
    {
        let copy = self.stream_of(file) as usize;
        let next = self.next[copy];
        if table.has_many_blocks() && !table.has_in(self.last[copy], file, next.block) {
            return FlashPage {
                block: next.block,
                page: BLOCK_PAGES,
            };
        }
        next
    }

    /// Goes on after a place with the records of a file's copy.
    pub fn go_on(&mut self, file: u32, place: FlashPage) {
        let copy = self.stream_of(file) as usize;
        self.next[copy] = FlashPage {
            block: place.block,
            page: place.page.saturating_add(1),
        };
    }

    /// A record of a page of a file was added.
    pub fn end_with(&mut self, key: FilePage) {
        let copy = self.stream_of(key.file) as usize;
        self.last[copy] = key;
    }

    /// The block whose newest records are fewest, of those that hold newest records of a file's copy alone, or none. It
    /// is `spare` where no other leaves a page, or where each leaves fewer than 8 and less than a quarter of those that
    /// another block would; and on a flash of few blocks.
    pub fn lightest(&self, table: &Table, file: u32, spare: u32) -> u32
        // A block other than the spare one has newest records in fewer than its 64 pages, all of the file's copy.
        ensures own { result ≢ spare → (result < table.now.blocks) × (load_known table.now result < 64)
            × LeadsOnly table.now (copy_of file) result }

        // It has the fewest of all such blocks.
        ensures lightest { table.now.blocks ≤ 4096 → result ≢ spare → (block : ℕ) → block < table.now.blocks
            → block ≢ spare → LeadsOnly table.now (copy_of file) block
            → load_known table.now result ≤ load_known table.now block }

        // On 16 blocks or more each page of a file has one entry in the table, so that a block's count is of pages.
        ensures unique { 16 ≤ table.now.blocks → HasOneEach table.now }

        // There, where it is the spare one, each other block whose newest records are all of that copy has 57 or more,
        // so that fewer than 8 of its 64 pages are left.
        ensures none { 16 ≤ table.now.blocks → table.now.blocks ≤ 4096 → result ≡ spare
            → (block : ℕ) → block < table.now.blocks → block ≢ spare → LeadsOnly table.now (copy_of file) block
            → 57 ≤ load_known table.now block }
    {
        if !table.has_many_blocks() {
            return spare;
        }
        let mut foreign = [0u8; MOST_BLOCKS];
        table.mark_foreign(file, &mut foreign);
        let own = table.lightest_own(&foreign, spare);
        if own != spare && table.leaves_little(own, spare) {
            return spare;
        }
        own
    }

    /// A block holds as many records as were moved from another, and goes on with those of a file's copy.
    pub fn begin(&mut self, file: u32, block: u32, from: u32, moved: u32) {
        for other in 0..COPIES {
            if self.next[other].block == block || self.next[other].block == from {
                self.next[other].page = BLOCK_PAGES;
            }
        }
        let copy = self.stream_of(file) as usize;
        self.next[copy] = FlashPage { block, page: moved };
    }

    /// Two blocks were joined in another, up to a page of it: the copy that would have gone on in one of them goes on
    /// there.
    pub fn join(&mut self, first: u32, second: u32, block: u32, page: u32) {
        for copy in 0..COPIES {
            let next = self.next[copy].block;
            if next == first || next == second || next == block {
                self.next[copy] = FlashPage { block, page };
            }
        }
    }

    /// Goes on with no copy in a block that holds newest records of another too.
    pub fn leave_mixed(&mut self, table: &Table) {
        if !self.apart {
            return;
        }
        let mut owners = [NONE; MOST_BLOCKS];
        table.find_owners(&mut owners, NONE, SEVERAL);
        for copy in 0..COPIES {
            let block = self.next[copy].block;
            if owners.get(block as usize) != Some(&(copy as u8)) {
                self.next[copy].page = BLOCK_PAGES;
            }
        }
    }

    // The stream of a file's copy, of 8; on a flash of fewer than 16 blocks all copies go on in one.
    fn stream_of(&self, file: u32) -> u8
        ensures { result < 8 }
    {
        if self.apart { (file / 4 % 8) as u8 } else { 0 }
    }
}

/// `true` only where each newest record is in a block with newest records of its copy alone.
pub fn are_apart(table: &Table) -> bool
    ensures { IsTrue result → IsLedApart table.now }
{
    let mut owners = [NONE; MOST_BLOCKS];
    table.find_owners(&mut owners, NONE, SEVERAL);
    table.is_apart(&owners)
}
