//! A flash that loses power in a call, or of which one call fails.

ghost use Rattle.std.specs.Prelude.{◌≡◌, ◌≤◌, false};
ghost use Rattle.flash_model.specs.Silence.{silent_flash, silent_is_lawful};
ghost use Rattle.per_base.specs.Causes.{Rose};

use flash_model::{BLANK_PAGE, BLOCK_PAGES, Flash, FlashFailed, PAGE_BYTES};
use std::alloc::{AllocError, Global};

/// What a call leaves that does not come to its end.
#[derive(Clone, Copy)]
pub(crate) enum Leaves {
    /// What there was.
    Nothing,
    /// All that it was to do.
    All,
    /// Every other byte of the page, or every other page of the block.
    EveryOther,
}

impl Leaves {
    pub(crate) fn name(self) -> &'static str {
        match self {
            Leaves::Nothing => "nothing",
            Leaves::All => "all",
            Leaves::EveryOther => "every other",
        }
    }

    /// Whether the part of this number is done.
    fn is_done(self, part: usize) -> bool {
        match self {
            Leaves::Nothing => false,
            Leaves::All => true,
            Leaves::EveryOther => part % 2 == 0,
        }
    }
}

/// What becomes of the call of a number, counted from 0.
#[derive(Clone, Copy)]
pub(crate) struct Cut {
    pub(crate) call: u64,
    pub(crate) leaves: Leaves,
    /// Whether all calls after it fail and leave nothing.
    pub(crate) is_last: bool,
}

/// Raw flash in memory. Its pages are not modelled.
#[derive(Drop)]
pub(crate) struct Device {
    blocks: u32,
    pages: Vec<[u8; PAGE_BYTES]>,
    cut: Option<Cut>,
    calls: u64,
    /// Which calls programmed or erased.
    changes: Vec<u64>,
    erased: u64,
    faults: u64,
}

impl Device {
    /// That many blocks, all blank.
    pub(crate) fn new(alloc: Global, blocks: u32) -> Result<Device, AllocError> {
        let count = BLOCK_PAGES as usize * blocks as usize;
        Ok(Device {
            blocks,
            pages: vec![in alloc; BLANK_PAGE; count]?,
            cut: None,
            calls: 0,
            changes: Vec::new(alloc),
            erased: 0,
            faults: 0,
        })
    }

    /// The same pages, with this cut to come and no call counted.
    pub(crate) fn copy(&self, alloc: Global, cut: Option<Cut>) -> Result<Device, AllocError> {
        Ok(Device {
            blocks: self.blocks,
            pages: self.pages.clone()?,
            cut,
            calls: 0,
            changes: Vec::new(alloc),
            erased: 0,
            faults: 0,
        })
    }

    /// The same pages, with no cut to come.
    pub(crate) fn restarted(self) -> Device {
        let mut device = self;
        device.cut = None;
        device
    }

    /// Whether both hold the same pages.
    pub(crate) fn is_like(&self, other: &Device) -> bool {
        self.pages.as_slice() == other.pages.as_slice()
    }

    /// How many calls were made.
    pub(crate) fn calls(&self) -> u64 {
        self.calls
    }

    /// The numbers of the calls that programmed or erased.
    pub(crate) fn into_changes(self) -> Vec<u64> {
        let Device { changes, pages, .. } = self;
        drop(pages);
        changes
    }

    /// How many pages were programmed, and how many blocks erased.
    pub(crate) fn cost(&self) -> (u64, u64) {
        let changes = self.changes.len() as u64;
        (changes.saturating_sub(self.erased), self.erased)
    }

    /// How many pages it has.
    pub(crate) fn pages(&self) -> usize {
        self.pages.len()
    }

    /// Whether that many pages from one on are all blank.
    pub(crate) fn is_blank(&self, first: usize, count: usize) -> bool {
        let mut pages = self.pages.iter().skip(first).take(count);
        pages.all(|page| *page == BLANK_PAGE)
    }

    /// Loses that many pages from one on: they read as zeros.
    pub(crate) fn lose(&mut self, first: usize, count: usize) {
        for page in self.pages.iter_mut().skip(first).take(count) {
            *page = [0; PAGE_BYTES];
        }
    }

    /// Counts a call. What it leaves, where it does not come to its end.
    fn enter(&mut self) -> Option<Leaves>
        ensures blocks { self.new.blocks ≡ self.old.blocks }
        ensures faults { self.new.faults ≡ self.old.faults }
    {
        let call = self.calls;
        self.calls = call.saturating_add(1);
        let cut = self.cut?;
        if call == cut.call {
            return Some(cut.leaves);
        }
        if cut.is_last && call > cut.call {
            return Some(Leaves::Nothing);
        }
        None
    }

    /// Counts a call that changes pages, by its number.
    fn note(&mut self) -> Result<(), AllocError>
        ensures blocks { self.new.blocks ≡ self.old.blocks }
        ensures faults { self.new.faults ≡ self.old.faults }
    {
        self.changes.push(self.calls)?;
        Ok(())
    }

    fn fail(&mut self) -> FlashFailed
        ensures blocks { self.new.blocks ≡ self.old.blocks }
        ensures later { self.old.faults ≤ self.new.faults }
        ensures faults { Rose self.old.faults self.new.faults }
    {
        self.faults = self.faults.saturating_add(1);
        FlashFailed
    }
}

impl Flash for Device {
    ghost told = { false };

    ghost medium = { λ device. silent_flash device.blocks device.faults };

    ghost lawful = { λ device. silent_is_lawful device.blocks device.faults };

    fn blocks(&self) -> u32 {
        self.blocks
    }

    fn read(&mut self, block: u32, page: u32, out: &mut [u8; 512]) -> Result<(), FlashFailed> {
        if self.enter().is_some() {
            return Err(self.fail());
        }
        if let Some(held) = self.pages.get(place_of(block, page)) {
            *out = *held;
        }
        Ok(())
    }

    fn program(&mut self, block: u32, page: u32, bytes: &[u8; 512]) -> Result<(), FlashFailed> {
        if self.note().is_err() {
            return Err(self.fail());
        }
        let cut = self.enter();
        if let Some(held) = self.pages.get_mut(place_of(block, page)) {
            *held = written_part(*held, bytes, cut.unwrap_or(Leaves::All));
        }
        if cut.is_some() {
            return Err(self.fail());
        }
        Ok(())
    }

    fn erase(&mut self, block: u32) -> Result<(), FlashFailed> {
        if self.note().is_err() {
            return Err(self.fail());
        }
        self.erased = self.erased.saturating_add(1);
        let cut = self.enter();
        erase_part(&mut self.pages, block, cut.unwrap_or(Leaves::All));
        if cut.is_some() {
            return Err(self.fail());
        }
        Ok(())
    }

    fn announce(&mut self, _file: u32, _at: u64, _bytes: &[u8]) -> Result<(), FlashFailed> {
        if self.enter().is_some() {
            return Err(self.fail());
        }
        Ok(())
    }

    fn settle(&mut self) -> Result<(), FlashFailed> {
        if self.enter().is_some() {
            return Err(self.fail());
        }
        Ok(())
    }
}

/// Where a page stands among all.
fn place_of(block: u32, page: u32) -> usize {
    64 * block as usize + page as usize
}

/// A page of which those bytes are written that are done.
fn written_part(
    held: [u8; PAGE_BYTES],
    bytes: &[u8; PAGE_BYTES],
    leaves: Leaves,
) -> [u8; PAGE_BYTES] {
    let mut page = held;
    for at in 0..PAGE_BYTES {
        if leaves.is_done(at) {
            page[at] = bytes[at];
        }
    }
    page
}

/// Makes those pages of a block blank that are done.
fn erase_part(pages: &mut Vec<[u8; PAGE_BYTES]>, block: u32, leaves: Leaves) {
    for page in 0..BLOCK_PAGES {
        if !leaves.is_done(page as usize) {
            continue;
        }
        if let Some(held) = pages.get_mut(place_of(block, page)) {
            *held = BLANK_PAGE;
        }
    }
}
