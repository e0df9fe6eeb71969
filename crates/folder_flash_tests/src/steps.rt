//! Steps over a flash in a file, and what each of them may change there.

use flash_model::Flash;
use folder_flash::FolderFlash;
use mem_system::MemSystem;

/// How many bytes a page has.
const PAGE_BYTES: usize = 512;

/// How many pages a block has.
const BLOCK_PAGES: usize = 64;

/// What a blank byte reads as.
const BLANK: u8 = 0xff;

/// A call that changes pages.
#[derive(Clone, Copy)]
pub(crate) enum Step {
    /// Programs a page of a block with this byte.
    Program(u32, u32, u8),
    Erase(u32),
}

impl Step {
    /// Takes it, and says whether it succeeded; one outside the flash fails.
    pub(crate) fn take(self, flash: &mut FolderFlash<MemSystem>) -> bool {
        match self {
            Step::Program(block, page, byte) => {
                if block >= flash.blocks() || page >= BLOCK_PAGES as u32 {
                    return false;
                }
                flash.program(block, page, &[byte; 512]).is_ok()
            }
            Step::Erase(block) => {
                if block >= flash.blocks() {
                    return false;
                }
                flash.erase(block).is_ok()
            }
        }
    }

    /// Its first page, counted from the start of the file, and how many it changes.
    fn pages(self) -> (usize, usize) {
        match self {
            Step::Program(block, page, _) => {
                (
                    (block as usize)
                        .saturating_mul(BLOCK_PAGES)
                        .saturating_add(page as usize),
                    1,
                )
            }
            Step::Erase(block) => ((block as usize).saturating_mul(BLOCK_PAGES), BLOCK_PAGES),
        }
    }

    /// What each byte of its pages is afterwards.
    fn byte(self) -> u8 {
        match self {
            Step::Program(_, _, byte) => byte,
            Step::Erase(_) => BLANK,
        }
    }

    /// Whether the file is as the step leaves it where it succeeds.
    pub(crate) fn is_done(self, old: &[u8], new: &[u8]) -> bool {
        let (first, count) = self.pages();
        for page in 0..pages_in(old, new) {
            let is_own = page >= first && page < first.saturating_add(count);
            if is_own && !is_filled(new, page, self.byte()) {
                return false;
            }
            if !is_own && !is_same(old, new, page) {
                return false;
            }
        }
        true
    }
}

/// A step, and how many bytes the file had before it.
#[derive(Clone, Copy)]
pub(crate) struct Tear {
    pub(crate) step: Step,
    pub(crate) len: usize,
}

impl Tear {
    /// Whether the step may tear this page: one of its own, or one before them that the file lacked.
    fn reaches(self, page: usize) -> bool {
        let (first, count) = self.step.pages();
        page < first.saturating_add(count) && (page >= first || end_of(page) > self.len)
    }
}

/// Whether the file is what it was but for pages that this step may tear, or wholly where there is none.
pub(crate) fn is_torn_by(tear: Option<Tear>, old: &[u8], new: &[u8]) -> bool {
    for page in 0..pages_in(old, new) {
        let is_spared = match tear {
            Some(tear) => !tear.reaches(page),
            None => true,
        };
        if is_spared && !is_same(old, new, page) {
            return false;
        }
    }
    true
}

/// How many pages one file or the other has, in part or whole.
fn pages_in(old: &[u8], new: &[u8]) -> usize {
    old.len().max(new.len()).saturating_add(511) / PAGE_BYTES
}

fn end_of(page: usize) -> usize {
    page.saturating_add(1).saturating_mul(PAGE_BYTES)
}

/// A byte of a flash: what the file lacks is blank.
fn byte_at(file: &[u8], at: usize) -> u8 {
    match file.get(at) {
        Some(byte) => *byte,
        None => BLANK,
    }
}

fn is_same(old: &[u8], new: &[u8], page: usize) -> bool {
    for at in page.saturating_mul(PAGE_BYTES)..end_of(page) {
        if byte_at(old, at) != byte_at(new, at) {
            return false;
        }
    }
    true
}

fn is_filled(file: &[u8], page: usize, byte: u8) -> bool {
    for at in page.saturating_mul(PAGE_BYTES)..end_of(page) {
        if byte_at(file, at) != byte {
            return false;
        }
    }
    true
}
