//! The pages of a flash in memory, and the calls that are on its record.

ghost use Rattle.std.specs.Prelude.{◌≡◌, ◌⊎◌, ◌<◌, ◌≤◌, ◌+◌, ◌*◌, ℕ, IfOk, length, replicate, vec_len, slice_index_or};
ghost use Rattle.flash_model.specs.Pages.{Pages, blank_page, program_page, erase_block};
ghost use Rattle.flash_model.specs.History.{pages_of};

use crate::flash::{BLANK_PAGE, PAGE_BYTES};
use std::alloc::{AllocError, Global};

/// A call that succeeded.
#[derive(Drop)]
pub enum FlashCall {
    /// Noted a write of these bytes into a file from a byte on.
    Announce(u32, u64, Vec<u8>),
    Settle,
    Read,
    /// Programmed a page of a block with these bytes.
    Program(u32, u32, Vec<u8>),
    /// Erased a block.
    Erase(u32),
}

/// The pages of one block after the other, 64 for each.
pub type PageList = Vec<[u8; PAGE_BYTES]>;

/// A list of `count` blank pages. It fails only where memory runs out.
pub fn blank_pages(alloc: Global, count: usize) -> Result<PageList, AllocError>
    ensures len { IfOk result (λ pages. vec_len pages ≡ count) }
    ensures blank { IfOk result (λ pages. pages_of pages.items ≡ (λ b p. blank_page)) }
{
    let pages = copies_of(alloc, &BLANK_PAGE, count)?;
    Ok(pages)
}

// That many copies of one page.
fn copies_of(alloc: Global, page: &[u8; PAGE_BYTES], count: usize) -> Result<PageList, AllocError>
    ensures { IfOk result (λ pages. pages.items ≡ replicate count page.now) }
{
    let mut pages = Vec::with_capacity(alloc, count)?;
    for _made in 0..count {
        pages.push(*page)?;
    }
    Ok(pages)
}

/// The bytes of page `page` of block `block`, which the list has whole (`within`).
pub fn page_in(pages: &PageList, block: u32, page: u32) -> [u8; PAGE_BYTES]
    requires page { page < 64 }
    requires within { 64 * block + 64 ≤ vec_len pages.now }
    ensures { result ≡ pages_of pages.now.items block page }
{
    pages[64 * block as usize + page as usize]
}

/// Sets page `page` of block `block`, which the list has whole (`within`), to these bytes.
pub fn set_page(pages: &mut PageList, block: u32, page: u32, bytes: &[u8; PAGE_BYTES])
    requires page { page < 64 }
    requires within { 64 * block + 64 ≤ vec_len pages.old }
    ensures len { vec_len pages.new ≡ vec_len pages.old }
    ensures pages { pages_of pages.new.items ≡ program_page (pages_of pages.old.items) block page bytes.now }
{
    pages[64 * block as usize + page as usize] = *bytes;
}

/// Makes all pages of a block blank, which the list has whole.
pub fn blank_block(pages: &mut PageList, block: u32)
    requires { 64 * block + 64 ≤ vec_len pages.old }
    ensures len { vec_len pages.new ≡ vec_len pages.old }
    ensures pages { pages_of pages.new.items ≡ erase_block (pages_of pages.old.items) block }
{
    set_from(pages, 64 * block as usize, &BLANK_PAGE);
}

// Sets 64 pages from a place on.
fn set_from(pages: &mut PageList, from: usize, page: &[u8; PAGE_BYTES])
    requires { from + 64 ≤ vec_len pages.old }
    ensures len { vec_len pages.new ≡ vec_len pages.old }
    ensures inside { (j : ℕ) → j < 64 → slice_index_or pages.new.items (from + j) blank_page ≡ page.now }
    ensures outside { (i : ℕ) → (i < from) ⊎ (from + 64 ≤ i)
        → slice_index_or pages.new.items i blank_page ≡ slice_index_or pages.old.items i blank_page }
{
    for j in 0..64 {
        pages[from + j] = *page;
    }
}
