//! A flash on which every page is a record.

ghost use Rattle.std.specs.Prelude.{◌≡◌, IsTrue};
ghost use Rattle.flash_model.specs.Pages.{blank_page};

use flash_model::{BLOCK_PAGES, Flash, MemFlash, PAGE_BYTES};
use flash_record::record_page;

/// Makes each page of a flash a record of another page of file 1; `false` where one is not blank.
pub(crate) fn fill(flash: &mut MemFlash) -> bool {
    for block in 0..flash.blocks() {
        for page in 0..BLOCK_PAGES {
            if !plant(flash, block, page) {
                return false;
            }
        }
    }
    true
}

/// Makes one page a record of the page of file 1 that has its number.
fn plant(flash: &mut MemFlash, block: u32, page: u32) -> bool {
    let mut found = [0; PAGE_BYTES];
    if block >= flash.blocks() || page >= 64 {
        return false;
    }
    if flash.read(block, page, &mut found).is_err() || !is_blank(&found) {
        return false;
    }
    let number = block.saturating_mul(64).saturating_add(page);
    let record = record_page(1, 1, number, 16_777_216, &[7; 256]);
    flash.program(block, page, &record).is_ok()
}

/// Whether a page is blank.
#[tactic(auto, unfolding(flash_model::specs::Pages::blank_page))]
fn is_blank(page: &[u8]) -> bool
    ensures { IsTrue result → page.now ≡ blank_page }
{
    page == [0xff; 512].as_slice()
}
