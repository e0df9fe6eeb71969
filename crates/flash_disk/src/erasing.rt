//! Making a flash blank.

ghost use Rattle.std.specs.Prelude.{◌≡◌, ◌≢◌, ◌<◌, ℕ, IsTrue, IfOk, OnOk};
ghost use Rattle.per_base.specs.Causes.{CountsFaults};
ghost use Rattle.flash_model.specs.Pages.{blank_page};
ghost use Rattle.flash_disk.specs.Fresh.{IsBlankFlash};

use crate::filling::is_blank;
use flash_model::{BLANK_PAGE, BLOCK_PAGES, Flash, FlashFailed};

/// Erases every block of a flash that is not blank, so that all pages are blank. Does not allocate.
///
/// # Errors
///
/// Only where a call of the flash fails; then some of the blocks are blank, and one may hold anything.
pub fn erase_all<F: Flash>(flash: &mut F) -> Result<(), FlashFailed>
    ensures blank { IsTrue F.told → OnOk result (IsBlankFlash (F.medium flash.new).state.pages
        (F.medium flash.new).blocks) }
    ensures blocks { (F.medium flash.new).blocks ≡ (F.medium flash.old).blocks }
    ensures faults { CountsFaults (F.medium flash.old).faults (F.medium flash.new).faults result }
{
    for block in 0..flash.blocks() {
        make_blank(flash, block)?;
    }
    Ok(())
}

// Erases a block, if it is not blank.
fn make_blank<F: Flash>(flash: &mut F, block: u32) -> Result<(), FlashFailed>
    requires { block < (F.medium flash.old).blocks }
    ensures blank { IsTrue F.told → OnOk result ((p : ℕ) → p < 64
        → (F.medium flash.new).state.pages block p ≡ blank_page) }
    ensures others { IsTrue F.told → OnOk result ((b p : ℕ) → b ≢ block
        → (F.medium flash.new).state.pages b p ≡ (F.medium flash.old).state.pages b p) }
    ensures blocks { (F.medium flash.new).blocks ≡ (F.medium flash.old).blocks }
    ensures faults { CountsFaults (F.medium flash.old).faults (F.medium flash.new).faults result }
{
    if is_blank_block(flash, block)? {
        return Ok(());
    }
    flash.erase(block)
}

// `true` only where each page of a block is blank.
fn is_blank_block<F: Flash>(flash: &mut F, block: u32) -> Result<bool, FlashFailed>
    requires { block < (F.medium flash.old).blocks }
    ensures blank { IsTrue F.told → IfOk result (λ blank. IsTrue blank → (p : ℕ) → p < 64
        → (F.medium flash.old).state.pages block p ≡ blank_page) }
    ensures same { IsTrue F.told → (F.medium flash.new).state ≡ (F.medium flash.old).state }
    ensures blocks { (F.medium flash.new).blocks ≡ (F.medium flash.old).blocks }
    ensures faults { CountsFaults (F.medium flash.old).faults (F.medium flash.new).faults result }
{
    let mut page = BLANK_PAGE;
    for at in 0..BLOCK_PAGES {
        flash.read(block, at, &mut page)?;
        if !is_blank(&page) {
            return Ok(false);
        }
    }
    Ok(true)
}
