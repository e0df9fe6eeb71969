//! A flash that models nothing, and a caller of any flash.

ghost use Rattle.std.specs.Prelude.{◌≡◌, ◌<◌, false, IsTrue, OnOk};
ghost use Rattle.flash_model.specs.Pages.{program_page, erase_block};
ghost use Rattle.flash_model.specs.Silence.{silent_flash, silent_is_lawful};

use flash_model::{Flash, FlashFailed};

/// A flash that models nothing, as one over a real device: it only counts its failures. This one fails to program.
#[derive(Drop)]
struct Silent {
    faults: u64,
}

impl Flash for Silent {
    ghost told = { false };

    ghost medium = { λ flash. silent_flash 4 flash.faults };

    ghost lawful = { λ flash. silent_is_lawful 4 flash.faults };

    fn blocks(&self) -> u32 {
        4
    }

    fn read(&mut self, _block: u32, _page: u32, _out: &mut [u8; 512]) -> Result<(), FlashFailed> {
        Ok(())
    }

    fn program(&mut self, _block: u32, _page: u32, _bytes: &[u8; 512]) -> Result<(), FlashFailed> {
        self.faults = self.faults.saturating_add(1);
        Err(FlashFailed)
    }

    fn erase(&mut self, _block: u32) -> Result<(), FlashFailed> {
        Ok(())
    }

    fn announce(&mut self, _file: u32, _at: u64, _bytes: &[u8]) -> Result<(), FlashFailed> {
        Ok(())
    }

    fn settle(&mut self) -> Result<(), FlashFailed> {
        Ok(())
    }
}

/// Erases a block and programs its first page.
pub fn write_first<F: Flash>(
    flash: &mut F,
    block: u32,
    bytes: &[u8; 512],
) -> Result<(), FlashFailed>
    requires { block < (F.medium flash.old).blocks }
    ensures { IsTrue F.told → OnOk result ((F.medium flash.new).state.pages
        ≡ program_page (erase_block (F.medium flash.old).state.pages block) block 0 bytes.now) }
{
    flash.erase(block)?;
    flash.program(block, 0, bytes)?;
    Ok(())
}

/// How many faults a silent flash counts after a page of it was to be written.
pub fn faults_of_a_silent_flash() -> u64 {
    let mut silent = Silent { faults: 0 };
    if write_first(&mut silent, 3, &[7; 512]).is_ok() {
        return 0;
    }
    silent.faults
}
