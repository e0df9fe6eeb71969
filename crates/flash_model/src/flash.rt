//! The trait of a flash: its calls, and what each says of pages, crashes and faults.

ghost use Rattle.std.specs.Prelude.{◌≡◌, ◌⊎◌, ◌<◌, Bool, IsTrue, OnOk, OnErr};
ghost use Rattle.per_base.specs.Causes.{Rose};
ghost use Rattle.flash_model.specs.Pages.{blank_page};
ghost use Rattle.flash_model.specs.State.{IsStill, ProgramCase, EraseCase, FailsToProgram, FailsToErase};
ghost use Rattle.flash_model.specs.State.{announce_write, settle_pages, programmed, erased};
ghost use Rattle.flash_model.specs.FlashMedium.{FlashMedium, IsLawfulFlash, FlashElapses, EachFlashCase};

use thiserror::Error;

/// How many bytes a page has.
pub const PAGE_BYTES: usize = 512;

/// How many pages a block has.
pub const BLOCK_PAGES: u32 = 64;

/// What an erased page reads as.
pub const BLANK_PAGE: [u8; PAGE_BYTES] = [0xff; PAGE_BYTES];

/// A call of a flash failed, and its count of faults rose. No other call changes that count.
#[derive(Clone, Copy, Debug, PartialEq, Eq, Error)]
#[error("the flash failed")]
pub struct FlashFailed;

/// A flash: blocks of 64 pages of 512 bytes, each programmed while it is blank and erased with its block.
///
/// What is said of pages holds where the flash models them, and so what is said of crashes: a flash that models
/// nothing names no case (a case, `c` in the clauses, is one outcome of a crash). Whether a flash is modelled is a
/// constant of its type.
///
/// Limits, which a device has to keep beneath this trait:
///
/// - Reads are stable. Until a page is programmed or its block erased, each read of it gives the same bytes, also where
///   a crash or a failed call left the page torn.
/// - A page that the device cannot correct is answered with some bytes, and not as a failure: whoever opens a flash
///   reads every page.
/// - No block goes bad. A device that retires blocks does so under numbers that stay.
pub trait Flash {
    /// Whether the pages of a flash of this type are modelled.
    ghost told: { Bool };

    /// How many blocks it has, what its pages hold, what was announced to it, what a crash may have left, the clock,
    /// and the count of faults.
    ghost medium: { Self → FlashMedium };

    /// How many blocks it has, which no call changes.
    fn blocks(&self) -> u32
        ensures { result ≡ (medium self.now).blocks };

    /// Reads page `page` of block `block`, both from 0. No page changes, and a crash meanwhile leaves what there was.
    fn read(&mut self, block: u32, page: u32, out: &mut [u8; 512]) -> Result<(), FlashFailed>
        requires block { block < (medium self.old).blocks }
        requires page { page < 64 }
        ensures bytes { IsTrue told → OnOk result (out.new ≡ (medium self.old).state.pages block page) }
        ensures state { IsTrue told → (medium self.new).state ≡ (medium self.old).state }
        ensures during { EachFlashCase (IsStill (medium self.old).state) (medium self.old) (medium self.new) }
        ensures time { FlashElapses (medium self.old) (medium self.new) }
        ensures cause { OnErr result (Rose (medium self.old).faults (medium self.new).faults) }
        ensures passes { OnOk result ((medium self.new).faults ≡ (medium self.old).faults) };

    /// Programs page `page` of block `block`, which has to be blank. Where the call fails, the page may hold anything,
    /// as after a crash; but a text that its start then holds under its hash (it *verifies*) is the text of these
    /// bytes. A blank page never verifies.
    fn program(&mut self, block: u32, page: u32, bytes: &[u8; 512]) -> Result<(), FlashFailed>
        requires block { block < (medium self.old).blocks }
        requires page { page < 64 }
        requires blank { IsTrue told → (medium self.old).state.pages block page ≡ blank_page }
        ensures state { IsTrue told → OnOk result
            ((medium self.new).state ≡ programmed (medium self.old).state block page bytes.now) }
        ensures failed { IsTrue told → OnErr result
            (FailsToProgram block page bytes.now (medium self.old).state (medium self.new).state) }

        // A crash leaves what there was before or is afterwards, or tears the page.
        ensures during { EachFlashCase (λ c. IsStill (medium self.old).state c ⊎ (IsStill (medium self.new).state c
            ⊎ ProgramCase block page bytes.now (medium self.old).state c)) (medium self.old) (medium self.new) }
        ensures time { FlashElapses (medium self.old) (medium self.new) }
        ensures cause { OnErr result (Rose (medium self.old).faults (medium self.new).faults) }
        ensures passes { OnOk result ((medium self.new).faults ≡ (medium self.old).faults) };

    /// Makes all pages of a block blank. Where the call fails, they may hold anything, as after a crash; but a text
    /// that the start of a page then holds under its hash, it held before.
    fn erase(&mut self, block: u32) -> Result<(), FlashFailed>
        requires { block < (medium self.old).blocks }
        ensures state { IsTrue told → OnOk result ((medium self.new).state ≡ erased (medium self.old).state block) }
        ensures failed { IsTrue told → OnErr result
            (FailsToErase block (medium self.old).state (medium self.new).state) }

        // A crash leaves what there was before or is afterwards, or tears the block.
        ensures during { EachFlashCase (λ c. IsStill (medium self.old).state c ⊎ (IsStill (medium self.new).state c
            ⊎ EraseCase block (medium self.old).state c)) (medium self.old) (medium self.new) }
        ensures time { FlashElapses (medium self.old) (medium self.new) }
        ensures cause { OnErr result (Rose (medium self.old).faults (medium self.new).faults) }
        ensures passes { OnOk result ((medium self.new).faults ≡ (medium self.old).faults) };

    /// Notes that the calls to come serve this write into a file, at the byte `at`. It changes no page; a device has
    /// nothing to do. `file` is a number that the caller gives.
    fn announce(&mut self, file: u32, at: u64, bytes: &[u8]) -> Result<(), FlashFailed>
        ensures state { IsTrue told → OnOk result
            ((medium self.new).state ≡ announce_write (medium self.old).state file at bytes.now) }
        ensures failed { IsTrue told → OnErr result ((medium self.new).state ≡ (medium self.old).state) }
        ensures during { EachFlashCase (λ c. IsStill (medium self.old).state c ⊎ IsStill (medium self.new).state c)
            (medium self.old) (medium self.new) }
        ensures time { FlashElapses (medium self.old) (medium self.new) }
        ensures cause { OnErr result (Rose (medium self.old).faults (medium self.new).faults) }
        ensures passes { OnOk result ((medium self.new).faults ≡ (medium self.old).faults) };

    /// Notes that the writes announced so far are over, and that what the pages hold is what they left. It changes no
    /// page; a device has nothing to do. A crash meanwhile finds the notes from before or from afterwards.
    fn settle(&mut self) -> Result<(), FlashFailed>
        ensures state { IsTrue told → OnOk result ((medium self.new).state ≡ settle_pages (medium self.old).state) }
        ensures failed { IsTrue told → OnErr result ((medium self.new).state ≡ (medium self.old).state) }
        ensures during { EachFlashCase (λ c. IsStill (medium self.old).state c ⊎ IsStill (medium self.new).state c)
            (medium self.old) (medium self.new) }
        ensures time { FlashElapses (medium self.old) (medium self.new) }
        ensures cause { OnErr result (Rose (medium self.old).faults (medium self.new).faults) }
        ensures passes { OnOk result ((medium self.new).faults ≡ (medium self.old).faults) };

    /// This moment counts among those since an earlier one, and since now there is no other: a call that is over is
    /// durable.
    ghost lawful: { (flash : Self) → IsLawfulFlash told (medium flash) };
}
