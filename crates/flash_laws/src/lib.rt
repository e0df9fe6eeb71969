//! What lost pages of a flash leave of what was synchronised.
//!
//! Words of the laws: a page of flash may be a record of a page of a file (`flash_record`). Of the records of one page
//! the newest *counts*; two with its greatest number that differ are *rivals*. Pages of flash are numbered through, 64
//! for each block (`places blocks` of them, or the first `n`). `old` is what they hold before a loss, `new` after it.
//!
//! The *place* of a root or storage is its files, four for each copy. Copies are *apart* where in each block records of
//! one copy alone count (`StandApart`), or those of the others have equal ones in other blocks (`IsApart`). Copies
//! *outvote* a loss if as many as have to agree still say what all said (`Outvotes`).
#![tactic(auto)]

ghost use Rattle.std.specs.Prelude.{◌≡◌, ◌==◌, ℕ, Bool, false};
ghost use Rattle.flash_model.specs.Pages.{Pages};
ghost use Rattle.flash_disk.specs.Apart.{copy_of, IsApart, LosesPages, StandApart};
ghost use Rattle.flash_disk.specs.Emptied.{LosesAnyPages};
ghost use Rattle.flash_disk.specs.FlashFiles.{flash_files};
ghost use Rattle.flash_disk.specs.KeepsApart.{ApartSince};
ghost use Rattle.flash_disk.specs.Newest.{newest, places};
ghost use Rattle.flash_disk.specs.Standing.{IsAgreed};
ghost use Rattle.flash_disk.specs.Throughout.{AgreedSince};
ghost use Rattle.flash_laws.specs.Lost.{AgreeThroughout, ArePure, LeavesFileWhole, LosesOfCopies, SparesFile};
ghost use Rattle.flash_laws.specs.Lost.{IsKeptByte, IsKeptLength, IsPageLeft};
ghost use Rattle.flash_laws.specs.Outvotes.{Outvotes, OutlastsSince};

use flash_disk::lost_pages_cost_one_copy;
use flash_model::Flash;

/// What the loss of pages of one block leaves of what was synchronised, on a flash that has no rivals and keeps the
/// copies apart: the files of all places but those of one copy are as they were, and the other copies outvote it.
pub fn lost_pages_are_outvoted()
    ensures { (old new : Pages) (blocks block : ℕ) → IsAgreed old (places blocks) → IsApart old blocks
        → LosesPages block old new → Outvotes (flash_files old blocks) (flash_files new blocks) }
{
    lost_pages_cost_one_copy();
}

/// So it is now and after a crash at any moment since one when the flash, of 16 blocks or more, had no rivals and the
/// copies stood apart: each loss of pages of one block is outvoted then, unless at some moment there was no room for a
/// copy that was written. The calls of a disk keep both (`Elapses`), from its opening on (`IsJustOpened`).
pub fn lost_pages_are_outvoted_since<F: Flash>()
    ensures { (flash : F) (t : ℕ) → AgreedSince (F.medium flash) t → ApartSince (F.medium flash) t
        → OutlastsSince (F.medium flash) t }
{
    lost_pages_are_outvoted();
    lost_pages_cost_one_copy();
}

/// What any loss of pages leaves, of any number of blocks and of copies. A file reads as before if each record that
/// counted for it is where it was, and where the records agree if an equal one is left. Of any other file each byte is
/// as it was, or the record of its page that counted was lost, and the byte is zero or that of an older record of it.
pub fn only_what_lay_there_is_lost()
    ensures spared { (old new : Pages) (blocks file : ℕ) → LosesAnyPages old new
        → SparesFile old new (places blocks) file → flash_files new blocks file ≡ flash_files old blocks file }
    ensures left { (old new : Pages) (blocks file : ℕ) → LosesAnyPages old new → IsAgreed old (places blocks)
        → LeavesFileWhole old new (places blocks) file → flash_files new blocks file ≡ flash_files old blocks file }
    ensures pages { (old new : Pages) (blocks file page : ℕ) → LosesAnyPages old new
        → IsPageLeft old new (places blocks) file page (newest old file page (places blocks))
        (newest new file page (places blocks)) }
    ensures bytes { (old new : Pages) (blocks file i : ℕ) → LosesAnyPages old new
        → IsKeptByte old new (places blocks) file i }
    ensures lengths { (old new : Pages) (blocks file : ℕ) → LosesAnyPages old new
        → IsKeptLength old new (places blocks) file }
{}

/// Losses in blocks that hold one copy alone cost the files of these copies, however many the blocks are; where it is
/// one copy the others outvote it.
pub fn losses_cost_their_copies()
    ensures copies { (lost : ℕ → Bool) (old new : Pages) (blocks file : ℕ)
        → LosesOfCopies lost (places blocks) old new → lost (copy_of file) ≡ false
        → flash_files new blocks file ≡ flash_files old blocks file }
    ensures outvoted { (copy : ℕ) (old new : Pages) (blocks : ℕ)
        → LosesOfCopies (λ own. own == copy) (places blocks) old new
        → Outvotes (flash_files old blocks) (flash_files new blocks) }
{}

/// Where each block has records of one copy alone, and those of one page and number are equal, older ones too, the
/// copies stand apart without rivals, and it is so after any loss of pages: the next costs what the first did.
pub fn pure_blocks_stay_pure()
    ensures pure { (old new : Pages) (n : ℕ) → LosesAnyPages old new → ArePure old n → ArePure new n }
    ensures agree { (old new : Pages) (n : ℕ) → LosesAnyPages old new → AgreeThroughout old n → AgreeThroughout new n }
    ensures stand { (pages : Pages) (blocks : ℕ) → ArePure pages (places blocks) → StandApart pages blocks }
    ensures agreed { (pages : Pages) (n : ℕ) → AgreeThroughout pages n → IsAgreed pages n }
{}
