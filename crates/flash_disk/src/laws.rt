//! Laws of flashes that disks are opened over.

ghost use Rattle.std.specs.Prelude.{◌≡◌, ℕ, ◌+◌, ◌-◌, ◌*◌, ◌%◌, ◌<◌};
ghost use Rattle.flash_model.specs.Pages.{Pages};
ghost use Rattle.flash_disk.specs.Newest.{places, IsUsable, IsUnusable};
ghost use Rattle.flash_disk.specs.Standing.{IsAgreed, HasRivals};
ghost use Rattle.flash_disk.specs.Fresh.{IsBlankFlash};
ghost use Rattle.flash_disk.specs.Apart.{copy_of, IsApart, StandApart, IsOfCopy, LosesPages, CostsOneCopy, HasNoRoom};
ghost use Rattle.flash_disk.specs.Crowded.{StandAmong, CountInAll};
ghost use Rattle.flash_disk.specs.Emptied.{HasEmptyBlock, LosesAnyPages};

/// A blank flash can be opened, has an empty block, keeps the copies apart, and its records agree. Where records agree
/// there are no rivals, and no call makes any: so on a flash that only such disks wrote, no write fails for rivals.
pub fn fresh_flashes_open()
    ensures usable { (pages : Pages) (blocks : ℕ) → 0 < blocks → IsBlankFlash pages blocks → IsUsable pages blocks }
    ensures agreed { (pages : Pages) (blocks : ℕ) → IsBlankFlash pages blocks → IsAgreed pages (places blocks) }
    ensures apart { (pages : Pages) (blocks : ℕ) → IsBlankFlash pages blocks → IsApart pages blocks }
    ensures stand { (pages : Pages) (blocks : ℕ) → IsBlankFlash pages blocks → StandApart pages blocks }
    ensures no_rivals { (pages : Pages) (blocks : ℕ) → IsAgreed pages (places blocks) → HasRivals pages (places blocks)
        → ⊥ }
    ensures empty { (pages : Pages) (blocks : ℕ) → 0 < blocks → IsBlankFlash pages blocks → HasEmptyBlock pages blocks }
{}

/// A flash that can be opened is not refused as unusable.
pub fn usable_flashes_are_taken()
    ensures { (pages : Pages) (blocks : ℕ) → IsUsable pages blocks → IsUnusable pages blocks → ⊥ }
{}

/// What a loss of pages within one block costs: the files of one copy, where the block is of one copy alone, as each
/// is where the copies stand apart. Copy c of a place that begins at a multiple of 32 has the files of copy c.
pub fn lost_pages_cost_one_copy()
    ensures of_copy { (old new : Pages) (blocks block copy : ℕ) → IsAgreed old (places blocks)
        → IsOfCopy old (places blocks) block copy → LosesPages block old new → CostsOneCopy copy blocks old new }
    ensures apart { (old new : Pages) (blocks block : ℕ) → IsAgreed old (places blocks) → IsApart old blocks
        → LosesPages block old new → (copy : ℕ) × CostsOneCopy copy blocks old new }
    ensures stand { (pages : Pages) (blocks : ℕ) → StandApart pages blocks → IsApart pages blocks }
    ensures copies { (first copy k : ℕ) → first % 32 ≡ 0 → copy < 8 → k < 4 → copy_of (first + 4 * copy + k) ≡ copy }
{}

/// A flash that can be opened and has an empty block, as each write that succeeds leaves one (`write_at.empty`), can be
/// opened after any loss of pages (`any`), and after one of pages of one block: some block can be spared then.
pub fn lost_pages_leave_it_usable()
    ensures any { (old new : Pages) (blocks : ℕ) → IsUsable old blocks → HasEmptyBlock old blocks
        → LosesAnyPages old new → IsUsable new blocks }
    ensures of_block { (old new : Pages) (blocks block : ℕ) → IsUsable old blocks → HasEmptyBlock old blocks
        → LosesPages block old new → IsUsable new blocks }
{}

/// Where copies stand apart and a write may mix them since there is no room for one, half the pages of all blocks but
/// one for each copy hold a record that counts, or more: on a flash with fewer each copy has room. Of `copies` copies,
/// or of all 8.
pub fn few_records_leave_room()
    ensures among { (pages : Pages) (blocks copies copy : ℕ) → copy < copies → StandAmong pages blocks copies
        → HasNoRoom pages blocks copy → CountInAll pages blocks (32 * (blocks - copies)) }
    ensures apart { (pages : Pages) (blocks copy : ℕ) → copy < 8 → StandApart pages blocks
        → HasNoRoom pages blocks copy → CountInAll pages blocks (32 * (blocks - 8)) }

    // On 16 blocks that is 256 of 1,024 pages.
    ensures sixteen { (pages : Pages) (copy : ℕ) → copy < 8 → StandApart pages 16 → HasNoRoom pages 16 copy
        → CountInAll pages 16 256 }
{}
