//! What is read after pages of one block of a flash were lost.
//!
//! On a flash whose copies stand apart such a loss costs each place one copy at most, and the others outvote it
//! (`Outvotes`). So a storage of which at least two copies, and fewer than there are, have to agree reads as before
//! ([`storages_read_on`]), and so do each root ([`roots_read_on`]) and each application ([`applications_read_on`]), if
//! they were whole: each copy held them, with nothing beside. So it is at any moment of a run
//! ([`applications_read_on_since`]). On any flash, with any number of copies, what was not in the lost pages reads
//! as before ([`what_lay_elsewhere_reads_on`]), and what was as before, older, or not at all
//! ([`what_was_lost_reads_older`]).
//!
//! Words of the laws: `shape` says the *place* of a storage, which is the files of its copies, and how many of these,
//! `m`, have to agree. A copy keeps the storage's texts in two files, its *slots*, and contents in a third. A *view* is
//! what a storage opens with: a generation and its elements. Of the records of a page of a file on flash the newest
//! *counts* (`flash_laws`). A *bank* is one of an application's two sets of storages; one that was made again
//! may begin from generation 1. `old` is before a loss, `new` after it.
#![tactic(auto)]

ghost use Rattle.std.specs.Prelude.{ℕ};
ghost use Rattle.flash_laws.specs.Outvotes.{OutlastsSince};
ghost use Rattle.loss_laws.specs.Laws.{AloneRootsLaw, AppsLaw, RootsLaw, StoragesLaw, StoragesOfOneLaw};
ghost use Rattle.loss_laws.specs.Since.{ReadOnSince};
ghost use Rattle.loss_laws.specs.Spared.{LostRootsLaw, OlderLaw, OlderRootsLaw};
ghost use Rattle.loss_laws.specs.Spared.{SparedRootsLaw, SparedSlotsLaw, SparedStoragesLaw};

use deploy_laws::roots_say;
use element_laws::places_stand_apart;
use flash_laws::only_what_lay_there_is_lost;
use flash_model::Flash;

/// A storage that was whole opens under its generation with its map, if at least two copies, and fewer than there are,
/// have to agree; the view after its opening is the one before the loss. Where one copy is enough, that needs a clean
/// place in which no copy gives a text of a greater generation.
pub fn storages_read_on()
    ensures outvoted { StoragesLaw }
    ensures of_one { StoragesOfOneLaw }
{}

/// A root that was whole, and one of which each copy held one text alone, says what it said.
pub fn roots_read_on()
    ensures whole { RootsLaw }
    ensures alone { AloneRootsLaw }
{}

/// An application whose root was whole says what it said, and each storage that it names reads on, in both versions.
pub fn applications_read_on()
    ensures { AppsLaw }
{
    roots_say();
    storages_read_on();
    roots_read_on();
}

/// If since a moment copies outvote each loss of pages of one block, then after such a loss, now or after a crash at
/// any moment since, what was whole reads as before ([`applications_read_on`]), or there was once no room for a copy
/// that was written.
pub fn applications_read_on_since<F: Flash>()
    ensures { (flash : F) (t : ℕ) → OutlastsSince (F.medium flash) t → ReadOnSince (F.medium flash) t }
{
    applications_read_on();
}

/// On any number of blocks and with any number of copies, one too: after any loss of pages a storage or root of whose
/// files no record that counted was lost reads as before. One of whose slots none was lost reads no older value: it
/// opens under its generation, each element as synchronised or corrupt, or it is corrupt.
pub fn what_lay_elsewhere_reads_on()
    ensures storages { SparedStoragesLaw }
    ensures roots { SparedRootsLaw }
    ensures slots { SparedSlotsLaw }
{
    only_what_lay_there_is_lost();
    places_stand_apart();
    roots_say();
}

/// Where a loss reached the slots of a storage that no other copy outvotes, as with one copy, it opens as it was or
/// older, or is corrupt, if what came up in its slots is older. A root then says what it said, or what an older text
/// says that two copies hold, or nothing; of lost pages of a flash that is asked only of slots that they reached.
pub fn what_was_lost_reads_older()
    ensures storages { OlderLaw }
    ensures roots { OlderRootsLaw }
    ensures lost { LostRootsLaw }
{
    only_what_lay_there_is_lost();
}
