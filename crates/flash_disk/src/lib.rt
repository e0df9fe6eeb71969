//! A disk over the erase blocks of raw flash.
//!
//! [`FlashDisk`] gives the trait `Disk` over any `Flash`. Each page of 256 bytes of a file is in a record on the
//! flash; a newer record of it takes the place of the older one, whose block may be erased once nothing in it is
//! needed. A table in memory leads from a page of a file to its record, so a read or a write of one page costs a
//! look-up and no walk over the flash. All the memory that it ever needs is taken at its opening, which reads every
//! page once, and again the blocks up to the first that is spare, and that one once more; of two records of one page
//! with one number it reads the earlier again.
//!
//! Some block is spare at all times. When the block that a copy goes on in is full, the records that are needed in
//! another block are copied into the spare block, which is blank, and that block is erased at once and becomes the
//! spare one. So a write that succeeds leaves an empty block, and after it no loss of pages leaves none to spare: the
//! flash opens ([`lost_pages_leave_it_usable`]). What a stop or a failed call left in the spare block is erased by the
//! next write; a block that is blank is not erased. A page that failed as a record was programmed is read again before
//! the next use.
//!
//! On 16 blocks or more each copy goes on in a block of its own: file f is of copy `f / 4 % 8`. The block whose records
//! are moved for a copy is the one with the fewest of those in which nothing counts but that copy; where none has room,
//! two blocks of one copy are joined in the spare one, which frees a block. So where the copies stand apart, as on a
//! blank flash, every write leaves them so, also at any moment of it, unless at some moment no block but the spare one
//! has room for the copy (each other holds what counts of another, or fewer than 8 of its pages hold nothing that
//! counts) and no two could be joined: that takes records in half the pages of all blocks but 8
//! ([`few_records_leave_room`]). Then the block with the fewest records may be moved, whatever they are of, and copies
//! mix: else wear would have no bound. Where they stand apart, with no rivals, the loss of pages of one block costs
//! files of one copy ([`lost_pages_cost_one_copy`]); a disk says of its flash that they do only where they do
//! ([`FlashDisk::keeps_copies_apart`]). An opening goes on after the newest record of each copy, but for one page that
//! a stop may have torn. [`erase_all`] makes a flash blank. [`FlashDisk::forget`] takes from it the records of files
//! that nobody names any more, so that what they took is room again.
//!
//! A flash that another program wrote may hold what this one never writes. Of two records of one page with one number
//! the first place counts; while two that differ both have the greatest number of their page, as *rivals*, nothing is
//! erased, and a write of some bytes fails. Bytes that a record has past the end of its file are rewritten as zeros
//! before the file grows over them.
//!
//! Where the flash's pages are modelled, the disk's bytes are: they are the files that the newest records denote, and
//! every clause of the trait is proved, what a crash or a failed call leaves at any moment included, if no page passes
//! its hash by chance. Limits: files of at most 1,099,511,627,776 bytes, as many pages as all blocks but two hold, and
//! numbers up to 2^64 - 1; wear is not even. A write that would break one of them fails, and so does one that finds
//! rivals; where the flash did not fail it counts as the disk's own fault, and no other call does. No call makes rivals
//! where there were none, and at every moment a crash leaves a flash that can be opened again. A fresh flash can be
//! opened and has no rivals ([`fresh_flashes_open`]).
//!
//! A flash has to be as the trait says: reads are stable, a page that cannot be corrected is answered with some bytes,
//! and no block goes bad. The memory grows with the blocks, by some 200 bytes for each page that may have a record: 52
//! MB at 4,096 blocks, the most that open.
#![tactic(auto)]

mod calls;
mod disk;
mod erasing;
mod filling;
mod forgetting;
mod joining;
mod laws;
mod layer;
mod opening;
mod serving;
mod streams;
mod table;

pub use disk::{FlashDisk, FlashOpenError, FlashRefused};
pub use erasing::erase_all;
pub use forgetting::{FileRange, Forgotten};
pub use laws::{
    few_records_leave_room, fresh_flashes_open, lost_pages_cost_one_copy,
    lost_pages_leave_it_usable, usable_flashes_are_taken,
};
