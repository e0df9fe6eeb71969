//! Raw flash of erase blocks: its model, and a flash in memory that meets it.
//!
//! [`Flash`] is a device of blocks of 64 pages of 512 bytes. A page is programmed once, while it is blank, and is made
//! blank again only together with its whole block. Its contract says what reads give, what a crash at any moment may
//! leave, what a failed call may leave, and that a call fails only where the count of faults rose. A call that
//! succeeded is durable.
//!
//! A flash also takes notes: the writes that a user of it begins, and the moments at which all of them are settled.
//! They have no effect on a device, but let whoever builds a disk over a flash say what every crash leaves in terms of
//! the writes that were asked for.
//!
//! [`MemFlash`] meets it in memory and answers for every moment; it fails where it is asked to, and stops after a
//! number of calls. A call that it fails changes nothing. Limits: a flash is used by one caller at a time; reads are
//! stable, a page that cannot be corrected is answered with some bytes, and no block goes bad; and no wear is modelled.
#![tactic(auto)]

mod flash;
mod memory;
mod record;

pub use flash::{BLANK_PAGE, BLOCK_PAGES, Flash, FlashFailed, PAGE_BYTES};
pub use memory::MemFlash;
