//! Records: how a page of raw flash keeps a page of a file.
//!
//! A record is a page of flash whose start is a sealed text of `hash_guard` (a generation and a body under their hash,
//! whose header has 44 bytes): its generation is the record's sequence number, and its body has 272 bytes: the number
//! of the file (4 bytes), the number of the page in the file (4), the length of the file (8), and the 256 bytes of that
//! page. Numbers are little-endian. What follows the text does not matter.
//!
//! [`read_record`] answers a record exactly where a page is one, and [`record_page`] makes the page that reads as what
//! it was given. A blank page is no record. Neither call allocates.
#![tactic(auto)]

mod reading;
mod writing;

pub use reading::{RECORD_BYTES, Record, read_record};
pub use writing::record_page;
