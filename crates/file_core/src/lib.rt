//! One file and a position in it.
//!
//! A [`File`] is an element with an info (when and why it was made and last changed, and when it was last opened),
//! whose length is that of its content, at most 1,048,576 bytes. A content on which too few copies agree is unreadable,
//! and may have a salvage, the bytes that are left of it; the length is then that of the salvage. A [`Cursor`] is a
//! position in a content with what may be done there: reading bytes, lines and the rest, overwriting and extending,
//! cutting, moving. Each call answers exactly by its definition, each error in its case and order, and a refused call
//! changes nothing.
//!
//! The content is changed in place: reading, moving and writing a byte take no time that grows with the file, and a
//! write inside a content copies no more than it writes. Cutting, moving, peeking and getting a byte do not allocate.
#![tactic(auto)]

mod contents;
mod cursor;
mod file;
mod info;
mod room;

pub use cursor::{Cursor, is_bad_mode, reads, writes};
pub use file::{FILE_BYTES, File};
pub use info::{changed, made, opened};
pub use room::Room;
