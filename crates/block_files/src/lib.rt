//! Contents of elements in blocks: every copy of a place has an area file of 256-byte blocks, numbered from 0, and a
//! content is in the same blocks of each copy.
//!
//! [`put_blob`] writes a content into blocks that were free, and [`put_shared`] only the blocks in which it differs
//! from an earlier one. [`get_blob`] reads every copy of a content: those that have its hash count, the vote among them
//! is the value, and the copies that lack it are named. [`mend`] writes a content again into the copies that lack it. A
//! [`BlockSet`] says which blocks are taken.
//!
//! The promise, on every image: each copy that was written holds the bytes, every other block of every file reads as
//! before, and a crash at any moment changes nothing else but what is past an old end of an area. A caller who must
//! not run out of memory half way chooses blocks first, by [`reserve_blob`] or [`reserve_shared`], and then writes
//! without memory, by [`write_blob`] or [`write_shared`].
//!
//! Blocks that follow one another are read, and written, by one call of the disk. Once a copy counts, each further one
//! is compared with it by 64 KiB, and read whole only where it differs.
//!
//! Limits: nothing here calls sync, so a content is durable after the caller's next one. No block is given back by
//! these calls.
#![tactic(auto)]

mod block_set;
mod choosing;
mod errors;
mod getting;
mod hashing;
mod laws;
mod mending;
mod parts;
mod putting;
mod reading;
mod texts;
mod writing;

pub use block_set::BlockSet;
pub use errors::BlobError;
pub use getting::{Blob, get_blob};
pub use hashing::{Hashed, HashedParts, hash_beside, nothing_known};
pub use laws::contents_stand_aside;
pub use mending::mend;
pub use putting::{PutBlob, put_blob, put_shared, reserve_blob, reserve_hashed, reserve_shared};
pub use writing::{write_blob, write_shared};
