//! The words that every crate of `per` shares.
//!
//! Names of storages, keys and files; the small types for bytes, texts and lists that contracts see as plain lists;
//! elements with their contents and infos; errors, reports and modes of opening; readers of the bytes and numbers at
//! the start of a text; and the two streams of the outside, a source of bytes and a sink for bytes, each with a count
//! of faults that never falls.
//!
//! Nothing here touches a disk. The promises are the grammar of names, sums that do not overflow within the limits,
//! that a reader takes exactly the texts of what it gives, and that a stream answers its failure only where its count
//! of faults rose.
#![tactic(auto)]

mod elements;
mod errors;
mod faults;
mod fields;
mod lists;
mod memory_streams;
mod names;
mod opening;
mod reports;
mod streams;

pub use elements::{
    BLOCK, Cause, Change, Content, ENTRY_SIZE, Element, Entry, FileInfo, Fresh, Scope, StoreKind,
    element_size, storage_size,
};
pub use errors::{Holder, Limit, PerError, Unit};
pub use faults::Fault;
pub use fields::{Ended, byte_of, bytes_of, u16_of, u32_of, u64_of};
pub use lists::{Bytes, Numbers, Sequence, ValueText};
pub use memory_streams::{MemSink, MemSource};
pub use names::Name;
pub use opening::{OpenKind, OpenMode, Origin};
pub use reports::{Report, ReportKind};
pub use streams::{Failed, Sink, Source};
