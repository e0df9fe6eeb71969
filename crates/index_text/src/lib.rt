//! The text of an index: which elements a storage has, and where their contents are.
//!
//! An index lists the elements of one storage by name, each with the length and the hash (SHA-256) of its content and
//! with the numbers of the blocks, of 256 bytes, that hold it. A file has its *info* too: when it was created, last
//! modified and last accessed, in seconds, and what caused its creation and its last modification. Format 2 also gives
//! each element the generation of its last change (0 where that was in format 1). `write_index` gives the one text of
//! an index, and `read_index` takes exactly the texts of indexes, in format 1 and format 2, back apart.
//!
//! Every index that is read keeps the rules: at most 1,024 elements, names that ascend, contents within the limit of
//! their kind (64 KiB for a key, 1 MiB for a file), an info exactly for files, and no block twice in the whole text. A
//! text has one index and an index one text, and that of an index that fits the largest storage, of 4 MiB, has at most
//! 403,460 bytes. Reading goes over the text once, and looks for repeated blocks by an ordered set, never by pairs.
//!
//! [`put_name`], [`put_info`] and [`kind_byte`] write the parts that the text of an export has too.
#![tactic(auto)]

mod entries;
mod errors;
mod fields;
mod laws;
mod reading;
mod rules;
mod writing;

pub use entries::{Index, IndexEntry};
pub use errors::IndexError;
pub use laws::{blocks_are_few, one_index, text_is_short};
pub use reading::read_index;
pub use writing::{kind_byte, put_info, put_name, write_index};
