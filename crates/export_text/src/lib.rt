//! The text of an export: one storage with all of its contents, to be carried elsewhere.
//!
//! An export is the kind of a storage and its elements, each with its name, for a file its info, and its bytes. Its
//! text is `PERB`, one byte 1, one byte for the kind (1 keys, 2 files), the number of elements in two bytes, and then
//! element by element one byte for the length of the name and the name, for a file the 26 bytes of its info, the length
//! of the bytes in four bytes and the bytes; the SHA-256 of all of this ends it. Numbers have their lowest byte first.
//! An *info* is when a file was created, last modified and last accessed, in seconds in eight bytes each, and what
//! caused its creation and its last modification, in one byte each.
//!
//! [`write_export`] gives the one text of an export, [`are_exportable`] tells whether there is one, and [`read_export`]
//! takes exactly the texts of exports apart. Every export that is read keeps the rules: at most 1,024 elements, names
//! that ascend, an info exactly for files, for a key the encoding of a value, for a file at most 1,048,576 bytes.
//! Reading goes over the text once for its hash and once for the elements, and copies each content once. The hash
//! guards against damage, not against malice.
#![tactic(auto)]

mod contents;
mod errors;
mod exports;
mod fields;
mod judging;
mod laws;
mod reading;
mod writing;

pub use errors::ExportError;
pub use exports::Export;
pub use judging::are_exportable;
pub use laws::{export_is_exact, one_export};
pub use reading::read_export;
pub use writing::write_export;
