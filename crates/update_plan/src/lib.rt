//! What the storages of an application get at an installation and at an update.
//!
//! Each name goes by the first row that fits. `delete`: nothing. `overwrite`: the initial content. Stored and to be
//! kept, by the element's own strategy or else the storage's: what is stored, converted where its type differs. Else
//! the initial content, if one is configured, or nothing.
//!
//! [`plan`] says what each storage of a new version gets, or the first refusal: storage by storage damage, then element
//! by element what is to be kept and is unreadable or cannot be converted, then too many elements, then too many bytes.
//! It reads the disk nowhere and writes nothing. A stored file that is overwritten changes now, and every other file
//! that gets its initial content is made now; what is kept keeps its info.
//!
//! Words of the contracts: a *fate* is what an update makes of a name: it goes, it gets an element, what is stored of
//! it is converted, or the update is refused. `rules` are the stored converters (`rules_of`) and `answers` what each
//! may answer (`answers_of`). A *fresh* element is one that is to be written. `now` is a moment in seconds. The *info*
//! of a file says when it was made, last changed and last opened, and the causes of its making and its last change.
//!
//! [`initial_of`] is this over empty contents, for an installation and for every storage that is rebuilt. What both
//! give can be made a storage as it is: names ascend, there are at most 1,024, they fit the maximum, and exactly files
//! have an info.
#![tactic(auto)]

mod contents;
mod merging;
mod planning;
mod renewing;
mod rows;
mod starting;

pub use contents::{Contents, StorageContents, Stored};
pub use planning::plan;
pub use starting::initial_of;
