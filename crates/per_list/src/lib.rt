//! What is on a disk, for a person, a script and a program.
//!
//! [`list`] looks at the root of each application and at each storage of its versions, and says what is there: the
//! versions, the kind, the copies and the room of each storage, what it holds, and the files in which each copy is. It
//! writes nothing to the disk and mends nothing. Its text is a function of what the disk holds (`specs/Listings`), in
//! one of two forms: lines of words, or one JSON object. Which copies are damaged an audit says, which gives copies and
//! banks the same numbers: copies from 1, banks from 0. A *bank* is one of an application's two sets of storages.
//!
//! In the contracts `told` is that a disk's bytes are modelled, `quiet` that nothing is pending on it, and `time` that
//! its moments go on and no count falls.
#![tactic(auto)]

mod forms;
mod listing;
mod printing;

pub use forms::Form;
pub use listing::list;
