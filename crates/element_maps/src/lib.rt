//! Maps of elements over a storage: sessions hold maps, a storage holds entries. A map lists elements by name, each
//! with its info, length and content; a session's *test* says which bytes it takes as a value, and *synchronised* is
//! the map that the storage holds, in which a value that fails the test cannot be read. A *view* is what the copies
//! of a storage denote, its generation and its entries, and a *shape* is a storage as it is configured. A *sync* puts
//! the session's map in the place of the synchronised one: it commits the changes that make the one into the other.
//!
//! The definitions in `specs/` say which changes make one map into another, and which maps a session may give to a
//! storage as the next that it is to hold. The laws are contracts of functions with nothing to do, which a caller calls
//! to cite them. [`changes_make_maps`] says that these changes may be committed, that the storage then holds the new
//! map, under a view which the old view and the two maps determine, and that no more is written than what differs;
//! [`views_are_maps`] that the map of a view is one that may be given to it; [`syncs_are_decided`] which view a sync
//! leaves.
#![tactic(auto)]

mod laws;

pub use laws::{changes_make_maps, syncs_are_decided, views_are_maps};
