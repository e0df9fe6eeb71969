//! What a stop at any moment of a call, and then damage, leave of a storage.
//!
//! These are the laws by which the calls on a storage keep it. Each is the contract of a function with nothing to do,
//! which a caller calls to cite it. They speak of one case of a crash: nobody touched the place
//! ([`untouched_is_kept`]), its index is adopted or given up ([`adopting_keeps`]), contents are written
//! ([`contents_keep`]) or mended in place ([`mending_keeps`]), and the next index is written ([`index_keeps`]), or a
//! corrupt storage is rebuilt ([`rebuilding_keeps`]). In each the storage is kept, from its state before to the one
//! after, in both scopes and with shared blocks: it stands as before or as after, no text or value comes up that was
//! never synchronised, no copy is lost that was not damaged, and its place stays clean.
//!
//! Storages at places that are apart do not touch each other ([`places_stand_apart`]). Undamaged copies are counted by
//! files, and, which promises more, by pieces: of each element by its own blocks, and of the index apart
//! ([`copies_are_counted_by_pieces`]).
//!
//! [`places_are_clean`] and [`use_is_adopted`] say where the laws begin and end, and [`outcomes_are_refused`] what they
//! exclude.
//!
//! Words of the contracts: a *place* is the files of a storage's copies, in each of them two *slots*, which hold texts
//! of indexes, and an area, whose blocks hold contents. *Scope* is on what enough copies must agree: on the index and
//! on each content by itself, or on the index and all contents together. A text is *adopted* once every copy holds it
//! and no slot another, and the texts of a corrupt storage but that of its salvage are *given up* once no copy holds
//! them; a content is *carried* that the next index leaves in the blocks in which the earlier one has it, and *mended*
//! where it is written again in copies that lack it. A *case* is one way that a crash may go, and a *piece* is a text
//! in a slot or a content in blocks, with its hash.
//!
//! The premises are that no torn piece passes its hash by chance, where contents are mended in place that no two
//! contents have the same hash ([`mending_keeps`] alone), and that one storage has one caller at a time.
#![tactic(auto)]

mod laws;

pub use laws::{
    adopting_keeps, contents_keep, copies_are_counted_by_pieces, index_keeps, mending_keeps,
    outcomes_are_refused, places_are_clean, places_stand_apart, rebuilding_keeps,
    untouched_is_kept, use_is_adopted,
};
