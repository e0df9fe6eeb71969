//! What a disk says of an application, of its root and its two banks of storages, and what a stop and damage leave.
//!
//! Words of the laws: a *root* is the text that says which versions are installed, and a *bank* one of two places for
//! the storages of a version. An *image* is what reads of a disk give, a *case* what a crash at one moment may leave of
//! the disk; damage is listed by the files that it touches. A place, the files of a root or of a storage, is *clean*
//! where each text held in it is one of its kind and no two have one generation. An application *stands* between two
//! states where an image has it as the one or as the other, with all that enough copies are left of (`Stands`): copies
//! of which no file is damaged, or, of what a stop left, whose pieces are spared (`StandsOnward`).
#![tactic(auto)]

mod laws;
mod places;

pub use laws::{
    damage_is_counted_by_pieces, deploying_stands, files_lie_apart, others_stand,
    outcomes_are_refused, roots_say, roots_stay, storing_stands, untouched_stands,
};
pub use places::root_place;
