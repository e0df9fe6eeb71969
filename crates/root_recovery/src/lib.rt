//! Recovers the root of an application of which too few copies are left.
//!
//! A root has three copies, and two of them must agree. Where no two do, the application cannot be read, though
//! one copy may hold a whole root and both banks may be as they were. [`recover_root`] takes what is left: of the
//! roots that single copies hold the one of the greatest generation, and at one generation the one whose first copy is
//! lowest. It brings every copy to it, and says which it was. A root that reads is left alone, and so is one of which
//! nothing is left.
//!
//! It is called by its own name alone: no opening recovers a root by itself, since one copy may hold what was never
//! completed, or what an undone write left.
//!
//! Limits: eight applications, and one caller at a time. What the storages hold that the recovered root names is not
//! looked at.
//!
//! In the contracts `told` is that a disk's bytes are modelled, `quiet` that nothing is pending on it, and `time` that
//! its moments go on and no count falls. A *row* says which root is taken, or why none is.
//! A place (the files of the copies of a root or storage) is *clean* where what they hold does not contradict itself:
//! no two texts of one generation are held, and no two contents under one entry.
#![tactic(auto)]

mod choosing;
mod errors;
mod laws;
mod printing;
mod recovering;

pub use errors::RecoveryError;
pub use laws::recoveries_are_lawful;
pub use recovering::{Recovered, Recovery, recover_root};
