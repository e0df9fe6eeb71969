//! A register that keeps its text through stops and damage.
//!
//! A text with a generation is sealed into one of two slots of each copy of a [`Place`]: into the
//! slot of the generation's parity. A slot *verifies* where its start is a text under its own hash, and
//! else it is *blank*, whatever bytes it has; *a blank* is 44 zeros, put over a slot's header. Of the texts
//! that at least m copies hold the one of the greatest generation stands, and at one generation the one
//! whose first copy is lowest. [`Cell::write`] puts the next text into the other slots, makes it durable,
//! and only then blanks the old ones, so that a stop at any moment leaves the old text or the new one in
//! every copy that is not damaged.
//!
//! [`open_cell`] finds the text that stands and brings every copy to it, [`look`] only shows what the
//! copies hold, [`standing_among`] chooses of that what stands, [`adopt`] brings every copy to a text that
//! the caller chose, [`adopt_seen`] to one that was seen, [`keep_only`] blanks every other text, and
//! [`format_cell`] formats the register. Each call changes slots of its place alone.
//!
//! Limits: a body of at most 524,244 bytes, generations up to the greatest `u64`, and one caller at a
//! time. The hash guards against damage, not against malice.
#![tactic(auto)]

mod adopting;
mod cell;
mod errors;
mod formatting;
mod keeping;
mod laws;
mod looking;
mod opening;
mod reach;
mod replacing;
mod slots;
mod starts;

pub use adopting::{adopt, adopt_seen};
pub use cell::Cell;
pub use errors::CellError;
pub use formatting::format_cell;
pub use keeping::keep_only;
pub use laws::{blanked_slots_cost_what_differs, held_is_lawful, stops_are_lawful};
pub use looking::{Looked, Seen, look};
pub use opening::{OpenedCell, open_cell, standing_among};
pub use slots::Slots;
