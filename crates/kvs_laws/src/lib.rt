//! What a sync leaves of the value of a key, and what it costs.
//!
//! These are the laws by which a program that embeds a key-value storage says what becomes of its values. Each is the
//! contract of a function with nothing to do, which a caller calls to cite it. A value that was set is what is got
//! ([`set_is_got`]). An open storage reads on its disk as it shows, and a stop at any moment of a sync, and then damage
//! that spares as many copies as must agree, leaves the old value or the new one ([`values_stand`]). Where one value
//! changes few runs of the index are written, however many keys it has ([`changed_values_cost_few_runs`]).
//!
//! Words of the laws: a *case* is what a crash at one moment may leave of the disk, a *stop* a crash at any moment;
//! `told` says that the bytes of the disk are modelled; a place is *clean* where nothing on it contradicts anything; an
//! index or a content *torn* by a crash that passes its hash by chance is premised not to be.
#![tactic(auto)]

mod costs;
mod laws;

pub use costs::changed_values_cost_few_runs;
pub use laws::{set_is_got, values_stand};
