//! What the calls of a deployment make of an application.
//!
//! Each call has a row in `specs/Rows`: of an application it makes the next one, or it refuses, by one condition after
//! another. A row is a function of what the disk says of the application, so that one definition tells the refusal, the
//! application after the call, and what a stop may leave. An update alone may lead to several: its converters may
//! answer any value that they promise.
#![tactic(auto)]

mod laws;

pub use laws::{manifests_are_judged, manifests_stay, rows_lead_on, rows_read_the_root};
