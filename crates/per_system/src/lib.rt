//! OS backends: the files of a folder, a reader as a source, a writer as a sink.
//!
//! [`HostSystem`] has the calls of the operating system for the files of a folder, each as it is: what it says of bytes
//! is believed, and all that is built on it is proved. A call that failed says something of its file or nothing
//! ([`unless_outside`]). [`Noted`] is a device over them that notes why a call failed, for error reporting.
//! [`StdSource`] and [`StdSink`] fail only where their counts of failures rise; their bytes are not modelled.
#![tactic(auto)]

mod errors;
mod held;
mod host;
mod listing;
mod names;
mod notes;
mod standard;
mod streams;

pub use errors::unless_outside;
pub use held::{Access, HostSystem, holds_only_others};
pub use host::HostFile;
pub use names::DeviceKind;
pub use notes::{Explains, Noted, NotedFlash, Notes};
pub use standard::{StdSink, StdSource};
pub use streams::{Streams, fill_streams};
