//! An audit of a whole disk, which writes nothing.
//!
//! [`audit`] looks at the root of each application and at each storage that a root names, and mends none of them. A
//! *unit* is a root, a storage or an element. It lists every element of the storages that open, and finds every unit
//! that a copy lacks, that is lost, or beside which another text is held. What it lists and finds is a function of what
//! the disk holds (`specs/Audits`), and where it finds nothing no later opening reports anything
//! ([`sound_disks_report_nothing`]). [`Audit::text`] gives its one text.
//!
//! In the contracts `told` is that a disk's bytes are modelled, `quiet` that nothing is pending on it, and `time` that
//! its moments go on and no count falls. Of a disk at a moment (a `Medium`), the `image` is what reads give, `written`
//! counts the bytes that were written, and `faults` the calls that failed; that count *rose* also where it stands at
//! its greatest. A *bank* is one of two places for the storages of a version, a *unit* a root, a storage or an element,
//! and a storage is *corrupt* where it does not open. A root or a storage is *sole* where no other text is held beside
//! its own.
#![tactic(auto)]

mod auditing;
mod findings;
mod laws;
mod noting;
mod printing;

pub use auditing::audit;
pub use findings::{Audit, Finding, FindingKind, Listed};
pub use laws::sound_disks_report_nothing;
