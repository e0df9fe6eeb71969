//! What the copies of one storage denote, and reading it.
//!
//! A storage is an index in the slots of a place and contents in its areas. A text that some copy holds fits where it
//! is an index of the storage's kind and within its bounds; it qualifies where enough copies support it: with element
//! scope those that hold it, with storage scope those that hold it and in which every content counts. The storage opens
//! at the first text that qualifies, in the order of generations and then of copies; else it is corrupt, and the view
//! of the first text that fits is its salvage. The salvage of an element is another thing: where too few copies agree
//! on its content, the bytes of the first copy in which it counts, if there is one.
//!
//! The definitions in `specs/` say this for any image, and with it what every call on a storage makes of it: the states
//! after an opening, a commit, a creation and a rebuild, the reports, what a stop and damage may leave, and how many
//! bytes a commit may write.
//!
//! Words of the contracts: a *place* is the files of the copies. Each copy has two slot files, one for texts of even
//! generation and one for those of odd generation, and an area file, whose blocks of 256 bytes hold contents. A content
//! *counts* in a copy where the bytes of its blocks there have its hash. `told` says that the bytes of a disk of this
//! type are modelled, `D.medium` is all that is said of a disk at a moment: its `image` is the files as reads give
//! them, `written` counts the bytes written, and `faults` the calls that failed. A disk is *quiet* where nothing is
//! pending: a crash would leave what reads give.
//!
//! Limits: at most 1,024 elements, 8 copies, of which a manifest can ask for 7, and 4,194,304 bytes of names and
//! contents.
#![tactic(auto)]

mod choosing;
mod errors;
mod fitting;
mod reading;
mod reporting;
mod shapes;
mod supporting;
mod surveying;

pub use errors::StoreError;
pub use reporting::failed_report;
pub use shapes::{Shape, View};
pub use surveying::{Found, inspect, salvage, survey};
