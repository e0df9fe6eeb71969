//! One storage of an application, carried to another computer as one text; or all of them, with the manifest.
//!
//! [`export`] gives the text of a storage of the active version, and changes nothing on the disk. [`import`] rebuilds a
//! storage with exactly what such a text says, infos included; also a storage that is read-only, and one that
//! cannot be read. Both judge the application as it is on the disk, open no storage and mend nothing.
//!
//! [`restore`] installs an application that was dumped: its manifest, and of each storage the text of its export. So
//! [`export`] and [`restore`] carry a whole application, where nothing is installed.
//!
//! Each refuses exactly where its row of `specs/Backups` says so, with what the refusal carries, and then nothing is
//! changed. A stop at any moment of an import leaves the storage as it was or as it is imported, and all else as it
//! was; one of a restore leaves nothing installed, or all of the application. What was imported or restored is exported
//! again as the same text, byte for byte.
//!
//! A root is *bad* where no two copies of it hold one text, or what they hold is no root's. The storages of a version
//! are in one of the application's two *banks* of files, 0 or 1.
//!
//! A *row* of `specs/Backups` gives, of an application, what a call makes of it or the refusal. In the contracts `told`
//! is that a disk's bytes are modelled, `quiet` that nothing is pending on it, and `time` that its moments go on and no
//! count falls.
//! A place (the files of the copies of a root or storage) is *clean* where what they hold does not contradict itself:
//! no two texts of one generation are held, and no two contents under one entry.
#![tactic(auto)]

mod exporting;
mod filling;
mod finding;
mod importing;
mod laws;
mod restoring;
mod typing;

pub use exporting::{Exported, export};
pub use importing::import;
pub use laws::{exports_come_back, refusals_are_numbered};
pub use restoring::{refusal_of, restore};
