//! A disk that tears, its model, and a disk in memory that meets it.
//!
//! [`Disk`] is the device that everything above writes to: files named by numbers, written at any place, made durable
//! by one barrier for all of them. Its contract says what reads give, what a crash at any moment may leave, and that a
//! call fails only where the count of faults rose. Between two syncs a crash may leave any bytes in the ranges that
//! were written and past the old ends.
//!
//! [`MemDisk`] meets it in memory and answers for every moment: it fails where it is asked to, stops after a number of
//! calls, takes damage, and crashes with the writes since the last sync kept, lost or torn. [`Orders`] says which calls
//! of a device in memory are to fail, and counts those that did. [`Place`] names the files of a storage's copies.
//!
//! The definitions that the crates above share are in `specs/`: images, cases, frames of writes, soundness and
//! damage. Limits: a disk is used by one caller at a time, and a disk whose bytes are not modelled promises only
//! counts and causes.
#![tactic(auto)]

mod disk;
mod history;
mod memory;
mod orders;
mod place;
mod place_files;

pub use disk::{Disk, DiskFailed};
pub use memory::MemDisk;
pub use orders::Orders;
pub use place::Place;
