//! A buffer of runs that were read from a file. In its clauses `old` is what the file held at an earlier moment.

ghost use Rattle.std.specs.Prelude.{◌≡◌, ◌≤◌, ◌-◌, min, length, take, drop, IsTrue, IfOk, OnOk, OnErr};
ghost use Rattle.per_base.specs.Causes.{Rose};
ghost use Rattle.disk_model.specs.Medium.{Elapses, OnlyReads};

use crate::changing::RUN;
use disk_model::{Disk, DiskFailed};

/// How many runs are read at once.
const RUNS: usize = 16;

/// Runs that were read from a file, to compare with.
#[derive(Drop)]
pub struct Held {
    bytes: [u8; RUN * RUNS],
    count: usize,
    /// The number of the first run.
    first: usize,
    ghost within: { count ≤ 4096 },
}

impl Held {
    ghost use Rattle.std.specs.Prelude.{◌<◌, ◌+◌, ◌*◌, ◌^◌, ℕ, List, suc};
    ghost use Rattle.changed_runs.specs.Held.{AreRunsSeen, HoldsRun, is_run_seen};

    /// An empty buffer, with which the runs before this one are compared.
    pub fn nothing(first: usize) -> Held
        ensures { result.first ≡ first }
    {
        Held {
            bytes: [0; RUN * RUNS],
            count: 0,
            first,
        }
    }

    /// Makes sure that the run with this number is in the buffer: unless it is, reads it with runs before it.
    pub fn look<D: Disk>(
        &mut self,
        disk: &mut D,
        file: u32,
        at: u64,
        bytes: &[u8],
        j: usize,
    ) -> Result<(), DiskFailed>
        requires room { at + length bytes.now < 2 ^ 64 }
        requires inside { 256 * j < length bytes.now }
        ensures seen { IsTrue D.told → OnOk result ((old : List ℕ)
            → ((i : ℕ) → i ≤ j → HoldsRun old at bytes.now i → HoldsRun ((D.medium disk.old).image file) at bytes.now i)
            → AreRunsSeen (take self.old.count self.old.bytes) self.old.first (suc j) at bytes.now old
            ((D.medium disk.old).image file)
            → AreRunsSeen (take self.new.count self.new.bytes) self.new.first (suc j) at bytes.now old
            ((D.medium disk.old).image file)) }
        ensures from { OnOk result (self.new.first ≤ j) }
        ensures reads { OnlyReads (D.medium disk.old) (D.medium disk.new) }
        ensures time { Elapses (D.medium disk.old) (D.medium disk.new) }
        ensures cause { OnErr result (Rose (D.medium disk.old).faults (D.medium disk.new).faults) }
        ensures passes { OnOk result ((D.medium disk.new).faults ≡ (D.medium disk.old).faults) }
    {
        if self.first <= j {
            return Ok(());
        }
        let first = j - j % RUNS;
        let end = bytes.len().min(RUN * (j + 1));
        let room = end - RUN * first;
        self.count = read_into(disk, file, at + (RUN * first) as u64, &mut self.bytes, room)?;
        self.first = first;
        Ok(())
    }

    /// Whether the file holds these bytes as its run with this number.
    pub fn has(&self, j: usize, run: &[u8]) -> bool
        requires from { self.now.first ≤ j }
        requires room { 256 * j < 2 ^ 63 }
        ensures { result ≡ is_run_seen (take self.now.count self.now.bytes) self.now.first j run.now }
    {
        let held = &self.bytes[..self.count];
        let start = held.len().min(RUN * (j - self.first));
        let rest = &held[start..];
        let front = &rest[..rest.len().min(run.len())];
        front == run
    }
}

/// Reads at most `room` bytes into the start of `held`, and says how many.
fn read_into<D: Disk>(
    disk: &mut D,
    file: u32,
    at: u64,
    held: &mut [u8; RUN * RUNS],
    room: usize,
) -> Result<usize, DiskFailed>
    requires { room ≤ 4096 }
    ensures count { IfOk result (λ count. count ≤ room) }
    ensures bytes { IsTrue D.told → IfOk result (λ count.
        (count ≡ min room (length ((D.medium disk.old).image file) - at))
        × (take count held.new ≡ take count (drop at ((D.medium disk.old).image file)))) }
    ensures reads { OnlyReads (D.medium disk.old) (D.medium disk.new) }
    ensures time { Elapses (D.medium disk.old) (D.medium disk.new) }
    ensures cause { OnErr result (Rose (D.medium disk.old).faults (D.medium disk.new).faults) }
    ensures passes { OnOk result ((D.medium disk.new).faults ≡ (D.medium disk.old).faults) }
{
    disk.read(file, at, &mut held[..room])
}
