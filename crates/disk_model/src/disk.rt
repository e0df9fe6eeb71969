//! The trait of a disk: its calls, and what each says of bytes, crashes and faults.

ghost use Rattle.std.specs.Prelude.{◌≡◌, ◌≤◌, ◌+◌, ◌-◌, Bool, IsTrue, IfOk, OnOk, OnErr, length, take, drop, min};
ghost use Rattle.per_base.specs.Causes.{Rose};
ghost use Rattle.disk_model.specs.Image.{put_image, TornImage};
ghost use Rattle.disk_model.specs.Case.{WriteCase, WriteOrNot, Follows};
ghost use Rattle.disk_model.specs.Medium.{Medium, Quiet, IsLawful, Elapses, OnlyReads, WritesNothing};

use thiserror::Error;

/// A call of a disk failed, and its count of faults rose. No other call changes that count.
#[derive(Clone, Copy, Debug, PartialEq, Eq, Error)]
#[error("the disk failed")]
pub struct DiskFailed;

/// A disk of files that are named by numbers. A file that was never written is empty. Places and sizes are in bytes.
///
/// What a crash may leave is said by *cases*: a case is one way that it may end. `now` has those of a crash now, and
/// `since t` those of a crash at the moment t or later, up to now; moments are numbers that never fall.
///
/// Each call says too that time goes on (`Elapses`): what a crash might have left before counts still, no count falls.
/// What is said of bytes holds where the disk models them, and so what is said of crashes: a disk that models nothing
/// names no case, which is one outcome of a crash. Whether a disk is modelled is a constant of its type.
pub trait Disk {
    /// Whether the bytes of a disk of this type are modelled.
    ghost told: { Bool };

    /// What reads give, what a crash may leave, the number of this moment, and the counts of faults and of bytes
    /// written.
    ghost medium: { Self → Medium };

    /// Reads a file from the byte `at` on into the start of `out`, as many bytes as there are and as it has room for,
    /// and says how many. The rest of `out` may hold anything.
    fn read(&mut self, file: u32, at: u64, out: &mut [u8]) -> Result<usize, DiskFailed>
        ensures count { IfOk result (λ n. n ≤ length out.old) }
        ensures bytes { IsTrue told → IfOk result (λ n.
            (n ≡ min (length out.old) (length ((medium self.old).image file) - at))
            × (take n out.new ≡ take n (drop at ((medium self.old).image file)))) }
        // No byte changes, and a crash leaves nothing new. The count of faults rises just where the call fails.
        ensures reads { OnlyReads (medium self.old) (medium self.new) }
        ensures time { Elapses (medium self.old) (medium self.new) }
        ensures cause { OnErr result (Rose (medium self.old).faults (medium self.new).faults) }
        ensures passes { OnOk result ((medium self.new).faults ≡ (medium self.old).faults) };

    /// Writes the bytes into a file from the byte `at` on; a gap before them reads as zeros, and no bytes change
    /// nothing. They are durable after the next `sync`. Where the call fails, the range may hold anything, as after a
    /// crash.
    fn write_at(&mut self, file: u32, at: u64, bytes: &[u8]) -> Result<(), DiskFailed>
        // After a success reads give the bytes written; after a failure only the range, and what is past the old end,
        // may have changed.
        ensures image { IsTrue told → OnOk result
            ((medium self.new).image ≡ put_image (medium self.old).image file at bytes.now) }
        ensures torn { IsTrue told → OnErr result
            (TornImage file at (length bytes.now) (medium self.old).image (medium self.new).image) }

        // What a crash may leave after the call, and at any moment of it (`during`): each case comes from one before
        // the call, by the write whole or cut short or, in its midst, left out.
        ensures now { OnOk result (Follows (WriteCase file at bytes.now) (medium self.old).now (medium self.new).now) }
        ensures during { Follows (WriteOrNot file at bytes.now) (medium self.old).now
            ((medium self.new).since (medium self.old).moment) }
        // How many bytes were written: all on success. The count of faults rises just where the call fails.
        ensures written { IsTrue told → OnOk result ((medium self.new).written
            ≡ (medium self.old).written + length bytes.now) }
        ensures at_most { (medium self.new).written ≤ (medium self.old).written + length bytes.now }
        ensures time { Elapses (medium self.old) (medium self.new) }
        ensures cause { OnErr result (Rose (medium self.old).faults (medium self.new).faults) }
        ensures passes { OnOk result ((medium self.new).faults ≡ (medium self.old).faults) };

    /// How many bytes the file has.
    fn size(&mut self, file: u32) -> Result<u64, DiskFailed>
        ensures size { IsTrue told → IfOk result (λ n. n ≡ length ((medium self.old).image file)) }
        // No byte changes, and a crash leaves nothing new. The count of faults rises just where the call fails.
        ensures reads { OnlyReads (medium self.old) (medium self.new) }
        ensures time { Elapses (medium self.old) (medium self.new) }
        ensures cause { OnErr result (Rose (medium self.old).faults (medium self.new).faults) }
        ensures passes { OnOk result ((medium self.new).faults ≡ (medium self.old).faults) };

    /// Makes every write so far durable, in all files: afterwards a crash leaves what reads give.
    fn sync(&mut self) -> Result<(), DiskFailed>
        // After a success nothing is pending; after a failure a crash leaves nothing that it would not have left
        // before.
        ensures quiet { OnOk result (Quiet (medium self.new)) }
        ensures failed { OnErr result (OnlyReads (medium self.old) (medium self.new)) }
        // No byte changes. A crash meanwhile leaves what one before or one after does. Faults rise just on a failure.
        ensures writes_nothing { WritesNothing (medium self.old) (medium self.new) }
        ensures time { Elapses (medium self.old) (medium self.new) }
        ensures cause { OnErr result (Rose (medium self.old).faults (medium self.new).faults) }
        ensures passes { OnOk result ((medium self.new).faults ≡ (medium self.old).faults) };

    /// Of each disk: this moment counts among those since an earlier one, since now there is no other, and what reads
    /// give is what some crash leaves.
    ghost lawful: { (disk : Self) → IsLawful told (medium disk) };
}
