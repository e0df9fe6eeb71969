//! The trait of a system: the calls for the files of one folder, and what each says of bytes, names and power losses.

ghost use Rattle.std.specs.Prelude.{◌≡◌, ◌≢◌, ◌⊎◌, ◌↔◌, ℕ, ◌≤◌, ◌+◌, Bool, IsTrue, IsFalse, IfOk, OnOk, OnErr};
ghost use Rattle.std.specs.Prelude.{IfSome, IfNone, [], length, take, Contains};
ghost use Rattle.disk_model.specs.Image.{put_image};
ghost use Rattle.disk_model.specs.Case.{Case, Follows};
ghost use Rattle.disk_model.specs.Medium.{Quiet, IsLawful, Elapses, OnlyReads, WritesNothing};
ghost use Rattle.system_model.specs.SystemMedium.{SystemMedium, IsSafe, IsWhole, HasNothingFree, InRange, ShowsBytes};
ghost use Rattle.system_model.specs.SystemMedium.{Looks, SavesFiles};
ghost use Rattle.system_model.specs.SystemMedium.{AnnounceCase, TearCase, IsAbsent, read_count, ReadGives};

use crate::reading::Reading;
use std::alloc::Global;
use std::io;

/// The files of one folder, named by numbers, as the operating system has them. Bytes of a file are counted from 0. A
/// byte is *free* while no sync since its last write covered it, and *lost* where a failed sync may have dropped it. A
/// name is *durable* once every power loss leaves it. What is said of bytes and of power losses holds where the system
/// models them (`told`). A call that fails may be interrupted, or find no descriptor left: then it did nothing, as any
/// other that fails, but for syncs.
///
/// In the clauses f is the number of a file, i that of a byte in it, n how many bytes, and c a case of a power loss.
/// `Looks` says of a call that it changed no byte, and that no power loss leaves anything new; the clauses `time`, that
/// neither the clock goes back nor the counts of failures and of written bytes.
pub trait System {
    /// A file that is open.
    type File: Drop;

    /// The number of the file.
    ghost number: { Self.File → ℕ };

    /// Whether the bytes of a system of this type are modelled.
    ghost told: { Bool };

    /// What reads give, what a power loss may leave, which names are durable, and which bytes are free or lost.
    ghost medium: { Self → SystemMedium };

    /// The numbers of the files that the folder has: of any other neither reads nor a power loss give a byte. It
    /// changes nothing.
    fn list(&mut self, alloc: Global) -> io::Result<Vec<u32>>
        ensures others { IsTrue told → IfOk result (λ files. (f : ℕ) → ¬ (Contains files.items f)
            → IsAbsent (medium self.new) f) }
        ensures looks { Looks (medium self.old) (medium self.new) };

    /// Whether the folder has a file of this number: `false` only where none stands in its place. What stands there
    /// instead, as a pipe, may hold up whoever opens it.
    fn is_file(&mut self, file: u32) -> io::Result<bool>
        ensures absent { IsTrue told → IfOk result (λ is. IsFalse is → IsAbsent (medium self.new) file) }
        ensures looks { Looks (medium self.old) (medium self.new) };

    /// Opens the file of this number for reading and writing, if the folder has it.
    fn open(&mut self, file: u32) -> io::Result<Option<Self::File>>
        ensures number { IfOk result (λ found. IfSome found (λ it. number it ≡ file)) }
        ensures absent { IsTrue told → IfOk result (λ found. IfNone found (IsAbsent (medium self.new) file)) }
        ensures looks { Looks (medium self.old) (medium self.new) };

    /// Gives what stands in the place of the file of this number, and cannot be read as one, another name. Of the file
    /// no byte may be read.
    fn set_aside(&mut self, file: u32) -> io::Result<()>
        requires { IsTrue told → (medium self.old).disk.image file ≡ [] }
        ensures looks { Looks (medium self.old) (medium self.new) };

    /// Makes the file of this number, which the folder does not have, and opens it; no byte changes. Its name is
    /// durable after `sync_folder`.
    fn make(&mut self, file: u32) -> io::Result<Self::File>
        ensures number { IfOk result (λ it. number it ≡ file) }
        ensures reads { OnlyReads (medium self.old).disk (medium self.new).disk }
        ensures time { Elapses (medium self.old).disk (medium self.new).disk }
        ensures free { (f i : ℕ) → (medium self.new).free f i ↔ (medium self.old).free f i }
        ensures lost { (f i : ℕ) → (medium self.new).lost f i → (medium self.old).lost f i };

    /// Closes the file. Nothing of it may be free: an error of the device when it is written there later would reach
    /// nobody.
    fn close(&mut self, file: Self::File)
        requires { IsTrue told → HasNothingFree (medium self.old) (number file) }
        ensures looks { Looks (medium self.old) (medium self.new) };

    /// Reads some bytes of the file from `at` on into `out`, none only at its end or without room. They are those of
    /// the file if nothing of it is lost.
    fn read(&mut self, file: &Self::File, at: u64, out: &mut [u8]) -> io::Result<Reading>
        ensures count { IfOk result (λ reading. read_count reading ≤ length out.old) }
        ensures gives { IsTrue told → IsWhole (medium self.old) (number file.now) → IfOk result (λ reading.
            ReadGives ((medium self.old).disk.image (number file.now)) at (length out.old) out.new reading) }
        ensures looks { Looks (medium self.old) (medium self.new) };

    /// How many bytes the file has.
    fn length(&mut self, file: &Self::File) -> io::Result<u64>
        ensures length { IsTrue told → IfOk result (λ n.
            n ≡ length ((medium self.old).disk.image (number file.now))) }
        ensures looks { Looks (medium self.old) (medium self.new) };

    /// Writes the bytes from `at` on, or some of the first of them, and says how many. Where it fails no byte is
    /// written.
    fn write(&mut self, file: &Self::File, at: u64, bytes: &[u8]) -> io::Result<usize>
        // The first n bytes are written, and a power loss may leave any part of them, and meanwhile of all the bytes.
        ensures count { IfOk result (λ n. n ≤ length bytes.now) }
        ensures image { IsTrue told → IfOk result (λ n. (medium self.new).disk.image
            ≡ put_image (medium self.old).disk.image (number file.now) at (take n bytes.now)) }
        ensures now { IfOk result (λ n. Follows (TearCase (number file.now) at n) (medium self.old).disk.now
            (medium self.new).disk.now) }
        ensures during { Follows (TearCase (number file.now) at (length bytes.now)) (medium self.old).disk.now
            ((medium self.new).disk.since (medium self.old).disk.moment) }
        ensures time { Elapses (medium self.old).disk (medium self.new).disk }
        ensures named { (f : ℕ) → (medium self.old).named f → (medium self.new).named f }
        ensures failed { OnErr result (Looks (medium self.old) (medium self.new)) }

        // What is written is free and not lost, and nothing else becomes so.
        ensures frees { IsTrue told → IfOk result (λ n. (f i : ℕ) → (medium self.new).free f i
            ↔ ((medium self.old).free f i ⊎ ((f ≡ number file.now) × InRange at n i))) }
        ensures lost { (f i : ℕ) → (medium self.new).lost f i → (medium self.old).lost f i }
        ensures found { IsTrue told → IfOk result (λ n. (i : ℕ) → InRange at n i
            → ¬ ((medium self.new).lost (number file.now) i)) }

        // To write once more what is there, and is free anyway, adds nothing to what a power loss may leave.
        ensures again { (IsTrue told → (i : ℕ) → InRange at (length bytes.now) i
            → (medium self.old).free (number file.now) i)
            → (IsTrue told → ShowsBytes ((medium self.old).disk.image (number file.now)) at bytes.now)
            → OnlyReads (medium self.old).disk (medium self.new).disk };

    /// Makes the bytes of the file durable, whoever wrote them, if nothing of it is lost. Its name need not be durable
    /// yet. Where it fails, what was free of it may be lost.
    fn sync_file(&mut self, file: &Self::File) -> io::Result<()>
        // A sync that succeeds: of a file of which nothing is lost nothing is free any more. Nothing becomes lost, and
        // of other files nothing becomes free.
        ensures still { IsTrue told → OnOk result (IsWhole (medium self.old) (number file.now)
            → HasNothingFree (medium self.new) (number file.now)) }
        ensures kept { IsTrue told → OnOk result ((f i : ℕ) → (medium self.new).lost f i
            → (medium self.old).lost f i) }
        ensures others { IsTrue told → (f i : ℕ) → f ≢ number file.now
            → ((medium self.new).lost f i → (medium self.old).lost f i)
            × ((medium self.new).free f i ↔ (medium self.old).free f i) }

        // A sync that fails: what was free of the file stays free, and may be lost. Nothing becomes free by any sync.
        ensures failed { IsTrue told → OnErr result ((i : ℕ)
            → ((medium self.new).free (number file.now) i ↔ (medium self.old).free (number file.now) i)
            × ((medium self.new).lost (number file.now) i
            → (medium self.old).free (number file.now) i ⊎ (medium self.old).lost (number file.now) i)) }
        ensures no_more { IsTrue told → (f i : ℕ) → (medium self.new).free f i → (medium self.old).free f i }
        ensures named { (f : ℕ) → (medium self.old).named f → (medium self.new).named f }
        ensures reads { OnlyReads (medium self.old).disk (medium self.new).disk }
        ensures time { Elapses (medium self.old).disk (medium self.new).disk };

    /// Makes the names of all files of the folder durable. Where it fails, no later call is known to do so, and nothing
    /// that was written can be relied on.
    fn sync_folder(&mut self) -> io::Result<()>
        ensures names { OnOk result ((f : ℕ) → (medium self.new).named f) }
        ensures looks { OnOk result (Looks (medium self.old) (medium self.new)) }
        ensures named { (f : ℕ) → (medium self.old).named f → (medium self.new).named f }
        ensures free { (f i : ℕ) → (medium self.new).free f i ↔ (medium self.old).free f i }
        ensures reads { OnlyReads (medium self.old).disk (medium self.new).disk }
        ensures time { Elapses (medium self.old).disk (medium self.new).disk };

    /// Notes that the writes to come serve this one write of a disk, of these bytes from `at` on, so that the disk can
    /// say of it that it is done whole or torn. It changes no byte; an operating system has nothing to do.
    fn announce(&mut self, file: u32, at: u64, bytes: &[u8]) -> io::Result<()>
        ensures image { (medium self.new).disk.image ≡ (medium self.old).disk.image }
        ensures now { OnOk result (Follows (AnnounceCase file at bytes.now) (medium self.old).disk.now
            (medium self.new).disk.now) }
        ensures during { (c : Case) → (medium self.new).disk.since (medium self.old).disk.moment c
            → (medium self.old).disk.now c ⊎ (medium self.new).disk.now c }
        ensures time { Elapses (medium self.old).disk (medium self.new).disk }
        ensures named { (f : ℕ) → (medium self.old).named f → (medium self.new).named f }
        ensures free { (f i : ℕ) → (medium self.new).free f i ↔ (medium self.old).free f i }
        ensures lost { (f i : ℕ) → (medium self.new).lost f i → (medium self.old).lost f i }
        ensures failed { OnErr result (Looks (medium self.old) (medium self.new)) };

    /// Notes that all that was announced is durable, as it is when a power loss leaves of every file what reads give.
    /// It changes no byte; an operating system has nothing to do.
    fn settle(&mut self) -> io::Result<()>
        requires { IsTrue told → (f : ℕ) → IsSafe (medium self.old).disk f }
        ensures quiet { OnOk result (Quiet (medium self.new).disk) }
        ensures writes_nothing { WritesNothing (medium self.old).disk (medium self.new).disk }
        ensures time { Elapses (medium self.old).disk (medium self.new).disk }
        ensures named { (f : ℕ) → (medium self.old).named f → (medium self.new).named f }
        ensures free { (f i : ℕ) → (medium self.new).free f i ↔ (medium self.old).free f i }
        ensures lost { (f i : ℕ) → (medium self.new).lost f i → (medium self.old).lost f i }
        ensures failed { OnErr result (Looks (medium self.old) (medium self.new)) };

    /// A folder obeys the laws of a disk.
    ghost lawful: { (system : Self) → IsLawful told (medium system).disk };

    /// A power loss leaves a file whose bytes and whose name are durable, whichever of both was made so first.
    ghost saves: { (system : Self) → IsTrue told → SavesFiles (medium system) };
}
