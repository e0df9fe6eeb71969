//! What was written is noted or, where it is much, synced at once.

ghost use Rattle.std.specs.Prelude.{◌≡◌, ◌⊎◌, ◌↔◌, ℕ, ◌≤◌, ◌<◌, ◌+◌, ◌^◌, IsTrue, IsFalse, length, List, ◌∷◌};
ghost use Rattle.disk_model.specs.Medium.{Elapses, OnlyReads};
ghost use Rattle.system_model.specs.SystemMedium.{InRange, ShowsBytes};
ghost use Rattle.folder_disk.specs.Knows.{Knows};
ghost use Rattle.folder_disk.specs.Held.{HoldsFree, IsHeldByte};

use crate::folder::Folder;
use crate::held::Held;
use crate::notes::{MOST_BYTES, forget, note, noted};
use crate::opened::Opened;
use crate::range::Range;
use crate::syncing::{held_of, put_back, write_back};
use system_model::{Asked, Failure, Part, System};

impl<S: System> Folder<S> {
    /// Notes that these bytes were written from the byte `at` on. Where with them much of the file waits for a sync,
    /// it is synced at once: these bytes are at hand then, and need not be read again before the next sync, which has
    /// nothing left to do for the file.
    pub(crate) fn cover(&mut self, file: u32, at: u64, bytes: &[u8])
        requires knows { Knows S.told (S.medium self.old.system)
            (record { file = file; at = at; len = length bytes.now } ∷ self.old.ranges.items) self.old.is_fresh
            self.old.is_grown self.old.is_lost }
        requires lost { IsFalse self.old.is_lost }
        requires shows { IsTrue S.told → ShowsBytes ((S.medium self.old.system).disk.image file) at bytes.now }
        ensures knows { Knows S.told (S.medium self.new.system) self.new.ranges.items self.new.is_fresh
            self.new.is_grown self.new.is_lost }
        ensures reads { OnlyReads (S.medium self.old.system).disk (S.medium self.new.system).disk }
        ensures time { Elapses (S.medium self.old.system).disk (S.medium self.new.system).disk }
        ensures faults { self.new.faults ≡ self.old.faults }
        ensures written { self.new.written ≡ self.old.written }
    {
        let range = Range {
            file,
            at,
            len: bytes.len() as u64,
        };
        let waiting = noted(self.ranges.as_slice(), file).saturating_add(range.len);
        if waiting < MOST_BYTES || self.is_fresh {
            self.keep(range);
            return;
        }
        match held_of(
            &mut self.system,
            self.alloc,
            Vec::new(self.alloc),
            self.ranges.as_slice(),
            file,
        ) {
            Ok(held) => self.sync_at_once(range, bytes, held.as_slice()),
            Err(_) => self.keep(range),
        }
    }

    /// Syncs the file of a write, these bytes, and of all else that waits in it, which is held. Where that fails both
    /// are written again, and the write is noted.
    fn sync_at_once(&mut self, range: Range, bytes: &[u8], held: &[Held])
        requires knows { Knows S.told (S.medium self.old.system) (range ∷ self.old.ranges.items) self.old.is_fresh
            self.old.is_grown self.old.is_lost }
        requires lost { IsFalse self.old.is_lost }
        requires holds { IsTrue S.told → HoldsFree (S.medium self.old.system) range.file held.now }
        requires all { IsTrue S.told → (i : ℕ) → (S.medium self.old.system).free range.file i
            → IsHeldByte held.now i ⊎ InRange range.at (length bytes.now) i }
        requires free { IsTrue S.told → (i : ℕ) → InRange range.at (length bytes.now) i
            → (S.medium self.old.system).free range.file i }
        requires shows { IsTrue S.told
            → ShowsBytes ((S.medium self.old.system).disk.image range.file) range.at bytes.now }
        ensures knows { Knows S.told (S.medium self.new.system) self.new.ranges.items self.new.is_fresh
            self.new.is_grown self.new.is_lost }
        ensures reads { OnlyReads (S.medium self.old.system).disk (S.medium self.new.system).disk }
        ensures time { Elapses (S.medium self.old.system).disk (S.medium self.new.system).disk }
        ensures faults { self.new.faults ≡ self.old.faults }
        ensures written { self.new.written ≡ self.old.written }
    {
        match self.system.sync_file(range.file) {
            Ok(()) => forget(&mut self.ranges, range.file),
            Err(error) => {
                self.failure = Some(Failure {
                    asked: Asked::Sync,
                    part: Part::File(range.file),
                    error,
                });
                let is_back = put_all_back(&mut self.system, range.file, range.at, bytes, held);
                self.is_lost = !is_back;
                self.keep(range);
            }
        }
    }

    /// Notes that a range was written. Where there is no memory for it, no write is known to be noted.
    fn keep(&mut self, range: Range)
        requires { Knows S.told (S.medium self.old.system) (range ∷ self.old.ranges.items) self.old.is_fresh
            self.old.is_grown self.old.is_lost }
        ensures knows { Knows S.told (S.medium self.new.system) self.new.ranges.items self.new.is_fresh
            self.new.is_grown self.new.is_lost }
        ensures system { self.new.system ≡ self.old.system }
        ensures faults { self.new.faults ≡ self.old.faults }
        ensures written { self.new.written ≡ self.old.written }
    {
        if !note(&mut self.ranges, range) {
            self.is_fresh = true;
        }
    }
}

/// Writes once more what was held and these bytes, from the byte `at` on, and says whether all of it was written.
fn put_all_back<S: System>(
    system: &mut Opened<S>,
    file: u32,
    at: u64,
    bytes: &[u8],
    held: &[Held],
) -> bool
    requires holds { IsTrue S.told → HoldsFree (S.medium system.old) file held.now }
    requires free { IsTrue S.told → (i : ℕ) → InRange at (length bytes.now) i → (S.medium system.old).free file i }
    requires shows { IsTrue S.told → ShowsBytes ((S.medium system.old).disk.image file) at bytes.now }
    ensures reads { OnlyReads (S.medium system.old).disk (S.medium system.new).disk }
    ensures time { Elapses (S.medium system.old).disk (S.medium system.new).disk }
    ensures named { (f : ℕ) → (S.medium system.old).named f → (S.medium system.new).named f }
    ensures free { IsTrue S.told → (f i : ℕ) → (S.medium system.new).free f i ↔ (S.medium system.old).free f i }
    ensures lost { (f i : ℕ) → (S.medium system.new).lost f i → (S.medium system.old).lost f i }
    ensures found { IsTrue S.told → IsTrue result → (i : ℕ)
        → IsHeldByte held.now i ⊎ InRange at (length bytes.now) i → ¬ ((S.medium system.new).lost file i) }
{
    if !put_back(system, file, held) {
        return false;
    }
    write_back(system, file, at, bytes)
}
