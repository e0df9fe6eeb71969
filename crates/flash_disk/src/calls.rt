//! The calls of a disk.

ghost use Rattle.std.specs.Prelude.{◌≡◌, ◌⊎◌, ◌+◌, ◌-◌, ◌*◌, ◌<◌, ◌≤◌, IsTrue, IfOk, OnOk, OnErr, length, take, drop};
ghost use Rattle.std.specs.Prelude.{min};
ghost use Rattle.per_base.specs.Causes.{Rose};
ghost use Rattle.std.specs.Int.{div_ceil};
ghost use Rattle.disk_model.specs.Image.{put_image, TornImage};
ghost use Rattle.disk_model.specs.Case.{Follows, WriteCase, WriteOrNot};
ghost use Rattle.disk_model.specs.Medium.{Quiet, Elapses, OnlyReads, WritesNothing};

use crate::disk::FlashDisk;
use disk_model::{Disk, DiskFailed};
use flash_model::Flash;

impl<F: Flash> Disk for FlashDisk<F> {
    ghost use Rattle.flash_disk.specs.FlashDiskMedium.{flash_disk_medium, disk_seen, ChangesNoPage};
    ghost use Rattle.flash_disk.specs.OwnFaults.{EndsTooLate, WantsTooMany, FailsAlone, IsAllowed, TakesPages};
    ghost use Rattle.flash_disk.specs.Throughout.{KeepsUsable, KeepsAgreed};
    ghost use Rattle.flash_disk.specs.Apart.{copy_of};
    ghost use Rattle.flash_disk.specs.KeepsApart.{KeepsApart};
    ghost use Rattle.flash_disk.specs.Emptied.{HasEmptyBlock};
    ghost use Rattle.flash_disk.specs.FlashDiskLaws.{disk_is_lawful};

    ghost told = { F.told };

    ghost medium = { λ disk. flash_disk_medium F.told (F.medium disk.flash) disk.own disk.written };

    ghost lawful = { λ disk. disk_is_lawful F.told (F.medium disk.flash) disk.own disk.written (F.lawful disk.flash) };

    fn read(&mut self, file: u32, at: u64, out: &mut [u8]) -> Result<usize, DiskFailed>
        ensures count { IfOk result (λ n. n ≤ length out.old) }
        ensures bytes { IsTrue F.told → IfOk result (λ n.
            (n ≡ min (length out.old) (length ((disk_seen F.told F.medium self.old).image file) - at))
            × (take n out.new ≡ take n (drop at ((disk_seen F.told F.medium self.old).image file)))) }
        ensures reads { OnlyReads (disk_seen F.told F.medium self.old) (disk_seen F.told F.medium self.new) }
        ensures time { Elapses (disk_seen F.told F.medium self.old) (disk_seen F.told F.medium self.new) }
        ensures cause { OnErr result (Rose (disk_seen F.told F.medium self.old).faults
            (disk_seen F.told F.medium self.new).faults) }
        ensures passes { OnOk result ((disk_seen F.told F.medium self.new).faults
            ≡ (disk_seen F.told F.medium self.old).faults) }
        ensures unchanged { ChangesNoPage F.told F.medium self.old self.new }
        ensures still { IsTrue F.told → (F.medium self.new.flash).state ≡ (F.medium self.old.flash).state }
    {
        self.layer.make_sure()?;
        self.layer.read_file(file, at, out)
    }

    fn write_at(&mut self, file: u32, at: u64, bytes: &[u8]) -> Result<(), DiskFailed>
        ensures image { IsTrue F.told → OnOk result
            ((disk_seen F.told F.medium self.new).image ≡ put_image (disk_seen F.told F.medium self.old).image file at
            bytes.now) }
        ensures torn { IsTrue F.told → OnErr result
            (TornImage file at (length bytes.now) (disk_seen F.told F.medium self.old).image
            (disk_seen F.told F.medium self.new).image) }
        ensures now { OnOk result (Follows (WriteCase file at bytes.now) (disk_seen F.told F.medium self.old).now
            (disk_seen F.told F.medium self.new).now) }
        ensures during { Follows (WriteOrNot file at bytes.now) (disk_seen F.told F.medium self.old).now
            ((disk_seen F.told F.medium self.new).since (disk_seen F.told F.medium self.old).moment) }
        ensures written { IsTrue F.told → OnOk result
            ((disk_seen F.told F.medium self.new).written ≡ (disk_seen F.told F.medium self.old).written
            + length bytes.now) }
        ensures at_most { (disk_seen F.told F.medium self.new).written
            ≤ (disk_seen F.told F.medium self.old).written + length bytes.now }
        ensures time { Elapses (disk_seen F.told F.medium self.old) (disk_seen F.told F.medium self.new) }
        ensures cause { OnErr result (Rose (disk_seen F.told F.medium self.old).faults
            (disk_seen F.told F.medium self.new).faults) }
        ensures passes { OnOk result ((disk_seen F.told F.medium self.new).faults
            ≡ (disk_seen F.told F.medium self.old).faults) }

        // The disk's own faults, in which the flash did not fail: one at most, and only of a call that fails.
        ensures own { IsTrue F.told → (self.new.own ≡ self.old.own)
            ⊎ ((0 < length bytes.now) × FailsAlone (F.medium self.old.flash) self.new.sequence file at
            (length bytes.now)) }
        ensures kept { OnOk result (self.new.own ≡ self.old.own) }
        ensures one { self.new.own ≤ self.old.own + 1 }
        ensures no_less { self.old.own ≤ self.new.own }

        // It succeeds only within the limits and where there are no rivals, and then adds no more pages than it lacks.
        ensures allowed { IsTrue F.told → OnOk result (0 < length bytes.now
            → IsAllowed (F.medium self.old.flash) file at (length bytes.now)) }
        ensures takes { IsTrue F.told → OnOk result (TakesPages (F.medium self.old.flash) (F.medium self.new.flash) file
            at (length bytes.now)) }

        // A write that ends too far out or needs too many pages changes no page, and one of no bytes changes nothing.
        ensures refused { IsTrue F.told → EndsTooLate at (length bytes.now)
            ⊎ WantsTooMany (F.medium self.old.flash) file at (length bytes.now)
            → (F.medium self.new.flash).state ≡ (F.medium self.old.flash).state }
        ensures nothing { length bytes.now ≡ 0 → self.new ≡ self.old }

        // How many sequence numbers it uses: one for each 256 bytes at least, if it succeeds; at most one for each byte
        // and each page below its end.
        ensures rises { OnOk result (length bytes.now + 256 * self.old.sequence ≤ 256 * self.new.sequence) }
        ensures later { self.old.sequence ≤ self.new.sequence }
        ensures steps { self.new.sequence ≤ self.old.sequence + length bytes.now
            + div_ceil (at + length bytes.now) 256 }

        // At every moment a crash leaves what can be opened, and no rivals come.
        ensures usable { IsTrue F.told → KeepsUsable (F.medium self.old.flash) (F.medium self.new.flash) }
        ensures agreed { IsTrue F.told → KeepsAgreed (F.medium self.old.flash) (F.medium self.new.flash) }

        // One that succeeds leaves a block empty, so that the flash can be opened after any loss of pages.
        ensures empty { IsTrue F.told → OnOk result (0 < length bytes.now
            → HasEmptyBlock (F.medium self.new.flash).state.pages (F.medium self.new.flash).blocks) }

        // Copies that stand apart (in no block records of two count) do so at every moment, if the file's has room.
        ensures apart { IsTrue F.told → KeepsApart (copy_of file) (F.medium self.old.flash) (F.medium self.new.flash) }
    {
        if bytes.is_empty() {
            // So that what is kept of the flash is known here.
            let _ = &self.layer;
            return Ok(());
        }
        self.layer.make_sure()?;
        self.layer.write_file(file, at, bytes)?;
        self.written = with_more(self.written, bytes.len(), self.layer.state.sequence);
        Ok(())
    }

    fn size(&mut self, file: u32) -> Result<u64, DiskFailed>
        ensures size { IsTrue F.told → IfOk result (λ n. n ≡ length ((disk_seen F.told F.medium self.old).image file)) }
        ensures reads { OnlyReads (disk_seen F.told F.medium self.old) (disk_seen F.told F.medium self.new) }
        ensures time { Elapses (disk_seen F.told F.medium self.old) (disk_seen F.told F.medium self.new) }
        ensures cause { OnErr result (Rose (disk_seen F.told F.medium self.old).faults
            (disk_seen F.told F.medium self.new).faults) }
        ensures passes { OnOk result ((disk_seen F.told F.medium self.new).faults
            ≡ (disk_seen F.told F.medium self.old).faults) }
        ensures unchanged { ChangesNoPage F.told F.medium self.old self.new }
        ensures still { IsTrue F.told → (F.medium self.new.flash).state ≡ (F.medium self.old.flash).state }
    {
        self.layer.make_sure()?;
        Ok(self.layer.file_size(file))
    }

    fn sync(&mut self) -> Result<(), DiskFailed>
        ensures quiet { OnOk result (Quiet (disk_seen F.told F.medium self.new)) }
        ensures failed { OnErr result (OnlyReads (disk_seen F.told F.medium self.old)
            (disk_seen F.told F.medium self.new)) }
        ensures writes_nothing { WritesNothing (disk_seen F.told F.medium self.old)
            (disk_seen F.told F.medium self.new) }
        ensures time { Elapses (disk_seen F.told F.medium self.old) (disk_seen F.told F.medium self.new) }
        ensures cause { OnErr result (Rose (disk_seen F.told F.medium self.old).faults
            (disk_seen F.told F.medium self.new).faults) }
        ensures passes { OnOk result ((disk_seen F.told F.medium self.new).faults
            ≡ (disk_seen F.told F.medium self.old).faults) }
        ensures unchanged { ChangesNoPage F.told F.medium self.old self.new }
    {
        self.layer.make_sure()?;
        match self.layer.flash.settle() {
            Ok(()) => Ok(()),
            Err(_) => Err(DiskFailed),
        }
    }
}

// That many bytes more. They can be counted, since each sequence number was used for at most 256.
fn with_more(written: u128, more: usize, _sequence: u64) -> u128
    requires { written + more ≤ 256 * _sequence }
    ensures { result ≡ written + more }
{
    written + more as u128
}
