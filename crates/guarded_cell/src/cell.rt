//! A register in use, and writing its next text.

ghost use Rattle.guarded_cell.specs.Differing.{IsOver};
ghost use Rattle.std.specs.Prelude.{◌≡◌, ◌≤◌, ◌<◌, ◌+◌, ◌^◌, ℕ, List, IsTrue, IfOk, IfErr, OnOk, length};
ghost use Rattle.per_base.specs.Causes.{Rose};
ghost use Rattle.per_base.specs.Faults.{HandsBack, IsDeviceFault};
ghost use Rattle.hash_guard.specs.SealedText.{max_body, header, sealed};
ghost use Rattle.disk_model.specs.Medium.{Quiet};
ghost use Rattle.guarded_cell.specs.Changes.{PutsText};
ghost use Rattle.guarded_cell.specs.Faults.{DiskFaults};

use crate::replacing::replace;
use crate::slots::MAX_COPIES;
use disk_model::{Disk, DiskFailed, Place};
use hash_guard::{HEADER, seal_into};
use per_base::Fault;
use std::alloc::{AllocError, Global};

/// A register in use on its disk: where it is, and under which generation each of its copies holds its text.
#[derive(Debug, Drop)]
pub struct Cell {
    place: Place,
    generation: u64,
}

impl Cell {
    ghost use Rattle.guarded_cell.specs.Cells.{place_of, generation_of, CellAt, IsCellOf};

    // The cell of this place and generation.
    pub(crate) fn new(place: Place, generation: u64) -> Cell
        ensures { IsCellOf place generation result }
    {
        Cell { place, generation }
    }

    /// The generation of the text. Does not allocate.
    pub fn generation(&self) -> u64
        ensures { result ≡ generation_of self.now }
    {
        self.generation
    }

    /// A buffer in which [`Cell::write_in`] seals a text of `len` bytes later: as long as a header and the text.
    pub fn room(alloc: Global, len: usize) -> Result<Vec<u8>, AllocError>
        requires { len ≤ max_body }
        ensures { IfOk result (λ room. length room.items ≡ header + len) }
    {
        let room = vec![in alloc; 0; HEADER + len]?;
        Ok(room)
    }

    /// Writes the next text: under the next generation over the other slots of all copies, which is made durable, and
    /// then the old slots are blanked, which is made durable too.
    ///
    /// # Errors
    ///
    /// `OutOfMemory` hands the cell back before any call of the disk. `Device` closes the cell: it is to be opened
    /// again.
    pub fn write<D: Disk>(
        self,
        alloc: Global,
        disk: &mut D,
        text: &[u8],
    ) -> Result<Cell, Fault<Cell>>
        // The text is not too long, a next generation is left in a u64, and every copy holds some text t alone, as the
        // last call on the cell left it.
        requires short { length text.now ≤ max_body }
        requires generation { generation_of self + 1 < 2 ^ 64 }
        requires held { IsTrue D.told → (t : List ℕ) × CellAt (D.medium disk.old).image self t }

        // The cell goes on under the next generation, every copy holds the text alone, and nothing is pending.
        ensures next { IfOk result (IsCellOf (place_of self) (generation_of self + 1)) }
        ensures held { IsTrue D.told → IfOk result (λ cell. CellAt (D.medium disk.new).image cell text.now) }
        ensures quiet { OnOk result (Quiet (D.medium disk.new)) }

        // Running out of memory hands the cell back, and then nothing happened. Only a disk that failed closes the
        // cell: then its count of faults rose, and it stayed where the call succeeded.
        ensures memory { IfErr result (λ fault. HandsBack self fault (disk.new ≡ disk.old)) }
        ensures cause { IfErr result (λ fault. IsDeviceFault fault
            → Rose (D.medium disk.old).faults (D.medium disk.new).faults) }
        ensures passes { OnOk result ((D.medium disk.new).faults ≡ (D.medium disk.old).faults) }

        // In every copy one slot took the sealed text and the other a blank. Only slots of the place change, and a stop
        // at any moment leaves the old text or the new one.
        ensures over { IsTrue D.told → OnOk result (IsOver (place_of self) (generation_of self + 1)
            (sealed (generation_of self + 1) text.now) (D.medium disk.old).image (D.medium disk.new).image) }
        ensures puts { PutsText D.told (place_of self) (generation_of self + 1) text.now (D.medium disk.old)
            (D.medium disk.new) }
    {
        match Cell::room(alloc, text.len()) {
            Err(_) => Err(Fault::OutOfMemory(self)),
            Ok(mut room) => match self.write_in(disk, text, &mut room) {
                Ok(cell) => Ok(cell),
                Err(_) => Err(Fault::Device),
            },
        }
    }

    /// Writes the next text as [`Cell::write`] does, in room that [`Cell::room`] made. It does not allocate, and a
    /// failure of the disk closes the cell.
    pub fn write_in<D: Disk>(
        self,
        disk: &mut D,
        text: &[u8],
        room: &mut [u8],
    ) -> Result<Cell, DiskFailed>
        // The text is not too long, a next generation is left in a u64, and every copy holds some text t alone, as the
        // last call on the cell left it.
        requires short { length text.now ≤ max_body }
        requires room { length room.old ≡ header + length text.now }
        requires generation { generation_of self + 1 < 2 ^ 64 }
        requires held { IsTrue D.told → (t : List ℕ) × CellAt (D.medium disk.old).image self t }

        // The cell goes on under the next generation, every copy holds the text alone, and nothing is pending.
        ensures next { IfOk result (IsCellOf (place_of self) (generation_of self + 1)) }
        ensures held { IsTrue D.told → IfOk result (λ cell. CellAt (D.medium disk.new).image cell text.now) }
        ensures quiet { OnOk result (Quiet (D.medium disk.new)) }
        ensures faults { DiskFaults result (D.medium disk.old) (D.medium disk.new) }

        // In every copy one slot took the sealed text and the other a blank. Only slots of the place change, and a stop
        // at any moment leaves the old text or the new one.
        ensures over { IsTrue D.told → OnOk result (IsOver (place_of self) (generation_of self + 1)
            (sealed (generation_of self + 1) text.now) (D.medium disk.old).image (D.medium disk.new).image) }
        ensures puts { PutsText D.told (place_of self) (generation_of self + 1) text.now (D.medium disk.old)
            (D.medium disk.new) }
    {
        let all = [true; MAX_COPIES];
        let next = self.generation + 1;
        seal_into(room, next, text);
        replace(disk, self.place, next, text, room, &all, &all)?;
        Ok(Cell::new(self.place, next))
    }
}
