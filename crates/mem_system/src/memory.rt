//! A system in memory.

ghost use Rattle.std.specs.Prelude.{◌≡◌, IfOk, OnOk, OnErr, IsTrue, Vec, ℕ, []};
ghost use Rattle.disk_model.specs.History.{image_of};
ghost use Rattle.mem_system.specs.History.{state_after, IsNoWrite, DropNothing};
ghost use Rattle.mem_system.specs.declared.record.Call.{Call};

use crate::device::Device;
use crate::files::{Files, add, bytes_of, copy_of, has, numbers_of, put, read_from};
use crate::record::Call;
use crate::trouble::{Calls, Course, Trouble};
use crate::unreadable::{Stretch, readable_from, unreadable_from, zeros_from};
use std::alloc::{AllocError, Global};
use std::collections::BTreeMap;
use std::io;
use system_model::{Reading, System};

/// How many bytes one call reads or writes at most.
const MOST_BYTES: usize = 4096;

/// A file of a system in memory that is open.
#[derive(Drop)]
pub struct MemFile {
    pub(crate) number: u32,
}

/// The files of a folder, in memory. It keeps a record of the calls that changed or noted something, with which it can
/// tell what a power loss leaves after each of them.
#[derive(Drop)]
pub struct MemSystem {
    alloc: Global,
    /// The files as the record begins; all of them durable.
    start: Files,
    history: Vec<Call>,
    files: Files,
    unreadable: Vec<Stretch>,
    calls: Calls,
    ghost tied: { image_of files ≡ (state_after (image_of start) history.items).image },
}

impl MemSystem {
    ghost use Rattle.mem_system.specs.Memory.{mem_medium, SameRecord, AddsCall};
    ghost use Rattle.system_model.specs.SystemMedium.{IsWhole, Looks};

    /// An empty folder.
    pub fn new(alloc: Global) -> MemSystem {
        MemSystem {
            alloc,
            start: BTreeMap::new(alloc),
            history: Vec::new(alloc),
            files: BTreeMap::new(alloc),
            unreadable: Vec::new(alloc),
            calls: Calls::new(Trouble::Nothing),
        }
    }

    /// Sets what the calls to come meet: which of them fail. They are counted from 0 again.
    pub fn set_trouble(&mut self, trouble: Trouble) {
        self.calls = Calls::new(trouble);
    }

    /// How many calls were made since a trouble was set, up to the greatest u64.
    pub fn calls(&self) -> u64 {
        self.calls.calls()
    }

    /// How many of them were syncs.
    pub fn syncs(&self) -> u64 {
        self.calls.syncs()
    }

    /// How many calls changed or noted something since the record began: when the folder was made, spoiled or started
    /// again, or power was lost.
    pub fn changes(&self) -> usize {
        self.history.len()
    }

    /// The bytes of the file of this number; none where there is no such file.
    pub fn bytes(&self, file: u32) -> &[u8] {
        bytes_of(&self.files, file)
    }

    /// Whether both have the same files with the same bytes.
    pub fn is_like(&self, other: &MemSystem) -> bool {
        self.files == other.files
    }

    /// Whether no write was lost by a failed sync: no sync of a file failed since the record of changes began.
    pub fn is_whole(&self) -> bool
        ensures { IsTrue result → (f : ℕ) → IsWhole (mem_medium self.now) f }
    {
        drops_nothing(self.history.as_slice())
    }

    /// Makes `len` bytes of a file from `at` on, as far as it has them, unreadable until they are written; who reads on
    /// after them takes them for zeros. Nothing of the folder may be pending: what is counts as durable from here on.
    pub fn spoil(&mut self, file: u32, at: u64, len: u64) -> Result<(), AllocError> {
        let there = (self.bytes(file).len() as u64).saturating_sub(at);
        let stretch = Stretch {
            file,
            at,
            len: len.min(there),
        };
        let mut files = copy_of(&self.files)?;
        blank(&mut files, stretch);
        let start = copy_of(&files)?;
        self.unreadable.push(stretch)?;
        self.start = start;
        self.history.clear();
        self.files = files;
        Ok(())
    }

    /// The same folder in a new process, with nothing pending. It is to be so: what is pending counts as durable.
    pub fn restarted(&self) -> Result<MemSystem, AllocError> {
        MemSystem::holding(self.alloc, copy_of(&self.files)?, self.unreadable.clone()?)
    }

    /// The folder after a power loss after this number of changes, which are counted as by `changes`. Of each write
    /// that was not synced there, two bits of the seed, from the lowest on and over again after 32 writes, say what is
    /// left: nothing, all, the first half or the second; of each name that was not, whether it is. What a sync failed
    /// to write is lost.
    pub fn power_loss(&self, changes: usize, seed: u64) -> Result<MemSystem, AllocError> {
        let mut device = Device::new(self.alloc, &self.start)?;
        device.replay(self.history.get(..changes).unwrap_or(&self.history))?;
        MemSystem::holding(self.alloc, device.left(seed)?, self.unreadable.clone()?)
    }

    /// A folder of these files, with nothing pending.
    fn holding(
        alloc: Global,
        files: Files,
        unreadable: Vec<Stretch>,
    ) -> Result<MemSystem, AllocError> {
        Ok(MemSystem {
            alloc,
            start: copy_of(&files)?,
            history: Vec::new(alloc),
            files,
            unreadable,
            calls: Calls::new(Trouble::Nothing),
        })
    }

    /// Counts a call, and fails where it is to.
    fn enter(&mut self) -> io::Result<()>
        ensures same { SameRecord self.old self.new }
        ensures looks { Looks (mem_medium self.old) (mem_medium self.new) }
    {
        match self.calls.next() {
            Course::Passes => Ok(()),
            Course::Fails | Course::IsOver => Err(device_error()),
        }
    }

    /// Notes a call that changes no byte.
    fn note(&mut self, call: Call) -> io::Result<()>
        requires { IsNoWrite call }
        ensures ok { OnOk result (AddsCall call self.old self.new) }
        ensures err { OnErr result (SameRecord self.old self.new) }
        ensures looks { OnErr result (Looks (mem_medium self.old) (mem_medium self.new)) }
    {
        match self.history.push(call) {
            Ok(()) => Ok(()),
            Err(_) => Err(no_memory()),
        }
    }

    /// Writes, and notes it; what fails changes nothing.
    fn put(&mut self, file: u32, at: u64, bytes: &[u8]) -> Result<(), AllocError>
        ensures ok { OnOk result ((copy : Vec ℕ Global) × (copy.items ≡ bytes.now)
            × AddsCall (Call.Write file at copy) self.old self.new) }
        ensures err { OnErr result (SameRecord self.old self.new) }
        ensures looks { OnErr result (Looks (mem_medium self.old) (mem_medium self.new)) }
    {
        self.history
            .push(Call::Write(file, at, Vec::from_slice(self.alloc, bytes)?))?;
        match put(self.alloc, &mut self.files, file, at, bytes) {
            Ok(()) => Ok(()),
            Err(error) => {
                self.history.pop();
                Err(error)
            }
        }
    }

    /// Makes a file that is not there, and notes it; what fails changes nothing.
    fn add(&mut self, file: u32) -> Result<(), AllocError>
        requires { image_of self.old.files file ≡ [] }
        ensures ok { OnOk result (AddsCall (Call.Make file) self.old self.new) }
        ensures err { OnErr result (SameRecord self.old self.new) }
        ensures looks { OnErr result (Looks (mem_medium self.old) (mem_medium self.new)) }
    {
        self.history.push(Call::Make(file))?;
        match add(self.alloc, &mut self.files, file) {
            Ok(()) => Ok(()),
            Err(error) => {
                self.history.pop();
                Err(error)
            }
        }
    }
}

/// Whether no call failed to sync a file.
fn drops_nothing(calls: &[Call]) -> bool
    ensures { IsTrue result → DropNothing calls.now }
{
    for call in calls {
        if let Call::FailSync(_) = call {
            return false;
        }
    }
    true
}

/// Makes the bytes of a stretch zeros.
fn blank(files: &mut Files, stretch: Stretch) {
    if let Some(bytes) = files.get_mut(&stretch.file) {
        for byte in bytes
            .iter_mut()
            .skip(stretch.at as usize)
            .take(stretch.len as usize)
        {
            *byte = 0;
        }
    }
}

impl System for MemSystem {
    ghost use Rattle.std.specs.Prelude.{true};
    ghost use Rattle.mem_system.specs.HistoryLaws.{folder_is_lawful, folder_saves};
    ghost use Rattle.mem_system.specs.Memory.{mem_medium};

    type File = MemFile;

    ghost number = { λ file. file.number };

    ghost told = { true };

    ghost medium = { mem_medium };

    ghost lawful = { λ system. folder_is_lawful (image_of system.start) system.history.items };

    ghost saves = { λ system _. folder_saves (image_of system.start) system.history.items };

    fn list(&mut self, alloc: Global) -> io::Result<Vec<u32>> {
        self.enter()?;
        let numbers = numbers_of(alloc, &self.files)?;
        Ok(numbers)
    }

    fn is_file(&mut self, file: u32) -> io::Result<bool> {
        self.enter()?;
        Ok(has(&self.files, file))
    }

    fn open(&mut self, file: u32) -> io::Result<Option<MemFile>> {
        self.enter()?;
        if has(&self.files, file) {
            Ok(Some(MemFile { number: file }))
        } else {
            Ok(None)
        }
    }

    fn set_aside(&mut self, _file: u32) -> io::Result<()> {
        self.enter()?;
        Err(io::Error::from(io::ErrorKind::AlreadyExists))
    }

    fn make(&mut self, file: u32) -> io::Result<MemFile> {
        self.enter()?;
        if has(&self.files, file) {
            return Err(io::Error::from(io::ErrorKind::AlreadyExists));
        }
        self.add(file)?;
        Ok(MemFile { number: file })
    }

    fn close(&mut self, _file: MemFile) {}

    fn read(&mut self, file: &MemFile, at: u64, out: &mut [u8]) -> io::Result<Reading> {
        self.enter()?;
        let number = file.number;
        let bytes = bytes_of(&self.files, number);
        let unreadable = unreadable_from(&self.unreadable, number, at);
        let zeros = zeros_from(bytes, at, unreadable);
        if zeros > 0 {
            return Ok(Reading::Unreadable(zeros as usize));
        }
        let readable = readable_from(&self.unreadable, number, at) as usize;
        let count = out.len().min(MOST_BYTES).min(readable);
        Ok(Reading::Bytes(read_from(bytes, at, &mut out[..count])))
    }

    fn length(&mut self, file: &MemFile) -> io::Result<u64> {
        self.enter()?;
        Ok(bytes_of(&self.files, file.number).len() as u64)
    }

    fn write(&mut self, file: &MemFile, at: u64, bytes: &[u8]) -> io::Result<usize> {
        self.enter()?;
        let count = bytes.len().min(MOST_BYTES);
        self.put(file.number, at, &bytes[..count])?;
        let written = Stretch {
            file: file.number,
            at,
            len: count as u64,
        };
        self.unreadable.retain(|stretch| !stretch.meets(written));
        Ok(count)
    }

    fn sync_file(&mut self, file: &MemFile) -> io::Result<()> {
        match self.calls.next_sync() {
            Course::Passes => {
                self.note(Call::Sync(file.number))?;
                Ok(())
            }
            Course::Fails => {
                self.note(Call::FailSync(file.number))?;
                Err(device_error())
            }
            Course::IsOver => Err(device_error()),
        }
    }

    fn sync_folder(&mut self) -> io::Result<()> {
        match self.calls.next_sync() {
            Course::Passes => {
                self.note(Call::SyncFolder)?;
                Ok(())
            }
            Course::Fails | Course::IsOver => Err(device_error()),
        }
    }

    fn announce(&mut self, file: u32, at: u64, bytes: &[u8]) -> io::Result<()> {
        if self.calls.is_over() {
            return Err(device_error());
        }
        let copy = Vec::from_slice(self.alloc, bytes)?;
        self.note(Call::Announce(file, at, copy))?;
        Ok(())
    }

    fn settle(&mut self) -> io::Result<()> {
        if self.calls.is_over() {
            return Err(device_error());
        }
        self.note(Call::Settle)?;
        Ok(())
    }
}

/// The number of the error of a device that cannot do what it is asked.
const DEVICE_ERROR: i32 = 5;

/// The error of a call that a trouble lets fail.
fn device_error() -> io::Error {
    io::Error::from_raw_os_error(DEVICE_ERROR)
}

/// The error of a call for which memory ran out.
fn no_memory() -> io::Error {
    io::Error::from(io::ErrorKind::OutOfMemory)
}
