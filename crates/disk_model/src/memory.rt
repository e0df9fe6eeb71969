//! A disk in memory, which fails, stops, takes damage and crashes as planned.

ghost use Rattle.std.specs.Prelude.{◌≡◌, ◌≤◌, ◌<◌, ◌+◌, ◌-◌, ◌==◌, ◌↔◌, ◌++◌, ◌∷◌, [], MatchResult, Vec, ℕ, true};
ghost use Rattle.std.specs.Prelude.{false, IsTrue, IfOk, OnOk, OnErr, is_err, nat_le, length, take, drop, min};
ghost use Rattle.std.specs.Prelude.{slice_set, if◌then◌else◌};
ghost use Rattle.std.specs.Bool.{OnTrue, OnFalse};
ghost use Rattle.per_base.specs.Causes.{Rose};
ghost use Rattle.disk_model.specs.Image.{put_image, TornImage};
ghost use Rattle.disk_model.specs.Case.{WriteCase, WriteOrNot, Follows, Reaches};
ghost use Rattle.disk_model.specs.Medium.{Quiet, IsOutcome, Elapses, OnlyReads, WritesNothing};
ghost use Rattle.disk_model.specs.History.{WrittenFiles, image_of, start_image, image_after, IsNoWrite};
ghost use Rattle.disk_model.specs.declared.history.Call.{Call};

use crate::disk::{Disk, DiskFailed};
use crate::history::{
    Call, WrittenFiles, begun, bytes_of, copy_of, put, read_from, replay, replay_torn, set_byte,
    synced,
};
use crate::orders::Orders;
use std::alloc::{AllocError, Global};
use std::collections::BTreeMap;

/// A disk in memory. All of its bytes are modelled, and it keeps a record of its calls, so that it answers for every
/// moment.
#[derive(Drop)]
pub struct MemDisk {
    alloc: Global,
    /// The files as the record begins, once a write has changed them.
    start: Option<WrittenFiles>,
    /// The calls that succeeded.
    calls: Vec<Call>,
    files: WrittenFiles,
    orders: Orders,
    written: u64,
    ghost tied: { image_of files ≡ image_after calls.items (start_image files start) },
}

impl MemDisk {
    ghost use Rattle.disk_model.specs.Orders.{named_in};
    ghost use Rattle.disk_model.specs.Memory.{mem_medium, starved_count, synced_image, torn_image, is_planned};
    ghost use Rattle.disk_model.specs.Memory.{is_stopped, IsFresh, IsUnchanged, KeepsCounts, Shows, SameRecord, Begins};
    ghost use Rattle.disk_model.specs.Memory.{Succeeds, RunsOut, Passes, Fails};

    /// A disk whose files are all empty.
    pub fn new(alloc: Global) -> MemDisk
        ensures empty { (f : ℕ) → length ((mem_medium result).image f) ≡ 0 }
        // Nothing waits for a sync, the counts are 0, and no call is to fail.
        ensures fresh { IsFresh result }
    {
        MemDisk::holding(alloc, BTreeMap::new(alloc))
    }

    /// Makes the calls with these numbers fail, counted from 0 from now on. It replaces an earlier plan; a stop stays.
    pub fn fail_calls(&mut self, calls: Vec<u64>)
        // Which of the calls to come are to fail (call 0 is the next one), by the plan and by the stop.
        ensures planned { (k : ℕ) → is_planned self.new k ≡ named_in calls.items k }
        ensures stopped { (k : ℕ) → is_stopped self.new k ≡ is_stopped self.old k }
        ensures unchanged { IsUnchanged (mem_medium self.old) (mem_medium self.new) }
        ensures counts { KeepsCounts self.old self.new }
    {
        self.orders.plan(calls);
    }

    /// Lets `k` more calls pass, and makes every call after them fail. It replaces an earlier stop; a plan stays.
    pub fn stop_after(&mut self, k: u64)
        // Which of the calls to come are to fail (call 0 is the next one), by the plan and by the stop.
        ensures planned { (n : ℕ) → is_planned self.new n ≡ is_planned self.old n }
        ensures stopped { (n : ℕ) → is_stopped self.new n ≡ nat_le k n }
        ensures unchanged { IsUnchanged (mem_medium self.old) (mem_medium self.new) }
        ensures counts { KeepsCounts self.old self.new }
    {
        self.orders.stop(k);
    }

    /// Sets the byte at the place `at` of a file, where nothing waits for a sync, as damage that is in every case from
    /// then on. Gives `false`, and changes nothing, where the file is not that long. The record of calls starts over.
    pub fn spoil(&mut self, file: u32, at: u64, byte: u8) -> bool
        requires { Quiet (mem_medium self.old) }
        ensures within { IsTrue result ↔ (at < length ((mem_medium self.old).image file)) }
        ensures set { OnTrue result ((f : ℕ) → (mem_medium self.new).image f
            ≡ (if f == file then slice_set ((mem_medium self.old).image f) at byte else (mem_medium self.old).image
            f)) }
        ensures quiet { Quiet (mem_medium self.new) }
        ensures none { OnFalse result (self.new ≡ self.old) }

        // The counts stay, and so do the plan and the stop.
        ensures counts { KeepsCounts self.old self.new }
        ensures written { (mem_medium self.new).written ≡ (mem_medium self.old).written }
        ensures planned { (n : ℕ) → is_planned self.new n ≡ is_planned self.old n }
        ensures stopped { (n : ℕ) → is_stopped self.new n ≡ is_stopped self.old n }
    {
        let set = set_byte(&mut self.files, file, at, byte);
        if set {
            self.calls.clear();
            self.start = None;
        }
        set
    }

    /// The disk after a crash: with every completed write where `keep` is true, else with none since the last sync.
    pub fn crash(self, keep: bool) -> Result<MemDisk, AllocError>
        ensures bytes { IfOk result (λ disk. (mem_medium disk).image
            ≡ (if keep then (mem_medium self).image else synced_image self)) }
        // This is one of the cases that the disk named, and the new disk has no plan, no stop, and counts of 0.
        ensures outcome { IfOk result (λ disk. IsOutcome (mem_medium self) (mem_medium disk).image) }
        ensures fresh { IfOk result IsFresh }
    {
        if keep {
            return Ok(MemDisk::holding(self.alloc, self.files));
        }
        let MemDisk {
            alloc,
            start,
            calls,
            files,
            ..
        } = self;
        let mut stable = begun(start, files);
        replay(alloc, &mut stable, &calls[..synced(&calls)])?;
        Ok(MemDisk::holding(alloc, stable))
    }

    /// The disk after a crash that tears: each file is as long as all writes since the last sync make it, and the i-th
    /// of these writes, from 0, stands, which is to be kept whole, where bit `i mod 64` of the pattern is 1. Past the
    /// old end, bytes that no standing write gave are zeros.
    pub fn crash_torn(self, pattern: u64) -> Result<MemDisk, AllocError>
        ensures bytes { IfOk result (λ disk. (mem_medium disk).image ≡ torn_image self pattern) }
        // Each file f is as long as reads gave it. This is one of the cases that the disk named, and the new disk has
        // no plan, no stop, and counts of 0.
        ensures long { IfOk result (λ disk. (f : ℕ) → length ((mem_medium disk).image f)
            ≡ length ((mem_medium self).image f)) }
        ensures outcome { IfOk result (λ disk. IsOutcome (mem_medium self) (mem_medium disk).image) }
        ensures fresh { IfOk result IsFresh }
    {
        let MemDisk {
            alloc,
            start,
            calls,
            files,
            ..
        } = self;
        let mut torn = begun(start, files);
        let stable = synced(&calls);
        replay(alloc, &mut torn, &calls[..stable])?;
        replay_torn(alloc, &mut torn, &calls[stable..], pattern)?;
        Ok(MemDisk::holding(alloc, torn))
    }

    /// How many calls failed because memory ran out, up to the greatest u64.
    pub fn starved(&self) -> u64
        ensures { result ≡ starved_count self.now }
    {
        self.orders.starved()
    }

    /// How many bytes the completed writes had.
    pub fn written(&self) -> u64
        ensures { result ≡ (mem_medium self.now).written }
    {
        self.written
    }

    // A disk that holds these files, quiet, with no record and no orders.
    fn holding(alloc: Global, files: WrittenFiles) -> MemDisk
        ensures image { (mem_medium result).image ≡ image_of files }
        ensures fresh { IsFresh result }
    {
        MemDisk {
            alloc,
            start: None,
            calls: Vec::new(alloc),
            files,
            orders: Orders::none(alloc),
            written: 0,
        }
    }

    // Enters a call that writes nothing: it is counted among the orders, and added to the record.
    fn enter(&mut self, call: Call) -> Result<(), DiskFailed>
        requires { IsNoWrite call }
        ensures ok { OnOk result (Passes self.old self.new) }
        ensures record { OnOk result (Shows self.new (image_of self.old.files)
            (start_image self.old.files self.old.start)
            (self.old.calls.items ++ call ∷ []) self.old.written) }
        ensures err { OnErr result (Fails self.old self.new) }
    {
        self.begin()?;
        self.note(call)?;
        Ok(())
    }

    // Counts a call among the orders, and fails where they say so.
    fn begin(&mut self) -> Result<(), DiskFailed>
        ensures record { SameRecord self.old self.new }
        ensures begun { Begins self.old self.new (is_err result) }
    {
        if self.orders.begin() {
            return Err(DiskFailed);
        }
        Ok(())
    }

    // Counts a failed allocation.
    fn starve(&mut self) -> DiskFailed
        ensures record { SameRecord self.old self.new }
        ensures wants { RunsOut self.old self.new }
    {
        self.orders.starve();
        DiskFailed
    }

    // Adds a sync or a read to the record.
    fn note(&mut self, call: Call) -> Result<(), DiskFailed>
        requires { IsNoWrite call }
        ensures ok { OnOk result (Shows self.new (image_of self.old.files) (start_image self.old.files self.old.start)
            (self.old.calls.items ++ call ∷ []) self.old.written) }
        ensures err { OnErr result (SameRecord self.old self.new) }
        ensures answer { MatchResult result (λ _. Succeeds self.old self.new) (λ _. RunsOut self.old self.new) }
    {
        match self.calls.push(call) {
            Ok(()) => Ok(()),
            Err(_) => Err(self.starve()),
        }
    }

    // Writes, and adds the write to the record; what fails changes nothing that is seen.
    fn write(&mut self, file: u32, at: u64, bytes: &[u8]) -> Result<(), AllocError>
        ensures ok { OnOk result ((copy : Vec ℕ Global) × (copy.items ≡ bytes.now)
            × Shows self.new (put_image (image_of self.old.files) file at bytes.now)
            (start_image self.old.files self.old.start)
            (self.old.calls.items ++ Call.Write file at copy ∷ []) (self.old.written + length bytes.now)) }
        ensures err { OnErr result (SameRecord self.old self.new) }
        ensures rest { Succeeds self.old self.new }
    {
        let Some(written) = self.written.checked_add(bytes.len() as u64) else {
            return Err(AllocError);
        };
        self.keep_start()?;
        self.calls
            .push(Call::Write(file, at, Vec::from_slice(self.alloc, bytes)?))?;
        match put(self.alloc, &mut self.files, file, at, bytes) {
            Ok(()) => {
                self.written = written;
                Ok(())
            }
            Err(e) => {
                self.calls.pop();
                Err(e)
            }
        }
    }

    // Keeps a copy of the files as the record begins, before the first write.
    fn keep_start(&mut self) -> Result<(), AllocError>
        ensures start { OnOk result ((files : WrittenFiles) → start_image files self.new.start
            ≡ start_image self.old.files self.old.start) }
        ensures record { SameRecord self.old self.new }
        ensures rest { Succeeds self.old self.new }
    {
        if self.start.is_none() {
            self.start = Some(copy_of(&self.files)?);
        }
        Ok(())
    }
}

impl Disk for MemDisk {
    ghost use Rattle.disk_model.specs.HistoryLaws.{record_is_lawful};
    ghost use Rattle.disk_model.specs.Memory.{mem_medium, AnswersAsPlanned, FailsByMemoryAlone, IsUnchanged};

    ghost told = { true };

    ghost medium = { mem_medium };

    ghost lawful = { λ disk. record_is_lawful (image_of disk.files) (start_image disk.files disk.start) disk.calls.items
        disk.orders.faults disk.written disk.tied };

    fn read(&mut self, file: u32, at: u64, out: &mut [u8]) -> Result<usize, DiskFailed>
        // What every disk says (`Disk::read`).
        ensures count { IfOk result (λ n. n ≤ length out.old) }
        ensures bytes { IfOk result (λ n.
            (n ≡ min (length out.old) (length ((mem_medium self.old).image file) - at))
            × (take n out.new ≡ take n (drop at ((mem_medium self.old).image file)))) }
        ensures reads { OnlyReads (mem_medium self.old) (mem_medium self.new) }
        ensures time { Elapses (mem_medium self.old) (mem_medium self.new) }
        ensures cause { OnErr result (Rose (mem_medium self.old).faults (mem_medium self.new).faults) }
        ensures passes { OnOk result ((mem_medium self.new).faults ≡ (mem_medium self.old).faults) }

        // Which calls fail, and that they change nothing.
        ensures answers { AnswersAsPlanned self.old self.new (is_err result) }
        ensures by_memory { FailsByMemoryAlone self.old self.new }
        ensures unchanged { OnErr result (IsUnchanged (mem_medium self.old) (mem_medium self.new)) }
    {
        self.enter(Call::Read)?;
        Ok(read_from(bytes_of(&self.files, file), at, out))
    }

    fn write_at(&mut self, file: u32, at: u64, bytes: &[u8]) -> Result<(), DiskFailed>
        // What every disk says (`Disk::write_at`).
        ensures image { OnOk result ((mem_medium self.new).image
            ≡ put_image (mem_medium self.old).image file at bytes.now) }
        ensures torn { OnErr result (TornImage file at (length bytes.now) (mem_medium self.old).image
            (mem_medium self.new).image) }
        ensures now { OnOk result (Follows (WriteCase file at bytes.now) (mem_medium self.old).now
            (mem_medium self.new).now) }
        ensures during { Follows (WriteOrNot file at bytes.now) (mem_medium self.old).now
            ((mem_medium self.new).since (mem_medium self.old).moment) }
        ensures written { OnOk result ((mem_medium self.new).written
            ≡ (mem_medium self.old).written + length bytes.now) }
        ensures at_most { (mem_medium self.new).written ≤ (mem_medium self.old).written + length bytes.now }
        ensures time { Elapses (mem_medium self.old) (mem_medium self.new) }
        ensures cause { OnErr result (Rose (mem_medium self.old).faults (mem_medium self.new).faults) }
        ensures passes { OnOk result ((mem_medium self.new).faults ≡ (mem_medium self.old).faults) }

        // Every way to tear the write is a case.
        ensures tears { OnOk result (Reaches (WriteCase file at bytes.now) (mem_medium self.old).now
            (mem_medium self.new).now) }

        // Which calls fail, and that they change nothing.
        ensures answers { AnswersAsPlanned self.old self.new (is_err result) }
        ensures by_memory { FailsByMemoryAlone self.old self.new }
        ensures unchanged { OnErr result (IsUnchanged (mem_medium self.old) (mem_medium self.new)) }
    {
        self.begin()?;
        match self.write(file, at, bytes) {
            Ok(()) => Ok(()),
            Err(_) => Err(self.starve()),
        }
    }

    fn size(&mut self, file: u32) -> Result<u64, DiskFailed>
        // What every disk says (`Disk::size`).
        ensures size { IfOk result (λ n. n ≡ length ((mem_medium self.old).image file)) }
        ensures reads { OnlyReads (mem_medium self.old) (mem_medium self.new) }
        ensures time { Elapses (mem_medium self.old) (mem_medium self.new) }
        ensures cause { OnErr result (Rose (mem_medium self.old).faults (mem_medium self.new).faults) }
        ensures passes { OnOk result ((mem_medium self.new).faults ≡ (mem_medium self.old).faults) }

        // Which calls fail, and that they change nothing.
        ensures answers { AnswersAsPlanned self.old self.new (is_err result) }
        ensures by_memory { FailsByMemoryAlone self.old self.new }
        ensures unchanged { OnErr result (IsUnchanged (mem_medium self.old) (mem_medium self.new)) }
    {
        self.enter(Call::Read)?;
        Ok(bytes_of(&self.files, file).len() as u64)
    }

    fn sync(&mut self) -> Result<(), DiskFailed>
        // What every disk says (`Disk::sync`).
        ensures quiet { OnOk result (Quiet (mem_medium self.new)) }
        ensures failed { OnErr result (OnlyReads (mem_medium self.old) (mem_medium self.new)) }
        ensures writes_nothing { WritesNothing (mem_medium self.old) (mem_medium self.new) }
        ensures time { Elapses (mem_medium self.old) (mem_medium self.new) }
        ensures cause { OnErr result (Rose (mem_medium self.old).faults (mem_medium self.new).faults) }
        ensures passes { OnOk result ((mem_medium self.new).faults ≡ (mem_medium self.old).faults) }

        // Which calls fail, and that they change nothing.
        ensures answers { AnswersAsPlanned self.old self.new (is_err result) }
        ensures by_memory { FailsByMemoryAlone self.old self.new }
        ensures unchanged { OnErr result (IsUnchanged (mem_medium self.old) (mem_medium self.new)) }
    {
        self.enter(Call::Sync)?;
        Ok(())
    }
}
