//! Streams in memory, which tell all that they hold and fail by a plan: for tests.

ghost use Rattle.std.specs.Prelude.{◌≡◌, ◌<◌, ◌≤◌, [], Some, IfOk, is_err, IsTrue, OnErr, IsErr, ◌⊎◌, is_some, length};
ghost use Rattle.std.specs.Prelude.{min, take};
ghost use Rattle.std.specs.Io.KnownBytes.{ReadConsumes, WriteAppends};
ghost use Rattle.per_base.specs.Causes.{HasCause, Rose, raised};
ghost use Rattle.per_base.specs.Streams.{FailsAsPlanned, RunsOutOfMemory, is_failing};

use crate::streams::{Failed, Sink, Source};
use std::alloc::Global;
use std::marker::Model;

/// A source that gives the bytes of a list, at most `piece` at a call.
#[derive(Debug, Drop)]
pub struct MemSource {
    bytes: Vec<u8>,
    given: usize,
    piece: u64,
    failing: Vec<u64>,
    calls: u64,
    faults: u64,
}

impl Model for MemSource {
    ghost use Rattle.std.specs.Prelude.{◌≤◌, vec_len, drop};
    ghost use Rattle.per_base.specs.Streams.{SourceState};

    ghost Value = { SourceState };

    ghost view = { λ s. record {
      left = drop s.given s.bytes.items;
      piece = s.piece;
      failing = s.failing.items;
      calls =
          s.calls;
      faults = s.faults;
    } };

    ghost invariant = { λ s. (s.given ≤ vec_len s.bytes) × (1 ≤ s.piece) };
}

impl MemSource {
    /// A source of these bytes, of which a call gives at most `piece`. The calls whose numbers are in `failing`,
    /// counted from 0, fail. Does not allocate.
    pub fn new(bytes: Vec<u8>, piece: u64, failing: Vec<u64>) -> MemSource
        requires { 1 ≤ piece }
        ensures left { result.left ≡ bytes.items }
        ensures plan { (result.piece ≡ piece) × (result.failing ≡ failing.items) }
        ensures fresh { (result.calls ≡ 0) × (result.faults ≡ 0) }
    {
        MemSource {
            bytes,
            given: 0,
            piece,
            failing,
            calls: 0,
            faults: 0,
        }
    }
}

impl Source for MemSource {
    ghost left = { λ s. Some s.left };

    ghost faults = { λ s. s.faults };

    fn read(&mut self, out: &mut [u8]) -> Result<usize, Failed>
        // What every source says (`Source::read`).
        ensures bound { IfOk result (λ n. n ≤ length out.new) }
        ensures bytes { ReadConsumes (Some self.old.left) (Some self.new.left) result out.new }
        ensures told { is_some (Some self.new.left) ≡ is_some (Some self.old.left) }
        ensures cause { HasCause self.old.faults self.new.faults result }
        // As much as there is, up to the piece, and a failure exactly where the plan has one, which counts once. No
        // other call counts as a fault.
        ensures count { IfOk result (λ n. n ≡ min (min self.old.piece (length out.new)) (length self.old.left)) }
        ensures fails { is_failing self.old.failing self.old.calls ≡ is_err result }
        ensures counted { OnErr result (self.new.faults ≡ raised self.old.faults) }
        ensures clean { IfOk result (λ n. self.new.faults ≡ self.old.faults) }
        ensures plan { (self.new.piece ≡ self.old.piece) × (self.new.failing ≡ self.old.failing) }
        ensures calls { self.new.calls ≡ raised self.old.calls }
    {
        let call = self.calls;
        self.calls = call.saturating_add(1);
        if self.failing.contains(&call) {
            self.faults = self.faults.saturating_add(1);
            return Err(Failed);
        }
        let given = self.given;
        let count = give(&self.bytes[given..], self.piece, out);
        self.given = given + count;
        Ok(count)
    }
}

/// Copies the start of `left` to the start of `out`, at most `piece` bytes, and says how many they are.
fn give(left: &[u8], piece: u64, out: &mut [u8]) -> usize
    ensures count { result ≡ min (min piece (length out.new)) (length left.now) }
    ensures bytes { take result out.new ≡ take result left.now }
{
    let room = piece.min(out.len() as u64) as usize;
    let count = room.min(left.len());
    out[..count].copy_from_slice(&left[..count]);
    count
}

/// A sink that keeps the bytes that it takes, at most `piece` at a call.
#[derive(Debug, Drop)]
pub struct MemSink {
    bytes: Vec<u8>,
    piece: u64,
    failing: Vec<u64>,
    calls: u64,
    faults: u64,
    starved: u64,
}

impl Model for MemSink {
    ghost use Rattle.per_base.specs.Streams.{SinkState};

    ghost Value = { SinkState };

    ghost view = { λ s. record {
      written = s.bytes.items;
      piece = s.piece;
      failing = s.failing.items;
      calls =
          s.calls;
      faults = s.faults;
      starved = s.starved;
    } };
}

impl MemSink {
    /// An empty sink, of which a call takes at most `piece` bytes. The calls whose numbers are in `failing`, counted
    /// from 0, fail. Does not allocate.
    pub fn new(alloc: Global, piece: u64, failing: Vec<u64>) -> MemSink
        ensures written { result.written ≡ [] }
        ensures plan { (result.piece ≡ piece) × (result.failing ≡ failing.items) }
        ensures fresh { (result.calls ≡ 0) × (result.faults ≡ 0) × (result.starved ≡ 0) }
    {
        MemSink {
            bytes: Vec::new(alloc),
            piece,
            failing,
            calls: 0,
            faults: 0,
            starved: 0,
        }
    }

    /// The bytes that were taken. Does not allocate.
    pub fn bytes(&self) -> &[u8]
        ensures { result.now ≡ self.now.written }
    {
        self.bytes.as_slice()
    }

    /// How many calls failed because memory ran out for the bytes, up to the greatest `u64`. Does not allocate.
    pub fn starved(&self) -> u64
        ensures { result ≡ self.now.starved }
    {
        self.starved
    }
}

impl Sink for MemSink {
    ghost written = { λ s. Some s.written };

    ghost faults = { λ s. s.faults };

    fn write(&mut self, bytes: &[u8]) -> Result<usize, Failed>
        // What every sink says (`Sink::write`).
        ensures bound { IfOk result (λ n. n ≤ length bytes.now) }
        ensures bytes { WriteAppends (Some self.old.written) (Some self.new.written) result bytes.now }
        ensures told { is_some (Some self.new.written) ≡ is_some (Some self.old.written) }
        ensures cause { HasCause self.old.faults self.new.faults result }
        ensures stuck { IfOk result (λ n. n ≡ 0 → 0 < length bytes.now → Rose self.old.faults self.new.faults) }
        // It takes as much as there is, up to the piece. It fails where the plan says so, and else only where memory
        // ran out, which `starved` counts; a call that succeeds leaves that count (`fed`).
        ensures count { IfOk result (λ n. n ≡ min self.old.piece (length bytes.now)) }
        ensures planned { IsTrue (is_failing self.old.failing self.old.calls) → IsErr result }
        ensures fails { OnErr result (FailsAsPlanned self.old self.new ⊎ RunsOutOfMemory self.old self.new) }
        ensures counted { OnErr result (self.new.faults ≡ raised self.old.faults) }
        ensures stuck_once { IfOk result (λ n. n ≡ 0 → 0 < length bytes.now
            → self.new.faults ≡ raised self.old.faults) }
        ensures fed { IfOk result (λ n. self.new.starved ≡ self.old.starved) }
        ensures clean { IfOk result (λ n. (0 < n) ⊎ (length bytes.now ≡ 0) → self.new.faults ≡ self.old.faults) }
        ensures plan { (self.new.piece ≡ self.old.piece) × (self.new.failing ≡ self.old.failing) }
        ensures calls { self.new.calls ≡ raised self.old.calls }
    {
        let call = self.calls;
        self.calls = call.saturating_add(1);
        if self.failing.contains(&call) {
            self.faults = self.faults.saturating_add(1);
            return Err(Failed);
        }
        let count = self.piece.min(bytes.len() as u64) as usize;
        if self.bytes.extend_from_slice(&bytes[..count]).is_err() {
            self.starved = self.starved.saturating_add(1);
            self.faults = self.faults.saturating_add(1);
            return Err(Failed);
        }
        if count == 0 && !bytes.is_empty() {
            self.faults = self.faults.saturating_add(1);
        }
        Ok(count)
    }
}
