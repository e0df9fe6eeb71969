//! Which calls to come are to fail, a plan of numbered calls and a stop, and how many failed.

ghost use Rattle.std.specs.Prelude.{◌≡◌, ◌==◌, ◌^◌, ◌≤◌, ℕ, suc, ◌||◌, false, nat_le};
ghost use Rattle.std.specs.List.{list_any};

use std::alloc::Global;

/// Which calls of a device in memory are to fail, and how many failed: as planned, or because memory ran out.
#[derive(Drop)]
pub struct Orders {
    /// The numbers of the calls that fail.
    failing: Vec<u64>,
    /// The number of the next call in the plan.
    next: u64,
    /// How many calls pass before the stop.
    passing: Option<u64>,
    /// How many calls failed.
    faults: u64,
    /// How many of them because memory ran out.
    starved: u64,
    ghost numbers: { (k : ℕ) → 2 ^ 64 ≤ k → list_any (λ n. n == k) failing.items ≡ false },
}

impl Orders {
    ghost use Rattle.disk_model.specs.Orders.{names, stops, named_in, fault_count, starved_count, HasNoOrders};
    ghost use Rattle.disk_model.specs.Orders.{KeepsCounts, Begins, RunsOut};

    /// No plan and no stop, and no call yet.
    pub fn none(alloc: Global) -> Orders
        ensures orders { HasNoOrders result }
        ensures faults { fault_count result ≡ 0 }
        ensures starved { starved_count result ≡ 0 }
    {
        Orders {
            failing: Vec::new(alloc),
            next: 0,
            passing: None,
            faults: 0,
            starved: 0,
        }
    }

    /// The calls of these numbers, from 0 from now on, are to fail. It takes the place of an earlier plan.
    pub fn plan(&mut self, calls: Vec<u64>)
        ensures planned { (k : ℕ) → names self.new k ≡ named_in calls.items k }
        ensures stopped { (k : ℕ) → stops self.new k ≡ stops self.old k }
        ensures counts { KeepsCounts self.old self.new }
    {
        self.failing = calls;
        self.next = 0;
    }

    /// This many calls pass, and then every call is to fail. It takes the place of an earlier stop.
    pub fn stop(&mut self, passing: u64)
        ensures planned { (k : ℕ) → names self.new k ≡ names self.old k }
        ensures stopped { (k : ℕ) → stops self.new k ≡ nat_le passing k }
        ensures counts { KeepsCounts self.old self.new }
    {
        self.passing = Some(passing);
    }

    /// Takes the plan and the stop away.
    pub fn withdraw(&mut self)
        ensures orders { HasNoOrders self.new }
        ensures counts { KeepsCounts self.old self.new }
    {
        self.failing.clear();
        self.passing = None;
    }

    /// Begins a call, and says whether it is to fail, which counts as a fault. The call after it is number 0 from then
    /// on.
    pub fn begin(&mut self) -> bool
        ensures { Begins self.old self.new result }
    {
        let fails = self.take();
        if fails {
            self.faults = self.faults.saturating_add(1);
        }
        fails
    }

    /// Counts that a call which had begun failed because memory ran out.
    pub fn starve(&mut self)
        ensures { RunsOut self.old self.new }
    {
        self.faults = self.faults.saturating_add(1);
        self.starved = self.starved.saturating_add(1);
    }

    /// How many calls failed, up to the greatest u64.
    pub fn faults(&self) -> u64
        ensures { result ≡ fault_count self.now }
    {
        self.faults
    }

    /// How many calls failed because memory ran out, up to the greatest u64.
    pub fn starved(&self) -> u64
        ensures { result ≡ starved_count self.now }
    {
        self.starved
    }

    // Passes on to the next call, and says whether this one is to fail.
    fn take(&mut self) -> bool
        ensures due { result ≡ (names self.old 0 || stops self.old 0) }
        ensures planned { (k : ℕ) → names self.new k ≡ names self.old (suc k) }
        ensures stopped { (k : ℕ) → stops self.new k ≡ stops self.old (suc k) }
        ensures counts { KeepsCounts self.old self.new }
    {
        let planned = self.is_planned();
        let stopped = self.passing == Some(0);
        self.advance();
        planned || stopped
    }

    // Whether the plan names the next call.
    fn is_planned(&self) -> bool
        ensures { result ≡ names self.now 0 }
    {
        self.failing.iter().any(|call| *call == self.next)
    }

    // The next call is over.
    fn advance(&mut self)
        ensures planned { (k : ℕ) → names self.new k ≡ names self.old (suc k) }
        ensures stopped { (k : ℕ) → stops self.new k ≡ stops self.old (suc k) }
        ensures counts { KeepsCounts self.old self.new }
    {
        self.passing = self.passing.map(|left| left.saturating_sub(1));
        if self.next == u64::MAX {
            // No number names a later call.
            self.failing.clear();
            return;
        }
        self.next += 1;
    }
}
