//! A flash in memory, which fails and stops as planned.

ghost use Rattle.std.specs.Prelude.{◌≡◌, ◌⊎◌, ◌↔◌, ◌<◌, ◌*◌, ◌++◌, ◌∷◌, [], ℕ, Vec, true, false, IfOk, OnOk, OnErr};
ghost use Rattle.std.specs.Prelude.{is_err, nat_le, vec_len};
ghost use Rattle.per_base.specs.Causes.{Rose};
ghost use Rattle.disk_model.specs.Orders.{named_in, fault_count};
ghost use Rattle.flash_model.specs.Pages.{blank_page};
ghost use Rattle.flash_model.specs.State.{FlashCase, IsStill, ProgramCase, EraseCase, FailsToProgram, FailsToErase};
ghost use Rattle.flash_model.specs.State.{announce_write, settle_pages, programmed, erased};
ghost use Rattle.flash_model.specs.FlashMedium.{FlashElapses, EachFlashCase};
ghost use Rattle.flash_model.specs.History.{pages_of, blank_state, state_after, state_after_call, IsNoChange};

use crate::flash::{BLOCK_PAGES, Flash, FlashFailed};
use crate::record::{FlashCall, PageList, blank_block, blank_pages, page_in, set_page};
use disk_model::Orders;
use std::alloc::{AllocError, Global};

/// A flash in memory. All of its pages are modelled, and it keeps a record of its calls, so that it answers for every
/// moment.
#[derive(Drop)]
pub struct MemFlash {
    alloc: Global,
    blocks: u32,
    pages: PageList,
    /// The calls that succeeded.
    calls: Vec<FlashCall>,
    orders: Orders,
    ghost long: { vec_len pages ≡ 64 * blocks },
    ghost tied: { pages_of pages.items ≡ (state_after calls.items blank_state).pages },
}

impl MemFlash {
    ghost use Rattle.flash_model.specs.Memory.{mem_flash, starved_count, is_planned, is_stopped, HasNoOrders, IsFresh};
    ghost use Rattle.flash_model.specs.Memory.{IsUnchanged, KeepsCounts, Shows, SameRecord, Begins, Succeeds, RunsOut};
    ghost use Rattle.flash_model.specs.Memory.{Passes, Fails};

    /// A flash of `blocks` blank blocks.
    ///
    /// # Errors
    ///
    /// Only `OutOfMemory`.
    pub fn new(alloc: Global, blocks: u32) -> Result<MemFlash, AllocError>
        ensures blocks { IfOk result (λ flash. (mem_flash flash).blocks ≡ blocks) }
        ensures fresh { IfOk result IsFresh }
    {
        Ok(MemFlash {
            alloc,
            blocks,
            pages: blank_pages(alloc, BLOCK_PAGES as usize * blocks as usize)?,
            calls: Vec::new(alloc),
            orders: Orders::none(alloc),
        })
    }

    /// Plans that the calls with these numbers fail, counted from 0 from now on. It replaces an earlier plan; a stop
    /// (`stop_after`) stays.
    pub fn fail_calls(&mut self, calls: Vec<u64>)
        ensures planned { (k : ℕ) → is_planned self.new k ≡ named_in calls.items k }
        ensures stopped { (k : ℕ) → is_stopped self.new k ≡ is_stopped self.old k }
        ensures unchanged { IsUnchanged (mem_flash self.old) (mem_flash self.new) }
        ensures counts { KeepsCounts self.old self.new }
    {
        self.orders.plan(calls);
    }

    /// Lets `k` more calls pass, and makes every call after them fail (the *stop*). It replaces an earlier stop; a plan
    /// of `fail_calls` stays.
    pub fn stop_after(&mut self, k: u64)
        ensures planned { (n : ℕ) → is_planned self.new n ≡ is_planned self.old n }
        ensures stopped { (n : ℕ) → is_stopped self.new n ≡ nat_le k n }
        ensures unchanged { IsUnchanged (mem_flash self.old) (mem_flash self.new) }
        ensures counts { KeepsCounts self.old self.new }
    {
        self.orders.stop(k);
    }

    /// Takes the plan of `fail_calls` and the stop of `stop_after` away. It changes no byte and does not allocate.
    pub fn restart(&mut self)
        ensures orders { HasNoOrders self.new }
        ensures unchanged { IsUnchanged (mem_flash self.old) (mem_flash self.new) }
        ensures counts { KeepsCounts self.old self.new }
    {
        self.orders.withdraw();
    }

    /// How many calls failed because memory ran out, up to the greatest u64.
    pub fn starved(&self) -> u64
        ensures { result ≡ starved_count self.now }
    {
        self.orders.starved()
    }

    /// How many calls failed, up to the greatest u64.
    pub fn faults(&self) -> u64
        ensures { result ≡ (mem_flash self.now).faults }
    {
        self.orders.faults()
    }

    // Enters a call that changes no page: it is counted among the orders, and added to the record.
    fn enter(&mut self, call: FlashCall) -> Result<(), FlashFailed>
        requires { IsNoChange call }
        ensures ok { OnOk result (Passes self.old self.new) }
        ensures record { OnOk result (Shows self.new self.old.blocks (self.old.calls.items ++ call ∷ [])) }
        ensures err { OnErr result (Fails self.old self.new) }
    {
        self.begin()?;
        match self.note(call) {
            Ok(()) => Ok(()),
            Err(_) => Err(self.starve()),
        }
    }

    // Counts a call among the orders, and fails where they say so.
    fn begin(&mut self) -> Result<(), FlashFailed>
        ensures record { SameRecord self.old self.new }
        ensures begun { Begins self.old self.new (is_err result) }
    {
        if self.orders.begin() {
            return Err(FlashFailed);
        }
        Ok(())
    }

    // Counts a failed allocation.
    fn starve(&mut self) -> FlashFailed
        ensures record { SameRecord self.old self.new }
        ensures wants { RunsOut self.old self.new }
    {
        self.orders.starve();
        FlashFailed
    }

    // Adds a call that changes no page to the record; what fails changes nothing.
    fn note(&mut self, call: FlashCall) -> Result<(), AllocError>
        requires { IsNoChange call }
        ensures ok { OnOk result (Shows self.new self.old.blocks (self.old.calls.items ++ call ∷ [])) }
        ensures err { OnErr result (SameRecord self.old self.new) }
        ensures rest { Succeeds self.old self.new }
    {
        self.calls.push(call)?;
        Ok(())
    }

    // Adds a write that is announced to the record; what fails changes nothing.
    fn note_write(&mut self, file: u32, at: u64, bytes: &[u8]) -> Result<(), AllocError>
        ensures ok { OnOk result ((copy : Vec ℕ Global) × (copy.items ≡ bytes.now)
            × Shows self.new self.old.blocks (self.old.calls.items ++ FlashCall.Announce file at copy ∷ [])) }
        ensures err { OnErr result (SameRecord self.old self.new) }
        ensures rest { Succeeds self.old self.new }
    {
        let copy = Vec::from_slice(self.alloc, bytes)?;
        self.note(FlashCall::Announce(file, at, copy))?;
        Ok(())
    }

    // Programs a page, and adds that to the record; what fails changes nothing.
    fn program_page(&mut self, block: u32, page: u32, bytes: &[u8; 512]) -> Result<(), AllocError>
        requires block { block < self.old.blocks }
        requires page { page < 64 }
        ensures ok { OnOk result ((copy : Vec ℕ Global) × (copy.items ≡ bytes.now)
            × Shows self.new self.old.blocks (self.old.calls.items ++ FlashCall.Program block page copy ∷ [])) }
        ensures err { OnErr result (SameRecord self.old self.new) }
        ensures rest { Succeeds self.old self.new }
    {
        let copy = Vec::from_slice(self.alloc, bytes)?;
        self.calls.push(FlashCall::Program(block, page, copy))?;
        set_page(&mut self.pages, block, page, bytes);
        Ok(())
    }

    // Erases a block, and adds that to the record; what fails changes nothing.
    fn erase_block(&mut self, block: u32) -> Result<(), AllocError>
        requires { block < self.old.blocks }
        ensures ok { OnOk result (Shows self.new self.old.blocks (self.old.calls.items ++ FlashCall.Erase block ∷ [])) }
        ensures err { OnErr result (SameRecord self.old self.new) }
        ensures rest { Succeeds self.old self.new }
    {
        self.calls.push(FlashCall::Erase(block))?;
        blank_block(&mut self.pages, block);
        Ok(())
    }
}

impl Flash for MemFlash {
    ghost use Rattle.flash_model.specs.HistoryLaws.{record_is_lawful};
    ghost use Rattle.flash_model.specs.Memory.{mem_flash, AnswersAsPlanned, IsUnchanged};

    ghost told = { true };

    ghost medium = { mem_flash };

    ghost lawful = { λ flash. record_is_lawful flash.blocks flash.calls.items (fault_count flash.orders) };

    fn blocks(&self) -> u32 {
        self.blocks
    }

    fn read(&mut self, block: u32, page: u32, out: &mut [u8; 512]) -> Result<(), FlashFailed>
        requires block { block < (mem_flash self.old).blocks }
        requires page { page < 64 }
        ensures bytes { OnOk result (out.new ≡ (mem_flash self.old).state.pages block page) }
        ensures state { (mem_flash self.new).state ≡ (mem_flash self.old).state }
        ensures during { EachFlashCase (IsStill (mem_flash self.old).state) (mem_flash self.old) (mem_flash self.new) }
        ensures time { FlashElapses (mem_flash self.old) (mem_flash self.new) }
        ensures cause { OnErr result (Rose (mem_flash self.old).faults (mem_flash self.new).faults) }
        ensures passes { OnOk result ((mem_flash self.new).faults ≡ (mem_flash self.old).faults) }

        // Which calls fail, and that they change nothing.
        ensures answers { AnswersAsPlanned self.old self.new (is_err result) }
        ensures unchanged { OnErr result (IsUnchanged (mem_flash self.old) (mem_flash self.new)) }
    {
        self.enter(FlashCall::Read)?;
        *out = page_in(&self.pages, block, page);
        Ok(())
    }

    fn program(&mut self, block: u32, page: u32, bytes: &[u8; 512]) -> Result<(), FlashFailed>
        requires block { block < (mem_flash self.old).blocks }
        requires page { page < 64 }
        requires blank { (mem_flash self.old).state.pages block page ≡ blank_page }
        ensures state { OnOk result ((mem_flash self.new).state
            ≡ programmed (mem_flash self.old).state block page bytes.now) }
        ensures failed { OnErr result (FailsToProgram block page bytes.now (mem_flash self.old).state
            (mem_flash self.new).state) }
        ensures during { EachFlashCase (λ c. IsStill (mem_flash self.old).state c
            ⊎ (IsStill (mem_flash self.new).state c
            ⊎ ProgramCase block page bytes.now (mem_flash self.old).state c)) (mem_flash self.old)
            (mem_flash self.new) }
        ensures time { FlashElapses (mem_flash self.old) (mem_flash self.new) }
        ensures cause { OnErr result (Rose (mem_flash self.old).faults (mem_flash self.new).faults) }
        ensures passes { OnOk result ((mem_flash self.new).faults ≡ (mem_flash self.old).faults) }

        // Every way to tear the page is a case.
        ensures tears { OnOk result ((c : FlashCase) → ProgramCase block page bytes.now (mem_flash self.old).state c
            → (mem_flash self.new).since (mem_flash self.old).moment c) }

        // Which calls fail, and that they change nothing.
        ensures answers { AnswersAsPlanned self.old self.new (is_err result) }
        ensures unchanged { OnErr result (IsUnchanged (mem_flash self.old) (mem_flash self.new)) }
    {
        self.begin()?;
        match self.program_page(block, page, bytes) {
            Ok(()) => Ok(()),
            Err(_) => Err(self.starve()),
        }
    }

    fn erase(&mut self, block: u32) -> Result<(), FlashFailed>
        requires { block < (mem_flash self.old).blocks }
        ensures state { OnOk result ((mem_flash self.new).state ≡ erased (mem_flash self.old).state block) }
        ensures failed { OnErr result (FailsToErase block (mem_flash self.old).state (mem_flash self.new).state) }
        ensures during { EachFlashCase (λ c. IsStill (mem_flash self.old).state c
            ⊎ (IsStill (mem_flash self.new).state c
            ⊎ EraseCase block (mem_flash self.old).state c)) (mem_flash self.old) (mem_flash self.new) }
        ensures time { FlashElapses (mem_flash self.old) (mem_flash self.new) }
        ensures cause { OnErr result (Rose (mem_flash self.old).faults (mem_flash self.new).faults) }
        ensures passes { OnOk result ((mem_flash self.new).faults ≡ (mem_flash self.old).faults) }

        // Every way to tear the block is a case.
        ensures tears { OnOk result ((c : FlashCase) → EraseCase block (mem_flash self.old).state c
            → (mem_flash self.new).since (mem_flash self.old).moment c) }

        // Which calls fail, and that they change nothing.
        ensures answers { AnswersAsPlanned self.old self.new (is_err result) }
        ensures unchanged { OnErr result (IsUnchanged (mem_flash self.old) (mem_flash self.new)) }
    {
        self.begin()?;
        match self.erase_block(block) {
            Ok(()) => Ok(()),
            Err(_) => Err(self.starve()),
        }
    }

    fn announce(&mut self, file: u32, at: u64, bytes: &[u8]) -> Result<(), FlashFailed>
        ensures state { OnOk result ((mem_flash self.new).state
            ≡ announce_write (mem_flash self.old).state file at bytes.now) }
        ensures failed { OnErr result ((mem_flash self.new).state ≡ (mem_flash self.old).state) }
        ensures during { EachFlashCase (λ c. IsStill (mem_flash self.old).state c
            ⊎ IsStill (mem_flash self.new).state c)
            (mem_flash self.old) (mem_flash self.new) }
        ensures time { FlashElapses (mem_flash self.old) (mem_flash self.new) }
        ensures cause { OnErr result (Rose (mem_flash self.old).faults (mem_flash self.new).faults) }
        ensures passes { OnOk result ((mem_flash self.new).faults ≡ (mem_flash self.old).faults) }

        // Which calls fail, and that they change nothing.
        ensures answers { AnswersAsPlanned self.old self.new (is_err result) }
        ensures unchanged { OnErr result (IsUnchanged (mem_flash self.old) (mem_flash self.new)) }
    {
        self.begin()?;
        match self.note_write(file, at, bytes) {
            Ok(()) => Ok(()),
            Err(_) => Err(self.starve()),
        }
    }

    fn settle(&mut self) -> Result<(), FlashFailed>
        ensures state { OnOk result ((mem_flash self.new).state ≡ settle_pages (mem_flash self.old).state) }
        ensures failed { OnErr result ((mem_flash self.new).state ≡ (mem_flash self.old).state) }
        ensures during { EachFlashCase (λ c. IsStill (mem_flash self.old).state c
            ⊎ IsStill (mem_flash self.new).state c)
            (mem_flash self.old) (mem_flash self.new) }
        ensures time { FlashElapses (mem_flash self.old) (mem_flash self.new) }
        ensures cause { OnErr result (Rose (mem_flash self.old).faults (mem_flash self.new).faults) }
        ensures passes { OnOk result ((mem_flash self.new).faults ≡ (mem_flash self.old).faults) }

        // Which calls fail, and that they change nothing.
        ensures answers { AnswersAsPlanned self.old self.new (is_err result) }
        ensures unchanged { OnErr result (IsUnchanged (mem_flash self.old) (mem_flash self.new)) }
    {
        self.enter(FlashCall::Settle)?;
        Ok(())
    }
}
