//! Storages on a disk in memory, made and changed one element at a time.

ghost use Rattle.std.specs.Prelude.{IfOk};
ghost use Rattle.element_state.specs.Conditions.{IsShape, AreCommittable};
ghost use Rattle.element_store.specs.Stores.{store_shape, view_in};
ghost use Rattle.index_text.specs.Contents.{AreContents};
ghost use Rattle.base_tests.specs.Usage.{IsKeptStore, IsStoreInUse};

use crate::elements::{alone, element_of, takes};
use crate::plans::Plan;
use crate::views::fault;
use case_words::{CaseError, text};
use disk_model::MemDisk;
use element_store::{OpenedStore, Shape, Store, create, open_store, rebuild, salvage};
use per_base::{Change, Fault, Fresh};
use std::alloc::Global;

/// A storage that is in use on a disk in memory.
#[derive(Drop)]
pub struct InUse {
    pub disk: MemDisk,
    pub store: Store,
    pub shape: Shape,
}

/// A disk, and the storage that is in use there, if one is.
#[derive(Drop)]
pub enum Kept {
    Closed(MemDisk),
    Open(InUse),
}

/// The disk alone.
pub fn disk_of(kept: Kept) -> MemDisk {
    match kept {
        Kept::Closed(disk) => disk,
        Kept::Open(
            InUse {
                disk,
                store: _,
                shape: _,
            },
        ) => disk,
    }
}

/// From now on that many calls of the disk pass.
pub fn stopped(kept: Kept, passing: u64) -> Kept
    requires { IsKeptStore kept }
    ensures { IsKeptStore result }
{
    match kept {
        Kept::Closed(mut disk) => {
            disk.stop_after(passing);
            Kept::Closed(disk)
        }
        Kept::Open(mut kept) => {
            kept.disk.stop_after(passing);
            Kept::Open(kept)
        }
    }
}

// `NAME=BYTES`: the storage that is planned, with this element alone.
fn planned(alloc: Global, plan: Plan, word: &str) -> Result<(Shape, Vec<Fresh>), CaseError>
    ensures { IfOk result (λ made. IsShape made.0 × AreContents made.0.kind made.0.allowed made.1.items) }
{
    let shape = plan.shape(alloc)?;
    let contents = alone(alloc, &shape, element_of(alloc, plan.kind, word)?)?;
    Ok((shape, contents))
}

/// `create:NAME=BYTES`: rebuilds the storage with one element.
pub fn created(
    alloc: Global,
    plan: Plan,
    mut disk: MemDisk,
    word: &str,
) -> Result<(Kept, String), CaseError>
    ensures { IfOk result (λ next. IsKeptStore next.0) }
{
    let (shape, contents) = planned(alloc, plan, word)?;
    match create(alloc, &mut disk, shape.copy()?, contents) {
        Ok(store) => shown(alloc, InUse { disk, store, shape }),
        Err(error) => Ok((Kept::Closed(disk), fault(alloc, error)?)),
    }
}

/// `open`: opens the storage.
pub fn opened(alloc: Global, plan: Plan, mut disk: MemDisk) -> Result<(Kept, String), CaseError>
    ensures { IfOk result (λ next. IsKeptStore next.0) }
{
    let shape = plan.shape(alloc)?;
    match open_store(alloc, &mut disk, shape.copy()?) {
        Ok(
            OpenedStore {
                store,
                reports: _,
                before: _,
            },
        ) => shown(alloc, InUse { disk, store, shape }),
        Err(error) => Ok((Kept::Closed(disk), fault(alloc, error)?)),
    }
}

// A storage in use, after a call that was done.
fn shown(alloc: Global, kept: InUse) -> Result<(Kept, String), CaseError>
    requires { IsStoreInUse kept }
    ensures { IfOk result (λ next. IsKeptStore next.0) }
{
    Ok((Kept::Open(kept), text(alloc, "ok")?))
}

/// `rebuild:NAME=BYTES`: rebuilds the storage with one element, beside what the place holds.
pub fn rebuilt(
    alloc: Global,
    plan: Plan,
    disk: &mut MemDisk,
    word: &str,
) -> Result<String, CaseError> {
    let (shape, contents) = planned(alloc, plan, word)?;
    match salvage(alloc, disk, &shape) {
        Err(error) => return fault(alloc, error),
        Ok(Some(view)) if view.generation == u64::MAX => return Err(CaseError::NoCase),
        Ok(_) => {}
    }
    match rebuild(alloc, disk, &shape, contents) {
        Ok(()) => text(alloc, "ok"),
        Err(error) => fault(alloc, error),
    }
}

impl InUse {
    // The change alone, where the storage can take it.
    fn single(&self, alloc: Global, change: Change) -> Result<Vec<Change>, CaseError>
        requires { IsStoreInUse self.now }
        ensures { IfOk result (λ changes. AreCommittable (store_shape self.now.store)
            (view_in self.now.store) changes.items) }
    {
        if self.store.generation() == u64::MAX || self.store.entries().len() >= 1024 {
            return Err(CaseError::NoCase);
        }
        if !takes(&self.shape, self.store.size(), &change) {
            return Err(CaseError::NoCase);
        }
        Ok(vec![in alloc; change]?)
    }

    // Commits one change; where the disk fails, the storage is closed.
    fn commit(self, alloc: Global, change: Change) -> Result<Kept, CaseError>
        requires { IsStoreInUse self }
        ensures { IfOk result IsKeptStore }
    {
        let changes = self.single(alloc, change)?;
        let InUse {
            mut disk,
            store,
            shape,
        } = self;
        match store.commit(&mut disk, changes, ()) {
            Ok(store) => Ok(Kept::Open(InUse { disk, store, shape })),
            Err(Fault::Device) => Ok(Kept::Closed(disk)),
            Err(Fault::OutOfMemory(_)) => Err(CaseError::OutOfMemory),
        }
    }

    // Commits another content of an element.
    fn changed(self, alloc: Global, word: &str) -> Result<Kept, CaseError>
        requires { IsStoreInUse self }
        ensures { IfOk result IsKeptStore }
    {
        let fresh = element_of(alloc, self.shape.kind, word)?;
        self.commit(alloc, Change::Put(fresh))
    }
}

// The storage that is still in use.
fn in_use(kept: Kept) -> Result<InUse, CaseError>
    requires { IsKeptStore kept }
    ensures { IfOk result IsStoreInUse }
{
    match kept {
        Kept::Open(kept) => Ok(kept),
        Kept::Closed(_) => Err(CaseError::NoCase),
    }
}

/// `put:NAME=BYTES`: commits another content of an element of a storage in use.
pub fn used(alloc: Global, kept: Kept, word: &str) -> Result<(Kept, String), CaseError>
    requires { IsKeptStore kept }
    ensures { IfOk result (λ next. IsKeptStore next.0) }
{
    let kept = in_use(kept)?;
    told(alloc, kept.changed(alloc, word)?)
}

// Whether it is still in use; where it is closed, its disk failed.
fn told(alloc: Global, kept: Kept) -> Result<(Kept, String), CaseError>
    requires { IsKeptStore kept }
    ensures { IfOk result (λ next. IsKeptStore next.0) }
{
    match kept {
        Kept::Open(kept) => shown(alloc, kept),
        Kept::Closed(disk) => Ok((Kept::Closed(disk), text(alloc, "failed")?)),
    }
}
