//! The plan of an update.

ghost use Rattle.std.specs.Prelude.{◌≡◌, ◌≤◌, IfOk, length, map, sum_by, ◌≢◌};
ghost use Rattle.std.specs.List.{AllByRecursion};
ghost use Rattle.deployment_model.specs.Conditions.{IsDeployment, IsStorage};
ghost use Rattle.deployment_model.specs.Data.{deployment_data, element_data, storage_data};
ghost use Rattle.migrate_fns.specs.Stored.{answers_of, rules_of};
ghost use Rattle.index_text.specs.Contents.{AreContents, SuitsKind, fresh_size};
ghost use Rattle.update_plan.specs.Merging.{merged};
ghost use Rattle.update_plan.specs.Plans.{AllFit, ArePresent, AreStored, IsStoredOf, PlansAll, PlansFor, PlansOver};
ghost use Rattle.update_plan.specs.Plans.{UnlessOutOfMemory};
ghost use Rattle.update_plan.specs.Plans.{first_refusal, or_missing};
ghost use Rattle.update_plan.specs.Plans as plans;
ghost use Rattle.update_plan.specs.Renewed.{RenewAll};
ghost use Rattle.update_plan.specs.Views.{viewed_items};

use crate::contents::{Contents, StorageContents, stored_for};
use crate::merging::first_item;
use crate::renewing::Update;
use deployment_model::Deployment;
use migrate_fns::Migrations;
use per_base::{Entry, Fresh, Limit, Name, PerError, Sequence, Unit, element_size};
use std::alloc::Global;

/// The most elements of a storage.
const MAX_ELEMENTS: usize = 1024;

/// What each storage of the version `new` is to be made of by an update at the moment `now`, in seconds, from what is
/// stored of the version `old` (`contents`): its elements, in the order of the storages.
///
/// Errors, storage by storage: `IntegrityCorrupted` with the storage where what is stored is damaged; then element by
/// element `IntegrityCorrupted` with the element where it is to be kept and is unreadable, or `DataTypeMismatch` where
/// it is to be converted and no chain of converters does; then `LimitReached` with `Elements` above 1,024; then
/// `OutOfStorageSpace` above the storage's maximum, in bytes of names and contents. `OutOfMemory`.
pub fn plan(
    alloc: Global,
    old: &Deployment,
    contents: &Contents,
    new: &Deployment,
    migrations: &Migrations,
    now: u64,
) -> Result<Vec<Sequence<Fresh>>, PerError>
    // Both versions obey the rules of deployments, and what is stored is as storages of `old` are read: names that
    // ascend, an info exactly for files, and no content over the most bytes of its kind.
    requires old { IsDeployment (deployment_data old.now) }
    requires new { IsDeployment (deployment_data new.now) }
    requires contents { AllByRecursion (IsStoredOf (deployment_data old.now)) contents.now }
    // Unless memory ran out: of each new storage, what it has after the update from what was stored of the one of its
    // name and kind, or the first refusal. A conversion gives any value that the stored functions may answer.
    ensures plan { UnlessOutOfMemory (viewed_items (λ x. x.items) result)
        (PlansAll (rules_of migrations.now) (answers_of migrations.now) now
        (plans.stored_for (deployment_data old.now) contents.now) (map storage_data new.now.storages)) }
    // What is `made` for each storage can be stored in it as it is: names ascend, and no limit is exceeded.
    ensures fits { IfOk result (λ made. AllFit (map storage_data new.now.storages) made.items) }
{
    let mut plans = Vec::new(alloc);
    for storage in new.storages.as_slice() {
        let update = Update {
            alloc,
            storage,
            migrations,
            moment: now,
        };
        let plan = update.plan(stored_for(old, contents.as_slice(), storage))?;
        let Ok(()) = plans.push(Sequence::new(plan)) else {
            return Err(PerError::OutOfMemory);
        };
    }
    Ok(plans)
}

impl Update<'_> {
    /// What the storage has after the update.
    fn plan(&self, stored: Option<&StorageContents>) -> Result<Vec<Fresh>, PerError>
        requires storage { IsStorage (storage_data self.now.storage.now) }
        requires stored { ArePresent self.now.storage.now.kind (or_missing stored) }
        ensures plan { UnlessOutOfMemory (viewed_items (λ x. x.items) result)
            (PlansFor (rules_of self.now.migrations.now) (answers_of self.now.migrations.now)
            self.now.moment (storage_data self.now.storage.now) (or_missing stored.entry)) }
        ensures fits { IfOk result (λ made. AreContents self.now.storage.now.kind self.now.storage.now.maximum
            made.items) }
    {
        match stored {
            None => self.plan_over(&[]),
            Some(StorageContents::Missing) => self.plan_over(&[]),
            Some(StorageContents::Damaged) => Err(damaged(&self.storage.name)),
            Some(StorageContents::Present(entries)) => self.plan_over(entries.as_slice()),
        }
    }

    /// What the storage has after an update over these elements.
    fn plan_over(&self, stored: &[Entry]) -> Result<Vec<Fresh>, PerError>
        requires storage { IsStorage (storage_data self.now.storage.now) }
        requires stored { AreStored self.now.storage.now.kind stored.now }
        ensures plan { UnlessOutOfMemory (viewed_items (λ x. x.items) result)
            (PlansOver (rules_of self.now.migrations.now) (answers_of self.now.migrations.now)
            self.now.moment (storage_data self.now.storage.now) stored.now
            (first_refusal (rules_of self.now.migrations.now) self.now.moment (storage_data self.now.storage.now)
            stored.now)) }
        ensures fits { IfOk result (λ made. AreContents self.now.storage.now.kind self.now.storage.now.maximum
            made.items) }
    {
        let contents = self.updated(stored)?;
        within_limits(self.storage.maximum, contents)
    }

    /// What the stored and configured names become, whatever the limits are.
    fn updated(&self, stored: &[Entry]) -> Result<Vec<Fresh>, PerError>
        requires storage { IsStorage (storage_data self.now.storage.now) }
        requires stored { AreStored self.now.storage.now.kind stored.now }
        ensures { RenewAll (rules_of self.now.migrations.now) (answers_of self.now.migrations.now) self.now.moment
            (storage_data self.now.storage.now)
            (merged stored.now (map element_data self.now.storage.now.elements)) (viewed_items (λ x. x.items) result) }
    {
        let mut contents = Vec::new(self.alloc);
        let mut entries = stored;
        let mut elements = self.storage.elements.as_slice();
        while let Some(first) = first_item(entries, elements) {
            if let Some(fresh) = self.renewed(first.item)? {
                let Ok(()) = contents.push(fresh) else {
                    return Err(PerError::OutOfMemory);
                };
            }
            entries = first.stored;
            elements = first.configured;
        }
        Ok(contents)
    }
}

/// The refusal of a storage that does not open, or that there is no memory for it.
fn damaged(storage: &Name) -> PerError
    ensures { result ≢ PerError.OutOfMemory → result ≡ PerError.IntegrityCorrupted (Unit.Whole storage.now) }
{
    match storage.copy() {
        Ok(storage) => PerError::IntegrityCorrupted {
            unit: Unit::Whole(storage),
        },
        Err(_) => PerError::OutOfMemory,
    }
}

/// These contents, where they are not too many and not too large.
fn within_limits(maximum: u64, contents: Vec<Fresh>) -> Result<Vec<Fresh>, PerError>
    requires { AllByRecursion (λ x. length x.bytes ≤ 1048576) contents.items }
    ensures { viewed_items (λ x. x.items) result ≡ plans.within_limits maximum contents.items }
{
    if contents.len() > MAX_ELEMENTS {
        return Err(PerError::LimitReached {
            which: Limit::Elements,
        });
    }
    let needed = size_of(contents.as_slice());
    if needed > maximum {
        return Err(PerError::OutOfStorageSpace {
            needed,
            allowed: maximum,
        });
    }
    Ok(contents)
}

/// The bytes of the names and contents together.
fn size_of(contents: &[Fresh]) -> u64
    requires few { length contents.now ≤ 1024 }
    requires small { AllByRecursion (λ x. length x.bytes ≤ 1048576) contents.now }
    ensures { result ≡ sum_by fresh_size contents.now }
{
    let mut total: u64 = 0;
    for fresh in contents {
        total += element_size(&fresh.name, fresh.bytes.len() as u32);
    }
    total
}
