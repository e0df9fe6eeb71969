//! Opening a storage of keys on a disk.

ghost use Rattle.std.specs.Prelude.{◌≡◌, ◌≢◌, ℕ, IfOk, IsErrOf, IsSomeAnd, IsTrue, Option, Some};
ghost use Rattle.per_base.specs.Causes.{Rose};
ghost use Rattle.per_base.specs.declared.elements.StoreKind.TheVariants.{Keys};
ghost use Rattle.deployment_model.specs.Conditions.{IsStorage};
ghost use Rattle.deployment_model.specs.Data.{deployment_data, storage_data};
ghost use Rattle.deployment_model.specs.Lookups.{storage_named};
ghost use Rattle.element_maps.specs.Storages.{IsConfigured};
ghost use Rattle.deploy_laws.specs.Apps.{installed, says_at};
ghost use Rattle.deploy_laws.specs.Places.{Named};
ghost use Rattle.deploy.specs.Roots.{IsRootOf};
ghost use Rattle.per_embed.specs.Owned.{IsOpenOn, IsSaved};

use crate::installing::{APP, installed};
use crate::storages::KeyStorage;
use deploy::{Installed, Root, shape_of};
use deployment_model::StorageConfig;
use disk_model::Disk;
use element_state::{Shape, StoreError};
use kvs_store::{OpenedKvs, open_kvs};
use per_base::{Name, PerError, StoreKind, Unit};
use std::alloc::Global;

impl<D: Disk + Drop> KeyStorage<D> {
    /// Opens the storage of keys of this name, on a disk that the storage owns from then on. Where nothing is
    /// installed, a manifest is, at a moment in seconds since 1970, on a disk that is formatted before if it never was.
    /// What is installed stays, whatever the manifest says.
    ///
    /// # Errors
    ///
    /// `StorageNotFound` where no storage of keys has the name; `IntegrityCorrupted` with the root or the storage where
    /// too few copies of it are left; `ManifestRejected` with the first violated rule; `LimitReached` with
    /// `Generations` where the root has none left; `PhysicalStorageFailure` where the disk fails; `OutOfMemory`. The
    /// disk is dropped.
    pub fn open(
        alloc: Global,
        disk: D,
        manifest: &str,
        name: &Name,
        now: u64,
    ) -> Result<KeyStorage<D>, PerError>
        // It is open, and nothing is pending.
        ensures saved { IfOk result (λ s. IsSomeAnd s.kvs IsSaved) }
        // Where a version was installed, the storage is the one of this name in its active version.
        ensures stands { IsTrue D.told → (generation : ℕ) (active : Named) (previous : Option Named)
            → says_at (D.medium disk).image 0 ≡ installed generation active previous
            → IfOk result (λ s. IsSomeAnd s.kvs (λ kvs. storage_named active.deployment name.now
            ≡ Some kvs.config)) }
    {
        let mut disk = disk;
        let version = installed(alloc, &mut disk, manifest, now)?;
        let OpenedKvs { kvs, reports } = open_in(alloc, &mut disk, &version, name)?;
        Ok(KeyStorage {
            disk,
            kvs: Some(kvs),
            reports,
        })
    }
}

/// Opens the storage of keys of this name in the version that is installed.
fn open_in<D: Disk>(
    alloc: Global,
    disk: &mut D,
    version: &Installed,
    name: &Name,
) -> Result<OpenedKvs, PerError>
    requires { IsRootOf 0 (Root.Installed version.now) }
    ensures rest { IfOk result (λ o. IsOpenOn D.told (D.medium disk.new) o.kvs) }
    ensures saved { IfOk result (λ o. IsSaved o.kvs) }
    ensures config { IfOk result (λ o. storage_named (deployment_data version.now.active.deployment) name.now
        ≡ Some o.kvs.config) }
    ensures cause { IsErrOf result PerError.PhysicalStorageFailure
        → Rose (D.medium disk.old).faults (D.medium disk.new).faults }
{
    let deployment = &version.active.deployment;
    let Some(number) = deployment.number(name) else {
        return Err(PerError::StorageNotFound);
    };
    let Some(config) = deployment.storage(name) else {
        return Err(PerError::StorageNotFound);
    };
    if config.kind != StoreKind::Keys {
        return Err(PerError::StorageNotFound);
    }
    let Ok(shape) = shape_of(APP, version.bank, number as u32, config) else {
        return Err(PerError::OutOfMemory);
    };
    open_at(alloc, disk, shape, config)
}

/// Opens the storage of keys at a shape, as it is configured.
fn open_at<D: Disk>(
    alloc: Global,
    disk: &mut D,
    shape: Shape,
    config: &StorageConfig,
) -> Result<OpenedKvs, PerError>
    requires valid { IsStorage (storage_data config.now) }
    requires configured { IsConfigured Keys (storage_data config.now) shape }
    ensures rest { IfOk result (λ o. IsOpenOn D.told (D.medium disk.new) o.kvs) }
    ensures saved { IfOk result (λ o. IsSaved o.kvs) }
    ensures config { IfOk result (λ o. o.kvs.config ≡ storage_data config.now) }
    ensures cause { IsErrOf result PerError.PhysicalStorageFailure
        → Rose (D.medium disk.old).faults (D.medium disk.new).faults }
{
    match open_kvs(alloc, disk, shape, config) {
        Ok(opened) => {
            opened.kvs.invariants();
            Ok(opened)
        }
        Err(StoreError::Corrupt) => Err(corrupt(&config.name)),
        Err(StoreError::Device) => Err(PerError::PhysicalStorageFailure),
        Err(StoreError::OutOfMemory) => Err(PerError::OutOfMemory),
    }
}

/// Says that a storage is corrupt.
fn corrupt(name: &Name) -> PerError
    ensures { result ≢ PerError.PhysicalStorageFailure }
{
    match name.copy() {
        Ok(name) => PerError::IntegrityCorrupted {
            unit: Unit::Whole(name),
        },
        Err(_) => PerError::OutOfMemory,
    }
}
