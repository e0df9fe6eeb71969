//! Deployments, storages and elements, as they are configured.

ghost use Rattle.std.specs.Prelude.{◌≡◌, IfOk, map};
ghost use Rattle.deployment_model.specs.Data.{deployment_data, element_data, storage_data};

use per_base::{Bytes, Name, Scope, Sequence, StoreKind};
use std::alloc::{AllocError, Global};
use value_model::ValueType;

/// What an update does with the elements of a storage for which nothing else is said.
#[derive(Clone, Copy, Debug, PartialEq, Eq)]
pub enum CollectionStrategy {
    /// Stored elements stay.
    KeepExisting,
    /// Stored elements go.
    Delete,
}

/// What an update does with one element.
#[derive(Clone, Copy, Debug, PartialEq, Eq)]
pub enum ElementStrategy {
    /// A stored element stays.
    KeepExisting,
    /// The element gets its initial content, whatever is stored.
    Overwrite,
    /// The element goes.
    Delete,
}

/// A key or a file that is configured.
#[derive(Debug, Drop)]
pub struct ElementConfig {
    pub name: Name,
    /// The type of a key's values; none for a file.
    pub value_type: Option<ValueType>,
    /// What the element starts with: the encoding of a value, or the content of a file.
    pub initial: Option<Bytes>,
    /// What an update does with it; with none, what the storage says.
    pub strategy: Option<ElementStrategy>,
}

/// A storage, as it is configured.
#[derive(Debug, Drop)]
pub struct StorageConfig {
    pub name: Name,
    /// Whether its elements are keys or files.
    pub kind: StoreKind,
    /// The bytes that the storage needs at least; it is never above the maximum.
    pub minimum: u64,
    /// The most bytes that its names and contents may have together.
    pub maximum: u64,
    /// What an update does with the elements that have no strategy of their own.
    pub strategy: CollectionStrategy,
    /// Whether the application may only read it.
    pub read_only: bool,
    /// How many of the `n` copies must agree.
    pub m: u32,
    /// How many copies the storage has.
    pub n: u32,
    /// What must agree in `m` copies: each element by itself, or the whole storage.
    pub scope: Scope,
    /// The configured elements, ascending by name.
    pub elements: Sequence<ElementConfig>,
}

/// The storages of an application, at one version.
#[derive(Debug, Drop)]
pub struct Deployment {
    /// The version, which the rules ask to be at least 1.
    pub version: u32,
    /// The storages, ascending by name. The number of a storage is its place in this list, from 0.
    pub storages: Sequence<StorageConfig>,
}

impl ElementConfig {
    /// An equal copy; the error says that memory ran out.
    pub fn copy(&self, alloc: Global) -> Result<ElementConfig, AllocError>
        ensures { IfOk result (λ copy. element_data copy ≡ element_data self.now) }
    {
        let name = self.name.copy()?;
        let value_type = match &self.value_type {
            Some(value_type) => Some(value_type.copy(alloc)?),
            None => None,
        };
        let initial = match &self.initial {
            Some(initial) => Some(initial.copy()?),
            None => None,
        };
        Ok(ElementConfig {
            name,
            value_type,
            initial,
            strategy: self.strategy,
        })
    }
}

impl StorageConfig {
    /// An equal copy; the error says that memory ran out.
    pub fn copy(&self, alloc: Global) -> Result<StorageConfig, AllocError>
        ensures { IfOk result (λ copy. storage_data copy ≡ storage_data self.now) }
    {
        let name = self.name.copy()?;
        let elements = element_copies(alloc, self.elements.as_slice())?;
        Ok(StorageConfig {
            name,
            kind: self.kind,
            minimum: self.minimum,
            maximum: self.maximum,
            strategy: self.strategy,
            read_only: self.read_only,
            m: self.m,
            n: self.n,
            scope: self.scope,
            elements: Sequence::new(elements),
        })
    }
}

impl Deployment {
    /// An equal copy; the error says that memory ran out.
    pub fn copy(&self, alloc: Global) -> Result<Deployment, AllocError>
        ensures { IfOk result (λ copy. deployment_data copy ≡ deployment_data self.now) }
    {
        let storages = storage_copies(alloc, self.storages.as_slice())?;
        Ok(Deployment {
            version: self.version,
            storages: Sequence::new(storages),
        })
    }
}

fn element_copies(
    alloc: Global,
    elements: &[ElementConfig],
) -> Result<Vec<ElementConfig>, AllocError>
    ensures { IfOk result (λ copies. map element_data copies.items ≡ map element_data elements.now) }
{
    let mut copies = Vec::new(alloc);
    for element in elements {
        copies.push(element.copy(alloc)?)?;
    }
    Ok(copies)
}

fn storage_copies(
    alloc: Global,
    storages: &[StorageConfig],
) -> Result<Vec<StorageConfig>, AllocError>
    ensures { IfOk result (λ copies. map storage_data copies.items ≡ map storage_data storages.now) }
{
    let mut copies = Vec::new(alloc);
    for storage in storages {
        copies.push(storage.copy(alloc)?)?;
    }
    Ok(copies)
}
