//! What is stored before an update.

ghost use Rattle.std.specs.Prelude.{◌≡◌, find, option_map};
ghost use Rattle.deployment_model.specs.Conditions.{IsDeployment, IsStorage};
ghost use Rattle.deployment_model.specs.Data.{deployment_data, storage_data};
ghost use Rattle.update_plan.specs.Plans.{contents_named, is_kind, or_missing, stored_for};

use deployment_model::{Deployment, StorageConfig};
use per_base::{Entry, Name, Sequence, StoreKind};

/// What is stored of a storage.
#[derive(Debug, Drop)]
pub enum StorageContents {
    /// There is no such storage.
    Missing,
    /// The storage does not open.
    Damaged,
    /// Its elements, ascending by name.
    Present(Sequence<Entry>),
}

/// The name of a storage of the old version, and what is stored of it.
#[derive(Debug, Drop)]
pub struct Stored {
    pub name: Name,
    pub contents: StorageContents,
}

/// What is stored of several storages. Of two with one name the first counts.
pub type Contents = Sequence<Stored>;

/// What is stored of the storage of this name.
fn contents_named<'a>(contents: &'a [Stored], name: &Name) -> Option<&'a StorageContents>
    ensures { or_missing result ≡ contents_named contents.now name.now }
{
    for stored in contents {
        if stored.name == *name {
            return Some(&stored.contents);
        }
    }
    None
}

/// Whether two kinds are the same.
fn is_kind(one: StoreKind, other: StoreKind) -> bool
    ensures { result ≡ is_kind one other }
{
    one == other
}

/// What a storage of the new version starts from.
pub(crate) fn stored_for<'a>(
    old: &Deployment,
    contents: &'a [Stored],
    storage: &StorageConfig,
) -> Option<&'a StorageContents>
    requires { IsDeployment (deployment_data old.now) }
    ensures { or_missing result ≡ stored_for (deployment_data old.now) contents.now (storage_data storage.now) }
{
    let before = old.storage(&storage.name)?;
    if !is_kind(before.kind, storage.kind) {
        return None;
    }
    contents_named(contents, &storage.name)
}
