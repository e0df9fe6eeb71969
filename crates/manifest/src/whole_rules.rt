//! The rules of a manifest as a whole: 3 to 7, in order.

ghost use Rattle.std.specs.Prelude.{◌≡◌};
ghost use Rattle.serde_json.specs.View.{view};
ghost use Rattle.manifest.specs.Parts.{storages};
ghost use Rattle.manifest.specs.Reading.{Judges};
ghost use Rattle.manifest.specs.Rules.{first_broken, has_few_storages, has_known_members, has_version, is_an_object};
ghost use Rattle.manifest.specs.Rules.{lists_storages, whole_rules};

use crate::errors::ManifestError;
use crate::parts::version_of;
use crate::values::{may_list_objects, things};
use crate::words::has_manifest_members;
use serde_json::Value;

/// The most storages of an application.
const MAX_STORAGES: usize = 16;

/// Checks rules 3 to 7, and gives the first that is violated.
pub(crate) fn check_whole(manifest: &Value) -> Result<(), ManifestError>
    ensures { Judges result (first_broken whole_rules (view manifest.now)) }
{
    if !is_an_object(manifest) {
        return Err(ManifestError::Rejected(3));
    }
    if !has_version(manifest) {
        return Err(ManifestError::Rejected(4));
    }
    if !lists_storages(manifest) {
        return Err(ManifestError::Rejected(5));
    }
    if !has_known_members(manifest) {
        return Err(ManifestError::Rejected(6));
    }
    if !has_few_storages(manifest) {
        return Err(ManifestError::Rejected(7));
    }
    Ok(())
}

/// Rule 3: the value is an object.
#[tactic(auto, unfolding(crate::specs::Rules::is_an_object))]
fn is_an_object(manifest: &Value) -> bool
    ensures { result ≡ is_an_object (view manifest.now) }
{
    manifest.is_object()
}

/// Rule 4: the version is there and is a whole number from 1 to 4,294,967,295.
#[tactic(auto, unfolding(crate::specs::Rules::has_version))]
fn has_version(manifest: &Value) -> bool
    ensures { result ≡ has_version (view manifest.now) }
{
    match version_of(manifest) {
        Some(version) => 1 <= version,
        None => false,
    }
}

/// Rule 5: both lists of storages, where they are there, are lists of objects.
#[tactic(auto, unfolding(crate::specs::Rules::lists_storages))]
fn lists_storages(manifest: &Value) -> bool
    ensures { result ≡ lists_storages (view manifest.now) }
{
    may_list_objects(manifest, "keyValueStorages") && may_list_objects(manifest, "fileStorages")
}

/// Rule 6: there are no other members.
#[tactic(auto, unfolding(crate::specs::Rules::has_known_members))]
fn has_known_members(manifest: &Value) -> bool
    ensures { result ≡ has_known_members (view manifest.now) }
{
    has_manifest_members(manifest)
}

/// Rule 7: there are at most 16 storages in both lists together.
#[tactic(auto, unfolding(crate::specs::Rules::has_few_storages, crate::specs::Parts::storages))]
fn has_few_storages(manifest: &Value) -> bool
    ensures { result ≡ has_few_storages (view manifest.now) }
{
    let keys = things(manifest, "keyValueStorages").len();
    let files = things(manifest, "fileStorages").len();
    keys <= MAX_STORAGES && files <= MAX_STORAGES - keys
}
