//! The members that objects of a manifest may have.

ghost use Rattle.std.specs.Prelude.{◌≡◌, [], ◌∷◌, codes};
ghost use Rattle.serde_json.specs.View.{view};
ghost use Rattle.manifest.specs.Rules.{element_words, has_element_members, has_storage_members, storage_words};
ghost use Rattle.manifest.specs.Values.{has_only, one_of};
ghost use Rattle.manifest.specs.Views.{listed_view};

use crate::parts::{ListedThing, elements_word};
use per_base::StoreKind;
use serde_json::Value;

/// Whether a manifest has no other members than it may have.
pub(crate) fn has_manifest_members(manifest: &Value) -> bool
    ensures { result
        ≡ has_only (codes "version" ∷ codes "keyValueStorages" ∷ codes "fileStorages" ∷ []) (view manifest.now) }
{
    match manifest.as_object() {
        Some(members) => members.keys().all(|name| is_manifest_word(name.as_str())),
        None => true,
    }
}

fn is_manifest_word(word: &str) -> bool
    ensures { result ≡ one_of (codes "version" ∷ codes "keyValueStorages" ∷ codes "fileStorages" ∷ []) word.now }
{
    word == "version" || word == "keyValueStorages" || word == "fileStorages"
}

/// Whether a storage has no other members than one of its kind may have.
#[tactic(auto, unfolding(crate::specs::Rules::has_storage_members))]
pub(crate) fn has_storage_members(storage: ListedThing<'_>) -> bool
    ensures { result ≡ has_storage_members (listed_view storage.entry) }
{
    match storage.value.as_object() {
        Some(members) => members
            .keys()
            .all(|name| is_storage_word(storage.kind, name.as_str())),
        None => true,
    }
}

fn is_storage_word(kind: StoreKind, word: &str) -> bool
    ensures { result ≡ one_of (storage_words kind) word.now }
{
    word == "name"
        || word == "minimumSustainedSize"
        || word == "maximumAllowedSize"
        || word == "updateStrategy"
        || word == "readOnly"
        || word == "redundancy"
        || word == elements_word(kind)
}

/// Whether a redundancy has no other members than it may have.
pub(crate) fn has_redundancy_members(redundancy: &Value) -> bool
    ensures { result ≡ has_only (codes "m" ∷ codes "n" ∷ codes "scope" ∷ []) (view redundancy.now) }
{
    match redundancy.as_object() {
        Some(members) => members.keys().all(|name| is_redundancy_word(name.as_str())),
        None => true,
    }
}

fn is_redundancy_word(word: &str) -> bool
    ensures { result ≡ one_of (codes "m" ∷ codes "n" ∷ codes "scope" ∷ []) word.now }
{
    word == "m" || word == "n" || word == "scope"
}

/// Whether an element has no other members than one of its kind may have.
#[tactic(auto, unfolding(crate::specs::Rules::has_element_members))]
pub(crate) fn has_element_members(element: ListedThing<'_>) -> bool
    ensures { result ≡ has_element_members (listed_view element.entry) }
{
    match element.value.as_object() {
        Some(members) => members
            .keys()
            .all(|name| is_element_word(element.kind, name.as_str())),
        None => true,
    }
}

fn is_element_word(kind: StoreKind, word: &str) -> bool
    ensures { result ≡ one_of (element_words kind) word.now }
{
    match kind {
        StoreKind::Keys => is_key_word(word),
        StoreKind::Files => is_file_word(word),
    }
}

fn is_key_word(word: &str) -> bool
    ensures { result ≡ one_of (codes "name" ∷ codes "type" ∷ codes "initial" ∷ codes "updateStrategy" ∷ []) word.now }
{
    word == "name" || word == "type" || word == "initial" || word == "updateStrategy"
}

fn is_file_word(word: &str) -> bool
    ensures { result ≡ one_of (codes "name" ∷ codes "initial" ∷ codes "updateStrategy" ∷ []) word.now }
{
    word == "name" || word == "initial" || word == "updateStrategy"
}
