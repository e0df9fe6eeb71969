//! The parts of a manifest, and what is said of each.

ghost use Rattle.std.specs.Prelude.{◌≡◌, ◌++◌, map, option_map, IfOk};
ghost use Rattle.serde_json.specs.View.{view};
ghost use Rattle.value_model.specs.Views.{kind_of};
ghost use Rattle.per_base.specs.declared.elements.StoreKind.TheVariants.{Files, Keys};
ghost use Rattle.manifest.specs.Parts.{agreeing_in, all_elements, collection_in, collection_said, copies_in, elements};
ghost use Rattle.manifest.specs.Parts.{elements_word, maximum_in, minimum_in, name_in, read_only_in, things_of_kind};
ghost use Rattle.manifest.specs.Parts.{redundancy_in, scope_in, scope_said, storages, strategy_in, strategy_said};
ghost use Rattle.manifest.specs.Parts.{type_in, version_in};
ghost use Rattle.manifest.specs.Views.{listed_view, listed_views};

use crate::values::{small_number, text, things, whole_number};
use deployment_model::{CollectionStrategy, ElementStrategy};
use per_base::{Scope, StoreKind};
use serde_json::Value;
use std::alloc::{AllocError, Global};
use value_model::{DecodeError, ValueType};
use value_text::parse_type;

/// The greatest size of a storage, in bytes, where the manifest says none.
const DEFAULT_MAXIMUM: u64 = 1_048_576;

/// A storage as the manifest lists it, or one of its elements: whether it is of keys or files, and its JSON value.
#[derive(Clone, Copy)]
pub(crate) struct ListedThing<'a> {
    pub kind: StoreKind,
    pub value: &'a Value,
}

/// The storages of keys, and then those of files.
#[tactic(auto, unfolding(crate::specs::Parts::storages))]
pub(crate) fn storages_of(
    alloc: Global,
    manifest: &Value,
) -> Result<Vec<ListedThing<'_>>, AllocError>
    ensures { IfOk result (λ found. listed_views found.items ≡ storages (view manifest.now)) }
{
    let mut found = Vec::new(alloc);
    push_listed(
        StoreKind::Keys,
        things(manifest, "keyValueStorages"),
        &mut found,
    )?;
    push_listed(
        StoreKind::Files,
        things(manifest, "fileStorages"),
        &mut found,
    )?;
    Ok(found)
}

/// The elements of a storage.
pub(crate) fn listed_elements<'a>(
    alloc: Global,
    storage: ListedThing<'a>,
) -> Result<Vec<ListedThing<'a>>, AllocError>
    ensures { IfOk result (λ found. listed_views found.items ≡ elements (listed_view storage.entry)) }
{
    let mut found = Vec::new(alloc);
    push_listed(storage.kind, element_list(storage), &mut found)?;
    Ok(found)
}

/// The elements of all storages, one storage after another.
pub(crate) fn elements_of<'a>(
    alloc: Global,
    storages: &[ListedThing<'a>],
) -> Result<Vec<ListedThing<'a>>, AllocError>
    ensures { IfOk result (λ found. listed_views found.items ≡ all_elements (listed_views storages.now)) }
{
    let mut found = Vec::new(alloc);
    for storage in storages {
        push_listed(storage.kind, element_list(*storage), &mut found)?;
    }
    Ok(found)
}

fn push_listed<'a>(
    kind: StoreKind,
    things: &'a [Value],
    found: &mut Vec<ListedThing<'a>>,
) -> Result<(), AllocError>
    ensures { IfOk result (λ _. listed_views found.new.items
        ≡ listed_views found.old.items ++ things_of_kind kind (map view things.now)) }
{
    for value in things {
        found.push(ListedThing { kind, value })?;
    }
    Ok(())
}

/// The word for the elements of a storage of this kind.
pub(crate) fn elements_word(kind: StoreKind) -> &'static str
    ensures { result.now ≡ elements_word kind }
{
    match kind {
        StoreKind::Keys => "keyValuePairs",
        StoreKind::Files => "files",
    }
}

/// What is listed as the elements of a storage.
#[tactic(auto, unfolding(crate::specs::Parts::elements))]
pub(crate) fn element_list(storage: ListedThing<'_>) -> &[Value]
    ensures { things_of_kind storage.entry.kind (map view result.now) ≡ elements (listed_view storage.entry) }
{
    things(storage.value, elements_word(storage.kind))
}

/// The name, or the empty text.
#[tactic(auto, unfolding(crate::specs::Parts::name_in))]
pub(crate) fn name_of(value: &Value) -> &str
    ensures { result.now ≡ name_in (view value.now) }
{
    text(value, "name").unwrap_or("")
}

/// The version, where it is a whole number that 32 bits hold.
#[tactic(auto, unfolding(crate::specs::Parts::version_in))]
pub(crate) fn version_of(manifest: &Value) -> Option<u32>
    ensures { result ≡ version_in (view manifest.now) }
{
    small_number(manifest, "version")
}

/// The bytes that a storage needs at least; 0 where the manifest says nothing.
#[tactic(auto, unfolding(crate::specs::Parts::minimum_in))]
pub(crate) fn minimum_of(storage: &Value) -> u64
    ensures { result ≡ minimum_in (view storage.now) }
{
    whole_number(storage, "minimumSustainedSize").unwrap_or(0)
}

/// The most bytes of a storage; 1 MiB where the manifest says nothing.
#[tactic(auto, unfolding(crate::specs::Parts::maximum_in))]
pub(crate) fn maximum_of(storage: &Value) -> u64
    ensures { result ≡ maximum_in (view storage.now) }
{
    whole_number(storage, "maximumAllowedSize").unwrap_or(DEFAULT_MAXIMUM)
}

/// The strategy of a storage that the word denotes.
#[tactic(auto, unfolding(crate::specs::Parts::collection_said))]
pub(crate) fn collection_said(word: &str) -> Option<CollectionStrategy>
    ensures { result ≡ collection_said word.now }
{
    if word == "keepExisting" {
        return Some(CollectionStrategy::KeepExisting);
    }
    if word == "delete" {
        return Some(CollectionStrategy::Delete);
    }
    None
}

/// The update strategy of a storage, where one is said.
#[tactic(auto, unfolding(crate::specs::Parts::collection_in))]
pub(crate) fn collection_of(storage: &Value) -> Option<CollectionStrategy>
    ensures { result ≡ collection_in (view storage.now) }
{
    match text(storage, "updateStrategy") {
        Some(word) => collection_said(word),
        None => None,
    }
}

/// Whether a storage is read-only, where it is said.
#[tactic(auto, unfolding(crate::specs::Parts::read_only_in))]
pub(crate) fn read_only_of(storage: &Value) -> Option<bool>
    ensures { result ≡ read_only_in (view storage.now) }
{
    storage.get("readOnly").and_then(Value::as_bool)
}

/// The member that says how many of how many copies of a storage must agree.
pub(crate) fn redundancy_of(storage: &Value) -> Option<&Value>
    ensures { option_map (λ r. view r.now) result ≡ redundancy_in (view storage.now) }
{
    storage.get("redundancy")
}

/// How many copies must agree, where it is said.
#[tactic(auto, unfolding(crate::specs::Parts::agreeing_in))]
pub(crate) fn agreeing_of(redundancy: &Value) -> Option<u32>
    ensures { result ≡ agreeing_in (view redundancy.now) }
{
    small_number(redundancy, "m")
}

/// How many copies there are, where it is said.
#[tactic(auto, unfolding(crate::specs::Parts::copies_in))]
pub(crate) fn copies_of(redundancy: &Value) -> Option<u32>
    ensures { result ≡ copies_in (view redundancy.now) }
{
    small_number(redundancy, "n")
}

/// The scope that the word denotes.
#[tactic(auto, unfolding(crate::specs::Parts::scope_said))]
pub(crate) fn scope_said(word: &str) -> Option<Scope>
    ensures { result ≡ scope_said word.now }
{
    if word == "element" {
        return Some(Scope::Element);
    }
    if word == "storage" {
        return Some(Scope::Storage);
    }
    None
}

/// What must agree, where it is said.
#[tactic(auto, unfolding(crate::specs::Parts::scope_in))]
pub(crate) fn scope_of(redundancy: &Value) -> Option<Scope>
    ensures { result ≡ scope_in (view redundancy.now) }
{
    match text(redundancy, "scope") {
        Some(word) => scope_said(word),
        None => None,
    }
}

/// The strategy of an element that the word denotes.
#[tactic(auto, unfolding(crate::specs::Parts::strategy_said))]
pub(crate) fn strategy_said(word: &str) -> Option<ElementStrategy>
    ensures { result ≡ strategy_said word.now }
{
    if word == "keepExisting" {
        return Some(ElementStrategy::KeepExisting);
    }
    if word == "overwrite" {
        return Some(ElementStrategy::Overwrite);
    }
    if word == "delete" {
        return Some(ElementStrategy::Delete);
    }
    None
}

/// The update strategy of an element, where one is said.
#[tactic(auto, unfolding(crate::specs::Parts::strategy_in))]
pub(crate) fn strategy_of(element: &Value) -> Option<ElementStrategy>
    ensures { result ≡ strategy_in (view element.now) }
{
    match text(element, "updateStrategy") {
        Some(word) => strategy_said(word),
        None => None,
    }
}

/// The type of a key; none where it is not said or is no type text.
#[tactic(auto, unfolding(crate::specs::Parts::type_in))]
pub(crate) fn type_of(alloc: Global, key: &Value) -> Result<Option<ValueType>, AllocError>
    ensures { IfOk result (λ t. option_map kind_of t ≡ type_in (view key.now)) }
{
    let Some(text) = text(key, "type") else {
        return Ok(None);
    };
    match parse_type(alloc, text.as_bytes()) {
        Ok(value_type) => Ok(Some(value_type)),
        Err(DecodeError::NotAValue) => Ok(None),
        Err(DecodeError::OutOfMemory) => Err(AllocError),
    }
}
