//! The deployment that a manifest says, where it breaks no rule.

ghost use Rattle.std.specs.Prelude.{◌≡◌, IfOk, map, option_map};
ghost use Rattle.std.specs.BTreeMap.{values};
ghost use Rattle.serde_json.specs.View.{view};
ghost use Rattle.value_model.specs.Views.{kind_of};
ghost use Rattle.deployment_model.specs.Data.{deployment_data, element_data, storage_data};
ghost use Rattle.manifest.specs.Contents.{deployment_said, element_said, storage_said};
ghost use Rattle.manifest.specs.Parts.{by_name, elements, storages, type_for};
ghost use Rattle.manifest.specs.Views.{listed_view, listed_views};

use crate::initials::initial_of;
use crate::names::named;
use crate::parts::{
    ListedThing, agreeing_of, collection_of, copies_of, listed_elements, maximum_of, minimum_of,
    name_of, read_only_of, redundancy_of, scope_of, strategy_of, type_of, version_of,
};
use deployment_model::{CollectionStrategy, Deployment, ElementConfig, StorageConfig};
use per_base::{Name, Scope, Sequence, StoreKind};
use serde_json::Value;
use std::alloc::{AllocError, Global};
use std::collections::BTreeMap;
use value_model::ValueType;

/// The deployment of a manifest with these storages, both lists in the order of names.
#[tactic(auto, unfolding(crate::specs::Contents::deployment_said))]
pub(crate) fn deployment_said(
    alloc: Global,
    manifest: &Value,
    listed: &[ListedThing<'_>],
) -> Result<Deployment, AllocError>
    requires { listed_views listed.now ≡ storages (view manifest.now) }
    ensures { IfOk result (λ d. deployment_data d ≡ deployment_said (view manifest.now)) }
{
    let ordered = by_name(alloc, listed)?;
    let configs = storage_configs(alloc, ordered.as_slice())?;
    Ok(Deployment {
        version: version_of(manifest).unwrap_or(0),
        storages: Sequence::new(configs),
    })
}

fn storage_configs(
    alloc: Global,
    storages: &[ListedThing<'_>],
) -> Result<Vec<StorageConfig>, AllocError>
    ensures { IfOk result (λ configs. map storage_data configs.items ≡ map storage_said (listed_views storages.now)) }
{
    let mut configs = Vec::new(alloc);
    for storage in storages {
        configs.push(storage_said(alloc, *storage)?)?;
    }
    Ok(configs)
}

#[tactic(auto, unfolding(crate::specs::Contents::storage_said))]
fn storage_said(alloc: Global, storage: ListedThing<'_>) -> Result<StorageConfig, AllocError>
    ensures { IfOk result (λ config. storage_data config ≡ storage_said (listed_view storage.entry)) }
{
    let value = storage.value;
    let name = checked_name(alloc, name_of(value))?;
    let elements = elements_said(alloc, storage)?;
    Ok(StorageConfig {
        name,
        kind: storage.kind,
        minimum: minimum_of(value),
        maximum: maximum_of(value),
        strategy: collection_of(value).unwrap_or(CollectionStrategy::KeepExisting),
        read_only: read_only_of(value).unwrap_or(false),
        m: redundancy_of(value).and_then(agreeing_of).unwrap_or(1),
        n: redundancy_of(value).and_then(copies_of).unwrap_or(1),
        scope: redundancy_of(value)
            .and_then(scope_of)
            .unwrap_or(Scope::Element),
        elements: Sequence::new(elements),
    })
}

/// The name with this text. Where the rules are kept every name is in the grammar, and only memory can run out.
fn checked_name(alloc: Global, text: &str) -> Result<Name, AllocError>
    ensures { IfOk result (λ name. name ≡ text.now) }
{
    match Name::new(alloc, text) {
        Ok(name) => Ok(name),
        Err(_) => Err(AllocError),
    }
}

fn elements_said(alloc: Global, storage: ListedThing<'_>) -> Result<Vec<ElementConfig>, AllocError>
    ensures { IfOk result (λ configs. map element_data configs.items
        ≡ map element_said (by_name (elements (listed_view storage.entry)))) }
{
    let listed = listed_elements(alloc, storage)?;
    let ordered = by_name(alloc, listed.as_slice())?;
    element_configs(alloc, ordered.as_slice())
}

fn element_configs(
    alloc: Global,
    elements: &[ListedThing<'_>],
) -> Result<Vec<ElementConfig>, AllocError>
    ensures { IfOk result (λ configs. map element_data configs.items ≡ map element_said (listed_views elements.now)) }
{
    let mut configs = Vec::new(alloc);
    for element in elements {
        configs.push(element_said(alloc, *element)?)?;
    }
    Ok(configs)
}

#[tactic(auto, unfolding(crate::specs::Contents::element_said))]
fn element_said(alloc: Global, element: ListedThing<'_>) -> Result<ElementConfig, AllocError>
    ensures { IfOk result (λ config. element_data config ≡ element_said (listed_view element.entry)) }
{
    let name = checked_name(alloc, name_of(element.value))?;
    let value_type = type_for(alloc, element)?;
    let initial = initial_of(alloc, element)?;
    Ok(ElementConfig {
        name,
        value_type,
        initial,
        strategy: strategy_of(element.value),
    })
}

/// The type of a key, and none for a file.
fn type_for(alloc: Global, element: ListedThing<'_>) -> Result<Option<ValueType>, AllocError>
    ensures { IfOk result (λ t. option_map kind_of t ≡ type_for (listed_view element.entry)) }
{
    match element.kind {
        StoreKind::Keys => type_of(alloc, element.value),
        StoreKind::Files => Ok(None),
    }
}

/// The things in the order of their names.
fn by_name<'a>(
    alloc: Global,
    things: &[ListedThing<'a>],
) -> Result<Vec<ListedThing<'a>>, AllocError>
    ensures { IfOk result (λ ordered. listed_views ordered.items ≡ by_name (listed_views things.now)) }
{
    let found = named(alloc, things)?;
    let ordered = in_order(alloc, found)?;
    Ok(ordered)
}

fn in_order<'a>(
    alloc: Global,
    found: BTreeMap<&'a str, ListedThing<'a>>,
) -> Result<Vec<ListedThing<'a>>, AllocError>
    ensures { IfOk result (λ ordered. ordered.items ≡ values found.entry) }
{
    found.into_values().collect(alloc)
}
