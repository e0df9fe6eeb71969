//! The rules of elements: 19 to 24, in order.

ghost use Rattle.std.specs.Prelude.{◌≡◌, ◌&&◌, ◌||◌, IfOk, codes, is_some, nat_le, not, sum_by};
ghost use Rattle.deployment_model.specs.Conditions.{overwrites};
ghost use Rattle.serde_json.specs.Find.{get};
ghost use Rattle.serde_json.specs.View.{view};
ghost use Rattle.manifest.specs.Parts.{all_elements, elements, strategy_in};
ghost use Rattle.manifest.specs.Reading.{Judges};
ghost use Rattle.manifest.specs.Rules.{are_named, element_rules, elements_are_named, elements_differ};
ghost use Rattle.manifest.specs.Rules.{elements_have_known_members, elements_have_strategies, first_broken};
ghost use Rattle.manifest.specs.Rules.{has_different_elements, has_element_members, has_room, has_strategy, has_type};
ghost use Rattle.manifest.specs.Rules.{initial_size, initials_are_read, initials_fit, keys_have_types, may_start};
ghost use Rattle.manifest.specs.Rules.{says_strategy};
ghost use Rattle.manifest.specs.Values.{may_be};
ghost use Rattle.manifest.specs.Views.{listed_view, listed_views};

use crate::errors::ManifestError;
use crate::initials::initial_of;
use crate::names::{are_named, names_differ};
use crate::parts::{
    ListedThing, elements_of, listed_elements, maximum_of, name_of, strategy_of, strategy_said,
    type_of,
};
use crate::words::has_element_members;
use deployment_model::ElementStrategy;
use per_base::StoreKind;
use serde_json::Value;
use std::alloc::{AllocError, Global};

/// Checks rules 19 to 24, and gives the first that is violated.
pub(crate) fn check_elements(
    alloc: Global,
    storages: &[ListedThing<'_>],
) -> Result<(), ManifestError>
    ensures { Judges result (first_broken element_rules (listed_views storages.now)) }
{
    let elements = elements_of(alloc, storages)?;
    let elements = elements.as_slice();
    if !elements_have_known_members(elements) {
        return Err(ManifestError::Rejected(19));
    }
    if !elements_are_named(alloc, storages, elements)? {
        return Err(ManifestError::Rejected(20));
    }
    if !keys_have_types(alloc, elements)? {
        return Err(ManifestError::Rejected(21));
    }
    if !initials_are_read(alloc, elements)? {
        return Err(ManifestError::Rejected(22));
    }
    if !elements_have_strategies(elements) {
        return Err(ManifestError::Rejected(23));
    }
    if !initials_fit(alloc, storages)? {
        return Err(ManifestError::Rejected(24));
    }
    Ok(())
}

/// Rule 19: no element has a member that is not for its kind.
#[tactic(auto, unfolding(crate::specs::Rules::elements_have_known_members))]
fn elements_have_known_members(elements: &[ListedThing<'_>]) -> bool
    ensures { result ≡ elements_have_known_members (listed_views elements.now) }
{
    elements.iter().all(|element| has_element_members(*element))
}

/// Rule 20: every element has a name, and no two of a storage have the same.
fn elements_are_named(
    alloc: Global,
    storages: &[ListedThing<'_>],
    elements: &[ListedThing<'_>],
) -> Result<bool, AllocError>
    requires { listed_views elements.now ≡ all_elements (listed_views storages.now) }
    ensures { IfOk result (λ named. named ≡ elements_are_named (listed_views storages.now)) }
{
    if !are_named(alloc, elements)? {
        return Ok(false);
    }
    elements_differ(alloc, storages)
}

#[tactic(auto, unfolding(crate::specs::Rules::elements_differ))]
fn elements_differ(alloc: Global, storages: &[ListedThing<'_>]) -> Result<bool, AllocError>
    ensures { IfOk result (λ differ. differ ≡ elements_differ (listed_views storages.now)) }
{
    for storage in storages {
        if !has_different_elements(alloc, *storage)? {
            return Ok(false);
        }
    }
    Ok(true)
}

#[tactic(auto, unfolding(crate::specs::Rules::has_different_elements))]
fn has_different_elements(alloc: Global, storage: ListedThing<'_>) -> Result<bool, AllocError>
    ensures { IfOk result (λ differ. differ ≡ has_different_elements (listed_view storage.entry)) }
{
    let elements = listed_elements(alloc, storage)?;
    names_differ(alloc, elements.as_slice())
}

/// Rule 21: every key has a type, of depth at most 8.
#[tactic(auto, unfolding(crate::specs::Rules::keys_have_types))]
fn keys_have_types(alloc: Global, elements: &[ListedThing<'_>]) -> Result<bool, AllocError>
    ensures { IfOk result (λ typed. typed ≡ keys_have_types (listed_views elements.now)) }
{
    for element in elements {
        if !has_type(alloc, *element)? {
            return Ok(false);
        }
    }
    Ok(true)
}

#[tactic(auto, unfolding(crate::specs::Rules::has_type))]
fn has_type(alloc: Global, element: ListedThing<'_>) -> Result<bool, AllocError>
    ensures { IfOk result (λ typed. typed ≡ has_type (listed_view element.entry)) }
{
    match element.kind {
        StoreKind::Keys => Ok(type_of(alloc, element.value)?.is_some()),
        StoreKind::Files => Ok(true),
    }
}

/// Rule 22: an initial content is the text of a value of the key's type, or hexadecimal digits for a file.
#[tactic(auto, unfolding(crate::specs::Rules::initials_are_read))]
fn initials_are_read(alloc: Global, elements: &[ListedThing<'_>]) -> Result<bool, AllocError>
    ensures { IfOk result (λ read. read ≡ initials_are_read (listed_views elements.now)) }
{
    for element in elements {
        if !may_start(alloc, *element)? {
            return Ok(false);
        }
    }
    Ok(true)
}

#[tactic(auto, unfolding(crate::specs::Rules::may_start))]
fn may_start(alloc: Global, element: ListedThing<'_>) -> Result<bool, AllocError>
    ensures { IfOk result (λ read. read ≡ may_start (listed_view element.entry)) }
{
    if element.value.get("initial").is_none() {
        return Ok(true);
    }
    Ok(initial_of(alloc, element)?.is_some())
}

/// Rule 23: the update strategy of an element is one of its three words, and what is overwritten has an initial
/// content.
#[tactic(auto, unfolding(crate::specs::Rules::elements_have_strategies))]
fn elements_have_strategies(elements: &[ListedThing<'_>]) -> bool
    ensures { result ≡ elements_have_strategies (listed_views elements.now) }
{
    elements.iter().all(|element| has_strategy(*element))
}

#[tactic(auto, unfolding(crate::specs::Rules::has_strategy))]
fn has_strategy(element: ListedThing<'_>) -> bool
    ensures { result ≡ has_strategy (listed_view element.entry) }
{
    may_say_strategy(element.value) && may_be_overwritten(element.value)
}

fn may_say_strategy(element: &Value) -> bool
    ensures { result ≡ may_be says_strategy (get (codes "updateStrategy") (view element.now)) }
{
    match element.get("updateStrategy") {
        Some(word) => says_strategy(word),
        None => true,
    }
}

fn says_strategy(word: &Value) -> bool
    ensures { result ≡ says_strategy (view word.now) }
{
    match word.as_str() {
        Some(word) => strategy_said(word).is_some(),
        None => false,
    }
}

fn may_be_overwritten(element: &Value) -> bool
    ensures { result
        ≡ (not (overwrites (strategy_in (view element.now))) || is_some (get (codes "initial") (view element.now))) }
{
    match strategy_of(element) {
        Some(ElementStrategy::Overwrite) => element.get("initial").is_some(),
        Some(ElementStrategy::KeepExisting) => true,
        Some(ElementStrategy::Delete) => true,
        None => true,
    }
}

/// Rule 24: in each storage the sizes of the elements with an initial content sum to at most the maximum.
#[tactic(auto, unfolding(crate::specs::Rules::initials_fit))]
fn initials_fit(alloc: Global, storages: &[ListedThing<'_>]) -> Result<bool, AllocError>
    ensures { IfOk result (λ fit. fit ≡ initials_fit (listed_views storages.now)) }
{
    for storage in storages {
        if !has_room(alloc, *storage)? {
            return Ok(false);
        }
    }
    Ok(true)
}

#[tactic(auto, unfolding(crate::specs::Rules::has_room))]
fn has_room(alloc: Global, storage: ListedThing<'_>) -> Result<bool, AllocError>
    ensures { IfOk result (λ fits. fits ≡ has_room (listed_view storage.entry)) }
{
    let elements = listed_elements(alloc, storage)?;
    fit_in(alloc, elements.as_slice(), maximum_of(storage.value))
}

fn fit_in(alloc: Global, elements: &[ListedThing<'_>], maximum: u64) -> Result<bool, AllocError>
    ensures { IfOk result (λ fit. fit ≡ nat_le (sum_by initial_size (listed_views elements.now)) maximum) }
{
    let mut room = maximum;
    for element in elements {
        let size = initial_size(alloc, *element)?;
        if size > room {
            return Ok(false);
        }
        room -= size;
    }
    Ok(true)
}

#[tactic(auto, unfolding(crate::specs::Rules::initial_size))]
fn initial_size(alloc: Global, element: ListedThing<'_>) -> Result<u64, AllocError>
    ensures { IfOk result (λ size. size ≡ initial_size (listed_view element.entry)) }
{
    let name = name_of(element.value);
    match initial_of(alloc, element)? {
        Some(bytes) => Ok(name.len() as u64 + bytes.len() as u64),
        None => Ok(0),
    }
}
