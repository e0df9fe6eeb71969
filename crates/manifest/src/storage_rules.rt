//! The rules of storages: 8 to 18, in order.

ghost use Rattle.std.specs.Prelude.{◌≡◌, ◌≤◌, IfOk, codes, length, option_map, sum_by};
ghost use Rattle.serde_json.specs.Find.{get};
ghost use Rattle.serde_json.specs.View.{view};
ghost use Rattle.manifest.specs.Parts.{maximum_in};
ghost use Rattle.manifest.specs.Reading.{Judges};
ghost use Rattle.manifest.specs.Rules.{are_counts, are_named, collections_have_strategies, elements_are_few};
ghost use Rattle.manifest.specs.Rules.{first_broken, has_collection_strategy, has_counts, has_few_elements};
ghost use Rattle.manifest.specs.Rules.{has_minimum_below, has_redundancy, has_size, has_sizes, is_named, is_redundancy};
ghost use Rattle.manifest.specs.Rules.{maximums_fit_together, minimums_are_below, read_only_is_said};
ghost use Rattle.manifest.specs.Rules.{redundancies_are_objects, redundancies_have_counts, says_collection};
ghost use Rattle.manifest.specs.Rules.{says_counts, says_read_only, says_scope, sizes_are_in_range, storage_rules};
ghost use Rattle.manifest.specs.Rules.{storages_have_known_members};
ghost use Rattle.manifest.specs.Values.{may_be};
ghost use Rattle.manifest.specs.Views.{listed_view, listed_views};

use crate::errors::ManifestError;
use crate::names::{are_named, names_differ};
use crate::parts::{
    ListedThing, agreeing_of, collection_said, copies_of, element_list, elements_word, maximum_of,
    minimum_of, redundancy_of, scope_said,
};
use crate::values::may_list_objects;
use crate::words::{has_redundancy_members, has_storage_members};
use serde_json::Value;
use std::alloc::Global;

/// The most bytes that a storage may allow.
const MAX_SIZE: u64 = 4_194_304;

/// The most bytes that the storages of an application may allow together.
const MAX_SUM: u64 = 16_777_216;

/// The most copies of a storage.
const MAX_COPIES: u32 = 7;

/// The most elements of a storage.
const MAX_ELEMENTS: usize = 1024;

/// Checks rules 8 to 18, and gives the first that is violated.
pub(crate) fn check_storages(
    alloc: Global,
    storages: &[ListedThing<'_>],
) -> Result<(), ManifestError>
    ensures { Judges result (first_broken storage_rules (listed_views storages.now)) }
{
    if !storages_have_known_members(storages) {
        return Err(ManifestError::Rejected(8));
    }
    if !are_named(alloc, storages)? {
        return Err(ManifestError::Rejected(9));
    }
    if !names_differ(alloc, storages)? {
        return Err(ManifestError::Rejected(10));
    }
    if !sizes_are_in_range(storages) {
        return Err(ManifestError::Rejected(11));
    }
    if !minimums_are_below(storages) {
        return Err(ManifestError::Rejected(12));
    }
    if !maximums_fit_together(storages) {
        return Err(ManifestError::Rejected(13));
    }
    if !collections_have_strategies(storages) {
        return Err(ManifestError::Rejected(14));
    }
    if !read_only_is_said(storages) {
        return Err(ManifestError::Rejected(15));
    }
    if !redundancies_are_objects(storages) {
        return Err(ManifestError::Rejected(16));
    }
    if !redundancies_have_counts(storages) {
        return Err(ManifestError::Rejected(17));
    }
    if !elements_are_few(storages) {
        return Err(ManifestError::Rejected(18));
    }
    Ok(())
}

/// Rule 8: no storage has a member that is not for its kind.
#[tactic(auto, unfolding(crate::specs::Rules::storages_have_known_members))]
fn storages_have_known_members(storages: &[ListedThing<'_>]) -> bool
    ensures { result ≡ storages_have_known_members (listed_views storages.now) }
{
    storages.iter().all(|storage| has_storage_members(*storage))
}

/// Rule 11: the minimum is a whole number up to 4,194,304, and the maximum one from 1 to 4,194,304.
#[tactic(auto, unfolding(crate::specs::Rules::sizes_are_in_range))]
fn sizes_are_in_range(storages: &[ListedThing<'_>]) -> bool
    ensures { result ≡ sizes_are_in_range (listed_views storages.now) }
{
    storages.iter().all(|storage| has_sizes(*storage))
}

#[tactic(auto, unfolding(crate::specs::Rules::has_sizes))]
fn has_sizes(storage: ListedThing<'_>) -> bool
    ensures { result ≡ has_sizes (listed_view storage.entry) }
{
    let minimum = storage.value.get("minimumSustainedSize");
    let maximum = storage.value.get("maximumAllowedSize");
    may_be_size(minimum, 0) && may_be_size(maximum, 1)
}

fn may_be_size(size: Option<&Value>, least: u64) -> bool
    ensures { result ≡ may_be (has_size least) (option_map (λ v. view v.now) size.entry) }
{
    match size {
        Some(size) => is_size(size, least),
        None => true,
    }
}

fn is_size(size: &Value, least: u64) -> bool
    ensures { result ≡ has_size least (view size.now) }
{
    match size.as_u64() {
        Some(size) => least <= size && size <= MAX_SIZE,
        None => false,
    }
}

/// Rule 12: the minimum of a storage is at most its maximum, defaults included.
#[tactic(auto, unfolding(crate::specs::Rules::minimums_are_below))]
fn minimums_are_below(storages: &[ListedThing<'_>]) -> bool
    ensures { result ≡ minimums_are_below (listed_views storages.now) }
{
    storages.iter().all(|storage| has_minimum_below(*storage))
}

#[tactic(auto, unfolding(crate::specs::Rules::has_minimum_below))]
fn has_minimum_below(storage: ListedThing<'_>) -> bool
    ensures { result ≡ has_minimum_below (listed_view storage.entry) }
{
    minimum_of(storage.value) <= maximum_of(storage.value)
}

/// Rule 13: the maximums, defaults included, sum to at most 16,777,216.
#[tactic(auto, unfolding(crate::specs::Rules::maximums_fit_together))]
fn maximums_fit_together(storages: &[ListedThing<'_>]) -> bool
    ensures { result ≡ maximums_fit_together (listed_views storages.now) }
{
    let mut room = MAX_SUM;
    for storage in storages {
        let maximum = maximum_of(storage.value);
        if maximum > room {
            return false;
        }
        room -= maximum;
    }
    true
}

/// Rule 14: the update strategy of a storage is one of its two words.
#[tactic(auto, unfolding(crate::specs::Rules::collections_have_strategies))]
fn collections_have_strategies(storages: &[ListedThing<'_>]) -> bool
    ensures { result ≡ collections_have_strategies (listed_views storages.now) }
{
    storages
        .iter()
        .all(|storage| has_collection_strategy(*storage))
}

#[tactic(auto, unfolding(crate::specs::Rules::has_collection_strategy))]
fn has_collection_strategy(storage: ListedThing<'_>) -> bool
    ensures { result ≡ has_collection_strategy (listed_view storage.entry) }
{
    match storage.value.get("updateStrategy") {
        Some(word) => says_collection(word),
        None => true,
    }
}

fn says_collection(word: &Value) -> bool
    ensures { result ≡ says_collection (view word.now) }
{
    match word.as_str() {
        Some(word) => collection_said(word).is_some(),
        None => false,
    }
}

/// Rule 15: whether a storage is read-only is said by true or false.
#[tactic(auto, unfolding(crate::specs::Rules::read_only_is_said))]
fn read_only_is_said(storages: &[ListedThing<'_>]) -> bool
    ensures { result ≡ read_only_is_said (listed_views storages.now) }
{
    storages.iter().all(|storage| says_read_only(*storage))
}

#[tactic(auto, unfolding(crate::specs::Rules::says_read_only))]
fn says_read_only(storage: ListedThing<'_>) -> bool
    ensures { result ≡ says_read_only (listed_view storage.entry) }
{
    match storage.value.get("readOnly") {
        Some(said) => said.as_bool().is_some(),
        None => true,
    }
}

/// Rule 16: a redundancy is an object without unknown members, and its scope is one of its two words.
#[tactic(auto, unfolding(crate::specs::Rules::redundancies_are_objects))]
fn redundancies_are_objects(storages: &[ListedThing<'_>]) -> bool
    ensures { result ≡ redundancies_are_objects (listed_views storages.now) }
{
    storages.iter().all(|storage| has_redundancy(*storage))
}

#[tactic(auto, unfolding(crate::specs::Rules::has_redundancy))]
fn has_redundancy(storage: ListedThing<'_>) -> bool
    ensures { result ≡ has_redundancy (listed_view storage.entry) }
{
    match redundancy_of(storage.value) {
        Some(redundancy) => is_redundancy(redundancy),
        None => true,
    }
}

fn is_redundancy(redundancy: &Value) -> bool
    ensures { result ≡ is_redundancy (view redundancy.now) }
{
    redundancy.is_object() && has_redundancy_members(redundancy) && may_say_scope(redundancy)
}

fn may_say_scope(redundancy: &Value) -> bool
    ensures { result ≡ may_be says_scope (get (codes "scope") (view redundancy.now)) }
{
    match redundancy.get("scope") {
        Some(word) => says_scope(word),
        None => true,
    }
}

fn says_scope(word: &Value) -> bool
    ensures { result ≡ says_scope (view word.now) }
{
    match word.as_str() {
        Some(word) => scope_said(word).is_some(),
        None => false,
    }
}

/// Rule 17: the counts of a redundancy are there, and 1 <= m <= n <= 7.
#[tactic(auto, unfolding(crate::specs::Rules::redundancies_have_counts))]
fn redundancies_have_counts(storages: &[ListedThing<'_>]) -> bool
    ensures { result ≡ redundancies_have_counts (listed_views storages.now) }
{
    storages.iter().all(|storage| has_counts(*storage))
}

#[tactic(auto, unfolding(crate::specs::Rules::has_counts))]
fn has_counts(storage: ListedThing<'_>) -> bool
    ensures { result ≡ has_counts (listed_view storage.entry) }
{
    match redundancy_of(storage.value) {
        Some(redundancy) => says_counts(redundancy),
        None => true,
    }
}

fn says_counts(redundancy: &Value) -> bool
    ensures { result ≡ says_counts (view redundancy.now) }
{
    let Some(m) = agreeing_of(redundancy) else {
        return false;
    };
    let Some(n) = copies_of(redundancy) else {
        return false;
    };
    1 <= m && m <= n && n <= MAX_COPIES
}

/// Rule 18: the elements of a storage are a list of at most 1,024 objects.
#[tactic(auto, unfolding(crate::specs::Rules::elements_are_few))]
fn elements_are_few(storages: &[ListedThing<'_>]) -> bool
    ensures { result ≡ elements_are_few (listed_views storages.now) }
{
    storages.iter().all(|storage| has_few_elements(*storage))
}

#[tactic(auto, unfolding(crate::specs::Rules::has_few_elements, crate::specs::Parts::elements))]
fn has_few_elements(storage: ListedThing<'_>) -> bool
    ensures { result ≡ has_few_elements (listed_view storage.entry) }
{
    may_list_objects(storage.value, elements_word(storage.kind))
        && element_list(storage).len() <= MAX_ELEMENTS
}
