//! The names of storages and elements.

ghost use Rattle.std.specs.Prelude.{◌≡◌, IfOk};
ghost use Rattle.manifest.specs.Parts.{named};
ghost use Rattle.manifest.specs.Rules.{are_named, is_named, names_differ};
ghost use Rattle.manifest.specs.Views.{listed_view, listed_views, named_views};

use crate::parts::{ListedThing, name_of};
use per_base::{Name, PerError};
use std::alloc::{AllocError, Global};
use std::collections::BTreeMap;

/// Whether each has a name in the grammar of names.
#[tactic(auto, unfolding(crate::specs::Rules::are_named))]
pub(crate) fn are_named(alloc: Global, things: &[ListedThing<'_>]) -> Result<bool, AllocError>
    ensures { IfOk result (λ named. named ≡ are_named (listed_views things.now)) }
{
    for thing in things {
        if !is_named(alloc, *thing)? {
            return Ok(false);
        }
    }
    Ok(true)
}

#[tactic(auto, unfolding(crate::specs::Rules::is_named))]
fn is_named(alloc: Global, thing: ListedThing<'_>) -> Result<bool, AllocError>
    ensures { IfOk result (λ named. named ≡ is_named (listed_view thing.entry)) }
{
    match Name::new(alloc, name_of(thing.value)) {
        Ok(_) => Ok(true),
        Err(PerError::BadName) => Ok(false),
        Err(_) => Err(AllocError),
    }
}

/// Whether no two have the same name.
#[tactic(auto, unfolding(crate::specs::Rules::names_differ))]
pub(crate) fn names_differ(alloc: Global, things: &[ListedThing<'_>]) -> Result<bool, AllocError>
    ensures { IfOk result (λ differ. differ ≡ names_differ (listed_views things.now)) }
{
    let found = named(alloc, things)?;
    Ok(found.len() == things.len())
}

/// The things by their names, in the order of the names; of those with one name the last.
#[tactic(auto, unfolding(crate::specs::Parts::named))]
pub(crate) fn named<'a>(
    alloc: Global,
    things: &[ListedThing<'a>],
) -> Result<BTreeMap<&'a str, ListedThing<'a>>, AllocError>
    ensures { IfOk result (λ found. named_views found.entries ≡ named (listed_views things.now)) }
{
    let mut found = BTreeMap::new(alloc);
    for thing in things {
        found.insert(name_of(thing.value), *thing)?;
    }
    Ok(found)
}
