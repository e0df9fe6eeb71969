//! The names that are stored or configured, in their order.

ghost use Rattle.std.specs.Prelude.{◌≡◌, ◌+◌, ◌<◌, [], ◌∷◌, IfSome, length, map, option_map, Option, Some, None, List};
ghost use Rattle.deployment_model.specs.Data.{ElementData, element_data};
ghost use Rattle.update_plan.specs.Items.{item_of, items_by};
ghost use Rattle.update_plan.specs.Merging.{merged, only_configured, only_stored};

use deployment_model::ElementConfig;
use per_base::{Entry, Name};
use std::cmp::Ordering;

/// A name, what is stored of it and what is configured.
#[derive(Clone, Copy)]
pub(crate) struct Item<'a> {
    pub name: &'a Name,
    pub stored: Option<&'a Entry>,
    pub configured: Option<&'a ElementConfig>,
}

/// The first name of two lists that ascend by name, and what is left of both.
#[derive(Clone, Copy)]
pub(crate) struct FirstItem<'a> {
    pub item: Item<'a>,
    pub stored: &'a [Entry],
    pub configured: &'a [ElementConfig],
}

/// The first name of two lists that ascend by name.
pub(crate) fn first_item<'a>(
    stored: &'a [Entry],
    configured: &'a [ElementConfig],
) -> Option<FirstItem<'a>>
    ensures merged { merged stored.now (map element_data configured.now) ≡ items_by result }
    ensures fewer { IfSome result (λ first. length first.stored.now + length first.configured.now
        < length stored.now + length configured.now) }
{
    match (stored.split_first(), configured.split_first()) {
        (None, None) => None,
        (Some((entry, entries)), None) => Some(stored_alone(entry, entries, configured)),
        (None, Some((element, elements))) => Some(configured_alone(element, stored, elements)),
        (Some((entry, entries)), Some((element, elements))) => {
            Some(match entry.name.cmp(&element.name) {
                Ordering::Less => stored_alone(entry, entries, configured),
                Ordering::Equal => FirstItem {
                    item: Item {
                        name: &entry.name,
                        stored: Some(entry),
                        configured: Some(element),
                    },
                    stored: entries,
                    configured: elements,
                },
                Ordering::Greater => configured_alone(element, stored, elements),
            })
        }
    }
}

/// A name of which something is stored and nothing configured, and what is left of both lists.
fn stored_alone<'a>(
    entry: &'a Entry,
    stored: &'a [Entry],
    configured: &'a [ElementConfig],
) -> FirstItem<'a>
    ensures item { item_of result.item ≡ only_stored entry.now }
    ensures stored { result.stored.now ≡ stored.now }
    ensures configured { result.configured.now ≡ configured.now }
{
    FirstItem {
        item: Item {
            name: &entry.name,
            stored: Some(entry),
            configured: None,
        },
        stored,
        configured,
    }
}

/// A name of which something is configured and nothing stored, and what is left of both lists.
fn configured_alone<'a>(
    element: &'a ElementConfig,
    stored: &'a [Entry],
    configured: &'a [ElementConfig],
) -> FirstItem<'a>
    ensures item { item_of result.item ≡ only_configured (element_data element.now) }
    ensures stored { result.stored.now ≡ stored.now }
    ensures configured { result.configured.now ≡ configured.now }
{
    FirstItem {
        item: Item {
            name: &element.name,
            stored: None,
            configured: Some(element),
        },
        stored,
        configured,
    }
}
