//! The types of a search as numbers, and its converters as links between these.

ghost use Rattle.std.specs.Prelude.{◌≡◌, ◌<◌, ◌^◌, [], IfOk, IsTrue, List, Some, length, map, slice_get};
ghost use Rattle.std.specs.Coded.{codes};
ghost use Rattle.value_model.specs.Codes.{kind_code};
ghost use Rattle.value_model.specs.Kinds.{Kind};
ghost use Rattle.value_model.specs.Views.{kind_of};
ghost use Rattle.migrate_fns.specs.Links.{AllDiffer, AreLinks, KeepsNumbers, is_link};
ghost use Rattle.migrate_fns.specs.Stored.{rule_of};

use crate::fingerprints::Marked;
use crate::migrations::Migration;
use per_base::Name;
use std::alloc::{AllocError, Global};
use std::marker::Model;
use typed_value::ValueType;

/// Types of which no two are the same. The number of each is its place.
#[derive(Drop)]
pub(crate) struct Types<'a> {
    list: Vec<Marked<'a>>,
}

impl<'a> Model for Types<'a> {
    ghost Value = { List Kind };

    ghost view = { λ ts. map (λ t. kind_of t.value_type.now) ts.list.items };

    ghost coded = { Prim.hlevel (codes, kind_code) };

    ghost invariant = { λ ts. AllDiffer (map (λ t. kind_of t.value_type.now) ts.list.items) };
}

impl<'a> Types<'a> {
    /// No types. Does not allocate.
    pub fn new(alloc: Global) -> Types<'a>
        ensures { result ≡ [] }
    {
        Types {
            list: Vec::new(alloc),
        }
    }

    pub fn len(&self) -> usize
        ensures { result ≡ length self.now }
    {
        self.list.len()
    }

    /// The number of the type, which is the next one where the type is new.
    pub fn number(&mut self, value_type: &'a ValueType) -> Result<usize, AllocError>
        ensures number { IfOk result (λ number. slice_get self.new number ≡ Some (kind_of value_type.now)) }
        ensures kept { KeepsNumbers self.old self.new }
        ensures differ { AllDiffer self.new }
    {
        let marked = Marked::new(value_type);
        for (number, known) in self.list.iter().enumerate() {
            if known.is_same(&marked) {
                return Ok(number);
            }
        }
        let number = self.list.len();
        self.list.push(marked)?;
        Ok(number)
    }
}

/// A converter that a chain may use: its place, and the numbers of its two types.
#[derive(Clone, Copy)]
pub(crate) struct Link {
    pub place: u32,
    pub from: usize,
    pub to: usize,
}

/// The converters as links, but for those that name another element.
pub(crate) fn links<'a>(
    alloc: Global,
    list: &'a [Migration],
    element: &Name,
    types: &mut Types<'a>,
) -> Result<Vec<Option<Link>>, AllocError>
    requires { length list.now < 2 ^ 32 }
    ensures links { IfOk result (λ links. AreLinks (map rule_of list.now) element.now types.new links.items) }
    ensures count { IfOk result (λ links. length links.items ≡ length list.now) }
    ensures kept { KeepsNumbers types.old types.new }
{
    let mut links = Vec::new(alloc);
    for (place, migration) in list.iter().enumerate() {
        links.push(link_of(place as u32, migration, element, types)?)?;
    }
    Ok(links)
}

/// The converter at this place as a link, where it names this element or none.
fn link_of<'a>(
    place: u32,
    migration: &'a Migration,
    element: &Name,
    types: &mut Types<'a>,
) -> Result<Option<Link>, AllocError>
    ensures link { IfOk result (λ link. IsTrue (is_link element.now types.new place (rule_of migration.now) link)) }
    ensures kept { KeepsNumbers types.old types.new }
{
    if !migration.is_for(element) {
        return Ok(None);
    }
    let from = types.number(&migration.from)?;
    let to = types.number(&migration.to)?;
    Ok(Some(Link { place, from, to }))
}
