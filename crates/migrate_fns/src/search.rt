//! The search for a chain, level by level, back from the type where it is to end.

ghost use Rattle.std.specs.Prelude.{◌≡◌, ◌<◌, ◌^◌, IfOk, IsTrue, Some, is_some, length, map, slice_get};
ghost use Rattle.value_model.specs.Kinds.{Kind};
ghost use Rattle.value_model.specs.Views.{kind_of};
ghost use Rattle.migrate_fns.specs.Chains.{chain_of, links};
ghost use Rattle.migrate_fns.specs.Links.{AllDiffer, AreLevels, AreLinks, IsLevel, entered, has_number, levels_view};
ghost use Rattle.migrate_fns.specs.Stored.{rule_of};

use crate::migrations::Migration;
use crate::numbering::{Link, Types, links};
use per_base::{Name, Numbers};
use std::alloc::{AllocError, Global};
use typed_value::ValueType;

/// The greatest number of converters in a chain.
pub const MAX_LINKS: usize = 8;

/// The places of the shortest, then least, chain among these converters for one element from the one type to the other.
pub(crate) fn places_of_chain(
    alloc: Global,
    list: &[Migration],
    element: &Name,
    from: &ValueType,
    to: &ValueType,
) -> Result<Option<Numbers>, AllocError>
    requires { length list.now < 2 ^ 32 }
    ensures { IfOk result (λ places. places
        ≡ chain_of (map rule_of list.now) element.now (kind_of from.now) (kind_of to.now)) }
{
    let search = Search::new(alloc, list, element, from, to)?;
    let places = search.run(alloc)?;
    Ok(places)
}

/// A search among these converters for a chain for one element from the one type to the other. Every type has a number,
/// so that types are compared only before the search.
#[derive(Drop)]
struct Search<'a> {
    list: &'a [Migration],
    element: &'a Name,
    from: &'a ValueType,
    to: &'a ValueType,
    types: Types<'a>,
    links: Vec<Option<Link>>,
    start: usize,
    end: usize,
    ghost differ: { AllDiffer types },
    ghost count: { length links.items ≡ length list.now },
    ghost linked: { AreLinks (map rule_of list.now) element.now types links.items },
    ghost begins: { IsTrue (has_number types (kind_of from.now) start) },
    ghost ends: { IsTrue (has_number types (kind_of to.now) end) },
}

impl<'a> Search<'a> {
    /// A search for a chain from the one type to the other.
    pub fn new(
        alloc: Global,
        list: &'a [Migration],
        element: &'a Name,
        from: &'a ValueType,
        to: &'a ValueType,
    ) -> Result<Search<'a>, AllocError>
        requires { length list.now < 2 ^ 32 }
        ensures list { IfOk result (λ search. search.list.now ≡ list.now) }
        ensures element { IfOk result (λ search. search.element.now ≡ element.now) }
        ensures from { IfOk result (λ search. search.from.now ≡ from.now) }
        ensures to { IfOk result (λ search. search.to.now ≡ to.now) }
    {
        let mut types = Types::new(alloc);
        let links = links(alloc, list, element, &mut types)?;
        let start = types.number(from)?;
        let end = types.number(to)?;
        Ok(Search {
            list,
            element,
            from,
            to,
            types,
            links,
            start,
            end,
        })
    }

    /// The places of the shortest, then least, chain.
    pub fn run(&self, alloc: Global) -> Result<Option<Numbers>, AllocError>
        ensures { IfOk result (λ places. places
            ≡ chain_of (map rule_of self.now.list.now) self.now.element.now (kind_of self.now.from.now)
            (kind_of self.now.to.now)) }
    {
        let mut levels = Vec::new(alloc);
        for _ in 0..MAX_LINKS {
            let level = self.next_level(alloc, levels.as_slice())?;
            levels.push(level)?;
            if let Some(places) = self.trace(alloc, levels.as_slice())? {
                return Ok(Some(places));
            }
        }
        Ok(None)
    }

    /// The next level: for each type from which one more link than before leads to the end, the first such link.
    fn next_level(
        &self,
        alloc: Global,
        levels: &[Vec<Option<Link>>],
    ) -> Result<Vec<Option<Link>>, AllocError>
        requires { AreLevels (map rule_of self.now.list.now) self.now.element.now (kind_of self.now.to.now)
            self.now.types (levels_view levels.now) }
        ensures { IfOk result (λ level. IsLevel (map rule_of self.now.list.now) self.now.element.now
            (kind_of self.now.to.now) self.now.types (length levels.now) level.items) }
    {
        let mut level = vec![in alloc; None; self.types.len()]?;
        for link in &self.links {
            if let Some(link) = link {
                self.enter(link, levels, level.as_mut_slice());
            }
        }
        Ok(level)
    }

    /// Enters the link at the type that it takes, where it begins a list of one more link than there are levels, and no
    /// link is there yet.
    fn enter(&self, link: &Link, levels: &[Vec<Option<Link>>], level: &mut [Option<Link>])
        requires from { link.now.from < length level.old }
        requires to { link.now.to < length self.now.types }
        requires levels { AreLevels (map rule_of self.now.list.now) self.now.element.now (kind_of self.now.to.now)
            self.now.types (levels_view levels.now) }
        ensures { (to : Kind) → slice_get self.now.types link.now.to ≡ Some to → level.new
            ≡ entered (is_some (links (map rule_of self.now.list.now) self.now.element.now (kind_of self.now.to.now)
            (length levels.now) to)) link.now level.old }
    {
        if level[link.from].is_none() && self.leads(link.to, levels) {
            level[link.from] = Some(*link);
        }
    }

    /// Whether a list of as many links as there are levels leads from the type with this number to the end.
    fn leads(&self, number: usize, levels: &[Vec<Option<Link>>]) -> bool
        requires number { number < length self.now.types }
        requires levels { AreLevels (map rule_of self.now.list.now) self.now.element.now (kind_of self.now.to.now)
            self.now.types (levels_view levels.now) }
        ensures { (from : Kind) → slice_get self.now.types number ≡ Some from → result
            ≡ is_some (links (map rule_of self.now.list.now) self.now.element.now (kind_of self.now.to.now)
            (length levels.now) from) }
    {
        match levels.last() {
            None => number == self.end,
            Some(level) => level[number].is_some(),
        }
    }

    /// The least list of as many places as there are levels, which leads from the start to the end.
    fn trace(
        &self,
        alloc: Global,
        levels: &[Vec<Option<Link>>],
    ) -> Result<Option<Numbers>, AllocError>
        requires { AreLevels (map rule_of self.now.list.now) self.now.element.now (kind_of self.now.to.now)
            self.now.types (levels_view levels.now) }
        ensures { IfOk result (λ places. places
            ≡ links (map rule_of self.now.list.now) self.now.element.now (kind_of self.now.to.now) (length levels.now)
            (kind_of self.now.from.now)) }
    {
        let mut places = Vec::new(alloc);
        let mut at = self.start;
        let mut left = levels.len();
        while left > 0 {
            left -= 1;
            let Some(link) = levels[left][at] else {
                return Ok(None);
            };
            places.push(link.place)?;
            at = link.to;
        }
        if at != self.end {
            return Ok(None);
        }
        Ok(Some(Numbers::new(places)))
    }
}
