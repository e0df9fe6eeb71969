//! Chains of stored converters.

ghost use Rattle.std.specs.Prelude.{◌≡◌, ◌≤◌, Some, IfOk, IfSome, IsTrue, is_some, length, option_map, slice_get};
ghost use Rattle.value_model.specs.Trees.{type_of};
ghost use Rattle.value_model.specs.Views.{kind_of};
ghost use Rattle.migrate_fns.specs.Chains.{IsShortestChain, chain_of, takes};
ghost use Rattle.migrate_fns.specs.Rules.{ConvertsTo, first_type, last_type, reached};
ghost use Rattle.migrate_fns.specs.Stored.{answers_of, rules_of};

use crate::migrations::Migrations;
use crate::search::places_of_chain;
use per_base::{Name, Numbers};
use std::alloc::{AllocError, Global};
use typed_value::{Value, ValueType};

/// 1 to 8 stored converters, borrowed, each of which takes the type that the one before gives.
#[derive(Drop)]
pub struct Chain<'a> {
    migrations: &'a Migrations,
    places: Numbers,
    // Each takes the type that the one before gives, and there are 1 to 8.
    ghost linked: { IsTrue (is_some (last_type (rules_of migrations.now) places)) },
    ghost few: { length places ≤ 8 },
}

impl Chain<'_> {
    /// The places of the converters, counted from 0, in the order in which they are called. Does not allocate.
    pub fn places(&self) -> &[u32]
        ensures places { result.now ≡ self.now.places }
        // There is a converter at each place, and each takes the type that the one before gives.
        ensures linked { IsTrue (is_some (last_type (rules_of self.now.migrations.now) self.now.places)) }
        ensures few { length result.now ≤ 8 }
    {
        self.places.as_slice()
    }

    /// What the stored functions, one after the other, answer on this value. The one error is that memory ran out.
    pub fn convert(&self, value: &Value) -> Result<Value, AllocError>
        // The value has the type that the first converter takes.
        requires { first_type (rules_of self.now.migrations.now) self.now.places ≡ Some (type_of value.now) }
        // The answer `w` is one that the functions may give, and has the type that the last converter gives.
        ensures answer { IfOk result (λ w. ConvertsTo (answers_of self.now.migrations.now) self.now.places value.now
            w) }
        ensures to { IfOk result (λ w. last_type (rules_of self.now.migrations.now) self.now.places
            ≡ Some (type_of w)) }
    {
        convert_along(self.migrations, self.places.as_slice(), value)
    }
}

/// What the converters at these places, one after the other, answer on this value.
fn convert_along(
    migrations: &Migrations,
    places: &[u32],
    value: &Value,
) -> Result<Value, AllocError>
    requires linked { IsTrue (is_some (reached (rules_of migrations.now) places.now (type_of value.now))) }
    requires some { 1 ≤ length places.now }
    ensures answer { IfOk result (λ w. ConvertsTo (answers_of migrations.now) places.now value.now w) }
    ensures to { IfOk result (λ w. reached (rules_of migrations.now) places.now (type_of value.now)
        ≡ Some (type_of w)) }
{
    let next = convert_at(migrations, places[0], value)?;
    let rest = &places[1..];
    if rest.is_empty() {
        return Ok(next);
    }
    let last = convert_along(migrations, rest, &next)?;
    Ok(last)
}

/// What the converter at this place answers on this value.
fn convert_at(migrations: &Migrations, place: u32, value: &Value) -> Result<Value, AllocError>
    requires { IsTrue (takes (rules_of migrations.now) (type_of value.now) place) }
    ensures answer { IfOk result (λ w. answers_of migrations.now place value.now w) }
    ensures to { IfOk result (λ w. IfSome (slice_get (rules_of migrations.now) place) (λ r. type_of w ≡ r.to)) }
{
    let list = migrations.as_slice();
    let migration = &list[place as usize];
    migration.convert(value)
}

impl Migrations {
    /// The shortest list of 1 to 8 converters that name this element or none and lead from the one type to the other,
    /// each taking what the one before gives; of several the least by places. None exactly where there is none.
    /// The one error is that memory ran out.
    pub fn find_chain(
        &self,
        alloc: Global,
        element: &Name,
        from: &ValueType,
        to: &ValueType,
    ) -> Result<Option<Chain<'_>>, AllocError>
        // The places of the chain, as a function of the converters and as the best of all lists that fit.
        ensures places { IfOk result (λ chain. option_map (λ c. c.places) chain
            ≡ chain_of (rules_of self.now) element.now (kind_of from.now) (kind_of to.now)) }
        ensures found { IfOk result (λ chain. IsShortestChain (rules_of self.now) element.now (kind_of from.now)
            (kind_of to.now) (option_map (λ c. c.places) chain)) }
        // The chain borrows these converters; its first takes the type `from`, and its last gives the type `to`.
        ensures lent { IfOk result (λ chain. IfSome chain (λ c. c.migrations.now ≡ self.now)) }
        ensures first { IfOk result (λ chain. IfSome chain
            (λ c. first_type (rules_of self.now) c.places ≡ Some (kind_of from.now))) }
        ensures last { IfOk result (λ chain. IfSome chain (λ c. last_type (rules_of self.now) c.places
            ≡ Some (kind_of to.now))) }
    {
        match places_of_chain(alloc, self.as_slice(), element, from, to)? {
            None => Ok(None),
            Some(places) => Ok(Some(Chain {
                migrations: self,
                places,
            })),
        }
    }
}
