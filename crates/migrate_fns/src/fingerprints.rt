//! Types beside a number for each, by which most types that differ are told apart with no look at their members.

ghost use Rattle.std.specs.Prelude.{◌≡◌, ◌<◌, ◌^◌};
ghost use Rattle.value_model.specs.Views.{kind_of, kinds_view};
ghost use Rattle.value_model.specs.Kinds.{same_kind};
ghost use Rattle.migrate_fns.specs.Fingerprints.{fingerprint as fingerprint_of, fingerprints as fingerprints_of};
ghost use Rattle.migrate_fns.specs.Fingerprints.{mixed as mixed_of};

use crate::migrations::is_same;
use typed_value::ValueType;

/// A type beside its fingerprint.
#[derive(Drop)]
pub(crate) struct Marked<'a> {
    value_type: &'a ValueType,
    fingerprint: u32,
    ghost marked: { fingerprint ≡ fingerprint_of (kind_of value_type.now) },
}

impl<'a> Marked<'a> {
    pub fn new(value_type: &'a ValueType) -> Marked<'a>
        ensures { result.value_type.now ≡ value_type.now }
    {
        Marked {
            value_type,
            fingerprint: fingerprint(value_type),
        }
    }

    /// Whether two types are the same. They are not where their fingerprints differ.
    pub fn is_same(&self, other: &Marked<'_>) -> bool
        ensures { result ≡ same_kind (kind_of self.now.value_type.now) (kind_of other.now.value_type.now) }
    {
        self.fingerprint == other.fingerprint && is_same(self.value_type, other.value_type)
    }
}

/// The fingerprint of a type: equal types have equal ones.
#[cycle(fingerprint)]
fn fingerprint(value_type: &ValueType) -> u32
    ensures { result ≡ fingerprint_of (kind_of value_type.now) }
{
    match value_type {
        ValueType::Bool => 1,
        ValueType::U8 => 2,
        ValueType::U16 => 3,
        ValueType::U32 => 4,
        ValueType::U64 => 5,
        ValueType::I8 => 6,
        ValueType::I16 => 7,
        ValueType::I32 => 8,
        ValueType::I64 => 9,
        ValueType::Text => 10,
        ValueType::Bytes => 11,
        ValueType::List(item) => mixed(12, fingerprint(item)),
        ValueType::Fields(members) => fingerprints(members.as_slice()),
    }
}

#[cycle(fingerprint)]
fn fingerprints(types: &[ValueType]) -> u32
    ensures { result ≡ fingerprints_of 13 (kinds_view types.now) }
{
    let mut all = 13;
    for value_type in types {
        all = mixed(all, fingerprint(value_type));
    }
    all
}

/// One number of two.
#[tactic(auto, unfolding(crate::specs::Fingerprints::mixed))]
fn mixed(one: u32, other: u32) -> u32
    ensures { result ≡ mixed_of one other }
{
    ((u64::from(one) * 31 + u64::from(other)) % 4_294_967_291) as u32
}
