//! Stored converters, each beside what is known of it.

ghost use Rattle.std.specs.Prelude.{◌≡◌, ◌<◌, ◌^◌, IfOk, IfSome, length};
ghost use Rattle.std.specs.Prelude.{Some, find, map, option_map, slice_get};
ghost use Rattle.std.specs.Option.{option_copied};
ghost use Rattle.std.specs.Result.{ForOk};
ghost use Rattle.value_model.specs.Codes.{kinds_same-prop};
ghost use Rattle.value_model.specs.Trees.{type_of};
ghost use Rattle.value_model.specs.Views.{kind_of};
ghost use Rattle.value_model.specs.Kinds.{same_kind};
ghost use Rattle.migrate_fns.specs.Rules.{is_for, serves};

use per_base::Name;
use std::alloc::AllocError;
use typed_value::{Value, ValueType};

/// A converter as a function. It takes no allocator: it captures one where it needs one. In clauses `Converter.pre`
/// says on which values it may be called, and `Converter.post` what it may then return.
pub type Converter = Box<dyn Fn(&Value) -> Result<Value, AllocError>>;

/// A stored converter: the name of the element that it is for, or none for every one, the type that it takes and the
/// one that it gives, and the function beside its fact.
#[derive(Drop)]
pub struct Migration {
    pub element: Option<Name>,
    pub from: ValueType,
    pub to: ValueType,
    convert: Converter,
    // The fact: on a value `v` of the type `from` the function may be called, and a value that it returns has the type
    // `to`.
    ghost callable: { (v : _) → type_of v.now ≡ kind_of from → Converter.pre convert v },
    ghost answers: { (v : _) (r : _) → type_of v.now ≡ kind_of from → Converter.post convert v r
        → ForOk r (λ w. type_of w ≡ kind_of to) } by { Prim.hlevel kinds_same-prop },
}

impl Migration {
    ghost use Rattle.migrate_fns.specs.Stored.{MayGive, rule_of};

    /// A converter. The function may be called on every value of the type `from`, and answers only values of the type
    /// `to`, or `OutOfMemory`: whoever makes one shows this. Does not allocate.
    pub fn new(
        element: Option<Name>,
        from: ValueType,
        to: ValueType,
        convert: Converter,
    ) -> Migration
        // The function may be called on each value `v` of the type `from`; where it then returns `r`, and `r` is a
        // value `w`, this has the type `to`.
        requires callable { (v : _) → type_of v.now ≡ kind_of from → Converter.pre convert v }
        requires answers { (v : _) (r : _) → type_of v.now ≡ kind_of from → Converter.post convert v r
            → ForOk r (λ w. type_of w ≡ kind_of to) }
        ensures element { result.element ≡ element }
        ensures from { result.from ≡ from }
        ensures to { result.to ≡ to }
        ensures convert { result.convert ≡ convert }
    {
        Migration {
            element,
            from,
            to,
            convert,
        }
    }

    /// What the stored function answers on this value. The one error is that memory ran out.
    pub fn convert(&self, value: &Value) -> Result<Value, AllocError>
        requires { type_of value.now ≡ kind_of self.now.from }
        // The answer is one that a call of the stored function may give, and a value `w` of the type `to`.
        ensures answer { MayGive self.now value.now result }
        ensures to { IfOk result (λ w. type_of w ≡ kind_of self.now.to) }
    {
        (self.convert)(value)
    }

    /// Whether it names this element or none.
    pub(crate) fn is_for(&self, element: &Name) -> bool
        ensures { result ≡ is_for self.now.element element.now }
    {
        match &self.element {
            None => true,
            Some(name) => name == element,
        }
    }

    /// Whether it leads from the one type to the other, and names this element or none.
    fn serves(&self, element: &Name, from: &ValueType, to: &ValueType) -> bool
        ensures { result ≡ serves element.now (kind_of from.now) (kind_of to.now) (rule_of self.now) }
    {
        self.is_for(element) && is_same(&self.from, from) && is_same(&self.to, to)
    }
}

/// Whether two types are the same.
pub(crate) fn is_same(one: &ValueType, other: &ValueType) -> bool
    ensures { result ≡ same_kind (kind_of one.now) (kind_of other.now) }
{
    one.is_same(other)
}

/// Stored converters in an order, each known by its place, counted from 0. There are fewer than 4,294,967,296.
#[derive(Drop)]
pub struct Migrations {
    list: Vec<Migration>,
    ghost few: { length list.items < 2 ^ 32 },
}

impl Migrations {
    ghost use Rattle.migrate_fns.specs.Stored.{listed, rule_of};

    /// The converters of a list, in its order. Does not allocate.
    pub fn new(list: Vec<Migration>) -> Migrations
        requires { length list.items < 2 ^ 32 }
        ensures { listed result ≡ list.items }
    {
        Migrations { list }
    }

    /// The first converter `m` from the one type to the other that names this element or none; none exactly where there
    /// is none. Does not allocate.
    pub fn find(&self, element: &Name, from: &ValueType, to: &ValueType) -> Option<&Migration>
        ensures first { option_copied result
            ≡ find (λ m. serves element.now (kind_of from.now) (kind_of to.now) (rule_of m)) (listed self.now) }
        ensures from { IfSome result (λ m. kind_of m.now.from ≡ kind_of from.now) }
        ensures to { IfSome result (λ m. kind_of m.now.to ≡ kind_of to.now) }
    {
        for migration in &self.list {
            if migration.serves(element, from, to) {
                return Some(migration);
            }
        }
        None
    }

    /// The converters in order.
    pub(crate) fn as_slice(&self) -> &[Migration]
        ensures listed { result.now ≡ listed self.now }
        ensures few { length result.now < 2 ^ 32 }
    {
        self.list.as_slice()
    }
}
