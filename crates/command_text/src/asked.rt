//! The type that a call asks for.

ghost use Rattle.std.specs.Prelude.{◌≡◌};
ghost use Rattle.value_model.specs.Views.{kind_of};
ghost use Rattle.value_text.specs.Types.{IsType};

use std::marker::Model;
use value_model::ValueType;

/// A type that has a text: it nests at most 8 deep, and its groups of fields have 1 to 32 members. Contracts see its
/// kind.
#[derive(Debug, Drop)]
pub struct AskedType {
    value_type: ValueType,
}

impl Model for AskedType {
    ghost use Rattle.value_model.specs.Kinds.{Kind};
    ghost use Rattle.value_model.specs.Codes.{kind_code};
    ghost use Rattle.value_model.specs.Views.{kind_of};
    ghost use Rattle.value_text.specs.Types.{IsType};

    ghost Value = { Kind };

    ghost coded = { kind_code };

    ghost view = { λ a. kind_of a.value_type };

    ghost invariant = { λ a. IsType (kind_of a.value_type) };
}

impl AskedType {
    /// Asks for this type. No group of fields in it may be empty or over 32, and nothing may nest deeper than 8.
    pub fn new(value_type: ValueType) -> AskedType
        requires { IsType (kind_of value_type) }
        ensures { result ≡ kind_of value_type }
    {
        AskedType { value_type }
    }

    /// The type that is asked for, borrowed; it keeps the bounds of [`AskedType::new`].
    pub fn value_type(&self) -> &ValueType
        ensures value_type { kind_of result.now ≡ self.now }
        ensures shape { IsType self.now }
    {
        &self.value_type
    }
}
