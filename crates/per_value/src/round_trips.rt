//! The two round trips, for every type of [`PerValue`].

ghost use Rattle.std.specs.Prelude.{◌≡◌, ◌≢◌, ◌<◌, ◌≤◌, IfErr, IfOk, length, IsErrOf};
ghost use Rattle.value_model.specs.Encoding.{encoding};
ghost use Rattle.value_model.specs.Kinds.{kind_depth};
ghost use Rattle.value_model.specs.Trees.{type_of};
ghost use Rattle.value_model.specs.Validity.{max_depth, max_length};

use crate::conversion::PerValue;
use std::alloc::Global;
use value_model::{Value, ValueError};

/// The thing made into its value and back: the same thing.
///
/// # Errors
///
/// `TooDeep` and `TooLong` as [`PerValue::to_value`] gives them; `OutOfMemory`.
pub fn there_and_back<T: PerValue>(alloc: Global, thing: &T) -> Result<T, ValueError>
    ensures same { IfOk result (λ back. T.same thing.now back) }

    // the refusals are those of `to_value`
    ensures too_deep { IsErrOf result ValueError.TooDeep → max_depth < kind_depth (type_of (T.tree thing.now)) }
    ensures too_long { IsErrOf result ValueError.TooLong → (kind_depth (type_of (T.tree thing.now)) ≤ max_depth)
        × (max_length < length (encoding (T.tree thing.now))) }
    ensures well_typed { result ≢ Err ValueError.IllTyped }
{
    let value = thing.to_value(alloc)?;
    Ok(T::from_value(alloc, &value)?)
}

/// The value by way of the thing that it is: the same value. The value must have the type of `T`; nothing but memory
/// that ran out is an error.
pub fn back_and_forth<T: PerValue + Drop>(alloc: Global, value: &Value) -> Result<Value, ValueError>
    requires of_type { type_of value.now ≡ T.kind }
    ensures value { IfOk result (λ again. again ≡ value.now) }
    ensures memory { IfErr result (λ error. error ≡ ValueError.OutOfMemory) }
{
    let thing = T::from_value(alloc, value)?;
    thing.to_value(alloc)
}
