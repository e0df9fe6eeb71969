//! The members of a group of fields, taken one after the other.

ghost use Rattle.std.specs.Prelude.{◌≡◌, IfOk, Some};
ghost use Rattle.per_value.specs.Members.{first_kind, other_kinds};
ghost use Rattle.value_model.specs.Kinds.{kind_then, no_kinds};
ghost use Rattle.value_model.specs.Trees.{no_trees, tree_then, types_of};
ghost use Rattle.value_model.specs.Validity.{AllTyped};
ghost use Rattle.value_model.specs.Views.{trees_view};

use crate::conversion::PerValue;
use std::alloc::{AllocError, Global};
use value_model::Node;

/// The first of these members of a group, as a thing of the type `T`, and the others. The error says that memory ran
/// out.
pub fn first_member<T: PerValue>(
    alloc: Global,
    members: &[Node],
) -> Result<(T, &[Node]), AllocError>
    // there is a first member and it has `T`'s value type; all are well typed
    requires of_type { first_kind (types_of (trees_view members.now)) ≡ Some T.kind }
    requires typed { AllTyped (trees_view members.now) }
    // the thing (`x.0`) and the others (`x.1`) are the members, in this order
    ensures parts { IfOk result (λ x. tree_then (T.tree x.0) (trees_view x.1.now) ≡ trees_view members.now) }

    // the others have the types that follow the first, and are well typed
    ensures of_type { IfOk result (λ x. types_of (trees_view x.1.now)
        ≡ other_kinds (types_of (trees_view members.now))) }
    ensures typed { IfOk result (λ x. AllTyped (trees_view x.1.now)) }
{
    match members {
        [first, others @ ..] => {
            let thing = T::from_node(alloc, first)?;
            Ok((thing, others))
        }
        [] => unreachable!(),
    }
}

/// The one member that is left of a group, as a thing of the type `T`. The error says that memory ran out.
pub fn last_member<T: PerValue>(alloc: Global, members: &[Node]) -> Result<T, AllocError>
    // there is one member, it has `T`'s value type, and it is well typed
    requires of_type { types_of (trees_view members.now) ≡ kind_then T.kind no_kinds }
    requires typed { AllTyped (trees_view members.now) }
    ensures { IfOk result (λ thing. tree_then (T.tree thing) no_trees ≡ trees_view members.now) }
{
    match members {
        [] => unreachable!(),
        [last] => T::from_node(alloc, last),
        [_, _, ..] => unreachable!(),
    }
}
