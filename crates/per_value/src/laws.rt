//! Which kind and which tree each type has. The functions do nothing: their contracts are the table.
//!
//! In a clause `⟦<T as PerValue>⟧.kind` is the value type that the implementation for `T` gives, and `.tree` says which
//! tree each thing of `T` is.

ghost use Rattle.std.specs.Prelude.{◌≡◌, [], ◌∷◌};
ghost use Rattle.per_value.specs.Items.{trees_each};
ghost use Rattle.value_model.specs.Kinds.{bool_kind, bytes_kind, eight, fields_kind, four, list_kind, one, signed_kind};
ghost use Rattle.value_model.specs.Kinds.{text_kind, two, unsigned_kind};
ghost use Rattle.value_model.specs.Trees.{bool_tree, bytes_tree, fields_tree, list_tree, signed_tree, text_tree};
ghost use Rattle.value_model.specs.Trees.{unsigned_tree};
ghost use Rattle.value_model.specs.Views.{kinds_of, trees_of};

use crate::conversion::PerValue;
use crate::favourite::Favourite;
use per_base::{Bytes, ValueText};

/// The kind and the tree of each type without members: a `bool` is a truth value, a `u16` a number of two bytes without
/// a sign, an `i8` one of one byte with a sign.
pub fn scalars_have_trees()
    ensures truth { (⟦<bool as PerValue>⟧.kind ≡ bool_kind) × (⟦<bool as PerValue>⟧.tree ≡ bool_tree) }
    ensures u8 { (⟦<u8 as PerValue>⟧.kind ≡ unsigned_kind one) × (⟦<u8 as PerValue>⟧.tree ≡ unsigned_tree one) }
    ensures u16 { (⟦<u16 as PerValue>⟧.kind ≡ unsigned_kind two) × (⟦<u16 as PerValue>⟧.tree ≡ unsigned_tree two) }
    ensures u32 { (⟦<u32 as PerValue>⟧.kind ≡ unsigned_kind four) × (⟦<u32 as PerValue>⟧.tree ≡ unsigned_tree four) }
    ensures u64 { (⟦<u64 as PerValue>⟧.kind ≡ unsigned_kind eight) × (⟦<u64 as PerValue>⟧.tree ≡ unsigned_tree eight) }
    ensures i8 { (⟦<i8 as PerValue>⟧.kind ≡ signed_kind one) × (⟦<i8 as PerValue>⟧.tree ≡ signed_tree one) }
    ensures i16 { (⟦<i16 as PerValue>⟧.kind ≡ signed_kind two) × (⟦<i16 as PerValue>⟧.tree ≡ signed_tree two) }
    ensures i32 { (⟦<i32 as PerValue>⟧.kind ≡ signed_kind four) × (⟦<i32 as PerValue>⟧.tree ≡ signed_tree four) }
    ensures i64 { (⟦<i64 as PerValue>⟧.kind ≡ signed_kind eight) × (⟦<i64 as PerValue>⟧.tree ≡ signed_tree eight) }
    ensures text { (⟦<ValueText as PerValue>⟧.kind ≡ text_kind) × (⟦<ValueText as PerValue>⟧.tree ≡ text_tree) }
    ensures bytes { (⟦<Bytes as PerValue>⟧.kind ≡ bytes_kind) × (⟦<Bytes as PerValue>⟧.tree ≡ bytes_tree) }
{}

/// A `Vec` is the list of its items, in their order.
pub fn lists_have_trees<T: PerValue + Drop>()
    ensures kind { ⟦<Vec<T> as PerValue>⟧.kind ≡ list_kind T.kind }
    ensures tree { ⟦<Vec<T> as PerValue>⟧.tree ≡ (λ list. list_tree T.kind (trees_each T.tree list.items)) }
{}

/// The example is a group of its fields, in their order.
pub fn favourites_have_trees()
    ensures kind { ⟦<Favourite as PerValue>⟧.kind
        ≡ fields_kind (kinds_of (signed_kind four ∷ signed_kind four ∷ text_kind ∷ [])) }
    ensures tree { ⟦<Favourite as PerValue>⟧.tree
        ≡ (λ f. fields_tree (trees_of (signed_tree four f.lat ∷ signed_tree four f.lon ∷ text_tree f.label ∷ []))) }
{}
