//! A struct of a caller, as a group of fields: a model to copy.

use crate::conversion::PerValue;
use crate::members::{first_member, last_member};
use per_base::ValueText;
use std::alloc::{AllocError, Global};
use value_model::{Node, ValueType};

/// A place that somebody likes: its latitude, its longitude, in units of the caller's choice, and a label.
#[derive(Debug, Drop)]
pub struct Favourite {
    pub lat: i32,
    pub lon: i32,
    pub label: ValueText,
}

impl PerValue for Favourite {
    ghost use Rattle.std.specs.Prelude.{◌≡◌, [], ◌∷◌};
    ghost use Rattle.std.proofs.Common.{refl, rules};
    ghost use Rattle.value_model.specs.Kinds.{fields_kind, four, signed_kind, text_kind};
    ghost use Rattle.value_model.specs.Trees.{fields_tree, signed_tree, text_tree};
    ghost use Rattle.value_model.specs.Views.{kinds_of, trees_of};

    // the members, in the order of the fields
    ghost kind = { fields_kind (kinds_of (signed_kind four ∷ signed_kind four ∷ text_kind ∷ [])) };

    ghost tree = { λ f. fields_tree (trees_of (signed_tree four f.lat ∷ signed_tree four f.lon ∷ text_tree f.label
        ∷ [])) };

    ghost same = { λ f g. (f.lat ≡ g.lat) × ((f.lon ≡ g.lon) × (f.label ≡ g.label)) };

    fn type_of(alloc: Global) -> Result<ValueType, AllocError> {
        let members = vec![in alloc; ValueType::I32, ValueType::I32, ValueType::Text]?;
        Ok(ValueType::Fields(members))
    }

    fn to_node(&self, alloc: Global) -> Result<Node, AllocError> {
        let label = self.label.copy()?;
        let members = vec![in alloc; Node::I32(self.lat), Node::I32(self.lon), Node::Text(label)]?;
        Ok(Node::Fields(members))
    }

    fn from_node(alloc: Global, node: &Node) -> Result<Favourite, AllocError> {
        let Node::Fields(members) = node else {
            unreachable!()
        };
        let (lat, members) = first_member(alloc, members.as_slice())?;
        let (lon, members) = first_member(alloc, members)?;
        let label = last_member(alloc, members)?;
        Ok(Favourite { lat, lon, label })
    }

    ghost proper = { refl };

    ghost has_type = { λ _. refl };

    ghost well_typed = { λ _. Prim.search rules };

    ghost faithful = { λ f g e. (Prim.cc, (Prim.cc, Prim.cc)) };
}
