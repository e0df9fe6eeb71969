//! What holds of all encodings. The functions do nothing: their contracts are the laws.

ghost use Rattle.std.specs.Prelude.{◌≡◌, ℕ, ◌<◌, ◌≤◌, ◌++◌, List, length, slice_index};
ghost use Rattle.value_code.specs.Reading.{decoded};
ghost use Rattle.value_model.specs.Encoding.{encoding};
ghost use Rattle.value_model.specs.Kinds.{type_code};
ghost use Rattle.value_model.specs.Trees.{Tree, type_of};
ghost use Rattle.value_model.specs.Validity.{IsValue};

/// Two values `t` and `u` with one encoding are one value.
pub fn one_value()
    ensures { (t u : Tree) → IsValue t → IsValue u → encoding t ≡ encoding u → t ≡ u }
{}

/// The type of a value is read off the start of its encoding: whatever follows (`xs`, `ys`), the codes of the types of
/// two values `t` and `u` begin the same bytes only where the types are the same.
pub fn type_in_front()
    ensures { (t u : Tree) → IsValue t → IsValue u → (xs ys : List ℕ)
        → type_code (type_of t) ++ xs ≡ type_code (type_of u) ++ ys → type_of t ≡ type_of u }
{}

/// The encoding of a value `t` has 2 to 65,536 bytes.
pub fn encoding_lengths()
    ensures shortest { (t : Tree) → IsValue t → 2 ≤ length (encoding t) }
    ensures longest { (t : Tree) → IsValue t → length (encoding t) ≤ 65536 }
{}

/// `decoded` gives a value `t` for bytes, each below 256, exactly where they are its encoding.
pub fn decoded_is_exact()
    ensures found { (bytes : List ℕ) (t : Tree) → ((i : ℕ) → slice_index bytes i < 256)
        → decoded bytes ≡ Some t → IsValue t × (bytes ≡ encoding t) }
    ensures again { (t : Tree) → IsValue t → decoded (encoding t) ≡ Some t }
{}
