//! What holds of the texts of all types and values. The functions do nothing: their clauses are the laws.

ghost use Rattle.std.specs.Prelude.{◌≡◌, ◌≢◌, ℕ, List, All};
ghost use Rattle.std.specs.Str.{IsUtf8};
ghost use Rattle.value_model.specs.Kinds.{Kind};
ghost use Rattle.value_model.specs.Trees.{Tree, type_of};
ghost use Rattle.value_model.specs.Validity.{IsValue};
ghost use Rattle.value_text.specs.Parsing.{kind_in, value_in};
ghost use Rattle.value_text.specs.Texts.{type_text, value_text};
ghost use Rattle.value_text.specs.Types.{IsType};

/// Two types `j` and `k` with the same text are the same.
pub fn type_is_in_its_text()
    ensures { (j k : Kind) → IsType j → IsType k → type_text j ≡ type_text k → j ≡ k }
{}

/// Two values `t` and `u` with the same text are the same, in content and in type.
pub fn value_is_in_its_text()
    ensures value { (t u : Tree) → IsValue t → IsValue u → value_text t ≡ value_text u → t ≡ u }
    ensures its_type { (t u : Tree) → IsValue t → IsValue u → value_text t ≡ value_text u → type_of t ≡ type_of u }
{}

/// The text of a value `t` is UTF-8 on one line: no byte `b` of it is 10, the line feed.
pub fn value_text_is_one_line()
    ensures no_line_feed { (t : Tree) → IsValue t → All (λ b. b ≢ 10) (value_text t) }
    ensures utf8 { (t : Tree) → IsValue t → IsUtf8 (value_text t) }
{}

/// `kind_in` gives a type `k` for a text exactly where the text is that of the type.
pub fn read_type_is_exact()
    ensures found { (text : List ℕ) (k : Kind) → kind_in text ≡ Some k → IsType k × (text ≡ type_text k) }
    ensures again { (k : Kind) → IsType k → kind_in (type_text k) ≡ Some k }
{}

/// `value_in` gives a value `t` for a text exactly where the text is that of the value.
pub fn read_value_is_exact()
    ensures found { (text : List ℕ) (t : Tree) → value_in text ≡ Some t → IsValue t × (text ≡ value_text t) }
    ensures again { (t : Tree) → IsValue t → value_in (value_text t) ≡ Some t }
{}
