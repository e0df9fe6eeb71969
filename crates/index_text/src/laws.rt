//! Laws of index texts, each the contract of a function that does nothing.

ghost use Rattle.std.specs.Prelude.{◌≡◌, ◌≤◌, ◌+◌, ◌/◌, ℕ, length};
ghost use Rattle.per_base.specs.declared.elements.StoreKind.{StoreKind};
ghost use Rattle.index_text.specs.declared.entries.Index.{Index};
ghost use Rattle.index_text.specs.Rules.{EntriesInRange, IsIndex, blocks_of};
ghost use Rattle.index_text.specs.Spelling.{index_text};
ghost use Rattle.index_text.specs.Sizes.{Fits, size_of};

/// Two indexes that keep the rules, with numbers within their types, are one index where they have one text.
pub fn one_index()
    ensures { (i j : Index) → IsIndex i → EntriesInRange i → IsIndex j → EntriesInRange j
        → index_text i ≡ index_text j → i ≡ j }
{}

/// The text of an index that fits a storage of at most 4,194,304 bytes has at most 403,460 bytes: 4 before the entries,
/// 71 and a name of 255 for each of 1,024 entries, and 4 for each of 17,408 blocks. `allowed` is the greatest size of
/// the storage, of names and contents, in bytes.
pub fn text_is_short()
    ensures { (kind : StoreKind) (allowed : ℕ) (i : Index) → IsIndex i → Fits kind allowed i
        → allowed ≤ 4194304 → length (index_text i) ≤ 403460 }
{}

/// An index has at most as many blocks, of 256 bytes, as its size in bytes fills whole, and one more for each entry.
pub fn blocks_are_few()
    ensures { (i : Index) → IsIndex i
        → length (blocks_of i.entries) ≤ size_of i.entries / 256 + length i.entries }
{}
