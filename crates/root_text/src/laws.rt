//! What holds of all texts of roots. The function does nothing: its contract is the law.

ghost use Rattle.std.specs.Prelude.{◌≡◌, ◌≤◌, ℕ, List, Some, length};
ghost use Rattle.per_base.specs.Fields.{AreBytes};
ghost use Rattle.root_text.specs.RootText.{IsRoot, Root, root_of, root_text};

use manifest::said_is_kept;

/// A text says at most one root `r`, and a root has one text; `root_of` reads a text, and `root_text` writes it.
pub fn one_root()
    // bytes that say a root are its text, and a root is said by its text
    ensures taken { (text : List ℕ) (r : Root) → AreBytes text → root_of text ≡ Some r → text ≡ root_text r }
    ensures again { (r : Root) → IsRoot r → root_of (root_text r) ≡ Some r }

    // what is said is in bank 0 or 1, and its texts are manifests
    ensures is_root { (text : List ℕ) (r : Root) → root_of text ≡ Some r → IsRoot r }

    // a text has at most 131,084 bytes: two manifests of at most 65,536, four bytes of length before each, and four in
    // front of all
    ensures short { (r : Root) → IsRoot r → length (root_text r) ≤ 131084 }
{
    said_is_kept();
}
