//! Laws of the texts of exports, each the contract of a function that does nothing.

ghost use Rattle.std.specs.Prelude.{◌≡◌, ℕ, List, Some};
ghost use Rattle.per_base.specs.Fields.{AreBytes};
ghost use Rattle.export_text.specs.declared.exports.Export.{Export};
ghost use Rattle.export_text.specs.Exports.{IsExport, export_of, export_text};

/// Exports with one text are one export.
pub fn one_export()
    ensures { (x y : Export) → IsExport x → IsExport y → export_text x ≡ export_text y → x ≡ y }
{}

/// What bytes spell, by `export_of`, is the export whose text they are.
pub fn export_is_exact()
    ensures again { (x : Export) → IsExport x → export_of (export_text x) ≡ Some x }
    ensures taken { (text : List ℕ) (x : Export) → AreBytes text → export_of text ≡ Some x
        → IsExport x × (text ≡ export_text x) }
{}
