//! Writing an export as its text.

ghost use Rattle.std.specs.Prelude.{◌≡◌, ◌<◌, ◌^◌, ◌++◌, IfOk, OnOk, Some, length};
ghost use Rattle.std.specs.List.{AllByRecursion, flat_map};
ghost use Rattle.per_base.specs.declared.elements.Fresh.{Fresh};
ghost use Rattle.export_text.specs.declared.exports.Export.{Export};
ghost use Rattle.export_text.specs.Exports.{AreExportable, IsExport, IsExportedElement, export_body, export_of};
ghost use Rattle.export_text.specs.Exports.{export_text};
ghost use Rattle.export_text.specs.Exports.{fresh_text, header_text};

use crate::exports::MARK;
use index_text::{kind_byte, put_info, put_name};
use per_base::{Fresh, StoreKind};
use sha2::{Digest, Sha256};
use std::alloc::{AllocError, Global};

/// The one text of the export of a storage of this kind with these elements: at most 1,024 of them with ascending
/// names, an info exactly for files, for a key the encoding of a value, for a file at most 1,048,576 bytes.
pub fn write_export(
    alloc: Global,
    kind: StoreKind,
    contents: &[Fresh],
) -> Result<Vec<u8>, AllocError>
    requires { AreExportable kind contents.now }
    ensures text { IfOk result (λ text. text.items ≡ export_text (record { kind = kind; contents = contents.now })) }

    // It spells this export, and so no other; and this is one.
    ensures spells { IfOk result (λ text. export_of text.items
        ≡ Some (record { kind = kind; contents = contents.now })) }
    ensures is_export { OnOk result (IsExport (record { kind = kind; contents = contents.now })) }
{
    let mut text = body_of(alloc, kind, contents)?;
    let digest = Sha256::digest(text.as_slice());
    text.extend_from_slice(&digest)?;
    Ok(text)
}

/// All that the hash is taken of.
fn body_of(alloc: Global, kind: StoreKind, contents: &[Fresh]) -> Result<Vec<u8>, AllocError>
    requires { AreExportable kind contents.now }
    ensures body { IfOk result (λ body. body.items ≡ export_body (record { kind = kind; contents = contents.now })) }
    ensures elements { OnOk result (AllByRecursion IsExportedElement contents.now) }
{
    let mut body = Vec::new(alloc);
    put_header(&mut body, kind, contents.len() as u16)?;
    for element in contents {
        put_element(&mut body, element)?;
    }
    Ok(body)
}

fn put_header(text: &mut Vec<u8>, kind: StoreKind, count: u16) -> Result<(), AllocError>
    ensures { OnOk result (text.new.items ≡ text.old.items ++ header_text kind count) }
{
    text.extend_from_slice(&MARK)?;
    text.push(kind_byte(kind))?;
    text.extend_from_slice(&count.to_le_bytes())?;
    Ok(())
}

#[tactic(auto, unfolding(crate::specs::Exports::fresh_text))]
fn put_element(text: &mut Vec<u8>, element: &Fresh) -> Result<(), AllocError>
    requires { length element.now.bytes < 2 ^ 32 }
    ensures text { OnOk result (text.new.items ≡ text.old.items ++ fresh_text element.now) }
    ensures element { OnOk result (IsExportedElement element.now) }
{
    put_name(text, element.name.as_str())?;
    put_info(text, &element.info)?;
    text.extend_from_slice(&(element.bytes.len() as u32).to_le_bytes())?;
    text.extend_from_slice(element.bytes.as_slice())?;
    Ok(())
}
