//! Whether elements can be exported.

ghost use Rattle.std.specs.Prelude.{◌≡◌, ◌↔◌, IfOk, IsTrue};
ghost use Rattle.index_text.specs.Rules.{has_info};
ghost use Rattle.export_text.specs.Exports.{AreExportable, IsExportable};

use crate::contents::{is_content_of, names_ascend};
use crate::exports::MAX_ELEMENTS;
use crate::fields::max_len_of;
use per_base::{Fresh, StoreKind};
use std::alloc::{AllocError, Global};

/// Whether these can be the elements of an export of this kind: at most 1,024 of them with ascending names, an info
/// exactly for files, for a key the encoding of a value, for a file at most 1,048,576 bytes.
pub fn are_exportable(
    alloc: Global,
    kind: StoreKind,
    contents: &[Fresh],
) -> Result<bool, AllocError>
    ensures { IfOk result (λ answer. IsTrue answer ↔ AreExportable kind contents.now) }
{
    if contents.len() > MAX_ELEMENTS as usize || !names_ascend(contents) {
        return Ok(false);
    }
    for fresh in contents {
        if !is_exportable(alloc, kind, fresh)? {
            return Ok(false);
        }
    }
    Ok(true)
}

/// Whether one can.
fn is_exportable(alloc: Global, kind: StoreKind, fresh: &Fresh) -> Result<bool, AllocError>
    ensures { IfOk result (λ answer. IsTrue answer ↔ IsExportable kind fresh.now) }
{
    if !has_info(kind, fresh) || fresh.bytes.len() > max_len_of(kind) as usize {
        return Ok(false);
    }
    is_content_of(alloc, kind, fresh.bytes.as_slice())
}

/// Whether the element has an info exactly if it is a file.
fn has_info(kind: StoreKind, fresh: &Fresh) -> bool
    ensures { result ≡ has_info kind fresh.now.info }
{
    match kind {
        StoreKind::Keys => fresh.info.is_none(),
        StoreKind::Files => fresh.info.is_some(),
    }
}
