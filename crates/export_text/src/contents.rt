//! What holds of contents: bytes that are a content of their kind, and names that ascend.

ghost use Rattle.std.specs.Prelude.{◌≡◌, IfOk};
ghost use Rattle.std.specs.Ordering.{is_lt};
ghost use Rattle.per_base.specs.Names.{name_cmp};
ghost use Rattle.value_code.specs.Reading.{is_content};
ghost use Rattle.index_text.specs.Reading.{ascends};
ghost use Rattle.export_text.specs.Exports.{names_of};

use per_base::{Fresh, Name, StoreKind};
use std::alloc::{AllocError, Global};
use value_code::encodes;

/// Whether the bytes are a content of this kind: for a key they encode a value.
pub fn is_content_of(alloc: Global, kind: StoreKind, bytes: &[u8]) -> Result<bool, AllocError>
    ensures { IfOk result (λ answer. answer ≡ is_content kind bytes.now) }
{
    match kind {
        StoreKind::Keys => encodes(alloc, bytes),
        StoreKind::Files => Ok(true),
    }
}

/// Whether each name is below the next.
pub fn names_ascend(contents: &[Fresh]) -> bool
    ensures { result ≡ ascends (names_of contents.now) }
{
    for i in 1..contents.len() {
        if !is_below(&contents[i - 1].name, &contents[i].name) {
            return false;
        }
    }
    true
}

fn is_below(name: &Name, next: &Name) -> bool
    ensures { result ≡ is_lt (name_cmp name.now next.now) }
{
    name < next
}
