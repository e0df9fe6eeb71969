//! Writing values.

ghost use Rattle.std.specs.Prelude.{◌≡◌, IfOk};
ghost use Rattle.value_model.specs.Encoding.{encoding};

use crate::payloads::put_payload;
use crate::types::put_type;
use std::alloc::{AllocError, Global};
use value_model::Value;

/// The encoding of a value: the code of its type, and then its payload, the content. The error says that memory ran
/// out.
pub fn encode(alloc: Global, value: &Value) -> Result<Vec<u8>, AllocError>
    ensures { IfOk result (λ bytes. bytes.items ≡ encoding value.now) }
{
    let value_type = value.value_type(alloc)?;
    let node = value.node();
    let mut out = Vec::new(alloc);
    put_type(&value_type, &mut out)?;
    put_payload(node, &mut out)?;
    Ok(out)
}
