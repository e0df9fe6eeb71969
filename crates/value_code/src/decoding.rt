//! Reading values.

ghost use Rattle.std.specs.Prelude.{◌≡◌, ◌≢◌, IfOk, IsErrOf};
ghost use Rattle.value_code.specs.Reading.{decoded, is_encoding};
ghost use Rattle.value_model.specs.Encoding.{encoding};
ghost use Rattle.value_model.specs.Trees.{Tree};
ghost use Rattle.value_model.specs.Validity.{IsValue};
ghost use Rattle.value_model.specs.Views.{tree_of};
ghost use Rattle.value_model.specs.Decoding.{Gives};

use crate::trees::node_at;
use crate::types::type_at;
use std::alloc::{AllocError, Global};
use value_model::{DecodeError, MAX_DEPTH, MAX_LENGTH, Node, Value};

/// The value whose encoding is `bytes`, from the first to the last.
///
/// # Errors
///
/// `NotAValue` exactly where no value encodes to the bytes; `OutOfMemory`.
pub fn decode(alloc: Global, bytes: &[u8]) -> Result<Value, DecodeError>
    // a value that is found has this encoding, and bytes that are refused are the encoding of no value `t`
    ensures found { IfOk result (λ v. IsValue v × (bytes.now ≡ encoding v)) }
    ensures only { IsErrOf result DecodeError.NotAValue → (t : Tree) → IsValue t → bytes.now ≢ encoding t }

    // the bytes alone decide: which value, or that there is none, is what `decoded` gives for them
    ensures exact { Gives (λ v. v) result (decoded bytes.now) }
{
    value_of(alloc, bytes)
}

/// Whether `bytes`, from the first to the last, are the encoding of some value; the error says that memory ran out.
pub fn encodes(alloc: Global, bytes: &[u8]) -> Result<bool, AllocError>
    ensures { IfOk result (λ answer. answer ≡ is_encoding bytes.now) }
{
    match decode(alloc, bytes) {
        Ok(_) => Ok(true),
        Err(DecodeError::NotAValue) => Ok(false),
        Err(DecodeError::OutOfMemory) => Err(AllocError),
    }
}

fn value_of(alloc: Global, bytes: &[u8]) -> Result<Value, DecodeError>
    ensures { Gives (λ v. v) result (decoded bytes.now) }
{
    let node = node_of(alloc, bytes)?;
    match Value::new(node) {
        Ok(value) => Ok(value),
        Err(_) => Err(DecodeError::NotAValue),
    }
}

#[tactic(auto, unfolding(crate::specs::Reading::decoded))]
fn node_of(alloc: Global, bytes: &[u8]) -> Result<Node, DecodeError>
    ensures { Gives tree_of result (decoded bytes.now) }
{
    if bytes.len() > MAX_LENGTH {
        return Err(DecodeError::NotAValue);
    }
    let (value_type, rest) = type_at(alloc, MAX_DEPTH, bytes)?;
    let (node, rest) = node_at(alloc, &value_type, rest)?;
    if !rest.is_empty() {
        return Err(DecodeError::NotAValue);
    }
    Ok(node)
}
