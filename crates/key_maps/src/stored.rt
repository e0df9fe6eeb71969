//! A value as its encoding.

ghost use Rattle.std.specs.Prelude.{◌≡◌, ◌≤◌, ◌↔◌, IfOk, IfSome, IsTrue, None, OnOk, Some, length, option_map};
ghost use Rattle.value_code.specs.Reading.{decoded, is_encoding};
ghost use Rattle.value_model.specs.Encoding.{encoding};
ghost use Rattle.value_model.specs.Trees.{type_of};
ghost use Rattle.value_model.specs.Validity.{IsValue};
ghost use Rattle.key_maps.specs.KeyElements.{IsStoredValue};

use crate::type_codes::has_type_of;
use per_base::Bytes;
use std::alloc::{AllocError, Global};
use std::cell::OnceCell;
use std::marker::Model;
use value_code::{decode, decoded_is_exact, encode};
use value_model::{DecodeError, Node, Value};

/// A value, kept as its encoding, which contracts see: the tree of a text, of bytes, of a list or of a group may take
/// many times the memory of its bytes, so it is made where it is asked for. A scalar keeps its tree beside the bytes.
#[derive(Drop)]
pub struct StoredValue {
    bytes: Bytes,
    scalar: Option<Value>,
    lent: OnceCell<Box<Lent>>,
}

impl Model for StoredValue {
    ghost use Rattle.std.specs.Prelude.{ℕ, List, IfSome, IsTrue};
    ghost use Rattle.value_code.specs.Reading.{is_encoding};
    ghost use Rattle.key_maps.specs.KeyElements.{IsStoredValue};

    ghost Value = { List ℕ };

    ghost view = { λ s. s.bytes };

    ghost invariant = { λ s. IsTrue (is_encoding s.bytes) × IfSome s.scalar (λ value. IsStoredValue s.bytes value) };
}

impl StoredValue {
    /// The encoding of a value.
    pub fn new(alloc: Global, value: &Value) -> Result<StoredValue, AllocError>
        ensures { IfOk result (λ stored. stored ≡ encoding value.now) }
    {
        let _valid = value.node();
        decoded_is_exact();
        let bytes = Bytes::new(encode(alloc, value)?);
        StoredValue::of(alloc, bytes, value)
    }

    /// The bytes, which encode this value.
    fn of(alloc: Global, bytes: Bytes, value: &Value) -> Result<StoredValue, AllocError>
        requires { IsStoredValue bytes value.now }
        ensures { IfOk result (λ stored. stored ≡ bytes) }
    {
        Ok(StoredValue {
            bytes,
            scalar: scalar_of(alloc, value)?,
            lent: OnceCell::new(),
        })
    }

    /// A copy of the bytes, where they encode a value.
    ///
    /// # Errors
    ///
    /// `NotAValue` exactly where no value encodes to the bytes; `OutOfMemory`.
    pub fn read(alloc: Global, bytes: &[u8]) -> Result<StoredValue, DecodeError>
        // A value is given only for bytes that encode one, which are then its encoding; `NotAValue` only for bytes
        // that decode to none.
        ensures bytes { IfOk result (λ stored. stored ≡ bytes.now) }
        ensures readable { OnOk result (IsTrue (is_encoding bytes.now)) }
        ensures only { result ≡ Err DecodeError.NotAValue → decoded bytes.now ≡ None }
    {
        let value = decode(alloc, bytes)?;
        let copy = Vec::from_slice(alloc, bytes)?;
        Ok(StoredValue::of(alloc, Bytes::new(copy), &value)?)
    }

    /// The value, anew; the error says that memory ran out.
    pub fn value(&self, alloc: Global) -> Result<Value, AllocError>
        // The encoding decodes to this value, this value encodes to it, and it is a valid one.
        ensures reads { IfOk result (λ value. decoded self.now ≡ Some value) }
        ensures writes { IfOk result (λ value. self.now ≡ encoding value) }
        ensures valid { IfOk result (λ value. IsValue value) }
        // There always is one.
        ensures readable { IsTrue (is_encoding self.now) }
    {
        if let Some(scalar) = &self.scalar {
            return scalar.copy(alloc);
        }
        match decode(alloc, self.bytes.as_slice()) {
            Ok(value) => Ok(value),
            Err(_) => Err(AllocError),
        }
    }

    /// The value, lent: its tree then stays beside the bytes as long as these stay. The error says that memory ran out.
    pub fn lend(&self, alloc: Global) -> Result<&Value, AllocError>
        // The encoding decodes to this value, this value encodes to it, and it is a valid one.
        ensures reads { IfOk result (λ value. decoded self.now ≡ Some value.now) }
        ensures writes { IfOk result (λ value. self.now ≡ encoding value.now) }
        ensures valid { IfOk result (λ value. IsValue value.now) }
        // There always is one.
        ensures readable { IsTrue (is_encoding self.now) }
    {
        if let Some(scalar) = &self.scalar {
            return Ok(scalar);
        }
        let lent = self.lent.get_or_try_init(|| Lent::new(alloc, self))?;
        if lent.as_slice() != self.bytes.as_slice() {
            return Err(AllocError);
        }
        Ok(lent.value())
    }

    /// Whether the value has the type of the other one. Does not allocate.
    pub fn has_type_of(&self, other: &Value) -> bool
        // The type of the value is that of the other one.
        ensures same { IsTrue result ↔ (option_map type_of (decoded self.now) ≡ Some (type_of other.now)) }
        // There always is a value.
        ensures readable { IsTrue (is_encoding self.now) }
    {
        has_type_of(self.bytes.as_slice(), other)
    }

    /// The encoding.
    pub fn as_slice(&self) -> &[u8]
        ensures { result.now ≡ self.now }
    {
        self.bytes.as_slice()
    }

    /// A copy of the encoding.
    pub fn copy_bytes(&self) -> Result<Bytes, AllocError>
        ensures { IfOk result (λ copy. copy ≡ self.now) }
    {
        self.bytes.copy()
    }

    /// The number of bytes of the encoding.
    pub fn len(&self) -> u32
        // It is at most 65,536, and the bytes encode a value.
        ensures len { result ≡ length self.now }
        ensures short { result ≤ 65536 }
        ensures readable { IsTrue (is_encoding self.now) }
    {
        self.bytes.len() as u32
    }

    /// An equal copy.
    pub fn copy(&self, alloc: Global) -> Result<StoredValue, AllocError>
        ensures { IfOk result (λ copy. copy ≡ self.now) }
    {
        let scalar = match &self.scalar {
            Some(scalar) => Some(scalar.copy(alloc)?),
            None => None,
        };
        Ok(StoredValue {
            bytes: self.bytes.copy()?,
            scalar,
            lent: OnceCell::new(),
        })
    }
}

/// A copy of the value, where it is a truth value or a number.
fn scalar_of(alloc: Global, value: &Value) -> Result<Option<Value>, AllocError>
    ensures { IfOk result (λ scalar. IfSome scalar (λ copy. copy ≡ value.now)) }
{
    match value.node() {
        Node::Text(_) | Node::Bytes(_) | Node::List(_, _) | Node::Fields(_) => Ok(None),
        _ => Ok(Some(value.copy(alloc)?)),
    }
}

/// A value that is lent, and its encoding, which contracts see.
#[derive(Drop)]
struct Lent {
    bytes: Bytes,
    value: Value,
}

impl Model for Lent {
    ghost use Rattle.std.specs.Prelude.{ℕ, List};
    ghost use Rattle.key_maps.specs.KeyElements.{IsStoredValue};

    ghost Value = { List ℕ };

    ghost view = { λ l. l.bytes };

    ghost invariant = { λ l. IsStoredValue l.bytes l.value };
}

impl Lent {
    fn new(alloc: Global, stored: &StoredValue) -> Result<Box<Lent>, AllocError> {
        let bytes = stored.copy_bytes()?;
        let value = stored.value(alloc)?;
        Ok(Box::new(alloc, Lent { bytes, value })?)
    }

    fn as_slice(&self) -> &[u8]
        ensures { result.now ≡ self.now }
    {
        self.bytes.as_slice()
    }

    fn value(&self) -> &Value
        ensures { IsStoredValue self.now result.now }
    {
        &self.value
    }
}
