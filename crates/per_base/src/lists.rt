//! Small types for bytes, numbers and texts: contracts see each as the plain list that it holds.

ghost use Rattle.std.specs.Prelude.{◌≡◌, IfOk, length};
ghost use Rattle.std.specs.Prelude.{string_bytes};

use std::alloc::AllocError;
use std::marker::Model;

/// A list of bytes.
#[derive(Debug, Drop)]
pub struct Bytes {
    bytes: Vec<u8>,
}

impl Model for Bytes {
    ghost use Rattle.std.specs.Prelude.{◌<◌, ℕ, List, slice_index};

    ghost Value = { List ℕ };

    ghost view = { λ b. b.bytes.items };

    ghost invariant = { λ b. (i : ℕ) → slice_index b.bytes.items i < 256 };
}

impl Bytes {
    /// The list that a vector holds. Does not allocate.
    pub fn new(bytes: Vec<u8>) -> Bytes
        ensures { result ≡ bytes.items }
    {
        Bytes { bytes }
    }

    /// The bytes as a slice.
    pub fn as_slice(&self) -> &[u8]
        ensures { result.now ≡ self.now }
    {
        self.bytes.as_slice()
    }

    /// The number of bytes.
    pub fn len(&self) -> usize
        ensures { result ≡ length self.now }
    {
        self.bytes.len()
    }

    /// The vector itself, handed back. Does not allocate.
    pub fn into_vec(self) -> Vec<u8>
        ensures { result.items ≡ self }
    {
        self.bytes
    }

    /// A copy with the same bytes.
    pub fn copy(&self) -> Result<Bytes, AllocError>
        ensures { IfOk result (λ copy. copy ≡ self.now) }
    {
        Ok(Bytes {
            bytes: self.bytes.clone()?,
        })
    }
}

/// A list of numbers: copies of a storage counted from 1, or blocks of an area. Copying a list of one number does not
/// allocate.
#[derive(Debug, Drop)]
pub struct Numbers {
    numbers: Kept,
}

// Where the numbers are.
#[derive(Debug, Drop)]
enum Kept {
    One([u32; 1]),
    Many(Vec<u32>),
}

impl Model for Numbers {
    ghost use Rattle.std.specs.Prelude.{◌<◌, ◌^◌, ℕ, List, slice_index};
    ghost use Rattle.per_base.specs.Lists.{kept_numbers};

    ghost Value = { List ℕ };

    ghost view = { λ n. kept_numbers n.numbers };

    ghost invariant = { λ n. (i : ℕ) → slice_index (kept_numbers n.numbers) i < 2 ^ 32 };
}

impl Numbers {
    /// The list that a vector holds. Does not allocate.
    pub fn new(numbers: Vec<u32>) -> Numbers
        ensures { result ≡ numbers.items }
    {
        Numbers {
            numbers: Kept::Many(numbers),
        }
    }

    /// The numbers as a slice.
    pub fn as_slice(&self) -> &[u32]
        ensures { result.now ≡ self.now }
    {
        match &self.numbers {
            Kept::One(numbers) => numbers,
            Kept::Many(numbers) => numbers.as_slice(),
        }
    }

    /// A copy with the same numbers.
    pub fn copy(&self) -> Result<Numbers, AllocError>
        ensures { IfOk result (λ copy. copy ≡ self.now) }
    {
        Ok(Numbers {
            numbers: self.numbers.copy()?,
        })
    }
}

impl Kept {
    ghost use Rattle.per_base.specs.Lists.{kept_numbers};

    fn copy(&self) -> Result<Kept, AllocError>
        ensures { IfOk result (λ copy. kept_numbers copy ≡ kept_numbers self.now) }
    {
        match self {
            Kept::One(numbers) => Ok(Kept::One(*numbers)),
            Kept::Many(numbers) => match numbers.as_slice() {
                [number] => Ok(Kept::One([*number])),
                _ => Ok(Kept::Many(numbers.clone()?)),
            },
        }
    }
}

/// A text, which contracts see as its UTF-8 bytes: the text of a type or of a value.
#[derive(Debug, Drop)]
pub struct ValueText {
    text: String,
}

impl Model for ValueText {
    ghost use Rattle.std.specs.Prelude.{ℕ, List, string_bytes};

    ghost Value = { List ℕ };

    ghost view = { λ t. string_bytes t.text };
}

impl ValueText {
    /// The text that a string holds. Does not allocate.
    pub fn new(text: String) -> ValueText
        ensures { result ≡ string_bytes text }
    {
        ValueText { text }
    }

    /// The text itself, borrowed.
    pub fn as_str(&self) -> &str
        ensures { result.now ≡ self.now }
    {
        self.text.as_str()
    }

    /// The string itself, handed back. Does not allocate.
    pub fn into_string(self) -> String
        ensures { string_bytes result ≡ self }
    {
        self.text
    }

    /// A copy with the same text.
    pub fn copy(&self) -> Result<ValueText, AllocError>
        ensures { IfOk result (λ copy. copy ≡ self.now) }
    {
        Ok(ValueText {
            text: self.text.clone()?,
        })
    }
}

/// A list of things of one type.
#[derive(Debug, Drop)]
pub struct Sequence<T> {
    items: Vec<T>,
}

impl<T> Model for Sequence<T> {
    ghost use Rattle.std.specs.Prelude.{List};

    ghost Value = { List T };

    ghost view = { λ s. s.items.items };
}

impl<T> Sequence<T> {
    /// The list that a vector holds. Does not allocate.
    pub fn new(items: Vec<T>) -> Sequence<T>
        ensures { result ≡ items.items }
    {
        Sequence { items }
    }

    /// The things as a slice.
    pub fn as_slice(&self) -> &[T]
        ensures { result.now ≡ self.now }
    {
        self.items.as_slice()
    }

    /// The vector itself, handed back. Does not allocate.
    pub fn into_vec(self) -> Vec<T>
        ensures { result.items ≡ self }
    {
        self.items
    }
}
