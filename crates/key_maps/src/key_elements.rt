//! Keys, as a session holds them.

ghost use Rattle.std.specs.Prelude.{◌≡◌, ◌≤◌, IfOk, IfSome, IsTrue, None, Some, Option, length, option_copied, is_some};
ghost use Rattle.per_base.specs.declared.elements.Content.TheVariants.{Bad, Good};
ghost use Rattle.per_base.specs.Contents as contents;
ghost use Rattle.per_base.specs.Contents.{is_readable, readable_bytes};
ghost use Rattle.key_maps.specs.Changes.{same_key};
ghost use Rattle.key_maps.specs.KeyElements.{IsKey, IsKeyEntry, entry_element, judged_key_content, key_judged};
ghost use Rattle.key_maps.specs.KeyElements.{judged_salvage, key_of};
ghost use Rattle.key_maps.specs.Shown.{content_shown, good_bytes, salvage_in};

use crate::stored::StoredValue;
use per_base::{Bytes, Content, Entry};
use std::alloc::{AllocError, Global};
use std::marker::Model;
use value_model::DecodeError;

/// The content of a key.
#[derive(Drop)]
pub enum KeyContent {
    /// The value.
    Good(StoredValue),
    /// Unreadable; the salvage, where there is one that encodes a value.
    Bad(Option<StoredValue>),
}

/// A key: its content, and the length of its encoding in bytes. Contracts see it as an element without an info.
#[derive(Drop)]
pub struct KeyElement {
    len: u32,
    content: KeyContent,
}

impl Model for KeyElement {
    ghost use Rattle.per_base.specs.declared.elements.Element.{Element};

    ghost Value = { Element };

    ghost use Rattle.std.specs.Prelude.{None};
    ghost use Rattle.key_maps.specs.KeyElements.{IsKey};
    ghost use Rattle.key_maps.specs.Shown.{content_shown};

    ghost view = { λ k. record { info = None; len = k.len; content = content_shown k.content } };

    ghost invariant = { λ k. IsKey (record { info = None; len = k.len; content = content_shown k.content }) };
}

impl KeyElement {
    /// The readable key with this value.
    pub fn new(stored: StoredValue) -> KeyElement
        ensures { result ≡ key_of stored }
    {
        KeyElement {
            len: stored.len(),
            content: KeyContent::Good(stored),
        }
    }

    /// The key that this entry of a storage is: bytes that encode no value are unreadable, and no salvage. The error is
    /// that memory ran out.
    pub fn judge(alloc: Global, entry: &Entry) -> Result<KeyElement, AllocError>
        // The entry is one of a storage of keys: no info, at most 65,536 bytes.
        requires { IsKeyEntry entry.now }
        ensures { IfOk result (λ key. key ≡ key_judged (entry_element entry.now)) }
    {
        let content = judge_content(alloc, &entry.content)?;
        Ok(KeyElement {
            len: entry.len,
            content,
        })
    }

    /// The length of the encoding, in bytes.
    pub fn len(&self) -> u32
        // What always holds of a key is known too: it has no info, and its length is that of its encoding or salvage.
        ensures len { result ≡ self.now.len }
        ensures key { IsKey self.now }
    {
        self.len
    }

    /// Whether the key is readable: its content is the encoding of a value. Bytes on which too few copies agree are
    /// unreadable, and so are those that encode no value (`judge`).
    pub fn is_readable(&self) -> bool
        ensures { result ≡ is_readable self.now.content }
    {
        matches!(&self.content, KeyContent::Good(_))
    }

    /// The value of a readable key.
    pub fn stored(&self) -> Option<&StoredValue>
        ensures { option_copied result ≡ good_bytes self.now.content }
    {
        match &self.content {
            KeyContent::Good(stored) => Some(stored),
            KeyContent::Bad(_) => None,
        }
    }

    /// Whether two keys are the same: their lengths, and their encodings or salvages.
    pub fn is_same(&self, other: &KeyElement) -> bool
        ensures { result ≡ same_key self.now other.now }
    {
        self.len == other.len && same_content(&self.content, &other.content)
    }

    /// A copy of the encoding of a readable key; an unreadable one gives no bytes.
    pub fn copy_bytes(&self, alloc: Global) -> Result<Bytes, AllocError>
        ensures { IfOk result (λ bytes. bytes ≡ readable_bytes self.now.content) }
    {
        match &self.content {
            KeyContent::Good(stored) => stored.copy_bytes(),
            KeyContent::Bad(_) => Ok(Bytes::new(Vec::new(alloc))),
        }
    }

    /// The salvage of an unreadable key.
    pub fn salvage(&self) -> Option<&StoredValue>
        // Its length is that of the key.
        ensures salvage { option_copied result ≡ salvage_in self.now.content }
        ensures len { IfSome result (λ salvage. length salvage.now ≡ self.now.len) }
    {
        match &self.content {
            KeyContent::Bad(Some(salvage)) => Some(salvage),
            _ => None,
        }
    }
}

/// The content that this one is: bytes that encode no value are unreadable, and no salvage.
fn judge_content(alloc: Global, content: &Content) -> Result<KeyContent, AllocError>
    ensures { IfOk result (λ answer. content_shown answer ≡ judged_key_content content.now) }
{
    match content {
        Content::Good(bytes) => match read(alloc, bytes.as_slice())? {
            Some(stored) => Ok(KeyContent::Good(stored)),
            None => Ok(KeyContent::Bad(None)),
        },
        Content::Bad(Some(salvage)) => Ok(KeyContent::Bad(read(alloc, salvage.as_slice())?)),
        Content::Bad(None) => Ok(KeyContent::Bad(None)),
    }
}

/// The value that the bytes encode, where there is one.
fn read(alloc: Global, bytes: &[u8]) -> Result<Option<StoredValue>, AllocError>
    ensures { IfOk result (λ stored. stored ≡ judged_salvage (Some bytes.now)) }
{
    match StoredValue::read(alloc, bytes) {
        Ok(stored) => Ok(Some(stored)),
        Err(DecodeError::NotAValue) => Ok(None),
        Err(DecodeError::OutOfMemory) => Err(AllocError),
    }
}

fn same_content(here: &KeyContent, there: &KeyContent) -> bool
    ensures { result ≡ contents.same_content (content_shown here.now) (content_shown there.now) }
{
    match here {
        KeyContent::Good(here) => match there {
            KeyContent::Good(there) => here.as_slice() == there.as_slice(),
            KeyContent::Bad(_) => false,
        },
        KeyContent::Bad(here) => match there {
            KeyContent::Good(_) => false,
            KeyContent::Bad(there) => same_salvage(here, there),
        },
    }
}

fn same_salvage(here: &Option<StoredValue>, there: &Option<StoredValue>) -> bool
    ensures { result ≡ contents.same_salvage here.now there.now }
{
    match here {
        Some(here) => match there {
            Some(there) => here.as_slice() == there.as_slice(),
            None => false,
        },
        None => there.is_none(),
    }
}
