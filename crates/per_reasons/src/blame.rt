//! Which part of a manifest breaks a rule. No clause says that: parts of the manifest are tried as it is read, and what
//! is named is tested for each rule.

use crate::json::things;
use manifest::{ManifestError, read_manifest};
use per_base::Name;
use serde_json::Value;
use std::alloc::{AllocError, Global};

/// The first rule on single elements.
const FIRST_OF_ELEMENTS: u32 = 19;

/// The lists of storages of a manifest, each with the word for a list of elements of its storages.
pub(crate) const LISTS: [(&str, &str); 2] = [
    ("keyValueStorages", "keyValuePairs"),
    ("fileStorages", "files"),
];

/// A manifest as it is read, and the rule that it breaks, which is none of the manifest as a whole.
#[derive(Clone, Copy)]
struct Rejected<'a> {
    alloc: Global,
    manifest: &'a Value,
    rule: u32,
}

/// The storage, and the element, up to which a manifest breaks the rule, in words; nothing where it breaks it as a
/// whole. Each rule is one of all storages in order, and one that the first of them break is broken by all.
pub(crate) fn blamed(
    alloc: Global,
    manifest: &[u8],
    rule: u32,
) -> Result<Option<String>, AllocError> {
    let manifest = match Value::from_slice(alloc, manifest) {
        Ok(manifest) => manifest,
        Err(_) => return Ok(None),
    };
    let rejected = Rejected {
        alloc,
        manifest: &manifest,
        rule,
    };
    match rejected.first_storage()? {
        Some((list, place, storage)) => rejected.named(list, place, storage).map(Some),
        None => Ok(None),
    }
}

impl<'a> Rejected<'a> {
    /// The storage up to which the rule is broken, with its list and its place there.
    fn first_storage(&self) -> Result<Option<(usize, usize, &'a Value)>, AllocError> {
        for (list, (word, elements)) in LISTS.iter().enumerate() {
            let storages = things(self.manifest, word);
            for (place, storage) in storages.iter().enumerate() {
                let all = things(storage, elements).len();
                if self.is_broken(list, place, all)? {
                    return Ok(Some((list, place, storage)));
                }
            }
        }
        Ok(None)
    }

    /// Whether the manifest up to this number of elements of a storage breaks the rule.
    fn is_broken(&self, list: usize, place: usize, elements: usize) -> Result<bool, AllocError> {
        let text = self.text_up_to(list, place, elements)?;
        match read_manifest(self.alloc, text.as_bytes()) {
            Ok(_) => Ok(false),
            Err(ManifestError::Rejected(rule)) => Ok(rule == self.rule),
            Err(ManifestError::OutOfMemory) => Err(AllocError),
        }
    }

    /// The text of the manifest up to this number of elements of a storage.
    fn text_up_to(&self, list: usize, place: usize, elements: usize) -> Result<String, AllocError> {
        let mut text = String::from_str(self.alloc, "{\"version\":1")?;
        for (other, (word, elements_word)) in LISTS.iter().enumerate() {
            if other > list {
                continue;
            }
            text.push_str(",\"")?;
            text.push_str(word)?;
            text.push_str("\":[")?;
            for (at, storage) in things(self.manifest, word).iter().enumerate() {
                if other == list && at > place {
                    continue;
                }
                if at > 0 {
                    text.push(',')?;
                }
                if other == list && at == place {
                    self.push_storage(&mut text, storage, elements_word, elements)?;
                } else {
                    self.push_value(&mut text, storage)?;
                }
            }
            text.push(']')?;
        }
        text.push('}')?;
        Ok(text)
    }

    /// Appends a storage with this number of its elements.
    fn push_storage(
        &self,
        text: &mut String,
        storage: &Value,
        elements_word: &str,
        elements: usize,
    ) -> Result<(), AllocError> {
        let Some(members) = storage.as_object() else {
            return self.push_value(text, storage);
        };
        text.push('{')?;
        let mut is_first = true;
        for (word, member) in members {
            if !is_first {
                text.push(',')?;
            }
            is_first = false;
            let word = Value::try_from_str(self.alloc, word.as_str())?;
            self.push_value(text, &word)?;
            text.push(':')?;
            match member.as_array() {
                Some(listed) if word.as_str() == Some(elements_word) => {
                    self.push_first(text, listed, elements)?;
                }
                _ => self.push_value(text, member)?,
            }
        }
        text.push('}')
    }

    /// Appends the first `count` elements.
    fn push_first(
        &self,
        text: &mut String,
        listed: &[Value],
        count: usize,
    ) -> Result<(), AllocError> {
        text.push('[')?;
        for (at, element) in listed.iter().take(count).enumerate() {
            if at > 0 {
                text.push(',')?;
            }
            self.push_value(text, element)?;
        }
        text.push(']')
    }

    fn push_value(&self, text: &mut String, value: &Value) -> Result<(), AllocError> {
        text.push_str(value.to_string(self.alloc)?.as_str())
    }

    /// The storage in words, with its element where the rule is one of elements.
    fn named(&self, list: usize, place: usize, storage: &Value) -> Result<String, AllocError> {
        let Some((word, elements_word)) = LISTS.get(list) else {
            return Ok(String::new(self.alloc));
        };
        let mut text = String::from_str(self.alloc, "storage ")?;
        self.push_name(&mut text, storage, place, word)?;
        let elements = things(storage, elements_word);
        if self.rule < FIRST_OF_ELEMENTS || elements.is_empty() {
            return Ok(text);
        }
        let at = self.first_element(list, place, elements.len())?;
        if let Some(element) = elements.get(at) {
            text.push_str(", element ")?;
            self.push_name(&mut text, element, at, elements_word)?;
        }
        Ok(text)
    }

    /// The place of the element up to which the rule is broken.
    fn first_element(&self, list: usize, place: usize, count: usize) -> Result<usize, AllocError> {
        let mut kept: usize = 0;
        let mut broken = count;
        for _ in 0..usize::BITS {
            let middle = kept.saturating_add(broken.saturating_sub(kept) / 2);
            if middle == kept {
                break;
            }
            if self.is_broken(list, place, middle)? {
                broken = middle;
            } else {
                kept = middle;
            }
        }
        Ok(kept)
    }

    /// Appends the name, or the place in a list where there is none in the grammar of names.
    fn push_name(
        &self,
        text: &mut String,
        value: &Value,
        place: usize,
        list: &str,
    ) -> Result<(), AllocError> {
        let name = value.get("name").and_then(Value::as_str).unwrap_or("");
        match Name::new(self.alloc, name) {
            Ok(name) => text.push_str(name.as_str()),
            Err(_) => {
                let place = format!(in self.alloc; "{} of {list}", place.saturating_add(1))?;
                text.push_str(place.as_str())
            }
        }
    }
}

/// How many bytes of a text that is no JSON are read before that shows.
pub(crate) fn end_of_json(alloc: Global, manifest: &[u8]) -> usize {
    match Value::from_slice(alloc, manifest) {
        Ok(_) => manifest.len(),
        Err(error) => error.column(),
    }
}
