//! For which key or storage a manifest is refused that does not fit what is stored.
//!
//! By clauses a text that is given has the form of such a reason, with the type or the number of bytes that the answer
//! says of the manifest, and another answer has none. Which key or storage is named is tested.

ghost use Rattle.std.specs.Prelude.{◌≡◌, ◌<◌, ◌+◌, ◌∷◌, [], IfOk, IfSome, string_bytes};
ghost use Rattle.value_text.specs.Readers.{Finds, literal_at};
ghost use Rattle.per_words.specs.Flaws.{after_space, leading_word};
ghost use Rattle.per_reasons.specs.Parts.{Carries, NamesKey, NamesPart, NamesStorage};

use crate::blame::LISTS;
use crate::json::things;
use crate::refusals::manifest_of_line;
use crate::words::split;
use deployment_model::{CollectionStrategy, ElementConfig, ElementStrategy, StorageConfig};
use export_text::{Export, ExportError, read_export};
use manifest::read_manifest;
use per_base::{Fresh, Name, StoreKind};
use serde_json::Value;
use std::alloc::{AllocError, Global};
use value_code::decode;
use value_model::DecodeError;
use value_text::parse_type;

/// How many keys a trial has at most, so that its manifest is no longer than one may be.
const TRIED_KEYS: usize = 128;

/// Why a manifest does not fit what is stored.
#[derive(Clone, Copy, Debug, PartialEq, Eq)]
pub enum Unfit {
    /// It says another type of a key, to which no converter leads.
    Type,
    /// It allows a storage fewer bytes than its contents have.
    Size,
}

/// An application of which updates are tried. A trial changes nothing.
pub trait Trial {
    /// Why an update to this manifest is refused; nothing where it is not, or for another reason, or cannot be tried.
    fn unfit(&mut self, manifest: &[u8]) -> Option<Unfit>;
}

/// The application whose update, in this line, was answered so, where its manifest does not fit what is stored.
pub fn unfit_update(answer: &[u8], line: &[u8]) -> Option<u32>
    ensures { IfSome result (λ application. (application < 8) × (leading_word line.now ≡ (48 + application) ∷ [])) }
{
    let _ = unfit_of(answer)?;
    let _ = manifest_of_line(line)?;
    match split(line)? {
        ([digit], _) if *digit >= b'0' && *digit <= b'7' => Some(u32::from(*digit - b'0')),
        _ => None,
    }
}

/// For which key or storage the update in this line was answered so, in words; nothing where no trial shows it.
///
/// An update is planned storage by storage, in the order of their names and each by itself. So the storage is the first
/// of which an update to it alone is refused so. In it each key is planned by itself, and the key is the first of which
/// an update that keeps it alone is refused so.
///
/// # Errors
///
/// Memory ran out.
pub fn why_not_updated<T: Trial>(
    alloc: Global,
    answer: &[u8],
    line: &[u8],
    trial: &mut T,
) -> Result<Option<String>, AllocError>
    ensures { IfOk result (λ why. IfSome why (λ text. NamesPart answer.now (string_bytes text))) }
{
    let (Some((unfit, asked)), Some(manifest)) = (unfit_of(answer), manifest_of_line(line)) else {
        return Ok(None);
    };
    let (Ok(value), Ok(deployment)) = (
        Value::from_slice(alloc, manifest),
        read_manifest(alloc, manifest),
    ) else {
        return Ok(None);
    };
    let version = deployment.version;
    for storage in deployment.storages.as_slice() {
        let text = text_of_storage(alloc, version, storage, &value)?;
        if trial.unfit(text.as_bytes()) == Some(unfit) {
            return match unfit {
                Unfit::Type => {
                    let key = refused_key(alloc, version, storage, asked, trial)?;
                    said_of_key(alloc, asked, &storage.name, key.as_ref())
                }
                Unfit::Size => said_of_storage(alloc, asked, &storage.name),
            };
        }
    }
    Ok(None)
}

/// For which key or storage an application of this manifest is not restored with these exports of its storages, by this
/// answer, in words; nothing for another answer.
///
/// # Errors
///
/// Memory ran out.
pub fn why_not_restored(
    alloc: Global,
    answer: &[u8],
    manifest: &[u8],
    exports: &[&[u8]],
) -> Result<Option<String>, AllocError>
    ensures { IfOk result (λ why. IfSome why (λ text. NamesPart answer.now (string_bytes text))) }
{
    let Some((unfit, asked)) = unfit_of(answer) else {
        return Ok(None);
    };
    let Ok(deployment) = read_manifest(alloc, manifest) else {
        return Ok(None);
    };
    for (storage, export) in deployment.storages.as_slice().iter().zip(exports) {
        let export = match read_export(alloc, *export) {
            Ok(export) => export,
            Err(ExportError::NotAnExport) => return Ok(None),
            Err(ExportError::OutOfMemory) => return Err(AllocError),
        };
        match unfit {
            Unfit::Type => {
                let key = mismatched(alloc, storage, &export)?;
                if key.is_some() {
                    return said_of_key(alloc, asked, &storage.name, key);
                }
            }
            Unfit::Size if is_too_large(storage, &export) => {
                return said_of_storage(alloc, asked, &storage.name);
            }
            Unfit::Size => {}
        }
    }
    Ok(None)
}

/// Why a manifest was answered so, where it does not fit, and the type or the number of bytes that it says.
fn unfit_of(answer: &[u8]) -> Option<(Unfit, &str)>
    ensures { IfSome result (λ unfit. Carries unfit.0 answer.now unfit.1.now) }
{
    if let Some(types) = after(b"error 7 DataTypeMismatch ", answer) {
        return Some((Unfit::Type, asked_in(types)?));
    }
    let sizes = after(b"error 10 OutOfStorageSpace ", answer)?;
    Some((Unfit::Size, asked_in(sizes)?))
}

/// What follows the word, where the text begins with it.
fn after<'a>(word: &[u8], text: &'a [u8]) -> Option<&'a [u8]>
    ensures { Finds (λ rest. rest.now) result (literal_at word.now text.now) }
{
    text.strip_prefix(word)
}

/// What the manifest says, after what is stored.
fn asked_in(carried: &[u8]) -> Option<&str>
    ensures { IfSome result (λ asked. asked.now ≡ after_space carried.now) }
{
    let (_, asked) = split(carried)?;
    match str::from_utf8(asked) {
        Ok(asked) => Some(asked),
        Err(_) => None,
    }
}

fn said_of_key(
    alloc: Global,
    asked: &str,
    storage: &Name,
    key: Option<&Name>,
) -> Result<Option<String>, AllocError>
    ensures { IfOk result (λ why. IfSome why (λ text. NamesKey asked.now (string_bytes text))) }
{
    let Some(key) = key else {
        return Ok(None);
    };
    let (storage, key) = (storage.as_str(), key.as_str());
    Ok(Some(format!(in alloc; "the manifest says {asked} of {storage}:{key}")?))
}

fn said_of_storage(
    alloc: Global,
    allowed: &str,
    storage: &Name,
) -> Result<Option<String>, AllocError>
    ensures { IfOk result (λ why. IfSome why (λ text. NamesStorage allowed.now (string_bytes text))) }
{
    let storage = storage.as_str();
    Ok(Some(format!(in alloc; "the manifest allows {allowed} bytes to {storage}")?))
}

/// The text of a manifest that has one storage, as this one has it.
fn text_of_storage(
    alloc: Global,
    version: u32,
    storage: &StorageConfig,
    manifest: &Value,
) -> Result<String, AllocError> {
    let list = list_of(storage.kind);
    let mut text = format!(in alloc; "{{\"version\":{version},\"{list}\":[")?;
    for value in things(manifest, list) {
        if value.get("name").and_then(Value::as_str) == Some(storage.name.as_str()) {
            text.push_str(value.to_string(alloc)?.as_str())?;
        }
    }
    text.push_str("]}")?;
    Ok(text)
}

/// The word for the list of the storages of this kind.
fn list_of(kind: StoreKind) -> &'static str {
    let [(keys, _), (files, _)] = LISTS;
    match kind {
        StoreKind::Keys => keys,
        StoreKind::Files => files,
    }
}

/// The first key of this type in a storage of which an update that keeps it alone is refused for its type.
fn refused_key<T: Trial>(
    alloc: Global,
    version: u32,
    storage: &StorageConfig,
    asked: &str,
    trial: &mut T,
) -> Result<Option<Name>, AllocError> {
    let keys = kept_keys(alloc, storage, asked)?;
    let mut from: usize = 0;
    let mut to = keys.len();
    for _ in 0..keys.len() {
        let half = to.saturating_sub(from) / 2;
        let middle = from.saturating_add(half.min(TRIED_KEYS));
        if middle == from {
            break;
        }
        let some = keys.as_slice().get(from..middle).unwrap_or(&[]);
        let text = text_of_keys(alloc, version, storage, asked, some)?;
        if trial.unfit(text.as_bytes()) == Some(Unfit::Type) {
            to = middle;
        } else {
            from = middle;
        }
    }
    let Some(key) = keys.as_slice().get(from) else {
        return Ok(None);
    };
    let alone = keys
        .as_slice()
        .get(from..from.saturating_add(1))
        .unwrap_or(&[]);
    let text = text_of_keys(alloc, version, storage, asked, alone)?;
    if trial.unfit(text.as_bytes()) == Some(Unfit::Type) {
        Ok(Some(key.copy()?))
    } else {
        Ok(None)
    }
}

/// The keys of this type that an update keeps in a storage, in their order.
fn kept_keys(alloc: Global, storage: &StorageConfig, asked: &str) -> Result<Vec<Name>, AllocError> {
    let mut keys = Vec::new(alloc);
    let Ok(asked) = parse_type(alloc, asked.as_bytes()) else {
        return Ok(keys);
    };
    for element in storage.elements.as_slice() {
        let has_type = matches!(&element.value_type, Some(given) if given.is_same(&asked));
        if has_type && is_kept(storage, element) {
            keys.push(element.name.copy()?)?;
        }
    }
    Ok(keys)
}

/// Whether an update keeps what is stored of the element.
fn is_kept(storage: &StorageConfig, element: &ElementConfig) -> bool {
    match element.strategy {
        Some(strategy) => matches!(strategy, ElementStrategy::KeepExisting),
        None => matches!(storage.strategy, CollectionStrategy::KeepExisting),
    }
}

/// The text of a manifest by which an update keeps, of all that is stored, these keys of the storage, as this type.
fn text_of_keys(
    alloc: Global,
    version: u32,
    storage: &StorageConfig,
    asked: &str,
    keys: &[Name],
) -> Result<String, AllocError> {
    let (list, elements) = LISTS[0];
    let name = storage.name.as_str();
    let mut text = format!(in alloc;
        "{{\"version\":{version},\"{list}\":[{{\"name\":\"{name}\",\"updateStrategy\":\"delete\",\"{elements}\":["
    )?;
    for (at, key) in keys.iter().enumerate() {
        if at > 0 {
            text.push(',')?;
        }
        let key = key.as_str();
        let element = format!(in alloc;
            "{{\"name\":\"{key}\",\"type\":\"{asked}\",\"updateStrategy\":\"keepExisting\"}}"
        )?;
        text.push_str(element.as_str())?;
    }
    text.push_str("]}]}")?;
    Ok(text)
}

/// The first key of an export whose value is of another type than the storage says.
fn mismatched<'a>(
    alloc: Global,
    storage: &'a StorageConfig,
    export: &Export,
) -> Result<Option<&'a Name>, AllocError> {
    for fresh in export.contents.as_slice() {
        for element in storage.elements.as_slice() {
            if element.name == fresh.name && has_other_type(alloc, element, fresh)? {
                return Ok(Some(&element.name));
            }
        }
    }
    Ok(None)
}

/// Whether the value of a key is of another type than is said of it.
fn has_other_type(
    alloc: Global,
    element: &ElementConfig,
    fresh: &Fresh,
) -> Result<bool, AllocError> {
    let Some(value_type) = &element.value_type else {
        return Ok(false);
    };
    match decode(alloc, fresh.bytes.as_slice()) {
        Ok(value) => Ok(!value.has_type(value_type)),
        Err(DecodeError::NotAValue) => Ok(false),
        Err(DecodeError::OutOfMemory) => Err(AllocError),
    }
}

/// Whether names and contents of an export are more than the storage may have.
fn is_too_large(storage: &StorageConfig, export: &Export) -> bool {
    let mut size: u64 = 0;
    for fresh in export.contents.as_slice() {
        size = size.saturating_add(fresh.name.as_str().len() as u64);
        size = size.saturating_add(fresh.bytes.len() as u64);
    }
    size > storage.maximum
}
