//! The types of keys that are imported.

ghost use Rattle.std.specs.Prelude.{◌≡◌, IfOk, IfSome, IsTrue, Some, option_map};
ghost use Rattle.value_text.specs.Texts as texts;
ghost use Rattle.deployment_model.specs.Conditions.{IsStorage};
ghost use Rattle.deployment_model.specs.Data.{storage_data};
ghost use Rattle.value_model.specs.Kinds.{kind_fits};
ghost use Rattle.value_model.specs.Views.{kind_of};
ghost use Rattle.per_backup.specs.Backups.{configured_type, differing, exported_type, least_mismatch, mismatch_of};

use deployment_model::{StorageConfig, found_is_kept};
use per_base::{Fresh, Name, PerError, ValueText};
use std::alloc::{AllocError, Global};
use value_code::decode;
use value_model::{DecodeError, ValueType};
use value_text::print_type;

/// The refusal for the least key whose type is another than the configured one.
pub(crate) fn least_mismatch(
    alloc: Global,
    config: &StorageConfig,
    contents: &[Fresh],
) -> Result<Option<PerError>, AllocError>
    requires { IsStorage (storage_data config.now) }
    ensures { IfOk result (λ refused. refused ≡ least_mismatch (storage_data config.now) contents.now) }
{
    for fresh in contents {
        if let Some(error) = mismatch_of(alloc, config, fresh)? {
            return Ok(Some(error));
        }
    }
    Ok(None)
}

// The refusal for one element.
fn mismatch_of(
    alloc: Global,
    config: &StorageConfig,
    fresh: &Fresh,
) -> Result<Option<PerError>, AllocError>
    requires { IsStorage (storage_data config.now) }
    ensures { IfOk result (λ refused. refused ≡ mismatch_of (storage_data config.now) fresh.now) }
{
    let Some(configured) = configured_type(config, &fresh.name) else {
        return Ok(None);
    };
    match exported_type(alloc, fresh)? {
        Some(exported) => differing(alloc, &exported, configured),
        None => Ok(None),
    }
}

// The type with which the element of this name is configured.
fn configured_type<'a>(config: &'a StorageConfig, name: &Name) -> Option<&'a ValueType>
    requires { IsStorage (storage_data config.now) }
    ensures found { option_map (λ t. kind_of t.now) result ≡ configured_type (storage_data config.now) name.now }
    ensures fits { IfSome result (λ t. IsTrue (kind_fits (kind_of t.now))) }
{
    found_is_kept();
    match config.element(name) {
        Some(element) => element.value_type.as_ref(),
        None => None,
    }
}

// The type of the value that the element encodes, if it does.
fn exported_type(alloc: Global, fresh: &Fresh) -> Result<Option<ValueType>, AllocError>
    ensures found { IfOk result (λ found. option_map kind_of found ≡ exported_type fresh.now) }
    ensures fits { IfOk result (λ found. IfSome found (λ t. IsTrue (kind_fits (kind_of t)))) }
{
    match decode(alloc, fresh.bytes.as_slice()) {
        Ok(value) => Ok(Some(value.value_type(alloc)?)),
        Err(DecodeError::NotAValue) => Ok(None),
        Err(DecodeError::OutOfMemory) => Err(AllocError),
    }
}

// The refusal where the types differ.
fn differing(
    alloc: Global,
    exported: &ValueType,
    configured: &ValueType,
) -> Result<Option<PerError>, AllocError>
    requires exported { IsTrue (kind_fits (kind_of exported.now)) }
    requires configured { IsTrue (kind_fits (kind_of configured.now)) }
    ensures { IfOk result (λ refused. refused ≡ differing (Some (kind_of exported.now))
        (Some (kind_of configured.now))) }
{
    if exported.is_same(configured) {
        return Ok(None);
    }
    let error = mismatch(alloc, exported, configured)?;
    Ok(Some(error))
}

// The refusal of one type where another is configured.
fn mismatch(
    alloc: Global,
    exported: &ValueType,
    configured: &ValueType,
) -> Result<PerError, AllocError>
    requires exported { IsTrue (kind_fits (kind_of exported.now)) }
    requires configured { IsTrue (kind_fits (kind_of configured.now)) }
    ensures { IfOk result (λ error. error ≡ texts.mismatch (kind_of exported.now) (kind_of configured.now)) }
{
    let stored = print_type(alloc, exported)?;
    let asked = print_type(alloc, configured)?;
    Ok(PerError::DataTypeMismatch {
        stored: ValueText::new(stored),
        asked: ValueText::new(asked),
    })
}
