//! What a manifest and the texts of its storages say is to be installed.

ghost use Rattle.std.specs.Prelude.{◌≡◌, ◌<◌, ℕ, Err, IfErr, IfOk, IsErrOf, None, Ok, [], map};
ghost use Rattle.std.specs.List.{AllByRecursion};
ghost use Rattle.deployment_model.specs.Conditions.{IsStorage};
ghost use Rattle.deployment_model.specs.Data.{storage_data};
ghost use Rattle.element_state.specs.States.{Corrupt, fresh_map, fresh_state};
ghost use Rattle.index_text.specs.Contents.{AreContents};
ghost use Rattle.update_plan.specs.Plans.{AllFit};
ghost use Rattle.deploy_rows.specs.Rows.{made_states};
ghost use Rattle.per_backup.specs.Backups.{importing, made_from, states_from};
ghost use Rattle.per_backup.specs.Restores.{IsReadyToInstall};

use crate::importing::importable;
use deploy::{Stop, read_version, size_of};
use deployment_model::StorageConfig;
use per_base::{Bytes, Fresh, PerError, Sequence};
use root_text::VersionText;
use std::alloc::{AllocError, Global};

/// A version, and the contents of its storages.
#[derive(Drop)]
pub(crate) struct Ready {
    pub(crate) version: VersionText,
    pub(crate) contents: Vec<Sequence<Fresh>>,
}

/// What a manifest and the texts of its storages say is to be installed, or the first refusal: `ManifestRejected`; then
/// by storages in their order `ExportRejected`, also where a storage has no text or a text no storage,
/// `DataTypeMismatch` and `OutOfStorageSpace` as of an import.
pub(crate) fn prepare(
    alloc: Global,
    manifest: &[u8],
    texts: &[Bytes],
) -> Result<Result<Ready, PerError>, Stop>
    ensures ready { IfOk result (λ found. IfOk found (IsReadyToInstall manifest.now texts.now)) }
    ensures text { IfOk result (λ found. IfOk found (λ ready. ready.version.text ≡ manifest.now)) }
    ensures refused { IfOk result (λ found. IfErr found (λ e. (g : ℕ) → made_from manifest.now texts.now g ≡ Err e)) }
    ensures memory { ¬ (IsErrOf result Stop.Device) }
{
    let version = match read_version(alloc, manifest)? {
        Ok(version) => version,
        Err(error) => return Ok(Err(error)),
    };
    match contents_in(alloc, version.deployment.storages.as_slice(), texts)? {
        Ok(contents) => Ok(Ok(Ready { version, contents })),
        Err(error) => Ok(Err(error)),
    }
}

// The contents of storages, each from its text.
fn contents_in(
    alloc: Global,
    storages: &[StorageConfig],
    texts: &[Bytes],
) -> Result<Result<Vec<Sequence<Fresh>>, PerError>, AllocError>
    requires { AllByRecursion IsStorage (map storage_data storages.now) }
    ensures states { IfOk result (λ found. IfOk found (λ contents.
        states_from (map storage_data storages.now) texts.now ≡ Ok (made_states contents.items))) }
    ensures fit { IfOk result (λ found. IfOk found (λ contents.
        AllFit (map storage_data storages.now) contents.items)) }
    ensures refused { IfOk result (λ found. IfErr found (λ e.
        states_from (map storage_data storages.now) texts.now ≡ Err e)) }
{
    let mut all = Vec::new(alloc);
    for number in 0..storages.len() {
        if number >= texts.len() {
            return Ok(Err(PerError::ExportRejected));
        }
        match contents_of(alloc, &storages[number], texts[number].as_slice())? {
            Ok(contents) => all.push(contents)?,
            Err(error) => return Ok(Err(error)),
        }
    }
    if texts.len() > storages.len() {
        return Ok(Err(PerError::ExportRejected));
    }
    Ok(Ok(all))
}

// The contents of one storage where nothing was, from its text.
fn contents_of(
    alloc: Global,
    config: &StorageConfig,
    text: &[u8],
) -> Result<Result<Sequence<Fresh>, PerError>, AllocError>
    requires { IsStorage (storage_data config.now) }
    ensures state { IfOk result (λ found. IfOk found (λ contents.
        importing (storage_data config.now) (Corrupt None []) text.now ≡ Ok (fresh_state 1 (fresh_map contents)))) }
    ensures fit { IfOk result (λ found. IfOk found (λ contents.
        AreContents config.now.kind config.now.maximum contents)) }
    ensures refused { IfOk result (λ found. IfErr found (λ e.
        importing (storage_data config.now) (Corrupt None []) text.now ≡ Err e)) }
{
    let contents = match importable(alloc, config, text)? {
        Ok(contents) => contents,
        Err(error) => return Ok(Err(error)),
    };
    let needed = size_of(contents.as_slice());
    if needed > config.maximum {
        return Ok(Err(PerError::OutOfStorageSpace {
            needed,
            allowed: config.maximum,
        }));
    }
    Ok(Ok(Sequence::new(contents)))
}
