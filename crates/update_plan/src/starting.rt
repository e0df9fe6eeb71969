//! What a storage has at the start.

ghost use Rattle.std.specs.Prelude.{◌≡◌, IfOk};
ghost use Rattle.deployment_model.specs.Conditions.{IsStorage};
ghost use Rattle.deployment_model.specs.Data.{element_data, storage_data};
ghost use Rattle.index_text.specs.Contents.{AreContents};
ghost use Rattle.update_plan.specs.Rows.{initial_contents, made_info, row_by, started};

use deployment_model::{ElementConfig, ElementStrategy, StorageConfig};
use file_core::made;
use per_base::{Bytes, Cause, FileInfo, Fresh, Name, StoreKind};
use std::alloc::{AllocError, Global};

/// What a storage of this configuration has at the start: each element that is not to be deleted and has an initial
/// content. A file's info has this cause, and the moment `now` in seconds. The one error is that memory ran out.
pub fn initial_of(
    alloc: Global,
    config: &StorageConfig,
    cause: Cause,
    now: u64,
) -> Result<Vec<Fresh>, AllocError>
    requires { IsStorage (storage_data config.now) }
    // What is `made` is these elements, in the order of their names, and can be stored as it is: no limit is exceeded.
    ensures contents { IfOk result (λ made. made.items ≡ initial_contents (storage_data config.now) cause now) }
    ensures limits { IfOk result (λ made. AreContents config.now.kind config.now.maximum made.items) }
{
    let mut contents = Vec::new(alloc);
    for element in config.elements.as_slice() {
        if let Some(fresh) = start_of(config.kind, element, cause, now)? {
            contents.push(fresh)?;
        }
    }
    Ok(contents)
}

/// What an element has at the start.
fn start_of(
    kind: StoreKind,
    element: &ElementConfig,
    cause: Cause,
    now: u64,
) -> Result<Option<Fresh>, AllocError>
    ensures { IfOk result (λ fresh. (c : _) → fresh
        ≡ started kind cause now element.now.name (row_by element.now.strategy c element.now.initial None)) }
{
    if let Some(ElementStrategy::Delete) = element.strategy {
        return Ok(None);
    }
    match &element.initial {
        None => Ok(None),
        Some(bytes) => Ok(Some(made_fresh(kind, &element.name, bytes, cause, now)?)),
    }
}

/// An element that is made now, with these bytes.
fn made_fresh(
    kind: StoreKind,
    name: &Name,
    bytes: &Bytes,
    cause: Cause,
    now: u64,
) -> Result<Fresh, AllocError>
    ensures { IfOk result (λ fresh. fresh ≡ record {
      name = name.now;
      info = made_info kind cause now;
      bytes =
          bytes.now;
    }) }
{
    let name = name.copy()?;
    let bytes = bytes.copy()?;
    Ok(Fresh {
        name,
        info: made_info(kind, cause, now),
        bytes,
    })
}

/// The info of an element that is made now.
fn made_info(kind: StoreKind, cause: Cause, now: u64) -> Option<FileInfo>
    ensures { result ≡ made_info kind cause now }
{
    match kind {
        StoreKind::Keys => None,
        StoreKind::Files => Some(made(now, cause)),
    }
}
