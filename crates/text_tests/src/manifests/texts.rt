//! Deployments as texts.

use deployment_model::{Deployment, ElementConfig, StorageConfig};
use std::alloc::{AllocError, Global};
use value_text::push_hex;

/// The version, and each storage in brackets.
pub(crate) fn deployment_text(
    alloc: Global,
    deployment: &Deployment,
) -> Result<String, AllocError> {
    let mut text = format!(in alloc; "version {}", deployment.version)?;
    for storage in deployment.storages.as_slice() {
        write!(text, " [{}]", storage_text(alloc, storage)?)?;
    }
    Ok(text)
}

/// The name and the kind of a storage; its minimum, its maximum, its strategy, whether it is read-only, its copies and
/// their scope; and each element after a comma.
pub(crate) fn storage_text(alloc: Global, storage: &StorageConfig) -> Result<String, AllocError> {
    let name = storage.name.as_str();
    let mut text = format!(in alloc; "{name} {:?}", storage.kind)?;
    write!(text, " {} {}", storage.minimum, storage.maximum)?;
    write!(text, " {:?} {}", storage.strategy, storage.read_only)?;
    write!(text, " {} of {} {:?}", storage.m, storage.n, storage.scope)?;
    for element in storage.elements.as_slice() {
        write!(text, ", {}", element_text(alloc, element)?)?;
    }
    Ok(text)
}

/// The name of an element; its type in parentheses, what it starts with after `=`, and its strategy, of each where it
/// has one.
pub(crate) fn element_text(alloc: Global, element: &ElementConfig) -> Result<String, AllocError> {
    let mut text = String::from_str(alloc, element.name.as_str())?;
    if let Some(value_type) = &element.value_type {
        write!(text, "({value_type:?})")?;
    }
    if let Some(initial) = &element.initial {
        text.push('=')?;
        push_hex(&mut text, initial.as_slice())?;
    }
    if let Some(strategy) = element.strategy {
        write!(text, " {strategy:?}")?;
    }
    Ok(text)
}
