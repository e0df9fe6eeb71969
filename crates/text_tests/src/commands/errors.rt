//! Errors, as rows describe them. `OutOfMemory` has no text and is none of them.

ghost use Rattle.std.specs.Prelude.{IfOk, IsSome};
ghost use Rattle.per_base.specs.Errors.{error_number};

use crate::commands::words::{name, wide, words_of};
use per_base::{Holder, Limit, PerError, Unit, ValueText};
use std::alloc::{AllocError, Global};
use test_rows::{RowError, number};

/// The error that a row describes: its word, and what it carries.
pub(crate) fn error(alloc: Global, row: &str) -> Result<PerError, RowError>
    ensures { IfOk result (λ error. IsSome (error_number error)) }
{
    match row.split_once(' ') {
        None => bare(row),
        Some((word, carried)) => carrying(alloc, word, carried),
    }
}

/// An error that carries nothing.
fn bare(word: &str) -> Result<PerError, RowError>
    ensures { IfOk result (λ error. IsSome (error_number error)) }
{
    match word {
        "StorageNotFound" => Ok(PerError::StorageNotFound),
        "KeyNotFound" => Ok(PerError::KeyNotFound),
        "IllegalWriteAccess" => Ok(PerError::IllegalWriteAccess),
        "PhysicalStorageFailure" => Ok(PerError::PhysicalStorageFailure),
        "InitValueNotAvailable" => Ok(PerError::InitValueNotAvailable),
        "FileNotFound" => Ok(PerError::FileNotFound),
        "InvalidPosition" => Ok(PerError::InvalidPosition),
        "IsEof" => Ok(PerError::IsEof),
        "InvalidOpenMode" => Ok(PerError::InvalidOpenMode),
        "InvalidSize" => Ok(PerError::InvalidSize),
        _ => bare_of_deployments(word),
    }
}

fn bare_of_deployments(word: &str) -> Result<PerError, RowError>
    ensures { IfOk result (λ error. IsSome (error_number error)) }
{
    match word {
        "NotInstalled" => Ok(PerError::NotInstalled),
        "AlreadyInstalled" => Ok(PerError::AlreadyInstalled),
        "NoPreviousVersion" => Ok(PerError::NoPreviousVersion),
        "NotOpen" => Ok(PerError::NotOpen),
        "IllegalReadAccess" => Ok(PerError::IllegalReadAccess),
        "BadName" => Ok(PerError::BadName),
        "NoUpdateInProgress" => Ok(PerError::NoUpdateInProgress),
        "ExportRejected" => Ok(PerError::ExportRejected),
        _ => Err(RowError::NotARow),
    }
}

/// An error with what it carries.
fn carrying(alloc: Global, word: &str, carried: &str) -> Result<PerError, RowError>
    ensures { IfOk result (λ error. IsSome (error_number error)) }
{
    match word {
        "IntegrityCorrupted" => Ok(PerError::IntegrityCorrupted {
            unit: unit(alloc, carried)?,
        }),
        "ResourceBusy" => Ok(PerError::ResourceBusy {
            holder: holder(alloc, carried)?,
        }),
        "ManifestRejected" => Ok(PerError::ManifestRejected {
            rule: number(carried)?,
        }),
        "LimitReached" => Ok(PerError::LimitReached {
            which: limit(carried)?,
        }),
        "UpdateNotFinished" => Ok(PerError::UpdateNotFinished {
            previous: number(carried)?,
        }),
        _ => carrying_two(alloc, word, carried),
    }
}

/// An error that carries two things.
fn carrying_two(alloc: Global, word: &str, carried: &str) -> Result<PerError, RowError>
    ensures { IfOk result (λ error. IsSome (error_number error)) }
{
    let (one, other) = carried.split_once(' ').ok_or(RowError::NotARow)?;
    match word {
        "DataTypeMismatch" => mismatch(alloc, one, other),
        "OutOfStorageSpace" => Ok(PerError::OutOfStorageSpace {
            needed: wide(one)?,
            allowed: wide(other)?,
        }),
        "VersionNotNewer" => Ok(PerError::VersionNotNewer {
            active: number(one)?,
            offered: number(other)?,
        }),
        _ => Err(RowError::NotARow),
    }
}

fn mismatch(alloc: Global, stored: &str, asked: &str) -> Result<PerError, RowError>
    ensures { IfOk result (λ error. IsSome (error_number error)) }
{
    let stored = value_text(alloc, stored)?;
    let asked = value_text(alloc, asked)?;
    Ok(PerError::DataTypeMismatch { stored, asked })
}

fn value_text(alloc: Global, text: &str) -> Result<ValueText, AllocError> {
    Ok(ValueText::new(String::from_str(alloc, text)?))
}

fn unit(alloc: Global, row: &str) -> Result<Unit, RowError> {
    let words = words_of(alloc, row)?;
    match words.as_slice() {
        ["Root"] => Ok(Unit::Root),
        ["Whole", storage] => Ok(Unit::Whole(name(alloc, storage)?)),
        ["Part", storage, element] => {
            let storage = name(alloc, storage)?;
            Ok(Unit::Part(storage, name(alloc, element)?))
        }
        _ => Err(RowError::NotARow),
    }
}

fn holder(alloc: Global, row: &str) -> Result<Holder, RowError> {
    let words = words_of(alloc, row)?;
    match words.as_slice() {
        ["Storage", storage] => Ok(Holder::Storage(name(alloc, storage)?)),
        ["Handle", handle] => Ok(Holder::Handle(number(handle)?)),
        ["Update", version] => Ok(Holder::Update(number(version)?)),
        _ => Err(RowError::NotARow),
    }
}

fn limit(word: &str) -> Result<Limit, RowError> {
    match word {
        "Elements" => Ok(Limit::Elements),
        "Handles" => Ok(Limit::Handles),
        "FileBytes" => Ok(Limit::FileBytes),
        "ValueBytes" => Ok(Limit::ValueBytes),
        "ValueDepth" => Ok(Limit::ValueDepth),
        "Generations" => Ok(Limit::Generations),
        _ => Err(RowError::NotARow),
    }
}
