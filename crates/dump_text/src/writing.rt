//! Applications as the text of a dump.

ghost use Rattle.std.specs.Prelude.{◌≡◌, ◌<◌, ◌≤◌, IfErr, IfOk, IsTrue, Some, decimal, map};
ghost use Rattle.std.specs.List.{AllByRecursion};
ghost use Rattle.std.specs.List.Sorted.{IsStrictlySortedBy};
ghost use Rattle.per_base.specs.Names.{IsName, NamesAscend, name_cmp};
ghost use Rattle.export_text.specs.Exports.{IsExport, IsExportable, export_text, names_of};
ghost use Rattle.serde_json.specs.Data.{depth};
ghost use Rattle.serde_json.specs.View.{view};
ghost use Rattle.dump_text.specs.Dumps.{AreInOrder, HasExport, IsInOrder, IsDumpable, application_data, dump_in};
ghost use Rattle.dump_text.specs.Dumps.{dump_of, dumped_application_in, dumped_storage_in};
ghost use Rattle.dump_text.specs.Elements.{IsObjectOf, dumped_element_in};
ghost use Rattle.dump_text.specs.Views.{RefusesToWrite, is_memory};

use crate::dumps::{DumpedApplication, DumpedStorage, FORMAT, elements_word};
use crate::errors::DumpError;
use crate::files::file_value;
use crate::keys::key_value;
use export_text::{Export, ExportError, read_export};
use per_base::{Fresh, StoreKind};
use serde_json::{Map, Value, put};
use std::alloc::Global;

/// The text of a dump of these applications, with a line feed at its end. [`read_dump`](crate::read_dump) reads them
/// back from it where they are in order: by their numbers, each once, and each with the storages of its manifest.
///
/// # Errors
///
/// `NotADump` where a text of a storage is no export or a manifest is not UTF-8, and nowhere else; `OutOfMemory`.
pub fn write_dump(alloc: Global, applications: &[DumpedApplication]) -> Result<Vec<u8>, DumpError>
    // Of applications in order the text has each, with every storage and every element as it is, and nothing else.
    ensures written { IfOk result (λ text. AreInOrder applications.now
        → dump_in text.items ≡ Some (map application_data applications.now)) }
    ensures refused { IfErr result (λ e. RefusesToWrite e (AllByRecursion IsDumpable applications.now)) }
{
    let dump = dump_value(alloc, applications)?;
    let mut text = dump.to_vec_pretty(alloc)?;
    text.push(b'\n')?;
    Ok(text)
}

fn dump_value(alloc: Global, applications: &[DumpedApplication]) -> Result<Value, DumpError>
    ensures read { IfOk result (λ value. AreInOrder applications.now
        → dump_of (view value) ≡ Some (map application_data applications.now)) }
    ensures nests { IfOk result (λ value. depth (view value) ≤ 7) }
    ensures refused { IfErr result (λ e. RefusesToWrite e (AllByRecursion IsDumpable applications.now)) }
{
    let applications = applications_value(alloc, applications)?;
    let mut dump = Map::new(alloc);
    put(
        &mut dump,
        alloc,
        "format",
        Value::try_from_str(alloc, FORMAT)?,
    )?;
    put(&mut dump, alloc, "applications", applications)?;
    Ok(Value::Object(dump))
}

/// Applications by their numbers.
fn applications_value(alloc: Global, applications: &[DumpedApplication]) -> Result<Value, DumpError>
    ensures read { IfOk result (λ value. AreInOrder applications.now
        → IsObjectOf dumped_application_in (map application_data applications.now) (view value)) }
    ensures nests { IfOk result (λ value. depth (view value) ≤ 6) }
    ensures refused { IfErr result (λ e. RefusesToWrite e (AllByRecursion IsDumpable applications.now)) }
{
    let mut members = Map::new(alloc);
    for dumped in applications {
        let number = format!(in alloc; "{}", dumped.application.number())?;
        let value = application_value(alloc, dumped)?;
        put(&mut members, alloc, number.as_str(), value)?;
    }
    Ok(Value::Object(members))
}

/// An application with its manifest and its storages.
fn application_value(alloc: Global, dumped: &DumpedApplication) -> Result<Value, DumpError>
    requires { dumped.now.application < 8 }
    ensures read { IfOk result (λ value. IsInOrder dumped.now
        → dumped_application_in (decimal dumped.now.application) (view value) ≡ Some (application_data dumped.now)) }
    ensures nests { IfOk result (λ value. depth (view value) ≤ 5) }
    ensures refused { IfErr result (λ e. RefusesToWrite e (IsDumpable dumped.now)) }
{
    let Ok(manifest) = str::from_utf8(dumped.manifest.as_slice()) else {
        return Err(DumpError::NotADump(String::from_str(alloc, "the manifest is not UTF-8")?));
    };
    let storages = storages_value(alloc, dumped.storages.as_slice())?;
    let mut members = Map::new(alloc);
    put(
        &mut members,
        alloc,
        "manifest",
        Value::try_from_str(alloc, manifest)?,
    )?;
    put(&mut members, alloc, "storages", storages)?;
    Ok(Value::Object(members))
}

/// Storages by their names.
fn storages_value(alloc: Global, storages: &[DumpedStorage]) -> Result<Value, DumpError>
    ensures read { IfOk result (λ value. NamesAscend (λ s. s.name) storages.now
        → IsObjectOf dumped_storage_in storages.now (view value)) }
    ensures nests { IfOk result (λ value. depth (view value) ≤ 4) }
    ensures refused { IfErr result (λ e. RefusesToWrite e (AllByRecursion HasExport storages.now)) }
{
    let mut members = Map::new(alloc);
    for storage in storages {
        let name = storage.name.as_str();
        let value = storage_value(alloc, storage)?;
        put(&mut members, alloc, name, value)?;
    }
    Ok(Value::Object(members))
}

/// A storage of keys or of files, with its elements. What is written of it is read back as the same storage.
fn storage_value(alloc: Global, storage: &DumpedStorage) -> Result<Value, DumpError>
    requires { IsName storage.now.name }
    ensures read { IfOk result (λ value. dumped_storage_in storage.now.name (view value) ≡ Some storage.now) }
    ensures nests { IfOk result (λ value. depth (view value) ≤ 3) }
    ensures refused { IfErr result (λ e. RefusesToWrite e (HasExport storage.now)) }
{
    let export = export_of(alloc, storage)?;
    let elements = elements_value(alloc, export.kind, export.contents.as_slice())?;
    let mut members = Map::new(alloc);
    put(&mut members, alloc, elements_word(export.kind), elements)?;
    Ok(Value::Object(members))
}

fn export_of(alloc: Global, storage: &DumpedStorage) -> Result<Export, DumpError>
    ensures export { IfOk result (λ x. IsExport x × (storage.now.text ≡ export_text x)) }
    ensures refused { IfErr result (λ e. RefusesToWrite e (HasExport storage.now)) }
{
    match read_export(alloc, storage.text.as_slice()) {
        Ok(export) => Ok(export),
        Err(ExportError::NotAnExport) => Err(DumpError::NotADump(String::from_str(
            alloc,
            "a storage has no export",
        )?)),
        Err(ExportError::OutOfMemory) => Err(DumpError::OutOfMemory),
    }
}

/// Elements by their names. What is written of them is read back as the same elements, all of them.
fn elements_value(alloc: Global, kind: StoreKind, contents: &[Fresh]) -> Result<Value, DumpError>
    requires each { AllByRecursion (IsExportable kind) contents.now }
    requires ascend { IsStrictlySortedBy name_cmp (names_of contents.now) }
    ensures read { IfOk result (λ value. IsObjectOf (dumped_element_in kind) contents.now (view value)) }
    ensures nests { IfOk result (λ value. depth (view value) ≤ 2) }
    ensures fed { IfErr result (λ e. IsTrue (is_memory e)) }
{
    let mut elements = Map::new(alloc);
    for element in contents {
        let name = element.name.as_str();
        let value = element_value(alloc, kind, element)?;
        put(&mut elements, alloc, name, value)?;
    }
    Ok(Value::Object(elements))
}

/// An element. What is written of it is read back as the same element: its name, its info and its bytes.
fn element_value(alloc: Global, kind: StoreKind, element: &Fresh) -> Result<Value, DumpError>
    requires exportable { IsExportable kind element.now }
    requires name { IsName element.now.name }
    ensures read { IfOk result (λ value. dumped_element_in kind element.now.name (view value) ≡ Some element.now) }
    ensures nests { IfOk result (λ value. depth (view value) ≤ 1) }
    ensures fed { IfErr result (λ e. IsTrue (is_memory e)) }
{
    match element.info {
        Some(info) => Ok(file_value(alloc, &info, element.bytes.as_slice())?),
        None => key_value(alloc, element.bytes.as_slice()),
    }
}
