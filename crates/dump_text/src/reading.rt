//! The applications that the text of a dump spells.

ghost use Rattle.std.specs.Prelude.{◌≡◌, ◌↔◌, IfOk, IsTrue, map};
ghost use Rattle.std.specs.Io.BufRead.{strip_last};
ghost use Rattle.std.specs.List.{AllByRecursion};
ghost use Rattle.per_base.specs.Fields.{only_if};
ghost use Rattle.per_base.specs.Names.{is_name};
ghost use Rattle.export_text.specs.declared.exports.Export.{Export};
ghost use Rattle.export_text.specs.Exports.{IsExport, export_text};
ghost use Rattle.serde_json.specs.View.{members_view, view};
ghost use Rattle.dump_text.specs.Dumps.{AreSaid, HasExport, IsDumped, application_data, application_number, are_said};
ghost use Rattle.dump_text.specs.Dumps.{dump_in, dump_of, dumped_application_in, dumped_names, dumped_parts_in};
ghost use Rattle.dump_text.specs.Dumps.{dumped_storage_in, exported_text, json_in, kind_in};
ghost use Rattle.dump_text.specs.Elements.{dumped_element_in, dumped_elements_in, read_members};
ghost use Rattle.dump_text.specs.Views.{Gives};

use crate::dumps::{AppNumber, DumpedApplication, DumpedStorage, FORMAT, elements_word};
use crate::errors::DumpError;
use crate::fields::{no_others, object_in, text_in};
use crate::files::file_in;
use crate::keys::key_in;
use deployment_model::StorageConfig;
use export_text::{are_exportable, write_export};
use manifest::{ManifestError, read_manifest};
use per_base::{Bytes, Fresh, Name, PerError, StoreKind};
use serde_json::{Map, Value};
use std::alloc::Global;

/// The applications that the text of a dump has, by their numbers: of each storage the text of the export of its
/// elements.
///
/// A member that no dump has there is refused, and so are storages that are not those of the manifest.
///
/// # Errors
///
/// `NotADump` with the part of the text that is no dump and why, exactly where it is none; `OutOfMemory`.
#[tactic(auto, unfolding(crate::specs::Dumps::dump_in))]
pub fn read_dump(alloc: Global, text: &[u8]) -> Result<Vec<DumpedApplication>, DumpError>
    // What the text has, all of it and nothing else, or it is no dump.
    ensures read { Gives (λ found. map application_data found.items) result (dump_in text.now) }
    // Each storage is one of its manifest, and has each element once, as every export.
    ensures dumped { IfOk result (λ applications. AllByRecursion IsDumped applications.items) }
{
    let dump = value_of(alloc, text)?;
    applications_of(alloc, &dump)
}

/// The JSON of a text, with or without a line feed at its end.
fn value_of(alloc: Global, text: &[u8]) -> Result<Value, DumpError>
    ensures { Gives view result (json_in text.now) }
{
    match Value::from_slice(alloc, without_line_feed(text)) {
        Ok(value) => Ok(value),
        Err(error) if error.is_memory() => Err(DumpError::OutOfMemory),
        Err(error) => {
            let (line, column) = (error.line(), error.column());
            Err(DumpError::NotADump(format!(in alloc;
                "it is no JSON at line {line}, column {column}"
            )?))
        }
    }
}

fn without_line_feed(text: &[u8]) -> &[u8]
    ensures { result.now ≡ strip_last 10 text.now }
{
    let len = text.len();
    if len > 0 && text[len - 1] == b'\n' {
        return &text[..len - 1];
    }
    text
}

#[tactic(auto, unfolding(crate::specs::Dumps::dump_of))]
fn applications_of(alloc: Global, dump: &Value) -> Result<Vec<DumpedApplication>, DumpError>
    ensures read { Gives (λ found. map application_data found.items) result (dump_of (view dump.now)) }
    ensures dumped { IfOk result (λ applications. AllByRecursion IsDumped applications.items) }
{
    if text_in(alloc, dump, "format")? != FORMAT {
        return Err(DumpError::NotADump(String::from_str(
            alloc,
            "its \"format\" is not \"per dump 1\"",
        )?));
    }
    let applications = object_in(alloc, dump, "applications")?;
    no_others(alloc, dump, 2)?;
    applications_in(alloc, applications)
}

fn applications_in(
    alloc: Global,
    applications: &Map<String, Value>,
) -> Result<Vec<DumpedApplication>, DumpError>
    ensures read { Gives (λ found. map application_data found.items) result
        (read_members dumped_application_in (members_view applications.now.entries)) }
    ensures dumped { IfOk result (λ found. AllByRecursion IsDumped found.items) }
{
    let mut found = Vec::new(alloc);
    for (number, value) in applications {
        let number = number.as_str();
        match application_in(alloc, number, value) {
            Ok(application) => found.push(application)?,
            Err(error) => return Err(error.within(alloc, "application", number)),
        }
    }
    Ok(found)
}

#[tactic(auto, unfolding(crate::specs::Dumps::dumped_application_in))]
fn application_in(
    alloc: Global,
    number: &str,
    value: &Value,
) -> Result<DumpedApplication, DumpError>
    ensures read { Gives application_data result (dumped_application_in number.now (view value.now)) }
    ensures dumped { IfOk result IsDumped }
{
    let Some(application) = number_of(number) else {
        return Err(DumpError::NotADump(String::from_str(alloc, "its number is not 0 to 7")?));
    };
    let (manifest, storages) = parts_in(alloc, value)?;
    Ok(DumpedApplication {
        application,
        manifest,
        storages,
    })
}

/// The number of an application, which is one digit.
fn number_of(number: &str) -> Option<AppNumber>
    ensures { result ≡ application_number number.now }
{
    match number.as_bytes() {
        [digit] if *digit >= b'0' && *digit <= b'7' => {
            Some(AppNumber::new(u32::from(*digit - b'0')))
        }
        _ => None,
    }
}

/// The manifest of an application and its storages.
#[tactic(auto, unfolding(crate::specs::Dumps::dumped_parts_in))]
fn parts_in(alloc: Global, value: &Value) -> Result<(Bytes, Vec<DumpedStorage>), DumpError>
    ensures read { Gives (λ x. (x.0, x.1.items)) result (dumped_parts_in (view value.now)) }
    ensures exported { IfOk result (λ x. AllByRecursion HasExport x.1.items) }
    ensures said { IfOk result (λ x. AreSaid x.0 x.1.items) }
{
    let manifest = text_in(alloc, value, "manifest")?;
    let manifest = Bytes::new(Vec::from_slice(alloc, manifest.as_bytes())?);
    let storages = storages_in(alloc, object_in(alloc, value, "storages")?)?;
    no_others(alloc, value, 2)?;
    if !are_said(alloc, manifest.as_slice(), storages.as_slice())? {
        return Err(DumpError::NotADump(String::from_str(
            alloc,
            "its storages are not those of its manifest",
        )?));
    }
    Ok((manifest, storages))
}

/// Whether these are the storages of the manifest, by their names in order. Of a text that is no manifest a restore
/// says why.
fn are_said(alloc: Global, manifest: &[u8], storages: &[DumpedStorage]) -> Result<bool, DumpError>
    ensures { Gives (λ answer. answer) result (Some (are_said manifest.now storages.now)) }
{
    match read_manifest(alloc, manifest) {
        Ok(deployment) => Ok(are_named(deployment.storages.as_slice(), storages)),
        Err(ManifestError::OutOfMemory) => Err(DumpError::OutOfMemory),
        Err(_) => Ok(true),
    }
}

fn are_named(configs: &[StorageConfig], storages: &[DumpedStorage]) -> bool
    ensures { IsTrue result ↔ (dumped_names storages.now ≡ map (λ c. c.name) configs.now) }
{
    if configs.len() != storages.len() {
        return false;
    }
    for number in 0..configs.len() {
        if storages[number].name != configs[number].name {
            return false;
        }
    }
    true
}

fn storages_in(
    alloc: Global,
    storages: &Map<String, Value>,
) -> Result<Vec<DumpedStorage>, DumpError>
    ensures read { Gives (λ found. found.items) result
        (read_members dumped_storage_in (members_view storages.now.entries)) }
    ensures exported { IfOk result (λ found. AllByRecursion HasExport found.items) }
{
    let mut found = Vec::new(alloc);
    for (name, storage) in storages {
        let name = name.as_str();
        match storage_in(alloc, name, storage) {
            Ok(storage) => found.push(storage)?,
            Err(error) => return Err(error.within(alloc, "storage", name)),
        }
    }
    Ok(found)
}

/// The storage of this name, with the elements that it has in the text and no others.
#[tactic(auto, unfolding(crate::specs::Dumps::dumped_storage_in))]
fn storage_in(alloc: Global, name: &str, storage: &Value) -> Result<DumpedStorage, DumpError>
    ensures read { Gives (λ found. found) result (dumped_storage_in name.now (view storage.now)) }
    ensures exported { IfOk result HasExport }
{
    let kind = kind_of(storage);
    let elements = object_in(alloc, storage, elements_word(kind))?;
    no_others(alloc, storage, 1)?;
    let name = name_in(alloc, name)?;
    let contents = elements_in(alloc, kind, elements)?;
    let text = text_of(alloc, kind, contents.as_slice())?;
    Ok(DumpedStorage { name, text })
}

fn kind_of(storage: &Value) -> StoreKind
    ensures { result ≡ kind_in (view storage.now) }
{
    match storage.get("keys") {
        Some(_) => StoreKind::Keys,
        None => StoreKind::Files,
    }
}

/// The text of the export of these elements.
fn text_of(alloc: Global, kind: StoreKind, contents: &[Fresh]) -> Result<Bytes, DumpError>
    ensures read { Gives (λ text. text) result (exported_text kind contents.now) }
    ensures exported { IfOk result (λ text. (x : Export) × IsExport x × (text ≡ export_text x)) }
{
    if !are_exportable(alloc, kind, contents)? {
        return Err(DumpError::NotADump(String::from_str(
            alloc,
            "it has more elements than a storage may, or a greater content",
        )?));
    }
    Ok(Bytes::new(write_export(alloc, kind, contents)?))
}

fn elements_in(
    alloc: Global,
    kind: StoreKind,
    elements: &Map<String, Value>,
) -> Result<Vec<Fresh>, DumpError>
    ensures { Gives (λ contents. contents.items) result (dumped_elements_in kind (members_view elements.now.entries)) }
{
    let mut contents = Vec::new(alloc);
    for (name, element) in elements {
        let name = name.as_str();
        match element_in(alloc, kind, name, element) {
            Ok(fresh) => contents.push(fresh)?,
            Err(error) => return Err(error.within(alloc, "element", name)),
        }
    }
    Ok(contents)
}

#[tactic(auto, unfolding(crate::specs::Elements::dumped_element_in))]
fn element_in(
    alloc: Global,
    kind: StoreKind,
    name: &str,
    element: &Value,
) -> Result<Fresh, DumpError>
    ensures { Gives (λ fresh. fresh) result (dumped_element_in kind name.now (view element.now)) }
{
    let name = name_in(alloc, name)?;
    match kind {
        StoreKind::Keys => {
            let bytes = key_in(alloc, element)?;
            Ok(Fresh {
                name,
                info: None,
                bytes,
            })
        }
        StoreKind::Files => {
            let (info, bytes) = file_in(alloc, element)?;
            Ok(Fresh {
                name,
                info: Some(info),
                bytes,
            })
        }
    }
}

fn name_in(alloc: Global, name: &str) -> Result<Name, DumpError>
    ensures { Gives (λ known. known) result (only_if (is_name name.now) name.now) }
{
    match Name::new(alloc, name) {
        Ok(name) => Ok(name),
        Err(PerError::BadName) => Err(DumpError::NotADump(String::from_str(
            alloc,
            "its name is no name of an element or a storage",
        )?)),
        Err(_) => Err(DumpError::OutOfMemory),
    }
}
