//! The text of a listing, piece by piece. Nothing here touches a disk.

ghost use Rattle.std.specs.Prelude.{◌≡◌, ◌<◌, ◌++◌, OnOk, string_bytes};
ghost use Rattle.deployment_model.specs.Data.{storage_data};
ghost use Rattle.deploy_laws.specs.Places.{copies_of_root};
ghost use Rattle.per_list.specs.Listings.{absent_text, access_member, access_word, bad_head, bad_text, between, comma};
ghost use Rattle.per_list.specs.Listings.{config_text, config_words, copies_members, copy_members, copy_name};
ghost use Rattle.per_list.specs.Listings.{copy_text, copy_words, corrupt_members, corrupt_words, held_text};
ghost use Rattle.per_list.specs.Listings.{kind_member, list_end, listing_end, listing_head, next_list};
ghost use Rattle.per_list.specs.Listings.{number_text, opened_members, opened_words, root_copies, root_copy};
ghost use Rattle.per_list.specs.Listings.{storage_files, storage_name, storage_text, store_kind_word};
ghost use Rattle.per_list.specs.Listings.{version_facts, version_head, version_members, version_words};

use crate::forms::{Form, Held};
use deploy_laws::root_place;
use deployment_model::StorageConfig;
use disk_model::Place;
use per_base::{Name, StoreKind};
use std::alloc::AllocError;
use std::fmt::Write;

// ---- the whole

/// What comes before the first application.
pub(crate) fn push_heading(out: &mut String, form: Form) -> Result<(), AllocError>
    ensures { OnOk result (string_bytes out.new ≡ string_bytes out.old ++ listing_head form) }
{
    match form {
        Form::Lines => Ok(()),
        Form::Json => out.push_str("{\"applications\":["),
    }
}

/// What comes after the last application.
pub(crate) fn push_ending(out: &mut String, form: Form) -> Result<(), AllocError>
    ensures { OnOk result (string_bytes out.new ≡ string_bytes out.old ++ listing_end form) }
{
    match form {
        Form::Lines => Ok(()),
        Form::Json => out.push_str("]}\n"),
    }
}

// ---- an application

/// An application whose root says nothing.
pub(crate) fn push_bad(out: &mut String, form: Form, app: u32) -> Result<(), AllocError>
    requires { app < 8 }
    ensures { OnOk result (string_bytes out.new ≡ string_bytes out.old ++ bad_text form app) }
{
    push_bad_head(out, form, app)?;
    push_root_copies(out, form, app)?;
    push_list_end(out, form)
}

#[tactic(auto, unfolding(crate::specs::Listings::bad_head))]
fn push_bad_head(out: &mut String, form: Form, app: u32) -> Result<(), AllocError>
    ensures { OnOk result (string_bytes out.new ≡ string_bytes out.old ++ bad_head form app) }
{
    match form {
        Form::Lines => write!(out, "application {app} corrupt\n"),
        Form::Json => {
            push_comma(out, app)?;
            write!(
                out,
                "{{\"application\":{app},\"state\":\"corrupt\",\"root\":["
            )
        }
    }
}

/// An application of which nothing is installed.
pub(crate) fn push_absent(out: &mut String, form: Form, app: u32) -> Result<(), AllocError>
    ensures { OnOk result (string_bytes out.new ≡ string_bytes out.old ++ absent_text form app) }
{
    match form {
        Form::Lines => Ok(()),
        Form::Json => {
            push_comma(out, app)?;
            write!(out, "{{\"application\":{app},\"state\":\"absent\"}}")
        }
    }
}

/// What comes before the storages of an application with a version, which is in this bank.
pub(crate) fn push_version_head(
    out: &mut String,
    form: Form,
    app: u32,
    bank: u32,
    version: u32,
    previous: Option<u32>,
) -> Result<(), AllocError>
    requires { app < 8 }
    ensures { OnOk result (string_bytes out.new
        ≡ string_bytes out.old ++ version_head form app bank version previous) }
{
    push_version_facts(out, form, app, bank, version, previous)?;
    push_root_copies(out, form, app)?;
    push_between(out, form)
}

fn push_version_facts(
    out: &mut String,
    form: Form,
    app: u32,
    bank: u32,
    version: u32,
    previous: Option<u32>,
) -> Result<(), AllocError>
    ensures { OnOk result (string_bytes out.new
        ≡ string_bytes out.old ++ version_facts form app bank version previous) }
{
    match form {
        Form::Lines => {
            push_version_words(out, app, bank, version)?;
            push_number(out, form, previous)?;
            out.push_str("\n")
        }
        Form::Json => {
            push_comma(out, app)?;
            push_version_members(out, app, bank, version)?;
            push_number(out, form, previous)?;
            out.push_str(",\"root\":[")
        }
    }
}

#[tactic(auto, unfolding(crate::specs::Listings::version_words))]
fn push_version_words(out: &mut String, app: u32, bank: u32, version: u32) -> Result<(), AllocError>
    ensures { OnOk result (string_bytes out.new ≡ string_bytes out.old ++ version_words app bank version) }
{
    write!(
        out,
        "application {app} version {version} bank {bank} previous "
    )
}

#[tactic(auto, unfolding(crate::specs::Listings::version_members))]
fn push_version_members(
    out: &mut String,
    app: u32,
    bank: u32,
    version: u32,
) -> Result<(), AllocError>
    ensures { OnOk result (string_bytes out.new ≡ string_bytes out.old ++ version_members app bank version) }
{
    write!(
        out,
        "{{\"application\":{app},\"state\":\"installed\",\"version\":{version},\"bank\":{bank},\"previous\":"
    )
}

// What comes between the copies of the root and the storages.
fn push_between(out: &mut String, form: Form) -> Result<(), AllocError>
    ensures { OnOk result (string_bytes out.new ≡ string_bytes out.old ++ between form) }
{
    match form {
        Form::Lines => Ok(()),
        Form::Json => out.push_str("],\"storages\":["),
    }
}

/// What comes between the storages of the active version and those of the previous one.
pub(crate) fn push_next_list(out: &mut String, form: Form) -> Result<(), AllocError>
    ensures { OnOk result (string_bytes out.new ≡ string_bytes out.old ++ next_list form) }
{
    match form {
        Form::Lines => Ok(()),
        Form::Json => out.push_str("],\"previousStorages\":["),
    }
}

// The files of each copy of the root.
fn push_root_copies(out: &mut String, form: Form, app: u32) -> Result<(), AllocError>
    requires { app < 8 }
    ensures { OnOk result (string_bytes out.new ≡ string_bytes out.old ++ root_copies form app) }
{
    for copy in 0..3 {
        push_root_copy(out, form, app, copy)?;
    }
    Ok(())
}

fn push_root_copy(out: &mut String, form: Form, app: u32, copy: u32) -> Result<(), AllocError>
    requires app { app < 8 }
    requires copy { copy < copies_of_root }
    ensures { OnOk result (string_bytes out.new ≡ string_bytes out.old ++ root_copy form app copy) }
{
    let number = copy + 1;
    let place = root_place(app);
    let even = place.slot(copy, 0);
    let odd = place.slot(copy, 1);
    match form {
        Form::Lines => write!(out, "root {app} {number} f{even} f{odd}\n"),
        Form::Json => {
            push_comma(out, copy)?;
            write!(out, "[\"f{even}\",\"f{odd}\"]")
        }
    }
}

// ---- a storage

/// A storage of an application: what it is, what it holds where it opens, and the files of each copy.
pub(crate) fn push_storage(
    out: &mut String,
    form: Form,
    app: u32,
    bank: u32,
    number: u32,
    config: &StorageConfig,
    place: Place,
    held: Option<Held>,
) -> Result<(), AllocError>
    ensures { OnOk result (string_bytes out.new ≡ string_bytes out.old
        ++ storage_text form app bank number (storage_data config.now) place held) }
{
    push_storage_name(out, form, app, bank, number, &config.name)?;
    push_config(out, form, config)?;
    push_held(out, form, config.maximum, held)?;
    push_copies(out, form, app, bank, &config.name, place)?;
    push_list_end(out, form)
}

#[tactic(auto, unfolding(crate::specs::Listings::storage_name))]
fn push_storage_name(
    out: &mut String,
    form: Form,
    app: u32,
    bank: u32,
    number: u32,
    name: &Name,
) -> Result<(), AllocError>
    ensures { OnOk result (string_bytes out.new
        ≡ string_bytes out.old ++ storage_name form app bank number name.now) }
{
    match form {
        Form::Lines => {
            write!(out, "storage {app} {bank} ")?;
            out.push_str(name.as_str())?;
            out.push_str(" ")
        }
        Form::Json => {
            push_comma(out, number)?;
            out.push_str("{\"name\":\"")?;
            out.push_str(name.as_str())?;
            out.push_str("\",")
        }
    }
}

// The kind, whether it is read-only, M and N.
fn push_config(out: &mut String, form: Form, config: &StorageConfig) -> Result<(), AllocError>
    ensures { OnOk result (string_bytes out.new ≡ string_bytes out.old ++ config_text form (storage_data config.now)) }
{
    match form {
        Form::Lines => push_config_words(out, config),
        Form::Json => {
            push_kind_member(out, config.kind)?;
            out.push_str(access_member(config.read_only))?;
            push_copies_members(out, config.m, config.n)
        }
    }
}

#[tactic(auto, unfolding(crate::specs::Listings::config_words))]
fn push_config_words(out: &mut String, config: &StorageConfig) -> Result<(), AllocError>
    ensures { OnOk result (string_bytes out.new ≡ string_bytes out.old ++ config_words (storage_data config.now)) }
{
    let m = config.m;
    let n = config.n;
    out.push_str(kind_word(config.kind))?;
    out.push_str(" ")?;
    out.push_str(access_word(config.read_only))?;
    write!(out, " m {m} n {n} ")
}

#[tactic(auto, unfolding(crate::specs::Listings::kind_member))]
fn push_kind_member(out: &mut String, kind: StoreKind) -> Result<(), AllocError>
    ensures { OnOk result (string_bytes out.new ≡ string_bytes out.old ++ kind_member kind) }
{
    out.push_str("\"kind\":\"")?;
    out.push_str(kind_word(kind))?;
    out.push_str("\",")
}

#[tactic(auto, unfolding(crate::specs::Listings::copies_members))]
fn push_copies_members(out: &mut String, m: u32, n: u32) -> Result<(), AllocError>
    ensures { OnOk result (string_bytes out.new ≡ string_bytes out.old ++ copies_members m n) }
{
    write!(out, ",\"m\":{m},\"n\":{n},")
}

// Whether it opens, and what it holds and may hold.
fn push_held(
    out: &mut String,
    form: Form,
    maximum: u64,
    held: Option<Held>,
) -> Result<(), AllocError>
    ensures { OnOk result (string_bytes out.new ≡ string_bytes out.old ++ held_text form maximum held) }
{
    match (form, held) {
        (Form::Lines, Some(held)) => push_opened_words(out, maximum, held.elements, held.bytes),
        (Form::Lines, None) => push_corrupt_words(out, maximum),
        (Form::Json, Some(held)) => push_opened_members(out, maximum, held.elements, held.bytes),
        (Form::Json, None) => push_corrupt_members(out, maximum),
    }
}

#[tactic(auto, unfolding(crate::specs::Listings::opened_words))]
fn push_opened_words(
    out: &mut String,
    maximum: u64,
    elements: u64,
    bytes: u64,
) -> Result<(), AllocError>
    ensures { OnOk result (string_bytes out.new ≡ string_bytes out.old ++ opened_words maximum elements bytes) }
{
    write!(
        out,
        "opens elements {elements} of 1024 bytes {bytes} of {maximum}\n"
    )
}

#[tactic(auto, unfolding(crate::specs::Listings::corrupt_words))]
fn push_corrupt_words(out: &mut String, maximum: u64) -> Result<(), AllocError>
    ensures { OnOk result (string_bytes out.new ≡ string_bytes out.old ++ corrupt_words maximum) }
{
    write!(out, "corrupt elements - of 1024 bytes - of {maximum}\n")
}

#[tactic(auto, unfolding(crate::specs::Listings::opened_members))]
fn push_opened_members(
    out: &mut String,
    maximum: u64,
    elements: u64,
    bytes: u64,
) -> Result<(), AllocError>
    ensures { OnOk result (string_bytes out.new ≡ string_bytes out.old ++ opened_members maximum elements bytes) }
{
    write!(
        out,
        "\"state\":\"opens\",\"elements\":{elements},\"maximumElements\":1024,\"bytes\":{bytes},\"maximumBytes\":{maximum},\"copies\":["
    )
}

#[tactic(auto, unfolding(crate::specs::Listings::corrupt_members))]
fn push_corrupt_members(out: &mut String, maximum: u64) -> Result<(), AllocError>
    ensures { OnOk result (string_bytes out.new ≡ string_bytes out.old ++ corrupt_members maximum) }
{
    write!(
        out,
        "\"state\":\"corrupt\",\"elements\":null,\"maximumElements\":1024,\"bytes\":null,\"maximumBytes\":{maximum},\"copies\":["
    )
}

// The files of each copy of a storage.
fn push_copies(
    out: &mut String,
    form: Form,
    app: u32,
    bank: u32,
    name: &Name,
    place: Place,
) -> Result<(), AllocError>
    ensures { OnOk result (string_bytes out.new ≡ string_bytes out.old ++ storage_files form app bank name.now place) }
{
    for copy in 0..place.copies {
        push_copy(out, form, app, bank, name, place, copy)?;
    }
    Ok(())
}

fn push_copy(
    out: &mut String,
    form: Form,
    app: u32,
    bank: u32,
    name: &Name,
    place: Place,
    copy: u32,
) -> Result<(), AllocError>
    requires { copy < place.copies }
    ensures { OnOk result (string_bytes out.new ≡ string_bytes out.old ++ copy_text form app bank name.now place copy) }
{
    let even = place.slot(copy, 0);
    let odd = place.slot(copy, 1);
    let area = place.area(copy);
    match form {
        Form::Lines => {
            push_copy_name(out, app, bank, name)?;
            push_copy_words(out, copy + 1, even, odd, area)
        }
        Form::Json => {
            push_comma(out, copy)?;
            push_copy_members(out, even, odd, area)
        }
    }
}

#[tactic(auto, unfolding(crate::specs::Listings::copy_name))]
fn push_copy_name(out: &mut String, app: u32, bank: u32, name: &Name) -> Result<(), AllocError>
    ensures { OnOk result (string_bytes out.new ≡ string_bytes out.old ++ copy_name app bank name.now) }
{
    write!(out, "copy {app} {bank} ")?;
    out.push_str(name.as_str())
}

#[tactic(auto, unfolding(crate::specs::Listings::copy_words))]
fn push_copy_words(
    out: &mut String,
    number: u32,
    even: u32,
    odd: u32,
    area: u32,
) -> Result<(), AllocError>
    ensures { OnOk result (string_bytes out.new ≡ string_bytes out.old ++ copy_words number even odd area) }
{
    write!(out, " {number} f{even} f{odd} f{area}\n")
}

#[tactic(auto, unfolding(crate::specs::Listings::copy_members))]
fn push_copy_members(out: &mut String, even: u32, odd: u32, area: u32) -> Result<(), AllocError>
    ensures { OnOk result (string_bytes out.new ≡ string_bytes out.old ++ copy_members even odd area) }
{
    write!(out, "[\"f{even}\",\"f{odd}\",\"f{area}\"]")
}

// ---- words

/// What ends the last list of an object, and the object, in JSON.
pub(crate) fn push_list_end(out: &mut String, form: Form) -> Result<(), AllocError>
    ensures { OnOk result (string_bytes out.new ≡ string_bytes out.old ++ list_end form) }
{
    match form {
        Form::Lines => Ok(()),
        Form::Json => out.push_str("]}"),
    }
}

// What comes before an item of a list in JSON, by the item's number.
fn push_comma(out: &mut String, number: u32) -> Result<(), AllocError>
    ensures { OnOk result (string_bytes out.new ≡ string_bytes out.old ++ comma number) }
{
    if number == 0 {
        return Ok(());
    }
    out.push_str(",")
}

// A number, or what says that there is none.
fn push_number(out: &mut String, form: Form, number: Option<u32>) -> Result<(), AllocError>
    ensures { OnOk result (string_bytes out.new ≡ string_bytes out.old ++ number_text form number) }
{
    match (number, form) {
        (Some(number), _) => write!(out, "{number}"),
        (None, Form::Lines) => out.push_str("-"),
        (None, Form::Json) => out.push_str("null"),
    }
}

fn kind_word(kind: StoreKind) -> &'static str
    ensures { result.now ≡ store_kind_word kind }
{
    match kind {
        StoreKind::Keys => "keys",
        StoreKind::Files => "files",
    }
}

fn access_word(read_only: bool) -> &'static str
    ensures { result.now ≡ access_word read_only }
{
    if read_only { "read-only" } else { "writable" }
}

fn access_member(read_only: bool) -> &'static str
    ensures { result.now ≡ access_member read_only }
{
    if read_only {
        "\"readOnly\":true"
    } else {
        "\"readOnly\":false"
    }
}
