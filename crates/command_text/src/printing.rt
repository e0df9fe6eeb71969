//! Replies as texts.

ghost use Rattle.std.specs.Prelude.{◌≡◌, ◌∷◌, ◌++◌, OnOk, IfOk, IsSome, string_bytes};
ghost use Rattle.std.specs.List.{flat_map};
ghost use Rattle.per_base.specs.Errors.{error_number};
ghost use Rattle.command_text.specs.Replies.{HasText, answer_text, carried_text, cause_text, copies_text, error_name};
ghost use Rattle.command_text.specs.Replies.{error_title, holder_text, info_text, limit_text, octets_text, reply_text};
ghost use Rattle.command_text.specs.Replies.{report_line, report_word, reported_text, status_text, unit_text};

use crate::replies::{Answer, AppStatus, Reply};
use per_base::{Cause, FileInfo, Holder, Limit, Name, PerError, Report, ReportKind, Unit};
use std::alloc::{AllocError, Global};
use std::fmt::Write;
use value_text::{push_hex, push_value};

/// How many bytes the texts of most replies fit into.
const REPLY_BYTES: usize = 64;

/// How many bytes the word before the digits of bytes, its space and the line feed after them take.
const WORD_BYTES: usize = 7;

/// The text of a reply: a line for each report and the answer's line, each with its line feed. The one error is that
/// memory ran out.
pub fn print_reply(alloc: Global, reply: &Reply) -> Result<Vec<u8>, AllocError>
    // Every answer has a text but the error `OutOfMemory`.
    requires { HasText reply.now.answer }
    ensures { IfOk result (λ text. text.items ≡ reply_text reply.now) }
{
    let mut text = String::with_capacity(alloc, REPLY_BYTES)?;
    push_reply(&mut text, reply)?;
    Ok(text.into_bytes())
}

/// Appends the text of a reply.
///
/// # Errors
///
/// Memory ran out; what was appended before stays.
pub fn push_reply(out: &mut String, reply: &Reply) -> Result<(), AllocError>
    // Every answer has a text but the error `OutOfMemory`.
    requires { HasText reply.now.answer }
    ensures { OnOk result (string_bytes out.new ≡ string_bytes out.old ++ reply_text reply.now) }
{
    push_reports(out, reply.reports.as_slice())?;
    push_answer(out, &reply.answer)?;
    out.push_str("\n")
}

// ---- reports

/// Appends a line for each report.
fn push_reports(out: &mut String, reports: &[Report]) -> Result<(), AllocError>
    ensures { OnOk result (string_bytes out.new ≡ string_bytes out.old ++ flat_map report_line reports.now) }
{
    for report in reports {
        push_report(out, report)?;
    }
    Ok(())
}

/// Appends the line of a report.
fn push_report(out: &mut String, report: &Report) -> Result<(), AllocError>
    ensures { OnOk result (string_bytes out.new ≡ string_bytes out.old ++ report_line report.now) }
{
    out.push_str("report ")?;
    out.push_str(report_word(report.kind))?;
    out.push_str(" ")?;
    push_reported(out, &report.storage, &report.element)?;
    out.push_str(" ")?;
    push_copies(out, report.copies.as_slice())?;
    out.push_str("\n")
}

fn report_word(kind: ReportKind) -> &'static str
    ensures { result.now ≡ report_word kind }
{
    match kind {
        ReportKind::KvsRecovered => "kvs-recovered",
        ReportKind::KvsFailed => "kvs-failed",
        ReportKind::KeyRecovered => "key-recovered",
        ReportKind::KeyFailed => "key-failed",
        ReportKind::FilesRecovered => "files-recovered",
        ReportKind::FilesFailed => "files-failed",
        ReportKind::FileRecovered => "file-recovered",
        ReportKind::FileFailed => "file-failed",
    }
}

/// Appends the storage, and its element where there is one.
fn push_reported(out: &mut String, storage: &Name, element: &Option<Name>) -> Result<(), AllocError>
    ensures { OnOk result (string_bytes out.new ≡ string_bytes out.old ++ reported_text storage.now element.now) }
{
    out.push_str(storage.as_str())?;
    match element {
        None => Ok(()),
        Some(element) => {
            out.push_str(":")?;
            out.push_str(element.as_str())
        }
    }
}

/// Appends the numbers of copies, joined by commas, or `-` where there is none.
///
/// # Errors
///
/// Memory ran out; what was appended before stays.
pub fn push_copies(out: &mut String, copies: &[u32]) -> Result<(), AllocError>
    ensures { OnOk result (string_bytes out.new ≡ string_bytes out.old ++ copies_text copies.now) }
{
    let Some((first, others)) = copies.split_first() else {
        return out.push_str("-");
    };
    write!(out, "{first}")?;
    for copy in others {
        write!(out, ",{copy}")?;
    }
    Ok(())
}

// ---- answers

/// Appends the text of an answer.
fn push_answer(out: &mut String, answer: &Answer) -> Result<(), AllocError>
    requires { HasText answer.now }
    ensures { OnOk result (string_bytes out.new ≡ string_bytes out.old ++ answer_text answer.now) }
{
    match answer {
        Answer::Done => out.push_str("ok"),
        Answer::Val(value) => {
            out.push_str("value ")?;
            push_value(out, value)
        }
        Answer::Octets(bytes) => push_octets(out, bytes.as_slice()),
        Answer::Byte(byte) => {
            out.push_str("byte ")?;
            push_hex(out, &[*byte])
        }
        Answer::Number(number) => write!(out, "number {number}"),
        Answer::Truth(true) => out.push_str("yes"),
        Answer::Truth(false) => out.push_str("no"),
        Answer::Names(names) => {
            out.push_str("names")?;
            push_names(out, names.as_slice())
        }
        Answer::Handle(number) => write!(out, "handle {number}"),
        Answer::Info(info) => {
            out.push_str("info ")?;
            push_info(out, info)
        }
        Answer::Status(status) => {
            out.push_str("status ")?;
            push_status(out, status)
        }
        Answer::Error(error) => {
            out.push_str("error ")?;
            push_title(out, error)?;
            push_carried(out, error)
        }
    }
}

/// Appends bytes, with a space only before some. The room of the whole line is taken at once.
fn push_octets(out: &mut String, bytes: &[u8]) -> Result<(), AllocError>
    ensures { OnOk result (string_bytes out.new ≡ string_bytes out.old ++ octets_text bytes.now) }
{
    if bytes.is_empty() {
        return out.push_str("bytes");
    }
    let digits = bytes.len().saturating_mul(2);
    out.reserve(digits.saturating_add(WORD_BYTES))?;
    out.push_str("bytes ")?;
    push_hex(out, bytes)
}

/// Appends each name after a space.
fn push_names(out: &mut String, names: &[Name]) -> Result<(), AllocError>
    ensures { OnOk result (string_bytes out.new ≡ string_bytes out.old ++ flat_map (λ name. 32 ∷ name) names.now) }
{
    for name in names {
        out.push_str(" ")?;
        out.push_str(name.as_str())?;
    }
    Ok(())
}

/// Appends the moments and causes of a file.
fn push_info(out: &mut String, info: &FileInfo) -> Result<(), AllocError>
    ensures { OnOk result (string_bytes out.new ≡ string_bytes out.old ++ info_text info.now) }
{
    let created = info.created;
    let modified = info.modified;
    let accessed = info.accessed;
    write!(out, "{created} {modified} {accessed} ")?;
    out.push_str(cause_text(info.creation))?;
    out.push_str(" ")?;
    out.push_str(cause_text(info.modification))
}

fn cause_text(cause: Cause) -> &'static str
    ensures { result.now ≡ cause_text cause }
{
    match cause {
        Cause::Installation => "installation",
        Cause::Update => "update",
        Cause::Reset => "reset",
        Cause::Recovery => "recovery",
        Cause::Application => "application",
    }
}

/// Appends the versions of an application.
fn push_status(out: &mut String, status: &AppStatus) -> Result<(), AllocError>
    ensures { OnOk result (string_bytes out.new ≡ string_bytes out.old ++ status_text status.now) }
{
    match status {
        AppStatus::Absent => out.push_str("absent"),
        AppStatus::Active {
            version,
            previous: None,
        } => write!(out, "version {version}"),
        AppStatus::Active {
            version,
            previous: Some(previous),
        } => write!(out, "version {version} previous {previous}"),
    }
}

// ---- errors

/// Appends the number and the name of an error.
fn push_title(out: &mut String, error: &PerError) -> Result<(), AllocError>
    requires { IsSome (error_number error.now) }
    ensures { OnOk result (string_bytes out.new ≡ string_bytes out.old ++ error_title error.now) }
{
    let (number, name) = number_and_name(error);
    write!(out, "{number} {name}")
}

/// The number and the name of an error.
fn number_and_name(error: &PerError) -> (u32, &'static str)
    requires { IsSome (error_number error.now) }
    ensures number { error_number error.now ≡ Some result.0 }
    ensures name { result.1.now ≡ error_name error.now }
{
    match error {
        PerError::StorageNotFound => (1, "StorageNotFound"),
        PerError::KeyNotFound => (2, "KeyNotFound"),
        PerError::IllegalWriteAccess => (3, "IllegalWriteAccess"),
        PerError::PhysicalStorageFailure => (4, "PhysicalStorageFailure"),
        PerError::IntegrityCorrupted { unit: _ } => (5, "IntegrityCorrupted"),
        PerError::DataTypeMismatch {
            stored: _,
            asked: _,
        } => (7, "DataTypeMismatch"),
        PerError::InitValueNotAvailable => (8, "InitValueNotAvailable"),
        PerError::ResourceBusy { holder: _ } => (9, "ResourceBusy"),
        PerError::OutOfStorageSpace {
            needed: _,
            allowed: _,
        } => (10, "OutOfStorageSpace"),
        PerError::FileNotFound => (11, "FileNotFound"),
        PerError::InvalidPosition => (12, "InvalidPosition"),
        PerError::IsEof => (13, "IsEof"),
        PerError::InvalidOpenMode => (14, "InvalidOpenMode"),
        PerError::InvalidSize => (15, "InvalidSize"),
        PerError::NotInstalled => (20, "NotInstalled"),
        PerError::AlreadyInstalled => (21, "AlreadyInstalled"),
        PerError::ManifestRejected { rule: _ } => (22, "ManifestRejected"),
        PerError::NoPreviousVersion => (23, "NoPreviousVersion"),
        PerError::NotOpen => (24, "NotOpen"),
        PerError::LimitReached { which: _ } => (25, "LimitReached"),
        PerError::IllegalReadAccess => (26, "IllegalReadAccess"),
        PerError::UpdateNotFinished { previous: _ } => (27, "UpdateNotFinished"),
        PerError::VersionNotNewer {
            active: _,
            offered: _,
        } => (28, "VersionNotNewer"),
        PerError::BadName => (29, "BadName"),
        PerError::NoUpdateInProgress => (30, "NoUpdateInProgress"),
        PerError::ExportRejected => (31, "ExportRejected"),
        PerError::OutOfMemory => unreachable!(),
    }
}

/// Appends what an error carries, each after a space.
fn push_carried(out: &mut String, error: &PerError) -> Result<(), AllocError>
    ensures { OnOk result (string_bytes out.new ≡ string_bytes out.old ++ carried_text error.now) }
{
    match error {
        PerError::IntegrityCorrupted { unit } => {
            out.push_str(" ")?;
            push_unit(out, unit)
        }
        PerError::DataTypeMismatch { stored, asked } => {
            out.push_str(" ")?;
            out.push_str(stored.as_str())?;
            out.push_str(" ")?;
            out.push_str(asked.as_str())
        }
        PerError::ResourceBusy { holder } => {
            out.push_str(" ")?;
            push_holder(out, holder)
        }
        PerError::OutOfStorageSpace { needed, allowed } => write!(out, " {needed} {allowed}"),
        PerError::ManifestRejected { rule } => write!(out, " {rule}"),
        PerError::LimitReached { which } => {
            out.push_str(" ")?;
            out.push_str(limit_text(*which))
        }
        PerError::UpdateNotFinished { previous } => write!(out, " {previous}"),
        PerError::VersionNotNewer { active, offered } => write!(out, " {active} {offered}"),
        _ => Ok(()),
    }
}

/// Appends what is damaged: `root`, a storage, or a storage and an element.
///
/// # Errors
///
/// Memory ran out; what was appended before stays.
pub fn push_unit(out: &mut String, unit: &Unit) -> Result<(), AllocError>
    ensures { OnOk result (string_bytes out.new ≡ string_bytes out.old ++ unit_text unit.now) }
{
    match unit {
        Unit::Root => out.push_str("root"),
        Unit::Whole(storage) => out.push_str(storage.as_str()),
        Unit::Part(storage, element) => {
            out.push_str(storage.as_str())?;
            out.push_str(":")?;
            out.push_str(element.as_str())
        }
    }
}

fn push_holder(out: &mut String, holder: &Holder) -> Result<(), AllocError>
    ensures { OnOk result (string_bytes out.new ≡ string_bytes out.old ++ holder_text holder.now) }
{
    match holder {
        Holder::Storage(storage) => {
            out.push_str("storage ")?;
            out.push_str(storage.as_str())
        }
        Holder::Handle(number) => write!(out, "handle {number}"),
        Holder::Update(version) => write!(out, "update {version}"),
    }
}

fn limit_text(limit: Limit) -> &'static str
    ensures { result.now ≡ limit_text limit }
{
    match limit {
        Limit::Elements => "elements",
        Limit::Handles => "handles",
        Limit::FileBytes => "file-bytes",
        Limit::ValueBytes => "value-bytes",
        Limit::ValueDepth => "value-depth",
        Limit::Generations => "generations",
    }
}
