//! A file of a dump: its content in hexadecimal, and its info.

ghost use Rattle.std.specs.Prelude.{◌≡◌, ◌≤◌, IfOk, Some};
ghost use Rattle.serde_json.specs.Data.{depth};
ghost use Rattle.serde_json.specs.View.{view};
ghost use Rattle.dump_text.specs.Elements.{cause_said, cause_word, file_data, file_in, info_in};
ghost use Rattle.dump_text.specs.Elements.{member_bytes, member_cause};
ghost use Rattle.dump_text.specs.Views.{Gives};

use crate::errors::DumpError;
use crate::fields::{no_others, number_in, text_in};
use per_base::{Bytes, Cause, FileInfo};
use serde_json::{Value, json};
use std::alloc::{AllocError, Global};
use value_model::DecodeError;
use value_text::{parse_hex, push_hex};

/// A file with this info and content. What is written of it is read back as the same.
pub(crate) fn file_value(
    alloc: Global,
    info: &FileInfo,
    content: &[u8],
) -> Result<Value, AllocError>
    ensures read { IfOk result (λ file. file_in (view file) ≡ Some (info.now, content.now)) }
    ensures nests { IfOk result (λ file. depth (view file) ≤ 1) }
{
    file_members(alloc, info, content)
}

fn file_members(alloc: Global, info: &FileInfo, content: &[u8]) -> Result<Value, AllocError>
    ensures { IfOk result (λ file. view file ≡ file_data info.now content.now) }
{
    let mut digits = String::new(alloc);
    push_hex(&mut digits, content)?;
    let creation = cause_word(info.creation);
    let modification = cause_word(info.modification);
    json!(in alloc; {
        "accessed": info.accessed,
        "content": digits.as_str(),
        "created": info.created,
        "creation": creation,
        "modification": modification,
        "modified": info.modified
    })
}

/// The info and the content of a file.
#[tactic(auto, unfolding(crate::specs::Elements::file_in))]
pub(crate) fn file_in(alloc: Global, file: &Value) -> Result<(FileInfo, Bytes), DumpError>
    ensures { Gives (λ x. (x.0, x.1)) result (file_in (view file.now)) }
{
    let info = info_in(alloc, file)?;
    let content = bytes_in(alloc, file, "content")?;
    no_others(alloc, file, 6)?;
    Ok((info, content))
}

#[tactic(auto, unfolding(crate::specs::Elements::info_in))]
fn info_in(alloc: Global, file: &Value) -> Result<FileInfo, DumpError>
    ensures { Gives (λ info. info) result (info_in (view file.now)) }
{
    let created = number_in(alloc, file, "created")?;
    let modified = number_in(alloc, file, "modified")?;
    let accessed = number_in(alloc, file, "accessed")?;
    let creation = cause_in(alloc, file, "creation")?;
    let modification = cause_in(alloc, file, "modification")?;
    Ok(FileInfo {
        created,
        modified,
        accessed,
        creation,
        modification,
    })
}

#[tactic(auto, unfolding(crate::specs::Elements::member_bytes))]
fn bytes_in(alloc: Global, file: &Value, member: &str) -> Result<Bytes, DumpError>
    ensures { Gives (λ bytes. bytes) result (member_bytes member.now (view file.now)) }
{
    let digits = text_in(alloc, file, member)?;
    match parse_hex(alloc, digits.as_bytes()) {
        Ok(bytes) => Ok(bytes),
        Err(DecodeError::NotAValue) => Err(DumpError::NotADump(String::from_str(
            alloc,
            "its \"content\" has other characters than pairs of 0 to 9 and a to f",
        )?)),
        Err(DecodeError::OutOfMemory) => Err(DumpError::OutOfMemory),
    }
}

#[tactic(auto, unfolding(crate::specs::Elements::member_cause))]
fn cause_in(alloc: Global, file: &Value, member: &str) -> Result<Cause, DumpError>
    ensures { Gives (λ cause. cause) result (member_cause member.now (view file.now)) }
{
    let word = text_in(alloc, file, member)?;
    match cause_said(word) {
        Some(cause) => Ok(cause),
        None => Err(DumpError::NotADump(String::from_str(alloc, "an unknown cause of a change")?)),
    }
}

fn cause_word(cause: Cause) -> &'static str
    ensures { result.now ≡ cause_word cause }
{
    match cause {
        Cause::Installation => "installation",
        Cause::Update => "update",
        Cause::Reset => "reset",
        Cause::Recovery => "recovery",
        Cause::Application => "application",
    }
}

#[tactic(auto, unfolding(crate::specs::Elements::cause_said))]
fn cause_said(word: &str) -> Option<Cause>
    ensures { result ≡ cause_said word.now }
{
    if word == "installation" {
        return Some(Cause::Installation);
    }
    if word == "update" {
        return Some(Cause::Update);
    }
    if word == "reset" {
        return Some(Cause::Reset);
    }
    if word == "recovery" {
        return Some(Cause::Recovery);
    }
    if word == "application" {
        return Some(Cause::Application);
    }
    None
}
