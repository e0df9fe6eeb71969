//! Reading an export from its text.

ghost use Rattle.std.specs.Prelude.{◌≡◌, ◌≢◌, None, IfOk, IsErrOf};
ghost use Rattle.per_base.specs.Fields.{many};
ghost use Rattle.export_text.specs.declared.exports.Export.{Export};
ghost use Rattle.export_text.specs.Exports.{IsExport, body_hashed, body_read, export_by, export_of, export_text};
ghost use Rattle.export_text.specs.Exports.{fresh_at, header_at, header_in, marked_at};
ghost use Rattle.export_text.specs.Views.{Gives};

use crate::contents::names_ascend;
use crate::errors::ExportError;
use crate::exports::{Export, HASH_BYTES, MARK, MAX_ELEMENTS};
use crate::fields::{content_of, info_of, kind_from, len_of, name_of};
use per_base::{Fresh, Sequence, StoreKind, byte_of, bytes_of, u16_of};
use sha2::{Digest, Sha256};
use std::alloc::Global;

/// The export that the bytes spell.
///
/// # Errors
///
/// `NotAnExport` exactly where the bytes are the text of no export; `OutOfMemory`.
pub fn read_export(alloc: Global, bytes: &[u8]) -> Result<Export, ExportError>
    // What is read keeps the rules, and is spelled so.
    ensures rules { IfOk result IsExport }
    ensures spelled { IfOk result (λ x. bytes.now ≡ export_text x) }

    // What is refused is the text of no export.
    ensures refused { IsErrOf result ExportError.NotAnExport
        → (x : Export) → IsExport x → bytes.now ≢ export_text x }

    // Which export it is, as a function of the bytes.
    ensures read { Gives (λ x. x) result (export_of bytes.now) }

    // Without its hash, the mark, a kind and a count of elements a text is refused, however little memory there is.
    ensures memory { IsErrOf result ExportError.OutOfMemory → header_in bytes.now ≢ None }
{
    read_whole(alloc, bytes)
}

#[tactic(auto, unfolding(crate::specs::Exports::export_of, crate::specs::Exports::header_in))]
fn read_whole(alloc: Global, text: &[u8]) -> Result<Export, ExportError>
    ensures read { Gives (λ x. x) result (export_of text.now) }
    ensures memory { IsErrOf result ExportError.OutOfMemory → header_in text.now ≢ None }
{
    let body = hashed_body(text)?;
    read_body(alloc, body)
}

/// What stands before the hash, where it is the hash of that.
#[tactic(auto, unfolding(crate::specs::Exports::body_hashed))]
fn hashed_body(text: &[u8]) -> Result<&[u8], ExportError>
    ensures read { Gives (λ body. body.now) result (body_hashed text.now) }
    ensures memory { ¬ (IsErrOf result ExportError.OutOfMemory) }
{
    let (body, stated) = bytes_of(text.len().saturating_sub(HASH_BYTES), text)?;
    let digest = Sha256::digest(body);
    if stated != digest.as_slice() {
        return Err(ExportError::NotAnExport);
    }
    Ok(body)
}

#[tactic(auto, unfolding(crate::specs::Exports::body_read))]
fn read_body(alloc: Global, body: &[u8]) -> Result<Export, ExportError>
    ensures read { Gives (λ x. x) result (body_read body.now) }
    ensures memory { IsErrOf result ExportError.OutOfMemory → header_at body.now ≢ None }
{
    let (header, rest) = header_of(body)?;
    let (contents, rest) = contents_of(alloc, header, rest)?;
    export_from(header.kind, contents, rest)
}

/// The export of these elements, where their names ascend and nothing follows them.
fn export_from(kind: StoreKind, contents: Vec<Fresh>, rest: &[u8]) -> Result<Export, ExportError>
    ensures { Gives (λ x. x) result (export_by kind contents.items rest.now) }
{
    if !rest.is_empty() || !names_ascend(contents.as_slice()) {
        return Err(ExportError::NotAnExport);
    }
    let contents = Sequence::new(contents);
    Ok(Export { kind, contents })
}

/// What stands between the mark and the elements.
#[derive(Clone, Copy)]
pub(crate) struct Header {
    kind: StoreKind,
    count: u16,
}

#[tactic(auto, unfolding(crate::specs::Exports::marked_at))]
fn marked_of(bytes: &[u8]) -> Result<&[u8], ExportError>
    ensures read { Gives (λ rest. rest.now) result (marked_at bytes.now) }
    ensures memory { ¬ (IsErrOf result ExportError.OutOfMemory) }
{
    let (first, rest) = bytes_of(MARK.len(), bytes)?;
    if first != MARK.as_slice() {
        return Err(ExportError::NotAnExport);
    }
    Ok(rest)
}

#[tactic(auto, unfolding(crate::specs::Exports::header_at))]
fn header_of(bytes: &[u8]) -> Result<(Header, &[u8]), ExportError>
    ensures read { Gives (λ x. (x.0, x.1.now)) result (header_at bytes.now) }
    ensures memory { ¬ (IsErrOf result ExportError.OutOfMemory) }
{
    let rest = marked_of(bytes)?;
    let (code, rest) = byte_of(rest)?;
    let kind = kind_from(code)?;
    let (count, rest) = u16_of(rest)?;
    if count > MAX_ELEMENTS {
        return Err(ExportError::NotAnExport);
    }
    Ok((Header { kind, count }, rest))
}

fn contents_of(
    alloc: Global,
    header: Header,
    bytes: &[u8],
) -> Result<(Vec<Fresh>, &[u8]), ExportError>
    ensures { Gives (λ x. (x.0.items, x.1.now)) result (many (fresh_at header.kind) header.count bytes.now) }
{
    let mut contents = Vec::new(alloc);
    let mut rest = bytes;
    for _ in 0..header.count {
        let (element, after) = element_of(alloc, header.kind, rest)?;
        contents.push(element)?;
        rest = after;
    }
    Ok((contents, rest))
}

#[tactic(auto, unfolding(crate::specs::Exports::fresh_at))]
fn element_of(alloc: Global, kind: StoreKind, bytes: &[u8]) -> Result<(Fresh, &[u8]), ExportError>
    ensures { Gives (λ x. (x.0, x.1.now)) result (fresh_at kind bytes.now) }
{
    let (name, rest) = name_of(alloc, bytes)?;
    let (info, rest) = info_of(kind, rest)?;
    let (len, rest) = len_of(kind, rest)?;
    let (bytes, rest) = content_of(alloc, kind, len, rest)?;
    Ok((Fresh { name, info, bytes }, rest))
}
