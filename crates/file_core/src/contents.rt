//! Changing a content in place.

ghost use Rattle.std.specs.Prelude.{◌≡◌, ◌<◌, ◌≤◌, ◌+◌, length, take, List, ℕ, IfOk, IfSome, IfNone, IsTrue, OnOk};
ghost use Rattle.std.specs.Prelude.{OnErr};
ghost use Rattle.per_base.specs.Contents.{is_readable, readable_bytes};
ghost use Rattle.file_core.specs.Files.{NoSalvage};
ghost use Rattle.file_core.specs.Places.{overwritten};

use crate::file::FILE_BYTES;
use per_base::{Bytes, Content};
use std::alloc::AllocError;
use std::mem;

// For how many times its bytes a content that grows is given room.
const AHEAD: usize = 8;

/// Puts the piece into a readable content from the position `from` on, which is in it or at its end, and gives the new
/// length in bytes.
pub fn overwrite_content(
    content: &mut Content,
    from: usize,
    piece: &[u8],
) -> Result<usize, AllocError>
    // The content is readable, and the piece begins in it or at its end.
    requires good { IsTrue (is_readable content.old) }
    requires inside { from ≤ length (readable_bytes content.old) }
    ensures ok { OnOk result (content.new ≡ Content.Good (overwritten from piece.now (readable_bytes content.old))) }
    ensures len { IfOk result (λ len. len ≡ length (overwritten from piece.now (readable_bytes content.old))) }
    ensures unchanged { OnErr result (content.new ≡ content.old) }
    // Memory runs out only where the piece reaches past the end.
    ensures memory { OnErr result (length (readable_bytes content.old) < from + length piece.now) }
{
    let Content::Good(bytes) = mem::replace(content, Content::Bad(None)) else {
        return Ok(0);
    };
    let mut bytes = bytes.into_vec();
    let outcome = overwrite(&mut bytes, from, piece);
    let len = bytes.len();
    *content = Content::Good(Bytes::new(bytes));
    outcome?;
    Ok(len)
}

/// Truncates a readable content to its first `size` bytes.
pub fn truncate_content(content: &mut Content, size: usize)
    // The content is readable.
    requires { IsTrue (is_readable content.old) }
    ensures { content.new ≡ Content.Good (take size (readable_bytes content.old)) }
{
    if let Content::Good(bytes) = mem::replace(content, Content::Bad(None)) {
        let mut bytes = bytes.into_vec();
        bytes.truncate(size);
        *content = Content::Good(Bytes::new(bytes));
    }
}

/// Makes the salvage of an unreadable content the content, and gives its length; none where there is no salvage.
pub fn recover_content(content: &mut Content) -> Option<usize>
    // Where it gives a length, the content was unreadable and is its salvage; else it had none, and stays.
    ensures recovered { IfSome result (λ len. (salvage : List ℕ) × (content.old ≡ Content.Bad (Some salvage))
        × (content.new ≡ Content.Good salvage) × (len ≡ length salvage)) }
    ensures unchanged { IfNone result ((content.new ≡ content.old) × NoSalvage content.old) }
{
    match mem::replace(content, Content::Bad(None)) {
        Content::Bad(Some(salvage)) => {
            let len = salvage.len();
            *content = Content::Good(salvage);
            Some(len)
        }
        other => {
            *content = other;
            None
        }
    }
}

/// Puts the piece into the bytes from there on: it overwrites what stands there, and extends the bytes at their end.
///
/// Allocates only for what reaches past the end. After an error the bytes are as they were.
fn overwrite(bytes: &mut Vec<u8>, from: usize, piece: &[u8]) -> Result<(), AllocError>
    requires { from ≤ length bytes.old.items }
    ensures ok { OnOk result (bytes.new.items ≡ overwritten from piece.now bytes.old.items) }
    ensures err { OnErr result (bytes.new.items ≡ bytes.old.items) }
    ensures memory { OnErr result (length bytes.old.items < from + length piece.now) }
{
    let inside = usize::min(piece.len(), bytes.len() - from);
    make_room(bytes, piece.len() - inside);
    bytes.extend_from_slice(&piece[inside..])?;
    bytes[from..from + inside].copy_from_slice(&piece[..inside]);
    Ok(())
}

// Where there is no room for `more` bytes, makes room for several times what is then there, at most for the
// longest file: a content that is written in pieces moves seldom. Where memory runs out it makes none.
fn make_room(bytes: &mut Vec<u8>, more: usize)
    ensures { bytes.new.items ≡ bytes.old.items }
{
    let needed = bytes.len().saturating_add(more);
    if needed <= bytes.capacity() {
        return;
    }
    let ahead = usize::min(needed.saturating_mul(AHEAD), FILE_BYTES as usize);
    let _ = bytes.reserve_exact(ahead.saturating_sub(bytes.len()));
}
