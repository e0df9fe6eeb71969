//! Reading a root from its text.

ghost use Rattle.std.specs.Prelude.{◌≡◌, ◌≢◌, ◌==◌, IfOk, None, length, option_map, IsErrOf};
ghost use Rattle.per_base.specs.Fields.{only_if};
ghost use Rattle.root_text.specs.RootText.{IsRoot, Root, absent, installed_in, parts_at, parts_by, parts_in};
ghost use Rattle.root_text.specs.RootText.{parts_of_text, previous_at, previous_in, root_in, root_of, root_text};
ghost use Rattle.root_text.specs.RootText.{some_root_in, some_text_at, text_at, version_of_text};
ghost use Rattle.root_text.specs.Views.{Gives, borrowed_bytes, parts_seen, root_said, version_said};

use crate::errors::RootError;
use crate::laws::one_root;
use crate::versions::{RootSays, VersionText};
use manifest::{ManifestError, read_manifest};
use per_base::{Bytes, byte_of, bytes_of, u32_of};
use std::alloc::Global;

/// The root that the bytes `text` say, from the first to the last.
///
/// # Errors
///
/// `NotARoot` exactly where the bytes are the text of no root; `OutOfMemory`.
pub fn read_root(alloc: Global, text: &[u8]) -> Result<RootSays, RootError>
    // What is read is in bank 0 or 1, its texts are manifests, and the bytes are its text.
    ensures rules { IfOk result (λ says. IsRoot (root_said says)) }
    ensures spelled { IfOk result (λ says. text.now ≡ root_text (root_said says)) }

    // What is refused is the text of no root `r`.
    ensures refused { IsErrOf result RootError.NotARoot → (r : Root) → IsRoot r → text.now ≢ root_text r }

    // Which root it is, as a function of the bytes.
    ensures read { Gives root_said result (root_of text.now) }

    // Memory runs out only where the text has all parts of a root: only then are its manifests copied.
    ensures memory { IsErrOf result RootError.OutOfMemory → parts_of_text text.now ≢ None }
{
    one_root();
    read_whole(alloc, text)
}

/// The root that a text says, which must be all of it.
#[tactic(auto, unfolding(crate::specs::RootText::root_of, crate::specs::RootText::parts_of_text))]
fn read_whole(alloc: Global, text: &[u8]) -> Result<RootSays, RootError>
    ensures read { Gives root_said result (root_of text.now) }
    ensures memory { IsErrOf result RootError.OutOfMemory → parts_of_text text.now ≢ None }
{
    let (format, rest) = byte_of(text)?;
    let (kind, rest) = byte_of(rest)?;
    if format != 1 {
        return Err(RootError::NotARoot);
    }
    root_from(alloc, kind, rest)
}

/// The root after the byte `kind`: 0 is absent and 1 installed.
#[tactic(auto, unfolding(crate::specs::RootText::root_in, crate::specs::RootText::parts_by))]
fn root_from(alloc: Global, kind: u8, bytes: &[u8]) -> Result<RootSays, RootError>
    ensures read { Gives root_said result (root_in kind bytes.now) }
    ensures memory { IsErrOf result RootError.OutOfMemory → parts_by kind bytes.now ≢ None }
{
    match kind {
        0 => absent_from(bytes),
        1 => installed_from(alloc, bytes),
        _ => Err(RootError::NotARoot),
    }
}

/// An absent root, after which nothing may stand.
fn absent_from(bytes: &[u8]) -> Result<RootSays, RootError>
    ensures read { Gives root_said result (only_if (length bytes.now == 0) absent) }
    ensures memory { ¬ (IsErrOf result RootError.OutOfMemory) }
{
    if !bytes.is_empty() {
        return Err(RootError::NotARoot);
    }
    Ok(RootSays::Absent)
}

/// A root with something installed, which all of the bytes say.
#[tactic(auto, unfolding(crate::specs::RootText::some_root_in))]
fn installed_from(alloc: Global, bytes: &[u8]) -> Result<RootSays, RootError>
    ensures read { Gives root_said result (some_root_in bytes.now) }
    ensures memory { IsErrOf result RootError.OutOfMemory → parts_in bytes.now ≢ None }
{
    let fields = fields_of(bytes)?;
    root_by(alloc, fields)
}

/// The root with these parts, where each text is a manifest.
#[tactic(auto, unfolding(crate::specs::RootText::installed_in))]
fn root_by(alloc: Global, fields: Fields) -> Result<RootSays, RootError>
    ensures { Gives root_said result (installed_in (parts_seen fields.entry)) }
{
    let active = version_of(alloc, fields.active)?;
    let previous = previous_of(alloc, fields.previous)?;
    Ok(RootSays::Installed(fields.bank as u32, active, previous))
}

/// The previous version with this text, or none where there is no text.
#[tactic(auto, unfolding(crate::specs::RootText::previous_in))]
fn previous_of(alloc: Global, text: Option<&[u8]>) -> Result<Option<VersionText>, RootError>
    ensures { Gives (λ previous. option_map version_said previous) result
        (previous_in (option_map borrowed_bytes text.entry)) }
{
    match text {
        None => Ok(None),
        Some(text) => {
            let version = version_of(alloc, text)?;
            Ok(Some(version))
        }
    }
}

/// A manifest and what it says.
#[tactic(auto, unfolding(crate::specs::RootText::version_of_text))]
fn version_of(alloc: Global, text: &[u8]) -> Result<VersionText, RootError>
    ensures { Gives version_said result (version_of_text text.now) }
{
    let deployment = match read_manifest(alloc, text) {
        Ok(deployment) => deployment,
        Err(ManifestError::Rejected(_)) => return Err(RootError::NotARoot),
        Err(ManifestError::OutOfMemory) => return Err(RootError::OutOfMemory),
    };
    let text = Bytes::new(Vec::from_slice(alloc, text)?);
    Ok(VersionText { text, deployment })
}

/// What the text of a root has where something is installed.
#[derive(Clone, Copy)]
pub(crate) struct Fields<'a> {
    bank: u8,
    active: &'a [u8],
    previous: Option<&'a [u8]>,
}

/// The parts that all of the bytes are.
#[tactic(auto, unfolding(crate::specs::RootText::parts_in))]
fn fields_of(bytes: &[u8]) -> Result<Fields, RootError>
    ensures read { Gives parts_seen result (parts_in bytes.now) }
    ensures memory { ¬ (IsErrOf result RootError.OutOfMemory) }
{
    let (fields, rest) = fields_at(bytes)?;
    if !rest.is_empty() {
        return Err(RootError::NotARoot);
    }
    Ok(fields)
}

/// The parts at the start of the bytes, and what is left after them.
#[tactic(auto, unfolding(crate::specs::RootText::parts_at))]
fn fields_at(bytes: &[u8]) -> Result<(Fields, &[u8]), RootError>
    ensures read { Gives (λ x. (parts_seen x.0, x.1.now)) result (parts_at bytes.now) }
    ensures memory { ¬ (IsErrOf result RootError.OutOfMemory) }
{
    let (bank, rest) = byte_of(bytes)?;
    let (flag, rest) = byte_of(rest)?;
    let (active, rest) = text_of(rest)?;
    let (previous, rest) = previous_text_of(flag, rest)?;
    if bank > 1 {
        return Err(RootError::NotARoot);
    }
    let fields = Fields {
        bank,
        active,
        previous,
    };
    Ok((fields, rest))
}

/// A length and that many bytes.
#[tactic(auto, unfolding(crate::specs::RootText::text_at))]
fn text_of(bytes: &[u8]) -> Result<(&[u8], &[u8]), RootError>
    ensures read { Gives (λ x. (x.0.now, x.1.now)) result (text_at bytes.now) }
    ensures memory { ¬ (IsErrOf result RootError.OutOfMemory) }
{
    let (len, rest) = u32_of(bytes)?;
    let (text, rest) = bytes_of(len as usize, rest)?;
    Ok((text, rest))
}

/// The text of the previous version where the flag is 1, none where it is 0, and what is left after it.
#[tactic(auto, unfolding(crate::specs::RootText::previous_at, crate::specs::RootText::some_text_at))]
fn previous_text_of(flag: u8, bytes: &[u8]) -> Result<(Option<&[u8]>, &[u8]), RootError>
    ensures read { Gives (λ x. (option_map borrowed_bytes x.0, x.1.now)) result (previous_at flag bytes.now) }
    ensures memory { ¬ (IsErrOf result RootError.OutOfMemory) }
{
    match flag {
        0 => Ok((None, bytes)),
        1 => {
            let (text, rest) = text_of(bytes)?;
            Ok((Some(text), rest))
        }
        _ => Err(RootError::NotARoot),
    }
}
