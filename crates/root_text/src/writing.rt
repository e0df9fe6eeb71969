//! Writing a root as its text.

ghost use Rattle.std.specs.Prelude.{◌≡◌, ◌≤◌, ◌++◌, IfOk, OnOk, Some, length, option_map};
ghost use Rattle.std.specs.Option.{ForSome};
ghost use Rattle.root_text.specs.RootText.{IsVersion, absent, installed, long_text, root_text};
ghost use Rattle.root_text.specs.Views.{version_said};

use crate::versions::VersionText;
use manifest::said_is_kept;
use std::alloc::{AllocError, Global};

/// The one text of a root with nothing installed. The error says that memory ran out.
#[tactic(auto, unfolding(crate::specs::RootText::root_text))]
pub fn write_absent(alloc: Global) -> Result<Vec<u8>, AllocError>
    ensures text { IfOk result (λ text. text.items ≡ root_text absent) }
{
    let mut text = Vec::new(alloc);
    text.push(1)?;
    text.push(0)?;
    Ok(text)
}

/// The one text of a root with an active version in this bank, 0 or 1, and a previous one in the other where there is
/// one. The error says that memory ran out.
#[tactic(auto, unfolding(crate::specs::RootText::root_text))]
pub fn write_installed(
    alloc: Global,
    bank: u32,
    active: &VersionText,
    previous: Option<&VersionText>,
) -> Result<Vec<u8>, AllocError>
    requires bank { bank ≤ 1 }
    // the text of each version is a manifest that says its deployment
    requires active { IsVersion (version_said active.now) }
    requires previous { ForSome previous (λ v. IsVersion (version_said v.now)) }
    ensures text { IfOk result (λ text. text.items
        ≡ root_text (installed bank (version_said active.now) (option_map (λ v. version_said v.now) previous.entry))) }
{
    said_is_kept();
    let mut text = Vec::new(alloc);
    text.push(1)?;
    text.push(1)?;
    text.push(bank as u8)?;
    text.push(previous.is_some() as u8)?;
    put_text(&mut text, active.text.as_slice())?;
    if let Some(version) = previous {
        put_text(&mut text, version.text.as_slice())?;
    }
    Ok(text)
}

/// Appends a part with its length in front, which takes four bytes.
fn put_text(text: &mut Vec<u8>, part: &[u8]) -> Result<(), AllocError>
    requires { length part.now ≤ 65536 }
    ensures { OnOk result (text.new.items ≡ text.old.items ++ long_text part.now) }
{
    text.extend_from_slice(&(part.len() as u32).to_le_bytes())?;
    text.extend_from_slice(part)?;
    Ok(())
}
