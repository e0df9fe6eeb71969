//! The outcome of a recovery, as a text.

ghost use Rattle.std.specs.Prelude.{◌≡◌, ◌++◌, IfOk, OnOk, string_bytes};
ghost use Rattle.root_text.specs.Views.{root_said};
ghost use Rattle.root_recovery.specs.Recoveries.{row_answered, takes};
ghost use Rattle.root_recovery.specs.Texts.{recovery_text, root_words};

use crate::recovering::{Recovered, Recovery};
use command_text::push_copies;
use root_text::RootSays;
use std::alloc::{AllocError, Global};
use std::fmt::Write;

impl Recovery {
    /// One line with its line feed: `recovered`, the generation of the root that was taken, the copies that held it,
    /// and the versions that it names, or `absent`; or `refused readable`; or `refused none-left`.
    #[tactic(auto, unfolding(crate::specs::Texts::recovery_text))]
    pub fn text(&self, alloc: Global) -> Result<Vec<u8>, AllocError>
        ensures { IfOk result (λ text. text.items ≡ recovery_text (row_answered self.now)) }
    {
        let mut text = String::new(alloc);
        match self {
            Recovery::Reads => text.push_str("refused readable\n")?,
            Recovery::NoneLeft => text.push_str("refused none-left\n")?,
            Recovery::Taken(recovered) => push_recovered(&mut text, recovered)?,
        }
        Ok(text.into_bytes())
    }
}

#[tactic(auto, unfolding(crate::specs::Texts::recovery_text))]
fn push_recovered(out: &mut String, recovered: &Recovered) -> Result<(), AllocError>
    ensures { OnOk result (string_bytes out.new ≡ string_bytes out.old
        ++ recovery_text (takes recovered.now.generation (root_said recovered.now.says) recovered.now.copies)) }
{
    let generation = recovered.generation;
    write!(out, "recovered {generation} ")?;
    push_copies(out, recovered.copies.as_slice())?;
    out.push_str(" ")?;
    push_root(out, &recovered.says)?;
    out.push_str("\n")
}

// The versions that a root names.
fn push_root(out: &mut String, says: &RootSays) -> Result<(), AllocError>
    ensures { OnOk result (string_bytes out.new ≡ string_bytes out.old ++ root_words (root_said says.now)) }
{
    match says {
        RootSays::Absent => out.push_str("absent"),
        RootSays::Installed(_, active, None) => {
            let version = active.deployment.version;
            write!(out, "version {version}")
        }
        RootSays::Installed(_, active, Some(previous)) => {
            let version = active.deployment.version;
            let before = previous.deployment.version;
            write!(out, "version {version} previous {before}")
        }
    }
}
