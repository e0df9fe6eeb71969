//! What the texts that single copies hold leave of a root.

ghost use Rattle.std.specs.Prelude.{◌≡◌, IfOk, IfSome, IsErrOf, find, nat_le, length, option_map};
ghost use Rattle.guarded_cell.specs.Held.{standing_in};
ghost use Rattle.root_text.specs.RootText.{root_of};
ghost use Rattle.root_text.specs.Views.{root_said};
ghost use Rattle.root_recovery.specs.Choices.{IsChoice, IsReadFrom, seen_taken, stands_as_root};
ghost use Rattle.root_recovery.specs.Recoveries.{is_root_text};

use crate::errors::RecoveryError;
use crate::recovering::Recovered;
use guarded_cell::Seen;
use root_text::{RootError, RootSays, read_root};
use std::alloc::Global;

/// What is left of a root.
#[derive(Drop)]
pub(crate) enum Choice<'a> {
    /// The text that two copies hold says a root.
    Reads,
    /// No copy holds a root.
    NoneLeft,
    /// This text is taken, which gives this root.
    Takes(&'a Seen, Recovered),
}

/// What these texts leave of a root, in the order in which they were seen.
pub(crate) fn choose(alloc: Global, seens: &[Seen]) -> Result<Choice, RecoveryError>
    ensures choice { IfOk result (IsChoice seens.now) }
    ensures memory { ¬ (IsErrOf result RecoveryError.Device) }
{
    if reads(alloc, seens)? {
        return Ok(Choice::Reads);
    }
    match first_root(alloc, seens)? {
        None => Ok(Choice::NoneLeft),
        Some((seen, says)) => {
            let copies = seen.copies.copy()?;
            let generation = seen.generation;
            Ok(Choice::Takes(
                seen,
                Recovered {
                    generation,
                    says,
                    copies,
                },
            ))
        }
    }
}

// Whether the text that two copies hold says a root.
fn reads(alloc: Global, seens: &[Seen]) -> Result<bool, RecoveryError>
    ensures reads { IfOk result (λ reads. reads ≡ stands_as_root (standing_in 2 seens.now)) }
    ensures memory { ¬ (IsErrOf result RecoveryError.Device) }
{
    match first_of_two(seens) {
        None => Ok(false),
        Some(seen) => {
            let says = read_seen(alloc, seen)?;
            Ok(says.is_some())
        }
    }
}

// The first of the texts that two copies hold.
fn first_of_two(seens: &[Seen]) -> Option<&Seen>
    ensures { option_map (λ seen. seen.now) result ≡ standing_in 2 seens.now }
{
    seens.iter().find(|seen| is_enough(seen))
}

// Whether two copies hold it.
fn is_enough(seen: &Seen) -> bool
    ensures { result ≡ nat_le 2 (length seen.now.copies) }
{
    seen.copies.as_slice().len() >= 2
}

// The first of the texts that says a root, and the root.
fn first_root(alloc: Global, seens: &[Seen]) -> Result<Option<(&Seen, RootSays)>, RecoveryError>
    ensures first { IfOk result (λ found. option_map seen_taken found ≡ find is_root_text seens.now) }
    ensures read { IfOk result (λ found. IfSome found (λ f. IsReadFrom f.0.now f.1)) }
    ensures memory { ¬ (IsErrOf result RecoveryError.Device) }
{
    for seen in seens {
        if let Some(says) = read_seen(alloc, seen)? {
            return Ok(Some((seen, says)));
        }
    }
    Ok(None)
}

// The root that a text says.
fn read_seen(alloc: Global, seen: &Seen) -> Result<Option<RootSays>, RecoveryError>
    ensures said { IfOk result (λ says. root_of seen.now.text ≡ option_map root_said says) }
    ensures read { IfOk result (λ says. IfSome says (IsReadFrom seen.now)) }
    ensures memory { ¬ (IsErrOf result RecoveryError.Device) }
{
    match read_root(alloc, seen.text.as_slice()) {
        Ok(says) => Ok(Some(says)),
        Err(RootError::NotARoot) => Ok(None),
        Err(RootError::OutOfMemory) => Err(RecoveryError::OutOfMemory),
    }
}
