//! Which rule a manifest breaks, in words.

ghost use Rattle.std.specs.Prelude.{◌≡◌, IfOk, option_map, string_bytes};
ghost use Rattle.per_reasons.specs.Initials.{SaysInitial};
ghost use Rattle.per_reasons.specs.Rules.{IsRuleText, end_text, initial_text, place_text, rule_text};

use crate::blame::{blamed, end_of_json};
use crate::initials::why_initial;
use std::alloc::{AllocError, Global};

/// The rule that a manifest is JSON.
const IS_JSON: u32 = 2;

/// The rule of initial contents.
const OF_INITIALS: u32 = 22;

/// Which rule a manifest breaks, where, and what the rule says.
pub(crate) fn why_rejected(alloc: Global, rule: u32, manifest: &[u8]) -> Result<String, AllocError>
    ensures { IfOk result (λ text. IsRuleText rule manifest.now (string_bytes text)) }
{
    let place = place_text(alloc, blamed(alloc, manifest, rule)?)?;
    let broken = rule_text(rule);
    let why = wrong_initial(alloc, rule, manifest)?;
    let end = end_text(alloc, rule, end_of_json(alloc, manifest), why)?;
    format!(in alloc; "the manifest breaks rule {rule}{place}{broken}{end}")
}

/// The part of a manifest in which it breaks a rule, where it is known.
fn place_text(alloc: Global, part: Option<String>) -> Result<String, AllocError>
    ensures { IfOk result (λ text. string_bytes text ≡ place_text (option_map string_bytes part)) }
{
    match part {
        Some(part) => format!(in alloc; " in {part}"),
        None => Ok(String::new(alloc)),
    }
}

/// Which byte of the manifest shows that it is no JSON, or what is wrong with an initial value, where the rule is this.
fn end_text(
    alloc: Global,
    rule: u32,
    byte: usize,
    why: Option<String>,
) -> Result<String, AllocError>
    ensures { IfOk result (λ text. string_bytes text ≡ end_text rule byte (option_map string_bytes why)) }
{
    if rule == IS_JSON {
        format!(in alloc; ", which its byte {byte} shows")
    } else if rule == OF_INITIALS {
        initial_text(alloc, why)
    } else {
        Ok(String::new(alloc))
    }
}

/// What is wrong with an initial value, where the rule is that of initial contents.
fn wrong_initial(alloc: Global, rule: u32, manifest: &[u8]) -> Result<Option<String>, AllocError>
    ensures { IfOk result (λ why. rule ≡ 22 → SaysInitial manifest.now (option_map string_bytes why)) }
{
    if rule == OF_INITIALS {
        why_initial(alloc, manifest)
    } else {
        Ok(None)
    }
}

/// What is wrong with an initial value, where that is said.
fn initial_text(alloc: Global, why: Option<String>) -> Result<String, AllocError>
    ensures { IfOk result (λ text. string_bytes text ≡ initial_text (option_map string_bytes why)) }
{
    match why {
        Some(why) => format!(in alloc; "; {why}"),
        None => Ok(String::new(alloc)),
    }
}

/// What a manifest breaks, or a part of it, that breaks this rule; nothing where there is no such rule.
fn rule_text(rule: u32) -> &'static str
    ensures { result.now ≡ rule_text rule }
{
    match rule {
        1 => ": it has more than 65536 bytes",
        2 => ": it is no JSON",
        3 => ": it is no object",
        4 => ": version is no whole number from 1 to 4294967295",
        5 => ": keyValueStorages or fileStorages is no list of objects",
        6 => ": it has a member that is none of version, keyValueStorages and fileStorages",
        7 => ": it has more than 16 storages",
        8 => ": it has a member that is none of a storage of its kind",
        9 => ": its name is none of 1 to 255 letters, digits, _, -, . and /",
        10 => ": another storage has its name",
        11 =>
            ": minimumSustainedSize is none from 0 to 4194304, or maximumAllowedSize none from 1 to 4194304",
        12 => ": minimumSustainedSize is above maximumAllowedSize",
        13 => ": up to it maximumAllowedSize sums up to more than 16777216",
        14 => ": updateStrategy is neither keepExisting nor delete",
        15 => ": readOnly is neither true nor false",
        16 =>
            ": redundancy is no object of m, n and scope, or scope is neither element nor storage",
        17 => ": m and n of redundancy are not there, or not 1 <= m <= n <= 7",
        18 => ": keyValuePairs or files is no list of at most 1024 objects",
        19 => ": it has a member that is none of an element of its kind",
        20 => ": its name is none of 1 to 255 letters, digits, _, -, . and /, or another has it",
        21 => ": type is no type, or one more than 8 deep",
        22 => ": initial is no value of its type, or no content in lower-case hexadecimal digits",
        23 =>
            ": updateStrategy is none of keepExisting, overwrite and delete, or overwrite has no initial",
        24 => ": up to it the initial contents are more than maximumAllowedSize",
        _ => "",
    }
}
