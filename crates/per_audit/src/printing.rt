//! The text of an audit.

ghost use Rattle.std.specs.Prelude.{◌≡◌, ◌++◌, IfOk, OnOk, string_bytes};
ghost use Rattle.std.specs.List.{flat_map};
ghost use Rattle.command_text.specs.Replies.{number_or_dash};
ghost use Rattle.per_audit.specs.AuditText.{audit_text, element_line, finding_line, kind_word, verdict};

use crate::findings::{Audit, Finding, FindingKind, Listed};
use command_text::{push_copies, push_unit};
use std::alloc::{AllocError, Global};
use std::fmt::Write;

impl Audit {
    /// The text of the audit: a line for each element, a line for each finding, and `sound` or how many findings there
    /// are, each with its line feed.
    #[tactic(auto, unfolding(crate::specs::AuditText::audit_text))]
    pub fn text(&self, alloc: Global) -> Result<Vec<u8>, AllocError>
        ensures { IfOk result (λ text. text.items ≡ audit_text self.now.elements self.now.findings) }
    {
        let mut text = String::new(alloc);
        push_elements(&mut text, self.elements.as_slice())?;
        push_findings(&mut text, self.findings.as_slice())?;
        push_verdict(&mut text, self.findings.as_slice())?;
        Ok(text.into_bytes())
    }
}

/// Appends the lines of the elements.
fn push_elements(out: &mut String, elements: &[Listed]) -> Result<(), AllocError>
    ensures { OnOk result (string_bytes out.new ≡ string_bytes out.old ++ flat_map element_line elements.now) }
{
    for element in elements {
        push_element(out, element)?;
    }
    Ok(())
}

/// Appends the line of an element.
fn push_element(out: &mut String, element: &Listed) -> Result<(), AllocError>
    ensures { OnOk result (string_bytes out.new ≡ string_bytes out.old ++ element_line element.now) }
{
    let app = element.app;
    let bank = element.bank;
    let changed = element.changed;
    write!(out, "element {app} {bank} ")?;
    out.push_str(element.storage.as_str())?;
    out.push_str(":")?;
    out.push_str(element.element.as_str())?;
    write!(out, " {changed}\n")
}

/// Appends the lines of the findings.
fn push_findings(out: &mut String, findings: &[Finding]) -> Result<(), AllocError>
    ensures { OnOk result (string_bytes out.new ≡ string_bytes out.old ++ flat_map finding_line findings.now) }
{
    for finding in findings {
        push_finding(out, finding)?;
    }
    Ok(())
}

/// Appends the line of a finding.
fn push_finding(out: &mut String, finding: &Finding) -> Result<(), AllocError>
    ensures { OnOk result (string_bytes out.new ≡ string_bytes out.old ++ finding_line finding.now) }
{
    let app = finding.app;
    out.push_str(kind_word(finding.kind))?;
    write!(out, " {app} ")?;
    push_bank(out, finding.bank)?;
    out.push_str(" ")?;
    push_unit(out, &finding.unit)?;
    out.push_str(" ")?;
    push_copies(out, finding.copies.as_slice())?;
    out.push_str("\n")
}

/// The word for a kind of finding.
fn kind_word(kind: FindingKind) -> &'static str
    ensures { result.now ≡ kind_word kind }
{
    match kind {
        FindingKind::Damaged => "damaged",
        FindingKind::Lost => "lost",
        FindingKind::Unsettled => "unsettled",
    }
}

/// Appends the number of a bank, or a dash for a root.
fn push_bank(out: &mut String, bank: Option<u32>) -> Result<(), AllocError>
    ensures { OnOk result (string_bytes out.new ≡ string_bytes out.old ++ number_or_dash bank) }
{
    match bank {
        None => out.push_str("-"),
        Some(bank) => write!(out, "{bank}"),
    }
}

// What the findings come to.
fn push_verdict(out: &mut String, findings: &[Finding]) -> Result<(), AllocError>
    ensures { OnOk result (string_bytes out.new ≡ string_bytes out.old ++ verdict findings.now) }
{
    let count = findings.len();
    if count == 0 {
        return out.push_str("sound\n");
    }
    write!(out, "findings {count}\n")
}
