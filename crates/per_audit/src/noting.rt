//! What is listed and found so far, and what a root or a storage adds to it by how it was seen. Nothing here touches a
//! disk.

ghost use Rattle.std.specs.Prelude.{◌≡◌, ◌∷◌, ◌++◌, [], IfOk, None, OnOk, Some, map};
ghost use Rattle.std.specs.List.{flat_map, range_with_len};
ghost use Rattle.per_base.specs.declared.errors.Unit.TheVariants.{Root, Whole};
ghost use Rattle.value_code.specs.Reading.{is_content};
ghost use Rattle.deployment_model.specs.Data.{storage_data};
ghost use Rattle.element_state.specs.Reports.{is_readable_by};
ghost use Rattle.per_audit.specs.declared.findings.FindingKind.TheVariants.{Lost};
ghost use Rattle.per_audit.specs.Audits.{damaged_by, finding, lacking_named, listed_element, of_element, unless_sole};
ghost use Rattle.per_audit.specs.Noted.{AddsNotes, elements_found, findings_found, of_corrupt, of_view};

use crate::findings::{Audit, Finding, FindingKind, Listed};
use deployment_model::StorageConfig;
use element_state::{Found, View};
use per_base::{Content, Entry, Numbers, Scope, Sequence, StoreKind, Unit};
use std::alloc::{AllocError, Global};
use value_code::encodes;

/// What was listed and found so far.
#[derive(Drop)]
pub(crate) struct Notes {
    pub(crate) elements: Vec<Listed>,
    pub(crate) findings: Vec<Finding>,
}

impl Notes {
    /// Nothing yet.
    pub(crate) fn new(alloc: Global) -> Notes
        ensures elements { result.elements.items ≡ [] }
        ensures findings { result.findings.items ≡ [] }
    {
        Notes {
            elements: Vec::new(alloc),
            findings: Vec::new(alloc),
        }
    }

    /// All of it.
    pub(crate) fn into_audit(self) -> Audit
        ensures elements { result.elements ≡ self.elements.items }
        ensures findings { result.findings ≡ self.findings.items }
    {
        Audit {
            elements: Sequence::new(self.elements),
            findings: Sequence::new(self.findings),
        }
    }
}

// ---- roots

/// Adds what is found of a root that says nothing.
pub(crate) fn note_bad_root(alloc: Global, notes: &mut Notes, app: u32) -> Result<(), AllocError>
    ensures { OnOk result (AddsNotes [] (finding app None Lost Root (1 ∷ 2 ∷ 3 ∷ []) ∷ []) notes.old notes.new) }
{
    let copies = Numbers::new(vec![in alloc; 1, 2, 3]?);
    notes.findings.push(Finding {
        app,
        bank: None,
        unit: Unit::Root,
        kind: FindingKind::Lost,
        copies,
    })?;
    Ok(())
}

/// Adds what is found of a root that says something, by the copies that lack it and by whether no other text is held.
pub(crate) fn note_root(
    alloc: Global,
    notes: &mut Notes,
    app: u32,
    lacking: &Numbers,
    sole: bool,
) -> Result<(), AllocError>
    ensures { OnOk result (AddsNotes [] (damaged_by app None Root lacking.now ++ unless_sole sole app None Root)
        notes.old notes.new) }
{
    let findings = &mut notes.findings;
    push_damaged(findings, app, None, Unit::Root, lacking)?;
    push_unless_sole(alloc, findings, sole, app, None, Unit::Root)
}

// ---- storages

/// Adds what a storage has, by the text that was found of it.
pub(crate) fn note_storage(
    alloc: Global,
    notes: &mut Notes,
    app: u32,
    bank: u32,
    config: &StorageConfig,
    found: &Option<Found>,
) -> Result<(), AllocError>
    ensures { OnOk result (AddsNotes (elements_found app bank (storage_data config.now) found.now)
        (findings_found app bank (storage_data config.now) found.now) notes.old notes.new) }
{
    match found {
        Some(
            Found {
                opens: true,
                view,
                ..
            },
        ) => {
            let entries = view.entries.as_slice();
            list_entries(&mut notes.elements, app, bank, config, entries)?;
            push_view(alloc, &mut notes.findings, app, bank, config, view)
        }
        Some(Found { view, .. }) => push_corrupt(
            alloc,
            &mut notes.findings,
            app,
            bank,
            config,
            view.sole,
        ),
        None => push_corrupt(alloc, &mut notes.findings, app, bank, config, true),
    }
}

// Lists the elements of a storage that opens.
fn list_entries(
    elements: &mut Vec<Listed>,
    app: u32,
    bank: u32,
    config: &StorageConfig,
    entries: &[Entry],
) -> Result<(), AllocError>
    ensures { OnOk result (elements.new.items ≡ elements.old.items
        ++ map (listed_element app bank (storage_data config.now)) entries.now) }
{
    for entry in entries {
        elements.push(listed(app, bank, config, entry)?)?;
    }
    Ok(())
}

/// An element of a storage as it is listed.
fn listed(app: u32, bank: u32, config: &StorageConfig, entry: &Entry) -> Result<Listed, AllocError>
    ensures { IfOk result (λ line. line ≡ listed_element app bank (storage_data config.now) entry.now) }
{
    let storage = config.name.copy()?;
    let element = entry.name.copy()?;
    Ok(Listed {
        app,
        bank,
        storage,
        element,
        changed: entry.changed,
    })
}

// What is found of a storage that is corrupt.
fn push_corrupt(
    alloc: Global,
    findings: &mut Vec<Finding>,
    app: u32,
    bank: u32,
    config: &StorageConfig,
    sole: bool,
) -> Result<(), AllocError>
    ensures { OnOk result (findings.new.items ≡ findings.old.items
        ++ of_corrupt app bank (storage_data config.now) sole) }
{
    let copies = all_copies(alloc, config.n)?;
    let unit = Unit::Whole(config.name.copy()?);
    push_lost(findings, app, bank, unit, copies)?;
    let unit = Unit::Whole(config.name.copy()?);
    push_unless_sole(alloc, findings, sole, app, Some(bank), unit)
}

// What is found of a storage that opens, and of its elements.
fn push_view(
    alloc: Global,
    findings: &mut Vec<Finding>,
    app: u32,
    bank: u32,
    config: &StorageConfig,
    view: &View,
) -> Result<(), AllocError>
    ensures { OnOk result (findings.new.items ≡ findings.old.items
        ++ of_view app bank (storage_data config.now) view.now) }
{
    let unit = Unit::Whole(config.name.copy()?);
    push_damaged(findings, app, Some(bank), unit, &view.lacking)?;
    let unit = Unit::Whole(config.name.copy()?);
    push_unless_sole(alloc, findings, view.sole, app, Some(bank), unit)?;
    push_elements(alloc, findings, app, bank, config, view.entries.as_slice())
}

/// Appends what is found of these elements.
fn push_elements(
    alloc: Global,
    findings: &mut Vec<Finding>,
    app: u32,
    bank: u32,
    config: &StorageConfig,
    entries: &[Entry],
) -> Result<(), AllocError>
    ensures { OnOk result (findings.new.items
        ≡ findings.old.items ++ flat_map (of_element app bank (storage_data config.now)) entries.now) }
{
    for entry in entries {
        push_element(alloc, findings, app, bank, config, entry)?;
    }
    Ok(())
}

// An element is lost where it cannot be read, and else damaged in the copies that lack it.
fn push_element(
    alloc: Global,
    findings: &mut Vec<Finding>,
    app: u32,
    bank: u32,
    config: &StorageConfig,
    entry: &Entry,
) -> Result<(), AllocError>
    ensures { OnOk result (findings.new.items ≡ findings.old.items
        ++ of_element app bank (storage_data config.now) entry.now) }
{
    let unit = Unit::Part(config.name.copy()?, entry.name.copy()?);
    if !is_readable(alloc, config.kind, &entry.content)? {
        let copies = entry.lacking.copy()?;
        return push_lost(findings, app, bank, unit, copies);
    }
    match config.scope {
        Scope::Element => push_damaged(findings, app, Some(bank), unit, &entry.lacking),
        Scope::Storage => Ok(()),
    }
}

// Whether enough copies agree on a content that the kind has.
fn is_readable(alloc: Global, kind: StoreKind, content: &Content) -> Result<bool, AllocError>
    ensures { IfOk result (λ answer. answer ≡ is_readable_by (is_content kind) content.now) }
{
    match (content, kind) {
        (Content::Bad(_), _) => Ok(false),
        (Content::Good(_), StoreKind::Files) => Ok(true),
        (Content::Good(bytes), StoreKind::Keys) => encodes(alloc, bytes.as_slice()),
    }
}

// The numbers of `count` copies, from 1 on.
fn all_copies(alloc: Global, copies: u32) -> Result<Numbers, AllocError>
    ensures { IfOk result (λ numbers. numbers ≡ range_with_len 1 copies) }
{
    let mut numbers = Vec::new(alloc);
    for copy in 0..copies {
        numbers.push(copy + 1)?;
    }
    Ok(Numbers::new(numbers))
}

// ---- one finding

// The unit is in a bank and is lost.
fn push_lost(
    findings: &mut Vec<Finding>,
    app: u32,
    bank: u32,
    unit: Unit,
    copies: Numbers,
) -> Result<(), AllocError>
    ensures { OnOk result (findings.new.items ≡ findings.old.items ++ finding app (Some bank) Lost unit copies ∷ []) }
{
    findings.push(Finding {
        app,
        bank: Some(bank),
        unit,
        kind: FindingKind::Lost,
        copies,
    })?;
    Ok(())
}

// The unit is damaged where copies lack it.
fn push_damaged(
    findings: &mut Vec<Finding>,
    app: u32,
    bank: Option<u32>,
    unit: Unit,
    lacking: &Numbers,
) -> Result<(), AllocError>
    ensures { OnOk result (findings.new.items ≡ findings.old.items ++ damaged_by app bank unit lacking.now) }
{
    if lacking.as_slice().is_empty() {
        return Ok(());
    }
    let copies = lacking.copy()?;
    findings.push(Finding {
        app,
        bank,
        unit,
        kind: FindingKind::Damaged,
        copies,
    })?;
    Ok(())
}

// The unit is unsettled where another text is held besides.
fn push_unless_sole(
    alloc: Global,
    findings: &mut Vec<Finding>,
    sole: bool,
    app: u32,
    bank: Option<u32>,
    unit: Unit,
) -> Result<(), AllocError>
    ensures { OnOk result (findings.new.items ≡ findings.old.items ++ unless_sole sole app bank unit) }
{
    if sole {
        return Ok(());
    }
    findings.push(Finding {
        app,
        bank,
        unit,
        kind: FindingKind::Unsettled,
        copies: Numbers::new(Vec::new(alloc)),
    })?;
    Ok(())
}
