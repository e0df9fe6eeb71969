//! What an audit lists and finds.

ghost use Rattle.std.specs.Prelude.{◌≡◌};
ghost use Rattle.per_audit.specs.Audits.{is_sound};

use per_base::{Name, Numbers, Sequence, Unit};

/// An element of a storage that opens.
#[derive(Debug, Drop)]
pub struct Listed {
    /// The application, from 0 to 7.
    pub app: u32,
    /// The bank of the version that has the storage, 0 or 1.
    pub bank: u32,
    pub storage: Name,
    pub element: Name,
    /// The generation of its last change.
    pub changed: u64,
}

/// What is found of a unit.
#[derive(Clone, Copy, Debug, PartialEq, Eq)]
pub enum FindingKind {
    /// Some copies lack it, and enough others agree on it.
    Damaged,
    /// Too few copies agree on it: nothing reads it.
    Lost,
    /// Some copy holds another text than the one that counts.
    Unsettled,
}

/// One finding.
#[derive(Debug, Drop)]
pub struct Finding {
    /// The application, from 0 to 7.
    pub app: u32,
    /// The bank of the version that has the storage, 0 or 1; none for a root.
    pub bank: Option<u32>,
    pub unit: Unit,
    pub kind: FindingKind,
    /// The copies that lack the unit, counted from 1 and ascending; none of one that is unsettled.
    pub copies: Numbers,
}

/// What an audit lists and finds: application by application, of each the root first, and then storage by storage, the
/// active version's before the previous one's.
#[derive(Debug, Drop)]
pub struct Audit {
    /// Every element of a storage that opens.
    pub elements: Sequence<Listed>,
    pub findings: Sequence<Finding>,
}

impl Audit {
    /// Whether nothing was found.
    pub fn is_sound(&self) -> bool
        ensures { result ≡ is_sound self.now.findings }
    {
        self.findings.as_slice().is_empty()
    }
}
