//! The root of an application in memory.

ghost use Rattle.std.specs.Prelude.{◌≡◌, Some};

use guarded_cell::Cell;
use per_base::PerError;
use root_text::VersionText;

/// An application with a version.
#[derive(Debug, Drop)]
pub struct Installed {
    /// The register that holds the root's text.
    pub cell: Cell,
    /// The bank of the active version, 0 or 1.
    pub bank: u32,
    /// The active version.
    pub active: VersionText,
    /// The version before it, in the other bank, until it is finished or rolled back.
    pub previous: Option<VersionText>,
}

/// What is installed of an application.
#[derive(Debug, Drop)]
pub enum Root {
    /// No two copies of the root hold one text, or what they hold is no root's.
    Bad,
    /// Nothing is installed.
    Absent(Cell),
    /// A version is installed, and perhaps the one before it.
    Installed(Installed),
}

/// How a call on a root ended.
#[derive(Debug, Drop)]
pub struct Outcome {
    /// The root after the call.
    pub root: Root,
    /// Why the call was refused, if it was: then nothing was written and the root is the same.
    pub refused: Option<PerError>,
}

impl Root {
    /// A call on this root is refused: nothing was done.
    pub(crate) fn refuses(self, error: PerError) -> Outcome
        ensures { result ≡ record { root = self; refused = Some error } }
    {
        Outcome {
            root: self,
            refused: Some(error),
        }
    }
}
