//! How the files of a folder are named.

ghost use Rattle.std.specs.Prelude.{◌≡◌, ◌<◌, ◌^◌, ◌∷◌, ◌++◌, ℕ, IfOk, IsTrue, string_bytes};
ghost use Rattle.std.specs.Fmt.{decimal};

use std::alloc::{AllocError, Global};

/// What the folder holds.
#[derive(Clone, Copy, Debug, PartialEq, Eq)]
pub enum DeviceKind {
    /// A disk: its file of number `n` is the file `fn`.
    Disk,
    /// A flash: the file `flash`, whose number is 0.
    Flash,
}

impl DeviceKind {
    ghost use Rattle.per_system.specs.Names.{IsNumberOf, file_name};

    /// The number of the file of this name, if it has one.
    pub(crate) fn number_of(self, name: &str) -> Option<u32>
        ensures { (n : ℕ) → IsNumberOf self n → name.now ≡ file_name self n → result ≡ Some n }
    {
        match self {
            DeviceKind::Disk => number_of(name.strip_prefix("f")?),
            DeviceKind::Flash => (name == "flash").then_some(0),
        }
    }

    /// Where the file of this number is in a folder.
    pub(crate) fn path_of(self, alloc: Global, dir: &str, number: u32) -> Result<String, AllocError>
        ensures { IfOk result (λ path. string_bytes path ≡ dir.now ++ (47 ∷ file_name self number)) }
    {
        match self {
            DeviceKind::Disk => format!(in alloc; "{dir}/f{number}"),
            DeviceKind::Flash => format!(in alloc; "{dir}/flash"),
        }
    }
}

/// The number that these digits spell as the disk spells it: without a sign, and without zeros before it.
fn number_of(digits: &str) -> Option<u32>
    ensures { (n : ℕ) → n < 2 ^ 32 → digits.now ≡ decimal n → result ≡ Some n }
{
    if begins_number(digits.as_bytes()) {
        digits.parse().ok()
    } else {
        None
    }
}

/// Whether a text begins as a number does: with a digit, and with 0 only where that is all.
fn begins_number(bytes: &[u8]) -> bool
    ensures { (n : ℕ) → n < 2 ^ 32 → bytes.now ≡ decimal n → IsTrue result }
{
    if bytes.is_empty() {
        return false;
    }
    let first = bytes[0];
    if first == b'0' {
        return bytes.len() == 1;
    }
    first > b'0' && first <= b'9'
}
