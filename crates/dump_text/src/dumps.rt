//! What a dump has.

ghost use Rattle.std.specs.Prelude.{◌≡◌, ◌<◌};
ghost use Rattle.dump_text.specs.Elements.{dumped_word};

use per_base::{Bytes, Name, StoreKind};
use std::marker::Model;

/// With this every dump is marked.
pub(crate) const FORMAT: &str = "per dump 1";

/// The number of an application, 0 to 7.
#[derive(Debug, Drop)]
pub struct AppNumber {
    number: u32,
}

impl Model for AppNumber {
    ghost use Rattle.std.specs.Prelude.{◌<◌, ℕ};

    ghost Value = { ℕ };

    ghost view = { λ a. a.number };

    ghost invariant = { λ a. a.number < 8 };
}

impl AppNumber {
    /// The application of this number, one of the eight from 0 to 7.
    pub fn new(number: u32) -> AppNumber
        requires { number < 8 }
        ensures { result ≡ number }
    {
        AppNumber { number }
    }

    /// The number of the application, from 0 to 7.
    pub fn number(&self) -> u32
        ensures value { result ≡ self.now }
        ensures range { result < 8 }
    {
        self.number
    }
}

/// A storage of a dump.
#[derive(Debug, Drop)]
pub struct DumpedStorage {
    pub name: Name,
    /// The text of its export.
    pub text: Bytes,
}

/// An application of a dump.
#[derive(Debug, Drop)]
pub struct DumpedApplication {
    pub application: AppNumber,
    /// The manifest of its active version, as it was handed in.
    pub manifest: Bytes,
    /// The storages of that version, in the order of their names.
    pub storages: Vec<DumpedStorage>,
}

/// The word for the elements of a storage of this kind.
pub(crate) fn elements_word(kind: StoreKind) -> &'static str
    ensures { result.now ≡ dumped_word kind }
{
    match kind {
        StoreKind::Keys => "keys",
        StoreKind::Files => "files",
    }
}
