//! What the table must know of its storage.

use per_base::Name;

/// The name of the storage, whether it is read-only, and how many bytes the names and contents of its files may take
/// (`maximum`).
#[derive(Debug, Drop)]
pub struct Storage {
    pub name: Name,
    pub read_only: bool,
    pub maximum: u64,
}
