//! The forms of a listing, and what it says of a storage that opens.

/// The form of a listing.
#[derive(Clone, Copy, Debug, PartialEq, Eq)]
pub enum Form {
    /// A line for each application, for each copy of its root, for each storage and for each copy of it.
    Lines,
    /// One JSON object, on one line.
    Json,
}

/// What a storage that opens holds.
#[derive(Clone, Copy, Debug, PartialEq, Eq)]
pub(crate) struct Held {
    pub(crate) elements: u64,
    /// Of names and contents together.
    pub(crate) bytes: u64,
}
