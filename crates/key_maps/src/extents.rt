//! The number and the size of the keys of a map.

/// How many keys there are, and how many bytes their names and encodings take.
#[derive(Clone, Copy)]
pub struct Extent {
    pub count: usize,
    pub size: u64,
}
