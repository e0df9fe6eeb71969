//! A storage as it is configured, as it is seen, and how it is to change.

ghost use Rattle.std.specs.Prelude.{◌≡◌, IfOk};

use disk_model::Place;
use per_base::{Entry, Name, Numbers, Scope, Sequence, StoreKind};
use std::alloc::AllocError;

/// A storage as a deployment gives it.
#[derive(Debug, Drop)]
pub struct Shape {
    /// By which reports call it.
    pub name: Name,
    /// Where its copies are.
    pub place: Place,
    /// Keys or files.
    pub kind: StoreKind,
    /// How many copies must agree.
    pub m: u32,
    /// On what they must agree.
    pub scope: Scope,
    /// The greatest size, of names and contents, in bytes.
    pub allowed: u64,
}

impl Shape {
    /// A copy that is equal in all.
    pub fn copy(&self) -> Result<Shape, AllocError>
        ensures { IfOk result (λ copy. copy ≡ self.now) }
    {
        Ok(Shape {
            name: self.name.copy()?,
            place: self.place,
            kind: self.kind,
            m: self.m,
            scope: self.scope,
            allowed: self.allowed,
        })
    }
}

/// What the copies of a storage denote.
#[derive(Debug, Drop)]
pub struct View {
    /// The generation of its index, at least 1.
    pub generation: u64,
    /// The copies that lack the storage, counted from 1 and ascending: those that do not hold its text, and with
    /// storage scope also those that lack one of its elements.
    pub lacking: Numbers,
    /// Whether no second text is held that could be this storage's.
    pub sole: bool,
    /// The elements, ascending by name.
    pub entries: Sequence<Entry>,
}
