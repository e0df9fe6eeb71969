//! What the copies of a content give, in which equal bytes are kept once.

ghost use Rattle.std.specs.Prelude.{◌≡◌, ◌≢◌, ◌++◌, ◌∷◌, [], IfOk, None, OnOk, length, map, slice_index_or};
ghost use Rattle.std.specs.Option.{option_copied, option_map};
ghost use Rattle.block_files.specs.Contents.{first_content};
ghost use Rattle.block_files.specs.Texts.{given_in};
ghost use Rattle.block_files.specs.declared.texts.Given.{Given};

use std::alloc::{AllocError, Global};
use std::marker::Model;

/// What a copy gives.
#[derive(Debug, Drop)]
enum Given {
    /// It does not count.
    Nothing,
    /// The bytes of the first copy that counts.
    First,
    /// Other bytes.
    Other(Vec<u8>),
}

/// What each copy of a content gives, in order: its bytes where they have the hash. Those that are the bytes of the
/// first copy that counts are not kept again.
#[derive(Debug, Drop)]
pub(crate) struct Texts {
    first: Option<Vec<u8>>,
    given: Vec<Given>,
}

impl Model for Texts {
    ghost use Rattle.std.specs.Prelude.{ℕ, List, Option, map};
    ghost use Rattle.std.specs.Option.{option_map};
    ghost use Rattle.block_files.specs.Texts.{AreGiven, given_in};

    ghost Value = { List (Option (List ℕ)) };

    ghost view = { λ t. map (given_in (option_map (λ f. f.items) t.first)) t.given.items };

    ghost invariant = { λ t. AreGiven (option_map (λ f. f.items) t.first) t.given.items };
}

impl Texts {
    /// Of no copy.
    pub(crate) fn new(alloc: Global) -> Texts
        ensures { result ≡ [] }
    {
        Texts {
            first: None,
            given: Vec::new(alloc),
        }
    }

    /// Adds what the next copy gives.
    pub(crate) fn push(&mut self, text: Option<Vec<u8>>) -> Result<(), AllocError>
        ensures { OnOk result (self.new ≡ self.old ++ option_map (λ t. t.items) text ∷ []) }
    {
        let Some(bytes) = text else {
            self.given.push(Given::Nothing)?;
            return Ok(());
        };
        match &self.first {
            None => {
                self.given.push(Given::First)?;
                self.first = Some(bytes);
                Ok(())
            }
            Some(_) => {
                self.given.push(Given::Other(bytes))?;
                Ok(())
            }
        }
    }

    /// Adds a copy that gives what the first gives that counts. Those bytes are not kept again.
    pub(crate) fn push_first(&mut self) -> Result<(), AllocError>
        requires { first_content self.old ≢ None }
        ensures { OnOk result (self.new ≡ self.old ++ first_content self.old ∷ []) }
    {
        self.given.push(Given::First)?;
        Ok(())
    }

    /// The first content that some copy gives.
    pub(crate) fn first(&self) -> Option<&[u8]>
        ensures { option_copied result ≡ first_content self.now }
    {
        match &self.first {
            Some(first) => Some(first.as_slice()),
            None => None,
        }
    }

    /// How many copies there are.
    pub(crate) fn len(&self) -> usize
        ensures { result ≡ length self.now }
    {
        self.given.len()
    }

    /// What the copy of this number gives.
    pub(crate) fn get(&self, copy: usize) -> Option<&[u8]>
        ensures { option_copied result ≡ slice_index_or self.now copy None }
    {
        match self.given.get(copy) {
            Some(Given::First) => self.first(),
            Some(Given::Other(bytes)) => Some(bytes.as_slice()),
            Some(Given::Nothing) | None => None,
        }
    }

    /// What each copy gives, lent.
    pub(crate) fn lent(&self, alloc: Global) -> Result<Vec<Option<&[u8]>>, AllocError>
        ensures { IfOk result (λ lent. map option_copied lent.items ≡ self.now) }
    {
        let mut lent = Vec::new(alloc);
        for copy in 0..self.given.len() {
            lent.push(self.get(copy))?;
        }
        Ok(lent)
    }

    /// The first content that some copy gives, moved.
    pub(crate) fn into_first(self) -> Option<Vec<u8>>
        ensures { option_map (λ t. t.items) result ≡ first_content self }
    {
        self.first
    }
}
