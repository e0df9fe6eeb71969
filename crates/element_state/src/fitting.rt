//! Which of the held texts fit.

ghost use Rattle.std.specs.Prelude.{◌≡◌, ◌==◌, ◌≤◌, IfOk, IfErr, IfSome, length, nat_lt};
ghost use Rattle.std.specs.List.{AllByRecursion, list_all};
ghost use Rattle.index_text.specs.Rules.{IsIndex};
ghost use Rattle.index_text.specs.Sizes.{fits, size_of};
ghost use Rattle.index_text.specs.Spelling.{store_kind_code};
ghost use Rattle.element_state.specs.Fit.{fit_among, fit_index};
ghost use Rattle.element_state.specs.Chosen.{IsFitIndex};

use crate::errors::StoreError;
use crate::shapes::Shape;
use guarded_cell::Seen;
use index_text::{Index, IndexEntry, IndexError, read_index};
use per_base::{StoreKind, element_size};
use std::alloc::Global;

// Those of the texts that fit, each with the index that it spells, in their order.
pub(crate) fn fit_texts(
    alloc: Global,
    shape: &Shape,
    seens: Vec<Seen>,
) -> Result<Vec<(Seen, Index)>, StoreError>
    requires allowed { shape.now.allowed ≤ 4194304 }
    ensures texts { IfOk result (λ texts. texts.items ≡ fit_among shape.now seens.items) }
    ensures fit { IfOk result (λ texts. AllByRecursion (λ t. IsFitIndex shape.now t.0.text t.1) texts.items) }
    ensures memory { IfErr result (λ e. e ≡ StoreError.OutOfMemory) }
{
    let mut texts = Vec::new(alloc);
    for seen in seens {
        if let Some(index) = fit_index(alloc, shape, seen.text.as_slice())? {
            texts.push((seen, index))?;
        }
    }
    Ok(texts)
}

// The index that a text spells, where it fits.
fn fit_index(alloc: Global, shape: &Shape, text: &[u8]) -> Result<Option<Index>, StoreError>
    requires { shape.now.allowed ≤ 4194304 }
    ensures index { IfOk result (λ index. index ≡ fit_index shape.now text.now) }
    ensures spelled { IfOk result (λ index. IfSome index (λ i. IsFitIndex shape.now text.now i)) }
    ensures memory { IfErr result (λ e. e ≡ StoreError.OutOfMemory) }
{
    match read_index(alloc, text) {
        Ok(index) => {
            if fits(shape, &index) {
                return Ok(Some(index));
            }
            Ok(None)
        }
        Err(IndexError::NotAnIndex) => Ok(None),
        Err(IndexError::OutOfMemory) => Err(StoreError::OutOfMemory),
    }
}

// Whether an index fits.
fn fits(shape: &Shape, index: &Index) -> bool
    requires rules { IsIndex index.now }
    requires allowed { shape.now.allowed ≤ 4194304 }
    ensures { result ≡ fits shape.now.kind shape.now.allowed index.now }
{
    let entries = index.entries.as_slice();
    if !is_same_kind(index.kind, shape.kind) {
        return false;
    }
    if size_of(entries) > shape.allowed {
        return false;
    }
    are_below(entries, 2 * (shape.allowed / 256 + 1024))
}

fn is_same_kind(a: StoreKind, b: StoreKind) -> bool
    ensures { result ≡ (store_kind_code a == store_kind_code b) }
{
    match (a, b) {
        (StoreKind::Keys, StoreKind::Keys) | (StoreKind::Files, StoreKind::Files) => true,
        _ => false,
    }
}

// Names and contents, in bytes.
fn size_of(entries: &[IndexEntry]) -> u64
    requires { length entries.now ≤ 1024 }
    ensures { result ≡ size_of entries.now }
{
    let mut total: u64 = 0;
    for entry in entries {
        total += element_size(&entry.name, entry.len);
    }
    total
}

// Whether all blocks are below this number.
fn are_below(entries: &[IndexEntry], blocks: u64) -> bool
    ensures { result ≡ list_all (λ e. list_all (λ b. nat_lt b blocks) e.blocks) entries.now }
{
    entries
        .iter()
        .all(|entry| all_below(entry.blocks.as_slice(), blocks))
}

fn all_below(numbers: &[u32], blocks: u64) -> bool
    ensures { result ≡ list_all (λ b. nat_lt b blocks) numbers.now }
{
    numbers.iter().all(|number| u64::from(*number) < blocks)
}
