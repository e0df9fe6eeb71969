//! What the copies of a content agree on.

ghost use Rattle.std.specs.Prelude.{◌≡◌, ◌≤◌, ◌*◌, ◌↔◌, min, IsTrue, IfOk, IfSome, IsErrOf, length, OnOk, Some};
ghost use Rattle.std.specs.Option.{option_copied};
ghost use Rattle.per_base.specs.Causes.{Rose};
ghost use Rattle.disk_model.specs.Medium.{Elapses, OnlyReads};
ghost use Rattle.m_of_n.specs.Vote.{voted};
ghost use Rattle.block_files.specs.BlockSets.{Ascend};
ghost use Rattle.block_files.specs.Contents.{contents, first_content, lacking, lacking_in, lacks, unvoted, AreCopies};
ghost use Rattle.block_files.specs.States.{AreOfFirst, AreStatesOf};

use crate::errors::BlobError;
use crate::reading::{Looked, look};
use crate::texts::Texts;
use disk_model::{Disk, Place};
use m_of_n::vote;
use per_base::{Bytes, Numbers};
use sha2::Sha256;
use std::alloc::{AllocError, Global};

/// What the copies of a content hold.
#[derive(Debug, Drop)]
pub struct Blob {
    /// The bytes on which enough copies agree.
    pub value: Option<Bytes>,
    /// Where there is no value, the bytes of the first copy that has the hash, whatever the others hold.
    pub salvage: Option<Bytes>,
    /// States of the hasher after each 32 KiB of the value, in order; fewer where memory was short.
    pub states: Vec<Sha256>,
    /// The copies that lack the value, counted from 1 and ascending; where there is no value, those that do not have
    /// the hash.
    pub lacking: Numbers,
}

/// The content of these blocks: a copy counts where its blocks, joined and cut to `len` bytes, with zeros past the
/// area's end, have this SHA-256. The value is the first content that at least `m` of the counting copies have, and the
/// copies lack it that do not count, that have other bytes, or whose area does not reach to the end of all of them.
/// Where there is no value, the salvage is the first content that counts. No byte changes.
///
/// # Errors
///
/// `Device` where the disk fails, and `OutOfMemory`.
pub fn get_blob<D: Disk>(
    alloc: Global,
    disk: &mut D,
    place: Place,
    blocks: &[u32],
    len: u32,
    hash: &[u8; 32],
    m: u32,
) -> Result<Blob, BlobError>
    requires { 1 ≤ m }
    // The value is the vote of the copies for m, the salvage is there only without a value, and the copies that lack
    // the value are named.
    ensures value { IsTrue D.told → IfOk result (λ blob. blob.value
        ≡ voted m (contents place blocks.now len hash.now (D.medium disk.old).image)) }
    ensures salvage { IsTrue D.told → IfOk result (λ blob. blob.salvage
        ≡ unvoted blob.value (first_content (contents place blocks.now len hash.now (D.medium disk.old).image))) }
    ensures lacking { IsTrue D.told → IfOk result (λ blob. blob.lacking
        ≡ lacking blob.value place blocks.now len hash.now (D.medium disk.old).image) }

    // Whether the disk's bytes are modelled or not: the states are of the value, the value and the salvage have the
    // length that was asked for, as far as the blocks go, and the lacking copies are copies of the place, ascending.
    ensures states { IfOk result (λ blob. IfSome blob.value (λ value. AreStatesOf value blob.states.items)) }
    ensures size { IfOk result (λ blob. IfSome blob.value (λ value. length value ≡ min len (256 * length blocks.now))) }
    ensures salvage_size { IfOk result (λ blob. IfSome blob.salvage
        (λ salvage. length salvage ≡ min len (256 * length blocks.now))) }
    ensures copies { IfOk result (λ blob. AreCopies place.copies blob.lacking) }
    ensures ascending { IfOk result (λ blob. Ascend blob.lacking) }

    // No byte changes; the count of faults rose where the disk failed, and stays where it did not.
    ensures reads { OnlyReads (D.medium disk.old) (D.medium disk.new) }
    ensures time { Elapses (D.medium disk.old) (D.medium disk.new) }
    ensures cause { IsErrOf result BlobError.Device → Rose (D.medium disk.old).faults (D.medium disk.new).faults }
    ensures passes { OnOk result ((D.medium disk.new).faults ≡ (D.medium disk.old).faults) }
    ensures fed { IsErrOf result BlobError.OutOfMemory → (D.medium disk.new).faults ≡ (D.medium disk.old).faults }
{
    let looked = look(alloc, disk, place, blocks, len, hash)?;
    let blob = judge(alloc, looked, m)?;
    Ok(blob)
}

// What the copies agree on, by what each gives. The first content is moved, and no other copied, where it is the value.
fn judge(alloc: Global, looked: Looked, m: u32) -> Result<Blob, AllocError>
    requires m { 1 ≤ m }
    requires copies { (length looked.texts ≡ length looked.inside.items) × (length looked.texts ≤ 8) }
    requires states { AreOfFirst looked.texts looked.states.items }
    ensures value { IfOk result (λ blob. blob.value ≡ voted m looked.texts) }
    ensures salvage { IfOk result (λ blob. blob.salvage ≡ unvoted blob.value (first_content looked.texts)) }
    ensures lacking { IfOk result (λ blob. blob.lacking ≡ lacking_in blob.value looked.texts looked.inside.items) }
    ensures states { IfOk result (λ blob. IfSome blob.value (λ value. AreStatesOf value blob.states.items)) }
{
    let value = voted(alloc, m, &looked.texts)?;
    let lacking = list_lacking(alloc, value, &looked)?;
    let Some(value) = value else {
        return Ok(Blob {
            value: None,
            salvage: take_first(looked.texts),
            states: Vec::new(alloc),
            lacking,
        });
    };
    if is_first(&looked.texts, value) {
        return Ok(Blob {
            value: take_first(looked.texts),
            salvage: None,
            states: looked.states,
            lacking,
        });
    }
    let value = Vec::from_slice(alloc, value)?;
    Ok(Blob {
        value: Some(Bytes::new(value)),
        salvage: None,
        states: Vec::new(alloc),
        lacking,
    })
}

// What enough copies give.
fn voted(alloc: Global, m: u32, texts: &Texts) -> Result<Option<&[u8]>, AllocError>
    requires { 1 ≤ m }
    ensures { IfOk result (λ value. option_copied value ≡ voted m texts.now) }
{
    let lent = texts.lent(alloc)?;
    Ok(vote(m, lent.as_slice()))
}

// Whether this is the first content that some copy gives.
fn is_first(texts: &Texts, value: &[u8]) -> bool
    ensures { IsTrue result ↔ (first_content texts.now ≡ Some value.now) }
{
    match texts.first() {
        Some(first) => first == value,
        None => false,
    }
}

// The first content that some copy gives, moved.
fn take_first(texts: Texts) -> Option<Bytes>
    ensures { result ≡ first_content texts }
{
    match texts.into_first() {
        Some(bytes) => Some(Bytes::new(bytes)),
        None => None,
    }
}

// The copies that lack the value, counted from 1.
fn list_lacking(alloc: Global, value: Option<&[u8]>, looked: &Looked) -> Result<Numbers, AllocError>
    requires { (length looked.now.texts ≡ length looked.now.inside.items) × (length looked.now.texts ≤ 8) }
    ensures { IfOk result (λ numbers. numbers ≡ lacking_in (option_copied value.entry) looked.now.texts
        looked.now.inside.items) }
{
    let mut numbers = Vec::new(alloc);
    for copy in 0..looked.texts.len() {
        if is_lacking(value, looked.texts.get(copy), looked.inside[copy]) {
            numbers.push(copy as u32 + 1)?;
        }
    }
    Ok(Numbers::new(numbers))
}

// Whether a copy lacks the value.
fn is_lacking(value: Option<&[u8]>, text: Option<&[u8]>, inside: bool) -> bool
    ensures { result ≡ lacks (option_copied value.entry) (option_copied text.entry) inside }
{
    match (value, text) {
        (None, given) => given.is_none(),
        (Some(_), None) => true,
        (Some(value), Some(given)) => !(inside && given == value),
    }
}
