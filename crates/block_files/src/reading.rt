//! What the copies of a content hold.

ghost use Rattle.std.specs.Prelude.{◌≡◌, ◌≢◌, ◌<◌, ◌≤◌, ◌+◌, ◌*◌, ◌↔◌, ℕ, IsTrue, IfOk, IfSome, IsSomeAnd, OnOk, OnErr};
ghost use Rattle.std.specs.Prelude.{IsErrOf, length, map, min, take, drop, slice_index, None};
ghost use Rattle.std.specs.List.{range_with_len};
ghost use Rattle.std.specs.Option.{option_map};
ghost use Rattle.per_base.specs.Causes.{Rose};
ghost use Rattle.disk_model.specs.Place.{area};
ghost use Rattle.disk_model.specs.Medium.{Elapses, OnlyReads};
ghost use Rattle.block_files.specs.Areas.{joined, is_within, has_all_bytes};
ghost use Rattle.block_files.specs.Contents.{counting, contents, first_content, HaveSize};
ghost use Rattle.block_files.specs.States.{AreOfFirst, AreStatesOf};

use crate::errors::BlobError;
use crate::hashing::{Hashed, hash_from};
use crate::parts::count_blocks;
use crate::texts::Texts;
use disk_model::{Disk, DiskFailed, Place};
use per_base::BLOCK;
use sha2::Sha256;
use std::alloc::Global;

/// How many bytes of a further copy are compared at a time.
const PIECE: usize = 65_536;

/// In how many blocks those are.
const PIECE_BLOCKS: usize = 256;

/// What each copy of a content gives, in order: its bytes where they have the hash, and whether its file has them all.
#[derive(Drop)]
pub(crate) struct Looked {
    /// For each copy, its bytes where they have the hash.
    pub(crate) texts: Texts,
    /// For each copy, whether its area file has all bytes.
    pub(crate) inside: Vec<bool>,
    /// States of the hasher on the way through the first of the texts.
    pub(crate) states: Vec<Sha256>,
}

/// What one copy gives: its bytes where they have the hash, and states of the hasher on the way through them.
#[derive(Drop)]
struct ReadText {
    text: Option<Vec<u8>>,
    states: Vec<Sha256>,
}

// Looks at every copy of a content. Once a copy counts, each further one is compared with it piece by piece, and read
// whole only where it differs.
pub(crate) fn look<D: Disk>(
    alloc: Global,
    disk: &mut D,
    place: Place,
    blocks: &[u32],
    len: u32,
    hash: &[u8; 32],
) -> Result<Looked, BlobError>
    ensures texts { IsTrue D.told → IfOk result (λ looked. looked.texts
        ≡ contents place blocks.now len hash.now (D.medium disk.old).image) }
    ensures inside { IsTrue D.told → IfOk result (λ looked. looked.inside.items
        ≡ map (λ c. has_all_bytes ((D.medium disk.old).image (area place c)) blocks.now len)
        (range_with_len 0 place.copies)) }
    ensures copies { IfOk result (λ looked. (length looked.texts ≡ place.copies)
        × (length looked.inside.items ≡ place.copies)) }
    ensures size { IfOk result (λ looked. HaveSize (min len (256 * length blocks.now)) looked.texts) }
    ensures states { IfOk result (λ looked. AreOfFirst looked.texts looked.states.items) }
    ensures reads { OnlyReads (D.medium disk.old) (D.medium disk.new) }
    ensures time { Elapses (D.medium disk.old) (D.medium disk.new) }
    ensures cause { IsErrOf result BlobError.Device → Rose (D.medium disk.old).faults (D.medium disk.new).faults }
    ensures passes { OnOk result ((D.medium disk.new).faults ≡ (D.medium disk.old).faults) }
    ensures fed { IsErrOf result BlobError.OutOfMemory → (D.medium disk.new).faults ≡ (D.medium disk.old).faults }
{
    let mut texts = Texts::new(alloc);
    let mut inside = Vec::new(alloc);
    let mut states = Vec::new(alloc);
    let mut room = Vec::new(alloc);
    for copy in 0..place.copies {
        let file = place.area(copy);
        if has_first(disk, file, blocks, &texts, &mut room)? {
            texts.push_first()?;
        } else {
            let read = read_text(alloc, disk, file, blocks, len, hash)?;
            states = first_states(&texts, states, read.states);
            texts.push(read.text)?;
        }
        let size = disk.size(file)?;
        inside.push(is_inside(size, blocks, len as usize))?;
    }
    Ok(Looked {
        texts,
        inside,
        states,
    })
}

// The states to keep: those at hand once some text has the hash, and until then those of the next.
fn first_states(texts: &Texts, states: Vec<Sha256>, next: Vec<Sha256>) -> Vec<Sha256>
    ensures next { first_content texts.now ≡ None → result ≡ next }
    ensures stay { first_content texts.now ≢ None → result ≡ states }
{
    match texts.first() {
        None => {
            drop(states);
            next
        }
        Some(_) => {
            drop(next);
            states
        }
    }
}

// Whether a copy has the bytes of the first copy that counts. The room grows to a piece of them.
fn has_first<D: Disk>(
    disk: &mut D,
    file: u32,
    blocks: &[u32],
    texts: &Texts,
    room: &mut Vec<u8>,
) -> Result<bool, BlobError>
    requires { IfSome (first_content texts.now) (λ first. length first ≤ 256 * length blocks.now) }
    ensures same { IsTrue D.told → IfOk result (λ same. IsTrue same ↔ IsSomeAnd (first_content texts.now)
        (λ first. joined ((D.medium disk.old).image file) blocks.now (length first) ≡ first)) }
    ensures some { IfOk result (λ same. IsTrue same → first_content texts.now ≢ None) }
    ensures reads { OnlyReads (D.medium disk.old) (D.medium disk.new) }
    ensures time { Elapses (D.medium disk.old) (D.medium disk.new) }
    ensures cause { IsErrOf result BlobError.Device → Rose (D.medium disk.old).faults (D.medium disk.new).faults }
    ensures passes { OnOk result ((D.medium disk.new).faults ≡ (D.medium disk.old).faults) }
    ensures fed { IsErrOf result BlobError.OutOfMemory → (D.medium disk.new).faults ≡ (D.medium disk.old).faults }
{
    let Some(first) = texts.first() else {
        return Ok(false);
    };
    room.resize(first.len().min(PIECE), 0)?;
    let same = has_bytes(disk, file, blocks, first, room)?;
    Ok(same)
}

// Whether the blocks have these bytes. A piece of them at a time is read into the room.
fn has_bytes<D: Disk>(
    disk: &mut D,
    file: u32,
    blocks: &[u32],
    bytes: &[u8],
    room: &mut [u8],
) -> Result<bool, DiskFailed>
    requires blocks { length bytes.now ≤ 256 * length blocks.now }
    requires room { min (length bytes.now) 65536 ≤ length room.old }
    ensures same { IsTrue D.told → IfOk result (λ same. IsTrue same
        ↔ (joined ((D.medium disk.old).image file) blocks.now (length bytes.now) ≡ bytes.now)) }
    ensures reads { OnlyReads (D.medium disk.old) (D.medium disk.new) }
    ensures time { Elapses (D.medium disk.old) (D.medium disk.new) }
    ensures cause { OnErr result (Rose (D.medium disk.old).faults (D.medium disk.new).faults) }
    ensures passes { OnOk result ((D.medium disk.new).faults ≡ (D.medium disk.old).faults) }
{
    for i in 0..bytes.len().div_ceil(PIECE) {
        let piece = piece_at(bytes, i);
        if !has_piece(disk, file, &blocks[PIECE_BLOCKS * i..], piece, room)? {
            return Ok(false);
        }
    }
    Ok(true)
}

// The i-th piece of the bytes.
fn piece_at(bytes: &[u8], i: usize) -> &[u8]
    requires { 65536 * i ≤ length bytes.now }
    ensures { result.now ≡ take 65536 (drop (65536 * i) bytes.now) }
{
    let rest = &bytes[PIECE * i..];
    &rest[..PIECE.min(rest.len())]
}

// Whether the blocks begin with this piece, which has room.
fn has_piece<D: Disk>(
    disk: &mut D,
    file: u32,
    blocks: &[u32],
    piece: &[u8],
    room: &mut [u8],
) -> Result<bool, DiskFailed>
    requires blocks { length piece.now ≤ 256 * length blocks.now }
    requires room { length piece.now ≤ length room.old }
    ensures same { IsTrue D.told → IfOk result (λ same. IsTrue same
        ↔ (joined ((D.medium disk.old).image file) blocks.now (length piece.now) ≡ piece.now)) }
    ensures reads { OnlyReads (D.medium disk.old) (D.medium disk.new) }
    ensures time { Elapses (D.medium disk.old) (D.medium disk.new) }
    ensures cause { OnErr result (Rose (D.medium disk.old).faults (D.medium disk.new).faults) }
    ensures passes { OnOk result ((D.medium disk.new).faults ≡ (D.medium disk.old).faults) }
{
    let read = &mut room[..piece.len()];
    read_runs(disk, file, blocks, read)?;
    Ok(*read == *piece)
}

// What one copy gives.
fn read_text<D: Disk>(
    alloc: Global,
    disk: &mut D,
    file: u32,
    blocks: &[u32],
    len: u32,
    hash: &[u8; 32],
) -> Result<ReadText, BlobError>
    ensures text { IsTrue D.told → IfOk result (λ read. option_map (λ t. t.items) read.text
        ≡ counting ((D.medium disk.old).image file) blocks.now len hash.now) }
    ensures size { IfOk result (λ read. IfSome read.text (λ t. length t.items ≡ min len (256 * length blocks.now))) }
    ensures states { IfOk result (λ read. IfSome read.text (λ t. AreStatesOf t.items read.states.items)) }
    ensures reads { OnlyReads (D.medium disk.old) (D.medium disk.new) }
    ensures time { Elapses (D.medium disk.old) (D.medium disk.new) }
    ensures cause { IsErrOf result BlobError.Device → Rose (D.medium disk.old).faults (D.medium disk.new).faults }
    ensures passes { OnOk result ((D.medium disk.new).faults ≡ (D.medium disk.old).faults) }
    ensures fed { IsErrOf result BlobError.OutOfMemory → (D.medium disk.new).faults ≡ (D.medium disk.old).faults }
{
    let bytes = read_joined(alloc, disk, file, blocks, len as usize)?;
    let Hashed {
        hash: found,
        states,
    } = hash_from(alloc, &bytes, &[]);
    if found != *hash {
        return Ok(ReadText { text: None, states });
    }
    Ok(ReadText {
        text: Some(bytes),
        states,
    })
}

// The bytes of the blocks, joined and cut to the length.
fn read_joined<D: Disk>(
    alloc: Global,
    disk: &mut D,
    file: u32,
    blocks: &[u32],
    len: usize,
) -> Result<Vec<u8>, BlobError>
    ensures bytes { IsTrue D.told → IfOk result (λ bytes. bytes.items
        ≡ joined ((D.medium disk.old).image file) blocks.now len) }
    ensures size { IfOk result (λ bytes. length bytes.items ≡ min len (256 * length blocks.now)) }
    ensures reads { OnlyReads (D.medium disk.old) (D.medium disk.new) }
    ensures time { Elapses (D.medium disk.old) (D.medium disk.new) }
    ensures cause { IsErrOf result BlobError.Device → Rose (D.medium disk.old).faults (D.medium disk.new).faults }
    ensures passes { OnOk result ((D.medium disk.new).faults ≡ (D.medium disk.old).faults) }
    ensures fed { IsErrOf result BlobError.OutOfMemory → (D.medium disk.new).faults ≡ (D.medium disk.old).faults }
{
    let size = len.min(blocks.len().saturating_mul(BLOCK));
    let mut bytes = vec![in alloc; 0; size]?;
    read_runs(disk, file, blocks, &mut bytes)?;
    Ok(bytes)
}

// Fills `out` with the bytes of the blocks, by one read for each run of blocks that follow one another.
fn read_runs<D: Disk>(
    disk: &mut D,
    file: u32,
    blocks: &[u32],
    out: &mut [u8],
) -> Result<(), DiskFailed>
    requires room { length out.old ≤ 256 * length blocks.now }
    ensures bytes { IsTrue D.told → OnOk result (out.new
        ≡ joined ((D.medium disk.old).image file) blocks.now (length out.old)) }
    ensures reads { OnlyReads (D.medium disk.old) (D.medium disk.new) }
    ensures time { Elapses (D.medium disk.old) (D.medium disk.new) }
    ensures cause { OnErr result (Rose (D.medium disk.old).faults (D.medium disk.new).faults) }
    ensures passes { OnOk result ((D.medium disk.new).faults ≡ (D.medium disk.old).faults) }
{
    let needed = count_blocks(out.len());
    let mut next = 0;
    while next < needed {
        let end = next + count_run(&blocks[next..needed]);
        let stop = (BLOCK * end).min(out.len());
        read_from(disk, file, blocks[next], &mut out[BLOCK * next..stop])?;
        next = end;
    }
    Ok(())
}

// How many of the blocks, from the first on, follow one another.
fn count_run(blocks: &[u32]) -> usize
    ensures within { result ≤ length blocks.now }
    ensures some { 0 < length blocks.now → 0 < result }
    ensures follow { (i : ℕ) → i < result → slice_index blocks.now i ≡ slice_index blocks.now 0 + i }
    ensures longest { result < length blocks.now
        → slice_index blocks.now result ≢ slice_index blocks.now 0 + result }
{
    for i in 1..blocks.len() {
        if u64::from(blocks[i]) != u64::from(blocks[0]) + i as u64 {
            return i;
        }
    }
    blocks.len()
}

// Fills `out` with the bytes from the block on, with zeros past the file's end.
fn read_from<D: Disk>(disk: &mut D, file: u32, block: u32, out: &mut [u8]) -> Result<(), DiskFailed>
    ensures bytes { IsTrue D.told → OnOk result ((i : ℕ) → i < length out.old
        → slice_index out.new i ≡ slice_index ((D.medium disk.old).image file) (256 * block + i)) }
    ensures reads { OnlyReads (D.medium disk.old) (D.medium disk.new) }
    ensures time { Elapses (D.medium disk.old) (D.medium disk.new) }
    ensures cause { OnErr result (Rose (D.medium disk.old).faults (D.medium disk.new).faults) }
    ensures passes { OnOk result ((D.medium disk.new).faults ≡ (D.medium disk.old).faults) }
{
    let count = disk.read(file, BLOCK as u64 * u64::from(block), out)?;
    out[count..].fill(0);
    Ok(())
}

// Whether a file of this size has all bytes of a content.
fn is_inside(size: u64, blocks: &[u32], len: usize) -> bool
    ensures { result ≡ is_within size blocks.now len }
{
    let mut left = len;
    for number in blocks {
        if left == 0 {
            return true;
        }
        if BLOCK as u64 * u64::from(*number) + left.min(BLOCK) as u64 > size {
            return false;
        }
        left = left.saturating_sub(BLOCK);
    }
    true
}
