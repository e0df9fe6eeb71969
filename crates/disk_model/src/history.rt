//! The files of a disk in memory, and the record of its calls.

ghost use Rattle.std.specs.Prelude.{◌≡◌, ◌≤◌, ◌<◌, ◌+◌, ◌-◌, ◌*◌, ◌==◌, ◌↔◌, ◌⊎◌, ℕ, [], IsTrue, IfOk, OnOk, OnErr};
ghost use Rattle.std.specs.Prelude.{min, length, take, drop, slice_index, slice_set, vec_len, if◌then◌else◌};
ghost use Rattle.std.specs.Bool.{OnTrue, OnFalse};
ghost use Rattle.disk_model.specs.Image.{Image, end_of, put_bytes, put_image};
ghost use Rattle.disk_model.specs.History.{image_of, start_image, image_after, base_after, pending_after, torn_after};
ghost use Rattle.disk_model.specs.History.{grown, grow_image, stands};

use std::alloc::{AllocError, Global};
use std::collections::BTreeMap;

/// The bytes of each file that was written.
pub type WrittenFiles = BTreeMap<u32, Vec<u8>>;

/// A call that succeeded.
#[derive(Drop)]
pub enum Call {
    /// Wrote these bytes into a file from a byte on.
    Write(u32, u64, Vec<u8>),
    Sync,
    /// Read, or asked for a size.
    Read,
}

/// The bytes of a file.
pub fn bytes_of(files: &WrittenFiles, file: u32) -> &[u8]
    ensures { result.now ≡ image_of files.now file }
{
    match files.get(&file) {
        Some(bytes) => bytes,
        None => &[],
    }
}

/// A copy of the files.
pub fn copy_of(files: &WrittenFiles) -> Result<WrittenFiles, AllocError>
    ensures { IfOk result (λ copy. image_of copy ≡ image_of files.now) }
{
    let copy = files.clone()?;
    Ok(copy)
}

/// The files as a record begins: the copy of them, or what they are where no copy was made.
pub fn begun(start: Option<WrittenFiles>, files: WrittenFiles) -> WrittenFiles
    ensures { image_of result ≡ start_image files start }
{
    match start {
        Some(start) => start,
        None => files,
    }
}

/// Copies the bytes from the byte `at` on to the start of `out`, as many as there are and as it has room for, and says
/// how many.
pub fn read_from(bytes: &[u8], at: u64, out: &mut [u8]) -> usize
    ensures count { result ≡ min (length out.old) (length bytes.now - at) }
    ensures bytes { take result out.new ≡ take result (drop at bytes.now) }
{
    if at >= bytes.len() as u64 {
        return 0;
    }
    let rest = &bytes[at as usize..];
    let count = out.len().min(rest.len());
    for i in 0..count {
        out[i] = rest[i];
    }
    count
}

/// Writes the bytes into a file from the byte `at` on, whole; what fails changes nothing.
pub fn put(
    alloc: Global,
    files: &mut WrittenFiles,
    file: u32,
    at: u64,
    bytes: &[u8],
) -> Result<(), AllocError>
    ensures ok { OnOk result (image_of files.new ≡ put_image (image_of files.old) file at bytes.now) }
    ensures err { OnErr result (image_of files.new ≡ image_of files.old) }
{
    match files.get_mut(&file) {
        Some(old) => write_into(old, at, bytes),
        None => {
            let mut new = Vec::new(alloc);
            write_into(&mut new, at, bytes)?;
            files.insert(file, new)?;
            Ok(())
        }
    }
}

/// Makes a file at least `len` bytes long, with zeros past its old end; what fails changes nothing.
pub fn grow(
    alloc: Global,
    files: &mut WrittenFiles,
    file: u32,
    len: usize,
) -> Result<(), AllocError>
    ensures ok { OnOk result (image_of files.new ≡ grow_image (image_of files.old) file len) }
    ensures err { OnErr result (image_of files.new ≡ image_of files.old) }
{
    match files.get_mut(&file) {
        Some(old) => lengthen(old, len),
        None => {
            let mut new = Vec::new(alloc);
            lengthen(&mut new, len)?;
            files.insert(file, new)?;
            Ok(())
        }
    }
}

/// Sets the byte at the place `at` of a file, if the file is that long, and says whether it is.
pub fn set_byte(files: &mut WrittenFiles, file: u32, at: u64, byte: u8) -> bool
    ensures within { IsTrue result ↔ (at < length (image_of files.old file)) }
    ensures set { OnTrue result ((f : ℕ) → image_of files.new f
        ≡ (if f == file then slice_set (image_of files.old f) at byte else image_of files.old f)) }
    ensures none { OnFalse result (files.new ≡ files.old) }
{
    if at >= bytes_of(files, file).len() as u64 {
        return false;
    }
    match files.get_mut(&file) {
        Some(bytes) => {
            bytes[at as usize] = byte;
            true
        }
        None => false,
    }
}

/// Replays the calls over the files as they were before the first one.
pub fn replay(alloc: Global, files: &mut WrittenFiles, calls: &[Call]) -> Result<(), AllocError>
    ensures { OnOk result (image_of files.new ≡ image_after calls.now (image_of files.old)) }
{
    for call in calls {
        if let Call::Write(file, at, bytes) = call {
            put(alloc, files, *file, *at, bytes)?;
        }
    }
    Ok(())
}

/// Replays the writes, each by its bit of `pattern`: those with a one in full, and of the others only the new length of
/// their file.
pub fn replay_torn(
    alloc: Global,
    files: &mut WrittenFiles,
    calls: &[Call],
    pattern: u64,
) -> Result<(), AllocError>
    ensures { OnOk result (image_of files.new ≡ torn_after pattern 0 calls.now (image_of files.old)) }
{
    let mut i = 0;
    for call in calls {
        if let Call::Write(file, at, bytes) = call {
            tear(alloc, files, *file, *at, bytes, is_standing(pattern, i))?;
            i += 1;
        }
    }
    Ok(())
}

/// How many calls there are up to the last sync, it included.
pub fn synced(calls: &[Call]) -> usize
    ensures within { result ≤ length calls.now }
    ensures base { (image : Image) → base_after calls.now image image ≡ image_after (take result calls.now) image }
    ensures pending { pending_after calls.now [] ≡ drop result calls.now }
{
    let mut count = 0;
    for (i, call) in calls.iter().enumerate() {
        if let Call::Sync = call {
            count = i + 1;
        }
    }
    count
}

// Whether the pattern has a one for the i-th write.
fn is_standing(pattern: u64, i: usize) -> bool
    ensures { result ≡ stands pattern i }
{
    (pattern >> (i as u64 % 64)) % 2 == 1
}

// Replays a write in full, or only the new length of its file.
fn tear(
    alloc: Global,
    files: &mut WrittenFiles,
    file: u32,
    at: u64,
    bytes: &[u8],
    whole: bool,
) -> Result<(), AllocError>
    ensures { OnOk result (image_of files.new ≡ (if whole then put_image (image_of files.old) file at bytes.now
        else grow_image (image_of files.old) file (end_of at (length bytes.now)))) }
{
    if whole {
        return put(alloc, files, file, at, bytes);
    }
    if bytes.is_empty() {
        return grow(alloc, files, file, 0);
    }
    let end = end_within(at, bytes.len())?;
    grow(alloc, files, file, end)
}

// Where that many bytes from `at` on end; beyond all places there is no memory for them.
fn end_within(at: u64, len: usize) -> Result<usize, AllocError>
    ensures { IfOk result (λ end. end ≡ at + len) }
{
    match at.checked_add(len as u64) {
        Some(end) => Ok(end as usize),
        None => Err(AllocError),
    }
}

// Writes into one file; what fails changes nothing.
fn write_into(file: &mut Vec<u8>, at: u64, bytes: &[u8]) -> Result<(), AllocError>
    ensures ok { OnOk result (file.new.items ≡ put_bytes file.old.items at bytes.now) }
    ensures err { OnErr result (file.new.items ≡ file.old.items) }
{
    if bytes.is_empty() {
        return Ok(());
    }
    let end = end_within(at, bytes.len())?;
    lengthen(file, end)?;
    overwrite(file, at as usize, bytes);
    Ok(())
}

// Makes a file at least `len` bytes long, with zeros past its old end; what fails changes nothing.
fn lengthen(file: &mut Vec<u8>, len: usize) -> Result<(), AllocError>
    ensures ok { OnOk result (file.new.items ≡ grown file.old.items len) }
    ensures err { OnErr result (file.new.items ≡ file.old.items) }
{
    if file.len() < len {
        file.resize(len, 0)?;
    }
    Ok(())
}

// Writes over bytes that are there.
fn overwrite(file: &mut Vec<u8>, at: usize, bytes: &[u8])
    requires { at + length bytes.now ≤ vec_len file.old }
    ensures len { length file.new.items ≡ length file.old.items }
    ensures inside { (j : ℕ) → j < length bytes.now → slice_index file.new.items (at + j) ≡ slice_index bytes.now j }
    ensures outside { (i : ℕ) → (i < at) ⊎ (at + length bytes.now ≤ i)
        → slice_index file.new.items i ≡ slice_index file.old.items i }
{
    for (j, byte) in bytes.iter().enumerate() {
        file[at + j] = *byte;
    }
}
