//! The bytes of the files of a folder.

ghost use Rattle.std.specs.Prelude.{◌≡◌, ◌≢◌, ◌≤◌, ◌<◌, ◌+◌, ◌-◌, ◌⊎◌, ℕ, IfOk, OnOk, OnErr, min, length, take, drop};
ghost use Rattle.std.specs.Prelude.{[], IsFalse, slice_index, vec_len, Contains};
ghost use Rattle.disk_model.specs.Image.{put_bytes, put_image};
ghost use Rattle.disk_model.specs.History.{image_of, grown};

use std::alloc::{AllocError, Global};
use std::collections::BTreeMap;

/// The bytes of each file that the folder has.
pub type Files = BTreeMap<u32, Vec<u8>>;

/// The bytes of a file.
pub fn bytes_of(files: &Files, file: u32) -> &[u8]
    ensures { result.now ≡ image_of files.now file }
{
    match files.get(&file) {
        Some(bytes) => bytes,
        None => &[],
    }
}

/// A copy of the files.
pub fn copy_of(files: &Files) -> Result<Files, AllocError>
    ensures { IfOk result (λ copy. image_of copy ≡ image_of files.now) }
{
    let copy = files.clone()?;
    Ok(copy)
}

/// Whether the folder has the file.
pub fn has(files: &Files, file: u32) -> bool
    ensures { IsFalse result → image_of files.now file ≡ [] }
{
    match files.get(&file) {
        Some(_) => true,
        None => false,
    }
}

/// The numbers of the files.
pub fn numbers_of(alloc: Global, files: &Files) -> Result<Vec<u32>, AllocError>
    ensures { IfOk result (λ numbers. (f : ℕ) → ¬ (Contains numbers.items f) → image_of files.now f ≡ []) }
{
    let mut numbers = Vec::new(alloc);
    for file in files.keys() {
        numbers.push(*file)?;
    }
    Ok(numbers)
}

/// Copies what is from `at` on, as much as there is and as there is room for, and says how much that is.
pub fn read_from(bytes: &[u8], at: u64, out: &mut [u8]) -> usize
    ensures count { result ≡ min (length out.old) (length bytes.now - at) }
    ensures bytes { take result out.new ≡ take result (drop at bytes.now) }
{
    if at >= bytes.len() as u64 {
        return 0;
    }
    let rest = &bytes[at as usize..];
    let count = out.len().min(rest.len());
    for i in 0..count {
        out[i] = rest[i];
    }
    count
}

/// Adds a file without a byte, which is not there.
pub fn add(alloc: Global, files: &mut Files, file: u32) -> Result<(), AllocError>
    requires { image_of files.old file ≡ [] }
    ensures { image_of files.new ≡ image_of files.old }
{
    files.insert(file, Vec::new(alloc))?;
    Ok(())
}

/// Writes into a file; what fails changes nothing.
pub fn put(
    alloc: Global,
    files: &mut Files,
    file: u32,
    at: u64,
    bytes: &[u8],
) -> Result<(), AllocError>
    ensures ok { OnOk result (image_of files.new ≡ put_image (image_of files.old) file at bytes.now) }
    ensures err { OnErr result (image_of files.new ≡ image_of files.old) }
{
    match files.get_mut(&file) {
        Some(old) => write_into(old, at, bytes),
        None => {
            let mut new = Vec::new(alloc);
            write_into(&mut new, at, bytes)?;
            files.insert(file, new)?;
            Ok(())
        }
    }
}

/// Where that many bytes from `at` on end; beyond all places there is no memory for them.
fn end_within(at: u64, len: usize) -> Result<usize, AllocError>
    ensures { IfOk result (λ end. end ≡ at + len) }
{
    match at.checked_add(len as u64) {
        Some(end) => Ok(end as usize),
        None => Err(AllocError),
    }
}

/// Writes into one file; what fails changes nothing.
fn write_into(file: &mut Vec<u8>, at: u64, bytes: &[u8]) -> Result<(), AllocError>
    ensures ok { OnOk result (file.new.items ≡ put_bytes file.old.items at bytes.now) }
    ensures err { OnErr result (file.new.items ≡ file.old.items) }
{
    if bytes.is_empty() {
        return Ok(());
    }
    let end = end_within(at, bytes.len())?;
    lengthen(file, end)?;
    overwrite(file, at as usize, bytes);
    Ok(())
}

/// Makes a file at least `len` bytes long, with zeros past its old end; what fails changes nothing.
fn lengthen(file: &mut Vec<u8>, len: usize) -> Result<(), AllocError>
    ensures ok { OnOk result (file.new.items ≡ grown file.old.items len) }
    ensures err { OnErr result (file.new.items ≡ file.old.items) }
{
    if file.len() < len {
        file.resize(len, 0)?;
    }
    Ok(())
}

/// Writes over bytes that are there.
fn overwrite(file: &mut Vec<u8>, at: usize, bytes: &[u8])
    requires { at + length bytes.now ≤ vec_len file.old }
    ensures len { length file.new.items ≡ length file.old.items }
    ensures inside { (j : ℕ) → j < length bytes.now → slice_index file.new.items (at + j) ≡ slice_index bytes.now j }
    ensures outside { (i : ℕ) → (i < at) ⊎ (at + length bytes.now ≤ i)
        → slice_index file.new.items i ≡ slice_index file.old.items i }
{
    for (j, byte) in bytes.iter().enumerate() {
        file[at + j] = *byte;
    }
}
