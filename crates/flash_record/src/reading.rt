//! Reading the record of a page.

ghost use Rattle.std.specs.Prelude.{◌≡◌, MatchOption, IfSome, Some, None, length};
ghost use Rattle.flash_record.specs.PageRecord.{record_in};
ghost use Rattle.flash_record.specs.Stated.{stated};

use byteorder::{ByteOrder, LittleEndian};
use hash_guard::verify;

/// How many bytes of a file a record keeps.
pub const RECORD_BYTES: usize = 256;

// The bytes of a record's body.
pub(crate) const BODY: usize = 272;

// The place of the file's bytes in the body.
pub(crate) const BYTES_AT: usize = 16;

/// What a record says.
#[derive(Clone, Copy, Debug)]
pub struct Record<'a> {
    /// At least 1; of two records of one page of a file the one with the greater number is newer.
    pub sequence: u64,
    /// The number of the file.
    pub file: u32,
    /// Which page of the file it is, from 0; it begins at the byte `256 * page`.
    pub page: u32,
    /// How many bytes the file had.
    pub len: u64,
    /// The 256 bytes of the page.
    pub bytes: &'a [u8],
}

/// The record that a page of flash is; `None` exactly where it is none. `found` is the record that is answered.
pub fn read_record(page: &[u8]) -> Option<Record<'_>>
    ensures record { MatchOption result (record_in page.now ≡ None)
        (λ found. record_in page.now ≡ Some (stated found)) }
    ensures long { IfSome result (λ found. length found.bytes.now ≡ 256) }
{
    match verify(page) {
        None => None,
        Some(found) => {
            if found.body.len() != BODY {
                return None;
            }
            Some(Record {
                sequence: found.generation,
                file: LittleEndian::read_u32(found.body),
                page: LittleEndian::read_u32(&found.body[4..]),
                len: LittleEndian::read_u64(&found.body[8..]),
                bytes: &found.body[BYTES_AT..],
            })
        }
    }
}
