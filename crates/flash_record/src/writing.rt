//! Writing the page that is a record.

ghost use Rattle.std.specs.Prelude.{◌≡◌, ◌≤◌, Some, drop, length, replicate};
ghost use Rattle.flash_record.specs.PageRecord.{record_in, record_body, record_numbers};

use crate::reading::{BODY, BYTES_AT, RECORD_BYTES};
use byteorder::{ByteOrder, LittleEndian};
use flash_model::{BLANK_PAGE, PAGE_BYTES};
use hash_guard::{HEADER, seal_into};

/// The page of flash that keeps these bytes, the page `page` of the file `file` of `len` bytes, under this sequence
/// number. After the text, which has 316 bytes (44 of the header and 272 of the body), the other 196 are 255, as in a
/// blank page.
pub fn record_page(
    sequence: u64,
    file: u32,
    page: u32,
    len: u64,
    bytes: &[u8; RECORD_BYTES],
) -> [u8; PAGE_BYTES]
    requires { 1 ≤ sequence }
    ensures long { length result ≡ 512 }
    ensures behind { drop 316 result ≡ replicate 196 255 }
    ensures record { record_in result ≡ Some (record {
      sequence = sequence;
      file = file;
      page = page;
      len = len;
      bytes =
          bytes.now;
    }) }
{
    let mut body = [0; BODY];
    write_body(&mut body, file, page, len, bytes);
    let mut made = BLANK_PAGE;
    let (text, _behind) = made.split_at_mut(HEADER + BODY);
    seal_into(text, sequence, &body);
    made
}

// Writes the body of a record.
fn write_body(body: &mut [u8], file: u32, page: u32, len: u64, bytes: &[u8])
    requires bytes { length bytes.now ≡ 256 }
    requires room { length body.old ≡ 272 }
    ensures { body.new ≡ record_body file page len bytes.now }
{
    let (numbers, content) = body.split_at_mut(BYTES_AT);
    write_numbers(numbers, file, page, len);
    content.copy_from_slice(bytes);
}

// Writes the numbers of a record.
fn write_numbers(numbers: &mut [u8], file: u32, page: u32, len: u64)
    requires { length numbers.old ≡ 16 }
    ensures { numbers.new ≡ record_numbers file page len }
{
    let (file_bytes, rest) = numbers.split_at_mut(4);
    let (page_bytes, len_bytes) = rest.split_at_mut(4);
    LittleEndian::write_u32(file_bytes, file);
    LittleEndian::write_u32(page_bytes, page);
    LittleEndian::write_u64(len_bytes, len);
}
