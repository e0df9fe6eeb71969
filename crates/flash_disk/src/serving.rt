//! Reads and writes of the bytes of files, page by page.

ghost use Rattle.std.specs.Prelude.{◌≡◌, ◌⊎◌, ◌↔◌, ◌+◌, ◌-◌, ◌*◌, ◌/◌, ◌≤◌, ◌<◌, ◌^◌, ℕ, IsTrue, IsFalse, IfOk, OnOk};
ghost use Rattle.std.specs.Prelude.{None, length, min, max, take, drop, nat_lt, slice_index, if◌then◌else◌};
ghost use Rattle.flash_disk.specs.Accounts.{Accounts};
ghost use Rattle.flash_disk.specs.Apart.{copy_of};
ghost use Rattle.flash_disk.specs.KeepsApart.{KeepsApart};
ghost use Rattle.flash_disk.specs.Steps.{LearnsNothing, IsSure, AddsRecords};
ghost use Rattle.disk_model.specs.Image.{put_image};
ghost use Rattle.flash_record.specs.PageRecord.{record_in};
ghost use Rattle.flash_disk.specs.Newest.{places};
ghost use Rattle.flash_disk.specs.FlashFiles.{record_byte, file_byte, file_len, flash_files};
ghost use Rattle.std.specs.Int.{div_ceil};
ghost use Rattle.flash_disk.specs.Known.{len_known, limit_of, page_len};
ghost use Rattle.flash_disk.specs.Counted.{missing};
ghost use Rattle.flash_disk.specs.Entries.{SameEntries, Occupies, Affords};
ghost use Rattle.flash_disk.specs.Learnt.{IsContent, HasPlace, KnowsLengths};
ghost use Rattle.flash_disk.specs.Does.{Does};
ghost use Rattle.flash_disk.specs.PutPart.{PutPart};
ghost use Rattle.flash_disk.specs.Standing.{DenotesFiles};
ghost use Rattle.flash_disk.specs.Writes.{LeavesTorn, WritesInto, with_write};

use crate::layer::Layer;
use crate::table::{FilePage, end_of_bytes};
use disk_model::DiskFailed;
use flash_model::{BLANK_PAGE, Flash};
use flash_record::{RECORD_BYTES, read_record};

/// Where the greatest file ends.
pub(crate) const MAX_END: u64 = 1_099_511_627_776;

/// The bytes of a page of a file.
const PAGE: u64 = 256;

impl<F: Flash> Layer<F> {
    ghost use Rattle.flash_disk.specs.Sound.{files_on, IsDescribedBy, LeavesPut, ShowsZeros, WipesPage};
    ghost use Rattle.flash_disk.specs.OwnFaults.{StopsAdding, EndsTooLate, WantsTooMany, IsAllowed, TakesPages};

    // The bytes of a page of a file, with zeros past the end of the file.
    fn content(&mut self, key: FilePage) -> Result<[u8; RECORD_BYTES], DiskFailed>
        ensures bytes { IsTrue F.told → KnowsLengths (F.medium self.old.flash).state.pages
            (places (F.medium self.old.flash).blocks) self.old.state.table
            → IfOk result (IsContent (F.medium self.old.flash).state.pages (places (F.medium self.old.flash).blocks)
            key) }
        ensures reads { LearnsNothing F.told F.medium self.old self.new result }
    {
        let Some(newest) = self.state.table.find(key) else {
            return Ok(zeros());
        };
        let mut page = BLANK_PAGE;
        self.read_page(newest.place, &mut page)?;
        let len = self.state.table.len_of(key.file);
        Ok(cut(&page, len.saturating_sub(key.page.saturating_mul(PAGE))))
    }

    // Writes into one page of a file.
    fn write_page(
        &mut self,
        file: u32,
        page: u32,
        len: u64,
        from: usize,
        bytes: &[u8],
    ) -> Result<(), DiskFailed>
        requires within { from + length bytes.now ≤ 256 }
        requires some { 0 < length bytes.now }
        requires end { 256 * page + from + length bytes.now ≤ len }
        requires ready { IsSure F.told F.medium self.old }
        requires place { IsTrue F.told → HasPlace self.old.state.table (record { file = file; page = page }) }
        requires no_shorter { IsTrue F.told → length (files_on (F.medium self.old.flash) file) ≤ len }
        requires grows { IsTrue F.told → ShowsZeros (F.medium self.old.flash) file len }
        ensures adds { AddsRecords F.told F.medium 1 self.old self.new result }
        ensures put { IsTrue F.told → OnOk result (PutPart file (256 * page + from) bytes.now len
            (files_on (F.medium self.old.flash)) (files_on (F.medium self.new.flash))) }
        ensures does { IsTrue F.told → Does (LeavesPut file (256 * page + from) bytes.now len (F.medium self.old.flash))
            (F.medium self.old.flash) (F.medium self.new.flash) }
        ensures apart { IsTrue F.told → KeepsApart (copy_of file) (F.medium self.old.flash) (F.medium self.new.flash) }
        ensures rises { OnOk result (self.old.state.sequence < self.new.state.sequence) }
        ensures entries { IsTrue F.told → OnOk result (Occupies self.old.state.table self.new.state.table
            (record { file = file; page = page })) }
        ensures no_rivals { IsTrue F.told → OnOk result (IsFalse self.old.state.has_rivals) }
        ensures cleared { OnOk result (IsTrue self.new.state.cleared) }
    {
        let key = FilePage {
            file,
            page: page as u64,
        };
        let mut content = self.content(key)?;
        copy_part(&mut content, from, bytes, 0, bytes.len());
        self.append(file, page, len, &content)
    }

    // Rewrites the records of a file that have bytes past its end and before this byte, without those bytes, so that
    // they do not show once the file is longer.
    fn wipe_strays(&mut self, file: u32, until: u64) -> Result<(), DiskFailed>
        requires end { until ≤ 1099511627776 }
        requires ready { IsSure F.told F.medium self.old }
        ensures adds { AddsRecords F.told F.medium (div_ceil until 256) self.old self.new result }
        ensures wiped { IsTrue F.told → OnOk result (ShowsZeros (F.medium self.new.flash) file until) }
        ensures does { IsTrue F.told → Does (DenotesFiles (F.medium self.old.flash))
            (F.medium self.old.flash) (F.medium self.new.flash) }
        ensures apart { IsTrue F.told → KeepsApart (copy_of file) (F.medium self.old.flash) (F.medium self.new.flash) }
        ensures entries { IsTrue F.told → OnOk result (SameEntries self.old.state.table self.new.state.table) }
    {
        let len = self.state.table.len_of(file);
        let end = self.state.stray_end.min(until);
        if end <= len {
            return Ok(());
        }
        for page in len / PAGE..end.div_ceil(PAGE) {
            self.wipe_stray(file, page as u32, len)?;
        }
        Ok(())
    }

    // Rewrites a record that has bytes past the end of its file without them.
    fn wipe_stray(&mut self, file: u32, page: u32, len: u64) -> Result<(), DiskFailed>
        requires len { IsTrue F.told → len ≡ len_known self.old.state.table file }
        requires ready { IsSure F.told F.medium self.old }
        ensures adds { AddsRecords F.told F.medium 1 self.old self.new result }
        ensures wiped { IsTrue F.told → OnOk result (WipesPage (F.medium self.old.flash) (F.medium self.new.flash) file
            page) }
        ensures does { IsTrue F.told → Does (DenotesFiles (F.medium self.old.flash))
            (F.medium self.old.flash) (F.medium self.new.flash) }
        ensures apart { IsTrue F.told → KeepsApart (copy_of file) (F.medium self.old.flash) (F.medium self.new.flash) }
        ensures entries { IsTrue F.told → OnOk result (SameEntries self.old.state.table self.new.state.table) }
    {
        let key = FilePage {
            file,
            page: page as u64,
        };
        let Some(newest) = self.state.table.find(key) else {
            return Ok(());
        };
        if end_of_bytes(key, newest) <= len {
            return Ok(());
        }
        let content = self.content(key)?;
        self.append(file, page, len, &content)
    }

    // Whether there is room for a write that ends here.
    fn has_room(&self, file: u32, at: u64, end: u64) -> bool
        requires end { end ≤ 1099511627776 }
        requires ordered { at ≤ end }
        ensures { IsTrue result ↔ (missing self.now.state.table file (at / 256) (div_ceil end 256 - at / 256)
            ≤ limit_of self.now.state.table - page_len self.now.state.table) }
    {
        let mut new: usize = 0;
        for page in at / PAGE..end.div_ceil(PAGE) {
            let key = FilePage { file, page };
            if self.state.table.find(key).is_none() {
                new = new.saturating_add(1);
            }
        }
        new <= self.state.table.room()
    }

    // Writes bytes page by page.
    fn write_pages(&mut self, file: u32, at: u64, bytes: &[u8], len: u64) -> Result<(), DiskFailed>
        requires end { at + length bytes.now ≤ 1099511627776 }
        requires within { at + length bytes.now ≤ len }
        requires ready { IsSure F.told F.medium self.old }
        requires grows { IsTrue F.told → ShowsZeros (F.medium self.old.flash) file len }
        requires len { IsTrue F.told → len ≡ max (length (files_on (F.medium self.old.flash) file))
            (at + length bytes.now) }
        requires affords { IsTrue F.told → Affords self.old.state.table file (at / 256)
            (div_ceil (at + length bytes.now) 256 - at / 256) }
        ensures adds { AddsRecords F.told F.medium (length bytes.now) self.old self.new result }
        ensures put { IsTrue F.told → OnOk result (0 < length bytes.now
            → files_on (F.medium self.new.flash) ≡ put_image (files_on (F.medium self.old.flash)) file at bytes.now) }
        ensures does { IsTrue F.told → Does (LeavesTorn file at (length bytes.now) (F.medium self.old.flash))
            (F.medium self.old.flash) (F.medium self.new.flash) }
        ensures apart { IsTrue F.told → KeepsApart (copy_of file) (F.medium self.old.flash) (F.medium self.new.flash) }
        ensures rises { OnOk result (length bytes.now + 256 * self.old.state.sequence ≤ 256 * self.new.state.sequence) }
        ensures no_rivals { IsTrue F.told → OnOk result (0 < length bytes.now → IsFalse self.old.state.has_rivals) }
        ensures cleared { OnOk result (0 < length bytes.now → IsTrue self.new.state.cleared) }
        ensures takes { IsTrue F.told → OnOk result (page_len self.new.state.table
            ≤ page_len self.old.state.table + missing self.old.state.table file (at / 256)
            (div_ceil (at + length bytes.now) 256 - at / 256)) }
    {
        let mut done = 0;
        while done < bytes.len() {
            let start = at + done as u64;
            let from = (start % PAGE) as usize;
            let count = (RECORD_BYTES - from).min(bytes.len() - done);
            self.write_page(
                file,
                (start / PAGE) as u32,
                len,
                from,
                &bytes[done..done + count],
            )?;
            done += count;
        }
        Ok(())
    }

    // Writes bytes into a file.
    pub(crate) fn write_file(&mut self, file: u32, at: u64, bytes: &[u8]) -> Result<(), DiskFailed>
        requires some { 0 < length bytes.now }
        requires ready { IsSure F.told F.medium self.old }
        ensures described { IsTrue F.told → IsDescribedBy (F.medium self.new.flash) self.new.state }
        ensures put { IsTrue F.told → OnOk result (files_on (F.medium self.new.flash)
            ≡ put_image (files_on (F.medium self.old.flash)) file at bytes.now) }
        ensures rises { OnOk result (length bytes.now + 256 * self.old.state.sequence ≤ 256 * self.new.state.sequence) }
        ensures writes { IsTrue F.told → WritesInto file at bytes.now (F.medium self.old.flash)
            (F.medium self.new.flash) }
        ensures apart { IsTrue F.told → KeepsApart (copy_of file) (F.medium self.old.flash) (F.medium self.new.flash) }
        ensures announced { IsTrue F.told → OnOk result ((F.medium self.new.flash).state.announced
            ≡ with_write (F.medium self.old.flash).state file at bytes.now) }
        ensures accounts { Accounts F.told F.medium (length bytes.now + div_ceil (at + length bytes.now) 256) self.old
            self.new result }
        ensures own { IsTrue F.told → (self.new.own ≡ self.old.own) ⊎ (EndsTooLate at (length bytes.now)
            ⊎ (WantsTooMany (F.medium self.old.flash) file at (length bytes.now) ⊎ StopsAdding self.new.state)) }
        ensures allowed { IsTrue F.told → OnOk result (IsAllowed (F.medium self.old.flash) file at (length bytes.now)) }
        ensures takes { IsTrue F.told → OnOk result (TakesPages (F.medium self.old.flash) (F.medium self.new.flash) file
            at (length bytes.now)) }
        ensures cleared { OnOk result (IsTrue self.new.state.cleared) }
        ensures refused { IsTrue F.told → EndsTooLate at (length bytes.now)
            ⊎ WantsTooMany (F.medium self.old.flash) file at (length bytes.now)
            → (F.medium self.new.flash).state ≡ (F.medium self.old.flash).state }
    {
        let end = match at.checked_add(bytes.len() as u64) {
            Some(end) if end <= MAX_END => end,
            _ => return Err(self.fault()),
        };
        if !self.has_room(file, at, end) {
            return Err(self.fault());
        }
        self.write_within(file, at, bytes, end)
    }

    // Writes bytes that end within the greatest file and for whose pages there is room.
    fn write_within(&mut self, file: u32, at: u64, bytes: &[u8], end: u64) -> Result<(), DiskFailed>
        requires some { 0 < length bytes.now }
        requires end { end ≡ at + length bytes.now }
        requires least { end ≤ 1099511627776 }
        requires ready { IsSure F.told F.medium self.old }
        requires room { missing self.old.state.table file (at / 256) (div_ceil end 256 - at / 256)
            ≤ limit_of self.old.state.table - page_len self.old.state.table }
        ensures described { IsTrue F.told → IsDescribedBy (F.medium self.new.flash) self.new.state }
        ensures put { IsTrue F.told → OnOk result (files_on (F.medium self.new.flash)
            ≡ put_image (files_on (F.medium self.old.flash)) file at bytes.now) }
        ensures rises { OnOk result (length bytes.now + 256 * self.old.state.sequence ≤ 256 * self.new.state.sequence) }
        ensures writes { IsTrue F.told → WritesInto file at bytes.now (F.medium self.old.flash)
            (F.medium self.new.flash) }
        ensures apart { IsTrue F.told → KeepsApart (copy_of file) (F.medium self.old.flash) (F.medium self.new.flash) }
        ensures announced { IsTrue F.told → OnOk result ((F.medium self.new.flash).state.announced
            ≡ with_write (F.medium self.old.flash).state file at bytes.now) }
        ensures accounts { Accounts F.told F.medium (length bytes.now + div_ceil (at + length bytes.now) 256) self.old
            self.new result }
        ensures own { IsTrue F.told → (self.new.own ≡ self.old.own) ⊎ StopsAdding self.new.state }
        ensures allowed { IsTrue F.told → OnOk result (IsAllowed (F.medium self.old.flash) file at (length bytes.now)) }
        ensures takes { IsTrue F.told → OnOk result (TakesPages (F.medium self.old.flash) (F.medium self.new.flash) file
            at (length bytes.now)) }
        ensures cleared { OnOk result (IsTrue self.new.state.cleared) }
    {
        if self.flash.announce(file, at, bytes).is_err() {
            return Err(DiskFailed);
        }
        let len = self.state.table.len_of(file).max(end);
        self.wipe_strays(file, end)?;
        self.write_pages(file, at, bytes, len)
    }

    // Reads from the byte `at` on as many bytes as there are, and at most as many as `out` has room for.
    pub(crate) fn read_file(
        &mut self,
        file: u32,
        at: u64,
        out: &mut [u8],
    ) -> Result<usize, DiskFailed>
        ensures count { IfOk result (λ n. n ≤ length out.old) }
        ensures bytes { IsTrue F.told → KnowsLengths (F.medium self.old.flash).state.pages
            (places (F.medium self.old.flash).blocks) self.old.state.table
            → IfOk result (λ n. (n ≡ min (length out.old) (length
            (flash_files (F.medium self.old.flash).state.pages (F.medium self.old.flash).blocks file) - at))
            × (take n out.new ≡ take n (drop at (flash_files (F.medium self.old.flash).state.pages
            (F.medium self.old.flash).blocks file)))) }
        ensures reads { LearnsNothing F.told F.medium self.old self.new result }
    {
        let count = self.bytes_from(file, at, out.len());
        self.read_pages(file, at, &mut out[..count])?;
        Ok(count)
    }

    // How many bytes a file has from the byte `at` on, but at most that many.
    fn bytes_from(&self, file: u32, at: u64, most: usize) -> usize
        ensures few { result ≤ most }
        ensures end { at + result < 2 ^ 64 }
        ensures is { IsTrue F.told → KnowsLengths (F.medium self.now.flash).state.pages
            (places (F.medium self.now.flash).blocks) self.now.state.table
            → result ≡ min most (length (flash_files (F.medium self.now.flash).state.pages
            (F.medium self.now.flash).blocks file) - at) }
    {
        let there = self.file_size(file).saturating_sub(at);
        there.min(most as u64) as usize
    }

    // How many bytes a file has.
    pub(crate) fn file_size(&self, file: u32) -> u64
        ensures { IsTrue F.told → KnowsLengths (F.medium self.now.flash).state.pages
            (places (F.medium self.now.flash).blocks)
            self.now.state.table
            → result ≡ length (flash_files (F.medium self.now.flash).state.pages (F.medium self.now.flash).blocks
            file) }
    {
        self.state.table.len_of(file)
    }

    // Reads bytes page by page.
    fn read_pages(&mut self, file: u32, at: u64, out: &mut [u8]) -> Result<(), DiskFailed>
        requires { at + length out.old < 2 ^ 64 }
        ensures bytes { IsTrue F.told → KnowsLengths (F.medium self.old.flash).state.pages
            (places (F.medium self.old.flash).blocks) self.old.state.table
            → OnOk result (at + length out.old ≤ file_len (F.medium self.old.flash).state.pages
            (places (F.medium self.old.flash).blocks) file
            → (k : ℕ) → k < length out.old
            → slice_index out.new k ≡ file_byte (F.medium self.old.flash).state.pages
            (places (F.medium self.old.flash).blocks) file (at + k)) }
        ensures reads { LearnsNothing F.told F.medium self.old self.new result }
    {
        let mut done = 0;
        while done < out.len() {
            let start = at + done as u64;
            let from = (start % PAGE) as usize;
            let count = (RECORD_BYTES - from).min(out.len() - done);
            let content = self.content(FilePage {
                file,
                page: start / PAGE,
            })?;
            copy_part(out, done, &content, from, count);
            done += count;
        }
        Ok(())
    }
}

// Copies that many bytes from a place in a page to a place in `out`.
fn copy_part(out: &mut [u8], to: usize, page: &[u8], from: usize, count: usize)
    requires room { to + count ≤ length out.old }
    requires within { from + count ≤ length page.now }
    ensures inside { (j : ℕ) → j < count → slice_index out.new (to + j) ≡ slice_index page.now (from + j) }
    ensures before { (k : ℕ) → k < to → slice_index out.new k ≡ slice_index out.old k }
    ensures after { (k : ℕ) → to + count ≤ k → slice_index out.new k ≡ slice_index out.old k }
{
    for i in 0..count {
        out[to + i] = page[from + i];
    }
}

// A page of zeros.
fn zeros() -> [u8; RECORD_BYTES]
    ensures { (j : ℕ) → slice_index result j ≡ 0 }
{
    [0; RECORD_BYTES]
}

// The bytes of the record that a page is up to a place in it, and zeros from there on.
fn cut(page: &[u8], within: u64) -> [u8; RECORD_BYTES]
    ensures { (j : ℕ) → j < 256 → slice_index result j ≡ (if nat_lt j within then record_byte (record_in page.now) j
        else 0) }
{
    match read_record(page) {
        Some(record) => cut_bytes(record.bytes, within),
        None => zeros(),
    }
}

// These bytes up to a place in them, and zeros from there on.
fn cut_bytes(bytes: &[u8], within: u64) -> [u8; RECORD_BYTES]
    requires { length bytes.now ≡ 256 }
    ensures { (j : ℕ) → j < 256 → slice_index result j ≡ (if nat_lt j within then slice_index bytes.now j else 0) }
{
    let mut content = zeros();
    copy_part(&mut content, 0, bytes, 0, within.min(256) as usize);
    content
}
