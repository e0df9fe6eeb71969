//! The parts of a content, one for each of its blocks.

ghost use Rattle.std.specs.Prelude.{◌≡◌, ◌<◌, ◌≤◌, ◌*◌, ◌^◌, length};
ghost use Rattle.per_base.specs.Contents.{blocks_for};
ghost use Rattle.changed_runs.specs.Changed.{run_of};
ghost use Rattle.block_files.specs.Parts.{is_changed, changed_blocks};

use per_base::BLOCK;

// How many blocks a content of this length takes.
pub(crate) fn count_blocks(len: usize) -> usize
    requires { len < 2 ^ 63 }
    ensures { result ≡ blocks_for len }
{
    (len + (BLOCK - 1)) / BLOCK
}

// The bytes that go into a content's i-th block: the last part may be shorter than a block, and those past it are
// empty.
fn part_at(bytes: &[u8], i: usize) -> &[u8]
    requires { 256 * i < 2 ^ 63 }
    ensures value { result.now ≡ run_of bytes.now i }
    ensures short { length result.now ≤ 256 }
{
    let rest = &bytes[(BLOCK * i).min(bytes.len())..];
    &rest[..BLOCK.min(rest.len())]
}

// Whether the i-th parts of two contents differ.
pub(crate) fn differs(bytes: &[u8], was: &[u8], i: usize) -> bool
    requires { 256 * i < 2 ^ 63 }
    ensures { result ≡ is_changed bytes.now was.now i }
{
    part_at(bytes, i) != part_at(was, i)
}

// How many parts of a content differ from those of an earlier one.
pub(crate) fn count_changed(bytes: &[u8], was: &[u8]) -> usize
    ensures { result ≡ changed_blocks bytes.now was.now }
{
    let mut count = 0;
    for i in 0..count_blocks(bytes.len()) {
        if differs(bytes, was, i) {
            count += 1;
        }
    }
    count
}
