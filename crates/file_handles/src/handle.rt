//! Handles, and what their map by number shows.

ghost use Rattle.std.specs.Prelude.{◌≡◌, ◌≤◌, ◌<◌, ◌+◌, length};
ghost use Rattle.file_handles.specs.Sessions as sessions;

use file_core::{Cursor, writes};
use per_base::{Name, OpenKind};
use std::collections::BTreeMap;

/// An open handle: the name of its file, and its cursor, which is its position in the content.
#[derive(Debug, Drop)]
pub struct Handle {
    pub name: Name,
    pub cursor: Cursor,
}

/// Whether the handle conflicts with an opening of this kind of the file of this name: it is on the same file, and one
/// of the two writes.
pub fn blocks(kind: OpenKind, name: &Name, handle: &Handle) -> bool
    ensures { result ≡ sessions.blocks kind name.now handle.now }
{
    handle.name == *name && (writes(kind) || writes(handle.cursor.kind))
}

/// The number of the lowest handle that conflicts with an opening of this kind of the file of this name.
pub fn blocking(kind: OpenKind, name: &Name, handles: &BTreeMap<u32, Handle>) -> Option<u32>
    ensures { result ≡ sessions.blocking kind name.now handles.now.entries }
{
    for (number, handle) in handles {
        if blocks(kind, name, handle) {
            return Some(*number);
        }
    }
    None
}

/// The lowest number from 1 that no handle has.
pub fn free_number(handles: &BTreeMap<u32, Handle>) -> u32
    // At most 64 handles are open, the most of a storage. The number is at most one more than there are handles.
    requires { length handles.now.entries ≤ 64 }
    ensures free { result ≡ sessions.free_number handles.now.entries }
    ensures few { result ≤ length handles.now.entries + 1 }
{
    let mut free = 1;
    for (number, _) in handles {
        if *number != free {
            return free;
        }
        free += 1;
    }
    free
}
