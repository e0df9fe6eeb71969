//! The keys of a view, as a session judged them when it read them.

ghost use Rattle.std.specs.Prelude.{◌≡◌, IfOk, map};
ghost use Rattle.kvs_store.specs.Judged.{shown_entry, shown_view};

use element_state::View;
use kvs_core::KeySession;
use per_base::{Content, Entry, Sequence};
use std::alloc::{AllocError, Global};

/// The view with each entry unreadable of whose name the session shows no readable key, and with no salvage: no bytes
/// that are left where too few copies agree. All else of it stays. Nothing is decoded.
pub fn judged(alloc: Global, session: &KeySession, view: View) -> Result<View, AllocError>
    ensures { IfOk result (λ judged. judged ≡ shown_view session.now.visible view) }
{
    let View {
        generation,
        lacking,
        sole,
        entries,
    } = view;
    let entries = judge_all(alloc, session, entries.into_vec())?;
    Ok(View {
        generation,
        lacking,
        sole,
        entries: Sequence::new(entries),
    })
}

/// Entries, each judged by what the session has of its key.
fn judge_all(
    alloc: Global,
    session: &KeySession,
    entries: Vec<Entry>,
) -> Result<Vec<Entry>, AllocError>
    ensures { IfOk result (λ judged. judged.items ≡ map (shown_entry session.now.visible) entries.items) }
{
    let mut judged = Vec::with_capacity(alloc, entries.len())?;
    for entry in entries {
        judged.push(judge(session, entry))?;
    }
    Ok(judged)
}

/// An entry, unreadable without a salvage where the session has no readable key of its name.
fn judge(session: &KeySession, entry: Entry) -> Entry
    ensures { result ≡ shown_entry session.now.visible entry }
{
    let mut entry = entry;
    if !session.is_readable(&entry.name) {
        entry.content = Content::Bad(None);
    }
    entry
}
