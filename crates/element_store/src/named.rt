//! Lists in the order of names: elements, and entries of an index.

ghost use Rattle.std.specs.Prelude.{◌≡◌, ◌<◌, ◌≤◌, ◌+◌, ℕ, List};
ghost use Rattle.std.specs.Vec.{vec_len, vec_capacity};
ghost use Rattle.per_base.specs.Names.{NamesAscend};
ghost use Rattle.element_state.specs.Changes.{insert_item, without_item};
ghost use Rattle.element_store.specs.Named.{IsSearchResult};

use index_text::IndexEntry;
use per_base::{Entry, Name};

/// What has a name.
pub(crate) trait Named {
    ghost name_of: { Self → List ℕ };

    fn name(&self) -> &Name
        ensures { result.now ≡ name_of self.now };
}

impl Named for Entry {
    ghost name_of = { λ e. e.name };

    fn name(&self) -> &Name {
        &self.name
    }
}

impl Named for IndexEntry {
    ghost name_of = { λ e. e.name };

    fn name(&self) -> &Name {
        &self.name
    }
}

// Where the name stands, or else where it belongs.
pub(crate) fn place_of<N: Named>(items: &[N], name: &Name) -> Result<usize, usize>
    requires { NamesAscend N.name_of items.now }
    ensures { IsSearchResult N.name_of name.now items.now result }
{
    items.binary_search_by(|item| item.name().cmp(name))
}

// Puts an item in its place, or in that of the one with its name. There is room for one more.
pub(crate) fn put_in<N: Named + Drop>(items: &mut Vec<N>, item: N)
    requires ascend { NamesAscend N.name_of items.old.items }
    requires room { vec_len items.old < vec_capacity items.old }
    ensures items { items.new.items ≡ insert_item N.name_of item
        (without_item N.name_of (N.name_of item) items.old.items) }
    ensures ascend { NamesAscend N.name_of items.new.items }
    ensures capacity { vec_capacity items.old ≤ vec_capacity items.new }
    ensures one_more { vec_len items.new ≤ vec_len items.old + 1 }
{
    match place_of(items, item.name()) {
        Ok(at) => items[at] = item,
        Err(at) => {
            let _ = items.insert(at, item);
        }
    }
}

// Takes the item of a name out.
pub(crate) fn take_out<N: Named + Drop>(items: &mut Vec<N>, name: &Name)
    requires ascend { NamesAscend N.name_of items.old.items }
    ensures items { items.new.items ≡ without_item N.name_of name.now items.old.items }
    ensures ascend { NamesAscend N.name_of items.new.items }
    ensures capacity { vec_capacity items.old ≤ vec_capacity items.new }
    ensures no_more { vec_len items.new ≤ vec_len items.old }
{
    if let Ok(at) = place_of(items, name) {
        items.remove(at);
    }
}
