//! What a sync costs where the value of one key changes and nothing else.

ghost use Rattle.std.specs.Prelude.{ℕ, ◌+◌, ◌*◌, ◌≤◌, List, length};
ghost use Rattle.per_base.specs.declared.elements.Fresh.{Fresh};
ghost use Rattle.per_base.specs.Contents.{blocks_for};
ghost use Rattle.changed_runs.specs.Changed.{changed_len};
ghost use Rattle.disk_model.specs.Image.{Image};
ghost use Rattle.disk_model.specs.declared.place.Place.{Place};
ghost use Rattle.index_text.specs.declared.entries.Index.{Index};
ghost use Rattle.index_text.specs.Rules.{IsIndex};
ghost use Rattle.index_text.specs.Spelling.{index_text};
ghost use Rattle.element_store.specs.declared.store.Store.{Store};
ghost use Rattle.element_store.specs.Committing.{index_in};
ghost use Rattle.kvs_laws.specs.Costs.{ChangesValue, DifferWithin, Follow, PutsValue};
ghost use Rattle.kvs_laws.specs.Costs.{next_cost, runs_reached, value_length};

use guarded_cell::blanked_slots_cost_what_differs;

/// What is written of an index that changes the value of one key and nothing else: in each copy its first run of 256
/// bytes, and the runs that the values of this key and of the one that changed before it reach. Where these have at
/// most 13,568 bytes, that is at most five runs, and three where it is one key twice.
///
/// In the clauses `a`, `b` and `c` are indexes, `g` is the generation of the first, and `m` and `n` are how many blocks
/// the values of the keys `p` and `q` take.
pub fn changed_values_cost_few_runs()
    // Bytes that differ within one span cost at most the runs that it reaches, wherever it begins.
    ensures spans { (len : ℕ) (old new : List ℕ) → DifferWithin len old new
        → changed_len old 0 new ≤ 256 * runs_reached len }
    // The texts of two indexes that differ in the value of one key differ within what that value decides of its entry.
    ensures values { (p : List ℕ) (m : ℕ) (a b : Index) → IsIndex a → IsIndex b → ChangesValue p m a b
        → DifferWithin (value_length a.format m) (index_text a) (index_text b) }

    // A commit whose one change puts a value of a key that is there, in as many blocks as before, changes that value
    // and nothing else.
    ensures commits { (f : Fresh) (old new : Store) → PutsValue f old new
        → ChangesValue f.name (blocks_for (length f.bytes)) (index_in old) (index_in new) }

    // The indexes are put one after another: b changes the value of the key p, and c that of q, or of p again.
    ensures two_keys { (place : Place) (g m n : ℕ) (p q : List ℕ) (a b c : Index) (start mid now : Image)
        → Follow place g a b c start mid now → ChangesValue p m a b → ChangesValue q n b c
        → next_cost place g c now ≤ place.copies
        * (256 * (1 + runs_reached (value_length c.format m) + runs_reached (value_length c.format n))) }
    ensures one_key { (place : Place) (g m : ℕ) (p : List ℕ) (a b c : Index) (start mid now : Image)
        → Follow place g a b c start mid now → ChangesValue p m a b → ChangesValue p m b c
        → next_cost place g c now ≤ place.copies * (256 * (1 + runs_reached (value_length c.format m))) }

    // Where the values take at most 53 blocks of 256 bytes, that is five runs in each copy, and three of one key twice.
    // With the 44 bytes that blank the head of the index before it, a copy takes 1,324 bytes, and 812.
    ensures five_runs { (place : Place) (g m n : ℕ) (p q : List ℕ) (a b c : Index) (start mid now : Image)
        → Follow place g a b c start mid now → ChangesValue p m a b → ChangesValue q n b c → m ≤ 53 → n ≤ 53
        → next_cost place g c now + place.copies * 44 ≤ place.copies * 1324 }
    ensures three_runs { (place : Place) (g m : ℕ) (p : List ℕ) (a b c : Index) (start mid now : Image)
        → Follow place g a b c start mid now → ChangesValue p m a b → ChangesValue p m b c → m ≤ 53
        → next_cost place g c now + place.copies * 44 ≤ place.copies * 812 }
{
    blanked_slots_cost_what_differs();
}
