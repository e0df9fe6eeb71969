//! What the list of held texts says of the register, and what its stops say of the text that stands. The functions do
//! nothing.

ghost use Rattle.std.specs.Prelude.{◌≡◌, ◌⊎◌, ◌∷◌, [], ℕ, ◌+◌, ◌<◌, ◌≤◌, List, true, Some};
ghost use Rattle.std.specs.List.{Contains};
ghost use Rattle.disk_model.specs.Image.{Image};
ghost use Rattle.disk_model.specs.Case.{Case};
ghost use Rattle.disk_model.specs.Damage.{AtLeast, IsUndamaged};
ghost use Rattle.disk_model.specs.Frame.{IsSettledOn};
ghost use Rattle.disk_model.specs.Place.{IsNoSlot};
ghost use Rattle.disk_model.specs.declared.place.Place.{Place};
ghost use Rattle.guarded_cell.specs.declared.looking.Seen.{Seen};
ghost use Rattle.guarded_cell.specs.Held.{held, standing, standing_in, lacking, copies_that};
ghost use Rattle.guarded_cell.specs.Register.{Holds, IsHeldBy, IsAlone, IsStanding, HasNoStanding, IsOneEach};
ghost use Rattle.guarded_cell.specs.Shown.{ShowsTexts, Chooses};
ghost use Rattle.guarded_cell.specs.Stops.{AfterStop, HoldsLess, KeepsText, IsOldOrNew};
ghost use Rattle.guarded_cell.specs.Stands.{SameSlots, IsAdopting};
ghost use Rattle.std.specs.Prelude.{replicate};
ghost use Rattle.disk_model.specs.Image.{put_bytes};
ghost use Rattle.changed_runs.specs.Changed.{changed_len};
ghost use Rattle.guarded_cell.specs.Differing.{front_cost, texts_cost, IsOver};
ghost use Rattle.std.specs.Prelude.{◌*◌};
ghost use Rattle.hash_guard.specs.SealedText.{sealed};
ghost use Rattle.guarded_cell.specs.Register.{own};

/// The laws of [`look`](crate::look) and [`open_cell`](crate::open_cell), for proofs. `g` is a generation, and `m` how
/// many copies have to agree.
pub fn held_is_lawful()
    // The list of held texts is complete, and what stands in it is a text that at least m copies hold, under
    // the greatest generation of such texts.
    ensures held { (image : Image) (place : Place) → ShowsTexts image place (held image place) }
    ensures standing { (image : Image) (place : Place) (m : ℕ) → 1 ≤ m
        → Chooses image place m (standing image place m) }
    ensures among { (image : Image) (place : Place) (m : ℕ)
        → standing image place m ≡ standing_in m (held image place) }

    // A text that is held alone is all that is held, and no copy lacks it.
    ensures alone { (image : Image) (place : Place) (g : ℕ) (text : List ℕ) → IsAlone image place g text
        → (held image place ≡ record { generation = g; text = text; copies = copies_that (λ c. true) place.copies }
        ∷ [])
        × (lacking image place g text ≡ []) }

    // What stands is found, where no two held texts have one generation. A copy that does not hold a text lacks it.
    ensures stands { (image : Image) (place : Place) (m g : ℕ) (text : List ℕ) → 1 ≤ m → IsOneEach image place
        → IsStanding image place m g text
        → (seen : Seen) × (standing image place m ≡ Some seen) × (seen.generation ≡ g) × (seen.text ≡ text) }
    ensures lacking { (image : Image) (place : Place) (g : ℕ) (text : List ℕ) (copy : ℕ) → copy < place.copies
        → ¬ (Holds image place copy g text) → Contains (lacking image place g text) (copy + 1) }

    // What is held and what stands depend on the slots of the place alone.
    ensures same_held { (place : Place) (old new : Image) → SameSlots place old new
        → held new place ≡ held old place }
    ensures same_standing { (place : Place) (m : ℕ) (old new : Image) → SameSlots place old new
        → standing new place m ≡ standing old place m }
{}

/// What the stops of [`Cell::write`](crate::Cell::write), [`open_cell`](crate::open_cell) and [`adopt`](crate::adopt)
/// say of the text that stands, and what damage leaves of a register that nobody touched, for proofs. `start` is the
/// image before the call and `image` what is there after a stop and damage to the files of the list `damaged`; `g` and
/// `h` are generations, `t` is a text, and `m` is how many copies have to agree.
pub fn stops_are_lawful()
    // The next text is written where one is held alone: what at least m copies hold is the old text or the next one,
    // and something is, where m copies are not damaged.
    ensures write_old_or_new { (place : Place) (m g : ℕ) (text next damaged : List ℕ) (start image : Image) → 1 ≤ m
        → IsAlone start place g text → IsOldOrNew place (g + 1) next damaged start image
        → (h : ℕ) (t : List ℕ) → IsHeldBy image place m h t
        → ((h ≡ g) × (t ≡ text)) ⊎ ((h ≡ g + 1) × (t ≡ next)) }
    ensures write_stands { (place : Place) (m g : ℕ) (text next damaged : List ℕ) (start image : Image) → 1 ≤ m
        → IsAlone start place g text → IsOldOrNew place (g + 1) next damaged start image
        → AtLeast (λ c. IsUndamaged damaged place c) place.copies m → ¬ (HasNoStanding image place m) }

    // What stands is put into every copy: it stands still, where m copies that held it are not damaged.
    ensures put_stands { (place : Place) (m g : ℕ) (text damaged : List ℕ) (start image : Image)
        → IsStanding start place m g text → IsOldOrNew place g text damaged start image
        → AtLeast (λ c. IsUndamaged damaged place c × Holds start place c g text) place.copies m
        → IsStanding image place m g text }

    // A text is adopted under the generation after what stands: one of the two stands, where m copies that held the old
    // one are not damaged.
    ensures adopt_stands { (place : Place) (m g : ℕ) (text next damaged : List ℕ) (start image : Image)
        → IsAdopting place m g text next damaged start image → ¬ (HasNoStanding image place m) }
    ensures adopt_old_or_new { (place : Place) (m g : ℕ) (text next damaged : List ℕ) (start image : Image)
        → IsAdopting place m g text next damaged start image → (h : ℕ) (t : List ℕ)
        → IsStanding image place m h t
        → ((h ≡ g) × (t ≡ text)) ⊎ ((h ≡ g + 1) × (t ≡ next)) }

    // Nobody touched the register: it holds less, and undamaged copies keep what they held.
    ensures untouched { (place : Place) (start : Image) (c : Case)
        → IsSettledOn (λ f. ¬ (IsNoSlot place f)) start c
        → AfterStop place (λ damaged image. HoldsLess place start image
        × ((g : ℕ) (text : List ℕ) → KeepsText place g text damaged start image)) c }
{}

/// What a text costs over a slot in which another one stood and was blanked: at most its first run of 256 bytes, and
/// the runs in which it differs from that one.
pub fn blanked_slots_cost_what_differs()
    // The texts a and b are written one after the other, from `start` by `mid` to `now`; c goes next, into the
    // slots that held a.
    ensures third { (place : Place) (g : ℕ) (a b c : List ℕ) (start mid now : Image)
        → IsOver place g (sealed g a) start mid → IsOver place (g + 1) (sealed (g + 1) b) mid now
        → texts_cost place (own (g + 2)) (sealed (g + 2) c) now place.copies
        ≤ place.copies * (256 + changed_len (sealed g a) 0 (sealed (g + 2) c)) }
    // The slot w took the bytes `before` at its start, then the 44 zeros of a blank, and takes `text` next.
    ensures each { (w before text : List ℕ)
        → front_cost (put_bytes (put_bytes w 0 before) 0 (replicate 44 0)) text ≤ 256 + changed_len before 0 text }
{}
