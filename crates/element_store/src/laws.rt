//! Storages in use while other files change, for the proofs of callers: the function does nothing when it runs.

ghost use Rattle.std.specs.Prelude.{Bool, IsTrue};
ghost use Rattle.disk_model.specs.declared.place.Place.{Place};
ghost use Rattle.disk_model.specs.Image.{Image};
ghost use Rattle.disk_model.specs.Frame.{Spares};
ghost use Rattle.disk_model.specs.Place.{IsOutside};
ghost use Rattle.element_laws.specs.Apart.{LieApart};
ghost use Rattle.element_laws.specs.Phases.{IsOfPlace};
ghost use Rattle.element_store.specs.declared.store.Store.{Store};
ghost use Rattle.element_store.specs.Stores.{IsUsed, store_shape};

use element_laws::places_stand_apart;

/// A storage in use stays in use where the files of its place are as they were: so it does where only files of another
/// place changed, and neither place overlaps the other.
pub fn use_stays()
    // Where the files of its place are as they were.
    ensures frame { (told : Bool) (store : Store) (old new : Image)
        → (IsTrue told → Spares (IsOfPlace (store_shape store).place) old new)
        → IsUsed told old store → IsUsed told new store }
    // Where all files outside another place are as they were.
    ensures elsewhere { (told : Bool) (store : Store) (one : Place) (old new : Image)
        → LieApart one (store_shape store).place
        → (IsTrue told → Spares (IsOutside one) old new) → IsUsed told old store
        → IsUsed told new store }
{
    places_stand_apart();
}
