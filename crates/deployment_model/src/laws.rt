//! What holds of all look-ups by name. The functions do nothing: their contracts are the laws.

ghost use Rattle.std.specs.Prelude.{◌≡◌, ℕ, ◌<◌, List, Some, length, slice_get};
ghost use Rattle.deployment_model.specs.Conditions.{IsDeployment, IsElement, IsStorage};
ghost use Rattle.deployment_model.specs.Data.{DeploymentData, ElementData, StorageData};
ghost use Rattle.deployment_model.specs.Lookups.{element_named, storage_named, storage_number};

/// Each storage `s` of a deployment `d`, at place `i` of its list, is found by its own name, and its number is `i`.
pub fn names_are_apart()
    ensures { (d : DeploymentData) (i : ℕ) (s : StorageData) → IsDeployment d → slice_get d.storages i ≡ Some s
        → (storage_named d s.name ≡ Some s) × (storage_number d s.name ≡ Some i) }
{}

/// A storage `s` or an element `e` that is found by a name obeys the rules of a storage or of an element, and the
/// number `i` of a name is the place of the storage that has this name.
pub fn found_is_kept()
    ensures storage { (d : DeploymentData) (name : List ℕ) (s : StorageData) → IsDeployment d
        → storage_named d name ≡ Some s → IsStorage s }
    ensures element { (s : StorageData) (name : List ℕ) (e : ElementData) → IsStorage s
        → element_named s name ≡ Some e → IsElement s.kind e }
    ensures number { (d : DeploymentData) (name : List ℕ) (i : ℕ) → storage_number d name ≡ Some i
        → (i < length d.storages) × (slice_get d.storages i ≡ storage_named d name) }
{}
