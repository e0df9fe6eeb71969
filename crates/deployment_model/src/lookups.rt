//! Elements and storages by name.

ghost use Rattle.std.specs.Prelude.{◌≡◌, ◌<◌, IfSome, MatchResult, find, length, map, option_copied, option_map};
ghost use Rattle.std.specs.Prelude.{position, slice_get, Some, None, List, ℕ};
ghost use Rattle.std.specs.Option.{option_copied};
ghost use Rattle.std.specs.Str.{bytes_eq};
ghost use Rattle.std.specs.List.Sorted.{IsStrictlySortedBy};
ghost use Rattle.per_base.specs.Names.{name_cmp};
ghost use Rattle.deployment_model.specs.Data.{ElementData, StorageData, deployment_data, element_data, storage_data};
ghost use Rattle.deployment_model.specs.Conditions.{IsDeployment, IsElement, IsStorage};
ghost use Rattle.deployment_model.specs.Lookups.{element_named, initial_content, storage_named, storage_number};

use crate::configs::{Deployment, ElementConfig, StorageConfig};
use per_base::{Bytes, Name};

impl StorageConfig {
    /// What is configured for the element of this name; none where the storage configures no such element.
    pub fn element(&self, name: &Name) -> Option<&ElementConfig>
        requires { IsStorage (storage_data self.now) }
        // it is the configured element of this name, and obeys the rules of an element of this kind of storage
        ensures found { option_map (λ e. element_data e.now) result ≡ element_named (storage_data self.now) name.now }
        ensures keeps { IfSome result (λ e. IsElement (storage_data self.now).kind (element_data e.now)) }
    {
        let elements = self.elements.as_slice();
        match elements.binary_search_by(|element| element.name.cmp(name)) {
            Ok(place) => Some(&elements[place]),
            Err(_) => None,
        }
    }

    /// What the element of this name starts with; none where it is not configured or has no initial content.
    pub fn initial(&self, name: &Name) -> Option<&Bytes>
        requires { IsStorage (storage_data self.now) }
        ensures { option_map (λ bytes. bytes.now) result ≡ initial_content (storage_data self.now) name.now }
    {
        match self.element(name) {
            Some(element) => element.initial.as_ref(),
            None => None,
        }
    }
}

impl Deployment {
    /// The number of the storage of this name, its place in the list of storages, from 0; none where there is none.
    pub fn number(&self, name: &Name) -> Option<usize>
        requires { IsDeployment (deployment_data self.now) }
        ensures found { result ≡ storage_number (deployment_data self.now) name.now }

        // The number leads to the storage of this name.
        ensures bound { IfSome result (λ number. number < length self.now.storages) }
        ensures leads { IfSome result (λ number. slice_get (deployment_data self.now).storages number
            ≡ storage_named (deployment_data self.now) name.now) }
    {
        let storages = self.storages.as_slice();
        match storages.binary_search_by(|storage| storage.name.cmp(name)) {
            Ok(place) => Some(place),
            Err(_) => None,
        }
    }

    /// The storage of this name; none where the deployment has no such storage.
    pub fn storage(&self, name: &Name) -> Option<&StorageConfig>
        requires { IsDeployment (deployment_data self.now) }
        ensures found { option_map (λ s. storage_data s.now) result
            ≡ storage_named (deployment_data self.now) name.now }
        ensures keeps { IfSome result (λ s. IsStorage (storage_data s.now)) }
    {
        let storages = self.storages.as_slice();
        match storages.binary_search_by(|storage| storage.name.cmp(name)) {
            Ok(place) => Some(&storages[place]),
            Err(_) => None,
        }
    }
}
