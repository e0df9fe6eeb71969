//! Types of values, and the refusal where two differ.

ghost use Rattle.std.specs.Prelude.{◌≡◌, ◌≢◌, IfErr, IsTrue, OnOk, Result, Ok, option_copied, option_map, Option};
ghost use Rattle.per_base.specs.declared.elements.Element.{Element};
ghost use Rattle.per_base.specs.declared.errors.PerError.{PerError};
ghost use Rattle.per_base.specs.Maps.{Map, element_at};
ghost use Rattle.per_base.specs.Refusals.{IsRefusal, NeedsMemory};
ghost use Rattle.value_text.specs.Texts as texts;
ghost use Rattle.deployment_model.specs.Lookups.{element_named};
ghost use Rattle.value_model.specs.Kinds.{kind_fits, same_kind};
ghost use Rattle.value_model.specs.Trees.{type_of};
ghost use Rattle.value_model.specs.Views.{kind_of};
ghost use Rattle.kvs_core.specs.Calls as calls;

use crate::session::KeySession;
use key_maps::KeyElement;
use per_base::{Name, PerError, ValueText};
use std::alloc::Global;
use value_model::{Value, ValueType};
use value_text::print_type;

/// Whether the value's type and this one are the same. The clauses say it both ways round.
pub fn has_type(value: &Value, value_type: &ValueType) -> bool
    ensures asked { result ≡ same_kind (type_of value.now) (kind_of value_type.now) }
    ensures stored { result ≡ same_kind (kind_of value_type.now) (type_of value.now) }
{
    value.has_type(value_type)
}

/// The refusal where the stored and the asked type differ, or that there is no memory for it.
fn mismatch(alloc: Global, stored: &ValueType, asked: &ValueType) -> PerError
    requires stored { IsTrue (kind_fits (kind_of stored.now)) }
    requires asked { IsTrue (kind_fits (kind_of asked.now)) }
    ensures { result ≢ PerError.OutOfMemory → result ≡ texts.mismatch (kind_of stored.now) (kind_of asked.now) }
{
    let Ok(stored) = print_type(alloc, stored) else {
        return PerError::OutOfMemory;
    };
    let Ok(asked) = print_type(alloc, asked) else {
        return PerError::OutOfMemory;
    };
    PerError::DataTypeMismatch {
        stored: ValueText::new(stored),
        asked: ValueText::new(asked),
    }
}

impl KeySession {
    /// The refusal where the type of a stored value differs from the asked one.
    #[tactic(auto, using(value_code::specs::lemmas::ValueLaws::typed_fits))]
    pub(crate) fn differs(&self, value: &Value, asked: &ValueType) -> PerError
        requires { IsTrue (kind_fits (kind_of asked.now)) }
        ensures { result ≢ PerError.OutOfMemory → result ≡ texts.mismatch (type_of value.now) (kind_of asked.now) }
    {
        let _valid = value.node();
        match value.value_type(self.alloc) {
            Ok(stored) => mismatch(self.alloc, &stored, asked),
            Err(_) => PerError::OutOfMemory,
        }
    }

    /// The refusal where the type of a value differs from a configured one.
    #[tactic(auto, using(value_code::specs::lemmas::ValueLaws::typed_fits))]
    fn differs_from(&self, stored: &ValueType, value: &Value) -> PerError
        requires { IsTrue (kind_fits (kind_of stored.now)) }
        ensures { result ≢ PerError.OutOfMemory → result ≡ texts.mismatch (kind_of stored.now) (type_of value.now) }
    {
        let _valid = value.node();
        match value.value_type(self.alloc) {
            Ok(asked) => mismatch(self.alloc, stored, &asked),
            Err(_) => PerError::OutOfMemory,
        }
    }

    /// The refusal where the type of a value differs from that of the stored one.
    #[tactic(auto, using(value_code::specs::lemmas::ValueLaws::typed_fits))]
    fn values_differ(&self, stored: &Value, value: &Value) -> PerError
        ensures { result ≢ PerError.OutOfMemory → result ≡ texts.mismatch (type_of stored.now) (type_of value.now) }
    {
        let _valid = stored.node();
        match stored.value_type(self.alloc) {
            Ok(stored) => self.differs_from(&stored, value),
            Err(_) => PerError::OutOfMemory,
        }
    }

    /// Refuses a value whose type is not that of the key: the configured one, or that of its visible readable value.
    #[tactic(auto, using(crate::proofs::Contents::there))]
    fn check_type(&self, name: &Name, value: &Value) -> Result<(), PerError>
        ensures ok { OnOk result ((rest : Result Map PerError)
            → calls.unless_typed (calls.kind_for (element_named self.now.config name.now)
            (element_at self.now.visible name.now)) (type_of value.now) rest ≡ rest) }
        ensures refused { IfErr result (λ error. (rest : Result Map PerError)
            → IsRefusal (calls.unless_typed (calls.kind_for (element_named self.now.config name.now)
            (element_at self.now.visible name.now)) (type_of value.now) rest) error) }
        ensures memory { IfErr result (λ error. error ≡ PerError.OutOfMemory
            → (rest : Result Map PerError)
            → NeedsMemory (calls.unless_typed (calls.kind_for (element_named self.now.config name.now)
            (element_at self.now.visible name.now)) (type_of value.now) rest)) }
    {
        if let Some(element) = self.config.element(name) {
            return match &element.value_type {
                Some(stored) => self.check_configured(stored, value),
                None => Ok(()),
            };
        }
        match self.maps.get(name) {
            Some(key) => self.check_stored(key, value),
            None => Ok(()),
        }
    }

    /// Refuses a value for a read-only storage, and one whose type is not that of the key.
    pub(crate) fn check_value(&self, name: &Name, value: &Value) -> Result<(), PerError>
        ensures ok { OnOk result ((rest : Result Map PerError)
            → calls.unless_refused self.now.config self.now.visible name.now (type_of value.now) rest ≡ rest) }
        ensures refused { IfErr result (λ error. (rest : Result Map PerError)
            → IsRefusal (calls.unless_refused self.now.config self.now.visible name.now (type_of value.now) rest)
            error) }
        ensures memory { IfErr result (λ error. error ≡ PerError.OutOfMemory → (rest : Result Map PerError)
            → NeedsMemory (calls.unless_refused self.now.config self.now.visible name.now (type_of value.now) rest)) }
    {
        if self.config.read_only {
            return Err(PerError::IllegalWriteAccess);
        }
        self.check_type(name, value)
    }

    /// That a value has this type, or the refusal.
    fn check_configured(&self, stored: &ValueType, value: &Value) -> Result<(), PerError>
        requires { IsTrue (kind_fits (kind_of stored.now)) }
        ensures ok { OnOk result ((rest : Result Map PerError)
            → calls.unless_differ (kind_of stored.now) (type_of value.now) rest ≡ rest) }
        ensures refused { IfErr result (λ error. (rest : Result Map PerError)
            → IsRefusal (calls.unless_differ (kind_of stored.now) (type_of value.now) rest) error) }
        ensures memory { IfErr result (λ error. error ≡ PerError.OutOfMemory → (rest : Result Map PerError)
            → NeedsMemory (calls.unless_differ (kind_of stored.now) (type_of value.now) rest)) }
    {
        if has_type(value, stored) {
            return Ok(());
        }
        Err(self.differs_from(stored, value))
    }

    /// That a value has the type of the value in a key, if that can be read, or the refusal.
    #[tactic(auto, using(crate::proofs::Contents::kind_bad))]
    fn check_stored(&self, key: &KeyElement, value: &Value) -> Result<(), PerError>
        ensures ok { OnOk result ((rest : Result Map PerError)
            → calls.unless_typed (calls.stored_kind key.now.content) (type_of value.now) rest ≡ rest) }
        ensures refused { IfErr result (λ error. (rest : Result Map PerError)
            → IsRefusal (calls.unless_typed (calls.stored_kind key.now.content) (type_of value.now) rest) error) }
        ensures memory { IfErr result (λ error. error ≡ PerError.OutOfMemory → (rest : Result Map PerError)
            → NeedsMemory (calls.unless_typed (calls.stored_kind key.now.content) (type_of value.now) rest)) }
    {
        let Some(stored) = key.stored() else {
            return Ok(());
        };
        if stored.has_type_of(value) {
            return Ok(());
        }
        match stored.value(self.alloc) {
            Ok(stored) => Err(self.values_differ(&stored, value)),
            Err(_) => Err(PerError::OutOfMemory),
        }
    }
}
