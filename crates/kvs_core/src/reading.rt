//! Reading keys.

ghost use Rattle.std.specs.Prelude.{◌≡◌, ◌≢◌, IfErr, IfOk, IsTrue};
ghost use Rattle.per_base.specs.declared.errors.Unit.TheVariants.{Part};
ghost use Rattle.per_base.specs.Maps.{element_at, has, names_of, size_of};
ghost use Rattle.per_base.specs.Refusals.{IsRefusal, NeedsMemory};
ghost use Rattle.value_model.specs.Kinds.{kind_fits};
ghost use Rattle.value_model.specs.Validity.{IsValue};
ghost use Rattle.value_model.specs.Views.{kind_of};
ghost use Rattle.value_code.specs.Reading.{decoded};
ghost use Rattle.kvs_core.specs.Calls as calls;

use crate::session::KeySession;
use crate::typing::has_type;
use key_maps::StoredValue;
use per_base::{Name, PerError, Unit};
use per_value::PerValue;
use value_model::{Value, ValueType};

impl KeySession {
    /// Whether this name is visible, readable or not. Does not allocate.
    pub fn key_exists(&self, name: &Name) -> bool
        ensures { result ≡ has self.now.visible name.now }
    {
        self.maps.has(name)
    }

    /// Whether this name is visible and its key readable. Does not allocate.
    pub fn is_readable(&self, name: &Name) -> bool
        ensures { result ≡ calls.is_readable_key (element_at self.now.visible name.now) }
    {
        match self.maps.get(name) {
            Some(key) => key.is_readable(),
            None => false,
        }
    }

    /// The visible names, ascending.
    ///
    /// # Errors
    ///
    /// `OutOfMemory` alone.
    pub fn all_keys(&self) -> Result<Vec<Name>, PerError>
        ensures names { IfOk result (λ names. names.items ≡ names_of self.now.visible) }
        // The only error is that memory ran out.
        ensures memory { IfErr result (λ error. error ≡ PerError.OutOfMemory) }
    {
        match self.maps.names(self.alloc) {
            Ok(names) => Ok(names),
            Err(_) => Err(PerError::OutOfMemory),
        }
    }

    /// The size of the visible map in bytes: of its names, and of its values as they are encoded, readable or not. Does
    /// not allocate.
    pub fn current_size(&self) -> u64
        ensures { result ≡ size_of self.now.visible }
    {
        self.maps.size()
    }

    /// The value of a key, lent: its tree then stays in memory as long as the key stays as it is.
    ///
    /// # Errors
    ///
    /// `KeyNotFound` where it is not visible; `IntegrityCorrupted` where it is unreadable; `OutOfMemory`.
    #[tactic(auto, using(crate::proofs::Contents::reads_needs))]
    pub fn get_any(&self, name: &Name) -> Result<&Value, PerError>
        // The value, which is a valid one, or the refusal that is due.
        ensures ok { IfOk result (λ value. calls.get_any self.now.config self.now.visible name.now ≡ Ok value.now) }
        ensures valid { IfOk result (λ value. IsValue value.now) }
        ensures refused { IfErr result (λ error. IsRefusal (calls.get_any self.now.config self.now.visible name.now)
            error) }
        // Memory runs out for the value, or for the names in `IntegrityCorrupted`: `KeyNotFound` allocates nothing.
        ensures memory { IfErr result (λ error. error ≡ PerError.OutOfMemory
            → NeedsMemory (calls.get_any self.now.config self.now.visible name.now)) }
    {
        match self.stored(name)?.lend(self.alloc) {
            Ok(value) => Ok(value),
            Err(_) => Err(PerError::OutOfMemory),
        }
    }

    /// The value of a key, decoded anew.
    ///
    /// # Errors
    ///
    /// `KeyNotFound` where it is not visible; `IntegrityCorrupted` where it is unreadable; `OutOfMemory`.
    #[tactic(auto, using(crate::proofs::Contents::reads_needs))]
    pub fn get_copy(&self, name: &Name) -> Result<Value, PerError>
        // The value, which is a valid one, or the refusal that is due.
        ensures ok { IfOk result (λ value. calls.get_any self.now.config self.now.visible name.now ≡ Ok value) }
        ensures valid { IfOk result (λ value. IsValue value) }
        ensures refused { IfErr result (λ error. IsRefusal (calls.get_any self.now.config self.now.visible name.now)
            error) }
        // Memory runs out for the value, or for the names in `IntegrityCorrupted`: `KeyNotFound` allocates nothing.
        ensures memory { IfErr result (λ error. error ≡ PerError.OutOfMemory
            → NeedsMemory (calls.get_any self.now.config self.now.visible name.now)) }
    {
        match self.stored(name)?.value(self.alloc) {
            Ok(value) => Ok(value),
            Err(_) => Err(PerError::OutOfMemory),
        }
    }

    /// What is stored of the value of a key, or the refusal of `get_any`.
    #[tactic(auto, using(crate::proofs::Contents::read_stored, crate::proofs::Contents::read_bad))]
    fn stored(&self, name: &Name) -> Result<&StoredValue, PerError>
        ensures ok { IfOk result (λ stored. calls.get_any self.now.config self.now.visible name.now
            ≡ calls.readable_value (decoded stored.now)) }
        ensures refused { IfErr result (λ error. IsRefusal (calls.get_any self.now.config self.now.visible name.now)
            error) }
        ensures memory { IfErr result (λ error. error ≡ PerError.OutOfMemory
            → NeedsMemory (calls.get_any self.now.config self.now.visible name.now)) }
    {
        let Some(key) = self.maps.get(name) else {
            return Err(PerError::KeyNotFound);
        };
        match key.stored() {
            Some(stored) => Ok(stored),
            None => Err(self.corrupted(name)),
        }
    }

    /// The value of a key, decoded anew, asked for by a type in which each group of fields has 1 to 32 members.
    ///
    /// # Errors
    ///
    /// Those of `get_copy`; `DataTypeMismatch` with the stored and the asked type where they differ.
    #[tactic(auto, using(crate::proofs::Contents::needs_value, crate::proofs::Contents::needs_kept))]
    pub fn get_as(&self, name: &Name, asked: &ValueType) -> Result<Value, PerError>
        // In the asked type each group of fields has 1 to 32 members.
        requires { IsTrue (kind_fits (kind_of asked.now)) }
        // The value, or the refusal that is due: what `get_as` of the visible keys gives for the asked type.
        ensures ok { IfOk result (λ value. calls.get_as self.now.config self.now.visible name.now (kind_of asked.now)
            ≡ Ok value) }
        ensures valid { IfOk result (λ value. IsValue value) }
        ensures refused { IfErr result (λ error. IsRefusal
            (calls.get_as self.now.config self.now.visible name.now (kind_of asked.now)) error) }
        // Memory runs out for the value, or for the names or types in a refusal.
        ensures memory { IfErr result (λ error. error ≡ PerError.OutOfMemory
            → NeedsMemory (calls.get_as self.now.config self.now.visible name.now (kind_of asked.now))) }
    {
        let value = self.get_copy(name)?;
        if !has_type(&value, asked) {
            return Err(self.differs(&value, asked));
        }
        Ok(value)
    }

    /// The thing of a Rust type that a key's value is.
    ///
    /// # Errors
    ///
    /// Those of `get_as`, asked for the type of the thing; `OutOfMemory` for the thing too.
    #[tactic(auto, using(crate::proofs::Contents::needs_value, crate::proofs::Contents::needs_kept))]
    pub fn get_value<T: PerValue>(&self, name: &Name) -> Result<T, PerError>
        // The thing whose value is the one that `get_as` gives for the type of `T`, or the refusal that is due.
        ensures ok { IfOk result (λ thing. calls.get_as self.now.config self.now.visible name.now T.kind
            ≡ Ok (T.tree thing)) }
        ensures refused { IfErr result (λ error. IsRefusal
            (calls.get_as self.now.config self.now.visible name.now T.kind) error) }
        // Memory runs out for the thing, or for the names or types in a refusal.
        ensures memory { IfErr result (λ error. error ≡ PerError.OutOfMemory
            → NeedsMemory (calls.get_as self.now.config self.now.visible name.now T.kind)) }
    {
        let value = self.get_copy(name)?;
        let Ok(asked) = T::type_of(self.alloc) else {
            return Err(PerError::OutOfMemory);
        };
        if !has_type(&value, &asked) {
            return Err(self.differs(&value, &asked));
        }
        match T::from_value(self.alloc, &value) {
            Ok(thing) => Ok(thing),
            Err(_) => Err(PerError::OutOfMemory),
        }
    }

    /// The refusal of an unreadable key.
    pub(crate) fn corrupted(&self, name: &Name) -> PerError
        ensures { result ≢ PerError.OutOfMemory → result ≡ PerError.IntegrityCorrupted
            (Part self.now.config.name name.now) }
    {
        let Ok(storage) = self.config.name.copy() else {
            return PerError::OutOfMemory;
        };
        let Ok(key) = name.copy() else {
            return PerError::OutOfMemory;
        };
        PerError::IntegrityCorrupted {
            unit: Unit::Part(storage, key),
        }
    }
}
