//! Reading keys.

ghost use Rattle.std.specs.Prelude.{◌≡◌, IfErr, IfOk, IsTrue};
ghost use Rattle.per_base.specs.Maps.{has, names_of, size_of};
ghost use Rattle.per_base.specs.Refusals.{IsRefusal, NeedsMemory};
ghost use Rattle.value_model.specs.Kinds.{kind_fits};
ghost use Rattle.value_model.specs.Validity.{IsValue};
ghost use Rattle.value_model.specs.Views.{kind_of};
ghost use Rattle.kvs_core.specs.Calls as calls;
ghost use Rattle.kvs_store.specs.Storages.{kvs_session};

use crate::storages::Kvs;
use per_base::{Name, PerError};
use per_value::PerValue;
use value_model::{Value, ValueType};

impl Kvs {
    /// Whether this name is visible, readable or not. Does not allocate.
    pub fn key_exists(&self, name: &Name) -> bool
        ensures { result ≡ has (kvs_session self.now).visible name.now }
    {
        self.session.key_exists(name)
    }

    /// The visible names, ascending.
    ///
    /// # Errors
    ///
    /// `OutOfMemory` alone.
    pub fn all_keys(&self) -> Result<Vec<Name>, PerError>
        ensures names { IfOk result (λ names. names.items ≡ names_of (kvs_session self.now).visible) }
        // The only error is that memory ran out.
        ensures memory { IfErr result (λ error. error ≡ PerError.OutOfMemory) }
    {
        self.session.all_keys()
    }

    /// The size of what is visible in bytes: of its names, and of its values as they are encoded, readable or not. Does
    /// not allocate.
    pub fn current_size(&self) -> u64
        ensures { result ≡ size_of (kvs_session self.now).visible }
    {
        self.session.current_size()
    }

    /// The value of a key, lent: its tree then stays in memory as long as the key stays as it is.
    ///
    /// # Errors
    ///
    /// `KeyNotFound` where it is not visible; `IntegrityCorrupted` where it is unreadable; `OutOfMemory`.
    pub fn get_any(&self, name: &Name) -> Result<&Value, PerError>
        // The value, which is a valid one, or the refusal that is due.
        ensures ok { IfOk result (λ value.
            calls.get_any (kvs_session self.now).config (kvs_session self.now).visible name.now ≡ Ok value.now) }
        ensures valid { IfOk result (λ value. IsValue value.now) }
        ensures refused { IfErr result (λ error.
            IsRefusal (calls.get_any (kvs_session self.now).config (kvs_session self.now).visible name.now) error) }
        // Memory runs out for the value, or for the names in `IntegrityCorrupted`: `KeyNotFound` allocates nothing.
        ensures memory { IfErr result (λ error. error ≡ PerError.OutOfMemory
            → NeedsMemory (calls.get_any (kvs_session self.now).config (kvs_session self.now).visible name.now)) }
    {
        self.session.get_any(name)
    }

    /// The value of a key, decoded anew.
    ///
    /// # Errors
    ///
    /// `KeyNotFound` where it is not visible; `IntegrityCorrupted` where it is unreadable; `OutOfMemory`.
    pub fn get_copy(&self, name: &Name) -> Result<Value, PerError>
        // The value, which is a valid one, or the refusal that is due.
        ensures ok { IfOk result (λ value.
            calls.get_any (kvs_session self.now).config (kvs_session self.now).visible name.now ≡ Ok value) }
        ensures valid { IfOk result (λ value. IsValue value) }
        ensures refused { IfErr result (λ error.
            IsRefusal (calls.get_any (kvs_session self.now).config (kvs_session self.now).visible name.now) error) }
        // Memory runs out for the value, or for the names in `IntegrityCorrupted`: `KeyNotFound` allocates nothing.
        ensures memory { IfErr result (λ error. error ≡ PerError.OutOfMemory
            → NeedsMemory (calls.get_any (kvs_session self.now).config (kvs_session self.now).visible name.now)) }
    {
        self.session.get_copy(name)
    }

    /// The value of a key, decoded anew, asked for by its type.
    ///
    /// # Errors
    ///
    /// `KeyNotFound` where the name is not visible; `IntegrityCorrupted` where the key is unreadable;
    /// `DataTypeMismatch` with the stored and the asked type where they differ; `OutOfMemory`, for the value or for a
    /// refusal that carries names or texts.
    pub fn get_as(&self, name: &Name, asked: &ValueType) -> Result<Value, PerError>
        // In the asked type each group of fields has 1 to 32 members.
        requires { IsTrue (kind_fits (kind_of asked.now)) }
        // The value, or the refusal that is due: what `get_as` of the visible keys gives for the asked type.
        ensures ok { IfOk result (λ value.
            calls.get_as (kvs_session self.now).config (kvs_session self.now).visible name.now (kind_of asked.now)
            ≡ Ok value) }
        ensures valid { IfOk result (λ value. IsValue value) }
        ensures refused { IfErr result (λ error.
            IsRefusal (calls.get_as (kvs_session self.now).config (kvs_session self.now).visible name.now
            (kind_of asked.now)) error) }
        // Memory runs out for the value, or for the names or types in a refusal.
        ensures memory { IfErr result (λ error. error ≡ PerError.OutOfMemory
            → NeedsMemory (calls.get_as (kvs_session self.now).config (kvs_session self.now).visible name.now
            (kind_of asked.now))) }
    {
        self.session.get_as(name, asked)
    }

    /// The thing of a Rust type that a key's value is.
    ///
    /// # Errors
    ///
    /// `KeyNotFound` where the name is not visible; `IntegrityCorrupted` where the key is unreadable;
    /// `DataTypeMismatch` with the stored and the asked type where they differ; `OutOfMemory`, for the thing or for a
    /// refusal that carries texts.
    pub fn get_value<T: PerValue>(&self, name: &Name) -> Result<T, PerError>
        // The thing whose value is the one that `get_as` gives for the type of `T`, or the refusal that is due.
        ensures ok { IfOk result (λ thing.
            calls.get_as (kvs_session self.now).config (kvs_session self.now).visible name.now T.kind
            ≡ Ok (T.tree thing)) }
        ensures refused { IfErr result (λ error.
            IsRefusal (calls.get_as (kvs_session self.now).config (kvs_session self.now).visible name.now T.kind)
            error) }
        // Memory runs out for the thing, or for the names or types in a refusal.
        ensures memory { IfErr result (λ error. error ≡ PerError.OutOfMemory
            → NeedsMemory (calls.get_as (kvs_session self.now).config (kvs_session self.now).visible name.now T.kind)) }
    {
        self.session.get_value(name)
    }
}
