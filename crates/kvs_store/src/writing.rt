//! Writing, removing and restoring keys: what the calls see changes, and nothing on the disk.

ghost use Rattle.std.specs.Prelude.{◌≡◌, ◌⊎◌, IfErr, OnErr, OnOk, Some};
ghost use Rattle.per_base.specs.declared.elements.Element.{Element};
ghost use Rattle.per_base.specs.Maps.{element_at};
ghost use Rattle.per_base.specs.Refusals.{IsRefusal, NeedsMemory};
ghost use Rattle.per_value.specs.Memory.{Allocates};
ghost use Rattle.deployment_model.specs.Lookups.{initial_content};
ghost use Rattle.kvs_core.specs.Calls as calls;
ghost use Rattle.kvs_store.specs.Storages.{kvs_session, showing};

use crate::storages::Kvs;
use per_base::{Name, PerError};
use per_value::PerValue;
use value_model::Value;

impl Kvs {
    /// Sets a key to a value. The key is created where the name is not visible.
    ///
    /// # Errors
    ///
    /// `IllegalWriteAccess` where the storage is read-only; `DataTypeMismatch` where the value's type differs from the
    /// configured one, or for a key that is not configured from that of its visible readable value; `LimitReached` with
    /// `Elements` where the name is not visible and 1,024 are; `OutOfStorageSpace` where the visible size would exceed
    /// the maximum, with both numbers; `OutOfMemory`.
    pub fn set_any(&mut self, name: &Name, value: Value) -> Result<(), PerError>
        // The visible keys are then those that `set_any` makes, or the refusal that is due is given.
        ensures ok { OnOk result (calls.set_any (kvs_session self.old).config (kvs_session self.old).visible name.now
            value ≡ Ok (kvs_session self.new).visible) }
        ensures refused { IfErr result (λ error.
            IsRefusal (calls.set_any (kvs_session self.old).config (kvs_session self.old).visible name.now value)
            error) }
        // Memory runs out where nothing refuses it, or for the types in `DataTypeMismatch`.
        ensures memory { IfErr result (λ error. error ≡ PerError.OutOfMemory
            → NeedsMemory (calls.set_any (kvs_session self.old).config (kvs_session self.old).visible name.now
            value)) }
        ensures beside { self.new ≡ showing self.old (kvs_session self.new).visible }
        ensures unchanged { OnErr result (self.new ≡ self.old) }
    {
        self.session.set_any(name, value)
    }

    /// Sets a key to a value, which is encoded once nothing can refuse it. The key is created where the name is not
    /// visible.
    ///
    /// # Errors
    ///
    /// `IllegalWriteAccess` where the storage is read-only; `DataTypeMismatch` where the value's type differs from the
    /// configured one, or for a key that is not configured from that of its visible readable value; `LimitReached` with
    /// `Elements` where the name is not visible and 1,024 are; `OutOfStorageSpace` where the visible size would exceed
    /// the maximum, with both numbers; `OutOfMemory`.
    pub fn set_copy(&mut self, name: &Name, value: &Value) -> Result<(), PerError>
        // The visible keys are then those that `set_any` makes, or the refusal that is due is given.
        ensures ok { OnOk result (calls.set_any (kvs_session self.old).config (kvs_session self.old).visible name.now
            value.now ≡ Ok (kvs_session self.new).visible) }
        ensures refused { IfErr result (λ error.
            IsRefusal (calls.set_any (kvs_session self.old).config (kvs_session self.old).visible name.now value.now)
            error) }
        // Memory runs out where nothing refuses it, or for the types in `DataTypeMismatch`.
        ensures memory { IfErr result (λ error. error ≡ PerError.OutOfMemory
            → NeedsMemory (calls.set_any (kvs_session self.old).config (kvs_session self.old).visible name.now
            value.now)) }
        ensures beside { self.new ≡ showing self.old (kvs_session self.new).visible }
        ensures unchanged { OnErr result (self.new ≡ self.old) }
    {
        self.session.set_copy(name, value)
    }

    /// Sets a key to a value of a Rust type. The key is created where the name is not visible.
    ///
    /// # Errors
    ///
    /// `LimitReached` with `ValueDepth` or `ValueBytes` where the value is too deep or too long; then as `set_any`.
    pub fn set_value<T: PerValue>(&mut self, name: &Name, value: &T) -> Result<(), PerError>
        // The visible keys are then those that `set_value` makes for the thing's value, or the refusal that is due is
        // given.
        ensures ok { OnOk result (calls.set_value (kvs_session self.old).config (kvs_session self.old).visible name.now
            (T.tree value.now) ≡ Ok (kvs_session self.new).visible) }
        ensures refused { IfErr result (λ error.
            IsRefusal (calls.set_value (kvs_session self.old).config (kvs_session self.old).visible name.now
            (T.tree value.now)) error) }
        // Memory runs out where the thing's value is allocated, which comes first; where nothing refuses it; or for
        // the types in `DataTypeMismatch`.
        ensures memory { IfErr result (λ error. error ≡ PerError.OutOfMemory → Allocates T.kind
            ⊎ NeedsMemory (calls.set_value (kvs_session self.old).config (kvs_session self.old).visible name.now
            (T.tree value.now))) }
        ensures beside { self.new ≡ showing self.old (kvs_session self.new).visible }
        ensures unchanged { OnErr result (self.new ≡ self.old) }
    {
        self.session.set_value(name, value)
    }

    /// Removes a key. Does not allocate.
    ///
    /// # Errors
    ///
    /// `IllegalWriteAccess` where the storage is read-only; `KeyNotFound` where the name is not visible.
    pub fn remove_key(&mut self, name: &Name) -> Result<(), PerError>
        // The visible keys are then those that `remove_key` leaves, or the refusal that is due is given.
        ensures ok { OnOk result (calls.remove_key (kvs_session self.old).config (kvs_session self.old).visible name.now
            ≡ Ok (kvs_session self.new).visible) }
        ensures refused { IfErr result (λ error. calls.remove_key (kvs_session self.old).config
            (kvs_session self.old).visible name.now ≡ Err error) }
        ensures beside { self.new ≡ showing self.old (kvs_session self.new).visible }
        ensures unchanged { OnErr result (self.new ≡ self.old) }
    {
        self.session.remove_key(name)
    }

    /// Removes all keys. Does not allocate.
    ///
    /// # Errors
    ///
    /// `IllegalWriteAccess` where the storage is read-only.
    pub fn remove_all_keys(&mut self) -> Result<(), PerError>
        // Then no key is visible, or the refusal that is due is given.
        ensures ok { OnOk result (calls.remove_all_keys (kvs_session self.old).config (kvs_session self.old).visible
            ≡ Ok (kvs_session self.new).visible) }
        ensures refused { IfErr result (λ error. calls.remove_all_keys (kvs_session self.old).config
            (kvs_session self.old).visible ≡ Err error) }
        ensures beside { self.new ≡ showing self.old (kvs_session self.new).visible }
        ensures unchanged { OnErr result (self.new ≡ self.old) }
    {
        self.session.remove_all_keys()
    }

    /// Recovers a key: a readable one stays as it is; an unreadable one becomes its salvage, else its initial value,
    /// else it is removed.
    ///
    /// # Errors
    ///
    /// `IllegalWriteAccess` where the storage is read-only; `KeyNotFound` where the name is not visible;
    /// `OutOfStorageSpace` where the initial value does not fit; `OutOfMemory`.
    pub fn recover_key(&mut self, name: &Name) -> Result<(), PerError>
        // The visible keys are then those that `recover_key` makes, or the refusal that is due is given.
        ensures ok { OnOk result (calls.recover_key (kvs_session self.old).config
            (kvs_session self.old).visible name.now
            ≡ Ok (kvs_session self.new).visible) }
        ensures refused { IfErr result (λ error.
            IsRefusal (calls.recover_key (kvs_session self.old).config (kvs_session self.old).visible name.now) error) }
        // `OutOfMemory` never comes instead of a refusal, and only where a salvage or an initial value is copied.
        ensures memory { IfErr result (λ error. error ≡ PerError.OutOfMemory
            → NeedsMemory (calls.recover_key (kvs_session self.old).config (kvs_session self.old).visible name.now)) }
        ensures copies { IfErr result (λ error. error ≡ PerError.OutOfMemory → (key : Element)
            → element_at (kvs_session self.old).visible name.now ≡ Some key
            → calls.TakesCopy (initial_content (kvs_session self.old).config name.now) key.content) }
        ensures beside { self.new ≡ showing self.old (kvs_session self.new).visible }
        ensures unchanged { OnErr result (self.new ≡ self.old) }
    {
        self.session.recover_key(name)
    }

    /// Sets a key to its initial value.
    ///
    /// # Errors
    ///
    /// `IllegalWriteAccess` where the storage is read-only; `InitValueNotAvailable` where there is no initial value;
    /// `LimitReached` with `Elements` where the name is not visible and 1,024 are; `OutOfStorageSpace` where the
    /// initial value does not fit; `OutOfMemory`.
    pub fn reset_key(&mut self, name: &Name) -> Result<(), PerError>
        // The visible keys are then those that `reset_key` makes of them.
        ensures ok { OnOk result (calls.reset_key (kvs_session self.old).config (kvs_session self.old).visible name.now
            ≡ Ok (kvs_session self.new).visible) }
        // The refusal that is due, or `OutOfMemory`.
        ensures refused { IfErr result (λ error.
            IsRefusal (calls.reset_key (kvs_session self.old).config (kvs_session self.old).visible name.now) error) }
        // `OutOfMemory` never comes instead of a refusal.
        ensures memory { IfErr result (λ error. error ≡ PerError.OutOfMemory
            → NeedsMemory (calls.reset_key (kvs_session self.old).config (kvs_session self.old).visible name.now)) }
        ensures beside { self.new ≡ showing self.old (kvs_session self.new).visible }
        ensures unchanged { OnErr result (self.new ≡ self.old) }
    {
        self.session.reset_key(name)
    }

    /// Discards the pending changes: the synchronised keys are visible again. Does not allocate.
    pub fn discard_pending_changes(&mut self)
        // What the calls see is then what is synchronised; nothing else changes.
        ensures discarded { self.new ≡ showing self.old (kvs_session self.old).synced }
    {
        self.session.discard_pending_changes();
    }
}
