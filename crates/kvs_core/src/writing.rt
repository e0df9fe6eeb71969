//! Writing and removing keys.

ghost use Rattle.std.specs.Prelude.{◌≡◌, ◌≢◌, ◌<◌, ◌≤◌, ◌⊎◌, ◌&&◌, nat_le, not, IfErr, IsTrue, None, Ok, OnErr, OnOk};
ghost use Rattle.std.specs.Prelude.{length};
ghost use Rattle.per_base.specs.declared.elements.Element.{Element};
ghost use Rattle.per_base.specs.declared.errors.PerError.{PerError};
ghost use Rattle.per_base.specs.Maps.{element_at, has, size_of, with_element};
ghost use Rattle.per_base.specs.Contents.{is_readable};
ghost use Rattle.per_base.specs.Refusals.{IsRefusal, NeedsMemory};
ghost use Rattle.value_model.specs.Encoding.{encoding};
ghost use Rattle.per_value.specs.Memory.{Allocates};
ghost use Rattle.key_maps.specs.KeyElements.{key_of};
ghost use Rattle.kvs_core.specs.Calls as calls;

use crate::session::KeySession;
use key_maps::{KEYS, KeyElement, StoredValue};
use per_base::{Limit, Name, PerError, element_size};
use per_value::PerValue;
use value_model::{Value, ValueError};

impl KeySession {
    /// Sets a key to a value. The key is created where the name is not visible.
    ///
    /// # Errors
    ///
    /// `IllegalWriteAccess` where the storage is read-only; `DataTypeMismatch` where the value's type differs from the
    /// configured one, or for a key that is not configured from that of its visible readable value; `LimitReached` with
    /// `Elements` where the name is not visible and 1,024 are; `OutOfStorageSpace` where the visible size would exceed
    /// the maximum, with both numbers; `OutOfMemory`.
    pub fn set_any(&mut self, name: &Name, value: Value) -> Result<(), PerError>
        // The visible map is then what `set_any` makes of it, or the refusal that is due is given.
        ensures ok { OnOk result (calls.set_any self.old.config self.old.visible name.now value ≡ Ok self.new.visible) }
        ensures refused { IfErr result (λ error. IsRefusal
            (calls.set_any self.old.config self.old.visible name.now value) error) }
        // Memory runs out where nothing refuses it, or for the types in `DataTypeMismatch`.
        ensures memory { IfErr result (λ error. error ≡ PerError.OutOfMemory
            → NeedsMemory (calls.set_any self.old.config self.old.visible name.now value)) }
        ensures beside { self.new ≡ record self.old { visible = self.new.visible } }
        ensures unchanged { OnErr result (self.new ≡ self.old) }
    {
        self.set_copy(name, &value)
    }

    /// Sets a key to a value, which is encoded once nothing can refuse it. The key is created where the name is not
    /// visible.
    ///
    /// # Errors
    ///
    /// `IllegalWriteAccess` where the storage is read-only; `DataTypeMismatch` where the value's type differs from the
    /// configured one, or for a key that is not configured from that of its visible readable value; `LimitReached` with
    /// `Elements` where the name is not visible and 1,024 are; `OutOfStorageSpace` where the visible size would exceed
    /// the maximum, with both numbers; `OutOfMemory`.
    #[tactic(auto, using(crate::proofs::Contents::needs_done))]
    pub fn set_copy(&mut self, name: &Name, value: &Value) -> Result<(), PerError>
        // The visible map is then what `set_any` makes of it, or the refusal that is due is given.
        ensures ok { OnOk result (calls.set_any self.old.config self.old.visible name.now value.now
            ≡ Ok self.new.visible) }
        ensures refused { IfErr result (λ error. IsRefusal
            (calls.set_any self.old.config self.old.visible name.now value.now) error) }
        // Memory runs out where nothing refuses it, or for the types in `DataTypeMismatch`.
        ensures memory { IfErr result (λ error. error ≡ PerError.OutOfMemory
            → NeedsMemory (calls.set_any self.old.config self.old.visible name.now value.now)) }
        ensures beside { self.new ≡ record self.old { visible = self.new.visible } }
        ensures unchanged { OnErr result (self.new ≡ self.old) }
    {
        self.check_any(name, value)?;
        self.write(name, value)
    }

    /// Sets a key to a value of a Rust type. The key is created where the name is not visible.
    ///
    /// # Errors
    ///
    /// `LimitReached` with `ValueDepth` or `ValueBytes` where the value is too deep or too long; then as `set_any`.
    pub fn set_value<T: PerValue>(&mut self, name: &Name, value: &T) -> Result<(), PerError>
        // The visible map is then what `set_value` makes of it for the value of the thing, or the refusal that is due
        // is given.
        ensures ok { OnOk result (calls.set_value self.old.config self.old.visible name.now (T.tree value.now)
            ≡ Ok self.new.visible) }
        ensures refused { IfErr result (λ error. IsRefusal
            (calls.set_value self.old.config self.old.visible name.now (T.tree value.now)) error) }
        // Memory runs out for the value itself, where nothing refuses it, or for the types in `DataTypeMismatch`.
        ensures memory { IfErr result (λ error. error ≡ PerError.OutOfMemory
            → Allocates T.kind ⊎ NeedsMemory (calls.set_value self.old.config self.old.visible name.now
            (T.tree value.now))) }
        ensures beside { self.new ≡ record self.old { visible = self.new.visible } }
        ensures unchanged { OnErr result (self.new ≡ self.old) }
    {
        match value.to_value(self.alloc) {
            Ok(value) => self.set_any(name, value),
            Err(ValueError::TooDeep) => Err(PerError::LimitReached {
                which: Limit::ValueDepth,
            }),
            Err(ValueError::TooLong) => Err(PerError::LimitReached {
                which: Limit::ValueBytes,
            }),
            Err(_) => Err(PerError::OutOfMemory),
        }
    }

    /// Removes a key. Does not allocate.
    ///
    /// # Errors
    ///
    /// `IllegalWriteAccess` where the storage is read-only;
    /// `KeyNotFound` where the name is not visible.
    pub fn remove_key(&mut self, name: &Name) -> Result<(), PerError>
        // The visible keys are then those that `remove_key` leaves, or the refusal that is due is given; all else
        // stays.
        ensures ok { OnOk result (calls.remove_key self.old.config self.old.visible name.now ≡ Ok self.new.visible) }
        ensures refused { IfErr result (λ error. calls.remove_key self.old.config self.old.visible name.now
            ≡ Err error) }
        ensures beside { self.new ≡ record self.old { visible = self.new.visible } }
        ensures unchanged { OnErr result (self.new ≡ self.old) }
    {
        if self.config.read_only {
            return Err(PerError::IllegalWriteAccess);
        }
        if !self.maps.remove(name) {
            return Err(PerError::KeyNotFound);
        }
        Ok(())
    }

    /// Removes all keys. Does not allocate.
    ///
    /// # Errors
    ///
    /// `IllegalWriteAccess` where the storage is read-only.
    pub fn remove_all_keys(&mut self) -> Result<(), PerError>
        // Then no key is visible, or the refusal that is due is given; all else stays.
        ensures ok { OnOk result (calls.remove_all_keys self.old.config self.old.visible ≡ Ok self.new.visible) }
        ensures refused { IfErr result (λ error. calls.remove_all_keys self.old.config self.old.visible ≡ Err error) }
        ensures beside { self.new ≡ record self.old { visible = self.new.visible } }
        ensures unchanged { OnErr result (self.new ≡ self.old) }
    {
        if self.config.read_only {
            return Err(PerError::IllegalWriteAccess);
        }
        self.maps.clear();
        Ok(())
    }

    /// Refuses a value as `check_value` does, one whose key would be one too many, and one for which there is no room.
    #[tactic(auto, using(crate::proofs::Contents::few_without, crate::proofs::Contents::lacks_place))]
    fn check_any(&self, name: &Name, value: &Value) -> Result<(), PerError>
        ensures ok { OnOk result (calls.set_any self.now.config self.now.visible name.now value.now
            ≡ Ok (with_element self.now.visible name.now (key_of (encoding value.now)))) }
        ensures place { OnOk result (element_at self.now.visible name.now ≡ None → length self.now.visible < KEYS) }
        ensures room { OnOk result (size_of (with_element self.now.visible name.now (key_of (encoding value.now)))
            ≤ self.now.config.maximum) }
        ensures refused { IfErr result (λ error. IsRefusal
            (calls.set_any self.now.config self.now.visible name.now value.now) error) }
        ensures memory { IfErr result (λ error. error ≡ PerError.OutOfMemory
            → NeedsMemory (calls.set_any self.now.config self.now.visible name.now value.now)) }
    {
        self.check_value(name, value)?;
        if self.is_full(name) {
            return Err(PerError::LimitReached {
                which: Limit::Elements,
            });
        }
        let _valid = value.node();
        self.has_room(name, value.encoded_len() as u32)
    }

    /// Sets a key to a value, which fits. The key is visible, or one more is allowed.
    fn write(&mut self, name: &Name, value: &Value) -> Result<(), PerError>
        requires place { element_at self.old.visible name.now ≡ None → length self.old.visible < KEYS }
        requires room { size_of (with_element self.old.visible name.now (key_of (encoding value.now)))
            ≤ self.old.config.maximum }
        ensures ok { OnOk result (self.new ≡ record self.old {
          visible = with_element self.old.visible name.now (key_of (encoding value.now));
        }) }
        ensures memory { IfErr result (λ error. error ≡ PerError.OutOfMemory) }
        ensures unchanged { OnErr result (self.new ≡ self.old) }
    {
        match StoredValue::new(self.alloc, value) {
            Ok(stored) => self.put(name, KeyElement::new(stored)),
            Err(_) => Err(PerError::OutOfMemory),
        }
    }

    /// Whether a key of this name would be one more than a storage may have.
    pub(crate) fn is_full(&self, name: &Name) -> bool
        ensures { result ≡ (not (has self.now.visible name.now) && nat_le 1024 (length self.now.visible)) }
    {
        self.maps.count() >= KEYS && !self.maps.has(name)
    }

    /// Whether there is room for a key whose encoding has this length. Does not allocate.
    #[tactic(auto, using(crate::proofs::Sizes::size_most))]
    pub(crate) fn has_room(&self, name: &Name, len: u32) -> Result<(), PerError>
        ensures ok { OnOk result ((key : Element) → key.len ≡ len
            → size_of (with_element self.now.visible name.now key) ≤ self.now.config.maximum) }
        ensures refused { IfErr result (λ error. (key : Element) → key.len ≡ len
            → calls.with_room self.now.config (with_element self.now.visible name.now key) ≡ Err error) }
        ensures space { IfErr result (λ error. error ≢ PerError.OutOfMemory) }
    {
        self.maps.invariants();
        // Room for one key more is room for this one in any case, and so most keys are not looked up here.
        if self.maps.size() + element_size(name, len) <= self.config.maximum {
            return Ok(());
        }
        let needed = self.maps.size_with(name, len);
        if needed > self.config.maximum {
            return Err(PerError::OutOfStorageSpace {
                needed,
                allowed: self.config.maximum,
            });
        }
        Ok(())
    }

    /// Sets a readable key, which fits. It is visible, or one more is allowed.
    pub(crate) fn put(&mut self, name: &Name, key: KeyElement) -> Result<(), PerError>
        requires readable { IsTrue (is_readable key.content) }
        requires place { element_at self.old.visible name.now ≡ None → length self.old.visible < KEYS }
        requires room { size_of (with_element self.old.visible name.now key) ≤ self.old.config.maximum }
        ensures ok { OnOk result (self.new ≡ record self.old { visible = with_element self.old.visible name.now key }) }
        ensures memory { IfErr result (λ error. error ≡ PerError.OutOfMemory) }
        ensures unchanged { OnErr result (self.new ≡ self.old) }
    {
        match self.maps.put(name, key) {
            Ok(()) => Ok(()),
            Err(_) => Err(PerError::OutOfMemory),
        }
    }
}
