//! Writing keys: what the calls see changes, and nothing on the disk.

ghost use Rattle.std.specs.Prelude.{◌≡◌, ◌⊎◌, ◌↔◌, Err, IfErr, IfSome, IsErrOf, IsSomeAnd, None, Ok, OnErr, OnOk};
ghost use Rattle.std.specs.Prelude.{option_map};
ghost use Rattle.value_model.specs.Validity.{IsValue};
ghost use Rattle.kvs_core.specs.Calls.{remove_key, set_value};
ghost use Rattle.kvs_store.specs.Storages.{showing};
ghost use Rattle.kvs_laws.specs.Values.{HasValue};
ghost use Rattle.per_embed.specs.Owned.{asked_of};
ghost use Rattle.per_base.specs.Refusals.{IsRefusal, NeedsMemory};
ghost use Rattle.per_value.specs.Memory.{Allocates};

use crate::storages::KeyStorage;
use disk_model::Disk;
use kvs_laws::set_is_got;
use kvs_store::Kvs;
use per_base::{Name, PerError};
use per_value::PerValue;

impl<D: Disk + Drop> KeyStorage<D> {
    /// Sets a key to a value of a Rust type: the calls see it at once, and the next sync makes it durable.
    ///
    /// # Errors
    ///
    /// `LimitReached` with `ValueDepth` or `ValueBytes` where the value is too deep or too long; `IllegalWriteAccess`
    /// where the storage is read-only; `DataTypeMismatch` where the value's type differs from the configured one, or
    /// for a key that is not configured from that of its visible readable value; `LimitReached` with `Elements` where
    /// the name is not visible and 1,024 are; `OutOfStorageSpace` where the visible size would exceed the maximum, with
    /// both numbers; `OutOfMemory`; `PhysicalStorageFailure` where the storage is closed.
    pub fn set<T: PerValue>(&mut self, key: &Name, value: &T) -> Result<(), PerError>
        // The calls then see what `set_value` makes of what they saw.
        ensures ok { OnOk result (IsSomeAnd self.old.kvs (λ kvs. IsSomeAnd self.new.kvs (λ later.
            set_value kvs.config kvs.session.visible key.now (T.tree value.now) ≡ Ok later.session.visible))) }
        // What was set is what is got, of a value that is as deep and as long as values may be (`IsValue`).
        ensures got { OnOk result (IsValue (T.tree value.now) → IsSomeAnd self.new.kvs (λ later.
            HasValue (asked_of later key.now T.kind) later.session.visible (T.tree value.now))) }
        // A refusal is that of `set_value`, or `OutOfMemory`, which comes only where the value or the answer needs
        // memory.
        ensures refused { IfErr result (λ error. IfSome self.old.kvs (λ kvs.
            IsRefusal (set_value kvs.config kvs.session.visible key.now (T.tree value.now)) error)) }
        ensures memory { IfErr result (λ error. error ≡ PerError.OutOfMemory → IsSomeAnd self.old.kvs (λ kvs.
            Allocates T.kind ⊎ NeedsMemory (set_value kvs.config kvs.session.visible key.now (T.tree value.now)))) }
        // Nothing else changes, of the storage or of the disk, and by a refused call nothing at all.
        // `PhysicalStorageFailure` comes where the storage is closed, and only there.
        ensures beside { IfSome self.old.kvs (λ kvs. IsSomeAnd self.new.kvs (λ later.
            later ≡ showing kvs later.session.visible)) }
        ensures disk { self.new ≡ record self.old { kvs = self.new.kvs } }
        ensures unchanged { OnErr result (self.new ≡ self.old) }
        ensures closed { IsErrOf result PerError.PhysicalStorageFailure ↔ (self.old.kvs ≡ None) }
    {
        set_in(&mut self.kvs, key, value)
    }

    /// Removes a key: the calls no longer see it, and the next sync makes that durable. Does not allocate.
    ///
    /// # Errors
    ///
    /// `IllegalWriteAccess` where the storage is read-only; `KeyNotFound` where the name is not visible;
    /// `PhysicalStorageFailure` where the storage is closed.
    pub fn remove(&mut self, key: &Name) -> Result<(), PerError>
        // The calls then see what `remove_key` makes of what they saw, and a refusal is that of `remove_key`.
        ensures ok { OnOk result (IsSomeAnd self.old.kvs (λ kvs. IsSomeAnd self.new.kvs (λ later.
            remove_key kvs.config kvs.session.visible key.now ≡ Ok later.session.visible))) }
        ensures refused { IfErr result (λ error. IfSome self.old.kvs (λ kvs.
            remove_key kvs.config kvs.session.visible key.now ≡ Err error)) }
        // Nothing else changes, of the storage or of the disk, and by a refused call nothing at all. A storage that is
        // closed answers `PhysicalStorageFailure`.
        ensures beside { IfSome self.old.kvs (λ kvs. IsSomeAnd self.new.kvs (λ later.
            later ≡ showing kvs later.session.visible)) }
        ensures disk { self.new ≡ record self.old { kvs = self.new.kvs } }
        ensures unchanged { OnErr result (self.new ≡ self.old) }
        ensures closed { self.old.kvs ≡ None → result ≡ Err PerError.PhysicalStorageFailure }
    {
        remove_in(&mut self.kvs, key)
    }

    /// Discards what changed since the last sync: the calls see what is synchronised. Does not allocate.
    pub fn discard(&mut self)
        ensures discarded { self.new ≡ record self.old {
          kvs = option_map (λ kvs. showing kvs kvs.session.synced) self.old.kvs;
        } }
    {
        discard_in(&mut self.kvs);
    }
}

/// Sets a key in a storage that may be closed.
fn set_in<T: PerValue>(kvs: &mut Option<Kvs>, key: &Name, value: &T) -> Result<(), PerError>
    ensures ok { OnOk result (IsSomeAnd kvs.old (λ old. IsSomeAnd kvs.new (λ later.
        set_value old.config old.session.visible key.now (T.tree value.now) ≡ Ok later.session.visible))) }
    ensures got { OnOk result (IsValue (T.tree value.now) → IsSomeAnd kvs.new (λ later.
        HasValue (asked_of later key.now T.kind) later.session.visible (T.tree value.now))) }
    ensures refused { IfErr result (λ error. IfSome kvs.old (λ old.
        IsRefusal (set_value old.config old.session.visible key.now (T.tree value.now)) error)) }
    ensures memory { IfErr result (λ error. error ≡ PerError.OutOfMemory → IsSomeAnd kvs.old (λ old.
        Allocates T.kind ⊎ NeedsMemory (set_value old.config old.session.visible key.now (T.tree value.now)))) }
    ensures beside { IfSome kvs.old (λ old. IsSomeAnd kvs.new (λ later. later ≡ showing old later.session.visible)) }
    ensures unchanged { OnErr result (kvs.new ≡ kvs.old) }
    ensures closed { IsErrOf result PerError.PhysicalStorageFailure ↔ (kvs.old ≡ None) }
{
    set_is_got();
    match kvs {
        Some(kvs) => kvs.set_value(key, value),
        None => Err(PerError::PhysicalStorageFailure),
    }
}

/// Removes a key in a storage that may be closed.
fn remove_in(kvs: &mut Option<Kvs>, key: &Name) -> Result<(), PerError>
    ensures ok { OnOk result (IsSomeAnd kvs.old (λ old. IsSomeAnd kvs.new (λ later.
        remove_key old.config old.session.visible key.now ≡ Ok later.session.visible))) }
    ensures refused { IfErr result (λ error. IfSome kvs.old (λ old.
        remove_key old.config old.session.visible key.now ≡ Err error)) }
    ensures beside { IfSome kvs.old (λ old. IsSomeAnd kvs.new (λ later. later ≡ showing old later.session.visible)) }
    ensures unchanged { OnErr result (kvs.new ≡ kvs.old) }
    ensures closed { kvs.old ≡ None → result ≡ Err PerError.PhysicalStorageFailure }
{
    match kvs {
        Some(kvs) => kvs.remove_key(key),
        None => Err(PerError::PhysicalStorageFailure),
    }
}

/// Discards the pending changes of a storage that may be closed.
fn discard_in(kvs: &mut Option<Kvs>)
    ensures { kvs.new ≡ option_map (λ old. showing old old.session.synced) kvs.old }
{
    if let Some(kvs) = kvs {
        kvs.discard_pending_changes();
    }
}
