//! Reading keys.

ghost use Rattle.std.specs.Prelude.{◌≡◌, ◌↔◌, IfErr, IfOk, IfSome, IsErrOf, IsSomeAnd, IsTrue, None};
ghost use Rattle.kvs_core.specs.Calls.{get_as};
ghost use Rattle.kvs_laws.specs.Values.{HasValue, ReadsAs};
ghost use Rattle.element_store.specs.Stores.{store_shape};
ghost use Rattle.per_embed.specs.Owned.{IsSaved, asked_of};
ghost use Rattle.per_base.specs.Refusals.{IsRefusal, NeedsMemory};

use crate::storages::KeyStorage;
use disk_model::Disk;
use kvs_laws::values_stand;
use kvs_store::Kvs;
use per_base::{Name, PerError};
use per_value::PerValue;

impl<D: Disk + Drop> KeyStorage<D> {
    /// A key's value as one of a Rust type, as the calls see it.
    ///
    /// # Errors
    ///
    /// `KeyNotFound` where it is not visible; `IntegrityCorrupted` where it is unreadable; `DataTypeMismatch` with the
    /// stored and the asked type where they differ; `OutOfMemory`; `PhysicalStorageFailure` where the storage is
    /// closed.
    pub fn get<T: PerValue>(&self, key: &Name) -> Result<T, PerError>
        // The value that the calls see of the key, as one of the asked type; or the refusal of `get_as`, or
        // `OutOfMemory`, which comes only where the answer needs memory. `PhysicalStorageFailure` comes where the
        // storage is closed, and only there.
        ensures ok { IfOk result (λ thing. IsSomeAnd self.now.kvs (λ kvs.
            HasValue (asked_of kvs key.now T.kind) kvs.session.visible (T.tree thing))) }
        ensures refused { IfErr result (λ error. IfSome self.now.kvs (λ kvs.
            IsRefusal (get_as kvs.config kvs.session.visible key.now T.kind) error)) }
        ensures memory { IfErr result (λ error. error ≡ PerError.OutOfMemory → IsSomeAnd self.now.kvs (λ kvs.
            NeedsMemory (get_as kvs.config kvs.session.visible key.now T.kind))) }
        ensures closed { IsErrOf result PerError.PhysicalStorageFailure ↔ (self.now.kvs ≡ None) }

        // Where nothing is pending, the value is the one that the disk reads.
        ensures reads { IfOk result (λ thing. IsTrue D.told → IfSome self.now.kvs (λ kvs. IsSaved kvs
            → ReadsAs (asked_of kvs key.now T.kind) (store_shape kvs.store) (T.tree thing)
            (D.medium self.now.disk).image)) }
    {
        values_stand();
        get_in(&self.kvs, key)
    }
}

/// A key's value as one of a Rust type, in a storage that may be closed.
fn get_in<T: PerValue>(kvs: &Option<Kvs>, key: &Name) -> Result<T, PerError>
    ensures ok { IfOk result (λ thing. IsSomeAnd kvs.now (λ kvs.
        HasValue (asked_of kvs key.now T.kind) kvs.session.visible (T.tree thing))) }
    ensures refused { IfErr result (λ error. IfSome kvs.now (λ kvs.
        IsRefusal (get_as kvs.config kvs.session.visible key.now T.kind) error)) }
    ensures memory { IfErr result (λ error. error ≡ PerError.OutOfMemory → IsSomeAnd kvs.now (λ kvs.
        NeedsMemory (get_as kvs.config kvs.session.visible key.now T.kind))) }
    ensures closed { IsErrOf result PerError.PhysicalStorageFailure ↔ (kvs.now ≡ None) }
{
    match kvs {
        Some(kvs) => kvs.get_value(key),
        None => Err(PerError::PhysicalStorageFailure),
    }
}
