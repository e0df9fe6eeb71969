//! The opening of a key-value storage.

ghost use Rattle.std.specs.Prelude.{◌≡◌, ◌≤◌, ◌+◌, IsTrue, IfOk, OnOk, IsErrOf, None};
ghost use Rattle.per_base.specs.declared.elements.StoreKind.TheVariants.{Keys};
ghost use Rattle.per_base.specs.Causes.{Rose};
ghost use Rattle.disk_model.specs.Medium.{Quiet};
ghost use Rattle.deployment_model.specs.Conditions.{IsStorage};
ghost use Rattle.deployment_model.specs.Data.{storage_data};
ghost use Rattle.element_state.specs.Chosen.{opened_of};
ghost use Rattle.element_state.specs.Clean.{IsClean};
ghost use Rattle.element_state.specs.States.{State, store_at};
ghost use Rattle.element_store.specs.Committing.{index_in};
ghost use Rattle.element_store.specs.Mends.{IsAsBefore, mending_cost};
ghost use Rattle.element_store.specs.Opened.{LacksNothing, OpensBy};
ghost use Rattle.element_store.specs.Stores.{IsUsed};
ghost use Rattle.element_maps.specs.Storages.{IsConfigured, IsOpened, IsStoring};
ghost use Rattle.key_maps.specs.KeyElements.{is_encoding};
ghost use Rattle.kvs_store.specs.Opened.{opened_as};

use crate::judging::judged;
use crate::storages::Kvs;
use deployment_model::StorageConfig;
use disk_model::Disk;
use element_laws::untouched_is_kept;
use element_state::{Shape, StoreError};
use element_store::{OpenedStore, open_store, reports_of};
use kvs_core::KeySession;
use per_base::Report;
use std::alloc::Global;

/// A key-value storage that was opened.
#[derive(Drop)]
pub struct OpenedKvs {
    pub kvs: Kvs,
    /// What was lacking, or could not be read: of the storage first, then of its keys by their names.
    pub reports: Vec<Report>,
}

/// Opens a key-value storage: brings every copy to the text at which it opens, writes each key on which enough copies
/// agree into the copies that lack it, and reads all keys.
///
/// # Errors
///
/// `Corrupt` exactly where no text qualifies, as one does that enough copies support: then nothing is written. `Device`
/// where the disk fails, and `OutOfMemory`.
pub fn open_kvs<D: Disk>(
    alloc: Global,
    disk: &mut D,
    shape: Shape,
    config: &StorageConfig,
) -> Result<OpenedKvs, StoreError>
    requires valid { IsStorage (storage_data config.now) }
    // The shape is that of this configuration, and of a storage of keys.
    requires configured { IsConfigured Keys (storage_data config.now) shape }

    // It shows the view at which the storage opened, mended, with the reports of that view; its index is that of the
    // text at which it opened. What is synchronised is the keys of this view, judged, and it is what the calls see.
    ensures opened { IfOk result (λ o. IsOpened D.told (D.medium disk.old).image shape is_encoding (opened_as o)) }
    ensures adopted { IsTrue D.told → IfOk result (λ o. OpensBy (D.medium disk.old).image shape
        (index_in o.kvs.store)) }
    ensures session { IfOk result (λ o. o.kvs.session.visible ≡ o.kvs.session.synced) }
    ensures config { IfOk result (λ o. o.kvs.config ≡ storage_data config.now) }
    ensures used { IfOk result (λ o. IsUsed D.told (D.medium disk.new).image o.kvs.store) }
    // A clean place stays clean, and nothing is pending on the disk.
    ensures clean { IsTrue D.told → IsClean shape (D.medium disk.old).image
        → OnOk result (IsClean shape (D.medium disk.new).image) }
    ensures quiet { OnOk result (Quiet (D.medium disk.new)) }

    // `Corrupt` is answered only where no text qualifies; then no file changes, nothing is written, nothing is pending.
    ensures corrupt { IsTrue D.told → IsErrOf result StoreError.Corrupt
        → opened_of (store_at (D.medium disk.old).image shape) ≡ None }
    ensures untouched { IsErrOf result StoreError.Corrupt → (D.medium disk.new).image ≡ (D.medium disk.old).image }
    ensures unwritten { IsErrOf result StoreError.Corrupt → (D.medium disk.new).written ≡ (D.medium disk.old).written }
    ensures settled { IsErrOf result StoreError.Corrupt → Quiet (D.medium disk.new) }

    // The disk's count of faults rose where the answer is `Device`, and stayed with any other answer: `passes` says
    // so of an opening, `fed` where memory ran out, `unfailed` where nothing qualifies.
    ensures cause { IsErrOf result StoreError.Device → Rose (D.medium disk.old).faults (D.medium disk.new).faults }
    ensures passes { OnOk result ((D.medium disk.new).faults ≡ (D.medium disk.old).faults) }
    ensures fed { IsErrOf result StoreError.OutOfMemory → (D.medium disk.new).faults ≡ (D.medium disk.old).faults }
    ensures unfailed { IsErrOf result StoreError.Corrupt → (D.medium disk.new).faults ≡ (D.medium disk.old).faults }

    // Where every copy holds the index, no other text and each key on which enough agree, nothing is written.
    ensures idle { IsTrue D.told → LacksNothing shape (D.medium disk.old).image
        → IsAsBefore (D.medium disk.old) (D.medium disk.new) }
    // However it ends, no more than what copies lack of the view at which it opens, and the index; nothing where it
    // opens at none.
    ensures written { IsTrue D.told → (D.medium disk.new).written ≤ (D.medium disk.old).written
        + mending_cost shape.place.copies (opened_of (store_at (D.medium disk.old).image shape)) }

    // No file outside the place changes, and a stop at any moment leaves the storage as it was, and so on its way to
    // whatever state comes next.
    ensures storing { (after : State) → IsStoring D.told shape after (D.medium disk.old) (D.medium disk.new) }
{
    untouched_is_kept();
    let copy = shape.copy()?;
    let OpenedStore { store, before, .. } = open_store(alloc, disk, shape)?;
    let session = KeySession::new(alloc, config, store.entries())?;
    let seen = judged(alloc, &session, before)?;
    let reports = reports_of(alloc, &copy, &seen)?;
    let kvs = Kvs {
        alloc,
        store,
        session,
    };
    Ok(OpenedKvs { kvs, reports })
}
