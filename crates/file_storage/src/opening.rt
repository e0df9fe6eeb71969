//! The opening of a storage of files.

ghost use Rattle.std.specs.Prelude.{◌≡◌, ◌≤◌, ◌+◌, [], IsTrue, IfOk, OnOk, IsErrOf, None, true, map};
ghost use Rattle.std.specs.List.{AllByRecursion};
ghost use Rattle.std.specs.List.Sorted.{IsStrictlySortedBy};
ghost use Rattle.per_base.specs.declared.elements.StoreKind.TheVariants as kinds;
ghost use Rattle.per_base.specs.Causes.{Rose};
ghost use Rattle.per_base.specs.Maps.{with_element};
ghost use Rattle.per_base.specs.Names.{name_cmp};
ghost use Rattle.disk_model.specs.Medium.{Quiet};
ghost use Rattle.deployment_model.specs.Conditions.{IsStorage};
ghost use Rattle.deployment_model.specs.Data.{storage_data};
ghost use Rattle.element_state.specs.Chosen.{opened_of};
ghost use Rattle.element_state.specs.Clean.{IsClean};
ghost use Rattle.element_state.specs.States.{State, store_at};
ghost use Rattle.element_state.specs.Views.{element_of};
ghost use Rattle.element_store.specs.Committing.{index_in};
ghost use Rattle.element_store.specs.Mends.{IsAsBefore, mending_cost};
ghost use Rattle.element_store.specs.Opened.{LacksNothing, OpensBy};
ghost use Rattle.element_store.specs.Stores.{IsUsed};
ghost use Rattle.element_maps.specs.Storages.{IsConfigured, IsOpened, IsStoring};
ghost use Rattle.file_storage.specs.FileSessions.{stored_in};
ghost use Rattle.file_storage.specs.Opened.{opened_as};
ghost use Rattle.file_storage.specs.StoredFiles.{IsStoredFile};

use crate::files::Files;
use deployment_model::StorageConfig;
use disk_model::Disk;
use element_laws::untouched_is_kept;
use element_maps::views_are_maps;
use element_state::{Shape, StoreError};
use element_store::{OpenedStore, open_store};
use file_core::File;
use file_handles::{FileTable, Storage};
use per_base::{Entry, Name, Report};
use std::alloc::{AllocError, Global};
use std::collections::BTreeMap;

/// A storage of files that was opened.
#[derive(Drop)]
pub struct OpenedFiles {
    pub files: Files,
    /// What was lacking, or could not be read: of the storage first, then of its files by their names.
    pub reports: Vec<Report>,
}

/// Opens a storage of files at what its copies hold; each readable file that some copy lacks is written again there.
/// The working files are the synchronised ones, there is no handle, and the moment is 0.
///
/// # Errors
///
/// `Corrupt` exactly where no text qualifies, as one does that enough copies support: then nothing is written. `Device`
/// where the disk fails, and `OutOfMemory`.
pub fn open_files<D: Disk>(
    alloc: Global,
    disk: &mut D,
    shape: Shape,
    config: &StorageConfig,
) -> Result<OpenedFiles, StoreError>
    requires valid { IsStorage (storage_data config.now) }
    // The shape is that of this configuration, and of a storage of files.
    requires configured { IsConfigured kinds.Files (storage_data config.now) shape }

    // It shows the view at which the storage opened, mended, with the reports of that view, in which any bytes pass as
    // a content; its index is that of the text at which it opened. The working files are those of this view.
    ensures opened { IfOk result (λ o. IsOpened D.told (D.medium disk.old).image shape (λ bytes. true) (opened_as o)) }
    ensures adopted { IsTrue D.told → IfOk result (λ o. OpensBy (D.medium disk.old).image shape
        (index_in o.files.store)) }
    ensures session { IfOk result (λ o. o.files.session ≡ record { files = stored_in o.files.store; handles = [] }) }
    ensures moment { IfOk result (λ o. o.files.moment ≡ 0) }
    ensures config { IfOk result (λ o. o.files.config ≡ storage_data config.now) }
    ensures used { IfOk result (λ o. IsUsed D.told (D.medium disk.new).image o.files.store) }
    // A clean place stays clean, and nothing is pending on the disk.
    ensures clean { IsTrue D.told → IsClean shape (D.medium disk.old).image
        → OnOk result (IsClean shape (D.medium disk.new).image) }
    ensures quiet { OnOk result (Quiet (D.medium disk.new)) }

    // `Corrupt` is answered only where no text qualifies; then no file changes, nothing is written, nothing is pending.
    ensures corrupt { IsTrue D.told → IsErrOf result StoreError.Corrupt
        → opened_of (store_at (D.medium disk.old).image shape) ≡ None }
    ensures untouched { IsErrOf result StoreError.Corrupt → (D.medium disk.new).image ≡ (D.medium disk.old).image }
    ensures unwritten { IsErrOf result StoreError.Corrupt → (D.medium disk.new).written ≡ (D.medium disk.old).written }
    ensures settled { IsErrOf result StoreError.Corrupt → Quiet (D.medium disk.new) }

    // The disk's count of faults rose where the answer is `Device`, and stayed with any other answer: `passes` says
    // so of an opening, `fed` where memory ran out, `unfailed` where nothing qualifies.
    ensures cause { IsErrOf result StoreError.Device → Rose (D.medium disk.old).faults (D.medium disk.new).faults }
    ensures passes { OnOk result ((D.medium disk.new).faults ≡ (D.medium disk.old).faults) }
    ensures fed { IsErrOf result StoreError.OutOfMemory → (D.medium disk.new).faults ≡ (D.medium disk.old).faults }
    ensures unfailed { IsErrOf result StoreError.Corrupt → (D.medium disk.new).faults ≡ (D.medium disk.old).faults }

    // Where every copy holds the index, no other text and each readable file, nothing is written.
    ensures idle { IsTrue D.told → LacksNothing shape (D.medium disk.old).image
        → IsAsBefore (D.medium disk.old) (D.medium disk.new) }
    // However it ends, no more than what copies lack of the view at which it opens, and the index; nothing where it
    // opens at none.
    ensures written { IsTrue D.told → (D.medium disk.new).written ≤ (D.medium disk.old).written
        + mending_cost shape.place.copies (opened_of (store_at (D.medium disk.old).image shape)) }

    // No file outside the place changes, and a stop at any moment leaves the storage as it was, and so on its way to
    // whatever state comes next.
    ensures storing { (after : State) → IsStoring D.told shape after (D.medium disk.old) (D.medium disk.new) }
{
    untouched_is_kept();
    views_are_maps();
    let name = config.name.copy()?;
    let storage = Storage {
        name,
        read_only: config.read_only,
        maximum: config.maximum,
    };
    let config = config.copy(alloc)?;
    let opened = open_store(alloc, disk, shape)?;
    let OpenedStore {
        store,
        reports,
        before,
    } = opened;
    let entries = before.entries.into_vec();
    let files = working_files(alloc, entries)?;
    let size = store.size();
    let table = FileTable::new(alloc, storage, files, size);
    let files = Files {
        alloc,
        config,
        store,
        table,
    };
    Ok(OpenedFiles { files, reports })
}

/// The files of these entries, moved.
fn working_files(alloc: Global, entries: Vec<Entry>) -> Result<BTreeMap<Name, File>, AllocError>
    requires each { AllByRecursion IsStoredFile entries.items }
    requires ascend { IsStrictlySortedBy name_cmp (map (λ e. e.name) entries.items) }
    ensures { IfOk result (λ files. files.entries ≡ map element_of entries.items) }
{
    let mut files = BTreeMap::new(alloc);
    for entry in entries {
        add(&mut files, entry)?;
    }
    Ok(files)
}

/// Adds the file of an entry, moved.
fn add(files: &mut BTreeMap<Name, File>, entry: Entry) -> Result<(), AllocError>
    requires { IsStoredFile entry }
    ensures { OnOk result (files.new.entries ≡ with_element files.old.entries entry.name (element_of entry).1) }
{
    let Entry {
        name,
        info,
        len,
        content,
        changed: _,
        lacking: _,
    } = entry;
    let Some(info) = info else {
        return Ok(());
    };
    files.insert(name, File::stored(info, len, content))?;
    Ok(())
}
