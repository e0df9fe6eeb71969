//! Making the working files durable.

ghost use Rattle.std.specs.Prelude.{◌≡◌, [], IsTrue, IfOk, IfErr, Some, None, IsSome, true, false, length, List, ℕ};
ghost use Rattle.std.specs.Prelude.{◌<◌, OnOk, map};
ghost use Rattle.per_base.specs.Causes.{Rose};
ghost use Rattle.per_base.specs.Faults.{HandsBack, IsDeviceFault};
ghost use Rattle.guarded_cell.specs.Register.{IsAlone};
ghost use Rattle.index_text.specs.Spelling.{index_text};
ghost use Rattle.element_state.specs.States.{Opens, greatest_generation, store_at};
ghost use Rattle.element_state.specs.Views.{map_of};
ghost use Rattle.element_maps.specs.Sessions.{IsSync};
ghost use Rattle.element_maps.specs.Storages.{IsDurable, IsStoring, KeepsEqual};
ghost use Rattle.element_store.specs.Committing.{index_in, index_length};
ghost use Rattle.element_store.specs.Stores.{IsStore, IsUsed, store_shape, view_in};
ghost use Rattle.file_storage.specs.Closes.{MatchClosed, OnDone};
ghost use Rattle.file_storage.specs.FileSessions.{FilesInUse, stored_in};
ghost use Rattle.file_storage.specs.Syncs.{IsSynced, WritesAtMost, close_refused, due_changes, is_synced};
ghost use Rattle.file_storage.specs.Syncs.{sync_refused, synced_view, worn};
ghost use Rattle.file_storage.specs.Walks.{bare};

use crate::differences::{are_same, copy_contents, differences};
use crate::files::Files;
use disk_model::Disk;
use element_laws::untouched_is_kept;
use element_maps::{changes_make_maps, syncs_are_decided, views_are_maps};
use file_core::writes;
use per_base::{Change, Fault, Holder, Limit, PerError};
use std::alloc::AllocError;

/// What a sync gives back.
#[derive(Drop)]
pub struct FilesOutcome {
    pub files: Files,
    /// Why nothing was made durable.
    pub refused: Option<PerError>,
}

/// Whether the storage was closed.
#[derive(Drop)]
pub enum Closed {
    /// The working files are durable, and the storage is closed.
    Done,
    /// It stays open, as it was, for this cause.
    Refused(Files, PerError),
}

impl Files {
    /// Makes the working files of the whole storage durable, all at once, through a handle that writes: a stop at any
    /// moment leaves the files as before or as after. Only what differs is written: of a file that could be read
    /// only the blocks that do, and of one whose info alone changed no content. Where nothing differs, the disk is not
    /// called. Handles and positions stay.
    ///
    /// It is refused, and nothing changes, with `NotOpen` for a number that no handle has; `IllegalWriteAccess` for
    /// kind Read; `LimitReached` with `Generations` where files differ and no generation is left.
    ///
    /// # Errors
    ///
    /// `OutOfMemory` hands the storage back before any call of the disk. `Device` closes it.
    pub fn sync_to_file<D: Disk>(
        self,
        disk: &mut D,
        handle: u32,
    ) -> Result<FilesOutcome, Fault<Files>>
        // The storage is in use on this disk: where the bytes of the disk are modelled, they are its own.
        requires { IsUsed D.told (D.medium disk.old).image self.store }

        // The refusal that is due, which hands all back; and where nothing differs nothing happens.
        ensures refused { IfOk result (λ o. o.refused ≡ sync_refused self handle) }
        ensures due { IsSome (sync_refused self handle)
            → (result ≡ Ok (record { files = self; refused = sync_refused self handle })) × (disk.new ≡ disk.old) }
        ensures unchanged { is_synced self ≡ true
            → (result ≡ Ok (record { files = self; refused = sync_refused self handle })) × (disk.new ≡ disk.old) }

        // The working files are then the synchronised ones, and all else of the session stays.
        ensures stored { IfOk result (λ o. o.refused ≡ None → stored_in o.files.store ≡ self.session.files) }
        ensures view { IfOk result (λ o. o.refused ≡ None → view_in o.files.store ≡ synced_view self) }
        ensures beside { IfOk result (λ o. o.files ≡ record self { store = o.files.store }) }
        ensures shape { IfOk result (λ o. store_shape o.files.store ≡ store_shape self.store) }
        ensures used { IfOk result (λ o. IsUsed D.told (D.medium disk.new).image o.files.store) }

        // What differed is durable, no call of the disk failed, and only the contents that differ and the index were
        // written in each copy; where it was refused or the disk failed, no more than that.
        ensures durable { IfOk result (λ o. o.refused ≡ None
            → IsDurable D.told (store_shape self.store) (stored_in self.store) self.session.files
            (length (index_text (index_in o.files.store))) (D.medium disk.old) (D.medium disk.new)) }
        ensures at_most { WritesAtMost self (D.medium disk.old) (D.medium disk.new) }

        // The next index lists what the view shows, in format 2, and each file that does not differ as it was listed.
        ensures carried { IfOk result (λ o. KeepsEqual (stored_in self.store) self.session.files
            (index_in self.store).entries (index_in o.files.store).entries) }
        ensures format { is_synced self ≡ false → IfOk result
            (λ o. o.refused ≡ None → (index_in o.files.store).format ≡ 2) }
        ensures text { is_synced self ≡ false → IfOk result
            (λ o. o.refused ≡ None → length (index_text (index_in o.files.store))
            ≡ index_length (store_shape self.store).kind (view_in o.files.store).entries) }

        // Running out of memory hands the storage back, and then nothing happened. Only a disk that failed closes it,
        // and its count of faults rose.
        ensures memory { IfErr result (λ fault. HandsBack self fault (disk.new ≡ disk.old)) }
        ensures cause { IfErr result (λ fault. IsDeviceFault fault
            → Rose (D.medium disk.old).faults (D.medium disk.new).faults) }

        // No file outside the place changes, and a stop at any moment leaves the storage as before or as after.
        ensures storing { IsStoring D.told (store_shape self.store) (Opens (synced_view self) []) (D.medium disk.old)
            (D.medium disk.new) }
    {
        untouched_is_kept();
        if let Some(error) = self.refuses_sync(handle) {
            return Ok(FilesOutcome {
                files: self,
                refused: Some(error),
            });
        }
        match self.made_durable(disk) {
            Ok(files) => Ok(FilesOutcome {
                files,
                refused: None,
            }),
            Err(fault) => Err(fault),
        }
    }
}

impl Files {
    /// Makes the working files durable and closes the storage.
    ///
    /// It is refused, and nothing changes, with `ResourceBusy` of the lowest handle where one is open; then with
    /// `LimitReached` of `Generations` where files differ and no generation is left.
    ///
    /// # Errors
    ///
    /// `OutOfMemory` hands the storage back before any call of the disk. `Device` closes it.
    pub fn close_storage<D: Disk>(self, disk: &mut D) -> Result<Closed, Fault<Files>>
        // The storage is in use on this disk: where the bytes of the disk are modelled, they are its own.
        requires { IsUsed D.told (D.medium disk.old).image self.store }

        // The refusal that is due, which hands all back; and where nothing differs the disk is not called.
        ensures refused { IfOk result (λ closed. MatchClosed closed (close_refused self ≡ None)
            (λ files error. close_refused self ≡ Some error)) }
        ensures due { (error : PerError) → close_refused self ≡ Some error
            → (result ≡ Ok (Closed.Refused self error)) × (disk.new ≡ disk.old) }
        ensures unchanged { is_synced self ≡ true → close_refused self ≡ None
            → (result ≡ Ok Closed.Done) × (disk.new ≡ disk.old) }

        // The storage then opens at the working files.
        ensures opens { IsTrue D.told → IfOk result (λ closed. OnDone closed
            (store_at (D.medium disk.new).image (store_shape self.store) ≡ Opens (synced_view self) [])) }
        ensures stored { IfOk result (λ closed. OnDone closed (map_of (synced_view self) ≡ self.session.files)) }
        // What differed is durable, no call of the disk failed, and only the contents that differ and the index were
        // written in each copy; where it was refused or the disk failed, no more than that.
        ensures durable { IfOk result (λ closed. OnDone closed ((text : List ℕ)
            × (IsTrue D.told → IsAlone (D.medium disk.new).image (store_shape self.store).place
            (synced_view self).generation text)
            × IsDurable D.told (store_shape self.store) (stored_in self.store) self.session.files (length text)
            (D.medium disk.old) (D.medium disk.new))) }
        ensures at_most { WritesAtMost self (D.medium disk.old) (D.medium disk.new) }

        // Running out of memory hands the storage back, and then nothing happened. Only a disk that failed closes it,
        // and its count of faults rose.
        ensures memory { IfErr result (λ fault. HandsBack self fault (disk.new ≡ disk.old)) }
        ensures cause { IfErr result (λ fault. IsDeviceFault fault
            → Rose (D.medium disk.old).faults (D.medium disk.new).faults) }

        // No file outside the place changes, and a stop at any moment leaves the storage as before or as after.
        ensures storing { IsStoring D.told (store_shape self.store) (Opens (synced_view self) []) (D.medium disk.old)
            (D.medium disk.new) }
    {
        untouched_is_kept();
        if let Some(error) = self.refuses_close() {
            return Ok(Closed::Refused(self, error));
        }
        match self.closed(disk) {
            Ok(()) => Ok(Closed::Done),
            Err(fault) => Err(fault),
        }
    }

    /// Makes the working files durable, where a generation is left or nothing differs.
    fn made_durable<D: Disk>(self, disk: &mut D) -> Result<Files, Fault<Files>>
        requires used { IsUsed D.told (D.medium disk.old).image self.store }
        requires not_worn { worn self ≡ None }
        ensures synced { IfOk result (λ files. IsSynced D.told self files (D.medium disk.old) (D.medium disk.new)) }
        ensures at_most { WritesAtMost self (D.medium disk.old) (D.medium disk.new) }
        ensures unchanged { is_synced self ≡ true → (result ≡ Ok self) × (disk.new ≡ disk.old) }
        ensures memory { IfErr result (λ fault. HandsBack self fault (disk.new ≡ disk.old)) }
        ensures cause { IfErr result (λ fault. IsDeviceFault fault
            → Rose (D.medium disk.old).faults (D.medium disk.new).faults) }
        ensures storing { IsStoring D.told (store_shape self.store) (Opens (synced_view self) []) (D.medium disk.old)
            (D.medium disk.new) }
    {
        untouched_is_kept();
        syncs_are_decided();
        if self.is_synced() {
            return Ok(self);
        }
        match self.copied_changes() {
            Ok(changes) => self.commit(disk, changes),
            Err(_) => Err(Fault::OutOfMemory(self)),
        }
    }

    /// Commits these changes, which make the stored files into the working ones.
    fn commit<D: Disk>(self, disk: &mut D, changes: Vec<Change>) -> Result<Files, Fault<Files>>
        requires used { IsUsed D.told (D.medium disk.old).image self.store }
        requires changes { IsSync (store_shape self.store) (λ bytes. true) (view_in self.store) (stored_in self.store)
            self.session.files changes.items }
        requires differ { is_synced self ≡ false }
        requires not_worn { (view_in self.store).generation < greatest_generation }
        ensures synced { IfOk result (λ files. IsSynced D.told self files (D.medium disk.old) (D.medium disk.new)) }
        ensures at_most { WritesAtMost self (D.medium disk.old) (D.medium disk.new) }
        ensures memory { IfErr result (λ fault. HandsBack self fault (disk.new ≡ disk.old)) }
        ensures cause { IfErr result (λ fault. IsDeviceFault fault
            → Rose (D.medium disk.old).faults (D.medium disk.new).faults) }
        ensures storing { IsStoring D.told (store_shape self.store) (Opens (synced_view self) []) (D.medium disk.old)
            (D.medium disk.new) }
    {
        changes_make_maps();
        views_are_maps();
        self.invariants();
        let Files {
            alloc,
            config,
            store,
            table,
        } = self;
        match store.commit(disk, changes, ()) {
            Ok(store) => Ok(Files {
                alloc,
                config,
                store,
                table,
            }),
            Err(Fault::Device) => Err(Fault::Device),
            Err(Fault::OutOfMemory((store, _, ()))) => Err(Fault::OutOfMemory(Files {
                alloc,
                config,
                store,
                table,
            })),
        }
    }

    /// Makes the working files durable, where a generation is left or nothing differs, and lets the storage go, on
    /// which no handle is open.
    fn closed<D: Disk>(self, disk: &mut D) -> Result<(), Fault<Files>>
        requires free { self.session.handles ≡ [] }
        requires used { IsUsed D.told (D.medium disk.old).image self.store }
        requires not_worn { worn self ≡ None }
        ensures synced { OnOk result ((files : FilesInUse)
            × IsSynced D.told self files (D.medium disk.old) (D.medium disk.new)) }
        ensures at_most { WritesAtMost self (D.medium disk.old) (D.medium disk.new) }
        ensures unchanged { is_synced self ≡ true → (result ≡ Ok tt) × (disk.new ≡ disk.old) }
        ensures memory { IfErr result (λ fault. HandsBack self fault (disk.new ≡ disk.old)) }
        ensures cause { IfErr result (λ fault. IsDeviceFault fault
            → Rose (D.medium disk.old).faults (D.medium disk.new).faults) }
        ensures storing { IsStoring D.told (store_shape self.store) (Opens (synced_view self) []) (D.medium disk.old)
            (D.medium disk.new) }
    {
        untouched_is_kept();
        syncs_are_decided();
        if self.is_synced() {
            return Ok(());
        }
        match self.changes() {
            Ok(changes) => self.commit_last(disk, changes),
            Err(_) => Err(Fault::OutOfMemory(self)),
        }
    }

    /// Commits these changes, which make the stored files into the working ones, with the bytes of the working files,
    /// which are moved into them, and back where memory runs out. What is left of the working files is let go before
    /// the first call of the disk, so that it is not in memory beside what is written and what a sync holds.
    fn commit_last<D: Disk>(self, disk: &mut D, changes: Vec<Change>) -> Result<(), Fault<Files>>
        requires free { self.session.handles ≡ [] }
        requires used { IsUsed D.told (D.medium disk.old).image self.store }
        requires changes { changes.items ≡ map bare (due_changes self) }
        requires differ { is_synced self ≡ false }
        requires not_worn { (view_in self.store).generation < greatest_generation }
        ensures synced { OnOk result ((files : FilesInUse)
            × IsSynced D.told self files (D.medium disk.old) (D.medium disk.new)) }
        ensures at_most { WritesAtMost self (D.medium disk.old) (D.medium disk.new) }
        ensures memory { IfErr result (λ fault. HandsBack self fault (disk.new ≡ disk.old)) }
        ensures cause { IfErr result (λ fault. IsDeviceFault fault
            → Rose (D.medium disk.old).faults (D.medium disk.new).faults) }
        ensures storing { IsStoring D.told (store_shape self.store) (Opens (synced_view self) []) (D.medium disk.old)
            (D.medium disk.new) }
    {
        changes_make_maps();
        views_are_maps();
        self.invariants();
        self.store.invariants();
        let Files {
            alloc,
            config,
            store,
            mut table,
        } = self;
        let mut changes = changes;
        table.lend(&mut changes);
        match store.commit(disk, changes, table) {
            Ok(_) => Ok(()),
            Err(Fault::Device) => Err(Fault::Device),
            Err(Fault::OutOfMemory((store, changes, mut table))) => {
                table.take_back(changes);
                Err(Fault::OutOfMemory(Files {
                    alloc,
                    config,
                    store,
                    table,
                }))
            }
        }
    }

    /// The changes that make the stored files into the working ones, with copies of the bytes that they put.
    fn copied_changes(&self) -> Result<Vec<Change>, AllocError>
        requires { IsStore self.now.store }
        ensures { IfOk result (λ changes. IsSync (store_shape self.now.store) (λ bytes. true) (view_in self.now.store)
            (stored_in self.now.store) self.now.session.files changes.items) }
    {
        views_are_maps();
        self.invariants();
        self.store.invariants();
        let mut changes = self.changes()?;
        copy_contents(self.alloc, self.table.files(), &mut changes)?;
        Ok(changes)
    }

    /// The changes that make the stored files into the working ones, without the bytes that they put.
    fn changes(&self) -> Result<Vec<Change>, AllocError>
        ensures { IfOk result (λ changes. changes.items ≡ map bare (due_changes self.now)) }
    {
        let list = differences(self.alloc, self.store.entries(), self.table.files())?;
        Ok(list)
    }

    /// Whether the working files are the stored ones. Does not allocate.
    fn is_synced(&self) -> bool
        ensures { result ≡ is_synced self.now }
    {
        are_same(self.store.entries(), self.table.files())
    }

    /// What refuses a sync by the handle of this number.
    fn refuses_sync(&self, handle: u32) -> Option<PerError>
        ensures { result ≡ sync_refused self.now handle }
    {
        let Some((open, _)) = self.table.at(handle) else {
            return Some(PerError::NotOpen);
        };
        if !writes(open.cursor.kind) {
            return Some(PerError::IllegalWriteAccess);
        }
        self.worn()
    }

    /// What refuses to close the storage.
    fn refuses_close(&self) -> Option<PerError>
        ensures { result ≡ close_refused self.now }
    {
        if let Some(handle) = self.table.lowest_handle() {
            return Some(PerError::ResourceBusy {
                holder: Holder::Handle(handle),
            });
        }
        self.worn()
    }

    /// That no generation is left for files that differ.
    fn worn(&self) -> Option<PerError>
        ensures { result ≡ worn self.now }
    {
        if self.store.generation() == u64::MAX && !self.is_synced() {
            return Some(PerError::LimitReached {
                which: Limit::Generations,
            });
        }
        None
    }
}
