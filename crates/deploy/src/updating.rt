//! Updates: the next version is made in the other bank, storage by storage, and then the root is written once.

ghost use Rattle.std.specs.Prelude.{◌≡◌, ◌≤◌, ◌<◌, ◌-◌, ℕ, List, [], ◌∷◌, Err, IfOk, IsErrOf, IsOk, IsTrue, None, Ok};
ghost use Rattle.std.specs.Prelude.{OnOk, drop, length, map, option_map, take, ◌+◌, ◌≢◌};
ghost use Rattle.std.specs.List.{AllByRecursion};
ghost use Rattle.per_base.specs.Causes.{Rose};
ghost use Rattle.per_base.specs.declared.errors.PerError.{PerError};
ghost use Rattle.disk_model.specs.Medium.{Elapses, IsIdle, Quiet};
ghost use Rattle.deployment_model.specs.Conditions.{IsDeployment, IsStorage};
ghost use Rattle.deployment_model.specs.Data.{deployment_data, storage_data};
ghost use Rattle.element_state.specs.States.{State, store_at};
ghost use Rattle.migrate_fns.specs.Stored.{answers_of, rules_of};
ghost use Rattle.update_plan.specs.Plans.{ArePresent, IsStoredOf};
ghost use Rattle.deploy_laws.specs.Apps.{IsCleanApp, app_at};
ghost use Rattle.deploy_laws.specs.Places.{IsBeside, shapes_from, shapes_in, storage_shape};
ghost use Rattle.deploy_laws.specs.Stands.{StandsThroughout};
ghost use Rattle.deploy_rows.specs.Rows.{BeginsUpdate, BeginsWith, contents_of, offered, one_more, updated_app};
ghost use Rattle.deploy.specs.Beginning.{AreReadContents, IsOffered, offer_of};
ghost use Rattle.deploy.specs.Building.{IsStaged, IsUpdateBegun, StagedAt, begun_as, offered_in, staged_progress};
ghost use Rattle.deploy.specs.Building.{staged_root, staged_text};
ghost use Rattle.deploy.specs.Clauses.{IsNoRootSlot, Leaves};
ghost use Rattle.deploy_rows.specs.Costs.{making_costs};
ghost use Rattle.deploy.specs.Making.{IsBesideMade, IsInNone, RootComesLast, making_from};
ghost use Rattle.deploy.specs.Refusals.{AllocatesNothing};
ghost use Rattle.deploy.specs.Remaining.{IsBesideCommit};
ghost use Rattle.deploy.specs.Roots.{RootAt, SaysDeployment, free_bank, root_app, root_says, root_texts};
ghost use Rattle.deploy_rows.specs.Costs.{root_cost};

use crate::errors::Stop;
use crate::installing::{make_version, worn_out};
use crate::leaving::is_open;
use crate::making::create_one;
use crate::roots::{Installed, Root};
use crate::shapes::shape_of;
use crate::writing::read_version;
use deploy_laws::{deploying_stands, files_lie_apart, others_stand, roots_say, untouched_stands};
use deploy_rows::rows_read_the_root;
use deployment_model::{StorageConfig, names_are_apart};
use disk_model::Disk;
use element_laws::places_stand_apart;
use element_state::{StoreError, inspect};
use migrate_fns::Migrations;
use per_base::{Fresh, Name, PerError, Sequence, Unit};
use root_text::{VersionText, one_root};
use std::alloc::Global;
use update_plan::{Contents, StorageContents, Stored, plan};

/// An update in progress: the next version, the contents of its storages, and how many of them are made. Dropping it
/// leaves only storages that no root names; the root is as it was.
#[derive(Drop)]
pub struct Staged {
    alloc: Global,
    app: u32,
    root: Installed,
    version: VersionText,
    contents: Vec<Sequence<Fresh>>,
    built: u32,
}

/// How the beginning of an update ended.
#[derive(Drop)]
pub enum Begin {
    /// The storages of the next version can be made.
    Ready(Staged),
    /// It was refused, and the root is the same.
    Refused(Root, PerError),
}

/// Begins an update to the version that a manifest describes, at a moment in seconds: reads what the storages hold and
/// plans what those of the next version are to hold. It writes nothing.
///
/// Refusals, the first that holds: `IntegrityCorrupted` with the root where it is bad; `NotInstalled`;
/// `UpdateNotFinished` with the previous version; `ResourceBusy` where `busy` names an open storage; `ManifestRejected`
/// with the first violated rule; `VersionNotNewer`; those of the plan; `LimitReached` with `Generations`. Those
/// before the plan come before any call of the disk.
///
/// # Errors
///
/// `Device` where the disk fails, and `OutOfMemory`: then the root is to be opened again.
pub fn begin_update<D: Disk>(
    alloc: Global,
    disk: &mut D,
    app: u32,
    root: Root,
    busy: Option<&Name>,
    manifest: &[u8],
    migrations: &Migrations,
    now: u64,
) -> Result<Begin, Stop>
    requires app { app < 8 }
    requires root { RootAt D.told (D.medium disk.old).image app root }

    // Over storages in some states, which are the disk's where it is modelled, an update begins so: with the refusal,
    // or with the contents of one plan. One that is ready is over the same root; a refused one hands that back.
    ensures begins { IfOk result (λ b. (states : List State)
        × (IsTrue D.told → (app_at (D.medium disk.old).image app).states ≡ states)
        × BeginsUpdate (rules_of migrations.now) (answers_of migrations.now) now (option_map (λ n. n.now) busy.entry)
        manifest.now
        (root_app root states) (begun_as b)) }
    ensures staged { IfOk result (IsUpdateBegun D.told (D.medium disk.new).image app root) }

    // The next version has the manifest that was given.
    ensures text { (s : Staged) → result ≡ Ok (Begin.Ready s) → staged_text s ≡ manifest.now }
    // Nothing is written.
    ensures image { (D.medium disk.new).image ≡ (D.medium disk.old).image }
    ensures idle { Quiet (D.medium disk.old) → IsIdle (D.medium disk.old) (D.medium disk.new) }
    ensures written { (D.medium disk.new).written ≡ (D.medium disk.old).written }
    // A refusal that comes before what the storages hold (`offered`) does not call the disk, so no device fails there,
    // and one that allocates nothing comes also where memory ran out.
    ensures early { (e : PerError) → offered (option_map (λ n. n.now) busy.entry) manifest.now (root_app root [])
        ≡ Err e → disk.new ≡ disk.old }
    ensures due { (e : PerError) → offered (option_map (λ n. n.now) busy.entry) manifest.now (root_app root []) ≡ Err e
        → AllocatesNothing e
        → IsOk result }
    // The count of faults rose where the device failed, and stayed where the call succeeded or memory ran out.
    ensures cause { IsErrOf result Stop.Device → Rose (D.medium disk.old).faults (D.medium disk.new).faults }
    ensures device_only { IsErrOf result Stop.Device
        → IsOk (offered (option_map (λ n. n.now) busy.entry) manifest.now (root_app root [])) }
    ensures passes { OnOk result ((D.medium disk.new).faults ≡ (D.medium disk.old).faults) }
    ensures fed { IsErrOf result Stop.OutOfMemory → (D.medium disk.new).faults ≡ (D.medium disk.old).faults }
    // At any moment the application stands as it was.
    ensures any_moment { IsTrue D.told
        → StandsThroughout app (app_at (D.medium disk.old).image app) (D.medium disk.old) (D.medium disk.new) }
    ensures time { Elapses (D.medium disk.old) (D.medium disk.new) }
{
    rows_read_the_root();
    untouched_stands();
    match root {
        Root::Bad => Ok(Begin::Refused(
            Root::Bad,
            PerError::IntegrityCorrupted { unit: Unit::Root },
        )),
        Root::Absent(cell) => Ok(Begin::Refused(Root::Absent(cell), PerError::NotInstalled)),
        Root::Installed(installed) => begin_over(
            alloc, disk, app, installed, busy, manifest, migrations, now,
        ),
    }
}

// Begins over a root with a version.
fn begin_over<D: Disk>(
    alloc: Global,
    disk: &mut D,
    app: u32,
    root: Installed,
    busy: Option<&Name>,
    manifest: &[u8],
    migrations: &Migrations,
    now: u64,
) -> Result<Begin, Stop>
    requires app { app < 8 }
    requires root { RootAt D.told (D.medium disk.old).image app (Root.Installed root) }

    ensures begins { IfOk result (λ b. (states : List State)
        × (IsTrue D.told → (app_at (D.medium disk.old).image app).states ≡ states)
        × BeginsUpdate (rules_of migrations.now) (answers_of migrations.now) now (option_map (λ n. n.now) busy.entry)
        manifest.now
        (root_app (Root.Installed root) states) (begun_as b)) }
    ensures staged { IfOk result (IsUpdateBegun D.told (D.medium disk.new).image app (Root.Installed root)) }
    ensures text { (s : Staged) → result ≡ Ok (Begin.Ready s) → staged_text s ≡ manifest.now }
    ensures image { (D.medium disk.new).image ≡ (D.medium disk.old).image }
    ensures idle { Quiet (D.medium disk.old) → IsIdle (D.medium disk.old) (D.medium disk.new) }
    ensures written { (D.medium disk.new).written ≡ (D.medium disk.old).written }
    ensures early { (e : PerError) → offered (option_map (λ n. n.now) busy.entry) manifest.now
        (root_app (Root.Installed root) []) ≡ Err e
        → disk.new ≡ disk.old }
    ensures due { (e : PerError) → offered (option_map (λ n. n.now) busy.entry) manifest.now
        (root_app (Root.Installed root) []) ≡ Err e
        → AllocatesNothing e → IsOk result }
    ensures cause { IsErrOf result Stop.Device → Rose (D.medium disk.old).faults (D.medium disk.new).faults }
    ensures device_only { IsErrOf result Stop.Device
        → IsOk (offered (option_map (λ n. n.now) busy.entry) manifest.now (root_app (Root.Installed root) [])) }
    ensures passes { OnOk result ((D.medium disk.new).faults ≡ (D.medium disk.old).faults) }
    ensures fed { IsErrOf result Stop.OutOfMemory → (D.medium disk.new).faults ≡ (D.medium disk.old).faults }
    ensures any_moment { IsTrue D.told
        → StandsThroughout app (app_at (D.medium disk.old).image app) (D.medium disk.old) (D.medium disk.new) }
    ensures time { Elapses (D.medium disk.old) (D.medium disk.new) }
{
    untouched_stands();
    match offer(alloc, &root, busy, manifest)? {
        Ok(version) => begin_with(alloc, disk, app, root, version, migrations, now),
        Err(refused) => Ok(Begin::Refused(Root::Installed(root), refused)),
    }
}

// The version that is offered, or why it is refused before anything is read.
fn offer(
    alloc: Global,
    root: &Installed,
    busy: Option<&Name>,
    manifest: &[u8],
) -> Result<Result<VersionText, PerError>, Stop>
    ensures offered { IfOk result
        (IsOffered (offered (option_map (λ n. n.now) busy.entry) manifest.now (root_app (Root.Installed root.now) []))
        root.now) }
    ensures due { (e : PerError) → offered (option_map (λ n. n.now) busy.entry) manifest.now
        (root_app (Root.Installed root.now) []) ≡ Err e
        → AllocatesNothing e → IsOk result }
    ensures alone { IfOk result (λ offer. IfOk offer (λ version. root.now.previous ≡ None)) }
    ensures text { IfOk result (λ offer. IfOk offer (λ version. version.text ≡ manifest.now)) }
    ensures kept { IfOk result (λ offer. IfOk offer SaysDeployment) }
    ensures memory { ¬ (IsErrOf result Stop.Device) }
{
    if let Some(previous) = &root.previous {
        return Ok(Err(PerError::UpdateNotFinished {
            previous: previous.deployment.version,
        }));
    }
    if let Some(name) = busy {
        return Ok(Err(is_open(name)?));
    }
    match read_version(alloc, manifest)? {
        Ok(version) if version.deployment.version <= root.active.deployment.version => {
            Ok(Err(PerError::VersionNotNewer {
                active: root.active.deployment.version,
                offered: version.deployment.version,
            }))
        }
        Ok(version) => Ok(Ok(version)),
        Err(rejected) => Ok(Err(rejected)),
    }
}

// Begins with a version that is newer than the only one.
fn begin_with<D: Disk>(
    alloc: Global,
    disk: &mut D,
    app: u32,
    root: Installed,
    version: VersionText,
    migrations: &Migrations,
    now: u64,
) -> Result<Begin, Stop>
    requires app { app < 8 }
    requires root { RootAt D.told (D.medium disk.old).image app (Root.Installed root) }
    requires alone { root.previous ≡ None }
    requires version { SaysDeployment version }

    ensures begins { IfOk result (λ b. (states : List State)
        × (IsTrue D.told → (app_at (D.medium disk.old).image app).states ≡ states)
        × BeginsWith (rules_of migrations.now) (answers_of migrations.now) now states (Ok (offer_of root version))
        (begun_as b)) }
    ensures staged { IfOk result (IsUpdateBegun D.told (D.medium disk.new).image app (Root.Installed root)) }
    ensures text { (s : Staged) → result ≡ Ok (Begin.Ready s) → staged_text s ≡ version.text }
    ensures image { (D.medium disk.new).image ≡ (D.medium disk.old).image }
    ensures idle { Quiet (D.medium disk.old) → IsIdle (D.medium disk.old) (D.medium disk.new) }
    ensures written { (D.medium disk.new).written ≡ (D.medium disk.old).written }
    ensures cause { IsErrOf result Stop.Device → Rose (D.medium disk.old).faults (D.medium disk.new).faults }
    ensures passes { OnOk result ((D.medium disk.new).faults ≡ (D.medium disk.old).faults) }
    ensures fed { IsErrOf result Stop.OutOfMemory → (D.medium disk.new).faults ≡ (D.medium disk.old).faults }
    ensures time { Elapses (D.medium disk.old) (D.medium disk.new) }
{
    one_root();
    roots_say();
    let stored = stored_contents(alloc, disk, app, &root)?;
    match plan(
        alloc,
        &root.active.deployment,
        &stored,
        &version.deployment,
        migrations,
        now,
    ) {
        Err(failed) => {
            let refused = refusal(failed)?;
            Ok(Begin::Refused(Root::Installed(root), refused))
        }
        Ok(_) if root.cell.generation() == u64::MAX => {
            Ok(Begin::Refused(Root::Installed(root), worn_out()))
        }
        Ok(contents) => Ok(Begin::Ready(Staged {
            alloc,
            app,
            root,
            version,
            contents,
            built: 0,
        })),
    }
}

// Running out of memory is no refusal.
fn refusal(failed: PerError) -> Result<PerError, Stop>
    ensures refused { IfOk result (λ refused. refused ≡ failed) }
    ensures fed { IfOk result (λ refused. refused ≢ PerError.OutOfMemory) }
    ensures memory { ¬ (IsErrOf result Stop.Device) }
{
    match failed {
        PerError::OutOfMemory => Err(Stop::OutOfMemory),
        refused => Ok(refused),
    }
}

// What the storages of the active version hold.
fn stored_contents<D: Disk>(
    alloc: Global,
    disk: &mut D,
    app: u32,
    root: &Installed,
) -> Result<Contents, Stop>
    requires app { app < 8 }
    requires bank { root.now.bank ≤ 1 }
    requires active { IsDeployment (deployment_data root.now.active.deployment) }

    ensures read { IfOk result (AreReadContents D.told (D.medium disk.old).image
        (shapes_from app root.now.bank 0 (map storage_data root.now.active.deployment.storages))
        (map storage_data root.now.active.deployment.storages)) }
    ensures kinds { IfOk result (λ contents. AllByRecursion (IsStoredOf (deployment_data root.now.active.deployment))
        contents) }
    ensures image { (D.medium disk.new).image ≡ (D.medium disk.old).image }
    ensures idle { Quiet (D.medium disk.old) → IsIdle (D.medium disk.old) (D.medium disk.new) }
    ensures written { (D.medium disk.new).written ≡ (D.medium disk.old).written }
    ensures cause { IsErrOf result Stop.Device → Rose (D.medium disk.old).faults (D.medium disk.new).faults }
    ensures passes { OnOk result ((D.medium disk.new).faults ≡ (D.medium disk.old).faults) }
    ensures fed { IsErrOf result Stop.OutOfMemory → (D.medium disk.new).faults ≡ (D.medium disk.old).faults }
    ensures time { Elapses (D.medium disk.old) (D.medium disk.new) }
{
    names_are_apart();
    let mut contents = Vec::new(alloc);
    let mut number = 0;
    for config in root.active.deployment.storages.as_slice() {
        contents.push(read_stored(alloc, disk, app, root.bank, number, config)?)?;
        number += 1;
    }
    Ok(Contents::new(contents))
}

// What one storage holds.
fn read_stored<D: Disk>(
    alloc: Global,
    disk: &mut D,
    app: u32,
    bank: u32,
    number: u32,
    config: &StorageConfig,
) -> Result<Stored, Stop>
    requires app { app < 8 }
    requires bank { bank ≤ 1 }
    requires number { number < 16 }
    requires config { IsStorage (storage_data config.now) }

    ensures name { IfOk result (λ stored. stored.name ≡ config.now.name) }
    ensures contents { IsTrue D.told → IfOk result (λ stored.
        contents_of (store_at (D.medium disk.old).image (storage_shape app bank number (storage_data config.now)))
        ≡ stored.contents) }
    ensures some { IfOk result (λ stored. (state : State) × (contents_of state ≡ stored.contents)) }
    ensures present { IfOk result (λ stored. ArePresent config.now.kind stored.contents) }
    ensures image { (D.medium disk.new).image ≡ (D.medium disk.old).image }
    ensures idle { Quiet (D.medium disk.old) → IsIdle (D.medium disk.old) (D.medium disk.new) }
    ensures written { (D.medium disk.new).written ≡ (D.medium disk.old).written }
    ensures cause { IsErrOf result Stop.Device → Rose (D.medium disk.old).faults (D.medium disk.new).faults }
    ensures passes { OnOk result ((D.medium disk.new).faults ≡ (D.medium disk.old).faults) }
    ensures fed { IsErrOf result Stop.OutOfMemory → (D.medium disk.new).faults ≡ (D.medium disk.old).faults }
    ensures time { Elapses (D.medium disk.old) (D.medium disk.new) }
{
    let shape = shape_of(app, bank, number, config)?;
    let name = config.name.copy()?;
    let contents = match inspect(alloc, disk, &shape) {
        Ok(view) => StorageContents::Present(view.entries),
        Err(StoreError::Corrupt) => StorageContents::Damaged,
        Err(failed) => return Err(failed.into()),
    };
    Ok(Stored { name, contents })
}

impl Staged {
    /// How many storages of the next version remain to be made. Does not allocate.
    pub fn remaining(&self) -> u32
        requires { IsStaged self.now.app self.now }
        ensures { result ≡ length (staged_progress self.now).contents - (staged_progress self.now).built }
    {
        self.contents.len() as u32 - self.built
    }

    /// The number of the next version. Does not allocate.
    pub fn offered(&self) -> u32
        ensures { result ≡ (staged_progress self.now).deployment.version }
    {
        self.version.deployment.version
    }

    /// The root over which it was begun. Does not allocate.
    pub fn root(&self) -> &Installed
        ensures { Root.Installed result.now ≡ staged_root self.now }
    {
        &self.root
    }

    /// Gives the update up: the root is the one that it began over. What was made of the next version stays in its
    /// bank, and nothing names it. Does not allocate.
    pub fn abort(self) -> Root
        ensures { result ≡ staged_root self }
    {
        Root::Installed(self.root)
    }

    /// Makes one more storage of the next version, if one remains.
    ///
    /// # Errors
    ///
    /// `Device` where the disk fails, and `OutOfMemory`: then the root is to be opened again, and it says what it said.
    pub fn next_storage<D: Disk>(self, disk: &mut D) -> Result<Staged, Stop>
        requires staged { StagedAt D.told (D.medium disk.old).image self.app self }

        // The update goes on over the same root to the same manifest, with one storage more if one remained.
        ensures staged { IfOk result (λ s. StagedAt D.told (D.medium disk.new).image self.app s) }
        ensures root { IfOk result (λ s. staged_root s ≡ staged_root self) }
        ensures progress { IfOk result (λ s. staged_progress s ≡ one_more (staged_progress self)) }
        ensures text { IfOk result (λ s. staged_text s ≡ staged_text self) }
        // However it ends, the disk says the same of the application. Where no storage remained, nothing is done.
        ensures app { IsTrue D.told → app_at (D.medium disk.new).image self.app
            ≡ app_at (D.medium disk.old).image self.app }
        ensures clean { IsTrue D.told → IsCleanApp self.app (D.medium disk.old).image
            → IsCleanApp self.app (D.medium disk.new).image }
        ensures quiet { Quiet (D.medium disk.old) → OnOk result (Quiet (D.medium disk.new)) }
        ensures done { length (staged_progress self).contents ≤ (staged_progress self).built
            → (result ≡ Ok self) × (disk.new ≡ disk.old) }
        // The count of faults rose where the device failed, and stayed where the call succeeded or memory ran out.
        ensures cause { IsErrOf result Stop.Device → Rose (D.medium disk.old).faults (D.medium disk.new).faults }
        ensures passes { OnOk result ((D.medium disk.new).faults ≡ (D.medium disk.old).faults) }
        ensures fed { IsErrOf result Stop.OutOfMemory → (D.medium disk.new).faults ≡ (D.medium disk.old).faults }

        // Only files of that storage change, and at any moment the application stands as it was.
        ensures outside { Leaves D.told (IsBeside self.app (free_bank (staged_root self)) (staged_progress self).built)
            (D.medium disk.old) (D.medium disk.new) }
        ensures places { Leaves D.told (IsInNone
            (take 1 (drop (staged_progress self).built (shapes_in self.app (offered_in self)))))
            (D.medium disk.old) (D.medium disk.new) }
        // No more is written than that storage costs.
        ensures written { (D.medium disk.new).written ≤ (D.medium disk.old).written + making_costs
            (take 1 (drop (staged_progress self).built (staged_progress self).deployment.storages))
            (drop (staged_progress self).built (staged_progress self).contents) }
        ensures any_moment { IsTrue D.told
            → StandsThroughout self.app (app_at (D.medium disk.old).image self.app) (D.medium disk.old)
            (D.medium disk.new) }
        ensures time { Elapses (D.medium disk.old) (D.medium disk.new) }
    {
        one_root();
        roots_say();
        files_lie_apart();
        others_stand();
        deploying_stands();
        untouched_stands();
        places_stand_apart();
        if self.built as usize >= self.contents.len() {
            return Ok(self);
        }
        create_one(
            self.alloc,
            disk,
            self.app,
            1 - self.root.bank,
            self.built,
            &self.version.deployment.storages.as_slice()[self.built as usize],
            self.contents[self.built as usize].as_slice(),
        )?;
        let mut staged = self;
        staged.built += 1;
        Ok(staged)
    }

    /// Makes the storages that remain, and then writes the root: the next version is active, and the one before it is
    /// kept as it was.
    ///
    /// # Errors
    ///
    /// `Device` where the disk fails, and `OutOfMemory`: then the root is to be opened again.
    pub fn commit_update<D: Disk>(self, disk: &mut D) -> Result<Root, Stop>
        requires staged { StagedAt D.told (D.medium disk.old).image self.app self }

        // The root that comes, and the disk, say the next version with its contents, and the old one as it was.
        ensures root { IfOk result (RootAt D.told (D.medium disk.new).image self.app) }
        ensures says { IfOk result (λ root. root_says root
            ≡ (updated_app (staged_progress self) (root_app (staged_root self) [])).says) }
        ensures text { IfOk result (λ root. root_texts root ≡ staged_text self ∷ root_texts (staged_root self)) }
        ensures app { IsTrue D.told → OnOk result (app_at (D.medium disk.new).image self.app
            ≡ updated_app (staged_progress self) (app_at (D.medium disk.old).image self.app)) }
        ensures clean { IsTrue D.told → IsCleanApp self.app (D.medium disk.old).image
            → OnOk result (IsCleanApp self.app (D.medium disk.new).image) }
        ensures quiet { OnOk result (Quiet (D.medium disk.new)) }
        // The count of faults rose where the device failed, and stayed where the call succeeded or memory ran out.
        ensures cause { IsErrOf result Stop.Device → Rose (D.medium disk.old).faults (D.medium disk.new).faults }
        ensures passes { OnOk result ((D.medium disk.new).faults ≡ (D.medium disk.old).faults) }
        ensures fed { IsErrOf result Stop.OutOfMemory → (D.medium disk.new).faults ≡ (D.medium disk.old).faults }

        // Only slots of the root and files of the storages that remain change, with none remaining only slots of the
        // root, and at any moment the application stands as before or as after.
        ensures outside { Leaves D.told (IsBesideCommit self.app (free_bank (staged_root self))
            (staged_progress self).built
            (length (staged_progress self).contents)) (D.medium disk.old) (D.medium disk.new) }
        ensures root_alone { length (staged_progress self).contents ≤ (staged_progress self).built
            → Leaves D.told (IsNoRootSlot self.app) (D.medium disk.old) (D.medium disk.new) }
        ensures places { Leaves D.told (IsBesideMade self.app
            (drop (staged_progress self).built (shapes_in self.app (offered_in self))))
            (D.medium disk.old) (D.medium disk.new) }
        // No more is written than these storages cost, and then the root.
        ensures written { (D.medium disk.new).written ≤ (D.medium disk.old).written + (making_costs
            (drop (staged_progress self).built (staged_progress self).deployment.storages)
            (drop (staged_progress self).built (staged_progress self).contents)
            + root_cost (staged_text self ∷ root_texts (staged_root self))) }
        // The storages come first, and then the root, which is written once.
        ensures last { RootComesLast D.medium D.told self.app
            (making_from self.app (free_bank (staged_root self)) (staged_progress self).built
            (staged_progress self).deployment.storages (staged_progress self).contents
            (staged_text self ∷ root_texts (staged_root self)))
            disk.old disk.new }
        ensures any_moment { IsTrue D.told → StandsThroughout self.app
            (updated_app (staged_progress self) (app_at (D.medium disk.old).image self.app)) (D.medium disk.old)
            (D.medium disk.new) }
        ensures time { Elapses (D.medium disk.old) (D.medium disk.new) }
    {
        one_root();
        roots_say();
        let Staged {
            alloc,
            app,
            root,
            version,
            contents,
            built,
        } = self;
        let Installed {
            cell,
            bank,
            active,
            ..
        } = root;
        let bank = 1 - bank;
        let cell = make_version(
            alloc,
            disk,
            app,
            cell,
            bank,
            &version,
            Some(&active),
            &contents,
            built,
        )?;
        Ok(Root::Installed(Installed {
            cell,
            bank,
            active: version,
            previous: Some(active),
        }))
    }
}
