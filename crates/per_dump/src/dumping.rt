//! What an application has.

ghost use Rattle.std.specs.Prelude.{◌≡◌, ◌<◌, IfOk, IsErrOf, IsTrue, OnOk};
ghost use Rattle.per_base.specs.Causes.{Rose};
ghost use Rattle.disk_model.specs.Medium.{Elapses, Quiet};
ghost use Rattle.root_text.specs.RootText.{IsVersion};
ghost use Rattle.root_text.specs.Views.{version_said};
ghost use Rattle.deploy_laws.specs.Apps.{app_at, says_at};
ghost use Rattle.run_model.specs.Lives.{LooksOnly};
ghost use Rattle.per_backup.specs.Backups.{dumping};
ghost use Rattle.per_dump.specs.Dumps.{HoldsManifest, IsActive, IsHeld, IsOfActive, dumped_as};

use deploy::{Stop, Versions, view_versions};
use disk_model::Disk;
use dump_text::{AppNumber, DumpedApplication, DumpedStorage};
use per_backup::{Exported, export};
use per_base::{PerError, Unit};
use root_text::{RootSays, VersionText};
use std::alloc::Global;

/// What is dumped of an application.
#[derive(Debug, Drop)]
pub enum Dumped {
    /// All that it has.
    Application(DumpedApplication),
    /// Nothing is installed.
    Absent,
    /// Why it is not dumped: its root is bad, or a storage or an element of it cannot be read.
    Refused(PerError),
}

/// All that an application has: the manifest of its active version, and of each storage the text that its export has,
/// as it is on the disk; or that nothing is installed. Nothing is changed.
///
/// The call is refused with `IntegrityCorrupted`: with the root where that is bad, with the first storage that cannot
/// be opened, or with the first element that cannot be read.
///
/// # Errors
///
/// `Device` where the disk fails, and `OutOfMemory`.
pub fn dump_application<D: Disk>(
    alloc: Global,
    disk: &mut D,
    application: u32,
) -> Result<Dumped, Stop>
    requires { application < 8 }
    // The texts of all storages in their order, or the refusal.
    ensures texts { IsTrue D.told → IfOk result (λ x. dumped_as x
        ≡ dumping (app_at (D.medium disk.old).image application)) }
    // The manifest says the version that is active, and the storages are those of that version; byte for byte it is the
    // one that the root holds.
    ensures active { IsTrue D.told → IfOk result (λ x. IsOfActive application
        (says_at (D.medium disk.old).image application) x) }
    ensures held { IsTrue D.told → IfOk result (IsHeld (D.medium disk.old).image application) }
    // Nothing is written, and where it succeeds nothing is pending.
    ensures stays { LooksOnly (D.medium disk.old) (D.medium disk.new) }
    ensures quiet { OnOk result (Quiet (D.medium disk.new)) }
    // The count of faults rose where the device failed, and stayed where the call succeeded or memory ran out.
    ensures cause { IsErrOf result Stop.Device → Rose (D.medium disk.old).faults (D.medium disk.new).faults }
    ensures passes { OnOk result ((D.medium disk.new).faults ≡ (D.medium disk.old).faults) }
    ensures fed { IsErrOf result Stop.OutOfMemory → (D.medium disk.new).faults ≡ (D.medium disk.old).faults }
    ensures time { Elapses (D.medium disk.old) (D.medium disk.new) }
{
    if disk.sync().is_err() {
        return Err(Stop::Device);
    }
    dump_synced(alloc, disk, application)
}

// The same without the sync.
fn dump_synced<D: Disk>(alloc: Global, disk: &mut D, application: u32) -> Result<Dumped, Stop>
    requires app { application < 8 }
    requires quiet { Quiet (D.medium disk.old) }
    ensures texts { IsTrue D.told → IfOk result (λ x. dumped_as x
        ≡ dumping (app_at (D.medium disk.old).image application)) }
    ensures active { IsTrue D.told → IfOk result (λ x. IsOfActive application
        (says_at (D.medium disk.old).image application) x) }
    ensures held { IsTrue D.told → IfOk result (IsHeld (D.medium disk.old).image application) }
    ensures stays { LooksOnly (D.medium disk.old) (D.medium disk.new) }
    ensures quiet { OnOk result (Quiet (D.medium disk.new)) }
    ensures cause { IsErrOf result Stop.Device → Rose (D.medium disk.old).faults (D.medium disk.new).faults }
    ensures passes { OnOk result ((D.medium disk.new).faults ≡ (D.medium disk.old).faults) }
    ensures fed { IsErrOf result Stop.OutOfMemory → (D.medium disk.new).faults ≡ (D.medium disk.old).faults }
    ensures time { Elapses (D.medium disk.old) (D.medium disk.new) }
{
    let found = view_versions(alloc, disk, application)?;
    let Some(versions) = found else {
        return Ok(Dumped::Refused(PerError::IntegrityCorrupted { unit: Unit::Root }));
    };
    let Versions { says, .. } = versions;
    match says {
        RootSays::Absent => Ok(Dumped::Absent),
        RootSays::Installed(_, active, _) => dump_version(alloc, disk, application, active),
    }
}

// What the active version has.
fn dump_version<D: Disk>(
    alloc: Global,
    disk: &mut D,
    application: u32,
    version: VersionText,
) -> Result<Dumped, Stop>
    requires app { application < 8 }
    requires quiet { Quiet (D.medium disk.old) }
    requires active { IsTrue D.told → IsActive (says_at (D.medium disk.old).image application) version }
    requires said { IsVersion (version_said version) }
    requires held { IsTrue D.told → HoldsManifest (D.medium disk.old).image application version.text }
    ensures texts { IsTrue D.told → IfOk result (λ x. dumped_as x
        ≡ dumping (app_at (D.medium disk.old).image application)) }
    ensures active { IsTrue D.told → IfOk result (λ x. IsOfActive application
        (says_at (D.medium disk.old).image application) x) }
    ensures held { IsTrue D.told → IfOk result (IsHeld (D.medium disk.old).image application) }
    ensures stays { LooksOnly (D.medium disk.old) (D.medium disk.new) }
    ensures quiet { OnOk result (Quiet (D.medium disk.new)) }
    ensures cause { IsErrOf result Stop.Device → Rose (D.medium disk.old).faults (D.medium disk.new).faults }
    ensures passes { OnOk result ((D.medium disk.new).faults ≡ (D.medium disk.old).faults) }
    ensures fed { IsErrOf result Stop.OutOfMemory → (D.medium disk.new).faults ≡ (D.medium disk.old).faults }
    ensures time { Elapses (D.medium disk.old) (D.medium disk.new) }
{
    let mut storages = Vec::new(alloc);
    for config in version.deployment.storages.as_slice() {
        let exported = export(alloc, disk, application, &config.name)?;
        match exported {
            Exported::Octets(text) => {
                let name = config.name.copy()?;
                storages.push(DumpedStorage { name, text })?;
            }
            Exported::Refused(error) => return Ok(Dumped::Refused(error)),
        }
    }
    Ok(Dumped::Application(DumpedApplication {
        application: AppNumber::new(application),
        manifest: version.text,
        storages,
    }))
}
