//! The version that is installed on a disk; where none is, the first one is installed.

ghost use Rattle.std.specs.Prelude.{◌≡◌, ◌<◌, ℕ, IfOk, IsErrOf, IsTrue, OnOk, Option};
ghost use Rattle.per_base.specs.Causes.{Rose};
ghost use Rattle.disk_model.specs.Medium.{Quiet};
ghost use Rattle.deploy_laws.specs.Apps.{installed, says_at};
ghost use Rattle.deploy_laws.specs.Places.{Named};
ghost use Rattle.deploy.specs.Roots.{RootAt, root_says};
ghost use Rattle.per_embed.specs.Failures.{of_stop};

use deploy::{Installed, Outcome, Root, Stop, format_all, install, open_root};
use disk_model::Disk;
use per_base::PerError;
use std::alloc::Global;

/// The application of the disk.
pub(crate) const APP: u32 = 0;

/// How many applications a disk has, how many files each, and how many of these its root may have.
const APPS: u32 = 8;

const APP_FILES: u32 = 4096;

const ROOT_FILES: u32 = 12;

/// The version that is installed. Where nothing is, the one that a manifest describes is installed, at a moment in
/// seconds since 1970. A disk that was never formatted to the end is formatted first.
///
/// # Errors
///
/// `IntegrityCorrupted` with the root where too few copies of it are left; `ManifestRejected` with the first violated
/// rule; `LimitReached` with `Generations` where the root has none left; `PhysicalStorageFailure` where the disk
/// fails; `OutOfMemory`.
pub fn installed<D: Disk>(
    alloc: Global,
    disk: &mut D,
    manifest: &str,
    now: u64,
) -> Result<Installed, PerError>
    // What is given is the root of application 0, in use on the disk, on which nothing is pending.
    ensures root { IfOk result (λ v. RootAt D.told (D.medium disk.new).image 0 (Root.Installed v)) }
    ensures quiet { OnOk result (Quiet (D.medium disk.new)) }

    // What is installed stays.
    ensures stands { IsTrue D.told → (generation : ℕ) (active : Named) (previous : Option Named)
        → says_at (D.medium disk.old).image 0 ≡ installed generation active previous
        → IfOk result (λ v. root_says (Root.Installed v) ≡ installed generation active previous) }
{
    match root_of(alloc, disk)? {
        Root::Installed(version) => Ok(version),
        Root::Absent(_) | Root::Bad => first_version(alloc, disk, manifest, now),
    }
}

/// Installs the first version, on a disk that is formatted before where it never was to the end.
fn first_version<D: Disk>(
    alloc: Global,
    disk: &mut D,
    manifest: &str,
    now: u64,
) -> Result<Installed, PerError>
    ensures root { IfOk result (λ v. RootAt D.told (D.medium disk.new).image 0 (Root.Installed v)) }
    ensures quiet { OnOk result (Quiet (D.medium disk.new)) }
{
    if is_unformatted(disk)? {
        format_disk(alloc, disk)?;
    }
    let root = root_of(alloc, disk)?;
    install_over(alloc, disk, root, manifest, now)
}

/// Installs over what a root says.
fn install_over<D: Disk>(
    alloc: Global,
    disk: &mut D,
    root: Root,
    manifest: &str,
    now: u64,
) -> Result<Installed, PerError>
    requires root { RootAt D.told (D.medium disk.old).image 0 root }
    requires quiet { Quiet (D.medium disk.old) }
    ensures root { IfOk result (λ v. RootAt D.told (D.medium disk.new).image 0 (Root.Installed v)) }
    ensures quiet { OnOk result (Quiet (D.medium disk.new)) }
{
    match install(alloc, disk, APP, root, manifest.as_bytes(), now) {
        Ok(outcome) => version_in(outcome),
        Err(stop) => Err(failure_of(stop)),
    }
}

/// The version after an install, or why there is none.
fn version_in(outcome: Outcome) -> Result<Installed, PerError>
    ensures { IfOk result (λ v. outcome.root ≡ Root.Installed v) }
{
    let Outcome { root, refused } = outcome;
    match root {
        Root::Installed(version) => Ok(version),
        Root::Absent(_) | Root::Bad => Err(refused.unwrap_or(PerError::NotInstalled)),
    }
}

/// The root of the application.
fn root_of<D: Disk>(alloc: Global, disk: &mut D) -> Result<Root, PerError>
    ensures root { IfOk result (RootAt D.told (D.medium disk.new).image 0) }
    ensures says { IsTrue D.told → IfOk result (λ root. root_says root ≡ says_at (D.medium disk.old).image 0) }
    ensures quiet { OnOk result (Quiet (D.medium disk.new)) }
    ensures cause { IsErrOf result PerError.PhysicalStorageFailure
        → Rose (D.medium disk.old).faults (D.medium disk.new).faults }
{
    match open_root(alloc, disk, APP) {
        Ok(root) => Ok(root),
        Err(stop) => Err(failure_of(stop)),
    }
}

fn format_disk<D: Disk>(alloc: Global, disk: &mut D) -> Result<(), PerError>
    ensures { IsErrOf result PerError.PhysicalStorageFailure
        → Rose (D.medium disk.old).faults (D.medium disk.new).faults }
{
    match format_all(alloc, disk) {
        Ok(()) => Ok(()),
        Err(stop) => Err(failure_of(stop)),
    }
}

/// The error that a failure of a call on deployments is.
fn failure_of(stop: Stop) -> PerError
    ensures { result ≡ of_stop stop }
{
    match stop {
        Stop::Device => PerError::PhysicalStorageFailure,
        Stop::OutOfMemory => PerError::OutOfMemory,
    }
}

/// Whether no format of the disk came to its end, so that nothing was ever installed: roots are made in the order of
/// the applications, and none of another application holds a byte.
fn is_unformatted<D: Disk>(disk: &mut D) -> Result<bool, PerError> {
    for app in APP + 1..APPS {
        if !is_empty_root(disk, app)? {
            return Ok(false);
        }
    }
    Ok(true)
}

/// Whether no file of a root holds a byte.
fn is_empty_root<D: Disk>(disk: &mut D, app: u32) -> Result<bool, PerError>
    requires { app < 8 }
{
    for number in 0..ROOT_FILES {
        let Ok(size) = disk.size(APP_FILES * app + number) else {
            return Err(PerError::PhysicalStorageFailure);
        };
        if size > 0 {
            return Ok(false);
        }
    }
    Ok(true)
}
