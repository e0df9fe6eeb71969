//! Which files the roots leave free.

ghost use Rattle.std.specs.Prelude.{◌≡◌, ◌<◌, IfOk, IsErrOf, IsTrue, OnOk};
ghost use Rattle.per_base.specs.Causes.{Rose};
ghost use Rattle.disk_model.specs.Medium.{Elapses, IsIdle, Quiet};
ghost use Rattle.deploy.specs.Views.{ShowsVersions, root_seen, seen_at};
ghost use Rattle.flash_reclaim.specs.Naming as spec;
ghost use Rattle.flash_reclaim.specs.Naming.{all_kept, free_range};

use deploy::{RootView, Stop, view_root};
use disk_model::Disk;
use flash_disk::FileRange;
use per_base::Numbers;
use std::alloc::Global;

/// The applications of a disk.
const APPS: u32 = 8;

/// The files of an application.
const APP_FILES: u32 = 4096;

/// The files of a bank.
const BANK_FILES: u32 = 512;

/// The files of an application before its banks.
const ROOT_FILES: u32 = 1024;

/// Looks at every root, and gives the ranges of the files that are kept: all but those of banks in which no version is.
///
/// # Errors
///
/// `Device` where the disk fails, and `OutOfMemory`.
pub(crate) fn kept_files<D: Disk>(alloc: Global, disk: &mut D) -> Result<Vec<FileRange>, Stop>
    ensures kept { IsTrue D.told → IfOk result (λ kept. kept.items ≡ all_kept (D.medium disk.old).image) }
    ensures image { (D.medium disk.new).image ≡ (D.medium disk.old).image }
    ensures idle { Quiet (D.medium disk.old) → IsIdle (D.medium disk.old) (D.medium disk.new) }
    ensures cause { IsErrOf result Stop.Device → Rose (D.medium disk.old).faults (D.medium disk.new).faults }
    ensures passes { OnOk result ((D.medium disk.new).faults ≡ (D.medium disk.old).faults) }
    ensures time { Elapses (D.medium disk.old) (D.medium disk.new) }
{
    let mut kept = Vec::new(alloc);
    for app in 0..APPS {
        let free = free_at(alloc, disk, app)?;
        let first = APP_FILES * app;
        kept.push(FileRange {
            first,
            end: free.first,
        })?;
        kept.push(FileRange {
            first: free.end,
            end: first + APP_FILES,
        })?;
    }
    kept.push(FileRange {
        first: APP_FILES * APPS,
        end: u32::MAX,
    })?;
    Ok(kept)
}

// Looks at the root of an application, and gives the files of its banks in which no version is.
fn free_at<D: Disk>(alloc: Global, disk: &mut D, app: u32) -> Result<FileRange, Stop>
    requires { app < 8 }
    ensures first { IsTrue D.told → IfOk result (λ free. free.first
        ≡ (free_range app (seen_at (D.medium disk.old).image app)).first) }
    ensures end { IsTrue D.told → IfOk result (λ free. free.end
        ≡ (free_range app (seen_at (D.medium disk.old).image app)).end) }
    ensures image { (D.medium disk.new).image ≡ (D.medium disk.old).image }
    ensures idle { Quiet (D.medium disk.old) → IsIdle (D.medium disk.old) (D.medium disk.new) }
    ensures cause { IsErrOf result Stop.Device → Rose (D.medium disk.old).faults (D.medium disk.new).faults }
    ensures passes { OnOk result ((D.medium disk.new).faults ≡ (D.medium disk.old).faults) }
    ensures time { Elapses (D.medium disk.old) (D.medium disk.new) }
{
    let view = view_root(alloc, disk, app)?;
    let free = free_files(app, &view);
    drop(view);
    Ok(free)
}

// The files of the banks of an application in which no version is.
fn free_files(app: u32, view: &RootView) -> FileRange
    requires app { app < 8 }
    requires versions { ShowsVersions (root_seen view.now) }
    ensures first { result.first ≡ (free_range app (root_seen view.now)).first }
    ensures end { result.end ≡ (free_range app (root_seen view.now)).end }
{
    let first = APP_FILES * app + ROOT_FILES + BANK_FILES * first_free(view);
    FileRange {
        first,
        end: first + BANK_FILES * count_free(view),
    }
}

// The first bank in which no version is, where there is one.
fn first_free(view: &RootView) -> u32
    requires { ShowsVersions (root_seen view.now) }
    ensures { result ≡ spec.first_free (root_seen view.now) }
{
    match view {
        RootView::Bad | RootView::Absent { .. } => 0,
        RootView::Installed(state) => 1 - state.bank,
    }
}

// In how many banks no version is; none counts while the copies of the root are not all alike.
fn count_free(view: &RootView) -> u32
    ensures { result ≡ spec.count_free (root_seen view.now) }
{
    match view {
        RootView::Bad => 0,
        RootView::Absent { lacking, sole } => { if is_whole(lacking, *sole) { 2 } else { 0 } }
        RootView::Installed(state) => {
            if state.previous.is_none() && is_whole(&state.lacking, state.sole) {
                1
            } else {
                0
            }
        }
    }
}

// Whether every copy of a root holds the text that stands, and none holds another.
fn is_whole(lacking: &Numbers, sole: bool) -> bool
    ensures { result ≡ spec.is_whole lacking.now sole }
{
    lacking.as_slice().is_empty() && sole
}
