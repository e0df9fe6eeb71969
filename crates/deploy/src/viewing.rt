//! A root that is only looked at.

ghost use Rattle.std.specs.Prelude.{◌≡◌, ◌<◌, ◌+◌, ◌==◌, ℕ, IfOk, IfSome, IsErrOf, IsTrue, OnOk, Some, not};
ghost use Rattle.std.specs.List.{list_any};
ghost use Rattle.per_base.specs.Causes.{Rose};
ghost use Rattle.disk_model.specs.Medium.{Elapses, IsIdle, Quiet};
ghost use Rattle.guarded_cell.specs.Held.{copies_that};
ghost use Rattle.deploy_laws.specs.Apps.{says_at};
ghost use Rattle.deploy.specs.Views.{AreHeldByRoot, AreRead, ShowsVersions, root_seen, seen_at, versions_say};

use crate::errors::Stop;
use crate::standing::{Standing, find_standing};
use deployment_model::Deployment;
use disk_model::Disk;
use guarded_cell::held_is_lawful;
use manifest::said_is_kept;
use per_base::Numbers;
use root_text::RootSays;
use std::alloc::{AllocError, Global};

/// What is seen of a root with a version.
#[derive(Debug, Drop)]
pub struct RootState {
    /// The bank of the active version, 0 or 1.
    pub bank: u32,
    /// The active version.
    pub active: Deployment,
    /// The version before it, in the other bank.
    pub previous: Option<Deployment>,
    /// The copies that lack the root, counted from 1 and ascending.
    pub lacking: Numbers,
    /// Whether no copy holds any other text.
    pub sole: bool,
}

/// What is seen of a root.
#[derive(Debug, Drop)]
pub enum RootView {
    /// No two copies hold one text, or what they hold is no root's.
    Bad,
    /// Nothing is installed.
    Absent {
        /// The copies that lack the root, counted from 1 and ascending.
        lacking: Numbers,
        /// Whether no copy holds any other text.
        sole: bool,
    },
    /// A version is installed.
    Installed(RootState),
}

/// Looks at the root of an application and changes nothing.
///
/// # Errors
///
/// `Device` where the disk fails, and `OutOfMemory`.
pub fn view_root<D: Disk>(alloc: Global, disk: &mut D, app: u32) -> Result<RootView, Stop>
    requires { app < 8 }
    // What is seen is what the image says.
    ensures view { IsTrue D.told → IfOk result (λ view. root_seen view ≡ seen_at (D.medium disk.old).image app) }
    // On every disk, modelled or not, the versions are in their banks and obey the rules of deployments.
    ensures versions { IfOk result (λ view. ShowsVersions (root_seen view)) }
    // Nothing is written, and where it succeeds nothing is pending.
    ensures quiet { OnOk result (Quiet (D.medium disk.new)) }
    ensures image { (D.medium disk.new).image ≡ (D.medium disk.old).image }
    ensures idle { Quiet (D.medium disk.old) → IsIdle (D.medium disk.old) (D.medium disk.new) }
    ensures written { (D.medium disk.new).written ≡ (D.medium disk.old).written }
    // The count of faults rose where the device failed, and stayed where the call succeeded or memory ran out.
    ensures cause { IsErrOf result Stop.Device → Rose (D.medium disk.old).faults (D.medium disk.new).faults }
    ensures passes { OnOk result ((D.medium disk.new).faults ≡ (D.medium disk.old).faults) }
    ensures fed { IsErrOf result Stop.OutOfMemory → (D.medium disk.new).faults ≡ (D.medium disk.old).faults }
    ensures time { Elapses (D.medium disk.old) (D.medium disk.new) }
{
    held_is_lawful();
    said_is_kept();
    let Some(standing) = find_standing(alloc, disk, app)? else {
        return Ok(RootView::Bad);
    };
    let Standing {
        seen,
        says,
        sole,
        ..
    } = standing;
    let lacking = lacking_of(alloc, seen.copies.as_slice())?;
    Ok(RootView::of(says, lacking, sole))
}

/// What a root says, with the generation of its text.
#[derive(Debug, Drop)]
pub struct Versions {
    /// The generation of the root's text.
    pub generation: u64,
    /// Nothing is installed, or the active version, and the one before it until it is finished or rolled back.
    pub says: RootSays,
}

/// Reads which versions an application has, with the texts of their manifests, and changes nothing. There is none where
/// the root is bad.
///
/// # Errors
///
/// `Device` where the disk fails, and `OutOfMemory`.
pub fn view_versions<D: Disk>(
    alloc: Global,
    disk: &mut D,
    app: u32,
) -> Result<Option<Versions>, Stop>
    requires { app < 8 }
    // The versions are those that the root says, and their manifests are byte for byte those that two copies hold.
    ensures says { IsTrue D.told → IfOk result (λ found. versions_say found ≡ says_at (D.medium disk.old).image app) }
    ensures held { IsTrue D.told → IfOk result (λ found. IfSome found (AreHeldByRoot (D.medium disk.old).image app)) }
    // On every disk, modelled or not, each manifest says its deployment.
    ensures versions { IfOk result AreRead }
    // Nothing is written, and where it succeeds nothing is pending.
    ensures quiet { OnOk result (Quiet (D.medium disk.new)) }
    ensures image { (D.medium disk.new).image ≡ (D.medium disk.old).image }
    ensures idle { Quiet (D.medium disk.old) → IsIdle (D.medium disk.old) (D.medium disk.new) }
    ensures written { (D.medium disk.new).written ≡ (D.medium disk.old).written }
    // The count of faults rose where the device failed, and stayed where the call succeeded or memory ran out.
    ensures cause { IsErrOf result Stop.Device → Rose (D.medium disk.old).faults (D.medium disk.new).faults }
    ensures passes { OnOk result ((D.medium disk.new).faults ≡ (D.medium disk.old).faults) }
    ensures fed { IsErrOf result Stop.OutOfMemory → (D.medium disk.new).faults ≡ (D.medium disk.old).faults }
    ensures time { Elapses (D.medium disk.old) (D.medium disk.new) }
{
    held_is_lawful();
    let Some(standing) = find_standing(alloc, disk, app)? else {
        return Ok(None);
    };
    let Standing { seen, says, .. } = standing;
    Ok(Some(Versions {
        generation: seen.generation,
        says,
    }))
}

impl RootView {
    ghost use Rattle.root_text.specs.Views.{root_said};
    ghost use Rattle.deploy_laws.specs.Apps.{says_by};
    ghost use Rattle.deploy.specs.Views.{seen_by};

    // The view of a root that says this.
    fn of(says: RootSays, lacking: Numbers, sole: bool) -> RootView
        ensures { (generation : ℕ) → root_seen result ≡ seen_by (says_by generation (Some (root_said says))) lacking
            sole }
    {
        match says {
            RootSays::Absent => RootView::Absent { lacking, sole },
            RootSays::Installed(bank, active, previous) => RootView::Installed(RootState {
                bank,
                active: active.deployment,
                previous: previous.map(|version| version.deployment),
                lacking,
                sole,
            }),
        }
    }
}

// The copies of a root that are not among these, ascending and counted from 1.
fn lacking_of(alloc: Global, holding: &[u32]) -> Result<Numbers, AllocError>
    ensures { IfOk result (λ lacking.
        lacking ≡ copies_that (λ copy. not (list_any (λ number. number == copy + 1) holding.now)) 3) }
{
    let mut lacking = Vec::new(alloc);
    for copy in 0..3 {
        if !holding.contains(&(copy + 1)) {
            lacking.push(copy + 1)?;
        }
    }
    Ok(Numbers::new(lacking))
}
