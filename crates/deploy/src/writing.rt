//! The text of a root, as versions are read and written.

ghost use Rattle.std.specs.Prelude.{◌≡◌, ◌≤◌, ◌<◌, ◌+◌, ◌*◌, ◌^◌, ℕ, List, ◌∷◌, IfOk, IsErrOf, IsTrue, OnOk};
ghost use Rattle.std.specs.Prelude.{option_map};
ghost use Rattle.std.specs.Option.{ForSome};
ghost use Rattle.per_base.specs.Causes.{Rose};
ghost use Rattle.disk_model.specs.Frame.{Spares};
ghost use Rattle.disk_model.specs.Medium.{EachCase, Elapses, Quiet};
ghost use Rattle.disk_model.specs.Place.{IsNoSlot};
ghost use Rattle.guarded_cell.specs.Cells.{CellAt, IsCellOf, generation_of, place_of};
ghost use Rattle.guarded_cell.specs.Stops.{PutStops};
ghost use Rattle.manifest.specs.Reading.{deployment_in};
ghost use Rattle.deployment_model.specs.Data.{deployment_data};
ghost use Rattle.root_text.specs.RootText.{IsVersion, installed, root_text};
ghost use Rattle.root_text.specs.Views.{version_said};
ghost use Rattle.deploy_rows.specs.Rows.{deployment_of};
ghost use Rattle.deploy.specs.Roots.{SaysDeployment, previous_texts};
ghost use Rattle.deploy.specs.Versions.{TellsRow};
ghost use Rattle.deploy_rows.specs.Costs.{root_len};

use crate::errors::Stop;
use disk_model::Disk;
use guarded_cell::{Cell, stops_are_lawful};
use manifest::{ManifestError, read_manifest, said_is_kept};
use per_base::{Bytes, PerError};
use root_text::{VersionText, one_root, write_installed};
use std::alloc::Global;

/// The version that a manifest describes, or `ManifestRejected` with the first violated rule.
///
/// # Errors
///
/// `OutOfMemory`.
pub fn read_version(alloc: Global, manifest: &[u8]) -> Result<Result<VersionText, PerError>, Stop>
    // The deployment that the manifest says, with its text, or the refusal. No device is called.
    ensures told { IfOk result (TellsRow (deployment_of manifest.now)) }
    ensures text { IfOk result (λ version. IfOk version (λ v. v.text ≡ manifest.now)) }
    ensures kept { IfOk result (λ version. IfOk version SaysDeployment) }
    ensures memory { ¬ (IsErrOf result Stop.Device) }
{
    said_is_kept();
    let deployment = match read_manifest(alloc, manifest) {
        Ok(deployment) => deployment,
        Err(ManifestError::Rejected(rule)) => return Ok(Err(PerError::ManifestRejected { rule })),
        Err(ManifestError::OutOfMemory) => return Err(Stop::OutOfMemory),
    };
    let text = Bytes::new(Vec::from_slice(alloc, manifest)?);
    Ok(Ok(VersionText { text, deployment }))
}

/// Writes the root's next text: these versions, with the active one in this bank.
pub(crate) fn write_version<D: Disk>(
    alloc: Global,
    disk: &mut D,
    cell: Cell,
    bank: u32,
    active: &VersionText,
    previous: Option<&VersionText>,
) -> Result<Cell, Stop>
    requires bank { bank ≤ 1 }
    requires active { IsVersion (version_said active.now) }
    requires previous { ForSome previous (λ v. IsVersion (version_said v.now)) }
    requires generation { generation_of cell + 1 < 2 ^ 64 }
    requires held { IsTrue D.told → (t : List ℕ) × CellAt (D.medium disk.old).image cell t }

    ensures next { IfOk result (IsCellOf (place_of cell) (generation_of cell + 1)) }
    ensures held { IsTrue D.told → IfOk result (λ next. CellAt (D.medium disk.new).image next
        (root_text (installed bank (version_said active.now) (option_map (λ v. version_said v.now) previous.entry)))) }
    ensures quiet { OnOk result (Quiet (D.medium disk.new)) }
    ensures memory { IsErrOf result Stop.OutOfMemory → disk.new ≡ disk.old }
    ensures cause { IsErrOf result Stop.Device → Rose (D.medium disk.old).faults (D.medium disk.new).faults }
    ensures passes { OnOk result ((D.medium disk.new).faults ≡ (D.medium disk.old).faults) }

    // Only slots of the root change, and a stop at any moment leaves the old text or the new one.
    ensures elsewhere { IsTrue D.told
        → Spares (IsNoSlot (place_of cell)) (D.medium disk.old).image
        (D.medium disk.new).image }
    ensures any_moment { IsTrue D.told → Quiet (D.medium disk.old)
        → EachCase (PutStops (place_of cell) (generation_of cell + 1)
        (root_text (installed bank (version_said active.now) (option_map (λ v. version_said v.now) previous.entry)))
        (D.medium disk.old).image)
        (D.medium disk.old) (D.medium disk.new) }
    // Into each copy the text is written once, with its head, and a blank.
    ensures written { (D.medium disk.new).written ≤ (D.medium disk.old).written + (place_of cell).copies
        * (root_len (active.now.text ∷ previous_texts (option_map (λ v. v.now) previous.entry)) + 88) }
    ensures time { Elapses (D.medium disk.old) (D.medium disk.new) }
{
    one_root();
    stops_are_lawful();
    let text = write_installed(alloc, bank, active, previous)?;
    let next = cell.write(alloc, disk, &text)?;
    Ok(next)
}
