//! An application of a dump that is installed.

ghost use Rattle.std.specs.Prelude.{◌≡◌, IfOk, IsErrOf, IsTrue, OnOk, map};
ghost use Rattle.per_base.specs.Causes.{Rose};
ghost use Rattle.disk_model.specs.Medium.{Elapses, Quiet};
ghost use Rattle.deploy_laws.specs.Apps.{App};
ghost use Rattle.deploy_rows.specs.Rows.{AnswersRow};
ghost use Rattle.per_backup.specs.Backups.{restoring};
ghost use Rattle.per_backup.specs.Clauses.{IsAppSeen};
ghost use Rattle.per_backup.specs.Restores.{IfHeld, RestoreKeeps, Restored};
ghost use Rattle.dump_text.specs.Dumps.{dumped_texts};

use deploy::Stop;
use disk_model::Disk;
use dump_text::{DumpedApplication, DumpedStorage};
use per_backup::restore;
use per_base::{Bytes, PerError};
use std::alloc::{AllocError, Global};

/// Installs an application of a dump where nothing is installed, in one installation, of which the root is written
/// last.
///
/// The call is refused as [`per_backup::restore`] refuses the manifest and the texts of the storages: then nothing was
/// written.
///
/// # Errors
///
/// `Device` where the disk fails, and `OutOfMemory`. Then nothing is installed, or all of it is.
pub fn restore_application<D: Disk>(
    alloc: Global,
    disk: &mut D,
    dumped: &DumpedApplication,
) -> Result<Option<PerError>, Stop>
    // The refusal that `restoring` has for the application that is seen, or none.
    ensures refused { IfOk result (λ refused. (it : App)
        × IsAppSeen D.told (D.medium disk.old).image dumped.now.application it
        × AnswersRow refused (restoring dumped.now.manifest (dumped_texts dumped.now) it)) }

    // The application that `restoring` makes, whose root has this manifest; at every moment it is as it was, or that.
    ensures restored { IsTrue D.told → OnOk result (Restored dumped.now.application dumped.now.manifest
        (dumped_texts dumped.now) (D.medium disk.old) (D.medium disk.new)) }
    ensures held { IfOk result (IfHeld D.told (D.medium disk.new).image dumped.now.application
        dumped.now.manifest) }
    ensures keeps { IsTrue D.told → RestoreKeeps dumped.now.application dumped.now.manifest (dumped_texts dumped.now)
        (D.medium disk.old) (D.medium disk.new) }
    ensures quiet { OnOk result (Quiet (D.medium disk.new)) }
    // The count of faults rose where the device failed, and stayed where the call succeeded or memory ran out.
    ensures cause { IsErrOf result Stop.Device → Rose (D.medium disk.old).faults (D.medium disk.new).faults }
    ensures passes { OnOk result ((D.medium disk.new).faults ≡ (D.medium disk.old).faults) }
    ensures fed { IsErrOf result Stop.OutOfMemory → (D.medium disk.new).faults ≡ (D.medium disk.old).faults }
    ensures time { Elapses (D.medium disk.old) (D.medium disk.new) }
{
    let texts = texts_of(alloc, dumped.storages.as_slice())?;
    restore(
        alloc,
        disk,
        dumped.application.number(),
        dumped.manifest.as_slice(),
        texts.as_slice(),
    )
}

// The texts of storages, in their order.
fn texts_of(alloc: Global, storages: &[DumpedStorage]) -> Result<Vec<Bytes>, AllocError>
    ensures { IfOk result (λ texts. texts.items ≡ map (λ s. s.text) storages.now) }
{
    let mut texts = Vec::new(alloc);
    for storage in storages {
        texts.push(storage.text.copy()?)?;
    }
    Ok(texts)
}
