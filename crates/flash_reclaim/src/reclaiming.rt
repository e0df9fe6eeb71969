//! The reclaiming of a flash's room.

ghost use Rattle.std.specs.Prelude.{◌≡◌, IfErr, IfOk};
ghost use Rattle.deploy.specs.declared.errors.Stop.{Stop};
ghost use Rattle.flash_reclaim.specs.Reclaiming.{HandsBackTold, ReclaimsTold};

use crate::naming::kept_files;
use deploy::Stop;
use deploy_laws::{others_stand, roots_say};
use flash_disk::{FlashDisk, FlashOpenError, FlashRefused, Forgotten};
use flash_model::Flash;
use std::alloc::Global;

/// A flash whose room was reclaimed.
#[derive(Drop)]
pub struct Reclaimed<F: Flash> {
    pub flash: F,
    /// Whether every file of a bank without a version is empty now; else none was taken.
    pub whole: bool,
    /// How many faults of its own, which are writes that failed though the flash did not, the disk counted while the
    /// roots were read. A read counts none; where there is one, no file was taken.
    pub own_faults: u64,
}

/// Takes from a flash the files of every bank in which no version is, so that what they took is room for new records.
///
/// Of an application whose root is bad, or of which a copy of the root lacks the text that stands or holds another, no
/// file is taken. Blocks with records of files that are taken are erased, each once ([`FlashDisk::forget`]). Where no
/// block can be made blank to move others into, or two newest records of one page differ, nothing is taken and `whole`
/// is `false`.
///
/// # Errors
///
/// Those of an opening ([`FlashDisk::open`]). The flash is handed back, and each application stands on it as before.
pub fn reclaim<F: Flash>(alloc: Global, flash: F) -> Result<Reclaimed<F>, FlashRefused<F>>
    // Where the flash is modelled each application stands as before, also after a stop at any moment. Either each file
    // that is given up (`IsFileGivenUp`) is empty and all others are as they were, or none changed, which comes only
    // where nothing could be taken or the disk counted a fault of its own.
    ensures reclaims { IfOk result (λ reclaimed. ReclaimsTold F.told (F.medium flash) (F.medium reclaimed.flash)
        reclaimed.whole reclaimed.own_faults) }
    // A flash that is refused is handed back with the reason, and each application stands on it as before.
    ensures refused { IfErr result (λ refused. HandsBackTold F.told (F.medium flash) (F.medium refused.flash)
        refused.error) }
{
    others_stand();
    roots_say();
    let mut disk = FlashDisk::open(alloc, flash)?;
    let found = kept_files(alloc, &mut disk);
    let own_faults = disk.own_faults();
    if own_faults > 0 {
        // No read counts one, so that each failure below is one of the flash.
        return Ok(Reclaimed {
            flash: disk.into_flash(),
            whole: false,
            own_faults,
        });
    }
    let kept = match found {
        Ok(kept) => kept,
        Err(stop) => {
            return Err(FlashRefused {
                flash: disk.into_flash(),
                error: error_of(stop),
            });
        }
    };
    let Forgotten { disk, whole } = disk.forget(alloc, kept.as_slice())?;
    Ok(Reclaimed {
        flash: disk.into_flash(),
        whole,
        own_faults,
    })
}

// Why an opening is refused that stopped so.
fn error_of(stop: Stop) -> FlashOpenError
    ensures device { result ≡ FlashOpenError.Device → stop ≡ Stop.Device }
    ensures size { result ≡ FlashOpenError.WrongSize → ⊥ }
    ensures unusable { result ≡ FlashOpenError.Unusable → ⊥ }
{
    match stop {
        Stop::Device => FlashOpenError::Device,
        Stop::OutOfMemory => FlashOpenError::OutOfMemory,
    }
}
