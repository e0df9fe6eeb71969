//! A disk over a flash.

ghost use Rattle.std.specs.Prelude.{◌≡◌, IsTrue};
ghost use Rattle.flash_disk.specs.Apart.{IsApart};

use crate::layer::Layer;
use flash_model::Flash;
use std::fmt;
use std::marker::Model;
use thiserror::Error;

/// Why a flash cannot be opened as a disk.
#[derive(Clone, Copy, Debug, PartialEq, Eq, Error)]
pub enum FlashOpenError {
    /// It has fewer than 4 blocks, or more than 4096.
    #[error("the flash has fewer than 4 blocks, or more than 4096")]
    WrongSize,
    /// It holds more pages of files than all blocks but two have room for, or none of its blocks is spare.
    #[error("the flash holds too many pages of files, or has no spare block")]
    Unusable,
    /// A call of the flash failed.
    #[error("the flash failed")]
    Device,
    /// Memory ran out.
    #[error("memory ran out")]
    OutOfMemory,
}

/// A flash that was not opened, and why.
#[derive(Drop)]
pub struct FlashRefused<F> {
    /// The flash, with every page as it was.
    pub flash: F,
    pub error: FlashOpenError,
}

impl<F> fmt::Display for FlashRefused<F> {
    fn fmt<W: fmt::Write>(&self, f: &mut fmt::Formatter<W>) -> fmt::Result {
        fmt::Display::fmt(&self.error, f)
    }
}

/// A disk over a flash. Contracts see the flash, the greatest number that was used, and what the disk counts.
#[derive(Drop)]
pub struct FlashDisk<F: Flash> {
    pub(crate) layer: Layer<F>,
    /// How many bytes were written into files.
    pub(crate) written: u128,
}

impl<F: Flash> Model for FlashDisk<F> {
    ghost use Rattle.flash_disk.specs.FlashView.{FlashView, view_code, FitsFlash};

    ghost Value = { FlashView F };

    ghost coded = { view_code F.code };

    ghost view = { λ disk. record {
      flash = disk.layer.flash;
      sequence = disk.layer.state.sequence;
      own = disk.layer.own;
      written = disk.written;
    } };

    ghost invariant = { λ disk. FitsFlash F.told (F.medium disk.layer.flash) disk.layer.state disk.written };
}

impl<F: Flash> FlashDisk<F> {
    /// The flash, as it is. It does not allocate.
    pub fn into_flash(self) -> F
        ensures { result ≡ self.flash }
    {
        self.layer.flash
    }

    /// `true` only where the copies are apart on the flash as it is: then no loss of pages of one block costs files of
    /// two of them. It neither allocates nor calls the flash.
    pub fn keeps_copies_apart(&self) -> bool
        ensures { IsTrue F.told → IsTrue result → IsApart (F.medium self.now.flash).state.pages
            (F.medium self.now.flash).blocks }
    {
        self.layer.is_apart()
    }

    /// How many writes since the opening failed though the flash did not, up to the greatest u64: `FailsAlone` says
    /// where. It does not allocate.
    pub fn own_faults(&self) -> u64
        ensures { result ≡ self.now.own }
    {
        self.layer.own
    }
}
