//! What an error of the system says of a file.

ghost use Rattle.std.specs.Prelude.{◌≡◌, ◌↔◌, IsTrue, Ok, Err};
ghost use Rattle.std.specs.Prelude.{is_ok};
ghost use Rattle.per_system.specs.Errors.{SaysNothing, HoldsNothingPending};

use std::io;

/// The answer of a call that failed for a reason that is the file's own: what cannot be opened counts as not there, and
/// what cannot be read as zeros.
///
/// # Errors
///
/// The failure itself, where the reason is outside the file: the system lacks descriptors or memory, was interrupted,
/// or does not allow the call.
pub fn unless_outside<T: Drop>(error: io::Error, answer: T) -> io::Result<T>
    ensures outside { SaysNothing error → result ≡ Err error }
    ensures own { ¬ (SaysNothing error) → result ≡ Ok answer }
{
    if is_outside(error) {
        Err(error)
    } else {
        Ok(answer)
    }
}

/// Whether a call failed for a reason outside the file: the system lacks descriptors or memory, was interrupted, or
/// does not allow it.
fn is_outside(error: io::Error) -> bool
    ensures { IsTrue result ↔ SaysNothing error }
{
    match error.kind() {
        io::ErrorKind::Interrupted
        | io::ErrorKind::OutOfMemory
        | io::ErrorKind::PermissionDenied
        | io::ErrorKind::ReadOnlyFilesystem => true,
        _ => matches!(error.raw_os_error(), Some(ENFILE | EMFILE)),
    }
}

/// What is no file holds nothing that is pending, and cannot be synced; nor can, on some systems, a folder in which
/// nothing may be written.
pub(crate) fn passed_by(error: io::Error) -> io::Result<()>
    ensures passed { HoldsNothingPending error → IsTrue (is_ok result) }
    ensures failed { ¬ (HoldsNothingPending error) → result ≡ Err error }
{
    match error.kind() {
        io::ErrorKind::InvalidInput => Ok(()),
        _ => Err(error),
    }
}

/// The numbers of the errors where the system, or the process, has no descriptor left.
const ENFILE: i32 = 23;

const EMFILE: i32 = 24;
