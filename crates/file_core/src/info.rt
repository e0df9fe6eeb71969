//! What a making, a change and an opening leave of the info of a file. A moment (`now`) is in seconds.

ghost use Rattle.std.specs.Prelude.{◌≡◌};
ghost use Rattle.file_core.specs.Infos as infos;

use per_base::{Cause, FileInfo};

/// The info of a file that is made now for this cause.
pub fn made(now: u64, cause: Cause) -> FileInfo
    ensures { result ≡ infos.made now cause }
{
    FileInfo {
        created: now,
        modified: now,
        accessed: now,
        creation: cause,
        modification: cause,
    }
}

/// The info of a file whose content changes now for this cause.
pub fn changed(now: u64, cause: Cause, info: FileInfo) -> FileInfo
    ensures { result ≡ infos.info_changed now cause info }
{
    FileInfo {
        created: info.created,
        modified: now,
        accessed: info.accessed,
        creation: info.creation,
        modification: cause,
    }
}

/// The info of a file that is opened now.
pub fn opened(now: u64, info: FileInfo) -> FileInfo
    ensures { result ≡ infos.opened_info now info }
{
    FileInfo {
        created: info.created,
        modified: info.modified,
        accessed: now,
        creation: info.creation,
        modification: info.modification,
    }
}
