//! Whole writes, made of the system's writes, which may be short.

ghost use Rattle.std.specs.Prelude.{◌≡◌, ◌⊎◌, ◌↔◌, ℕ, ◌≤◌, ◌<◌, ◌+◌, ◌-◌, ◌^◌, IsTrue, IfOk, OnErr, length, take, drop};
ghost use Rattle.disk_model.specs.Image.{put_image, TornImage};
ghost use Rattle.disk_model.specs.Case.{Case, Follows};
ghost use Rattle.disk_model.specs.Medium.{Elapses, OnlyReads};
ghost use Rattle.system_model.specs.SystemMedium.{InRange, TearCase, ShowsBytes, Looks};
ghost use Rattle.folder_disk.specs.Writes.{WritesAgain, WritesBytes};

use crate::opened::Opened;
use crate::reading::is_interrupted;
use std::io;
use system_model::System;

/// How often an interrupted write is asked once more.
const RETRIES: u64 = 1;

/// How far a write came, and why it went no further where it failed.
#[derive(Clone, Copy, Debug)]
pub(crate) struct Progress {
    pub done: usize,
    pub error: Option<io::Error>,
}

/// Writes the bytes, or some of the first of them.
pub(crate) fn write_all<S: System>(
    system: &mut Opened<S>,
    file: u32,
    at: u64,
    bytes: &[u8],
) -> Progress
    requires { at + length bytes.now < 2 ^ 64 }
    ensures count { result.done ≤ length bytes.now }
    ensures writes { WritesBytes S.told file at bytes.now result.done (S.medium system.old) (S.medium system.new) }
    ensures again { WritesAgain S.told file at bytes.now (S.medium system.old) (S.medium system.new) }
{
    let mut done = 0;
    let mut retries = RETRIES;
    while done < bytes.len() {
        match system.write(file, at + done as u64, &bytes[done..]) {
            Ok(0) => break,
            Ok(more) => done += more,
            Err(error) if retries > 0 && is_interrupted(error) => retries -= 1,
            Err(error) => {
                return Progress {
                    done,
                    error: Some(error),
                };
            }
        }
    }
    Progress { done, error: None }
}
