//! Contents on their way into blocks that were chosen for them. Nothing here allocates.

ghost use Rattle.std.specs.Prelude.{◌≡◌, ◌⊎◌, ◌≤◌, ◌+◌, ◌*◌, IsTrue, IsOk, OnOk, OnErr, length};
ghost use Rattle.per_base.specs.Causes.{Rose};
ghost use Rattle.std.specs.List.{All};
ghost use Rattle.disk_model.specs.Frame.{Keeps, Tears, Spares};
ghost use Rattle.disk_model.specs.Place.{IsNoArea};
ghost use Rattle.disk_model.specs.Medium.{Quiet, EachCase, Elapses};
ghost use Rattle.block_files.specs.Writes.{Wrote, Tore};
ghost use Rattle.element_store.specs.Jobs.{IsRoomy, AreApart, IsLeftByAll, HasShared, IsJobWritten, IsJobsCase};
ghost use Rattle.element_store.specs.Jobs.{jobs_cost};

use block_files::write_shared;
use disk_model::{Disk, DiskFailed, Place};
use per_base::Numbers;

/// A content, the blocks that were chosen for it, and an earlier content beside which only what differs is written.
#[derive(Debug, Drop)]
pub(crate) struct Job<'a> {
    pub(crate) blocks: Numbers,
    pub(crate) bytes: &'a [u8],
    pub(crate) was: &'a [u8],
}

// Writes each content into its blocks, in every copy, and makes that durable.
pub(crate) fn write_durably<D: Disk>(
    disk: &mut D,
    place: Place,
    jobs: &[Job],
) -> Result<(), DiskFailed>
    requires roomy { All IsRoomy jobs.now }
    requires apart { AreApart jobs.now }
    requires shared { IsTrue D.told → All (HasShared (D.medium disk.old).image place) jobs.now }
    ensures written { IsTrue D.told → OnOk result (All (IsJobWritten (D.medium disk.new).image place)
        jobs.now) }
    ensures keeps { IsTrue D.told → OnOk result
        (Keeps (IsNoArea place) (IsLeftByAll jobs.now) (D.medium disk.old).image
        (D.medium disk.new).image) }
    ensures quiet { OnOk result (Quiet (D.medium disk.new)) }

    // Every other file stays as it is, and at any moment a crash finds the writes of some of the jobs, or all of them
    // durable.
    ensures elsewhere { IsTrue D.told → Spares (IsNoArea place) (D.medium disk.old).image
        (D.medium disk.new).image }
    ensures during { EachCase (IsJobsCase place jobs.now (D.medium disk.old) (D.medium disk.new)
        (IsOk result))
        (D.medium disk.old) (D.medium disk.new) }
    ensures cost { (D.medium disk.new).written ≤ (D.medium disk.old).written + place.copies * jobs_cost jobs.now }
    ensures time { Elapses (D.medium disk.old) (D.medium disk.new) }
    ensures cause { OnErr result (Rose (D.medium disk.old).faults (D.medium disk.new).faults) }
    ensures passes { OnOk result ((D.medium disk.new).faults ≡ (D.medium disk.old).faults) }
{
    write_jobs(disk, place, jobs)?;
    disk.sync()?;
    Ok(())
}

// Writes each content into its blocks, in every copy. They are durable after the next sync.
fn write_jobs<D: Disk>(disk: &mut D, place: Place, jobs: &[Job]) -> Result<(), DiskFailed>
    requires roomy { All IsRoomy jobs.now }
    requires apart { AreApart jobs.now }
    requires shared { IsTrue D.told → All (HasShared (D.medium disk.old).image place) jobs.now }
    ensures written { IsTrue D.told → OnOk result (All (IsJobWritten (D.medium disk.new).image place)
        jobs.now) }
    ensures done { OnOk result (Wrote D.told (IsNoArea place) (IsLeftByAll jobs.now)
        (place.copies * jobs_cost jobs.now) (D.medium disk.old) (D.medium disk.new)) }
    ensures failed { OnErr result (Tore D.told (IsNoArea place) (IsLeftByAll jobs.now)
        (place.copies * jobs_cost jobs.now) (D.medium disk.old) (D.medium disk.new)) }
{
    for job in jobs {
        write_shared(disk, place, job.blocks.as_slice(), job.bytes, job.was)?;
    }
    Ok(())
}
