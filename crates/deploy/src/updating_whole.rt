//! An update in one call.

ghost use Rattle.std.specs.Prelude.{◌≡◌, ◌⊎◌, ◌<◌, [], ◌∷◌, Err, IfOk, IsErrOf, IsOk, IsTrue, None, OnOk, option_map};
ghost use Rattle.std.specs.Prelude.{◌≢◌};
ghost use Rattle.per_base.specs.Causes.{Rose};
ghost use Rattle.per_base.specs.declared.errors.PerError.{PerError};
ghost use Rattle.disk_model.specs.Medium.{Elapses, Quiet};
ghost use Rattle.migrate_fns.specs.Stored.{answers_of, rules_of};
ghost use Rattle.deploy_laws.specs.Apps.{IsCleanApp, app_at};
ghost use Rattle.deploy_laws.specs.Places.{shapes_from};
ghost use Rattle.deploy_laws.specs.Stands.{ChangesNothing};
ghost use Rattle.deploy_rows.specs.Rows.{BeginsUpdate, InProgress, UpdateMayLead, offered};
ghost use Rattle.deploy.specs.Clauses.{IsBesideNext, Leaves};
ghost use Rattle.deploy_rows.specs.Costs.{storages_said};
ghost use Rattle.deploy.specs.Making.{IsBesideMade, MayBegin, RootComesLast, WritesUpdate, making_from};
ghost use Rattle.deploy.specs.Refusals.{AllocatesNothing};
ghost use Rattle.deploy.specs.Roots.{RootAt, free_bank, root_app, root_texts};
ghost use Rattle.deploy.specs.Updates.{IsUpdated, LeadsTo};

use crate::errors::Stop;
use crate::laws::roots_in_use;
use crate::roots::{Outcome, Root};
use crate::updating::{Begin, begin_update};
use deploy_laws::untouched_stands;
use deploy_rows::rows_lead_on;
use disk_model::Disk;
use migrate_fns::Migrations;
use per_base::Name;
use std::alloc::Global;

/// Updates an application to the version that a manifest describes, at a moment in seconds: its storages are made in
/// the other bank, and then the root is written once. The version before it is kept as it was, until it is finished or
/// rolled back.
///
/// Refusals are those of [`begin_update`], and then nothing was written. Those before the plan come before any call of
/// the disk.
///
/// # Errors
///
/// `Device` where the disk fails, and `OutOfMemory`: then the root is to be opened again.
pub fn update<D: Disk>(
    alloc: Global,
    disk: &mut D,
    app: u32,
    root: Root,
    busy: Option<&Name>,
    manifest: &[u8],
    migrations: &Migrations,
    now: u64,
) -> Result<Outcome, Stop>
    requires app { app < 8 }
    requires root { RootAt D.told (D.medium disk.old).image app root }

    ensures root { IfOk result (λ o. RootAt D.told (D.medium disk.new).image app o.root) }

    // Of the ways in which this update may begin one is answered: with its refusal, or with the application to which it
    // leads, in memory and on a disk that is modelled. The root then has this manifest before those that it had.
    ensures updates { IfOk result (IsUpdated D.told
        (BeginsUpdate (rules_of migrations.now) (answers_of migrations.now) now (option_map (λ n. n.now) busy.entry)
        manifest.now)
        app (D.medium disk.old).image (D.medium disk.new).image root) }
    ensures text { IfOk result (λ o. o.refused ≡ None → root_texts o.root ≡ manifest.now ∷ root_texts root) }
    ensures clean { IsTrue D.told → IsCleanApp app (D.medium disk.old).image
        → OnOk result (IsCleanApp app (D.medium disk.new).image) }
    ensures quiet { Quiet (D.medium disk.old) → OnOk result (Quiet (D.medium disk.new)) }
    // A refused call writes nothing. A refusal that comes before what the storages hold (`offered`) does not call the
    // disk, so no device fails there, and one that allocates nothing comes also where memory ran out.
    ensures unchanged { IfOk result (λ o. o.refused ≢ None
        → ((D.medium disk.new).image ≡ (D.medium disk.old).image)
        × ((D.medium disk.new).written ≡ (D.medium disk.old).written) × (o.root ≡ root)) }
    ensures early { (e : PerError) → offered (option_map (λ n. n.now) busy.entry) manifest.now (root_app root [])
        ≡ Err e → disk.new ≡ disk.old }
    ensures due { (e : PerError) → offered (option_map (λ n. n.now) busy.entry) manifest.now (root_app root []) ≡ Err e
        → AllocatesNothing e
        → IsOk result }
    // The count of faults rose where the device failed, and stayed where the call succeeded or memory ran out.
    ensures cause { IsErrOf result Stop.Device → Rose (D.medium disk.old).faults (D.medium disk.new).faults }
    ensures device_only { IsErrOf result Stop.Device
        → IsOk (offered (option_map (λ n. n.now) busy.entry) manifest.now (root_app root [])) }
    ensures passes { OnOk result ((D.medium disk.new).faults ≡ (D.medium disk.old).faults) }
    ensures fed { IsErrOf result Stop.OutOfMemory → (D.medium disk.new).faults ≡ (D.medium disk.old).faults }

    // Only slots of the root and files of the manifest's storages in the other bank change, and at any moment the
    // application stands as before or as one next application, to which the update may lead and which is there where
    // it ends well.
    ensures outside { Leaves D.told (IsBesideNext app (free_bank root)) (D.medium disk.old) (D.medium disk.new) }
    ensures places { Leaves D.told (IsBesideMade app (shapes_from app (free_bank root) 0 (storages_said manifest.now)))
        (D.medium disk.old) (D.medium disk.new) }
    // No more is written than these storages cost with the contents that the update begins with, and then the root.
    ensures written { WritesUpdate D.told
        (BeginsUpdate (rules_of migrations.now) (answers_of migrations.now) now (option_map (λ n. n.now) busy.entry)
        manifest.now)
        app root manifest.now (D.medium disk.old) (D.medium disk.new) }
    // Nothing is written, or the storages come first, with the contents that the update begins with, and then the root,
    // which is written once.
    ensures last { ChangesNothing (D.medium disk.old) (D.medium disk.new)
        ⊎ ((p : InProgress) × MayBegin D.told
        (BeginsUpdate (rules_of migrations.now) (answers_of migrations.now) now (option_map (λ n. n.now) busy.entry)
        manifest.now)
        app root (D.medium disk.old).image p
        × RootComesLast D.medium D.told app
        (making_from app (free_bank root) 0 (storages_said manifest.now) p.contents (manifest.now ∷ root_texts root))
        disk.old disk.new) }
    ensures any_moment { IsTrue D.told → LeadsTo app
        (UpdateMayLead (rules_of migrations.now) (answers_of migrations.now) now (option_map (λ n. n.now) busy.entry)
        manifest.now
        (app_at (D.medium disk.old).image app)) result (D.medium disk.old) (D.medium disk.new) }
    ensures time { Elapses (D.medium disk.old) (D.medium disk.new) }
{
    rows_lead_on();
    roots_in_use();
    untouched_stands();
    let begun = begin_update(alloc, disk, app, root, busy, manifest, migrations, now)?;
    match begun {
        Begin::Refused(same, refused) => Ok(same.refuses(refused)),
        Begin::Ready(staged) => {
            let next = staged.commit_update(disk)?;
            Ok(Outcome {
                root: next,
                refused: None,
            })
        }
    }
}
