//! The laws of an application in memory, for the proofs of callers: none of these functions does anything when it runs.

ghost use Rattle.std.specs.Prelude.{Bool, IsTrue};
ghost use Rattle.disk_model.specs.Frame.{Spares};
ghost use Rattle.disk_model.specs.Image.{Image};
ghost use Rattle.deploy_laws.specs.Places.{IsFileOf};
ghost use Rattle.run_model.specs.Lasting.{IsApplication};
ghost use Rattle.per_runtime.specs.application.Running.{IsRunning, application};
ghost use Rattle.per_runtime.specs.declared.application.running.Running.{Running};

use deploy::{in_use_stays, roots_in_use};
use deploy_laws::{files_lie_apart, roots_say};
use element_laws::places_stand_apart;

/// What is kept in memory of an application, with what the disk has of it, is an application as every world has it: the
/// open sessions are those of its storages, and its stage fits what the root says.
pub(crate) fn running_is_application()
    ensures { (told : Bool) (image : Image) (r : Running) → IsTrue told → IsRunning told image r
        → IsApplication (application image r) }
{
    roots_in_use();
    roots_say();
}

/// What is kept of an application stays in use while none of its files changes.
pub(crate) fn running_stays()
    ensures { (told : Bool) (old new : Image) (r : Running) → (IsTrue told → Spares (IsFileOf r.app) old new)
        → IsRunning told old r → IsRunning told new r }
{
    files_lie_apart();
    in_use_stays();
    places_stand_apart();
}
