//! What is known in memory of an application: which calls go on beside an update, which call the device, and the
//! status.

ghost use Rattle.std.specs.Prelude.{◌≡◌, Bool, IfOk, IsSome, IsTrue, OnErr, Some, false, is_ok};
ghost use Rattle.std.specs.Prelude.{option_map};
ghost use Rattle.per_base.specs.declared.elements.StoreKind.{StoreKind};
ghost use Rattle.disk_model.specs.Image.{Image};
ghost use Rattle.deploy.specs.Roots.{root_says};
ghost use Rattle.deploy_laws.specs.Apps.{App, app_at};
ghost use Rattle.run_model.specs.Calls.{active_storages, beside_update, first_open, goes_beside};
ghost use Rattle.run_model.specs.Found.{storage_in};
ghost use Rattle.run_model.specs.Steps.{uses_device};
ghost use Rattle.run_model.specs.Worlds.{is_to_open, update_in};
ghost use Rattle.per_runtime.specs.Sorting.{asked_call, deploying_call};
ghost use Rattle.per_runtime.specs.storages.Slots.{sessions_in};
ghost use Rattle.per_runtime.specs.application.Needs.{no_update_over, no_way_back};
ghost use Rattle.per_runtime.specs.application.Running.{IsRunning, stage_in};
ghost use Rattle.per_runtime.specs.application.Stages.{installed_parts, reply_with, says_status, stage_root};
ghost use Rattle.per_runtime.specs.application.Stages.{without_update};

use crate::application::running::{Running, Stage};
use crate::replying::{answered, refusal};
use crate::sorting::{Asked, Deploying};
use command_text::{Answer, AppStatus, Reply};
use deploy::{Installed, Root, roots_in_use};
use deploy_laws::roots_say;
use per_base::{Holder, Name, PerError, StoreKind, Unit};
use std::alloc::AllocError;

/// The calls that go on beside an update in progress.
pub(crate) fn goes_beside(asked: &Asked) -> bool
    ensures { result ≡ goes_beside (asked_call asked.now) }
{
    match asked {
        Asked::OnStorage(_) => false,
        Asked::OfDeployment(deploying) => is_beside(deploying),
    }
}

fn is_beside(deploying: &Deploying) -> bool
    ensures { result ≡ goes_beside (deploying_call deploying.now) }
{
    match deploying {
        Deploying::Status => true,
        Deploying::Install(_) => true,
        Deploying::Update(_) => false,
        Deploying::Finish => false,
        Deploying::Rollback => false,
        Deploying::Wipe => false,
        Deploying::UpdateBegin(_) => false,
        Deploying::UpdateNext => true,
        Deploying::UpdateCommit => true,
        Deploying::UpdateAbort => true,
    }
}

/// The calls of a deployment that call the device.
pub(crate) fn calls_device(deploying: &Deploying) -> bool
    ensures { (a : App) → result ≡ uses_device a (deploying_call deploying.now) }
{
    match deploying {
        Deploying::Status => false,
        Deploying::Install(_) => true,
        Deploying::Update(_) => true,
        Deploying::Finish => true,
        Deploying::Rollback => true,
        Deploying::Wipe => true,
        Deploying::UpdateBegin(_) => true,
        Deploying::UpdateNext => true,
        Deploying::UpdateCommit => true,
        Deploying::UpdateAbort => false,
    }
}

// The versions of what is installed.
fn versions_of(installed: &Installed) -> AppStatus
    ensures { reply_with (Answer.Status result) ≡ says_status (root_says (Root.Installed installed.now)) }
{
    AppStatus::Active {
        version: installed.active.deployment.version,
        previous: match &installed.previous {
            Some(previous) => Some(previous.deployment.version),
            None => None,
        },
    }
}

impl Running {
    // Why a call is refused while an update is in progress, if it is.
    pub(crate) fn busy_with(&self, asked: &Asked) -> Option<PerError>
        ensures { result ≡ beside_update (update_in (stage_in self.now.stage)) (asked_call asked.now) }
    {
        match &self.stage {
            Stage::Updating(staged) if !goes_beside(asked) => Some(PerError::ResourceBusy {
                holder: Holder::Update(staged.offered()),
            }),
            _ => None,
        }
    }

    // What is installed, where the root in memory says that something is.
    pub(crate) fn installed(&self) -> Option<&Installed>
        ensures { option_map (λ i. i.now) result ≡ installed_parts (stage_root self.now.stage) }
    {
        match &self.stage {
            Stage::AtRest(Root::Installed(installed)) => Some(installed),
            Stage::Updating(staged) => Some(staged.root()),
            _ => None,
        }
    }

    // Whether a close of this name comes to files, open or not.
    pub(crate) fn closes_files(&self, name: &Name) -> bool
        requires { (told : Bool) × (image : Image) × IsRunning told image self.now }
        ensures { (told : Bool) (image : Image) → IsRunning told image self.now → IsTrue told
            → is_to_open (stage_in self.now.stage) ≡ false
            → result ≡ is_ok (storage_in (app_at image self.now.app) name.now (Some StoreKind.Files)) }
    {
        roots_in_use();
        roots_say();
        let Some(installed) = self.installed() else {
            return false;
        };
        let storages = installed.active.deployment.storages.as_slice();
        match installed.active.deployment.number(name) {
            Some(number) => matches!(storages[number].kind, StoreKind::Files),
            None => false,
        }
    }

    // The status.
    pub(crate) fn status(&self) -> Reply
        ensures { result ≡ says_status (root_says (stage_root self.now.stage)) }
    {
        if let Some(installed) = self.installed() {
            return answered(self.alloc, Answer::Status(versions_of(installed)));
        }
        match &self.stage {
            Stage::AtRest(Root::Absent(_)) => answered(
                self.alloc,
                Answer::Status(AppStatus::Absent),
            ),
            _ => refusal(
                self.alloc,
                PerError::IntegrityCorrupted { unit: Unit::Root },
            ),
        }
    }

    // Why an update cannot go on, where none is in progress.
    pub(crate) fn without_update(&self) -> Reply
        ensures { result ≡ reply_with (Answer.Error (without_update (root_says (stage_root self.now.stage)))) }
    {
        let error = if self.installed().is_some() {
            PerError::NoUpdateInProgress
        } else {
            match &self.stage {
                Stage::AtRest(Root::Absent(_)) => PerError::NotInstalled,
                _ => PerError::IntegrityCorrupted { unit: Unit::Root },
            }
        };
        refusal(self.alloc, error)
    }

    // Why the root refuses an update before its manifest is read, if it does.
    pub(crate) fn no_update_over(&self) -> Option<PerError>
        ensures { result ≡ no_update_over (root_says (stage_root self.now.stage)) }
    {
        if let Some(installed) = self.installed() {
            return match &installed.previous {
                Some(previous) => Some(PerError::UpdateNotFinished {
                    previous: previous.deployment.version,
                }),
                None => None,
            };
        }
        match &self.stage {
            Stage::AtRest(Root::Absent(_)) => Some(PerError::NotInstalled),
            _ => Some(PerError::IntegrityCorrupted { unit: Unit::Root }),
        }
    }

    // Why the root refuses a rollback, if it does.
    pub(crate) fn no_way_back(&self) -> Option<PerError>
        ensures { result ≡ no_way_back (root_says (stage_root self.now.stage)) }
    {
        if let Some(installed) = self.installed() {
            return match &installed.previous {
                Some(_) => None,
                None => Some(PerError::NoPreviousVersion),
            };
        }
        match &self.stage {
            Stage::AtRest(Root::Absent(_)) => Some(PerError::NotInstalled),
            _ => Some(PerError::IntegrityCorrupted { unit: Unit::Root }),
        }
    }

    // A copy of the name of the open storage with the lowest number, the first in the order of names; `root` is of the
    // version whose storages these are.
    pub(crate) fn busy(&self, root: &Root) -> Result<Option<Name>, AllocError>
        ensures busy { IfOk result (λ busy. busy ≡ first_open (sessions_in self.now.slots)
            (active_storages (root_says root.now))) }
        ensures memory { OnErr result (IsSome (first_open (sessions_in self.now.slots)
            (active_storages (root_says root.now)))) }
    {
        match self.slots.least_open(root) {
            Some(name) => Ok(Some(name.copy()?)),
            None => Ok(None),
        }
    }
}
