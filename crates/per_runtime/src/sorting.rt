//! A call, told apart once: one of a deployment, or one that names a storage.

ghost use Rattle.std.specs.Prelude.{◌≡◌, Some};
ghost use Rattle.run_model.specs.Calls.{local_on};
ghost use Rattle.per_runtime.specs.Sorting.{asked_call};

use crate::local_call::LocalCall;
use command_text::Call;
use per_base::{Bytes, Name, StoreKind};

/// A call of a deployment.
#[derive(Clone, Copy)]
pub(crate) enum Deploying<'a> {
    Status,
    /// The text of a manifest.
    Install(&'a Bytes),
    /// The text of a manifest.
    Update(&'a Bytes),
    Finish,
    Rollback,
    Wipe,
    /// The text of a manifest.
    UpdateBegin(&'a Bytes),
    UpdateNext,
    UpdateCommit,
    UpdateAbort,
}

/// A call that names a storage.
#[derive(Clone, Copy)]
pub(crate) enum Storing<'a> {
    Open(&'a Name, StoreKind),
    Close(&'a Name),
    Recover(&'a Name),
    Reset(&'a Name),
    Sync(&'a Name),
    /// The number of the handle.
    Flush(&'a Name, u32),
    Local(LocalCall<'a>),
}

/// A call, by what answers it.
#[derive(Clone, Copy)]
pub(crate) enum Asked<'a> {
    OfDeployment(Deploying<'a>),
    OnStorage(Storing<'a>),
}

/// Tells a call apart.
#[inline(always)]
pub(crate) fn sort(call: &Call) -> Asked<'_>
    ensures { asked_call result ≡ call.now }
{
    match call {
        Call::Status => Asked::OfDeployment(Deploying::Status),
        Call::Install(manifest) => Asked::OfDeployment(Deploying::Install(manifest)),
        Call::Update(manifest) => Asked::OfDeployment(Deploying::Update(manifest)),
        Call::Finish => Asked::OfDeployment(Deploying::Finish),
        Call::Rollback => Asked::OfDeployment(Deploying::Rollback),
        Call::Wipe => Asked::OfDeployment(Deploying::Wipe),
        Call::UpdateBegin(manifest) => Asked::OfDeployment(Deploying::UpdateBegin(manifest)),
        Call::UpdateNext => Asked::OfDeployment(Deploying::UpdateNext),
        Call::UpdateCommit => Asked::OfDeployment(Deploying::UpdateCommit),
        Call::UpdateAbort => Asked::OfDeployment(Deploying::UpdateAbort),

        Call::OpenKvs(name) => Asked::OnStorage(Storing::Open(name, StoreKind::Keys)),
        Call::OpenFiles(name) => Asked::OnStorage(Storing::Open(name, StoreKind::Files)),
        Call::Close(name) => Asked::OnStorage(Storing::Close(name)),
        Call::RecoverStorage(name) => Asked::OnStorage(Storing::Recover(name)),
        Call::ResetStorage(name) => Asked::OnStorage(Storing::Reset(name)),
        Call::Sync(name) => Asked::OnStorage(Storing::Sync(name)),
        Call::Flush(name, handle) => Asked::OnStorage(Storing::Flush(name, *handle)),

        Call::Size(name) => in_memory(call, name, None),
        Call::Keys(name) => in_memory(call, name, Some(StoreKind::Keys)),
        Call::Exists(name, _) => in_memory(call, name, Some(StoreKind::Keys)),
        Call::Get(name, _) => in_memory(call, name, Some(StoreKind::Keys)),
        Call::GetAs(name, _, _) => in_memory(call, name, Some(StoreKind::Keys)),
        Call::Set(name, _, _) => in_memory(call, name, Some(StoreKind::Keys)),
        Call::Remove(name, _) => in_memory(call, name, Some(StoreKind::Keys)),
        Call::RemoveAll(name) => in_memory(call, name, Some(StoreKind::Keys)),
        Call::RecoverKey(name, _) => in_memory(call, name, Some(StoreKind::Keys)),
        Call::ResetKey(name, _) => in_memory(call, name, Some(StoreKind::Keys)),
        Call::Discard(name) => in_memory(call, name, Some(StoreKind::Keys)),

        Call::Files(name) => in_memory(call, name, Some(StoreKind::Files)),
        Call::FileExists(name, _) => in_memory(call, name, Some(StoreKind::Files)),
        Call::OpenFile(name, _, _, _) => in_memory(call, name, Some(StoreKind::Files)),
        Call::CloseFile(name, _) => in_memory(call, name, Some(StoreKind::Files)),
        Call::Peek(name, _) => in_memory(call, name, Some(StoreKind::Files)),
        Call::Byte(name, _) => in_memory(call, name, Some(StoreKind::Files)),
        Call::Read(name, _, _) => in_memory(call, name, Some(StoreKind::Files)),
        Call::ReadAll(name, _) => in_memory(call, name, Some(StoreKind::Files)),
        Call::Line(name, _, _) => in_memory(call, name, Some(StoreKind::Files)),
        Call::Write(name, _, _) => in_memory(call, name, Some(StoreKind::Files)),
        Call::SetSize(name, _, _) => in_memory(call, name, Some(StoreKind::Files)),
        Call::HandleSize(name, _) => in_memory(call, name, Some(StoreKind::Files)),
        Call::Position(name, _) => in_memory(call, name, Some(StoreKind::Files)),
        Call::Seek(name, _, _) => in_memory(call, name, Some(StoreKind::Files)),
        Call::Move(name, _, _, _) => in_memory(call, name, Some(StoreKind::Files)),
        Call::Eof(name, _) => in_memory(call, name, Some(StoreKind::Files)),
        Call::SizeOf(name, _) => in_memory(call, name, Some(StoreKind::Files)),
        Call::Info(name, _) => in_memory(call, name, Some(StoreKind::Files)),
        Call::Delete(name, _) => in_memory(call, name, Some(StoreKind::Files)),
        Call::RecoverFile(name, _) => in_memory(call, name, Some(StoreKind::Files)),
        Call::ResetFile(name, _) => in_memory(call, name, Some(StoreKind::Files)),
        Call::Cat(name, _) => in_memory(call, name, Some(StoreKind::Files)),
        Call::Put(name, _, _) => in_memory(call, name, Some(StoreKind::Files)),
    }
}

fn in_memory<'a>(call: &'a Call, name: &'a Name, kind: Option<StoreKind>) -> Asked<'a>
    requires { local_on call.now ≡ Some (name.now, kind) }
    ensures { asked_call result ≡ call.now }
{
    Asked::OnStorage(Storing::Local(LocalCall { call, name, kind }))
}
