//! The calls on keys.

ghost use Rattle.std.specs.Prelude.{◌≡◌, IfErr};
ghost use Rattle.per_base.specs.Refusals.{NeedsMemory};
ghost use Rattle.kvs_store.specs.Storages.{showing};
ghost use Rattle.run_model.specs.Sessions.{on_keys};
ghost use Rattle.open_storages.specs.Answers.{IsAnsweredAsRow};
ghost use Rattle.open_storages.specs.Opens.{keys_of};

use command_text::{Answer, Call};
use kvs_store::Kvs;
use per_base::{PerError, Sequence};

/// Answers a call on keys.
#[tactic(auto, using(crate::proofs::Rows::refused_then, crate::proofs::Rows::due_then, crate::proofs::Rows::answered_then), unfolding(run_model::specs::Sessions::on_keys))]
pub(crate) fn answer_keys(kvs: &mut Kvs, call: &Call) -> Result<Answer, PerError>
    ensures answered { IsAnsweredAsRow (on_keys kvs.old.config (keys_of kvs.old) call.now) (keys_of kvs.old)
        (keys_of kvs.new) result }
    ensures memory { IfErr result (λ error. error ≡ PerError.OutOfMemory
        → NeedsMemory (on_keys kvs.old.config (keys_of kvs.old) call.now)) }
    ensures beside { kvs.new ≡ showing kvs.old kvs.new.session.visible }
{
    match call {
        Call::Size(_) => Ok(Answer::Number(kvs.current_size())),
        Call::Keys(_) => Ok(Answer::Names(Sequence::new(kvs.all_keys()?))),
        Call::Exists(_, key) => Ok(Answer::Truth(kvs.key_exists(key))),
        Call::Get(_, key) => Ok(Answer::Val(kvs.get_copy(key)?)),
        Call::GetAs(_, key, asked) => Ok(Answer::Val(kvs.get_as(key, asked.value_type())?)),
        Call::Set(_, key, value) => {
            kvs.set_copy(key, value)?;
            Ok(Answer::Done)
        }
        Call::Remove(_, key) => {
            kvs.remove_key(key)?;
            Ok(Answer::Done)
        }
        Call::RemoveAll(_) => {
            kvs.remove_all_keys()?;
            Ok(Answer::Done)
        }
        Call::RecoverKey(_, key) => {
            kvs.recover_key(key)?;
            Ok(Answer::Done)
        }
        Call::ResetKey(_, key) => {
            kvs.reset_key(key)?;
            Ok(Answer::Done)
        }
        Call::Discard(_) => {
            kvs.discard_pending_changes();
            Ok(Answer::Done)
        }
        _ => Err(PerError::StorageNotFound),
    }
}
