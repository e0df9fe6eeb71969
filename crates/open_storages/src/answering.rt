//! The calls on an open storage that touch no disk.

ghost use Rattle.std.specs.Prelude.{◌≡◌, ◌≢◌, IfErr, IfOk, OnErr, Ok};
ghost use Rattle.per_base.specs.Refusals.{IsRefusal, NeedsMemory};
ghost use Rattle.element_store.specs.Stores.{store_shape};
ghost use Rattle.command_text.specs.Replies.{HasText};
ghost use Rattle.run_model.specs.Sessions.{in_session, synced_in_session};
ghost use Rattle.open_storages.specs.Opens.{config_in, session_in, store_in};

use crate::opens::Open;
use crate::with_files::answer_files;
use crate::with_keys::answer_keys;
use command_text::{Answer, Call};
use per_base::PerError;

impl Open {
    /// Answers a call that touches no disk, at a moment in seconds. The storage that the call names is taken to be this
    /// one.
    ///
    /// # Errors
    ///
    /// Those of the call, in their order, and then nothing changes; `StorageNotFound` for every call that does not come
    /// to an open storage of this kind; `OutOfMemory`, but never in the place of a refusal without names or texts.
    #[tactic(auto, using(crate::proofs::Rows::answered_ok, crate::proofs::Rows::answered_refused))]
    pub fn call(&mut self, now: u64, call: &Call) -> Result<Answer, PerError>
        // The row `in_session` gives the answer and the session then; a refusal is the row's, or `OutOfMemory` where
        // the call needs memory, never that the device failed, and changes nothing. The configuration and what is
        // synchronised stay.
        ensures ok { IfOk result (λ answer. in_session (config_in self.old) now (session_in self.old) call.now
            ≡ Ok (answer, session_in self.new)) }
        ensures text { IfOk result HasText }
        ensures refused { IfErr result (λ error. IsRefusal
            (in_session (config_in self.old) now (session_in self.old) call.now) error) }
        ensures unfailed { IfErr result (λ error. error ≢ PerError.PhysicalStorageFailure) }
        ensures memory { IfErr result (λ error. error ≡ PerError.OutOfMemory
            → NeedsMemory (in_session (config_in self.old) now (session_in self.old) call.now)) }
        ensures unchanged { OnErr result (session_in self.new ≡ session_in self.old) }
        ensures config { config_in self.new ≡ config_in self.old }
        ensures store { store_in self.new ≡ store_in self.old }
        ensures synced { synced_in_session (session_in self.new) ≡ synced_in_session (session_in self.old) }
    {
        match self {
            Open::Keys(kvs) => answer_keys(kvs, call),
            Open::Files(files) => answer_files(files, now, call),
        }
    }
}
