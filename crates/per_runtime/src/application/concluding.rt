//! How a call of a deployment leaves what is in memory, and is answered.

ghost use Rattle.std.specs.Prelude.{◌≡◌, Err, IfNone, IfSome, None, Some, length};
ghost use Rattle.per_runtime.specs.application.Stages.{ConcludesCall, stage_root, staged_in};

use crate::application::running::{Running, Stage};
use crate::replying::{answered, refusal};
use command_text::{Answer, Reply};
use deploy::{Outcome, Root, Staged, Stop};
use std::mem;

impl Stage {
    // The root that is in memory: of an update in progress the one over which it was begun. One that is to be opened
    // says nothing.
    pub(crate) fn into_root(self) -> Root
        ensures { result ≡ stage_root self }
    {
        match self {
            Stage::ToOpen => Root::Bad,
            Stage::AtRest(root) => root,
            Stage::Updating(staged) => staged.abort(),
        }
    }
}

impl Running {
    // Takes the root out of memory. Until one is put back it is to be opened, which is so where the call does not end.
    pub(crate) fn take_root(&mut self) -> Root
        ensures root { result ≡ stage_root self.old.stage }
        ensures left { self.new ≡ record self.old { stage = Stage.ToOpen } }
    {
        mem::replace(&mut self.stage, Stage::ToOpen).into_root()
    }

    // Takes the update in progress out of memory, where there is one; else nothing changes.
    pub(crate) fn take_update(&mut self) -> Option<Staged>
        ensures staged { result ≡ staged_in self.old.stage }
        ensures left { IfSome result (λ s. self.new ≡ record self.old { stage = Stage.ToOpen }) }
        ensures same { IfNone result (self.new ≡ self.old) }
    {
        match mem::replace(&mut self.stage, Stage::ToOpen) {
            Stage::Updating(staged) => Some(staged),
            other => {
                self.stage = other;
                None
            }
        }
    }

    // Keeps the root that a call leaves, and builds the reply. On a failure all storages are closed.
    pub(crate) fn conclude(&mut self, made: Result<Outcome, Stop>) -> Result<Reply, Stop>
        requires room { length self.old.slots.open.items ≡ 16 }
        ensures { ConcludesCall made self.old self.new result }
    {
        match made {
            Ok(Outcome { root, refused }) => {
                self.stage = Stage::AtRest(root);
                Ok(match refused {
                    None => answered(self.alloc, Answer::Done),
                    Some(error) => refusal(self.alloc, error),
                })
            }
            Err(stop) => {
                self.slots.clear();
                Err(stop)
            }
        }
    }
}
