//! What a sync takes from a session, and what it leaves there.

ghost use Rattle.std.specs.Prelude.{◌≡◌, ◌↔◌, false, IfOk};
ghost use Rattle.key_maps.specs.Changes.{AreChanges};

use crate::session::KeySession;
use per_base::Change;
use std::alloc::AllocError;

impl KeySession {
    /// Discards the pending changes: the synchronised keys are visible again. Does not allocate.
    pub fn discard_pending_changes(&mut self)
        ensures { self.new ≡ record self.old { visible = self.old.synced } }
    {
        self.maps.discard();
    }

    /// Whether the synchronised map and the visible one differ. Does not allocate.
    pub fn has_changes(&self) -> bool
        // False exactly where both maps are the same.
        ensures { (result ≡ false) ↔ (self.now.synced ≡ self.now.visible) }
    {
        self.maps.has_changes()
    }

    /// The changes that a sync writes: those that make the synchronised map into the visible one, one for each key in
    /// which they differ.
    pub fn changes(&self) -> Result<Vec<Change>, AllocError>
        // The only error is that memory ran out.
        ensures { IfOk result (λ changes. AreChanges changes.items self.now.synced self.now.visible) }
    {
        self.maps.changes(self.alloc)
    }

    /// Marks the visible keys as synchronised, once the changes are written. Does not allocate.
    pub fn mark_synced(&mut self)
        ensures { self.new ≡ record self.old { synced = self.old.visible } }
    {
        self.maps.mark_synced();
    }
}
