//! A law of the definitions, for the proofs of callers: it does nothing when it runs.

ghost use Rattle.block_files.specs.Aside.{AsideLaw};

/// Contents in blocks that no write touches survive every crash: those that their area had whole stay as they were, and
/// the writes make no bytes with the hash of any that were not there.
pub fn contents_stand_aside()
    ensures { AsideLaw }
{}
