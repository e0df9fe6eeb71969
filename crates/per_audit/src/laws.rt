//! What an audit means, for the proofs of callers: the function does nothing when it runs.

ghost use Rattle.per_audit.specs.Laws.{IntactIsSoundLaw, SilentOpeningLaw, SoundIsIntactLaw};

/// Nothing is found exactly where every root says something, no copy lacks it and no other text is held in its place,
/// and every storage that a root names opens, with no copy that lacks it, no other text and nothing that its opening
/// would report. And so no opening of such a storage reports anything.
pub fn sound_disks_report_nothing()
    ensures intact { SoundIsIntactLaw }
    ensures sound { IntactIsSoundLaw }
    ensures silent { SilentOpeningLaw }
{}
