//! The laws of whole contents, for the proofs of callers: the function does nothing when it runs.

ghost use Rattle.file_handles.specs.Whole.{CatLaw, PutLaw, SameContentLaw};

/// What was asked first is not refused midway: where a file may be opened for reading, its whole content is given;
/// where it may be opened for writing and the bytes fit, they become its content. An opening for reading leaves the
/// content as it was.
pub fn whole_contents_are_given()
    // The first two are said of every storage, session and file; the third of every opening for reading that
    // succeeds.
    ensures cat { CatLaw }
    ensures put { PutLaw }
    ensures same { SameContentLaw }
{}
