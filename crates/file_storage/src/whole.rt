//! A whole content at once.

ghost use Rattle.std.specs.Prelude.{◌≡◌, IfErr, IfOk, OnErr, OnOk, Ok};
ghost use Rattle.per_base.specs.Refusals.{IsRefusal, NeedsMemory};
ghost use Rattle.file_handles.specs.Whole.{cat, put_whole};
ghost use Rattle.file_storage.specs.FileSessions.{storage_of};

use crate::files::Files;
use per_base::{Name, PerError};

impl Files {
    /// The whole content of a file, as a reader gets it that opens the file with no flag and closes it again. `now` is
    /// the moment of the opening, in seconds.
    ///
    /// # Errors
    ///
    /// Those of `can_open` for kind Read with no flag; `OutOfMemory`.
    pub fn whole_content(&mut self, name: &Name, now: u64) -> Result<Vec<u8>, PerError>
        // The answer and the session after it, or the refusal that is due, are what `cat` gives for the session
        // before.
        ensures ok { IfOk result (λ content. cat (storage_of self.old.config) self.old.session name.now now
            ≡ Ok (content.items, self.new.session)) }
        ensures refused { IfErr result (λ error. IsRefusal
            (cat (storage_of self.old.config) self.old.session name.now now) error) }
        // Memory runs out where the call is not to be refused, or for the names that `IntegrityCorrupted` carries.
        ensures memory { IfErr result (λ error. error ≡ PerError.OutOfMemory
            → NeedsMemory (cat (storage_of self.old.config) self.old.session name.now now)) }
        // The moment is then this one, and all else but the session stays.
        ensures moment { OnOk result (self.new.moment ≡ now) }
        ensures beside { self.new ≡ record self.old { session = self.new.session; moment = self.new.moment } }
        ensures unchanged { OnErr result (self.new ≡ self.old) }
    {
        self.table.whole_content(name, now)
    }

    /// Makes these bytes the content of a file, which is made where it is missing: as a writer does that opens the file
    /// with the flag that truncates, writes them and closes it again. Whether the file may be opened and whether the
    /// bytes fit is asked first.
    ///
    /// # Errors
    ///
    /// Those of `can_open` for kind Write with the flag that truncates; those of `would_fit`; `OutOfMemory`.
    pub fn replace(&mut self, name: &Name, bytes: &[u8], now: u64) -> Result<(), PerError>
        // The session after the call, or the refusal that is due, is what `put_whole` gives for the session before.
        ensures ok { OnOk result (put_whole (storage_of self.old.config) self.old.session name.now bytes.now now
            ≡ Ok self.new.session) }
        ensures refused { IfErr result (λ error. IsRefusal
            (put_whole (storage_of self.old.config) self.old.session name.now bytes.now now) error) }
        // Memory runs out where the call is not to be refused, or for the names that `IntegrityCorrupted` carries.
        ensures memory { IfErr result (λ error. error ≡ PerError.OutOfMemory
            → NeedsMemory (put_whole (storage_of self.old.config) self.old.session name.now bytes.now now)) }
        // The moment is then this one, and all else but the session stays.
        ensures moment { OnOk result (self.new.moment ≡ now) }
        ensures beside { self.new ≡ record self.old { session = self.new.session; moment = self.new.moment } }
        ensures unchanged { OnErr result (self.new ≡ self.old) }
    {
        self.table.replace(name, bytes, now)
    }
}
