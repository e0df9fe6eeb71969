//! A call on an open storage that touches no disk.

ghost use Rattle.std.specs.Prelude.{◌≡◌, Some};
ghost use Rattle.run_model.specs.Calls.{local_on};

use command_text::Call;
use per_base::{Name, StoreKind};

/// A call that names an open storage, of this kind where it needs one, and touches no disk.
#[derive(Clone, Copy)]
pub(crate) struct LocalCall<'a> {
    pub(crate) call: &'a Call,
    pub(crate) name: &'a Name,
    pub(crate) kind: Option<StoreKind>,
    ghost on: { local_on call.now ≡ Some (name.now, kind) },
}
