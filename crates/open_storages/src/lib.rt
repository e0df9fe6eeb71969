//! One open storage of either kind, and every call on it.
//!
//! An [`Open`] is a key-value storage or a file storage in use. [`open_storage`] opens it as it is configured, and says
//! what was lacking or that it is corrupt; [`Open::call`] answers the calls that touch no disk; [`Open::sync`],
//! [`Open::flush`] and [`Open::close`] make durable what the calls see, all at once, and write only what differs.
//!
//! Its *session* is what is synchronised and what the calls see. A *row* is the definition that says of a call what it
//! answers and what the calls then see, or why it is refused. A storage is *worn* where no generation is left.
//!
//! The promises: each call answers as its row says, every refusal in its order with what it carries, and a refused call
//! changes nothing. A stop at any moment leaves the storage as before or as after, and no file outside its place
//! changes. Where memory ran out or the device failed, the storage is dropped, and what stands on the disk is what the
//! next opening finds.
//!
//! In the contracts `told` is that a disk's bytes are modelled, and `quiet` that nothing is pending on it. A *text* is
//! an index as copies hold it. It *fits* where it spells an index within the limits, and *qualifies* where enough
//! copies support it. What a storage opens at is its *view*: its generation and elements. A place is *clean* where
//! nothing on it contradicts anything.
#![tactic(auto)]

mod answering;
mod closing;
mod opening;
mod opens;
mod syncing;
mod with_files;
mod with_keys;

pub use closing::Closing;
pub use opening::{Opening, open_storage};
pub use opens::Open;
pub use syncing::Durable;
