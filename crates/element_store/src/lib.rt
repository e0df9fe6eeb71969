//! The elements of one storage: keys or files with their contents, in the copies of a place.
//!
//! A [`Store`] is a storage in use: every copy holds its index and no other text, its entries are what the copies hold,
//! copies lack only elements that cannot be read, and the storage opens at just this view.
//!
//! [`create`] creates one, under generation 1. [`open_store`] opens one: it brings every copy to the text at which
//! the storage opens, writes each element again in the copies that lack it, and reports what was lacking or could not
//! be read. [`Store::commit`] makes changes all at once, with what differs in blocks that were free, and [`rebuild`]
//! rebuilds a storage beside what its place holds, under the next generation. In each of these the contents are
//! durable before the index that names them takes its place. [`inspect`] and [`salvage`] look at a storage and write
//! nothing; [`reports_of`] gives what an opening reports of a view, and [`failed_report`] what it reports of a corrupt
//! storage.
//!
//! A storage in use keeps the states of the hasher after each 32 KiB of the contents that an opening read or a commit
//! wrote, 104 bytes each, so that the next content of such an element is hashed from the last of them before the first
//! byte that differs. Where memory is short it keeps fewer, and hashes more. It keeps the names of the index that its
//! last commit replaced, which the next index takes in place of copies.
//!
//! The promise, on every image: the exact view, a quiet disk, a place that is clean where it was so or is rebuilt,
//! and no file elsewhere changed at any moment. A stop at any moment of an opening, a commit or a rebuild leaves the
//! storage as before or as after. A failure of the disk comes only where its count of faults rose. What is read is
//! a view on every disk, modelled or not: names ascend, and lengths are right.
//!
//! Words of the contracts: a *text* is an index as copies hold it, in their slot files; contents are in their area
//! files, in blocks of 256 bytes. A text *fits* that spells an index within the limits, and *qualifies* where enough
//! copies support it; a storage opens at the first that does, and the *salvage* of a corrupt one is the view of the
//! first text that fits. A *shape* is a storage as it is configured, its *place* the files of its copies. `told` says
//! that the bytes of a disk of this type are modelled; `D.medium` is all that is said of a disk at a moment, with the
//! files as reads give them (`image`), the count of bytes written (`written`) and that of failed calls (`faults`). A
//! disk is *quiet* where nothing is pending, and a place *clean* where no two texts on it have one generation, each of
//! them fits, and the copies in which a content has its hash have the same bytes of it. A *case* is one way that a
//! crash may go, a *piece* a text in a slot or a content in blocks, each with its hash. The *head* of a text is the 44
//! bytes before it in a slot: its hash, generation and length. A storage is *kept* where a stop, and damage after it,
//! leaves it as before or as after, with each element of which enough copies are left, if no torn piece passes its hash
//! by chance and, where an opening mends, no two contents have one hash. Clauses named alike say the same of each call:
//! `cause`, that the disk's count of faults rose; `passes` and `fed`, that it stayed, on success and where memory ran
//! out; `elsewhere` and `outside`, that no file outside the place changed, at the end and at any moment; `time`, that
//! the disk's clock and counts only go on.
//!
//! Limits: at most 1,024 elements, 8 copies (a manifest allows 7), and 4,194,304 bytes of names and contents; one
//! caller at a time. A creation gives up what its place held before it writes anything else, and a stop in it may
//! leave a corrupt storage.
#![tactic(auto)]

mod changing;
mod committing;
mod creating;
mod hashing;
mod jobs;
mod laws;
mod listed;
mod mending;
mod named;
mod opening;
mod planning;
mod rebuilding;
mod reporting;
mod spelling;
mod store;
mod taking;
mod writing;

pub use creating::create;
pub use element_state::{Shape, StoreError, View, failed_report, inspect, salvage};
pub use laws::use_stays;
pub use opening::{OpenedStore, open_store};
pub use rebuilding::rebuild;
pub use reporting::reports_of;
pub use store::Store;
