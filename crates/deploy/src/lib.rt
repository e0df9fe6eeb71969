//! Deployment: an application is installed, updated, finished, rolled back and wiped, whole or not at all.
//!
//! What is installed stands in the application's root, a register of three copies ([`Root`]). A version is in one of
//! two banks of storages; the next one is made in the other bank, and only then is the root written, once. So a stop at
//! any moment leaves the application as it was or as the call leads to. To *finish* an update is to forget the version
//! before it; until then it can be rolled back to.
//!
//! Words of the contracts: a *row* (`deploy_rows`) makes of an application the next one, or says why a call is refused;
//! what is said of bytes holds where a disk is *told*, its bytes modelled; a disk is *quiet* where nothing is pending;
//! a place is *clean* where each text held in it is one of its kind and no two have one generation; `time` says that
//! the disk's moments go on. A *generation* is a number that rises with each new text of a place, and a *slot* one of
//! the two files of a copy that take these texts by turns. A *shape* is a storage as a deployment gives it, its *place*
//! the files of its copies; its initial contents are what it is installed with. An answer `Ok(Some(error))` is a
//! refusal, which is no failure of the device. `root_app root []` is an application by its root alone, with no word of
//! its storages: a row whose refusal reads none of them takes it so.
//!
//! Of a disk at a moment (a `Medium`), the `image` is what reads give, `written` counts the bytes that were written,
//! and `faults` the calls that failed; that count *rose* also where it stands at its greatest.
//!
//! Limits: eight applications; of each a manifest of at most 65,536 bytes with at most sixteen storages, and one update
//! at a time; one caller at a time.
#![tactic(auto)]

mod errors;
mod formatting;
mod installing;
mod laws;
mod leaving;
mod making;
mod opening;
mod recovering;
mod roots;
mod shapes;
mod standing;
mod updating;
mod updating_whole;
mod viewing;
mod wiping;
mod writing;

pub use errors::Stop;
pub use formatting::format_all;
pub use installing::{install, install_filled};
pub use laws::{in_use_stays, roots_in_use};
pub use leaving::{finish, rollback};
pub use opening::open_root;
pub use recovering::{recover_storage, replace_contents, reset_storage, size_of};
pub use roots::{Installed, Outcome, Root};
pub use shapes::shape_of;
pub use updating::{Begin, Staged, begin_update};
pub use updating_whole::update;
pub use viewing::{RootState, RootView, Versions, view_root, view_versions};
pub use wiping::wipe;
pub use writing::read_version;
