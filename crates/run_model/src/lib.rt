//! The world of eight applications, what a command makes of it, and what a run promises.
//!
//! The world is a function of what the disk's image denotes and of what the runtime keeps in memory
//! (`specs/Worlds`). Of the other files of `specs/`, `Lines` says how the input is cut into lines, and which commands
//! these give; `Found` which refusals calls share; `Sessions` what calls on an open storage answer and leave that touch
//! no disk; `Calls` what every call answers and makes of its application where no device fails; `Steps` what one
//! command answers and where it leads, also where the device fails; `Moments` what a stop at any moment leaves;
//! `Endings` how a run ends, by which status, and what it has then written; `Runtimes` what the runtime promises of its
//! start and of each command; `Runs` what a whole run promises. The laws lead from the one to the other: they are
//! contracts of functions with nothing to do, which a caller calls to cite them, or are cited as lemmas of `specs/`.
//!
//! A *doubt* is what a command leaves whose device failed: nobody knows how much of it was done, until a sync succeeds.
//! A *turn* is a command with its reply and the world after it. That a command *keeps* an application says what a stop
//! at any of its moments leaves, with damage: the application as before or as after it, or as one side of a doubt. A
//! *life* is the formatting of a disk and then any number of runs, audits, exports and imports, each ended in some way;
//! it keeps *pairs*, of what an application was and what it was to become.
#![tactic(auto)]

mod laws;

pub use laws::{
    a_command_follows, a_command_keeps, a_run_begins, a_run_ends, a_run_goes_on, a_run_stops,
    a_start_keeps, answers_are_alike, answers_keep_worlds, applications_stand, causes_add_up,
    failures_end_sessions, failures_keep_worlds, moments_are_bounded, storages_lead_on,
};
