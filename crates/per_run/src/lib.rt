//! The top call of `per`: arguments and lines in, replies out, eight applications on a disk.
//!
//! [`per_run`] reads the command-line arguments and does the job that they ask for. With `--dir` alone it starts the
//! runtime and handles the lines of a source one by one, each with its reply to a sink, until the input ends, a line is
//! outside the grammar, or something fails. With `--serve` the input has no bound, a line outside the grammar is
//! answered and ends nothing, and an empty disk is formatted first. `--format` formats the disk, and
//! `--generate N` does that and then handles a synthetic workload, generated from a number. `--audit` lists what is on
//! the disk and finds what is damaged or lost, and mends nothing. `--list lines` says which applications, versions and
//! storages are there and in which files, and `--list json` the same for a program. `--export A:S` writes a storage as
//! one text, and `--import A:S` rebuilds it from such a text. `--recover-root A` brings every copy of a root that does
//! not read to the newest that one copy holds. The contract says what every status means: which lines were handled,
//! what was written, what the disk then denotes, what a stop at any moment leaves, and that a failure of the disk, the
//! source or the sink ends the program only where its count of faults rose.
//!
//! A job gives a status: 0 where it is done, 1 of invalid arguments, 2 of a line outside the grammar, 3 where the disk
//! failed, 4 where memory ran out, 5 where the source failed, 6 where the sink did, 7 of too long an input, 8 of
//! an audit that found something, and 9 of a refusal. The table above [`per_run`] says when they come, and that above
//! [`per_flash`] which come where a flash is not opened, as 10 and 11. `specs/Jobs` says the same in clauses, job by
//! job, and `specs/Endings` of `run_model` of the job that handles lines; `specs/Serves` says those of `--serve`. The
//! help of `per_cli` lists every status of the program, those of main and of the script too.
//!
//! [`read_words`] gives the job that the arguments ask for. Limits: lines of 262,144 bytes, and without `--serve` an
//! input of fewer than 67,108,864 bytes, or with the line `end` among them. The text of a reply is handed to the sink
//! before the next line is looked at. What is not promised is that memory is there.
//!
//! In the contracts `told` is that the disk's bytes are modelled, `job` what a job promises, `caused` that a status of
//! a failure comes only with that failure, and `time` that the disk's moments go on and no count falls.
#![tactic(auto)]

mod answering;
mod auditing;
mod endings;
mod exporting;
mod flash;
mod formatting;
mod generating;
mod importing;
mod input;
mod job;
mod listing;
mod long_values;
mod octets;
mod preparing;
mod reader;
mod recovering;
mod refusing;
mod run;
mod serving;
mod tally;
mod words;
mod writing;

pub use flash::{FlashRun, per_flash};
pub use job::per_run;
pub use words::{Job, JobKind, WordsError, read_words};
