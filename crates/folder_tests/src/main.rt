//! Sessions with the program over a folder in memory: it is killed, its calls fail, its power is lost, and its files
//! become unreadable. Rows in, and the same rows out with what the program wrote.
//!
//! | row | what it does, and what is printed after it |
//! |---|---|
//! | `folder` | begins with an empty folder |
//! | `> LINE` | a line of the next run; in it `` `07`3` `` is `070707` |
//! | `run WORDS` | runs the program with these words: `< REPLY` for each line of its output, and `= STATUS` |
//! | `spoil COPY`, `spoil COPY half` | every file of this copy, of each root and storage, becomes unreadable until it is written, or its second half does |
//! | `? LINE` | a line that looks at what is left, for one of the rows below |
//! | `kills WORDS` | the lines so far, killed at each call of the system, then a look in a new run, and a power loss after each change that this one made: `Sweep` says what is expected |
//! | `failures WORDS`, `syncs WORDS` | the lines so far with each call of the system failing alone, or each sync |
//! | `damages WORDS` | a look with each file unreadable alone, whole, in half and in one byte |
//! | any other | nothing |
#![tactic(auto)]

mod runs;
mod sessions;
mod sweeps;

use migrate_fns::Migrations;
use number_converters::{WithConverters, with_converters};
use sessions::Session;
use std::alloc::Global;
use std::io::{BufRead, BufReader};

/// The rows of standard input.
#[derive(Drop)]
struct Printing<'a, R: Input + Print> {
    rt: &'a R,
    alloc: Global,
}

impl<'a, R: Input + Print> WithConverters for Printing<'a, R> {
    type Answer = anyhow::Result<()>;

    /// Prints each row, and what comes after it.
    fn with_converters(self, migrations: &Migrations) -> anyhow::Result<()> {
        let Printing { rt, alloc } = self;
        let mut session = Session::new(alloc);
        for row in BufReader::new(alloc, rt.reader())?.lines(alloc) {
            let row = row?;
            let told = session.take(migrations, row.as_str())?;
            println!(rt; "{row}")?;
            rt.print(told)?;
        }
        Ok(())
    }
}

fn main(rt: HostRuntime) -> anyhow::Result<()> {
    let alloc = rt.alloc();
    with_converters(alloc, Printing { rt: &rt, alloc })?
}
