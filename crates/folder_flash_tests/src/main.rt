//! A flash in a file of a folder in memory: it is killed, its calls fail, and its power is lost. Rows in, and the same
//! rows out with what came of them.
//!
//! | row | what it does, and what is printed after it |
//! |---|---|
//! | `flash N` | begins with an empty folder, a flash of N blocks and no steps |
//! | `program B P BYTE`, `erase B` | one more step: page P of block B gets this byte 512 times, or block B is erased |
//! | `take` | takes the steps in a run, after which there are none: `= ok` or `= failed` for each |
//! | `pages` | reads the pages: `< B P: BYTE` for each that is not blank, and `torn` where it has more than one byte |
//! | `kills` | the steps so far, killed at each call of the system, and then taken from there on in a new run, with power lost after each change that this one makes: `Sweep` says what is expected |
//! | `failures`, `syncs` | the steps so far with each call of the system failing alone, or each sync, and power lost after each change |
//! | any other | nothing |
#![tactic(auto)]

mod runs;
mod sessions;
mod steps;
mod sweeps;

use sessions::Session;
use std::io::{BufRead, BufReader};

fn main(rt: HostRuntime) -> anyhow::Result<()> {
    let alloc = rt.alloc();
    let mut session = Session::new(alloc);
    for row in BufReader::new(alloc, rt.reader())?.lines(alloc) {
        let row = row?;
        let told = session.take(row.as_str())?;
        println!(rt; "{row}")?;
        rt.print(told)?;
    }
    Ok(())
}
