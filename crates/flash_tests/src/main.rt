//! Cases of raw flash, of its records, and of the disk over it, as lines of standard input.
//!
//! Each line is a case: its name, a colon, and steps with `;` between them, each a word and numbers. It is run over a
//! flash in memory, and answered by a line: the name and what each step answered. A line without a colon is answered as
//! it is. `stdin` has the cases, and `stdout` what is wanted, worked out by hand.
#![tactic(auto)]

mod bench;
mod case;
mod planted;
mod records;
mod script;
mod silent;
mod step;
mod sweeps;
mod texts;

use case::answer;
use std::io;

fn main(rt: HostRuntime) -> io::Result<()> {
    for line in rt.lines(rt.alloc()) {
        let text = answer(rt.alloc(), line?.as_str())?;
        println!(rt; "{text}")?;
    }
    Ok(())
}
