//! Values, manifests, updates, and lines with their replies: each row of standard input is a case, and what comes of it
//! is printed. One program has them all, since what each alone would load to be proved takes longer than its own code.
//!
//! A row begins with a word, and the modules say what is printed of it: [`values`], [`manifests`], [`updates`] and
//! [`commands`]. Of any other row the row itself is printed.
#![tactic(auto)]

mod commands;
mod manifests;
mod updates;
mod values;

use std::alloc::Global;
use std::io::{BufRead, BufReader};
use test_rows::RowError;

fn main(rt: HostRuntime) -> anyhow::Result<()> {
    let alloc = rt.alloc();
    for row in BufReader::new(alloc, rt.reader())?.lines(alloc) {
        let row = row?;
        println!(rt; "{}", shown(alloc, row.as_str())?)?;
    }
    Ok(())
}

/// What comes of a row.
fn shown(alloc: Global, row: &str) -> Result<String, RowError> {
    let (word, rest) = row.split_once(' ').unwrap_or((row, ""));
    match word {
        "value" | "bytes" | "type" | "node" | "parts" | "thing" | "long" => {
            values::shown(alloc, word, rest)
        }
        "rule" | "prefixes" | "read" | "copy" | "storage" | "element" => {
            manifests::shown(alloc, word, rest)
        }
        "plan" | "nothing" | "start" | "find" | "chain" => updates::shown(alloc, word, rest),
        "line" | "kind" | "reply" | "next" | "generated" | "first-lines" | "last-lines" => {
            commands::shown(alloc, word, rest)
        }
        _ => Ok(String::from_str(alloc, row)?),
    }
}
