//! An odometer: an example of a program that embeds a key-value storage.
//!
//! `odometer FOLDER` opens the total that a folder keeps in three copies, and adds the kilometres of standard input,
//! one number a line. It prints the total at the start, and after each line once it is durable. A refusal is one line
//! on standard error, and each has a status of its own ([`refusals`]).
#![tactic(auto)]

mod odometers;
mod refusals;

use disk_model::Disk;
use odometers::Odometer;
use per_embed::{open_folder, seconds};
use per_system::fill_streams;
use refusals::Refusal;
use std::process::ExitCode;
use std::{env, io};

fn main(rt: HostRuntime) -> ExitCode {
    match run(&rt) {
        Ok(()) => ExitCode::SUCCESS,
        Err(refusal) => {
            let _ = eprintln!(rt; "odometer: {refusal}");
            ExitCode::from(refusal.status())
        }
    }
}

/// Opens the odometer of the folder, and drives by each line.
fn run(rt: &HostRuntime) -> Result<(), Refusal> {
    let _streams = fill_streams(rt).map_err(Refusal::Output)?;
    let alloc = rt.alloc();
    let disk = open_folder(rt, alloc, folder(rt)?.as_str())?;
    let mut odometer = Odometer::open(alloc, disk, seconds(rt))?;
    let driven = drive_by_lines(rt, &mut odometer);
    drop(odometer);
    driven
}

/// Shows the total, and drives by each line of the input.
fn drive_by_lines<D: Disk + Drop>(
    rt: &HostRuntime,
    odometer: &mut Odometer<D>,
) -> Result<(), Refusal> {
    show(rt, odometer.total())?;
    for line in rt.lines(rt.alloc()) {
        drive_by_line(rt, odometer, line)?;
    }
    Ok(())
}

fn drive_by_line<D: Disk + Drop>(
    rt: &HostRuntime,
    odometer: &mut Odometer<D>,
    line: io::Result<String>,
) -> Result<(), Refusal> {
    let kilometres = kilometres_in(line)?;
    odometer.drive(kilometres)?;
    show(rt, odometer.total())
}

/// The kilometres that a line says.
fn kilometres_in(line: io::Result<String>) -> Result<u32, Refusal> {
    let line = line.map_err(Refusal::Input)?;
    line.as_str().parse().map_err(|_| Refusal::NoNumber)
}

fn show(rt: &HostRuntime, total: u32) -> Result<(), Refusal> {
    println!(rt; "{total}").map_err(Refusal::Output)
}

/// The one argument after the program's name.
fn folder(rt: &HostRuntime) -> Result<String, Refusal> {
    let mut words = env::args(rt).map_err(Refusal::Input)?.skip(1);
    match (words.next(), words.next()) {
        (Some(folder), None) => Ok(folder),
        _ => Err(Refusal::Words),
    }
}
