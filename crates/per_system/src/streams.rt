//! The standard streams of a process, where some were closed.

use std::fs::{File, OpenOptions};
use std::io;
use std::os::fd::AsRawFd;
use std::rt::Files;

/// Stand-ins for the standard streams that were closed.
#[derive(Drop)]
pub struct Streams {
    _input: Option<File>,
    _output: Option<File>,
    _errors: Option<File>,
}

/// Opens a stand-in for each standard stream that was closed, so that no file that is opened later gets its descriptor,
/// and is read or written in its place. To be called before anything is opened, and kept. Reading or writing a
/// stand-in fails, as it did where the stream was closed: it is open for the other.
pub fn fill_streams<R: Files<File = File>>(rt: &R) -> io::Result<Streams> {
    let mut writing = OpenOptions::new();
    writing.write(true);
    let mut reading = OpenOptions::new();
    reading.read(true);
    Ok(Streams {
        _input: stand_in(rt, &writing, 0)?,
        _output: stand_in(rt, &reading, 2)?,
        _errors: stand_in(rt, &reading, 2)?,
    })
}

/// What is opened next, where it gets a descriptor up to this one. A folder stands in where there is no `/dev/null`.
fn stand_in<R: Files<File = File>>(
    rt: &R,
    options: &OpenOptions,
    last: i32,
) -> io::Result<Option<File>> {
    let file = match options.open(rt, "/dev/null") {
        Ok(file) => file,
        Err(_) => File::open(rt, "/")?,
    };
    if file.as_raw_fd() <= last {
        Ok(Some(file))
    } else {
        Ok(None)
    }
}
