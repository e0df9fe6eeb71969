//! One call from a shell: `per get 0:cockpit volume --dir DIR`. The run that makes it handles its lines.

use crate::program;
use per_run::{JobKind, WordsError, read_words};
use per_terminal::Screen;
use per_words::{CallText, options_in};
use shell_calls::{
    Answers, LineByLine, Refusal, Unmade, accepted_in, is_installation, lines_of_call, say_unmade,
};
use std::alloc::{AllocError, Global};
use std::fs::File;
use std::io::Input;
use std::rt::Files;

/// Makes the call that is named among the arguments, and gives the status.
pub(crate) fn run<R: Files<File = File> + AllocGlobal + Input + Print + Screen>(
    rt: &R,
    words: &[String],
    named: &[&[u8]],
) -> u8 {
    match made(rt, words, named) {
        Ok(status) => status,
        Err(unmade) => say_unmade(rt, words, named, unmade),
    }
}

fn made<R: Files<File = File> + AllocGlobal + Input + Print + Screen>(
    rt: &R,
    words: &[String],
    named: &[&[u8]],
) -> Result<u8, Unmade> {
    let alloc = rt.alloc();
    let mut options = options_in(alloc, words)?;
    let are_valid = are_valid(alloc, options.as_slice())?;
    let [call, target, arguments @ ..] = named else {
        return Err(Unmade::Refused);
    };
    let accepted = accepted_in(alloc, call, target, arguments)?;
    // Where the options are refused the run says so, and nothing is read before.
    let text = if are_valid {
        lines_of_call(rt, alloc, accepted)?
    } else {
        CallText::whole(alloc, Vec::new(alloc))
    };
    // An installation makes an empty folder ready first.
    if is_installation(call) {
        push_serve(alloc, &mut options)?;
    }
    Ok(status_of_lines(rt, alloc, options.as_slice(), text)?)
}

/// Gives the lines to a run with these options, shows its replies, and gives the status.
fn status_of_lines<R: Files<File = File> + AllocGlobal + Print + Screen>(
    rt: &R,
    alloc: Global,
    options: &[String],
    text: CallText,
) -> Result<u8, AllocError> {
    let refusal = Refusal::none();
    let input = LineByLine::new(alloc, text, &refusal)?;
    let output = Answers::new(rt, alloc, &refusal);
    let status = program::run(rt, options, input, output);
    Ok(refusal.status_after(status))
}

fn push_serve(alloc: Global, options: &mut Vec<String>) -> Result<(), AllocError> {
    options.push(String::from_str(alloc, "--serve")?)?;
    Ok(())
}

/// Whether the options of the run that makes the call are valid, none of which may ask for another job.
fn are_valid(alloc: Global, options: &[String]) -> Result<bool, Unmade> {
    match read_words(alloc, options) {
        Ok(job) if matches!(job.kind, JobKind::Run) => Ok(true),
        Ok(_) => Err(Unmade::Beside),
        Err(WordsError::Refused) => Ok(false),
        Err(WordsError::OutOfMemory) => Err(Unmade::OutOfMemory),
    }
}
