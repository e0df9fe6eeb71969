//! Rows of a run beside what the program wrote.

use crate::rows::{Line, line_of};
use std::alloc::{AllocError, Global};
use test_rows::RowError;

/// No reply has that many report lines.
const REPORTS: u32 = 10_000;

/// Replies that are shown once they differ from the one before.
#[derive(Drop)]
struct Tally<'a> {
    shown: String,
    reply: &'a str,
    times: u32,
}

impl<'a> Tally<'a> {
    /// Counts a line of a reply.
    fn count(&mut self, reply: &'a str) -> Result<(), AllocError> {
        if self.reply != reply {
            self.end()?;
            self.reply = reply;
        }
        self.times = self.times.saturating_add(1);
        Ok(())
    }

    /// Shows what was counted.
    fn end(&mut self) -> Result<(), AllocError> {
        let reply = self.reply;
        let times = self.times;
        match times {
            0 => {}
            1 => write!(self.shown, "< {reply}\n")?,
            _ => write!(self.shown, "<{times} {reply}\n")?,
        }
        self.times = 0;
        Ok(())
    }

    /// Counts the lines of a reply, which stands at the start of an output, and gives what stands after it.
    fn take(&mut self, output: &'a str) -> Result<&'a str, AllocError> {
        let mut rest = output;
        for _ in 0..REPORTS {
            let Some((reply, others)) = rest.split_once('\n') else {
                break;
            };
            self.count(reply)?;
            rest = others;
            if !reply.starts_with("report ") {
                break;
            }
        }
        Ok(rest)
    }

    /// Shows a line's replies, and gives what stands after them.
    fn answer(&mut self, line: Line<'_>, output: &'a str) -> Result<&'a str, AllocError> {
        let mut rest = output;
        if !line.is_silent() {
            for _ in 0..line.count {
                rest = self.take(rest)?;
            }
            self.end()?;
        }
        Ok(rest)
    }

    /// Shows all that is left of an output. A last line without its end is shown after `<-`.
    fn finish(&mut self, output: &'a str) -> Result<(), AllocError> {
        for line in output.split_inclusive('\n') {
            match line.strip_suffix('\n') {
                Some(whole) => self.count(whole)?,
                None => {
                    self.end()?;
                    write!(self.shown, "<- {line}\n")?;
                }
            }
        }
        self.end()
    }
}

/// The rows of a run, with its reply after each line; then the row that ran it, and what else was written.
pub(crate) fn transcript(
    alloc: Global,
    rows: &[String],
    last: &str,
    output: &str,
) -> Result<String, RowError> {
    let mut tally = Tally {
        shown: String::new(alloc),
        reply: "",
        times: 0,
    };
    let mut rest = output;
    for row in rows {
        write!(tally.shown, "{row}\n")?;
        if let Some(line) = line_of(row.as_str())? {
            rest = tally.answer(line, rest)?;
        }
    }
    write!(tally.shown, "{last}\n")?;
    tally.finish(rest)?;
    Ok(tally.shown)
}

/// The lines of an output but for reports, with ` | ` between them.
pub(crate) fn answers(alloc: Global, output: &str) -> Result<String, AllocError> {
    let mut answers = String::new(alloc);
    for line in output.lines() {
        if line.starts_with("report ") {
            continue;
        }
        if !answers.is_empty() {
            answers.push_str(" | ")?;
        }
        answers.push_str(line)?;
    }
    Ok(answers)
}
