//! Lines, one after another.

ghost use Rattle.std.specs.Prelude.{◌≡◌, ◌↔◌, ◌++◌, ◌∷◌, [], IfOk, OnOk, IsErrOf, map, true};
ghost use Rattle.std.specs.List.{flat_map};
ghost use Rattle.command_text.specs.declared.errors.LineError.{LineError};
ghost use Rattle.command_text.specs.Grammar.{IsEventLine};
ghost use Rattle.per_words.specs.Words.{Adds, IsOneLine, is_event, line_with};

use command_text::{Line, LineError, one_line, parse_line};
use std::alloc::{AllocError, Global};

/// Adds the line of an application with these words and arguments.
pub(crate) fn push_call(
    alloc: Global,
    text: &mut Vec<u8>,
    digit: u8,
    words: &[&[u8]],
    arguments: &[&[u8]],
) -> Result<(), LineError>
    ensures { Adds result text.old.items text.new.items
        (line_with digit (map (λ word. word.now) words.now ++ map (λ word. word.now) arguments.now) ∷ []) }
{
    let line = line_with(alloc, digit, words, arguments)?;
    push_line(alloc, text, line.as_slice())
}

/// The line of an application with these words and arguments.
fn line_with(
    alloc: Global,
    digit: u8,
    words: &[&[u8]],
    arguments: &[&[u8]],
) -> Result<Vec<u8>, AllocError>
    ensures { IfOk result (λ line. line.items
        ≡ line_with digit (map (λ word. word.now) words.now ++ map (λ word. word.now) arguments.now)) }
{
    let mut line = Vec::new(alloc);
    line.push(digit)?;
    push_words(&mut line, words)?;
    push_words(&mut line, arguments)?;
    Ok(line)
}

/// Appends each word after a space.
pub(crate) fn push_words(line: &mut Vec<u8>, words: &[&[u8]]) -> Result<(), AllocError>
    ensures { OnOk result (line.new.items
        ≡ line.old.items ++ flat_map (λ word. 32 ∷ word) (map (λ word. word.now) words.now)) }
{
    for word in words {
        line.push(b' ')?;
        line.extend_from_slice(*word)?;
    }
    Ok(())
}

/// Adds a line, which is to be one of an event.
pub(crate) fn push_line(alloc: Global, text: &mut Vec<u8>, line: &[u8]) -> Result<(), LineError>
    ensures { Adds result text.old.items text.new.items (line.now ∷ []) }
{
    accept(alloc, line)?;
    push_fed(text, line)?;
    Ok(())
}

/// Appends a line with its line feed.
fn push_fed(text: &mut Vec<u8>, line: &[u8]) -> Result<(), AllocError>
    ensures { OnOk result (text.new.items ≡ text.old.items ++ line.now ++ 10 ∷ []) }
{
    text.extend_from_slice(line)?;
    text.push(b'\n')?;
    Ok(())
}

/// Refuses a text that is no line of an event, or more than one line.
fn accept(alloc: Global, line: &[u8]) -> Result<(), LineError>
    ensures event { OnOk result (IsOneLine line.now) }
    ensures refused { IsErrOf result LineError.NotALine → ¬ (IsOneLine line.now) }
{
    if line.contains(&b'\n') {
        return Err(LineError::NotALine);
    }
    match says_event(alloc, line) {
        Ok(true) => Ok(()),
        Ok(false) => Err(LineError::NotALine),
        Err(error) => Err(error),
    }
}

/// Whether the text is the line of an event.
fn says_event(alloc: Global, line: &[u8]) -> Result<bool, LineError>
    ensures event { IfOk result (λ yes. (yes ≡ true) ↔ IsEventLine line.now) }
    ensures refused { IsErrOf result LineError.NotALine → ¬ (IsEventLine line.now) }
{
    one_line();
    match parse_line(alloc, line) {
        Ok(said) => {
            let yes = is_event(&said);
            drop(said);
            Ok(yes)
        }
        Err(error) => Err(error),
    }
}

fn is_event(line: &Line) -> bool
    ensures { result ≡ is_event line.now }
{
    match line {
        Line::Event(_) => true,
        Line::Nothing | Line::End => false,
    }
}
