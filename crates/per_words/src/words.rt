//! The words of a shell, told apart: options with their values, and what is named.

ghost use Rattle.std.specs.Prelude.{◌≡◌, IfOk, codes, map, string_bytes};
ghost use Rattle.std.specs.Str.{bytes_eq};
ghost use Rattle.value_text.specs.Readers.{Finds};
ghost use Rattle.per_words.specs.Apart.{asks_for, has_value, is_asked, is_call_word, is_flag, is_known, is_of_options};
ghost use Rattle.per_words.specs.Apart.{is_option, is_unknown, named_words, options_in, reading_after, takes_value};
ghost use Rattle.per_words.specs.Apart.{unknown_in};

use crate::kinds::is_word;
use std::alloc::{AllocError, Global};

/// How a word is read.
#[derive(Clone, Copy)]
pub enum WordRole {
    /// As an option, or as what is named.
    Word,
    /// As the value of an option.
    Value,
    /// As an operand, whatever it begins with: after the word `--`.
    Operand,
}

/// The words that are options, and the values of those that take one, in their order.
pub fn options_in(alloc: Global, words: &[String]) -> Result<Vec<String>, AllocError>
    ensures { IfOk result (λ options. map string_bytes options.items
        ≡ options_in WordRole.Word (map string_bytes words.now)) }
{
    let mut options = Vec::new(alloc);
    let mut reading = WordRole::Word;
    for word in words {
        let is_taken = is_of_options(reading, word.as_bytes());
        reading = reading_after(reading, word.as_bytes());
        if is_taken {
            options.push(word.clone()?)?;
        }
    }
    Ok(options)
}

/// A call and its arguments: all words but options, their values and the `--` that ends the options, in their order.
pub fn named_words<'a>(alloc: Global, words: &'a [String]) -> Result<Vec<&'a [u8]>, AllocError>
    ensures { IfOk result (λ named. map (λ word. word.now) named.items
        ≡ named_words WordRole.Word (map string_bytes words.now)) }
{
    let mut named = Vec::new(alloc);
    let mut reading = WordRole::Word;
    for word in words {
        let is_taken = is_call_word(reading, word.as_bytes());
        reading = reading_after(reading, word.as_bytes());
        if is_taken {
            named.push(word.as_bytes())?;
        }
    }
    Ok(named)
}

/// Whether this option is among the words before the operands, or stands in the place of a value: then what it asks for
/// is done, whatever the other words are.
pub fn asks_for(words: &[String], option: &[u8]) -> bool
    ensures { result ≡ asks_for option.now WordRole.Word (map string_bytes words.now) }
{
    let mut reading = WordRole::Word;
    for word in words {
        if is_asked(option, reading, word.as_bytes()) {
            return true;
        }
        reading = reading_after(reading, word.as_bytes());
    }
    false
}

/// The first word that a run does not know: it is neither an option of one nor the value of an option, or an operand.
pub fn unknown_in(words: &[String]) -> Option<&[u8]>
    ensures { Finds (λ word. word.now) result (unknown_in WordRole.Word (map string_bytes words.now)) }
{
    let mut reading = WordRole::Word;
    for word in words {
        let word = word.as_bytes();
        if is_unknown(reading, word) {
            return Some(word);
        }
        reading = reading_after(reading, word);
    }
    None
}

/// How the word after this one is read.
fn reading_after(reading: WordRole, word: &[u8]) -> WordRole
    ensures { result ≡ reading_after reading word.now }
{
    match reading {
        WordRole::Word => {
            if ends_options(word) {
                WordRole::Operand
            } else if takes_value(word) {
                WordRole::Value
            } else {
                WordRole::Word
            }
        }
        WordRole::Value => WordRole::Word,
        WordRole::Operand => WordRole::Operand,
    }
}

/// Whether the word is an option, or the value of one.
fn is_of_options(reading: WordRole, word: &[u8]) -> bool
    ensures { result ≡ is_of_options reading word.now }
{
    match reading {
        WordRole::Word => is_option(word) && !ends_options(word),
        WordRole::Value => true,
        WordRole::Operand => false,
    }
}

/// Whether the word is one of the call: an operand, or no option.
fn is_call_word(reading: WordRole, word: &[u8]) -> bool
    ensures { result ≡ is_call_word reading word.now }
{
    match reading {
        WordRole::Word => !is_option(word),
        WordRole::Value => false,
        WordRole::Operand => true,
    }
}

/// Whether the word is this option, which an operand is not.
fn is_asked(option: &[u8], reading: WordRole, word: &[u8]) -> bool
    ensures { result ≡ is_asked option.now reading word.now }
{
    match reading {
        WordRole::Word | WordRole::Value => is_word(word, option),
        WordRole::Operand => false,
    }
}

/// Whether a run does not know the word: it is no option of one and no value, or an operand.
fn is_unknown(reading: WordRole, word: &[u8]) -> bool
    ensures { result ≡ is_unknown reading word.now }
{
    match reading {
        WordRole::Word => !is_known(word) && !ends_options(word),
        WordRole::Value => false,
        WordRole::Operand => true,
    }
}

/// Whether each word after this one is an operand.
fn ends_options(word: &[u8]) -> bool
    ensures { result ≡ bytes_eq word.now (codes "--") }
{
    is_word(word, b"--")
}

/// Whether the word is an option: it begins with two dashes.
fn is_option(word: &[u8]) -> bool
    ensures { result ≡ is_option word.now }
{
    word.starts_with(b"--")
}

/// Whether the next word belongs to this one.
fn takes_value(word: &[u8]) -> bool
    ensures { result ≡ takes_value word.now }
{
    is_word(word, b"--dir")
        || is_word(word, b"--flash")
        || is_word(word, b"--generate")
        || is_word(word, b"--export")
        || is_word(word, b"--import")
        || is_word(word, b"--list")
        || is_word(word, b"--recover-root")
}

/// Whether the word is an option of a run, with its value after an equals sign or not.
fn is_known(word: &[u8]) -> bool
    ensures { result ≡ is_known word.now }
{
    takes_value(word) || is_flag(word) || has_value(word)
}

/// Whether the word is an option of a run without a value.
fn is_flag(word: &[u8]) -> bool
    ensures { result ≡ is_flag word.now }
{
    is_word(word, b"--format") || is_word(word, b"--audit") || is_word(word, b"--serve")
}

/// Whether the word is an option of a run with its value after an equals sign.
fn has_value(word: &[u8]) -> bool
    ensures { result ≡ has_value word.now }
{
    word.starts_with(b"--dir=")
        || word.starts_with(b"--flash=")
        || word.starts_with(b"--generate=")
        || word.starts_with(b"--export=")
        || word.starts_with(b"--import=")
        || word.starts_with(b"--list=")
        || word.starts_with(b"--recover-root=")
}
