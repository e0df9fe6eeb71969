//! The command-line arguments.

ghost use Rattle.std.specs.Prelude.{◌≡◌, ◌≢◌, Some, None, IfOk, false, map, option_map, string_bytes, IsErrOf};
ghost use Rattle.clap.specs.Words.{app_of, found_of, kind_of, rows_of, rule_of};
ghost use Rattle.clap.specs.declared.error.kind.ErrorKind.{ErrorKind};
ghost use Rattle.clap.specs.declared.builder.action.ArgAction.TheVariants.{Set, SetTrue};
ghost use Rattle.per_run.specs.Words.{ReadsWord, application_of, command, dir_of, export_job, flash_of, generate_of};
ghost use Rattle.per_run.specs.Words.{import_of, is_set, job_in, job_kind_in, job_of, list_of, modes, name_of};
ghost use Rattle.per_run.specs.Words.{named_rule, number_in, only_mode, recover_of, target_of};

use clap::error::ErrorKind;
use clap::{Arg, ArgAction, ArgMatches, Command, Error};
use per_base::{Name, PerError, ValueText};
use per_list::Form;
use std::alloc::{AllocError, Global};
use thiserror::Error as ThisError;

/// What the arguments ask for.
#[derive(Debug, Drop)]
pub struct Job {
    /// The name of the folder of the disk; it is not empty.
    pub dir: ValueText,
    pub kind: JobKind,
    /// How many blocks the flash has, 4 to 4096, where the disk is one over a flash.
    pub flash: Option<u32>,
}

/// The kinds of job.
#[derive(Debug, Drop)]
pub enum JobKind {
    /// The lines of the input are handled.
    Run,
    /// The same without a bound on the input, where a line outside the grammar is answered and ends nothing, and an
    /// empty disk is formatted first.
    Serve,
    /// The disk is formatted for all applications.
    Format,
    /// The disk is formatted, and a synthetic workload, generated from this number, 1 to 100,000, is handled.
    Generate(u32),
    /// What all storages hold is listed, and what is damaged or lost, and nothing is mended.
    Audit,
    /// What is on the disk is said in this form, and nothing is mended.
    Listing(Form),
    /// The storage of this name of an application, 0 to 7, is written as one text, and nothing is mended.
    Export(u8, Name),
    /// The storage of this name of an application, 0 to 7, is rebuilt from the text that the input is.
    Import(u8, Name),
    /// The root of an application, 0 to 7, is recovered, where it does not read and some copy holds one.
    RecoverRoot(u8),
}

/// Why the arguments ask for no job.
#[derive(Clone, Copy, Debug, PartialEq, Eq, ThisError)]
pub enum WordsError {
    #[error("the words are `--dir` with a folder, at most one mode, and `--flash` with a number from 4 to 4096 or not")]
    Refused,
    #[error("memory ran out")]
    OutOfMemory,
}

impl From<AllocError> for WordsError {
    ghost use Rattle.std.specs.Prelude.{◌≡◌};
    ghost use Rattle.per_run.specs.declared.words.WordsError.TheVariants.{OutOfMemory};

    ghost from_gives = { λ _ e. e ≡ OutOfMemory };

    fn from(_error: AllocError) -> WordsError {
        WordsError::OutOfMemory
    }
}

/// The job that the arguments after the program's name ask for.
///
/// # Errors
///
/// `Refused` only where they ask for none; `OutOfMemory` where memory ran out, whatever they ask for.
pub fn read_words(alloc: Global, words: &[String]) -> Result<Job, WordsError>
    // The job is the one that the arguments ask for (`job_of`), and they are refused only where they ask for none.
    ensures job { IfOk result (λ job. job_of (map string_bytes words.now) ≡ Some job) }
    ensures refused { IsErrOf result WordsError.Refused → job_of (map string_bytes words.now) ≡ None }
{
    match command(alloc) {
        Ok(command) => match command.try_get_matches_from(words) {
            Ok(matches) => job_in(alloc, &matches),
            Err(error) => Err(error_of(&error)),
        },
        Err(_) => Err(WordsError::OutOfMemory),
    }
}

/// The command that the arguments are given to, without the program's name.
fn command<'a>(alloc: Global) -> Result<Command<'a>, AllocError>
    ensures { IfOk result (λ c. app_of c ≡ command) }
{
    let options = vec![in alloc;
        option(alloc, "dir").required(true),
        option(alloc, "flash"),
        flag(alloc, "format"),
        option(alloc, "generate"),
        flag(alloc, "audit"),
        option(alloc, "export"),
        option(alloc, "import"),
        flag(alloc, "serve"),
        option(alloc, "list"),
        option(alloc, "recover-root"),
    ]?;
    Command::new(alloc, "per")
        .no_binary_name(true)
        .args(options)
}

/// An option of this name, with one value.
fn option<'a>(alloc: Global, name: &'a str) -> Arg<'a>
    ensures rule { rule_of result ≡ named_rule name.now Set }
    ensures global { result.global ≡ false }
{
    Arg::new(alloc, name).long(name).action(ArgAction::Set)
}

/// A flag of this name.
fn flag<'a>(alloc: Global, name: &'a str) -> Arg<'a>
    ensures rule { rule_of result ≡ named_rule name.now SetTrue }
    ensures global { result.global ≡ false }
{
    Arg::new(alloc, name).long(name).action(ArgAction::SetTrue)
}

/// Why the arguments have no matches.
fn error_of(error: &Error) -> WordsError
    ensures { result ≡ WordsError.Refused → kind_of error.now ≢ ErrorKind.OutOfMemory }
{
    match error.kind() {
        ErrorKind::OutOfMemory => WordsError::OutOfMemory,
        _ => WordsError::Refused,
    }
}

/// The job that the matches say.
fn job_in(alloc: Global, matches: &ArgMatches<'_>) -> Result<Job, WordsError>
    ensures { ReadsWord result (job_in (rows_of (found_of matches.now))) }
{
    Ok(Job {
        kind: kind_in(alloc, matches)?,
        flash: flash_of(matches.get_str("flash"))?,
        dir: dir_of(alloc, matches.get_str("dir"))?,
    })
}

/// The kind of job that the matches say.
fn kind_in(alloc: Global, matches: &ArgMatches<'_>) -> Result<JobKind, WordsError>
    ensures { ReadsWord result (job_kind_in (rows_of (found_of matches.now))) }
{
    only_mode(
        alloc,
        is_set(matches.get_str("format")),
        matches.get_str("generate"),
        is_set(matches.get_str("audit")),
        matches.get_str("export"),
        matches.get_str("import"),
        is_set(matches.get_str("serve")),
        matches.get_str("list"),
        matches.get_str("recover-root"),
    )
}

/// At most one mode is named, and where none is the lines of the input are handled.
fn only_mode(
    alloc: Global,
    formats: bool,
    generates: Option<&str>,
    audits: bool,
    exports: Option<&str>,
    imports: Option<&str>,
    serves: bool,
    lists: Option<&str>,
    recovers: Option<&str>,
) -> Result<JobKind, WordsError>
    ensures { ReadsWord result (only_mode (modes (record {
      formats = formats;
      generates = option_map (λ text. text.now) generates.entry;
      audits = audits;
      exports = option_map (λ text. text.now) exports.entry;
      imports = option_map (λ text. text.now) imports.entry;
      serves = serves;
      lists = option_map (λ text. text.now) lists.entry;
      recovers = option_map (λ text. text.now) recovers.entry;
    }))) }
{
    match (
        formats, generates, audits, exports, imports, serves, lists, recovers,
    ) {
        (false, None, false, None, None, false, None, None) => Ok(JobKind::Run),
        (true, None, false, None, None, false, None, None) => Ok(JobKind::Format),
        (false, Some(number), false, None, None, false, None, None) => generate_of(number),
        (false, None, true, None, None, false, None, None) => Ok(JobKind::Audit),
        (false, None, false, Some(target), None, false, None, None) => export_of(alloc, target),
        (false, None, false, None, Some(target), false, None, None) => import_of(alloc, target),
        (false, None, false, None, None, true, None, None) => Ok(JobKind::Serve),
        (false, None, false, None, None, false, Some(form), None) => list_of(form),
        (false, None, false, None, None, false, None, Some(application)) => recover_of(application),
        _ => Err(WordsError::Refused),
    }
}

/// Whether this is the value of a flag that is set.
fn is_set(value: Option<&str>) -> bool
    ensures { result ≡ is_set (option_map (λ text. text.now) value.entry) }
{
    match value {
        Some(text) => text == "true",
        None => false,
    }
}

/// The number is a whole one from 1 to 100,000.
fn generate_of(text: &str) -> Result<JobKind, WordsError>
    ensures { ReadsWord result (generate_of text.now) }
{
    Ok(JobKind::Generate(number_in(1, 100_000, text)?))
}

/// The storage is named after its application.
fn export_of(alloc: Global, text: &str) -> Result<JobKind, WordsError>
    ensures { ReadsWord result (export_job text.now) }
{
    let (application, name) = target_of(alloc, text)?;
    Ok(JobKind::Export(application, name))
}

/// The storage is named after its application.
fn import_of(alloc: Global, text: &str) -> Result<JobKind, WordsError>
    ensures { ReadsWord result (import_of text.now) }
{
    let (application, name) = target_of(alloc, text)?;
    Ok(JobKind::Import(application, name))
}

/// The form is named.
fn list_of(text: &str) -> Result<JobKind, WordsError>
    ensures { ReadsWord result (list_of text.now) }
{
    if text == "lines" {
        Ok(JobKind::Listing(Form::Lines))
    } else if text == "json" {
        Ok(JobKind::Listing(Form::Json))
    } else {
        Err(WordsError::Refused)
    }
}

/// The application is named by its digit.
fn recover_of(text: &str) -> Result<JobKind, WordsError>
    ensures { ReadsWord result (recover_of text.now) }
{
    Ok(JobKind::RecoverRoot(application_of(text)?))
}

/// How many blocks the flash has, where one is named: 4 to 4096.
fn flash_of(value: Option<&str>) -> Result<Option<u32>, WordsError>
    ensures { ReadsWord result (flash_of (option_map (λ text. text.now) value.entry)) }
{
    match value {
        Some(text) => Ok(Some(number_in(4, 4096, text)?)),
        None => Ok(None),
    }
}

/// The name of a folder; it is not empty.
fn dir_of(alloc: Global, value: Option<&str>) -> Result<ValueText, WordsError>
    ensures { ReadsWord result (dir_of (option_map (λ text. text.now) value.entry)) }
{
    match value {
        Some("") | None => Err(WordsError::Refused),
        Some(dir) => Ok(ValueText::new(String::from_str(alloc, dir)?)),
    }
}

/// A whole number in this range.
fn number_in(least: u32, most: u32, text: &str) -> Result<u32, WordsError>
    ensures { ReadsWord result (number_in least most text.now) }
{
    match text.parse::<u32>() {
        Ok(number) if least <= number && number <= most => Ok(number),
        _ => Err(WordsError::Refused),
    }
}

/// An application and the name of a storage, as `3:fav`.
fn target_of(alloc: Global, text: &str) -> Result<(u8, Name), WordsError>
    ensures { ReadsWord result (target_of text.now) }
{
    match text.split_once(':') {
        Some((application, name)) => Ok((application_of(application)?, name_of(alloc, name)?)),
        None => Err(WordsError::Refused),
    }
}

/// The digit of an application.
fn application_of(text: &str) -> Result<u8, WordsError>
    ensures { ReadsWord result (application_of text.now) }
{
    match text.as_bytes() {
        [digit @ b'0'..=b'7'] => Ok(*digit - b'0'),
        _ => Err(WordsError::Refused),
    }
}

/// A name in the grammar of names.
fn name_of(alloc: Global, text: &str) -> Result<Name, WordsError>
    ensures { ReadsWord result (name_of text.now) }
{
    match Name::new(alloc, text) {
        Ok(name) => Ok(name),
        Err(PerError::BadName) => Err(WordsError::Refused),
        Err(_) => Err(WordsError::OutOfMemory),
    }
}
