//! Reads the command line.

ghost use Rattle.std.specs.Prelude.{◌≡◌, ◌⊎◌, ◌++◌};
ghost use Rattle.commands.specs.{IfErr, IfOk, MatchOption, codes, map, FailsBy, fault_of, found_of, kind_of, rows_of, subcommand_of, subcommand_rows_of, OutOfMemory, Asks, IsRefused, LacksSizes};
ghost use Rattle.commands.specs.{SizesOf, curspan, is_quiet_by, kind_text, script_by, sizes_of, text_of, AsksBy, IsRefusedBy, RequestBy};
ghost use Rattle.commands.specs.declared.requests.Kind.{Kind};
ghost use Rattle.commands.specs.declared.sizes.NoSize.TheVariants.{Bad, Missing};
ghost use Rattle.commands.specs.steps.Sizing.{error_kind};

use crate::requests::{Invocation, Job, Kind, Request, Variables};
use crate::sizes::{NoSize, size_of};
use crate::subcommands::{command, subcommand};
use cell::LARGEST_SCREEN;
use clap::error::ErrorKind;
use clap::{ArgMatches, Error};
use std::alloc::{AllocError, Global};
use std::convert::AsStr;

/// The subcommand of a name.
fn kind_of(name: &str) -> Option<Kind>
    ensures { MatchOption result ((kind : Kind) → name.now ≡ kind_text kind → ⊥) (λ kind. name.now ≡ kind_text kind) }
{
    match name {
        "run" => Some(Kind::Run),
        "paint" => Some(Kind::Paint),
        "show" => Some(Kind::Show),
        _ => None,
    }
}

/// The program and the subcommand of a kind, as they are called.
fn name_in_usage(kind: Kind) -> &'static str
    ensures { result.now ≡ codes "curspan " ++ kind_text kind }
{
    match kind {
        Kind::Run => "curspan run",
        Kind::Paint => "curspan paint",
        Kind::Show => "curspan show",
    }
}

/// A usage fault of a subcommand.
fn usage_fault(
    alloc: Global,
    kind: Kind,
    error: ErrorKind,
    message: &str,
) -> Result<Error, AllocError>
    ensures { IfOk result (λ e. kind_of e ≡ error) }
{
    let mut command = subcommand(alloc, kind)?.bin_name(name_in_usage(kind))?;
    let error = command.error(error, message);
    // by a call, since a drop of each of its fields here takes long to prove
    drop(command);
    error
}

/// The usage fault of a variable that is no size.
fn bad_variable(
    alloc: Global,
    kind: Kind,
    name: &str,
    text: Option<&str>,
) -> Result<Error, AllocError>
    ensures { IfOk result (λ e. kind_of e ≡ error_kind Bad) }
{
    let text = text.unwrap_or("");
    let message = format!(in alloc;
        "invalid value '{text}' of the variable {name}: it is no number from 1 to {LARGEST_SCREEN}"
    )?;
    usage_fault(alloc, kind, ErrorKind::ValueValidation, message.as_str())
}

/// The usage fault of sizes that nothing gives.
fn missing(
    alloc: Global,
    kind: Kind,
    lacks_lines: bool,
    lacks_columns: bool,
) -> Result<Error, AllocError>
    ensures { IfOk result (λ e. kind_of e ≡ error_kind Missing) }
{
    let mut message = String::from_str(
        alloc,
        "the following required arguments were not provided:",
    )?;
    if lacks_lines {
        message.push_str("\n  --lines <N>, or the variable LINES")?;
    }
    if lacks_columns {
        message.push_str("\n  --cols <N>, or the variable COLUMNS")?;
    }
    usage_fault(
        alloc,
        kind,
        ErrorKind::MissingRequiredArgument,
        message.as_str(),
    )
}

/// The job of a kind on a screen of the size that the matches or the variables give.
fn job_of(
    alloc: Global,
    kind: Kind,
    found: &ArgMatches<'_>,
    variables: &Variables<'_>,
) -> Result<Job, Error>
    ensures job { IfOk result (λ job. (job.kind ≡ kind) × SizesOf (sizes_of variables.now) (rows_of (found_of found.now)) job) }
    ensures faults { IfErr result (λ e. (kind_of e ≡ OutOfMemory) ⊎ LacksSizes (sizes_of variables.now) (rows_of (found_of found.now)) (kind_of e)) }
{
    let lines = size_of(found, "lines", variables.lines);
    let cols = size_of(found, "cols", variables.columns);
    // clap refused what an option says that is no size, so a bad one is a variable's.
    match (lines, cols) {
        (Ok(lines), Ok(cols)) => Ok(Job { kind, lines, cols }),
        (Err(NoSize::Bad), _) => Err(bad_variable(alloc, kind, "LINES", variables.lines)?),
        (_, Err(NoSize::Bad)) => Err(bad_variable(alloc, kind, "COLUMNS", variables.columns)?),
        (lines, cols) => Err(missing(alloc, kind, lines.is_err(), cols.is_err())?),
    }
}

/// The file that the matches name to be read, unless it is standard input.
fn script_of<'a>(found: &ArgMatches<'a>) -> Option<&'a str>
    ensures { text_of result ≡ script_by (rows_of (found_of found.now)) }
{
    let name = found.get_str("file")?;
    if name == "-" { None } else { Some(name) }
}

/// Whether the matches ask for no answers.
fn is_quiet(found: &ArgMatches<'_>) -> bool
    ensures { result ≡ is_quiet_by (rows_of (found_of found.now)) }
{
    match found.get_str("quiet") {
        Some(text) => text == "true",
        None => false,
    }
}

/// What a subcommand of a name asks for, by its matches.
fn request_of(
    alloc: Global,
    name: &str,
    found: &ArgMatches<'_>,
    variables: &Variables<'_>,
) -> Result<Request, Error>
    ensures request { IfOk result (λ request. RequestBy (sizes_of variables.now) name.now (rows_of (found_of found.now)) request) }
    ensures faults { IfErr result (λ e. (kind_of e ≡ OutOfMemory) ⊎ IsRefusedBy (sizes_of variables.now) name.now (rows_of (found_of found.now)) (kind_of e)) }
{
    match kind_of(name) {
        Some(kind) => Ok(Request::Job(job_of(alloc, kind, found, variables)?)),
        None => Ok(Request::Check),
    }
}

/// The same, with its files.
fn invocation<'a>(
    alloc: Global,
    name: &str,
    found: &ArgMatches<'a>,
    variables: &Variables<'_>,
) -> Result<Invocation<'a>, Error>
    ensures asked { IfOk result (λ invocation. AsksBy (sizes_of variables.now) name.now (rows_of (found_of found.now)) invocation) }
    ensures faults { IfErr result (λ e. (kind_of e ≡ OutOfMemory) ⊎ IsRefusedBy (sizes_of variables.now) name.now (rows_of (found_of found.now)) (kind_of e)) }
{
    let request = request_of(alloc, name, found, variables)?;
    Ok(Invocation {
        request,
        script: script_of(found),
        log: found.get_str("log"),
        is_quiet: is_quiet(found),
    })
}

/// What clap finds in the words.
fn matches_of<'a, S: AsStr>(alloc: Global, words: &'a [S]) -> Result<ArgMatches<'a>, Error>
    ensures subcommand { IfOk result (λ m. subcommand_rows_of m ≡ subcommand_of curspan (map S.text words.entry.now)) }
    ensures faults { FailsBy (fault_of curspan (map S.text words.entry.now)) result }
{
    command(alloc)?.try_get_matches_from(words)
}

/// What the words ask for; variables give the sizes that no option does. The first word is the program's name.
/// An error is lack of memory, or has one of the kinds that clap's definition gives for the words, a usage fault or a
/// request for help; where it gives none, it is lack of memory, or says that a size is given neither by an option nor
/// by its variable (`MissingRequiredArgument`), or by a variable that is no such number (`ValueValidation`).
pub fn job<'a, S: AsStr>(
    alloc: Global,
    words: &'a [S],
    variables: &Variables<'_>,
) -> Result<Invocation<'a>, Error>
    ensures asked { IfOk result (λ invocation. Asks (sizes_of variables.now) (map S.text words.entry.now) invocation) }
    ensures faults { IfErr result (λ e. (kind_of e ≡ OutOfMemory) ⊎ IsRefused (sizes_of variables.now) (map S.text words.entry.now) (kind_of e)) }
{
    let matches = matches_of(alloc, words)?;
    match matches.subcommand() {
        Some((name, found)) => invocation(alloc, name, found, variables),
        // What clap accepts always names a subcommand.
        None => unreachable!(),
    }
}
