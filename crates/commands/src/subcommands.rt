//! The definition of the command line, for `clap`.

ghost use Rattle.std.specs.Prelude.{◌≡◌};
ghost use Rattle.commands.specs.{IfOk, Some, codes, false, option_map, app_of, new_app, rule_of, with_rule, out-Command, bare, check_mode, curspan, file_rule, log_rule, mode, on_screen, quiet_rule};
ghost use Rattle.commands.specs.{size_rule, with_files};
ghost use Rattle.commands.specs.declared.subcommands.TheConstants.{EXAMPLE, VERSION};

use crate::requests::Kind;
use cell::LARGEST_SCREEN;
use clap::{Arg, ArgAction, Command};
use std::alloc::{AllocError, Global};

/// The version of the program. What follows `commit` is as long as a commit's name, which `./install` writes over it.
const VERSION: &str = "0.1.0, commit not written in by ./install or ./package";

/// What follows the help of the program.
const EXAMPLE: &str = "\
A script has a call a line, and is read from standard input where no FILE is named, as the terminal bytes are for show.
`man curspan` lists the calls.

Example:
  printf 'addstr 0 hi\\nupdate_panels\\ndoupdate\\n' | curspan run --lines 24 --cols 80";

/// The subcommands that need a screen.
const KINDS: [Kind; 3] = [Kind::Run, Kind::Paint, Kind::Show];

/// The help of the option for the lines of a screen.
pub const LINES_HELP: &str = "Lines of the screen, 1 to 999 [env: LINES]";

/// The help of the option for its columns.
pub const COLS_HELP: &str = "Columns of the screen, 1 to 999 [env: COLUMNS]";

/// An option for a number of lines or columns of a screen.
fn size<'a>(alloc: Global, name: &'a str, help: &'a str) -> Arg<'a>
    ensures rule { rule_of result ≡ size_rule name.entry.now }
    ensures help { result.help ≡ Some help.entry }
    ensures local { result.global ≡ false }
{
    Arg::new(alloc, name)
        .long(name)
        .value_name("N")
        .help(help)
        .action(ArgAction::Set)
        .value_parser(clap::value_parser!(u16).range(1..=i64::from(LARGEST_SCREEN)))
}

/// The name of the file that is read.
fn file<'a>(alloc: Global) -> Arg<'a>
    ensures rule { rule_of result ≡ file_rule }
    ensures help { option_map (λ s. s.now) result.help ≡ Some (codes "File to read in place of standard input, which - is too") }
    ensures local { result.global ≡ false }
{
    Arg::new(alloc, "file")
        .value_name("FILE")
        .help("File to read in place of standard input, which - is too")
        .action(ArgAction::Set)
}

/// An option for the name of the file that gets the log.
fn log<'a>(alloc: Global) -> Arg<'a>
    ensures rule { rule_of result ≡ log_rule }
    ensures help { option_map (λ s. s.now) result.help ≡ Some (codes "File that gets the log, made anew, in place of standard error") }
    ensures local { result.global ≡ false }
{
    Arg::new(alloc, "log")
        .long("log")
        .value_name("FILE")
        .help("File that gets the log, made anew, in place of standard error")
        .action(ArgAction::Set)
}

/// A flag by which answers aren't logged.
fn quiet<'a>(alloc: Global) -> Arg<'a>
    ensures rule { rule_of result ≡ quiet_rule }
    ensures help { option_map (λ s. s.now) result.help ≡ Some (codes "Log faults alone, and not what calls answer") }
    ensures local { result.global ≡ false }
{
    Arg::new(alloc, "quiet")
        .long("quiet")
        .help("Log faults alone, and not what calls answer")
        .action(ArgAction::SetTrue)
}

/// A command with one more argument, which is for it alone.
fn with_argument<'a>(command: Command<'a>, argument: Arg<'a>) -> Result<Command<'a>, AllocError>
    requires { argument.global ≡ false }
    ensures app { IfOk result (λ c. app_of c ≡ with_rule (app_of command.entry) (rule_of argument.entry)) }
    ensures local { IfOk result (λ c. (out-Command c).has_globals ≡ (out-Command command.entry).has_globals) }
{
    command.arg(argument)
}

/// A subcommand with the names of files.
fn with_files<'a>(alloc: Global, command: Command<'a>) -> Result<Command<'a>, AllocError>
    ensures app { IfOk result (λ c. app_of c ≡ with_files (app_of command.entry)) }
    ensures local { IfOk result (λ c. (out-Command c).has_globals ≡ (out-Command command.entry).has_globals) }
{
    let with_log = with_argument(command, log(alloc))?;
    with_argument(with_log, file(alloc))
}

/// A subcommand without its arguments.
fn plain<'a>(alloc: Global, name: &'a str, about: &'a str) -> Command<'a>
    ensures app { app_of result ≡ new_app name.entry.now }
    ensures about { (out-Command result).about ≡ Some about.entry }
    ensures local { (out-Command result).has_globals ≡ false }
{
    Command::new(alloc, name).about(about)
}

/// A subcommand with the size of a screen and the names of files.
fn on_screen<'a>(alloc: Global, name: &'a str, about: &'a str) -> Result<Command<'a>, AllocError>
    ensures app { IfOk result (λ c. app_of c ≡ on_screen name.entry.now) }
    ensures local { IfOk result (λ c. (out-Command c).has_globals ≡ false) }
{
    let plain = plain(alloc, name, about);
    let with_lines = with_argument(plain, size(alloc, "lines", LINES_HELP))?;
    let with_size = with_argument(with_lines, size(alloc, "cols", COLS_HELP))?;
    with_files(alloc, with_size)
}

/// A subcommand that runs scripts.
fn running<'a>(alloc: Global, name: &'a str, about: &'a str) -> Result<Command<'a>, AllocError>
    ensures mode { IfOk result (λ c. app_of c ≡ with_rule (on_screen name.entry.now) quiet_rule) }
    ensures local { IfOk result (λ c. (out-Command c).has_globals ≡ false) }
{
    with_argument(on_screen(alloc, name, about)?, quiet(alloc))
}

/// The subcommand of a kind.
pub fn subcommand<'a>(alloc: Global, kind: Kind) -> Result<Command<'a>, AllocError>
    ensures mode { IfOk result (λ c. app_of c ≡ mode kind) }
    ensures local { IfOk result (λ c. (out-Command c).has_globals ≡ false) }
{
    match kind {
        Kind::Run => running(alloc, "run", "Run a script, and send the terminal bytes"),
        Kind::Paint => running(
            alloc,
            "paint",
            "Run a script, and print its panels over the standard screen",
        ),
        Kind::Show => on_screen(alloc, "show", "Print the picture that terminal bytes leave"),
    }
}

/// The subcommand that needs no size.
fn checking<'a>(alloc: Global) -> Result<Command<'a>, AllocError>
    ensures app { IfOk result (λ c. app_of c ≡ check_mode) }
    ensures local { IfOk result (λ c. (out-Command c).has_globals ≡ false) }
{
    let check = plain(
        alloc,
        "check",
        "Tell what is wrong with a script, and run nothing",
    );
    with_files(alloc, check)
}

/// The program without its subcommands.
fn program<'a>(alloc: Global) -> Command<'a>
    ensures app { app_of result ≡ bare }
    ensures about { option_map (λ s. s.now) (out-Command result).about ≡ Some (codes "Run scripts of curses window calls") }
    ensures version { option_map (λ s. s.now) (out-Command result).version ≡ Some VERSION.now }
    ensures example { option_map (λ s. s.now) (out-Command result).after_help ≡ Some EXAMPLE.now }
    ensures local { (out-Command result).has_globals ≡ false }
{
    Command::new(alloc, "curspan")
        .about("Run scripts of curses window calls")
        .version(VERSION)
        .after_help(EXAMPLE)
        .subcommand_required(true)
}

/// The program's command line.
pub fn command<'a>(alloc: Global) -> Result<Command<'a>, AllocError>
    ensures { IfOk result (λ c. app_of c ≡ curspan) }
{
    let mut subcommands = Vec::with_capacity(alloc, KINDS.len() + 1)?;
    for kind in KINDS {
        subcommands.push(subcommand(alloc, kind)?)?;
    }
    subcommands.push(checking(alloc)?)?;
    program(alloc).subcommands(subcommands)
}
