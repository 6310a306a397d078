//! A program that tests run. With a size it makes the calls of a script on a screen, and prints how many cells each
//! `update_panels` of it read; with one word it makes what that names, and prints how this ended.
#![tactic(auto)]

mod maker;
mod tally;

use std::env;
use std::io::{self, ErrorKind, Write};
use std::process::ExitCode;

fn main(rt: HostRuntime) -> ExitCode {
    match run(&rt) {
        Ok(()) => ExitCode::SUCCESS,
        Err(_) => {
            let usage =
                b"usage: probe LINES COLUMNS < SCRIPT\n       probe NAME\nThe words, the script or a stream has a fault.\n";
            let _ = rt.stderr().write_all(usage.as_slice());
            ExitCode::FAILURE
        }
    }
}

fn run(rt: &HostRuntime) -> io::Result<()> {
    let words: Vec<String> = env::args(rt)?.collect(rt.alloc())?;
    match words.as_slice() {
        [_, name] => maker::run(rt, name.as_str()),
        [_, lines, columns] => tally::run(rt, lines.as_str(), columns.as_str()),
        _ => Err(ErrorKind::InvalidInput.into()),
    }
}
