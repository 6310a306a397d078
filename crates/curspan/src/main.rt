//! Runs scripts of calls on a screen of windows, and prints the pictures that they leave.
//!
//! `serve` has `run` and `paint`. The command line and what needs no screen are in the library `commands`, and `check`
//! in `checks`.
#![tactic(auto)]

mod environment;
mod files;
mod opening;
mod serve;

use commands::{BAD_TEXT, Need, Output, Variables, no_memory, write_log};
use desk::Counted;
use environment::variable;
use files::{Log, Script};
use opening::FileSink;
use serve::Streams;
use std::io::{BufWriter, ErrorKind};
use std::process::ExitCode;
use std::{env, io};
use streams::Patient;

/// How many bytes wait before they are written to standard output. A painter's piece of more goes out as it is.
const WRITTEN_AT_ONCE: usize = 1024;

/// The words of the command line, and the variables that have a screen's size.
#[derive(Drop)]
struct Asked {
    words: Vec<String>,
    lines: Option<String>,
    columns: Option<String>,
}

fn main(rt: HostRuntime) -> ExitCode {
    let mut log = Log::new(&rt, rt.stderr());
    let status = match read_asked(&rt) {
        Ok(asked) => run(&rt, &asked, log),
        Err(error) => match error.kind() {
            ErrorKind::OutOfMemory => no_memory(&mut log, Need::CommandLine),
            _ => {
                write_log(&mut log, b"a word of the command line is not in UTF-8\n");
                BAD_TEXT
            }
        },
    };
    ExitCode::from(status)
}

/// The words and the variables that this process was begun with.
fn read_asked(rt: &HostRuntime) -> io::Result<Asked> {
    Ok(Asked {
        words: env::args(rt)?.collect(rt.alloc())?,
        lines: variable(rt, "LINES")?,
        columns: variable(rt, "COLUMNS")?,
    })
}

/// Does what words ask for, on the standard streams or files, and answers the status.
fn run<L: FileSink + Drop>(rt: &HostRuntime, asked: &Asked, mut log: L) -> u8 {
    let Ok(input) = Script::new(rt, rt.stdin()) else {
        return no_memory(&mut log, Need::Streams);
    };
    let stdout = Patient {
        stream: rt.stdout(),
    };
    let Ok(buffered) = BufWriter::with_capacity(rt.alloc(), WRITTEN_AT_ONCE, stdout) else {
        return no_memory(&mut log, Need::Streams);
    };
    let variables = Variables {
        lines: asked.lines.as_ref().map(|text| text.as_str()),
        columns: asked.columns.as_ref().map(|text| text.as_str()),
    };
    let mut streams = Streams {
        alloc: rt.alloc(),
        input,
        out: Output::new(Counted::new(buffered)),
        log,
    };
    streams.serve(asked.words.as_slice(), &variables)
}
