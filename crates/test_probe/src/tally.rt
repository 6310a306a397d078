//! The calls of a script on a screen, and how many cells each `update_panels` of it read.

use cell::Refusal;
use desk::{Calls, Reply, Screen};
use script::{Arguments, LONGEST_LINE, read_line};
use std::alloc::Global;
use std::io::{self, ErrorKind, Read, Write};
use streams::Discard;

/// A blank screen of the size that two words give, over a sink that keeps nothing.
fn screen_of(alloc: Global, lines: &str, columns: &str) -> io::Result<Screen<Discard>> {
    let (Ok(lines), Ok(columns)) = (lines.parse::<u16>(), columns.parse::<u16>()) else {
        return Err(ErrorKind::InvalidInput.into());
    };
    match Screen::new(alloc, lines, columns, Discard::new()) {
        Ok(screen) => Ok(screen),
        Err(Refusal::NoMemory) => Err(ErrorKind::OutOfMemory.into()),
        Err(_) => Err(ErrorKind::InvalidInput.into()),
    }
}

/// Makes the call of a line, if it has one, and answers how many cells it read, where it is `update_panels`.
///
/// # Errors
/// `InvalidData` where the line has a fault. A refused call is none.
fn make_call(
    screen: &mut Screen<Discard>,
    line: &[u8],
    taken: &mut Arguments,
) -> io::Result<Option<u32>> {
    if line.len() > LONGEST_LINE {
        return Err(ErrorKind::InvalidData.into());
    }
    match read_line(line, taken) {
        Ok(Some(word)) => match screen.call(&word.call(taken)) {
            Ok(Reply::Composed(composed)) => Ok(Some(composed.cells)),
            _ => Ok(None),
        },
        Ok(None) => Ok(None),
        Err(_) => Err(ErrorKind::InvalidData.into()),
    }
}

/// Makes the calls of a script, up to its first fault, and prints each count in a line.
fn tally<W: Write>(screen: &mut Screen<Discard>, text: &[u8], out: &mut W) -> io::Result<()> {
    let mut taken = Arguments::new();
    for line in text.split(|b| *b == b'\n') {
        if let Some(cells) = make_call(screen, line, &mut taken)? {
            writeln!(out, "{}", cells)?;
        }
    }
    Ok(())
}

/// The same of the script on standard input, on a screen of the size that two words give.
pub(crate) fn run(rt: &HostRuntime, lines: &str, columns: &str) -> io::Result<()> {
    let mut text = Vec::new(rt.alloc());
    rt.stdin().read_to_end(&mut text)?;
    let mut screen = screen_of(rt.alloc(), lines, columns)?;
    let tallied = tally(&mut screen, text.as_slice(), &mut rt.stdout());
    drop(screen);
    tallied
}
