//! A monitor of its own counters: how many calls it made, and how many cells and bytes they took, on a panel over the
//! list of its updates.
#![tactic(auto)]

use calls::Methods;
use desk::{Attr, Calls, Counted, Fault, Refusal, Screen, Sink, WinId};
use std::alloc::{AllocError, Global};

/// The lines and the columns of the screen.
const LINES: u16 = 8;

const COLUMNS: u16 = 40;

/// How often the monitor updates what it shows.
const UPDATES: u64 = 9;

/// Why the monitor ends early.
#[derive(Debug, Drop)]
enum Error {
    Screen(Fault),
    Memory,
}

impl From<Fault> for Error {
    fn from(fault: Fault) -> Error {
        Error::Screen(fault)
    }
}

impl From<Refusal> for Error {
    fn from(refusal: Refusal) -> Error {
        Error::Screen(Fault::Refused(refusal))
    }
}

impl From<AllocError> for Error {
    fn from(_error: AllocError) -> Error {
        Error::Memory
    }
}

/// What the monitor did since its windows were made.
#[derive(Clone, Copy)]
struct Counters {
    calls: u64,
    cells: u64,
    bytes: u64,
}

/// A screen with a list that scrolls, and a panel of counters on top.
#[derive(Drop)]
struct Monitor<'a, W> {
    screen: &'a mut Screen<W>,
    list: WinId,
    panel: WinId,
    counters: Counters,
}

/// Writes the title, and makes the list below it, which has no cells of its own: it shows lines of the standard screen.
fn make_list<W: Sink>(screen: &mut Screen<W>) -> Result<WinId, Fault> {
    screen.wattron(WinId::STANDARD, Attr::BOLD)?;
    screen.waddstr(WinId::STANDARD, b"updates")?;
    let list = screen.derwin(WinId::STANDARD, LINES - 1, COLUMNS, 1, 0)?;
    screen.scrollok(list, true)?;
    Ok(list)
}

/// Makes the panel and answers its window. What is written below it is hidden, and not lost.
fn make_panel<W: Sink>(screen: &mut Screen<W>) -> Result<WinId, Fault> {
    let win = screen.newwin(3, 16, 2, 22)?;
    screen.wattrset(win, Attr::REVERSE)?;
    screen.wbkgdset(win, Attr::REVERSE, b' ')?;
    screen.new_panel(win)?;
    Ok(win)
}

impl<'a, W: Sink> Monitor<'a, W> {
    fn new(screen: &'a mut Screen<W>) -> Result<Monitor<'a, W>, Fault> {
        let list = make_list(screen)?;
        let panel = make_panel(screen)?;
        let counters = Counters {
            calls: 0,
            cells: 0,
            bytes: 0,
        };
        Ok(Monitor {
            screen,
            list,
            panel,
            counters,
        })
    }

    /// Writes a text at the cursor of a window.
    fn write(&mut self, win: WinId, text: &str) -> Result<(), Fault> {
        self.screen.waddstr(win, text.as_bytes())?;
        self.counters.calls = self.counters.calls.saturating_add(1);
        Ok(())
    }

    /// Clears a window.
    fn clear(&mut self, win: WinId) -> Result<(), Fault> {
        self.screen.werase(win)?;
        self.counters.calls = self.counters.calls.saturating_add(1);
        Ok(())
    }

    /// Shows the windows and the panel as they are now.
    fn show(&mut self) -> Result<(), Fault> {
        let composed = self.screen.update_panels();
        let sent = self.screen.doupdate()?;
        self.counters.calls = self.counters.calls.saturating_add(2);
        self.counters.cells = self
            .counters
            .cells
            .saturating_add(u64::from(composed.cells));
        self.counters.bytes = self.counters.bytes.saturating_add(u64::from(sent.bytes));
        Ok(())
    }

    /// Writes what was counted so far, lists the update, and shows both.
    fn update(&mut self, alloc: Global, number: u64) -> Result<(), Error> {
        let Counters {
            calls,
            cells,
            bytes,
        } = self.counters;
        let text = format!(in alloc; "calls {calls:>9}\ncells {cells:>9}\nbytes {bytes:>9}")?;
        self.clear(self.panel)?;
        self.write(self.panel, text.as_str())?;
        let line = format!(in alloc; "update {number}\n")?;
        self.write(self.list, line.as_str())?;
        self.show()?;
        Ok(())
    }
}

/// Shows a monitor on a screen until its last update.
fn run<W: Sink>(alloc: Global, screen: &mut Screen<W>) -> Result<(), Error> {
    let mut monitor = Monitor::new(screen)?;
    for number in 1..=UPDATES {
        monitor.update(alloc, number)?;
    }
    Ok(())
}

fn main(rt: HostRuntime) -> Result<(), Error> {
    let mut screen = Screen::new(rt.alloc(), LINES, COLUMNS, Counted::new(rt.stdout()))?;
    let ended = run(rt.alloc(), &mut screen);
    drop(screen);
    ended
}
