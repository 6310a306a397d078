//! What is sent to a terminal.

use cell::Rendition;

/// What is erased of a line or of the page. The cursor's own place is erased too.
#[derive(Clone, Copy, PartialEq, Eq)]
pub enum Erase {
    /// From the cursor to the end.
    ToEnd,
    /// From the start to the cursor.
    FromStart,
    /// All of it.
    All,
}

/// One character or control function for a terminal.
#[derive(Clone, Copy)]
pub enum Token {
    /// The character is printed at the cursor. It is one that a cell can hold.
    Print(u8),
    /// The cursor goes to a line and a column of the largest screen, counted from 0.
    Cup(u16, u16),
    /// What is printed from now on has this rendition.
    Sgr(Rendition),
    /// Erases in the cursor's line.
    El(Erase),
    /// Erases in the page.
    Ed(Erase),
}
