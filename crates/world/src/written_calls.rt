//! The calls of each group. Written by tools/calls from calls.table.

use crate::panel::PanelId;
use cell::{Attr, WinId};

/// The calls that make windows and pads, delete them, and place them.
#[rattlefmt::skip]
#[derive(Clone, Copy)]
pub enum Making {
    /// Makes a window at a place of the screen, with a blank grid of its own.
    Newwin { lines: u16, columns: u16, y: u16, x: u16 },
    /// Makes a window that shows the part of a window from a place of the screen on.
    Subwin { win: WinId, lines: u16, columns: u16, y: u16, x: u16 },
    /// Makes a window over the part of a window from a line and a column of it on.
    Derwin { win: WinId, lines: u16, columns: u16, y: u16, x: u16 },
    /// Makes a pad of 1 to 1000 lines and columns, which has no place on the screen, with a blank grid of its own.
    Newpad { lines: u16, columns: u16 },
    /// Makes a pad that shows the part of a pad from a line and a column of it on.
    Subpad { pad: WinId, lines: u16, columns: u16, y: u16, x: u16 },
    /// Deletes a window or pad that is in no panel, and from which none derives.
    Delwin { win: WinId },
    /// Moves a window that is in no panel to a place of the screen.
    Mvwin { win: WinId, y: u16, x: u16 },
    /// Lets a derived window or pad show the part of its parent from another line and column on.
    Mvderwin { win: WinId, y: u16, x: u16 },
}

/// The calls that write in a window or pad, or set how it is written in.
#[derive(Clone, Copy)]
pub enum Writing<'a> {
    /// Moves the cursor to line `y` and column `x`.
    Move { win: WinId, y: u16, x: u16 },
    /// Writes a character at the cursor, which advances, from the last column to the next line.
    Addch { win: WinId, ch: u8 },
    /// Writes the characters of a text in order, each as `waddch` does.
    Addstr { win: WinId, text: &'a [u8] },
    /// Inserts a character at the cursor, which stays: the cells from there on go one column right, and the last is
    /// lost.
    Insch { win: WinId, ch: u8 },
    /// Deletes the character at the cursor, which stays: the cells after it go one column left, and the last is set to
    /// the background.
    Delch { win: WinId },
    /// Moves the cursor's line and those below down by one, loses the last, and sets the cursor's line to the
    /// background.
    Insertln { win: WinId },
    /// Moves the lines below the cursor's up by one, and sets the last line to the background.
    Deleteln { win: WinId },
    /// Sets all cells to the background, and the cursor to line 0 and column 0.
    Erase { win: WinId },
    /// Does as `werase`, and asks for a clear screen where the window is next taken into the virtual screen.
    Clear { win: WinId },
    /// Sets the cells from the cursor to the end of its line to the background.
    Clrtoeol { win: WinId },
    /// Sets the cells from the cursor to the end of its line, and all lines below, to the background.
    Clrtobot { win: WinId },
    /// Moves the lines of the scroll region up by `n`, or down by `-n` for a negative one.
    Scrl { win: WinId, n: i16 },
    /// Sets the scroll region to the lines from `top` to `bottom`, both inclusive.
    Setscrreg { win: WinId, top: u16, bottom: u16 },
    /// Sets whether the window scrolls where the cursor leaves the last line of its region.
    Scrollok { win: WinId, flag: bool },
    /// Sets whether the window asks for a clear screen where it is next taken into the virtual screen.
    Clearok { win: WinId, flag: bool },
    /// Sets the attributes that written characters get.
    Attrset { win: WinId, attrs: Attr },
    /// Adds attributes to those that written characters get.
    Attron { win: WinId, attrs: Attr },
    /// Takes attributes from those that written characters get.
    Attroff { win: WinId, attrs: Attr },
    /// Sets the background to a character with attributes, of pair 0.
    Bkgdset { win: WinId, attrs: Attr, ch: u8 },
    /// Sets the colour pair that written characters get.
    ColorSet { win: WinId, pair: u16 },
    /// Sets the colour pair of the background.
    Bkgdpair { win: WinId, pair: u16 },
}

/// The calls that copy cells from window to window, and those on what is touched of a window.
#[rattlefmt::skip]
#[derive(Clone, Copy)]
pub enum Copying {
    /// Copies the cells of `src` that aren't spaces to `dst`, at the places of the screen that both cover.
    Overlay { src: WinId, dst: WinId },
    /// Copies all cells of `src` to `dst`, at the places of the screen that both cover.
    Overwrite { src: WinId, dst: WinId },
    /// Copies the cells of `src` from line `sminrow` and column `smincol` on to the lines from `dminrow` to `dmaxrow`
    /// and the columns from `dmincol` to `dmaxcol` of `dst`, all inclusive; if `overlay` is set, spaces are left out.
    Copywin { src: WinId, dst: WinId, sminrow: u16, smincol: u16, dminrow: u16, dmincol: u16, dmaxrow: u16,
        dmaxcol: u16, overlay: bool },
    /// Touches all of a window, as if it had been written.
    Touchwin { win: WinId },
    /// Untouches all of a window.
    Untouchwin { win: WinId },
    /// Touches all of `n` lines from line `y` on.
    Touchline { win: WinId, y: u16, n: u16 },
    /// Touches all of `n` lines from line `y` on, or untouches them if `flag` is not set.
    Touchln { win: WinId, y: u16, n: u16, flag: bool },
    /// Touches, in each ancestor of a window, the places that show a touched cell of the window.
    Syncup { win: WinId },
    /// Touches, in a window, the places that show a touched cell of an ancestor.
    Syncdown { win: WinId },
    /// Whether line `y` of a window is touched.
    IsLinetouched { win: WinId, y: u16 },
    /// Whether some line of a window is touched.
    IsWintouched { win: WinId },
}

/// The calls that ask about a window or pad.
#[derive(Clone, Copy)]
pub enum Query {
    /// The line and the column of the cursor.
    Getyx { win: WinId },
    /// The line and the column of the screen where the window begins.
    Getbegyx { win: WinId },
    /// The number of lines, and the number of columns.
    Getmaxyx { win: WinId },
    /// The line and the column of the parent where a derived window begins.
    Getparyx { win: WinId },
    /// The cell at the cursor.
    Inch { win: WinId },
}

/// The calls that make panels, delete them, order them and move them, and those that ask about them.
#[derive(Clone, Copy)]
pub enum Stacking {
    /// Puts a window into a new panel, visible on top.
    NewPanel { win: WinId },
    /// Deletes a panel.
    DelPanel { panel: PanelId },
    /// Puts a panel on top, whether it was hidden or visible.
    ShowPanel { panel: PanelId },
    /// Takes a visible panel out of the order.
    HidePanel { panel: PanelId },
    /// Moves a visible panel to the top.
    TopPanel { panel: PanelId },
    /// Moves a visible panel to the bottom.
    BottomPanel { panel: PanelId },
    /// Moves the window of a panel, visible or hidden, to a place of the screen.
    MovePanel { panel: PanelId, y: u16, x: u16 },
    /// Gives a panel another window.
    ReplacePanel { panel: PanelId, win: WinId },
    /// The panel right above a visible one; of none, the bottom one.
    PanelAbove { panel: Option<PanelId> },
    /// The panel right below a visible one; of none, the top one.
    PanelBelow { panel: Option<PanelId> },
    /// The window of a panel.
    PanelWindow { panel: PanelId },
    /// Whether a panel is hidden.
    PanelHidden { panel: PanelId },
}

/// The calls that refresh, and the one that sets the colours of a pair.
#[rattlefmt::skip]
#[derive(Clone, Copy)]
pub enum Refresh {
    /// Takes what is touched of a window into the virtual screen, at the window's place, with its cursor.
    Noutrefresh { win: WinId },
    /// Takes the cells of a pad from line `pminrow` and column `pmincol` on into the lines from `sminrow` to `smaxrow`
    /// and the columns from `smincol` to `smaxcol` of the virtual screen, all inclusive, whether they are touched or
    /// not.
    Pnoutrefresh { pad: WinId, pminrow: u16, pmincol: u16, sminrow: u16, smincol: u16, smaxrow: u16, smaxcol: u16 },
    /// Takes the picture of windows and panels into the virtual screen, with the cursor of the top visible panel's
    /// window, or else of the standard screen.
    UpdatePanels,
    /// Sends the bytes that show the virtual screen on the terminal: little more than what changed, or all of it after
    /// a clear.
    Doupdate,
    /// Gives a colour pair a foreground and a background: 0 black, 1 red, 2 green, 3 yellow, 4 blue, 5 magenta, 6 cyan,
    /// 7 white.
    InitPair { pair: u16, foreground: u16, background: u16 },
}
