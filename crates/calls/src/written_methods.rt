//! The methods. Written by tools/calls from calls.table.

ghost use Rattle.std.specs.Prelude.{◌≡◌};
ghost use Rattle.world.specs.declared.call.Call.{Call};
ghost use Rattle.world.specs.declared.call.Reply.{Reply};
ghost use Rattle.world.specs.declared.call.Making.{Making};
ghost use Rattle.world.specs.declared.call.Writing.{Writing};
ghost use Rattle.world.specs.declared.call.Copying.{Copying};
ghost use Rattle.world.specs.declared.call.Query.{Query};
ghost use Rattle.world.specs.declared.call.Stacking.{Stacking};
ghost use Rattle.world.specs.declared.call.Refresh.{Refresh};
ghost use Rattle.world.specs.Replies.{its_panel, no_answer, two_numbers};
ghost use Rattle.calls.specs.Methods.{as_reply};

use crate::making::Calls;
use cell::{Attr, Cell, WinId};
use world::{Call, Copying, Making, PanelId, Query, Refresh, Stacking, Writing};

/// A method for each call, of all that makes calls. `Calls` itself has `update_panels`, and a screen `doupdate`.
/// Each method lists why it may be refused.
#[rattlefmt::skip]
pub trait Methods: Calls {
    /// Makes a window at a place of the screen, with a blank grid of its own. A size of 0 reaches to the edge of the
    /// screen.
    ///
    /// # Errors
    /// `OffScreen`, `TooMany`, `NoMemory`.
    final fn newwin(&mut self, lines: u16, columns: u16, y: u16, x: u16) -> Result<WinId, Self::Error>
        ensures { Self.made self.old (Call.Making (Making.Newwin lines columns y x)) (as_reply Reply.Number result)
            self.new }
    {
        self.make(&Call::Making(Making::Newwin { lines, columns, y, x }))
    }

    /// Makes a window that shows the part of a window from a place of the screen on. A size of 0 reaches to the
    /// window's edge.
    ///
    /// # Errors
    /// `NoSuchWindow`, `IsPad`, `OutsideParent`, `TooMany`, `NoMemory`.
    final fn subwin(&mut self, win: WinId, lines: u16, columns: u16, y: u16, x: u16) -> Result<WinId, Self::Error>
        ensures { Self.made self.old (Call.Making (Making.Subwin win lines columns y x)) (as_reply Reply.Number result)
            self.new }
    {
        self.make(&Call::Making(Making::Subwin { win, lines, columns, y, x }))
    }

    /// Makes a window over the part of a window from a line and a column of it on. They share their cells. A size of 0
    /// reaches to its edge.
    ///
    /// # Errors
    /// `NoSuchWindow`, `IsPad`, `OutsideParent`, `TooMany`, `NoMemory`.
    final fn derwin(&mut self, win: WinId, lines: u16, columns: u16, y: u16, x: u16) -> Result<WinId, Self::Error>
        ensures { Self.made self.old (Call.Making (Making.Derwin win lines columns y x)) (as_reply Reply.Number result)
            self.new }
    {
        self.make(&Call::Making(Making::Derwin { win, lines, columns, y, x }))
    }

    /// Makes a pad of 1 to 1000 lines and columns, which has no place on the screen, with a blank grid of its own.
    ///
    /// # Errors
    /// `BadSize`, `TooMany`, `NoMemory`.
    final fn newpad(&mut self, lines: u16, columns: u16) -> Result<WinId, Self::Error>
        ensures { Self.made self.old (Call.Making (Making.Newpad lines columns)) (as_reply Reply.Number result)
            self.new }
    {
        self.make(&Call::Making(Making::Newpad { lines, columns }))
    }

    /// Makes a pad that shows the part of a pad from a line and a column of it on. A size of 0 reaches to its edge.
    ///
    /// # Errors
    /// `NoSuchWindow`, `NotPad`, `OutsideParent`, `TooMany`, `NoMemory`.
    final fn subpad(&mut self, pad: WinId, lines: u16, columns: u16, y: u16, x: u16) -> Result<WinId, Self::Error>
        ensures { Self.made self.old (Call.Making (Making.Subpad pad lines columns y x)) (as_reply Reply.Number result)
            self.new }
    {
        self.make(&Call::Making(Making::Subpad { pad, lines, columns, y, x }))
    }

    /// Deletes a window or pad that is in no panel, and from which none derives. Its number is free then.
    ///
    /// # Errors
    /// `NoSuchWindow`, `StandardScreen`, `InPanel`, `HasDerived`.
    final fn delwin(&mut self, win: WinId) -> Result<(), Self::Error>
        ensures { Self.made self.old (Call.Making (Making.Delwin win)) (as_reply no_answer result) self.new }
    {
        self.make(&Call::Making(Making::Delwin { win }))
    }

    /// Moves a window that is in no panel to a place of the screen. No other window moves.
    ///
    /// # Errors
    /// `NoSuchWindow`, `StandardScreen`, `IsPad`, `InPanel`, `OffScreen`.
    final fn mvwin(&mut self, win: WinId, y: u16, x: u16) -> Result<(), Self::Error>
        ensures { Self.made self.old (Call.Making (Making.Mvwin win y x)) (as_reply no_answer result) self.new }
    {
        self.make(&Call::Making(Making::Mvwin { win, y, x }))
    }

    /// Lets a derived window or pad show the part of its parent from another line and column on. It stays where it is
    /// on the screen.
    ///
    /// # Errors
    /// `NoSuchWindow`, `NotDerived`, `OutsideParent`.
    final fn mvderwin(&mut self, win: WinId, y: u16, x: u16) -> Result<(), Self::Error>
        ensures { Self.made self.old (Call.Making (Making.Mvderwin win y x)) (as_reply no_answer result) self.new }
    {
        self.make(&Call::Making(Making::Mvderwin { win, y, x }))
    }

    /// Moves the cursor to line `y` and column `x`.
    ///
    /// # Errors
    /// `NoSuchWindow`; `OutsideWindow` for a place that the window hasn't.
    final fn wmove(&mut self, win: WinId, y: u16, x: u16) -> Result<(), Self::Error>
        ensures { Self.made self.old (Call.Writing (Writing.Move win y x)) (as_reply no_answer result) self.new }
    {
        self.make(&Call::Writing(Writing::Move { win, y, x }))
    }

    /// Writes a character at the cursor, which advances, from the last column to the next line. Past the last column of
    /// the scroll region's last line the region scrolls, if the window may scroll, and else the cursor stays there. A
    /// newline (code 10), carriage return (13) or backspace (8) moves the cursor.
    ///
    /// # Errors
    /// `NoSuchWindow`; `BadCharacter` for another character outside 32 to 126.
    final fn waddch(&mut self, win: WinId, ch: u8) -> Result<(), Self::Error>
        ensures { Self.made self.old (Call.Writing (Writing.Addch win ch)) (as_reply no_answer result) self.new }
    {
        self.make(&Call::Writing(Writing::Addch { win, ch }))
    }

    /// Writes the characters of a text in order, each as `waddch` does. No character of a refused text is written.
    ///
    /// # Errors
    /// `NoSuchWindow`; `BadCharacter` for a character other than 8, 10, 13 and 32 to 126.
    final fn waddstr(&mut self, win: WinId, text: &[u8]) -> Result<(), Self::Error>
        ensures { Self.made self.old (Call.Writing (Writing.Addstr win text.entry)) (as_reply no_answer result)
            self.new }
    {
        self.make(&Call::Writing(Writing::Addstr { win, text }))
    }

    /// Inserts a character at the cursor, which stays: the cells from there on go one column right, and the last is
    /// lost.
    ///
    /// # Errors
    /// `NoSuchWindow`; `BadCharacter` for a character outside 32 to 126.
    final fn winsch(&mut self, win: WinId, ch: u8) -> Result<(), Self::Error>
        ensures { Self.made self.old (Call.Writing (Writing.Insch win ch)) (as_reply no_answer result) self.new }
    {
        self.make(&Call::Writing(Writing::Insch { win, ch }))
    }

    /// Deletes the character at the cursor, which stays: the cells after it go one column left, and the last is set to
    /// the background.
    ///
    /// # Errors
    /// `NoSuchWindow`.
    final fn wdelch(&mut self, win: WinId) -> Result<(), Self::Error>
        ensures { Self.made self.old (Call.Writing (Writing.Delch win)) (as_reply no_answer result) self.new }
    {
        self.make(&Call::Writing(Writing::Delch { win }))
    }

    /// Moves the cursor's line and those below down by one, loses the last, and sets the cursor's line to the
    /// background.
    ///
    /// # Errors
    /// `NoSuchWindow`.
    final fn winsertln(&mut self, win: WinId) -> Result<(), Self::Error>
        ensures { Self.made self.old (Call.Writing (Writing.Insertln win)) (as_reply no_answer result) self.new }
    {
        self.make(&Call::Writing(Writing::Insertln { win }))
    }

    /// Moves the lines below the cursor's up by one, and sets the last line to the background.
    ///
    /// # Errors
    /// `NoSuchWindow`.
    final fn wdeleteln(&mut self, win: WinId) -> Result<(), Self::Error>
        ensures { Self.made self.old (Call.Writing (Writing.Deleteln win)) (as_reply no_answer result) self.new }
    {
        self.make(&Call::Writing(Writing::Deleteln { win }))
    }

    /// Sets all cells to the background, and the cursor to line 0 and column 0.
    ///
    /// # Errors
    /// `NoSuchWindow`.
    final fn werase(&mut self, win: WinId) -> Result<(), Self::Error>
        ensures { Self.made self.old (Call.Writing (Writing.Erase win)) (as_reply no_answer result) self.new }
    {
        self.make(&Call::Writing(Writing::Erase { win }))
    }

    /// Does as `werase`, and asks for a clear screen where the window is next taken into the virtual screen.
    ///
    /// # Errors
    /// `NoSuchWindow`.
    final fn wclear(&mut self, win: WinId) -> Result<(), Self::Error>
        ensures { Self.made self.old (Call.Writing (Writing.Clear win)) (as_reply no_answer result) self.new }
    {
        self.make(&Call::Writing(Writing::Clear { win }))
    }

    /// Sets the cells from the cursor to the end of its line to the background.
    ///
    /// # Errors
    /// `NoSuchWindow`.
    final fn wclrtoeol(&mut self, win: WinId) -> Result<(), Self::Error>
        ensures { Self.made self.old (Call.Writing (Writing.Clrtoeol win)) (as_reply no_answer result) self.new }
    {
        self.make(&Call::Writing(Writing::Clrtoeol { win }))
    }

    /// Sets the cells from the cursor to the end of its line, and all lines below, to the background.
    ///
    /// # Errors
    /// `NoSuchWindow`.
    final fn wclrtobot(&mut self, win: WinId) -> Result<(), Self::Error>
        ensures { Self.made self.old (Call.Writing (Writing.Clrtobot win)) (as_reply no_answer result) self.new }
    {
        self.make(&Call::Writing(Writing::Clrtobot { win }))
    }

    /// Moves the lines of the scroll region up by `n`, or down by `-n` for a negative one. Those that leave it are
    /// lost, and those that come in are set to the background. The cursor stays.
    ///
    /// # Errors
    /// `NoSuchWindow`; `ScrollingOff` for a window that doesn't scroll.
    final fn wscrl(&mut self, win: WinId, n: i16) -> Result<(), Self::Error>
        ensures { Self.made self.old (Call.Writing (Writing.Scrl win n)) (as_reply no_answer result) self.new }
    {
        self.make(&Call::Writing(Writing::Scrl { win, n }))
    }

    /// Sets the scroll region to the lines from `top` to `bottom`, both inclusive.
    ///
    /// # Errors
    /// `NoSuchWindow`; `BadRegion` if `top` is after `bottom` or `bottom` outside the window.
    final fn wsetscrreg(&mut self, win: WinId, top: u16, bottom: u16) -> Result<(), Self::Error>
        ensures { Self.made self.old (Call.Writing (Writing.Setscrreg win top bottom)) (as_reply no_answer result)
            self.new }
    {
        self.make(&Call::Writing(Writing::Setscrreg { win, top, bottom }))
    }

    /// Sets whether the window scrolls where the cursor leaves the last line of its region. At first it doesn't.
    ///
    /// # Errors
    /// `NoSuchWindow`.
    final fn scrollok(&mut self, win: WinId, flag: bool) -> Result<(), Self::Error>
        ensures { Self.made self.old (Call.Writing (Writing.Scrollok win flag)) (as_reply no_answer result) self.new }
    {
        self.make(&Call::Writing(Writing::Scrollok { win, flag }))
    }

    /// Sets whether the window asks for a clear screen where it is next taken into the virtual screen.
    ///
    /// # Errors
    /// `NoSuchWindow`.
    final fn clearok(&mut self, win: WinId, flag: bool) -> Result<(), Self::Error>
        ensures { Self.made self.old (Call.Writing (Writing.Clearok win flag)) (as_reply no_answer result) self.new }
    {
        self.make(&Call::Writing(Writing::Clearok { win, flag }))
    }

    /// Sets the attributes that written characters get.
    ///
    /// # Errors
    /// `NoSuchWindow`.
    final fn wattrset(&mut self, win: WinId, attrs: Attr) -> Result<(), Self::Error>
        ensures { Self.made self.old (Call.Writing (Writing.Attrset win attrs)) (as_reply no_answer result) self.new }
    {
        self.make(&Call::Writing(Writing::Attrset { win, attrs }))
    }

    /// Adds attributes to those that written characters get.
    ///
    /// # Errors
    /// `NoSuchWindow`.
    final fn wattron(&mut self, win: WinId, attrs: Attr) -> Result<(), Self::Error>
        ensures { Self.made self.old (Call.Writing (Writing.Attron win attrs)) (as_reply no_answer result) self.new }
    {
        self.make(&Call::Writing(Writing::Attron { win, attrs }))
    }

    /// Takes attributes from those that written characters get.
    ///
    /// # Errors
    /// `NoSuchWindow`.
    final fn wattroff(&mut self, win: WinId, attrs: Attr) -> Result<(), Self::Error>
        ensures { Self.made self.old (Call.Writing (Writing.Attroff win attrs)) (as_reply no_answer result) self.new }
    {
        self.make(&Call::Writing(Writing::Attroff { win, attrs }))
    }

    /// Sets the background to a character with attributes, of pair 0. No cell is written.
    ///
    /// # Errors
    /// `NoSuchWindow`; `BadCharacter` for a character outside 32 to 126.
    final fn wbkgdset(&mut self, win: WinId, attrs: Attr, ch: u8) -> Result<(), Self::Error>
        ensures { Self.made self.old (Call.Writing (Writing.Bkgdset win attrs ch)) (as_reply no_answer result)
            self.new }
    {
        self.make(&Call::Writing(Writing::Bkgdset { win, attrs, ch }))
    }

    /// Sets the colour pair that written characters get.
    ///
    /// # Errors
    /// `NoSuchWindow`; `BadPair` for a number past 63.
    final fn wcolor_set(&mut self, win: WinId, pair: u16) -> Result<(), Self::Error>
        ensures { Self.made self.old (Call.Writing (Writing.ColorSet win pair)) (as_reply no_answer result) self.new }
    {
        self.make(&Call::Writing(Writing::ColorSet { win, pair }))
    }

    /// Sets the colour pair of the background. No cell is written.
    ///
    /// # Errors
    /// `NoSuchWindow`; `BadPair` for a number past 63.
    final fn wbkgdpair(&mut self, win: WinId, pair: u16) -> Result<(), Self::Error>
        ensures { Self.made self.old (Call.Writing (Writing.Bkgdpair win pair)) (as_reply no_answer result) self.new }
    {
        self.make(&Call::Writing(Writing::Bkgdpair { win, pair }))
    }

    /// Copies the cells of `src` that aren't spaces to `dst`, at the places of the screen that both cover.
    ///
    /// # Errors
    /// `NoSuchWindow`, `IsPad`, each for either window.
    final fn overlay(&mut self, src: WinId, dst: WinId) -> Result<(), Self::Error>
        ensures { Self.made self.old (Call.Copying (Copying.Overlay src dst)) (as_reply no_answer result) self.new }
    {
        self.make(&Call::Copying(Copying::Overlay { src, dst }))
    }

    /// Copies all cells of `src` to `dst`, at the places of the screen that both cover.
    ///
    /// # Errors
    /// `NoSuchWindow`, `IsPad`, each for either window.
    final fn overwrite(&mut self, src: WinId, dst: WinId) -> Result<(), Self::Error>
        ensures { Self.made self.old (Call.Copying (Copying.Overwrite src dst)) (as_reply no_answer result) self.new }
    {
        self.make(&Call::Copying(Copying::Overwrite { src, dst }))
    }

    /// Copies the cells of `src` from line `sminrow` and column `smincol` on to the lines from `dminrow` to `dmaxrow`
    /// and the columns from `dmincol` to `dmaxcol` of `dst`, all inclusive; if `overlay` is set, spaces are left out.
    /// Windows and pads may be mixed.
    ///
    /// # Errors
    /// `NoSuchWindow` for either window; `BadRectangle` if a last line or column comes before its first;
    /// `OutsideWindow` if the rectangle isn't in `dst`, or that of the same size not in `src`.
    final fn copywin(&mut self, src: WinId, dst: WinId, sminrow: u16, smincol: u16, dminrow: u16, dmincol: u16,
        dmaxrow: u16, dmaxcol: u16, overlay: bool) -> Result<(), Self::Error>
        ensures { Self.made self.old (Call.Copying (Copying.Copywin src dst sminrow smincol dminrow dmincol dmaxrow
            dmaxcol overlay)) (as_reply no_answer result) self.new }
    {
        self.make(&Call::Copying(Copying::Copywin { src, dst, sminrow, smincol, dminrow, dmincol, dmaxrow, dmaxcol,
            overlay }))
    }

    /// Touches all of a window, as if it had been written.
    ///
    /// # Errors
    /// `NoSuchWindow`.
    final fn touchwin(&mut self, win: WinId) -> Result<(), Self::Error>
        ensures { Self.made self.old (Call.Copying (Copying.Touchwin win)) (as_reply no_answer result) self.new }
    {
        self.make(&Call::Copying(Copying::Touchwin { win }))
    }

    /// Untouches all of a window.
    ///
    /// # Errors
    /// `NoSuchWindow`.
    final fn untouchwin(&mut self, win: WinId) -> Result<(), Self::Error>
        ensures { Self.made self.old (Call.Copying (Copying.Untouchwin win)) (as_reply no_answer result) self.new }
    {
        self.make(&Call::Copying(Copying::Untouchwin { win }))
    }

    /// Touches all of `n` lines from line `y` on.
    ///
    /// # Errors
    /// `NoSuchWindow`; `OutsideWindow` if the window hasn't line `y`, or not `n` lines from it on.
    final fn touchline(&mut self, win: WinId, y: u16, n: u16) -> Result<(), Self::Error>
        ensures { Self.made self.old (Call.Copying (Copying.Touchline win y n)) (as_reply no_answer result) self.new }
    {
        self.make(&Call::Copying(Copying::Touchline { win, y, n }))
    }

    /// Touches all of `n` lines from line `y` on, or untouches them if `flag` is not set.
    ///
    /// # Errors
    /// `NoSuchWindow`; `OutsideWindow` if the window hasn't line `y`, or not `n` lines from it on.
    final fn wtouchln(&mut self, win: WinId, y: u16, n: u16, flag: bool) -> Result<(), Self::Error>
        ensures { Self.made self.old (Call.Copying (Copying.Touchln win y n flag)) (as_reply no_answer result)
            self.new }
    {
        self.make(&Call::Copying(Copying::Touchln { win, y, n, flag }))
    }

    /// Touches, in each ancestor of a window, the places that show a touched cell of the window.
    ///
    /// # Errors
    /// `NoSuchWindow`.
    final fn wsyncup(&mut self, win: WinId) -> Result<(), Self::Error>
        ensures { Self.made self.old (Call.Copying (Copying.Syncup win)) (as_reply no_answer result) self.new }
    {
        self.make(&Call::Copying(Copying::Syncup { win }))
    }

    /// Touches, in a window, the places that show a touched cell of an ancestor.
    ///
    /// # Errors
    /// `NoSuchWindow`.
    final fn wsyncdown(&mut self, win: WinId) -> Result<(), Self::Error>
        ensures { Self.made self.old (Call.Copying (Copying.Syncdown win)) (as_reply no_answer result) self.new }
    {
        self.make(&Call::Copying(Copying::Syncdown { win }))
    }

    /// Whether line `y` of a window is touched.
    ///
    /// # Errors
    /// `NoSuchWindow`; `OutsideWindow` if the window hasn't line `y`.
    final fn is_linetouched(&self, win: WinId, y: u16) -> Result<bool, Self::Error>
        ensures { Self.made self.now (Call.Copying (Copying.IsLinetouched win y)) (as_reply Reply.Flag result)
            self.now }
    {
        self.find(&Call::Copying(Copying::IsLinetouched { win, y }))
    }

    /// Whether some line of a window is touched.
    ///
    /// # Errors
    /// `NoSuchWindow`.
    final fn is_wintouched(&self, win: WinId) -> Result<bool, Self::Error>
        ensures { Self.made self.now (Call.Copying (Copying.IsWintouched win)) (as_reply Reply.Flag result) self.now }
    {
        self.find(&Call::Copying(Copying::IsWintouched { win }))
    }

    /// The line and the column of the cursor.
    ///
    /// # Errors
    /// `NoSuchWindow`.
    final fn getyx(&self, win: WinId) -> Result<(u16, u16), Self::Error>
        ensures { Self.made self.now (Call.Query (Query.Getyx win)) (as_reply two_numbers result) self.now }
    {
        self.find(&Call::Query(Query::Getyx { win }))
    }

    /// The line and the column of the screen where the window begins.
    ///
    /// # Errors
    /// `NoSuchWindow`, `IsPad`.
    final fn getbegyx(&self, win: WinId) -> Result<(u16, u16), Self::Error>
        ensures { Self.made self.now (Call.Query (Query.Getbegyx win)) (as_reply two_numbers result) self.now }
    {
        self.find(&Call::Query(Query::Getbegyx { win }))
    }

    /// The number of lines, and the number of columns.
    ///
    /// # Errors
    /// `NoSuchWindow`.
    final fn getmaxyx(&self, win: WinId) -> Result<(u16, u16), Self::Error>
        ensures { Self.made self.now (Call.Query (Query.Getmaxyx win)) (as_reply two_numbers result) self.now }
    {
        self.find(&Call::Query(Query::Getmaxyx { win }))
    }

    /// The line and the column of the parent where a derived window begins.
    ///
    /// # Errors
    /// `NoSuchWindow`, `NotDerived`.
    final fn getparyx(&self, win: WinId) -> Result<(u16, u16), Self::Error>
        ensures { Self.made self.now (Call.Query (Query.Getparyx win)) (as_reply two_numbers result) self.now }
    {
        self.find(&Call::Query(Query::Getparyx { win }))
    }

    /// The cell at the cursor.
    ///
    /// # Errors
    /// `NoSuchWindow`.
    final fn winch(&self, win: WinId) -> Result<Cell, Self::Error>
        ensures { Self.made self.now (Call.Query (Query.Inch win)) (as_reply Reply.Cell result) self.now }
    {
        self.find(&Call::Query(Query::Inch { win }))
    }

    /// Puts a window into a new panel, visible on top. The number is the least free one from 1 on.
    ///
    /// # Errors
    /// `NoSuchWindow`, `StandardScreen`, `IsPad`, `InPanel`, `TooMany`, `NoMemory`.
    final fn new_panel(&mut self, win: WinId) -> Result<PanelId, Self::Error>
        ensures { Self.made self.old (Call.Stacking (Stacking.NewPanel win)) (as_reply its_panel result) self.new }
    {
        self.make(&Call::Stacking(Stacking::NewPanel { win }))
    }

    /// Deletes a panel. Its window stays, and is in no panel any more.
    ///
    /// # Errors
    /// `NoSuchPanel`.
    final fn del_panel(&mut self, panel: PanelId) -> Result<(), Self::Error>
        ensures { Self.made self.old (Call.Stacking (Stacking.DelPanel panel)) (as_reply no_answer result) self.new }
    {
        self.make(&Call::Stacking(Stacking::DelPanel { panel }))
    }

    /// Puts a panel on top, whether it was hidden or visible.
    ///
    /// # Errors
    /// `NoSuchPanel`.
    final fn show_panel(&mut self, panel: PanelId) -> Result<(), Self::Error>
        ensures { Self.made self.old (Call.Stacking (Stacking.ShowPanel panel)) (as_reply no_answer result) self.new }
    {
        self.make(&Call::Stacking(Stacking::ShowPanel { panel }))
    }

    /// Takes a visible panel out of the order.
    ///
    /// # Errors
    /// `NoSuchPanel`, `Hidden`.
    final fn hide_panel(&mut self, panel: PanelId) -> Result<(), Self::Error>
        ensures { Self.made self.old (Call.Stacking (Stacking.HidePanel panel)) (as_reply no_answer result) self.new }
    {
        self.make(&Call::Stacking(Stacking::HidePanel { panel }))
    }

    /// Moves a visible panel to the top.
    ///
    /// # Errors
    /// `NoSuchPanel`, `Hidden`.
    final fn top_panel(&mut self, panel: PanelId) -> Result<(), Self::Error>
        ensures { Self.made self.old (Call.Stacking (Stacking.TopPanel panel)) (as_reply no_answer result) self.new }
    {
        self.make(&Call::Stacking(Stacking::TopPanel { panel }))
    }

    /// Moves a visible panel to the bottom.
    ///
    /// # Errors
    /// `NoSuchPanel`, `Hidden`.
    final fn bottom_panel(&mut self, panel: PanelId) -> Result<(), Self::Error>
        ensures { Self.made self.old (Call.Stacking (Stacking.BottomPanel panel)) (as_reply no_answer result) self.new }
    {
        self.make(&Call::Stacking(Stacking::BottomPanel { panel }))
    }

    /// Moves the window of a panel, visible or hidden, to a place of the screen.
    ///
    /// # Errors
    /// `NoSuchPanel`, `OffScreen`.
    final fn move_panel(&mut self, panel: PanelId, y: u16, x: u16) -> Result<(), Self::Error>
        ensures { Self.made self.old (Call.Stacking (Stacking.MovePanel panel y x)) (as_reply no_answer result)
            self.new }
    {
        self.make(&Call::Stacking(Stacking::MovePanel { panel, y, x }))
    }

    /// Gives a panel another window. The panel keeps its depth, or stays hidden.
    ///
    /// # Errors
    /// `NoSuchPanel`, `NoSuchWindow`, `StandardScreen`, `IsPad`, `InPanel`.
    final fn replace_panel(&mut self, panel: PanelId, win: WinId) -> Result<(), Self::Error>
        ensures { Self.made self.old (Call.Stacking (Stacking.ReplacePanel panel win)) (as_reply no_answer result)
            self.new }
    {
        self.make(&Call::Stacking(Stacking::ReplacePanel { panel, win }))
    }

    /// The panel right above a visible one; of none, the bottom one.
    ///
    /// # Errors
    /// `NoSuchPanel`, `Hidden`.
    final fn panel_above(&self, panel: Option<PanelId>) -> Result<Option<PanelId>, Self::Error>
        ensures { Self.made self.now (Call.Stacking (Stacking.PanelAbove panel)) (as_reply Reply.Panel result)
            self.now }
    {
        self.find(&Call::Stacking(Stacking::PanelAbove { panel }))
    }

    /// The panel right below a visible one; of none, the top one.
    ///
    /// # Errors
    /// `NoSuchPanel`, `Hidden`.
    final fn panel_below(&self, panel: Option<PanelId>) -> Result<Option<PanelId>, Self::Error>
        ensures { Self.made self.now (Call.Stacking (Stacking.PanelBelow panel)) (as_reply Reply.Panel result)
            self.now }
    {
        self.find(&Call::Stacking(Stacking::PanelBelow { panel }))
    }

    /// The window of a panel.
    ///
    /// # Errors
    /// `NoSuchPanel`.
    final fn panel_window(&self, panel: PanelId) -> Result<WinId, Self::Error>
        ensures { Self.made self.now (Call.Stacking (Stacking.PanelWindow panel)) (as_reply Reply.Number result)
            self.now }
    {
        self.find(&Call::Stacking(Stacking::PanelWindow { panel }))
    }

    /// Whether a panel is hidden.
    ///
    /// # Errors
    /// `NoSuchPanel`.
    final fn panel_hidden(&self, panel: PanelId) -> Result<bool, Self::Error>
        ensures { Self.made self.now (Call.Stacking (Stacking.PanelHidden panel)) (as_reply Reply.Flag result)
            self.now }
    {
        self.find(&Call::Stacking(Stacking::PanelHidden { panel }))
    }

    /// Takes what is touched of a window into the virtual screen, at the window's place, with its cursor. Then no place
    /// of it is touched; and if it asked for a clear screen, the virtual screen asks for it instead.
    ///
    /// # Errors
    /// `NoSuchWindow`, `IsPad`.
    final fn wnoutrefresh(&mut self, win: WinId) -> Result<(), Self::Error>
        ensures { Self.made self.old (Call.Refresh (Refresh.Noutrefresh win)) (as_reply no_answer result) self.new }
    {
        self.make(&Call::Refresh(Refresh::Noutrefresh { win }))
    }

    /// Takes the cells of a pad from line `pminrow` and column `pmincol` on into the lines from `sminrow` to `smaxrow`
    /// and the columns from `smincol` to `smaxcol` of the virtual screen, all inclusive, whether they are touched or
    /// not. The cursor stays where it is. Then those lines of the pad are untouched, also beside the rectangle; and if
    /// the pad asked for a clear screen, the virtual screen asks for it instead.
    ///
    /// # Errors
    /// `NoSuchWindow`, `NotPad`; `BadRectangle` if a last line or column comes before its first; `OutsideWindow` if the
    /// rectangle isn't in the pad; `OffScreen` if it isn't on the screen.
    final fn pnoutrefresh(&mut self, pad: WinId, pminrow: u16, pmincol: u16, sminrow: u16, smincol: u16, smaxrow: u16,
        smaxcol: u16) -> Result<(), Self::Error>
        ensures { Self.made self.old (Call.Refresh (Refresh.Pnoutrefresh pad pminrow pmincol sminrow smincol smaxrow
            smaxcol)) (as_reply no_answer result) self.new }
    {
        self.make(&Call::Refresh(Refresh::Pnoutrefresh { pad, pminrow, pmincol, sminrow, smincol, smaxrow, smaxcol }))
    }

    /// Gives a colour pair a foreground and a background: 0 black, 1 red, 2 green, 3 yellow, 4 blue, 5 magenta, 6 cyan,
    /// 7 white. What was written in the pair changes in the next picture.
    ///
    /// # Errors
    /// `BadPair` for pair 0, for one past 63, and for a colour past 7.
    final fn init_pair(&mut self, pair: u16, foreground: u16, background: u16) -> Result<(), Self::Error>
        ensures { Self.made self.old (Call.Refresh (Refresh.InitPair pair foreground background)) (as_reply no_answer
            result) self.new }
    {
        self.make(&Call::Refresh(Refresh::InitPair { pair, foreground, background }))
    }
}

impl<C: Calls> Methods for C {}
