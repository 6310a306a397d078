//! The words of calls: by group, by first letter, and of each a row. Written by tools/calls from calls.table.

ghost use Rattle.script.specs.Words.{entry_of};
ghost use Rattle.script.specs.steps.Rows.{IsRow};
ghost use Rattle.script.specs.declared.words.Word.TheVariants as word;

use crate::arguments::Arguments;
use crate::words::Form::*;
use crate::words::{Row, Word};
use CopyingWord::*;
use MakingWord::*;
use QueryWord::*;
use RefreshWord::*;
use StackingWord::*;
use WritingWord::*;
use world::{Call, Copying, Making, Query, Refresh, Stacking, Writing};

/// The calls that make windows and pads, delete them, and place them, by their words.
#[rattlefmt::skip]
#[derive(Clone, Copy)]
pub enum MakingWord {
    Newwin, Subwin, Derwin, Newpad, Subpad, Delwin, Mvwin, Mvderwin,
}

/// The calls that write in a window or pad, or set how it is written in, by their words.
#[rattlefmt::skip]
#[derive(Clone, Copy)]
pub enum WritingWord {
    Move, Addch, Addstr, Insch, Delch, Insertln, Deleteln, Erase, Clear, Clrtoeol, Clrtobot, Scrl, Setscrreg, Scrollok,
    Clearok, Attrset, Attron, Attroff, Bkgdset, ColorSet, Bkgdpair,
}

/// The calls that copy cells from window to window, and those on what is touched of a window, by their words.
#[rattlefmt::skip]
#[derive(Clone, Copy)]
pub enum CopyingWord {
    Overlay, Overwrite, Copywin, Touchwin, Untouchwin, Touchline, Touchln, Syncup, Syncdown, IsLinetouched,
    IsWintouched,
}

/// The calls that ask about a window or pad, by their words.
#[rattlefmt::skip]
#[derive(Clone, Copy)]
pub enum QueryWord {
    Getyx, Getbegyx, Getmaxyx, Getparyx, Inch,
}

/// The calls that make panels, delete them, order them and move them, and those that ask about them, by their words.
#[rattlefmt::skip]
#[derive(Clone, Copy)]
pub enum StackingWord {
    NewPanel, DelPanel, ShowPanel, HidePanel, TopPanel, BottomPanel, MovePanel, ReplacePanel, PanelAbove, PanelBelow,
    PanelWindow, PanelHidden,
}

/// The calls that refresh, and the one that sets the colours of a pair, by their words.
#[rattlefmt::skip]
#[derive(Clone, Copy)]
pub enum RefreshWord {
    Noutrefresh, Pnoutrefresh, UpdatePanels, Doupdate, InitPair,
}

/// Each word, in the list of its first letter: `a` has the list 1, as the last five bits of its code say, and `z` the
/// list 26.
#[rattlefmt::skip]
pub const WORDS: [&[Word]; 32] = [
    &[],
    &[
        Word::Writing(Addch), Word::Writing(Addstr), Word::Writing(Attrset), Word::Writing(Attron),
        Word::Writing(Attroff),
    ],
    &[Word::Writing(Bkgdset), Word::Writing(Bkgdpair), Word::Stacking(BottomPanel)],
    &[
        Word::Writing(Clear), Word::Writing(Clrtoeol), Word::Writing(Clrtobot), Word::Writing(Clearok),
        Word::Writing(ColorSet), Word::Copying(Copywin),
    ],
    &[
        Word::Writing(Delch), Word::Writing(Deleteln), Word::Making(Derwin), Word::Making(Delwin),
        Word::Stacking(DelPanel), Word::Refresh(Doupdate),
    ],
    &[Word::Writing(Erase)],
    &[],
    &[Word::Query(Getyx), Word::Query(Getbegyx), Word::Query(Getmaxyx), Word::Query(Getparyx)],
    &[Word::Stacking(HidePanel)],
    &[
        Word::Writing(Insch), Word::Writing(Insertln), Word::Copying(IsLinetouched), Word::Copying(IsWintouched),
        Word::Query(Inch), Word::Refresh(InitPair),
    ],
    &[],
    &[],
    &[],
    &[Word::Writing(Move), Word::Making(Mvwin), Word::Making(Mvderwin), Word::Stacking(MovePanel)],
    &[Word::Making(Newwin), Word::Making(Newpad), Word::Stacking(NewPanel), Word::Refresh(Noutrefresh)],
    &[Word::Copying(Overlay), Word::Copying(Overwrite)],
    &[
        Word::Stacking(PanelAbove), Word::Stacking(PanelBelow), Word::Stacking(PanelWindow),
        Word::Stacking(PanelHidden), Word::Refresh(Pnoutrefresh),
    ],
    &[],
    &[Word::Stacking(ReplacePanel)],
    &[
        Word::Writing(Scrl), Word::Writing(Setscrreg), Word::Writing(Scrollok), Word::Making(Subwin),
        Word::Making(Subpad), Word::Copying(Syncup), Word::Copying(Syncdown), Word::Stacking(ShowPanel),
    ],
    &[Word::Copying(Touchwin), Word::Copying(Touchline), Word::Copying(Touchln), Word::Stacking(TopPanel)],
    &[Word::Copying(Untouchwin), Word::Refresh(UpdatePanels)],
    &[],
    &[],
    &[],
    &[],
    &[],
    &[],
    &[],
    &[],
    &[],
    &[],
];

impl MakingWord {
    /// The word's row, with the call that the arguments make.
    #[rattlefmt::skip]
    #[inline(always)]
    pub(crate) fn row(self, a: &Arguments) -> Row<'_>
        ensures { IsRow result (entry_of (word.Making self)) a.now }
    {
        match self {
            Self::Newwin => Row {
                word: b"newwin", forms: &[Number, Number, Number, Number],
                call: Call::Making(Making::Newwin { lines: a.number(0), columns: a.number(1), y: a.number(2),
                    x: a.number(3) }),
            },
            Self::Subwin => Row {
                word: b"subwin", forms: &[Number, Number, Number, Number, Number],
                call: Call::Making(Making::Subwin { win: a.window(0), lines: a.number(1), columns: a.number(2),
                    y: a.number(3), x: a.number(4) }),
            },
            Self::Derwin => Row {
                word: b"derwin", forms: &[Number, Number, Number, Number, Number],
                call: Call::Making(Making::Derwin { win: a.window(0), lines: a.number(1), columns: a.number(2),
                    y: a.number(3), x: a.number(4) }),
            },
            Self::Newpad => Row {
                word: b"newpad", forms: &[Number, Number],
                call: Call::Making(Making::Newpad { lines: a.number(0), columns: a.number(1) }),
            },
            Self::Subpad => Row {
                word: b"subpad", forms: &[Number, Number, Number, Number, Number],
                call: Call::Making(Making::Subpad { pad: a.window(0), lines: a.number(1), columns: a.number(2),
                    y: a.number(3), x: a.number(4) }),
            },
            Self::Delwin => Row {
                word: b"delwin", forms: &[Number],
                call: Call::Making(Making::Delwin { win: a.window(0) }),
            },
            Self::Mvwin => Row {
                word: b"mvwin", forms: &[Number, Number, Number],
                call: Call::Making(Making::Mvwin { win: a.window(0), y: a.number(1), x: a.number(2) }),
            },
            Self::Mvderwin => Row {
                word: b"mvderwin", forms: &[Number, Number, Number],
                call: Call::Making(Making::Mvderwin { win: a.window(0), y: a.number(1), x: a.number(2) }),
            },
        }
    }
}

impl WritingWord {
    /// The word's row, with the call that the arguments make.
    #[rattlefmt::skip]
    #[inline(always)]
    pub(crate) fn row(self, a: &Arguments) -> Row<'_>
        ensures { IsRow result (entry_of (word.Writing self)) a.now }
    {
        match self {
            Self::Move => Row {
                word: b"move", forms: &[Number, Number, Number],
                call: Call::Writing(Writing::Move { win: a.window(0), y: a.number(1), x: a.number(2) }),
            },
            Self::Addch => Row {
                word: b"addch", forms: &[Number, Character],
                call: Call::Writing(Writing::Addch { win: a.window(0), ch: a.character() }),
            },
            Self::Addstr => Row {
                word: b"addstr", forms: &[Number, Text],
                call: Call::Writing(Writing::Addstr { win: a.window(0), text: a.text() }),
            },
            Self::Insch => Row {
                word: b"insch", forms: &[Number, Character],
                call: Call::Writing(Writing::Insch { win: a.window(0), ch: a.character() }),
            },
            Self::Delch => Row {
                word: b"delch", forms: &[Number],
                call: Call::Writing(Writing::Delch { win: a.window(0) }),
            },
            Self::Insertln => Row {
                word: b"insertln", forms: &[Number],
                call: Call::Writing(Writing::Insertln { win: a.window(0) }),
            },
            Self::Deleteln => Row {
                word: b"deleteln", forms: &[Number],
                call: Call::Writing(Writing::Deleteln { win: a.window(0) }),
            },
            Self::Erase => Row {
                word: b"erase", forms: &[Number],
                call: Call::Writing(Writing::Erase { win: a.window(0) }),
            },
            Self::Clear => Row {
                word: b"clear", forms: &[Number],
                call: Call::Writing(Writing::Clear { win: a.window(0) }),
            },
            Self::Clrtoeol => Row {
                word: b"clrtoeol", forms: &[Number],
                call: Call::Writing(Writing::Clrtoeol { win: a.window(0) }),
            },
            Self::Clrtobot => Row {
                word: b"clrtobot", forms: &[Number],
                call: Call::Writing(Writing::Clrtobot { win: a.window(0) }),
            },
            Self::Scrl => Row {
                word: b"scrl", forms: &[Number, Signed],
                call: Call::Writing(Writing::Scrl { win: a.window(0), n: a.signed() }),
            },
            Self::Setscrreg => Row {
                word: b"setscrreg", forms: &[Number, Number, Number],
                call: Call::Writing(Writing::Setscrreg { win: a.window(0), top: a.number(1), bottom: a.number(2) }),
            },
            Self::Scrollok => Row {
                word: b"scrollok", forms: &[Number, Flag],
                call: Call::Writing(Writing::Scrollok { win: a.window(0), flag: a.flag() }),
            },
            Self::Clearok => Row {
                word: b"clearok", forms: &[Number, Flag],
                call: Call::Writing(Writing::Clearok { win: a.window(0), flag: a.flag() }),
            },
            Self::Attrset => Row {
                word: b"attrset", forms: &[Number, Attributes],
                call: Call::Writing(Writing::Attrset { win: a.window(0), attrs: a.attributes() }),
            },
            Self::Attron => Row {
                word: b"attron", forms: &[Number, Attributes],
                call: Call::Writing(Writing::Attron { win: a.window(0), attrs: a.attributes() }),
            },
            Self::Attroff => Row {
                word: b"attroff", forms: &[Number, Attributes],
                call: Call::Writing(Writing::Attroff { win: a.window(0), attrs: a.attributes() }),
            },
            Self::Bkgdset => Row {
                word: b"bkgdset", forms: &[Number, Attributes, Character],
                call: Call::Writing(Writing::Bkgdset { win: a.window(0), attrs: a.attributes(), ch: a.character() }),
            },
            Self::ColorSet => Row {
                word: b"color_set", forms: &[Number, Number],
                call: Call::Writing(Writing::ColorSet { win: a.window(0), pair: a.number(1) }),
            },
            Self::Bkgdpair => Row {
                word: b"bkgdpair", forms: &[Number, Number],
                call: Call::Writing(Writing::Bkgdpair { win: a.window(0), pair: a.number(1) }),
            },
        }
    }
}

impl CopyingWord {
    /// The word's row, with the call that the arguments make.
    #[rattlefmt::skip]
    #[inline(always)]
    pub(crate) fn row(self, a: &Arguments) -> Row<'_>
        ensures { IsRow result (entry_of (word.Copying self)) a.now }
    {
        match self {
            Self::Overlay => Row {
                word: b"overlay", forms: &[Number, Number],
                call: Call::Copying(Copying::Overlay { src: a.window(0), dst: a.window(1) }),
            },
            Self::Overwrite => Row {
                word: b"overwrite", forms: &[Number, Number],
                call: Call::Copying(Copying::Overwrite { src: a.window(0), dst: a.window(1) }),
            },
            Self::Copywin => Row {
                word: b"copywin", forms: &[Number, Number, Number, Number, Number, Number, Number, Number, Flag],
                call: Call::Copying(Copying::Copywin { src: a.window(0), dst: a.window(1), sminrow: a.number(2),
                    smincol: a.number(3), dminrow: a.number(4), dmincol: a.number(5), dmaxrow: a.number(6),
                    dmaxcol: a.number(7), overlay: a.flag() }),
            },
            Self::Touchwin => Row {
                word: b"touchwin", forms: &[Number],
                call: Call::Copying(Copying::Touchwin { win: a.window(0) }),
            },
            Self::Untouchwin => Row {
                word: b"untouchwin", forms: &[Number],
                call: Call::Copying(Copying::Untouchwin { win: a.window(0) }),
            },
            Self::Touchline => Row {
                word: b"touchline", forms: &[Number, Number, Number],
                call: Call::Copying(Copying::Touchline { win: a.window(0), y: a.number(1), n: a.number(2) }),
            },
            Self::Touchln => Row {
                word: b"touchln", forms: &[Number, Number, Number, Flag],
                call: Call::Copying(Copying::Touchln { win: a.window(0), y: a.number(1), n: a.number(2),
                    flag: a.flag() }),
            },
            Self::Syncup => Row {
                word: b"syncup", forms: &[Number],
                call: Call::Copying(Copying::Syncup { win: a.window(0) }),
            },
            Self::Syncdown => Row {
                word: b"syncdown", forms: &[Number],
                call: Call::Copying(Copying::Syncdown { win: a.window(0) }),
            },
            Self::IsLinetouched => Row {
                word: b"is_linetouched", forms: &[Number, Number],
                call: Call::Copying(Copying::IsLinetouched { win: a.window(0), y: a.number(1) }),
            },
            Self::IsWintouched => Row {
                word: b"is_wintouched", forms: &[Number],
                call: Call::Copying(Copying::IsWintouched { win: a.window(0) }),
            },
        }
    }
}

impl QueryWord {
    /// The word's row, with the call that the arguments make.
    #[rattlefmt::skip]
    #[inline(always)]
    pub(crate) fn row(self, a: &Arguments) -> Row<'_>
        ensures { IsRow result (entry_of (word.Query self)) a.now }
    {
        match self {
            Self::Getyx => Row {
                word: b"getyx", forms: &[Number],
                call: Call::Query(Query::Getyx { win: a.window(0) }),
            },
            Self::Getbegyx => Row {
                word: b"getbegyx", forms: &[Number],
                call: Call::Query(Query::Getbegyx { win: a.window(0) }),
            },
            Self::Getmaxyx => Row {
                word: b"getmaxyx", forms: &[Number],
                call: Call::Query(Query::Getmaxyx { win: a.window(0) }),
            },
            Self::Getparyx => Row {
                word: b"getparyx", forms: &[Number],
                call: Call::Query(Query::Getparyx { win: a.window(0) }),
            },
            Self::Inch => Row { word: b"inch", forms: &[Number], call: Call::Query(Query::Inch { win: a.window(0) }) },
        }
    }
}

impl StackingWord {
    /// The word's row, with the call that the arguments make.
    #[rattlefmt::skip]
    #[inline(always)]
    pub(crate) fn row(self, a: &Arguments) -> Row<'_>
        ensures { IsRow result (entry_of (word.Stacking self)) a.now }
    {
        match self {
            Self::NewPanel => Row {
                word: b"new_panel", forms: &[Number],
                call: Call::Stacking(Stacking::NewPanel { win: a.window(0) }),
            },
            Self::DelPanel => Row {
                word: b"del_panel", forms: &[Number],
                call: Call::Stacking(Stacking::DelPanel { panel: a.panel(0) }),
            },
            Self::ShowPanel => Row {
                word: b"show_panel", forms: &[Number],
                call: Call::Stacking(Stacking::ShowPanel { panel: a.panel(0) }),
            },
            Self::HidePanel => Row {
                word: b"hide_panel", forms: &[Number],
                call: Call::Stacking(Stacking::HidePanel { panel: a.panel(0) }),
            },
            Self::TopPanel => Row {
                word: b"top_panel", forms: &[Number],
                call: Call::Stacking(Stacking::TopPanel { panel: a.panel(0) }),
            },
            Self::BottomPanel => Row {
                word: b"bottom_panel", forms: &[Number],
                call: Call::Stacking(Stacking::BottomPanel { panel: a.panel(0) }),
            },
            Self::MovePanel => Row {
                word: b"move_panel", forms: &[Number, Number, Number],
                call: Call::Stacking(Stacking::MovePanel { panel: a.panel(0), y: a.number(1), x: a.number(2) }),
            },
            Self::ReplacePanel => Row {
                word: b"replace_panel", forms: &[Number, Number],
                call: Call::Stacking(Stacking::ReplacePanel { panel: a.panel(0), win: a.window(1) }),
            },
            Self::PanelAbove => Row {
                word: b"panel_above", forms: &[NumberOrNone],
                call: Call::Stacking(Stacking::PanelAbove { panel: a.panel_or_none() }),
            },
            Self::PanelBelow => Row {
                word: b"panel_below", forms: &[NumberOrNone],
                call: Call::Stacking(Stacking::PanelBelow { panel: a.panel_or_none() }),
            },
            Self::PanelWindow => Row {
                word: b"panel_window", forms: &[Number],
                call: Call::Stacking(Stacking::PanelWindow { panel: a.panel(0) }),
            },
            Self::PanelHidden => Row {
                word: b"panel_hidden", forms: &[Number],
                call: Call::Stacking(Stacking::PanelHidden { panel: a.panel(0) }),
            },
        }
    }
}

impl RefreshWord {
    /// The word's row, with the call that the arguments make.
    #[rattlefmt::skip]
    #[inline(always)]
    pub(crate) fn row(self, a: &Arguments) -> Row<'_>
        ensures { IsRow result (entry_of (word.Refresh self)) a.now }
    {
        match self {
            Self::Noutrefresh => Row {
                word: b"noutrefresh", forms: &[Number],
                call: Call::Refresh(Refresh::Noutrefresh { win: a.window(0) }),
            },
            Self::Pnoutrefresh => Row {
                word: b"pnoutrefresh", forms: &[Number, Number, Number, Number, Number, Number, Number],
                call: Call::Refresh(Refresh::Pnoutrefresh { pad: a.window(0), pminrow: a.number(1),
                    pmincol: a.number(2), sminrow: a.number(3), smincol: a.number(4), smaxrow: a.number(5),
                    smaxcol: a.number(6) }),
            },
            Self::UpdatePanels => Row {
                word: b"update_panels", forms: &[],
                call: Call::Refresh(Refresh::UpdatePanels),
            },
            Self::Doupdate => Row { word: b"doupdate", forms: &[], call: Call::Refresh(Refresh::Doupdate) },
            Self::InitPair => Row {
                word: b"init_pair", forms: &[Number, Number, Number],
                call: Call::Refresh(Refresh::InitPair { pair: a.number(0), foreground: a.number(1),
                    background: a.number(2) }),
            },
        }
    }
}
