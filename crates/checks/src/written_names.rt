//! The names of each call's arguments. Written by tools/calls from calls.table.

ghost use Rattle.checks.specs.Findings.{HasNames};
ghost use Rattle.script.specs.declared.words.Word.TheVariants as words;

use script::{CopyingWord, MakingWord, QueryWord, RefreshWord, StackingWord, Word, WritingWord};

fn of_making(word: MakingWord) -> &'static [u8]
    ensures { HasNames (words.Making word) result.now }
{
    match word {
        MakingWord::Newwin => b"lines columns y x",
        MakingWord::Subwin | MakingWord::Derwin => b"win lines columns y x",
        MakingWord::Newpad => b"lines columns",
        MakingWord::Subpad => b"pad lines columns y x",
        MakingWord::Delwin => b"win",
        MakingWord::Mvwin | MakingWord::Mvderwin => b"win y x",
    }
}

#[rattlefmt::skip]
fn of_writing(word: WritingWord) -> &'static [u8]
    ensures { HasNames (words.Writing word) result.now }
{
    match word {
        WritingWord::Move => b"win y x",
        WritingWord::Addch | WritingWord::Insch => b"win ch",
        WritingWord::Addstr => b"win text",
        WritingWord::Delch | WritingWord::Insertln | WritingWord::Deleteln | WritingWord::Erase | WritingWord::Clear | WritingWord::Clrtoeol |
        WritingWord::Clrtobot => b"win",
        WritingWord::Scrl => b"win n",
        WritingWord::Setscrreg => b"win top bottom",
        WritingWord::Scrollok | WritingWord::Clearok => b"win flag",
        WritingWord::Attrset | WritingWord::Attron | WritingWord::Attroff => b"win attrs",
        WritingWord::Bkgdset => b"win attrs ch",
        WritingWord::ColorSet | WritingWord::Bkgdpair => b"win pair",
    }
}

#[rattlefmt::skip]
fn of_copying(word: CopyingWord) -> &'static [u8]
    ensures { HasNames (words.Copying word) result.now }
{
    match word {
        CopyingWord::Overlay | CopyingWord::Overwrite => b"src dst",
        CopyingWord::Copywin => b"src dst sminrow smincol dminrow dmincol dmaxrow dmaxcol overlay",
        CopyingWord::Touchwin | CopyingWord::Untouchwin | CopyingWord::Syncup | CopyingWord::Syncdown | CopyingWord::IsWintouched => b"win",
        CopyingWord::Touchline => b"win y n",
        CopyingWord::Touchln => b"win y n flag",
        CopyingWord::IsLinetouched => b"win y",
    }
}

#[rattlefmt::skip]
fn of_query(word: QueryWord) -> &'static [u8]
    ensures { HasNames (words.Query word) result.now }
{
    match word {
        QueryWord::Getyx | QueryWord::Getbegyx | QueryWord::Getmaxyx | QueryWord::Getparyx | QueryWord::Inch => b"win",
    }
}

#[rattlefmt::skip]
fn of_stacking(word: StackingWord) -> &'static [u8]
    ensures { HasNames (words.Stacking word) result.now }
{
    match word {
        StackingWord::NewPanel => b"win",
        StackingWord::DelPanel | StackingWord::ShowPanel | StackingWord::HidePanel | StackingWord::TopPanel | StackingWord::BottomPanel |
        StackingWord::PanelAbove | StackingWord::PanelBelow | StackingWord::PanelWindow | StackingWord::PanelHidden => b"panel",
        StackingWord::MovePanel => b"panel y x",
        StackingWord::ReplacePanel => b"panel win",
    }
}

fn of_refresh(word: RefreshWord) -> &'static [u8]
    ensures { HasNames (words.Refresh word) result.now }
{
    match word {
        RefreshWord::Noutrefresh => b"win",
        RefreshWord::Pnoutrefresh => b"pad pminrow pmincol sminrow smincol smaxrow smaxcol",
        RefreshWord::UpdatePanels | RefreshWord::Doupdate => b"",
        RefreshWord::InitPair => b"pair foreground background",
    }
}

/// The names of a call's arguments, in their order, with a space between any two.
pub fn names_of_arguments(word: Word) -> &'static [u8]
    ensures { HasNames word result.now }
{
    match word {
        Word::Making(word) => of_making(word),
        Word::Writing(word) => of_writing(word),
        Word::Copying(word) => of_copying(word),
        Word::Query(word) => of_query(word),
        Word::Stacking(word) => of_stacking(word),
        Word::Refresh(word) => of_refresh(word),
    }
}
