//! Where a line, and a page, are blank up to their end, which one erasure draws.

ghost use Rattle.std.specs.Prelude.{◌≡◌, ◌<◌, ◌≤◌};
ghost use Rattle.paint.specs.{ℕ, ⊤, MatchOption, length, slice_index_or, shown_at, shown_blank, IsLastChange, IsPageEnd};

use crate::changes::Update;
use cell::{Grid, LANES, Shown, last_diff};

/// The blank end of a page, with a changed cell in it.
#[derive(Clone, Copy, Debug)]
pub struct PageEnd {
    /// The first line after which all are blank.
    pub first: u16,
    /// The last changed line, which is after that.
    pub line: u16,
    /// Its last changed column.
    pub column: u16,
}

/// Where the longest blank end of a line begins. Many cells are looked at together.
pub fn tail_start(line: &[Shown]) -> usize
    ensures within { result ≤ length line.now }
    ensures blank { (x : ℕ) → result ≤ x → slice_index_or line.now x shown_blank ≡ shown_blank }
{
    let blanks = [Shown::BLANK; LANES];
    let mut start = line.len();
    while start >= LANES {
        let from = start - LANES;
        if let Some(last) = last_diff(&line[from..start], &blanks) {
            return from + last + 1;
        }
        start = from;
    }
    tail_before(line, start)
}

/// The same of a line that is blank from a column on.
fn tail_before(line: &[Shown], from: usize) -> usize
    requires from { from ≤ length line.now }
    requires blank { (x : ℕ) → from ≤ x → slice_index_or line.now x shown_blank ≡ shown_blank }
    ensures within { result ≤ length line.now }
    ensures blank { (x : ℕ) → result ≤ x → slice_index_or line.now x shown_blank ≡ shown_blank }
{
    let mut start = from;
    while start > 0 {
        if line[start - 1] != Shown::BLANK {
            return start;
        }
        start -= 1;
    }
    start
}

/// The same, of a line with a column that may not be blank: then it is at the line's end, which is not looked for.
pub fn tail_over(line: &[Shown], column: usize) -> usize
    requires { column < length line.now }
    ensures within { result ≤ length line.now }
    ensures blank { (x : ℕ) → result ≤ x → slice_index_or line.now x shown_blank ≡ shown_blank }
{
    if line[column] == Shown::BLANK {
        tail_start(line)
    } else {
        line.len()
    }
}

/// The line from which on, up to one from which on they are, all are blank.
fn blank_lines(picture: &Grid<Shown>, from: u16) -> u16
    requires from { from ≤ length picture.now }
    requires blank { (y x : ℕ) → from ≤ y → shown_at picture.now (y, x) ≡ shown_blank }
    ensures within { result ≤ from }
    ensures blank { (y x : ℕ) → result ≤ y → shown_at picture.now (y, x) ≡ shown_blank }
{
    let mut start = from;
    while start > 0 {
        if tail_start(picture.row(usize::from(start - 1))) > 0 {
            return start;
        }
        start -= 1;
    }
    start
}

/// The blank end of the page, if the last changed place is in it, and a line before that.
pub fn page_end(update: &Update<'_>, line: u16, column: u16) -> Option<PageEnd>
    requires { IsLastChange update.now.shown.now update.now.wanted.now (line, column) }
    ensures { MatchOption result ⊤ (λ end. IsPageEnd update.now.shown.now update.now.wanted.now end) }
{
    let row = update.wanted.row(usize::from(line));
    if row[usize::from(column)] != Shown::BLANK || tail_start(row) > 0 {
        return None;
    }
    let blank = blank_lines(update.wanted, update.lines);
    if blank > line {
        return None;
    }
    let first = blank.saturating_sub(1);
    if first == line {
        return None;
    }
    Some(PageEnd {
        first,
        line,
        column,
    })
}

/// The last changed place of an update.
pub fn last_changed(update: &Update<'_>) -> Option<(u16, u16)>
    ensures { MatchOption result ((y x : ℕ) → shown_at update.now.shown.now (y, x) ≡ shown_at update.now.wanted.now (y, x))
        (λ place. IsLastChange update.now.shown.now update.now.wanted.now place) }
{
    let mut end = update.changes.end();
    while end > 0 {
        let line = end - 1;
        let (shown, wanted) = update.line(line);
        let (from, to) = update.changes.within(line, usize::from(update.columns));
        if let Some(skipped) = last_diff(&shown[from..to], &wanted[from..to]) {
            return Some((line, (from + skipped) as u16));
        }
        end = line;
    }
    None
}
