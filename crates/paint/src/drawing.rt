//! Strokes drawn by a pen, one after another or rendition by rendition.

ghost use Rattle.std.specs.Prelude.{◌≡◌, ◌+◌, ◌-◌, ◌<◌, ◌≤◌, ◌++◌, ◌∷◌};
ghost use Rattle.paint.specs.{[], ℕ, ⊤, All, List, MatchOption, None, Some, drop, filter, length, slice_index_or, take, true, Picture, Place, line_of, no_rendition, shown_blank, position_bytes};
ghost use Rattle.paint.specs.{columns_of, LARGEST_SCREEN, Seen, AreDrawn, IsPageEnd, IsStroke, IsUnderWay, IsWay, is_of, no_stroke, HaveOneRendition, cells_between, SameTerminals, DrawsWithin};
ghost use Rattle.paint.specs.{IsPlainAt, most_approach, picture_bytes, run_bytes, with_cells};
ghost use Rattle.paint.specs.declared.pen.Pen.{Pen as AnyPen};
ghost use Rattle.paint.specs.declared.strokes.TheConstants.{ROOM};
ghost use Rattle.paint.specs.declared.strokes.Stroke.{Stroke as AnyStroke};

use crate::blanks::{PageEnd, last_changed, page_end};
use crate::changes::Update;
use crate::line::leading;
use crate::pen::Pen;
use crate::strokes::{Ink, Plan, Stroke};
use crate::tally::NOWHERE;
use cell::{LARGEST_SCREEN, Rendition, Shown, have_rendition};
use ecma::{Positions, position_length};
use streams::Sink;

/// How many bytes it takes to select no rendition.
const PLAIN: usize = 4;

/// How many cells of a gap are printed again at most: the bytes of the longest position.
const MOST_PRINTED: usize = 10;

/// How a pen comes over a gap of cells that are shown already, and selects a rendition.
#[derive(Clone, Copy, Debug)]
pub enum Way {
    /// So many of the cells are printed in the rendition in force, and the others in the one that is selected.
    Printed(usize),
    /// All are printed with no rendition.
    Plain,
    /// By a position.
    Moved,
}

/// Draws the wanted picture of an update over the one that is shown.
pub fn paint<W: Sink>(pen: &mut Pen, plan: &mut Plan, sink: &mut W, update: &Update<'_>)
    requires { pen.old.columns ≡ update.now.columns }
    ensures draws { DrawsWithin (picture_bytes update.now.shown.now update.now.wanted.now) (W.seen sink.old) (W.seen sink.new) pen.old pen.new
        update.now.shown.now update.now.wanted.now }
    ensures same { SameTerminals (W.name sink.old) (W.name sink.new) pen.old pen.new }
{
    let Some((last, column)) = last_changed(update) else {
        return;
    };
    let end = page_end(update, last, column);
    begin_plan(pen, plan);
    let mut line = next_line(plan, update, 0, end);
    while line <= last {
        let after = plan_line(pen, plan, sink, update, line, end);
        line = next_line(plan, update, after, end);
    }
    draw_plan(pen, plan, sink, update);
}

/// Plans no strokes, from where the pen is.
fn begin_plan(pen: &Pen, plan: &mut Plan)
    ensures { plan.new ≡ [] }
{
    plan.clear(pen.cursor().unwrap_or(NOWHERE), pen.rendition());
}

/// The next line to look at, from one on: the first that may differ, or that of the cursor, where it comes before and is
/// in the blank end of the page.
fn next_line(plan: &Plan, update: &Update<'_>, from: u16, end: Option<PageEnd>) -> u16
    ensures from { from ≤ result }
    ensures inside { from ≤ length update.now.changes.now → result ≤ length update.now.changes.now }
    ensures none { (y : ℕ) → from ≤ y → y < result → columns_of update.now.changes.now y ≡ None }
{
    let next = update.changes.next(from);
    let line = plan.line();
    match end {
        Some(end) if from <= line && end.first <= line => next.min(line),
        _ => next,
    }
}

/// Plans the strokes of a line, and answers from which line on none are planned.
fn plan_line<W: Sink>(
    pen: &mut Pen,
    plan: &mut Plan,
    sink: &mut W,
    update: &Update<'_>,
    line: u16,
    end: Option<PageEnd>,
) -> u16
    requires width { pen.old.columns ≡ update.now.columns }
    requires line { line < update.now.lines }
    requires end { MatchOption end ⊤ (λ end. IsPageEnd update.now.shown.now update.now.wanted.now end) }
    requires are { All (IsStroke update.now.shown.now update.now.wanted.now) plan.old }
    ensures under_way { (before : Seen) (begun : AnyPen)
        → IsUnderWay before (W.seen sink.old) begun pen.old update.now.shown.now update.now.wanted.now (line, 0) plan.old
        → IsUnderWay before (W.seen sink.new) begun pen.new update.now.shown.now update.now.wanted.now (result, 0) plan.new }
    ensures after { line < result }
    ensures within { result ≤ update.now.lines }
    ensures same { SameTerminals (W.name sink.old) (W.name sink.new) pen.old pen.new }
{
    make_room(pen, plan, sink, update);
    match end {
        Some(end) if end.first <= line && line < end.line => {
            if plan.add_last_line(update, line, end) {
                update.lines
            } else {
                line + 1
            }
        }
        _ => {
            plan.add_line(update, line);
            line + 1
        }
    }
}

/// Draws the strokes that were planned, where there is no room for those of one more line.
fn make_room<W: Sink>(pen: &mut Pen, plan: &mut Plan, sink: &mut W, update: &Update<'_>)
    requires width { pen.old.columns ≡ update.now.columns }
    requires are { All (IsStroke update.now.shown.now update.now.wanted.now) plan.old }
    ensures under_way { (before : Seen) (begun : AnyPen) (to : Place)
        → IsUnderWay before (W.seen sink.old) begun pen.old update.now.shown.now update.now.wanted.now to plan.old
        → IsUnderWay before (W.seen sink.new) begun pen.new update.now.shown.now update.now.wanted.now to plan.new }
    ensures room { length plan.new + update.now.columns < ROOM }
    ensures same { SameTerminals (W.name sink.old) (W.name sink.new) pen.old pen.new }
{
    if plan.room() <= usize::from(update.columns) {
        draw_plan(pen, plan, sink, update);
        begin_plan(pen, plan);
    }
}

/// Draws the strokes that were planned, in the order that takes fewer bytes, and leaves none.
fn draw_plan<W: Sink>(pen: &mut Pen, plan: &mut Plan, sink: &mut W, update: &Update<'_>)
    requires width { pen.old.columns ≡ update.now.columns }
    requires are { All (IsStroke update.now.shown.now update.now.wanted.now) plan.old }
    ensures under_way { (before : Seen) (begun : AnyPen) (to : Place)
        → IsUnderWay before (W.seen sink.old) begun pen.old update.now.shown.now update.now.wanted.now to plan.old
        → IsUnderWay before (W.seen sink.new) begun pen.new update.now.shown.now update.now.wanted.now to plan.new }
    ensures none { plan.new ≡ [] }
    ensures same { SameTerminals (W.name sink.old) (W.name sink.new) pen.old pen.new }
{
    if plan.is_less_by_pass() {
        draw_passes(pen, sink, update, plan.strokes());
        plan.clear((0, 0), Rendition::NONE);
        return;
    }
    draw_strokes(pen, sink, update, plan.strokes());
    plan.clear((0, 0), Rendition::NONE);
}

/// Draws strokes of an update one after another, after others.
fn draw_strokes<W: Sink>(pen: &mut Pen, sink: &mut W, update: &Update<'_>, strokes: &[Stroke])
    requires width { pen.old.columns ≡ update.now.columns }
    requires are { All (IsStroke update.now.shown.now update.now.wanted.now) strokes.now }
    ensures drawn { (before : Seen) (begun : AnyPen) (others : List AnyStroke)
        → AreDrawn before (W.seen sink.old) begun pen.old update.now.shown.now update.now.wanted.now others
        → AreDrawn before (W.seen sink.new) begun pen.new update.now.shown.now update.now.wanted.now (others ++ strokes.now) }
    ensures same { SameTerminals (W.name sink.old) (W.name sink.new) pen.old pen.new }
{
    for stroke in strokes {
        draw_stroke(pen, sink, update, *stroke);
    }
}

/// Draws them pass by pass.
fn draw_passes<W: Sink>(pen: &mut Pen, sink: &mut W, update: &Update<'_>, strokes: &[Stroke])
    requires width { pen.old.columns ≡ update.now.columns }
    requires are { All (IsStroke update.now.shown.now update.now.wanted.now) strokes.now }
    ensures drawn { (before : Seen) (begun : AnyPen) (others : List AnyStroke)
        → AreDrawn before (W.seen sink.old) begun pen.old update.now.shown.now update.now.wanted.now others
        → AreDrawn before (W.seen sink.new) begun pen.new update.now.shown.now update.now.wanted.now (others ++ strokes.now) }
    ensures same { SameTerminals (W.name sink.old) (W.name sink.new) pen.old pen.new }
{
    for pass in 0..passes_of(strokes) {
        draw_pass(pen, sink, update, strokes, pass);
    }
}

/// How many passes there are: none is drawn in a later one.
fn passes_of(strokes: &[Stroke]) -> usize
    ensures { (k : ℕ) → k < length strokes.now → (slice_index_or strokes.now k no_stroke).pass < result }
{
    let mut most = 0;
    for stroke in strokes {
        most = stroke.pass.max(most);
    }
    usize::from(most) + 1
}

/// Draws those of a pass.
fn draw_pass<W: Sink>(
    pen: &mut Pen,
    sink: &mut W,
    update: &Update<'_>,
    strokes: &[Stroke],
    pass: usize,
)
    requires width { pen.old.columns ≡ update.now.columns }
    requires are { All (IsStroke update.now.shown.now update.now.wanted.now) strokes.now }
    ensures drawn { (before : Seen) (begun : AnyPen) (others : List AnyStroke)
        → AreDrawn before (W.seen sink.old) begun pen.old update.now.shown.now update.now.wanted.now others
        → AreDrawn before (W.seen sink.new) begun pen.new update.now.shown.now update.now.wanted.now (others ++ filter (is_of pass) strokes.now) }
    ensures same { SameTerminals (W.name sink.old) (W.name sink.new) pen.old pen.new }
{
    for stroke in strokes {
        if usize::from(stroke.pass) == pass {
            draw_stroke(pen, sink, update, *stroke);
        }
    }
}

/// Draws a stroke of an update, after others.
fn draw_stroke<W: Sink>(pen: &mut Pen, sink: &mut W, update: &Update<'_>, stroke: Stroke)
    requires width { pen.old.columns ≡ update.now.columns }
    requires is { IsStroke update.now.shown.now update.now.wanted.now stroke }
    ensures drawn { (before : Seen) (begun : AnyPen) (strokes : List AnyStroke)
        → AreDrawn before (W.seen sink.old) begun pen.old update.now.shown.now update.now.wanted.now strokes
        → AreDrawn before (W.seen sink.new) begun pen.new update.now.shown.now update.now.wanted.now (strokes ++ stroke ∷ []) }
    ensures same { SameTerminals (W.name sink.old) (W.name sink.new) pen.old pen.new }
{
    let (_, wanted) = update.line(stroke.line);
    let positions = update.positions;
    let (line, gap, start) = (
        stroke.line,
        usize::from(stroke.gap),
        usize::from(stroke.start),
    );
    match stroke.ink {
        Ink::Print => {
            let end = usize::from(stroke.end);
            print_cells(pen, sink, positions, line, wanted, gap, start, end);
        }
        Ink::EraseLine => {
            come_plain(pen, sink, positions, line, stroke.gap, &wanted[gap..start]);
            pen.erase_line(sink, line, stroke.start);
        }
        Ink::ErasePage => {
            come_plain(pen, sink, positions, line, stroke.gap, &wanted[gap..start]);
            pen.erase_page(sink, line, stroke.start);
        }
    }
}

/// Brings the pen to the end of a gap, with no rendition.
fn come_plain<W: Sink>(
    pen: &mut Pen,
    sink: &mut W,
    positions: &Positions,
    line: u16,
    start: u16,
    gap: &[Shown],
)
    requires line { line < positions.now }
    requires inside { start + length gap.now < pen.old.columns }
    requires columns { pen.old.columns ≤ positions.now }
    requires few { positions.now ≤ LARGEST_SCREEN }
    ensures draws { (picture : Picture) → length (line_of picture line) ≡ pen.old.columns
        → take (length gap.now) (drop start (line_of picture line)) ≡ gap.now
        → DrawsWithin (most_approach no_rendition) (W.seen sink.old) (W.seen sink.new) pen.old pen.new picture picture }
    ensures plain { IsPlainAt pen.new (line, start + length gap.now) }
    ensures same { SameTerminals (W.name sink.old) (W.name sink.new) pen.old pen.new }
{
    let way = way_over(pen, line, start, gap, Rendition::NONE);
    come_to(
        pen,
        sink,
        positions,
        (line, start),
        gap,
        Rendition::NONE,
        way,
    );
}

/// Draws cells of one rendition, from a column up to another, after a gap of cells that are shown already. Where these
/// have that rendition too, they are printed with them.
#[inline(always)]
fn print_cells<W: Sink>(
    pen: &mut Pen,
    sink: &mut W,
    positions: &Positions,
    line: u16,
    wanted: &[Shown],
    gap: usize,
    start: usize,
    end: usize,
)
    requires line { line < positions.now }
    requires inside { length wanted.now ≤ positions.now }
    requires few { positions.now ≤ LARGEST_SCREEN }
    requires width { pen.old.columns ≡ length wanted.now }
    requires gap { gap ≤ start }
    requires run { HaveOneRendition wanted.now start end }
    ensures draws { (picture : Picture) → length (line_of picture line) ≡ pen.old.columns
        → cells_between gap start (line_of picture line) ≡ cells_between gap start wanted.now
        → DrawsWithin (run_bytes (cells_between start end wanted.now)) (W.seen sink.old) (W.seen sink.new) pen.old pen.new picture
        (with_cells picture (line, start) (cells_between start end wanted.now)) }
    ensures same { SameTerminals (W.name sink.old) (W.name sink.new) pen.old pen.new }
{
    let rendition = wanted[start].rendition();
    let from = gap as u16;
    let before = &wanted[gap..start];
    let way = way_over(pen, line, from, before, rendition);
    if let Way::Printed(count) = way {
        print_again(pen, sink, line, from, &before[..count]);
        pen.select(sink, rendition);
        let next = gap + count;
        pen.print_run(sink, line, next as u16, &wanted[next..end]);
        return;
    }
    come_to(pen, sink, positions, (line, from), before, rendition, way);
    pen.print_run(sink, line, start as u16, &wanted[start..end]);
}

/// Brings the pen to the end of a gap, in a rendition.
#[inline(always)]
fn come_to<W: Sink>(
    pen: &mut Pen,
    sink: &mut W,
    positions: &Positions,
    from: (u16, u16),
    gap: &[Shown],
    rendition: Rendition,
    way: Way,
)
    requires line { from.0 < positions.now }
    requires inside { from.1 + length gap.now < pen.old.columns }
    requires columns { pen.old.columns ≤ positions.now }
    requires few { positions.now ≤ LARGEST_SCREEN }
    requires way { IsWay way pen.old from gap.now rendition }
    ensures draws { (picture : Picture) → length (line_of picture from.0) ≡ pen.old.columns
        → take (length gap.now) (drop from.1 (line_of picture from.0)) ≡ gap.now
        → DrawsWithin (most_approach rendition) (W.seen sink.old) (W.seen sink.new) pen.old pen.new picture picture }
    ensures rendition { pen.new.rendition ≡ rendition }
    ensures cursor { pen.new.cursor ≡ Some (from.0, from.1 + length gap.now) }
    ensures same { SameTerminals (W.name sink.old) (W.name sink.new) pen.old pen.new }
{
    let (line, start) = from;
    match way {
        Way::Printed(count) => {
            print_again(pen, sink, line, start, &gap[..count]);
            pen.select(sink, rendition);
            print_again(pen, sink, line, start + count as u16, &gap[count..]);
        }
        Way::Plain => {
            pen.select(sink, Rendition::NONE);
            pen.print_run(sink, line, start, gap);
            pen.select(sink, rendition);
        }
        Way::Moved => {
            pen.go(sink, positions, line, start + gap.len() as u16);
            pen.select(sink, rendition);
        }
    }
}

/// Prints cells of a gap again, which begin at the pen.
#[inline(always)]
fn print_again<W: Sink>(pen: &mut Pen, sink: &mut W, line: u16, start: u16, cells: &[Shown])
    requires inside { start + length cells.now < pen.old.columns }
    requires columns { pen.old.columns ≤ LARGEST_SCREEN }
    requires cursor { pen.old.cursor ≡ Some (line, start) }
    requires rendition { (k : ℕ) → k < length cells.now → (slice_index_or cells.now k shown_blank).rendition ≡ pen.old.rendition }
    ensures draws { (picture : Picture) → length (line_of picture line) ≡ pen.old.columns
        → ((k : ℕ) → k < length cells.now → slice_index_or cells.now k shown_blank ≡ slice_index_or (line_of picture line) (start + k) shown_blank)
        → DrawsWithin (length cells.now) (W.seen sink.old) (W.seen sink.new) pen.old pen.new picture picture }
    ensures rendition { pen.new.rendition ≡ pen.old.rendition }
    ensures cursor { pen.new.cursor ≡ Some (line, start + length cells.now) }
    ensures same { SameTerminals (W.name sink.old) (W.name sink.new) pen.old pen.new }
{
    if !cells.is_empty() {
        pen.print_run(sink, line, start, cells);
    }
}

/// How a pen comes over a gap before a selection: by what takes fewer bytes, or as many.
#[inline(always)]
fn way_over(pen: &Pen, line: u16, start: u16, gap: &[Shown], rendition: Rendition) -> Way
    requires line { line < LARGEST_SCREEN }
    requires inside { start + length gap.now < LARGEST_SCREEN }
    ensures { IsWay result pen.now (line, start) gap.now rendition }
{
    if gap.len() > MOST_PRINTED || gap.is_empty() {
        return Way::Moved;
    }
    if !pen.is_at(line, start) {
        return Way::Moved;
    }
    let moved = position_length(line, start + gap.len() as u16);
    if gap.len() > moved {
        return Way::Moved;
    }
    let count = leading(gap, pen.rendition());
    if have_rendition(&gap[count..], rendition) {
        return Way::Printed(count);
    }
    if gap.len() + PLAIN >= moved || pen.rendition() == rendition {
        return Way::Moved;
    }
    if have_rendition(gap, Rendition::NONE) {
        Way::Plain
    } else {
        Way::Moved
    }
}
