//! A painter: it sends pictures to terminals of one size.

ghost use Rattle.std.specs.Prelude.{◌≡◌, ◌<◌, ◌≤◌, ◌↔◌, ◌⊎◌, ◌||◌, if◌then◌else◌};
ghost use Rattle.paint.specs.{ℕ, ⊤, MatchOption, length, Bool, IfNone, IfOk, IfErr, IsErrOf, IsTrue, None, option_map_or, HasSize, Picture, Place, blank_picture, origin, is_no_size, LARGEST_SCREEN};
ghost use Rattle.paint.specs.{Seen, DifferOnly, CanShow, PainterState, ShownPicture, UpdateEnds, UpdateMade, first_painter, known_picture, opening_from, start_from, IsGathered, CanDraw, HoldsUpdate};
ghost use Rattle.paint.specs.{IsStart, last_shown, SameTerminals};

use crate::changes::Update;
use crate::drawing::paint;
use crate::pen::Pen;
use crate::strokes::Plan;
use cell::{Grid, LARGEST_SCREEN, Refusal, Shown, VirtualScreen, is_no_size};
use ecma::Positions;
use extents::Extents;
use std::alloc::Global;
use std::marker::Model;
use streams::{Sent, Sink, WriteFault};

/// Sends pictures to terminals of one size, and knows which picture and cursor it showed there last.
#[derive(Drop)]
pub struct Painter {
    lines: u16,
    columns: u16,
    picture: Grid<Shown>,
    // The line and column where the cursor was put with the picture, and none where what was shown last is unknown.
    cursor: Option<(u16, u16)>,
    // Where a picture may differ from what was shown last.
    changes: Extents,
    positions: Positions,
    pen: Pen,
    plan: Plan,
}

impl Model for Painter {
    ghost use Rattle.std.specs.Option.{option_map};
    ghost use Rattle.std.specs.Prelude.{◌≡◌, ◌≤◌, length};
    ghost use Rattle.cell.specs.Pictures.{HasSize};
    ghost use Rattle.cell.specs.declared.limits.TheConstants.{LARGEST_SCREEN};
    ghost use Rattle.paint.specs.Doupdates.{PainterState};

    ghost Value = { PainterState };

    ghost view = { λ p. record {
      lines = p.lines;
      columns = p.columns;
      last = option_map (λ cursor. record { picture = p.picture; cursor = cursor }) p.cursor;
    } };

    ghost invariant = { λ p. (p.lines ≤ LARGEST_SCREEN) × (p.columns ≤ LARGEST_SCREEN) × HasSize p.lines p.columns p.picture
        × (length p.changes ≡ p.lines) × (p.pen.columns ≡ p.columns) × (p.lines ≤ p.positions) × (p.columns ≤ p.positions)
        × (p.positions ≤ LARGEST_SCREEN) };
}

impl Painter {
    /// A painter that knows nothing of its terminals. They have 1 to `LARGEST_SCREEN` lines and columns; another size
    /// is refused as `BadSize`, and the only other refusal is `NoMemory`.
    pub fn new(alloc: Global, lines: u16, columns: u16) -> Result<Painter, Refusal>
        ensures ok { IfOk result (λ painter. painter ≡ first_painter lines columns) }
        ensures size { IsErrOf result Refusal.BadSize ↔ IsTrue (is_no_size LARGEST_SCREEN lines || is_no_size LARGEST_SCREEN columns) }
        ensures memory { IfErr result (λ refusal. (refusal ≡ Refusal.BadSize) ⊎ (refusal ≡ Refusal.NoMemory)) }
    {
        if is_no_size(LARGEST_SCREEN, lines) || is_no_size(LARGEST_SCREEN, columns) {
            return Err(Refusal::BadSize);
        }
        let picture = Grid::new(alloc, lines, columns)?;
        let changes = Extents::none(alloc, lines)?;
        let positions = Positions::new(alloc, lines.max(columns))?;
        let pen = Pen::new(alloc, columns)?;
        let plan = Plan::new(alloc)?;
        Ok(Painter {
            lines,
            columns,
            picture,
            cursor: None,
            changes,
            positions,
            pen,
            plan,
        })
    }

    /// What it showed last is unknown from now on, as after a change of terminals.
    pub fn invalidate(&mut self)
        ensures { self.new ≡ record self.old { last = None } }
    {
        self.cursor = None;
    }

    /// Shows a virtual screen of the painter's size: it sends one text and flushes once. Where nothing is known of the
    /// terminals, or they are to be cleared, the text clears the terminal first, and may be read by any one of the
    /// size. Else it is for those that show the last picture, and draws what differs from that. After an error what was
    /// shown last is unknown.
    pub fn doupdate<V: VirtualScreen, W: Sink>(
        &mut self,
        screen: &V,
        sink: &mut W,
    ) -> Result<Sent, WriteFault>
        requires { CanShow self.old (V.shown screen.now) }
        ensures { UpdateMade W.seen W.name self.old sink.old (V.shown screen.now) result self.new sink.new }
    {
        self.doupdate_changes(screen, None, sink)
    }

    /// The same, of a virtual screen that differs from what was shown last in some columns only, where that is known.
    /// It looks at these columns alone, unless it clears.
    pub fn doupdate_changes<'a, V: VirtualScreen, W: Sink>(
        &mut self,
        screen: &'a V,
        changes: Option<&'a Extents>,
        sink: &mut W,
    ) -> Result<Sent, WriteFault>
        requires can { CanShow self.old (V.shown screen.now) }
        requires height { MatchOption changes ⊤ (λ changes. length changes.now ≡ self.old.lines) }
        requires changes { MatchOption changes ⊤ (λ changes.
            MatchOption self.old.last ⊤ (λ shown. DifferOnly changes.now shown.picture (V.shown screen.now).picture)) }
        ensures { UpdateMade W.seen W.name self.old sink.old (V.shown screen.now) result self.new sink.new }
    {
        let picture = screen.virtual_screen();
        let cursor = screen.wanted_cursor();
        let known = known_cursor(self.cursor, screen.clear_wanted());
        self.cursor = None;
        let size = (self.lines, self.columns);
        let given = given_where_known(known, changes);
        fill_unless(&mut self.changes, given, size.1);
        begin(&mut self.pen, sink, &mut self.picture, known);
        let changes = given.unwrap_or(&self.changes);
        let update = Update {
            lines: size.0,
            columns: size.1,
            shown: &self.picture,
            wanted: picture,
            changes,
            positions: &self.positions,
        };
        let sent = send_update(&mut self.pen, &mut self.plan, sink, &update, cursor)?;
        copy_changes(&mut self.picture, picture, size.1, changes);
        self.cursor = Some(cursor);
        Ok(sent)
    }
}

/// The changes that are given, where it is known what is shown.
fn given_where_known<'a>(
    known: Option<(u16, u16)>,
    changes: Option<&'a Extents>,
) -> Option<&'a Extents>
    ensures { result ≡ option_map_or (λ _. changes.entry) known None }
{
    if known.is_some() { changes } else { None }
}

/// Unless changes are given, all columns, of lines of so many: two pictures of that size differ in no others.
fn fill_unless(own: &mut Extents, given: Option<&Extents>, columns: u16)
    requires lines { 0 < length own.old }
    requires some { 0 < columns }
    ensures height { length own.new ≡ length own.old }
    ensures only { IfNone given.entry ((shown wanted : Picture) → HasSize (length own.old) columns shown → HasSize (length own.old) columns wanted
        → DifferOnly own.new shown wanted) }
{
    if given.is_none() {
        own.fill(columns);
    }
}

/// Begins a text at the cursor that is known. Where none is, the text clears the terminal first, which then shows a blank
/// picture.
fn begin<W: Sink>(pen: &mut Pen, sink: &mut W, shown: &mut Grid<Shown>, known: Option<(u16, u16)>)
    ensures gathered { IsGathered (W.seen sink.old) (W.seen sink.new) pen.new.outbox (opening_from (last_shown shown.old known)) }
    ensures start { (painter : PainterState) → HasSize painter.lines painter.columns shown.old
        → IsStart painter (last_shown shown.old known) pen.new shown.new }
    ensures same { SameTerminals (W.name sink.old) (W.name sink.new) pen.old pen.new }
{
    match known {
        Some(cursor) => pen.begin(cursor),
        None => {
            shown.clear();
            pen.begin((0, 0));
            pen.open(sink);
        }
    }
}

/// Sends what differs in an update, after what begins the text, then the cursor, and flushes.
fn send_update<W: Sink>(
    pen: &mut Pen,
    plan: &mut Plan,
    sink: &mut W,
    update: &Update<'_>,
    cursor: (u16, u16),
) -> Result<Sent, WriteFault>
    requires { CanDraw pen.old update.now.lines update.now.columns cursor }
    ensures text { (painter : PainterState) (clear : Bool) (start : Seen) → painter.lines ≡ update.now.lines → painter.columns ≡ update.now.columns
        → IsGathered start (W.seen sink.old) pen.old.outbox (opening_from (known_picture painter clear))
        → IsStart painter (known_picture painter clear) pen.old update.now.shown.now
        → UpdateEnds painter clear start (W.seen sink.new) (record { picture = update.now.wanted.now; cursor = cursor }) result }
    ensures same { SameTerminals (W.name sink.old) (W.name sink.new) pen.old pen.new }
{
    paint(pen, plan, sink, update);
    pen.end(sink, update.positions, cursor);
    send_text(pen, sink)
}

/// Takes over the columns of a picture, of lines of so many, in which it may differ from another.
fn copy_changes(shown: &mut Grid<Shown>, wanted: &Grid<Shown>, columns: u16, changes: &Extents)
    requires shown { HasSize (length changes.now) columns shown.old }
    requires wanted { HasSize (length changes.now) columns wanted.now }
    requires changes { DifferOnly changes.now shown.old wanted.now }
    ensures { shown.new ≡ wanted.now }
{
    let lines = changes.height();
    let mut y = changes.next(0);
    while y < lines {
        let at = usize::from(y);
        let (start, end) = changes.within(y, usize::from(columns));
        shown.put_cells(at, start, &wanted.row(at)[start..end]);
        y = changes.next(y + 1);
    }
}

/// Where the cursor is known to be, unless a clear screen is asked for.
fn known_cursor(cursor: Option<(u16, u16)>, clear: bool) -> Option<(u16, u16)>
    ensures { result ≡ (if clear then None else cursor) }
{
    if clear { None } else { cursor }
}

/// Sends what is left of a text, and flushes.
fn send_text<W: Sink>(pen: &mut Pen, sink: &mut W) -> Result<Sent, WriteFault>
    ensures text { (painter : PainterState) (clear : Bool) (wanted : ShownPicture) (start : Seen)
        → HoldsUpdate painter clear wanted start (W.seen sink.old) pen.old.outbox
        → UpdateEnds painter clear start (W.seen sink.new) wanted result }
    ensures same { SameTerminals (W.name sink.old) (W.name sink.new) pen.old pen.new }
{
    let sent = pen.finish(sink)?;
    match sink.flush() {
        Ok(()) => Ok(Sent { bytes: sent }),
        Err(_) => Err(WriteFault { sent }),
    }
}
