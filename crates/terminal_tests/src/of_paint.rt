//! What a painter sends, also after a write or a flush that failed.

ghost use Rattle.std.specs.Prelude.{◌≡◌, IfOk, false};
ghost use Rattle.cell.specs.Pictures.{HasSize};

use cell::{Attr, Colour, ColourPair, Grid, Refusal, Rendition, Shown, VirtualScreen};
use paint::{Counted, Painter, Sent, Sink, WriteFault};
use std::alloc::Global;
use std::test::Fail;
use test_streams::Halting;

/// A picture with the cursor at a place, which wants no clear screen.
#[derive(Drop)]
struct Plain {
    picture: Grid<Shown>,
    cursor: (u16, u16),
}

impl VirtualScreen for Plain {
    ghost shown = { λ plain. record { picture = plain.picture; cursor = plain.cursor; clear = false } };

    fn virtual_screen(&self) -> &Grid<Shown> {
        &self.picture
    }

    fn wanted_cursor(&self) -> (u16, u16) {
        self.cursor
    }

    fn clear_wanted(&self) -> bool {
        false
    }
}

/// A cell of a character.
fn cell(character: u8, rendition: Rendition) -> Result<Shown, Refusal> {
    Shown::new(character, rendition).ok_or(Refusal::BadCharacter)
}

/// The screen of 4 lines and 10 columns with the word hi at its top, the cursor after it, and the text that shows it.
fn greeting(alloc: Global) -> Result<Plain, Refusal>
    ensures size { IfOk result (λ plain. HasSize 4 10 plain.picture) }
    ensures cursor { IfOk result (λ plain. plain.cursor ≡ (0, 2)) }
{
    let (h, i) = (cell(b'h', Rendition::NONE)?, cell(b'i', Rendition::NONE)?);
    let mut picture = Grid::new(alloc, 4, 10)?;
    picture.set(0, 0, h);
    picture.set(0, 1, i);
    Ok(Plain {
        picture,
        cursor: (0, 2),
    })
}

/// Sets two cells of line 2 to letters in colours.
fn colour(screen: &mut Plain) -> Result<(), Refusal>
    requires { HasSize 4 10 screen.old.picture }
    ensures size { HasSize 4 10 screen.new.picture }
    ensures cursor { IfOk result (λ nothing. screen.new.cursor ≡ (2, 6)) }
{
    let pair = ColourPair {
        foreground: Some(Colour::RED),
        background: Some(Colour::BLUE),
    };
    let rendition = Rendition::new(Attr::REVERSE, pair);
    let (a, b) = (cell(b'a', rendition)?, cell(b'b', rendition)?);
    screen.picture.set(2, 4, a);
    screen.picture.set(2, 5, b);
    screen.cursor = (2, 6);
    Ok(())
}

/// How many bytes a first update sends, one that draws two cells, one that moves the cursor, and one that shows all.
fn update_four_times<W: Sink>(
    painter: &mut Painter,
    screen: &mut Plain,
    sink: &mut W,
) -> Result<[Sent; 4], Fail>
    requires lines { painter.old.lines ≡ 4 }
    requires columns { painter.old.columns ≡ 10 }
    requires size { HasSize 4 10 screen.old.picture }
    requires cursor { screen.old.cursor ≡ (0, 2) }
{
    let first = painter.doupdate(&*screen, sink)?;
    colour(screen)?;
    let drawn = painter.doupdate(&*screen, sink)?;
    screen.cursor = (0, 0);
    let moved = painter.doupdate(&*screen, sink)?;
    painter.invalidate();
    let again = painter.doupdate(&*screen, sink)?;
    Ok([first, drawn, moved, again])
}

/// The same by a new painter.
fn update_new(alloc: Global, sink: &mut Counted<Vec<u8>>) -> Result<[Sent; 4], Fail> {
    let mut screen = greeting(alloc)?;
    let mut painter = Painter::new(alloc, 4, 10)?;
    let sent = update_four_times(&mut painter, &mut screen, sink);
    drop(painter);
    sent
}

#[test]
fn what_differs_is_drawn_and_all_where_nothing_is_known(rt: HostRuntime) -> Result<(), Fail> {
    let mut sink = Counted::new(Vec::new(rt.alloc()));
    let sent = update_new(rt.alloc(), &mut sink)?;
    assert_eq!(rt;
        [sent[0].bytes, sent[1].bytes, sent[2].bytes, sent[3].bytes],
        [16, 24, 6, 46]
    );
    let frames = b"\x1b[0m\x1b[2J\x1b[1;1Hhi\
        \x1b[3;5H\x1b[0;7;31;44mab\x1b[0m\
        \x1b[1;1H\
        \x1b[0m\x1b[2J\x1b[1;1Hhi\x1b[3;5H\x1b[0;7;31;44mab\x1b[0m\x1b[1;1H";
    assert!(rt; sink.get_ref().as_slice() == frames.as_slice());
    Ok(())
}

/// What two updates of a sink answer.
type Updates = [Result<Sent, WriteFault>; 2];

/// Makes two updates of a screen.
fn update_twice(painter: &mut Painter, screen: &Plain, sink: &mut Counted<Halting>) -> Updates
    requires lines { painter.old.lines ≡ 4 }
    requires columns { painter.old.columns ≡ 10 }
    requires size { HasSize 4 10 screen.now.picture }
    requires cursor { screen.now.cursor ≡ (0, 2) }
{
    [
        painter.doupdate(screen, sink),
        painter.doupdate(screen, sink),
    ]
}

/// The same by a new painter.
fn update_faulty(alloc: Global, sink: &mut Counted<Halting>) -> Result<Updates, Refusal> {
    let screen = greeting(alloc)?;
    let mut painter = Painter::new(alloc, 4, 10)?;
    let updates = update_twice(&mut painter, &screen, sink);
    drop(painter);
    Ok(updates)
}

/// Whether all is shown after a write that fails, or takes nothing, once five bytes are sent.
fn is_shown_again(alloc: Global, fails: bool) -> Result<bool, Refusal> {
    let mut sink = Counted::new(Halting::until(alloc, 5, fails));
    let sent = update_faulty(alloc, &mut sink)?;
    let stream = b"\x1b[0m\x1b\x1b[0m\x1b[2J\x1b[1;1Hhi";
    Ok(
        sent == [Err(WriteFault { sent: 5 }), Ok(Sent { bytes: 16 })]
            && sink.get_ref().taken.as_slice() == stream.as_slice(),
    )
}

#[test]
fn all_is_shown_after_a_fault(rt: HostRuntime) {
    for fails in [true, false] {
        assert!(rt;
            is_shown_again(rt.alloc(), fails) == Ok(true),
            "fails: {fails}"
        );
    }
}

#[test]
fn a_flush_that_fails_is_a_fault(rt: HostRuntime) -> Result<(), Fail> {
    let mut sink = Counted::new(Halting::in_pieces(rt.alloc(), usize::MAX, true));
    let sent = update_faulty(rt.alloc(), &mut sink)?;
    assert!(rt; sent == [Err(WriteFault { sent: 16 }); 2]);
    let shown = b"\x1b[0m\x1b[2J\x1b[1;1Hhi".as_slice();
    assert!(rt; sink.get_ref().taken.get(..16) == Some(shown));
    Ok(())
}

/// Why there is no painter of a size, if there is none.
fn refusal(alloc: Global, lines: u16, columns: u16) -> Option<Refusal> {
    Painter::new(alloc, lines, columns).err()
}

#[test]
fn a_painter_has_1_to_999_lines_and_columns(rt: HostRuntime) {
    for (lines, columns) in [(0, 1), (1, 0), (1000, 1), (1, 1000)] {
        let refusal = refusal(rt.alloc(), lines, columns);
        assert!(rt; refusal == Some(Refusal::BadSize), "of {lines}, {columns}");
    }
    assert_eq!(rt; refusal(rt.alloc(), 999, 999), None);
}
