//! Keys, as C gets them.

ghost use Rattle.std.specs.Prelude.{◌≡◌, ◌≤◌, Some};
ghost use Rattle.capi.specs.KeyHandles.{fed_of};
ghost use Rattle.capi.specs.Keys.{IsNoEvent, asked_of, bit, flags_of, held_of, name_of, plain, taken_of};

use keys::{Action, Asked, Key, Modifiers, Name, Progress, Taken};

/// A key, and how many bytes it took. The kind is 0 for none, 1 for a key that was pressed, 2 for an unknown one, 3 to
/// 5 for a pasted text's begin, its bytes and its end, 6 for the mouse, and 7 and 8 for the focus in and out.
#[repr(C)]
#[derive(Clone, Copy, PartialEq, Eq)]
pub struct CTaken {
    pub kind: u32,
    pub code: u32,
    pub modifiers: u32,
    pub flags: u32,
    pub column: u32,
    pub line: u32,
    pub count: usize,
}

/// How many bytes were read, and the keys that the last of them answered, in their order.
#[repr(C)]
#[derive(Clone, Copy, PartialEq, Eq)]
pub struct CFed {
    pub used: usize,
    pub first: CTaken,
    pub second: CTaken,
}

impl CFed {
    pub fn of(progress: Progress) -> CFed
        ensures fed { result ≡ fed_of progress }
        ensures first { IsNoEvent result.first }
        ensures second { IsNoEvent result.second }
    {
        CFed {
            used: progress.used,
            first: CTaken::of(progress.answer.first),
            second: CTaken::of(progress.answer.second),
        }
    }
}

impl CTaken {
    pub const NONE: CTaken = CTaken {
        kind: 0,
        code: 0,
        modifiers: 0,
        flags: 0,
        column: 0,
        line: 0,
        count: 0,
    };

    /// The key that was taken, or none.
    #[inline(always)]
    pub fn of(taken: Option<Taken>) -> CTaken
        ensures taken { result ≡ taken_of taken }
        ensures no_event { IsNoEvent result }
    {
        match taken {
            Some(taken) => CTaken::of_key(taken.key, taken.count),
            None => CTaken::NONE,
        }
    }

    fn of_key(key: Key, count: usize) -> CTaken
        ensures taken { result ≡ taken_of (Some (record { key = key; count = count })) }
        ensures no_event { IsNoEvent result }
    {
        match key {
            Key::Pressed(name, held) => CTaken {
                code: name_of(name),
                modifiers: held_of(held),
                ..CTaken::plain(1, count)
            },
            Key::Unknown => CTaken::plain(2, count),
            Key::PasteBegins => CTaken::plain(3, count),
            Key::Pasted => CTaken::plain(4, count),
            Key::PasteEnds => CTaken::plain(5, count),
            Key::Pointed(mouse) => CTaken {
                kind: 6,
                code: u32::from(mouse.button),
                modifiers: held_of(mouse.held),
                flags: flags_of(mouse.action),
                column: mouse.column,
                line: mouse.line,
                count,
            },
            Key::FocusIn => CTaken::plain(7, count),
            Key::FocusOut => CTaken::plain(8, count),
        }
    }

    /// One of which there is nothing more to say.
    fn plain(kind: u32, count: usize) -> CTaken
        ensures { result ≡ plain kind count }
    {
        CTaken {
            kind,
            count,
            ..CTaken::NONE
        }
    }
}

/// The number of a name in `curspan_terminal.h`, which numbers events among the keys.
fn name_of(name: Name) -> u32
    ensures name { result ≡ name_of name }
    ensures no_event { 0x110000 ≤ result → 0x110006 ≤ result }
{
    match name {
        Name::Character(code) => code as u32,
        Name::Enter => 0x11_0006,
        Name::Tab => 0x11_0007,
        Name::Escape => 0x11_0008,
        Name::Backspace => 0x11_0009,
        Name::Up => 0x11_000a,
        Name::Down => 0x11_000b,
        Name::Left => 0x11_000c,
        Name::Right => 0x11_000d,
        Name::Home => 0x11_000e,
        Name::End => 0x11_000f,
        Name::PageUp => 0x11_0010,
        Name::PageDown => 0x11_0011,
        Name::Insert => 0x11_0012,
        Name::Delete => 0x11_0013,
        Name::Begin => 0x11_0014,
        Name::A1 => 0x11_0015,
        Name::A3 => 0x11_0016,
        Name::B2 => 0x11_0017,
        Name::C1 => 0x11_0018,
        Name::C3 => 0x11_0019,
        Name::Function(number) => 0x11_001a + u32::from(number),
    }
}

fn bit(set: bool) -> u32
    ensures { result ≡ bit set }
{
    if set { 1 } else { 0 }
}

/// The bits of modifiers.
fn held_of(held: Modifiers) -> u32
    ensures { result ≡ held_of held }
{
    bit(held.shift) + 2 * bit(held.alt) + 4 * bit(held.ctrl)
}

/// What the mouse did.
fn flags_of(action: Action) -> u32
    ensures { result ≡ flags_of action }
{
    match action {
        Action::Press => 0,
        Action::Motion => 1,
        Action::Release => 2,
    }
}

/// What a terminal was asked to tell, by its bits.
pub fn asked_of(bits: u32) -> Asked
    ensures { result ≡ asked_of bits }
{
    Asked {
        paste: bits % 2 == 1,
        mouse: bits / 2 % 2 == 1,
        focus: bits / 4 % 2 == 1,
    }
}
