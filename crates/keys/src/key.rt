//! Keys as values.

ghost use Rattle.std.specs.Prelude.{◌≡◌};
ghost use Rattle.keys.specs.{key_named, with_held};

/// What a key is called, without its modifiers.
#[derive(Clone, Copy, PartialEq, Eq)]
pub enum Name {
    /// A character of Unicode.
    Character(char),
    Up,
    Down,
    Left,
    Right,
    Home,
    End,
    PageUp,
    PageDown,
    Insert,
    Delete,
    Begin,
    Enter,
    Tab,
    Escape,
    Backspace,
    /// The keypad's upper left.
    A1,
    /// Its upper right.
    A3,
    /// Its centre.
    B2,
    /// Its lower left.
    C1,
    /// Its lower right.
    C3,
    /// A function key, by its number.
    Function(u8),
}

/// The modifiers that were held with a key, as far as the terminal sends them.
#[derive(Clone, Copy, PartialEq, Eq)]
pub struct Modifiers {
    pub shift: bool,
    pub alt: bool,
    pub ctrl: bool,
}

impl Modifiers {
    pub const NONE: Modifiers = Modifiers {
        shift: false,
        alt: false,
        ctrl: false,
    };

    pub const SHIFT: Modifiers = Modifiers {
        shift: true,
        alt: false,
        ctrl: false,
    };

    pub const ALT: Modifiers = Modifiers {
        shift: false,
        alt: true,
        ctrl: false,
    };

    pub const CTRL: Modifiers = Modifiers {
        shift: false,
        alt: false,
        ctrl: true,
    };

    pub const CTRL_AND_SHIFT: Modifiers = Modifiers {
        shift: true,
        alt: false,
        ctrl: true,
    };
}

/// What was done with the mouse.
#[derive(Clone, Copy, PartialEq, Eq)]
pub enum Action {
    /// A button was pressed, or a wheel turned.
    Press,
    /// A button was let go.
    Release,
    /// The mouse was moved.
    Motion,
}

/// What the mouse did, with the modifiers that were held.
#[derive(Clone, Copy, PartialEq, Eq)]
pub struct Mouse {
    /// 1 to 3, 4 to 7 for wheels, 8 to 11, and 0 for none, or where the terminal doesn't say which.
    pub button: u8,
    pub held: Modifiers,
    pub action: Action,
    /// Counted from 0.
    pub column: u32,
    pub line: u32,
}

/// What some bytes of a terminal are.
#[derive(Clone, Copy, PartialEq, Eq)]
pub enum Key {
    /// A key was pressed.
    Pressed(Name, Modifiers),
    /// The bytes are no key's.
    Unknown,
    /// What follows is a text that is pasted.
    PasteBegins,
    /// The bytes are of the pasted text.
    Pasted,
    /// The pasted text has ended.
    PasteEnds,
    /// The mouse.
    Pointed(Mouse),
    /// The terminal has the focus now.
    FocusIn,
    /// The terminal has it no longer.
    FocusOut,
}

impl Key {
    /// The key of a name, without modifiers.
    pub(crate) fn named(name: Name) -> Key
        ensures { result ≡ key_named name }
    {
        Key::Pressed(name, Modifiers::NONE)
    }

    /// The same with more modifiers. What is no key stays so.
    pub(crate) fn with(self, more: Modifiers) -> Key
        ensures { result ≡ with_held more self }
    {
        match self {
            Key::Pressed(name, held) => Key::Pressed(
                name,
                Modifiers {
                    shift: more.shift || held.shift,
                    alt: more.alt || held.alt,
                    ctrl: more.ctrl || held.ctrl,
                },
            ),
            other => other,
        }
    }
}
