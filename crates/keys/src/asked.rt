//! What a terminal was asked to tell beside the keys.

ghost use Rattle.std.specs.Prelude.{◌≡◌};
ghost use Rattle.keys.specs.{as_asked};

use crate::key::Key;

/// What a terminal was asked to tell. The sequences of what it wasn't asked for are unknown keys.
#[derive(Clone, Copy, PartialEq, Eq)]
pub struct Asked {
    /// Where a pasted text begins and ends (2004).
    pub paste: bool,
    /// What the mouse does (1000, 1002 or 1003, with 1006 or without).
    pub mouse: bool,
    /// Whether the terminal has the focus (1004).
    pub focus: bool,
}

impl Asked {
    pub const NONE: Asked = Asked {
        paste: false,
        mouse: false,
        focus: false,
    };

    pub const ALL: Asked = Asked {
        paste: true,
        mouse: true,
        focus: true,
    };

    /// The key, or unknown where it wasn't asked for.
    pub(crate) fn key(self, key: Key) -> Key
        ensures { result ≡ as_asked self key }
    {
        let is_asked = match key {
            Key::PasteBegins => self.paste,
            Key::Pointed(_) => self.mouse,
            Key::FocusIn => self.focus,
            Key::FocusOut => self.focus,
            _ => true,
        };
        if is_asked { key } else { Key::Unknown }
    }
}
