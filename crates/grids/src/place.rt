//! Places of windows.

ghost use Rattle.std.specs.Prelude.{◌≡◌, ◌<◌, ◌+◌, ◌^◌};

use cell::WinId;

/// A line and a column of a window.
#[derive(Clone, Copy)]
pub struct Place {
    pub win: WinId,
    pub line: u16,
    pub column: u16,
}

impl Place {
    /// The place at this line and column of a window.
    pub fn new(win: WinId, line: u16, column: u16) -> Place
        ensures { result ≡ record { win = win; line = line; column = column } }
    {
        Place { win, line, column }
    }

    /// The first place of a window.
    pub fn first_of(win: u16) -> Place
        ensures { result ≡ record { win = record { 0 = win }; line = 0; column = 0 } }
    {
        Place {
            win: WinId(win),
            line: 0,
            column: 0,
        }
    }

    /// The place some columns on.
    pub fn right_by(self, columns: u16) -> Place
        requires { self.column + columns < 2 ^ 16 }
        ensures { result ≡ record self { column = self.column + columns } }
    {
        Place {
            column: self.column + columns,
            ..self
        }
    }

    /// The place some lines on.
    pub fn down_by(self, lines: u16) -> Place
        requires { self.line + lines < 2 ^ 16 }
        ensures { result ≡ record self { line = self.line + lines } }
    {
        Place {
            line: self.line + lines,
            ..self
        }
    }
}
