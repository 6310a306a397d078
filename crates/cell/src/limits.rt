//! The limits of sizes and numbers.

ghost use Rattle.std.specs.Prelude.{◌≡◌};
ghost use Rattle.cell.specs.{is_no_size};
ghost use Rattle.cell.specs.declared.window.TheConstants.WinId.{STANDARD};

/// The most lines, and the most columns, of a screen.
pub const LARGEST_SCREEN: u16 = 999;

/// The most lines, and the most columns, of a pad, and so of any window.
pub const LARGEST_PAD: u16 = 1000;

/// The most windows and pads besides the standard screen, whose number is 0.
pub const MOST_WINDOWS: u16 = 1000;

/// The most panels.
pub const MOST_PANELS: u16 = 1000;

/// The first and the last character that a cell can hold, the space and the tilde.
pub const FIRST_CHARACTER: u8 = 32;

pub const LAST_CHARACTER: u8 = 126;

/// The last colour, of those from 0.
pub const LAST_COLOUR: u8 = 7;

/// The last colour pair, of those from 0. Pair 0 always has the default colours.
pub const LAST_PAIR: u8 = 63;

/// Whether a number of lines or columns is 0 or past the most of them.
pub fn is_no_size(most: u16, n: u16) -> bool
    ensures { result ≡ is_no_size most n }
{
    n == 0 || most < n
}

/// The limits in numerals: of a screen, a pad, how many windows and panels there can be, and what a cell can hold; and
/// the number of the standard screen. Here a reader checks the values; all else uses the names.
pub fn limits_in_numerals()
    ensures screen { LARGEST_SCREEN ≡ 999 }
    ensures pad { LARGEST_PAD ≡ 1000 }
    ensures windows { MOST_WINDOWS ≡ 1000 }
    ensures panels { MOST_PANELS ≡ 1000 }
    ensures characters { (FIRST_CHARACTER ≡ 32) × (LAST_CHARACTER ≡ 126) }
    ensures colours { LAST_COLOUR ≡ 7 }
    ensures pairs { LAST_PAIR ≡ 63 }
    ensures standard { STANDARD.0 ≡ 0 }
{}
