//! Windows by number, and rectangles of them.

/// The number of a window or pad. The standard screen is 0.
#[derive(Clone, Copy, PartialEq, Eq, Debug)]
pub struct WinId(pub u16);

impl WinId {
    /// The standard screen.
    pub const STANDARD: WinId = WinId(0);
}

/// A rectangle of lines and columns, counted from 0, both ends inclusive.
#[derive(Clone, Copy, PartialEq, Eq, Debug)]
pub struct Rect {
    pub top: u16,
    pub left: u16,
    pub bottom: u16,
    pub right: u16,
}
