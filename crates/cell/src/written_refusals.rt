//! The refusals, in the order of their numbers. Written by tools/calls from calls.table.

ghost use Rattle.std.specs.Prelude.{◌≡◌, ◌≤◌, length};

/// Why a call is refused. A refused call changed nothing and sent nothing.
#[derive(Clone, Copy, PartialEq, Eq, Debug)]
pub enum Refusal {
    /// There is no such window or pad.
    NoSuchWindow,
    /// There is no such panel.
    NoSuchPanel,
    /// A part would lie off the screen, or there would be no cell.
    OffScreen,
    /// A derived window or pad would not lie inside its parent, or have no cell.
    OutsideParent,
    /// The window has no such place, line or rectangle.
    OutsideWindow,
    /// A window or pad derives from this one.
    HasDerived,
    /// The window is in a panel.
    InPanel,
    /// The call is not for pads.
    IsPad,
    /// The call is for pads alone.
    NotPad,
    /// The call is for windows and pads that derive from another one.
    NotDerived,
    /// A screen or a pad has no such size.
    BadSize,
    /// The region's first line is after its last, or the window has no such line.
    BadRegion,
    /// The character is none that the call takes.
    BadCharacter,
    /// The call is not for the standard screen.
    StandardScreen,
    /// The panel is hidden.
    Hidden,
    /// The window doesn't scroll.
    ScrollingOff,
    /// There are 1000 windows and pads besides the standard screen, or 1000 panels.
    TooMany,
    /// There is no memory for it.
    NoMemory,
    /// A rectangle's first line or column is after its last.
    BadRectangle,
    /// There is no such colour pair or colour, or pair 0 was to be set.
    BadPair,
}

impl Refusal {
    ghost use Rattle.cell.specs.Refusals.{refusal_text};

    /// The number and the name, as the log has them.
    pub fn text(self) -> &'static str
        ensures text { result.now ≡ refusal_text self }
        ensures short { length result.now ≤ 20 }
    {
        match self {
            Refusal::NoSuchWindow => "E1 NoSuchWindow",
            Refusal::NoSuchPanel => "E2 NoSuchPanel",
            Refusal::OffScreen => "E3 OffScreen",
            Refusal::OutsideParent => "E4 OutsideParent",
            Refusal::OutsideWindow => "E5 OutsideWindow",
            Refusal::HasDerived => "E6 HasDerived",
            Refusal::InPanel => "E7 InPanel",
            Refusal::IsPad => "E8 IsPad",
            Refusal::NotPad => "E9 NotPad",
            Refusal::NotDerived => "E10 NotDerived",
            Refusal::BadSize => "E11 BadSize",
            Refusal::BadRegion => "E12 BadRegion",
            Refusal::BadCharacter => "E13 BadCharacter",
            Refusal::StandardScreen => "E14 StandardScreen",
            Refusal::Hidden => "E15 Hidden",
            Refusal::ScrollingOff => "E16 ScrollingOff",
            Refusal::TooMany => "E17 TooMany",
            Refusal::NoMemory => "E18 NoMemory",
            Refusal::BadRectangle => "E19 BadRectangle",
            Refusal::BadPair => "E20 BadPair",
        }
    }
}
