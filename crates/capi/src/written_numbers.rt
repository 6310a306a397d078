//! The number of a refusal. Written by tools/calls from calls.table.

ghost use Rattle.std.specs.Prelude.{◌≡◌};
ghost use Rattle.capi.specs.Answers.{number_of};

use desk::Refusal;

pub(crate) fn number(refusal: Refusal) -> u32
    ensures { result ≡ number_of refusal }
{
    match refusal {
        Refusal::NoSuchWindow => 1,
        Refusal::NoSuchPanel => 2,
        Refusal::OffScreen => 3,
        Refusal::OutsideParent => 4,
        Refusal::OutsideWindow => 5,
        Refusal::HasDerived => 6,
        Refusal::InPanel => 7,
        Refusal::IsPad => 8,
        Refusal::NotPad => 9,
        Refusal::NotDerived => 10,
        Refusal::BadSize => 11,
        Refusal::BadRegion => 12,
        Refusal::BadCharacter => 13,
        Refusal::StandardScreen => 14,
        Refusal::Hidden => 15,
        Refusal::ScrollingOff => 16,
        Refusal::TooMany => 17,
        Refusal::NoMemory => 18,
        Refusal::BadRectangle => 19,
        Refusal::BadPair => 20,
    }
}
