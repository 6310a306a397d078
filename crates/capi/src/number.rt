//! Numbers of 32 bits, as C passes them, for calls that take fewer bits: what is greater than any of these becomes the
//! greatest, which each call refuses.

ghost use Rattle.std.specs.Prelude.{◌≡◌};
ghost use Rattle.capi.specs.Numbers.{panel_of, panel_or_none_of, saturated, saturated_character, saturated_signed, window_of};

use desk::{PanelId, WinId};

/// A number, or 65,535 for a greater one.
#[inline(always)]
pub fn saturated(n: u32) -> u16
    ensures { result ≡ saturated n }
{
    n.min(65_535) as u16
}

/// A signed number, or the greatest or the least of 16 bits for one beyond these.
#[inline(always)]
pub fn saturated_signed(n: i32) -> i16
    ensures { result ≡ saturated_signed n }
{
    if n > 32_767 {
        return 32_767;
    }
    if n < -32_768 {
        return -32_768;
    }
    n as i16
}

/// A character, or 255 for a greater one.
#[inline(always)]
pub fn saturated_character(n: u32) -> u8
    ensures { result ≡ saturated_character n }
{
    n.min(255) as u8
}

/// A window's number.
#[inline(always)]
pub fn window_of(n: u32) -> WinId
    ensures { result ≡ window_of n }
{
    WinId(saturated(n))
}

/// A panel's number.
#[inline(always)]
pub fn panel_of(n: u32) -> PanelId
    ensures { result ≡ panel_of n }
{
    PanelId(saturated(n))
}

/// The panel of a number, and none for 0.
#[inline(always)]
pub fn panel_or_none_of(n: u32) -> Option<PanelId>
    ensures { result ≡ panel_or_none_of n }
{
    if n == 0 {
        return None;
    }
    Some(panel_of(n))
}
