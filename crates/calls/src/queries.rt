//! Which calls only ask.

ghost use Rattle.std.specs.Prelude.{◌≡◌};
ghost use Rattle.calls.specs.{is_query};

use world::{Call, Copying, Stacking};

/// Whether a call only asks, and so changes nothing.
#[inline(always)]
pub fn is_query(call: &Call<'_>) -> bool
    ensures { result ≡ is_query call.now }
{
    match *call {
        Call::Query(_) => true,
        Call::Copying(Copying::IsLinetouched { .. }) => true,
        Call::Copying(Copying::IsWintouched { .. }) => true,
        Call::Stacking(Stacking::PanelAbove { .. }) => true,
        Call::Stacking(Stacking::PanelBelow { .. }) => true,
        Call::Stacking(Stacking::PanelWindow { .. }) => true,
        Call::Stacking(Stacking::PanelHidden { .. }) => true,
        _ => false,
    }
}
