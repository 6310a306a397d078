//! Panels by number.

/// The number of a panel, from 1 on.
#[derive(Clone, Copy, PartialEq, Eq, Debug)]
pub struct PanelId(pub u16);
