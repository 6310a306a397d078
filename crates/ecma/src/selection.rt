//! Selecting graphic renditions.

ghost use Rattle.std.specs.Prelude.{◌≡◌, ◌<◌, ◌∷◌, ◌++◌};
ghost use Rattle.ecma.specs.{ℕ, List, [], map, bits_of, parameter_of, number_or, select, select_all, with_off, with_on};

use crate::parameter::Parameter;
use bitflags::Flags;
use cell::{Attr, Colour, ColourPair, Rendition};

/// The rendition after the codes of the parameters, in their order, and none where one of them selects nothing.
pub fn select_all(ended: &[Parameter], last: Parameter, rendition: Rendition) -> Option<Rendition>
    ensures { (digits : List (List ℕ)) → map parameter_of digits ≡ ended.now ++ last ∷ [] → result ≡ select_all (map (number_or 0) digits) rendition }
{
    let mut selected = rendition;
    for parameter in ended {
        match select(selected, parameter.number_or(0)) {
            Some(next) => selected = next,
            None => return None,
        }
    }
    select(selected, last.number_or(0))
}

/// The rendition after a code, and none where the code selects nothing.
#[tactic(auto, unfolding(crate::specs::Terminals::select))]
fn select(rendition: Rendition, code: u16) -> Option<Rendition>
    ensures { result ≡ select code rendition }
{
    match code {
        0 => Some(Rendition::NONE),
        1 => Some(with_on(rendition, Attr::BOLD)),
        2 => Some(with_on(rendition, Attr::DIM)),
        4 => Some(with_on(rendition, Attr::UNDERLINE)),
        5 => Some(with_on(rendition, Attr::BLINK)),
        7 => Some(with_on(rendition, Attr::REVERSE)),
        8 => Some(with_on(rendition, Attr::INVIS)),
        22 => Some(with_off(rendition, Attr::BOLD.union(Attr::DIM))),
        24 => Some(with_off(rendition, Attr::UNDERLINE)),
        25 => Some(with_off(rendition, Attr::BLINK)),
        27 => Some(with_off(rendition, Attr::REVERSE)),
        28 => Some(with_off(rendition, Attr::INVIS)),
        30..=37 => Some(with_foreground(rendition, Colour::new(code - 30))),
        39 => Some(with_foreground(rendition, None)),
        40..=47 => Some(with_background(rendition, Colour::new(code - 40))),
        49 => Some(with_background(rendition, None)),
        _ => None,
    }
}

/// The rendition with these attributes on.
#[tactic(auto, using(crate::proofs::Selecting::made))]
fn with_on(rendition: Rendition, attrs: Attr) -> Rendition
    requires { bits_of attrs < 64 }
    ensures { result ≡ with_on (bits_of attrs) rendition }
{
    Rendition::new(rendition.attrs().union(attrs), rendition.colours())
}

/// The rendition with these attributes off.
#[tactic(auto, using(crate::proofs::Selecting::made))]
fn with_off(rendition: Rendition, attrs: Attr) -> Rendition
    ensures { result ≡ with_off (bits_of attrs) rendition }
{
    Rendition::new(rendition.attrs().difference(attrs), rendition.colours())
}

fn with_foreground(rendition: Rendition, colour: Option<Colour>) -> Rendition
    ensures { result ≡ record rendition { foreground = colour } }
{
    let pair = ColourPair {
        foreground: colour,
        background: rendition.colours().background,
    };
    Rendition::new(rendition.attrs(), pair)
}

fn with_background(rendition: Rendition, colour: Option<Colour>) -> Rendition
    ensures { result ≡ record rendition { background = colour } }
{
    let pair = ColourPair {
        foreground: rendition.colours().foreground,
        background: colour,
    };
    Rendition::new(rendition.attrs(), pair)
}
