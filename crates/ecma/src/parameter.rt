//! The parameters of control sequences.

ghost use Rattle.std.specs.Prelude.{◌≡◌, if◌then◌else◌, ◌∷◌, ◌++◌};
ghost use Rattle.ecma.specs.{nat_lt, ℕ, List, [], map, IsDigit, most_digits, parameter_of, longer, number_of, erasure, position};

use crate::token::Erase;
use std::marker::Model;

/// The most digits of a parameter.
const MOST_DIGITS: u8 = 3;

/// A parameter as far as it was read: the number that its digits write, and how many there are.
#[derive(Clone, Copy)]
pub struct Parameter {
    value: u16,
    digits: u8,
}

impl Model for Parameter {
    ghost use Rattle.ecma.specs.Parameters.{Parameter};
    ghost use Rattle.ecma.specs.steps.Parameters.{IsParameter};

    ghost Value = { Parameter };

    ghost view = { λ p. record { value = p.value; digits = p.digits } };

    ghost invariant = { λ p. IsParameter (record { value = p.value; digits = p.digits }) };

    ghost inverse = { λ p. record { value = p.value; digits = p.digits } };
}

impl Parameter {
    /// The parameter without digits.
    pub const EMPTY: Parameter = Parameter {
        value: 0,
        digits: 0,
    };

    /// The parameter with one more digit, and none where it has the most already.
    pub fn with_digit(self, digit: u8) -> Option<Parameter>
        requires { IsDigit digit }
        ensures { result ≡ (if nat_lt self.digits most_digits then Some (longer self digit) else None) }
    {
        if self.digits < MOST_DIGITS {
            Some(Parameter {
                value: self.value * 10 + u16::from(digit - b'0'),
                digits: self.digits + 1,
            })
        } else {
            None
        }
    }

    /// The number, or a default one where there are no digits.
    pub fn number_or(self, default: u16) -> u16
        ensures { result ≡ number_of default self }
    {
        if self.digits == 0 {
            default
        } else {
            self.value
        }
    }
}

/// The line and the column from 0 that CUP names by its parameters, the last of which comes after the others.
pub fn position(ended: &[Parameter], last: Parameter) -> Option<(u16, u16)>
    ensures { (digits : List (List ℕ)) → map parameter_of digits ≡ ended.now ++ last ∷ [] → result ≡ position digits }
{
    if ended.len() > 1 {
        return None;
    }
    let (line, column) = match ended.first() {
        Some(line) => (line.number_or(1), last.number_or(1)),
        None => (last.number_or(1), 1),
    };
    if line > 0 && column > 0 {
        Some((line - 1, column - 1))
    } else {
        None
    }
}

/// What ED and EL erase by their parameters.
pub fn erasure(ended: &[Parameter], last: Parameter) -> Option<Erase>
    ensures { (digits : List (List ℕ)) → map parameter_of digits ≡ ended.now ++ last ∷ [] → result ≡ erasure digits }
{
    if !ended.is_empty() {
        return None;
    }
    match last.number_or(0) {
        0 => Some(Erase::ToEnd),
        1 => Some(Erase::FromStart),
        2 => Some(Erase::All),
        _ => None,
    }
}
