//! The arguments of a call, as a script has them.

ghost use Rattle.std.specs.Prelude.{◌≡◌, ◌≤◌, ◌<◌, ◌+◌, ◌∷◌, ◌++◌};
ghost use Rattle.script.specs.{[], length, is_some, IfSome, Some, None, false, OnTrue, attributes, character, no_arguments, number, panel_or_none, window_at, parse_argument};

use crate::limits::{GREATEST_NUMBER, LONGEST_LINE, MOST_ARGUMENTS};
use crate::numbers::{attributes_of, flag_of, number_or_none, number_up_to, signed_number};
use crate::text::read_text;
use crate::words::Form;
use arrayvec::ArrayVec;
use bitflags::Flags;
use cell::{Attr, WinId};
use std::marker::Model;
use world::PanelId;

/// What the arguments of a call say. Its numbers are in their order.
#[derive(Drop)]
pub struct Arguments {
    numbers: [u16; MOST_ARGUMENTS],
    /// How many numbers were said.
    count: usize,
    number_or_none: Option<u16>,
    signed: i16,
    attributes: u8,
    flag: bool,
    text: ArrayVec<u8, LONGEST_LINE>,
}

impl Model for Arguments {
    ghost use Rattle.std.specs.Prelude.{◌≤◌, take};
    ghost use Rattle.script.specs.Words.{Arguments as Said};
    ghost use Rattle.script.specs.declared.limits.TheConstants.{MOST_ARGUMENTS};

    ghost Value = { Said };

    ghost view = { λ a. record {
      numbers = take a.count a.numbers;
      number_or_none = a.number_or_none;
      signed = a.signed;
      attributes = a.attributes;
      flag = a.flag;
      text = a.text.items;
    } };

    ghost invariant = { λ a. a.count ≤ MOST_ARGUMENTS };
}

/// Puts what was said in its place, and answers whether something was.
fn put<T: Copy>(place: &mut T, said: Option<T>) -> bool
    ensures put { IfSome said (λ x. place.new ≡ x) }
    ensures some { result ≡ is_some said }
{
    match said {
        Some(x) => {
            *place = x;
            true
        }
        None => false,
    }
}

impl Arguments {
    /// No argument yet.
    pub fn new() -> Arguments
        ensures { result ≡ no_arguments }
    {
        Arguments {
            numbers: [0; MOST_ARGUMENTS],
            count: 0,
            number_or_none: None,
            signed: 0,
            attributes: 0,
            flag: false,
            text: ArrayVec::new(),
        }
    }

    /// Forgets what was said.
    pub fn clear(&mut self)
        ensures { self.new ≡ no_arguments }
    {
        self.count = 0;
        self.number_or_none = None;
        self.signed = 0;
        self.attributes = 0;
        self.flag = false;
        self.text.clear();
    }

    /// The number at a place, and 0 where there is none.
    pub(crate) fn number(&self, place: usize) -> u16
        ensures { result ≡ number self.now place }
    {
        if place < self.count {
            self.numbers[place]
        } else {
            0
        }
    }

    /// The window whose number is at a place.
    pub(crate) fn window(&self, place: usize) -> WinId
        ensures { result ≡ window_at self.now place }
    {
        WinId(self.number(place))
    }

    /// The panel whose number is at a place.
    pub(crate) fn panel(&self, place: usize) -> PanelId
        ensures { result ≡ record { 0 = number self.now place } }
    {
        PanelId(self.number(place))
    }

    /// The panel that an argument names, if it isn't `none`.
    pub(crate) fn panel_or_none(&self) -> Option<PanelId>
        ensures { result ≡ panel_or_none self.now }
    {
        self.number_or_none.map(PanelId)
    }

    pub(crate) fn signed(&self) -> i16
        ensures { result ≡ self.now.signed }
    {
        self.signed
    }

    pub(crate) fn attributes(&self) -> Attr
        ensures { result ≡ attributes self.now }
    {
        Attr::from_bits_retain(self.attributes)
    }

    pub(crate) fn flag(&self) -> bool
        ensures { result ≡ self.now.flag }
    {
        self.flag
    }

    pub(crate) fn text(&self) -> &[u8]
        ensures { result.now ≡ self.now.text }
    {
        self.text.as_slice()
    }

    /// The first character of the text, and 0 where there is none.
    pub(crate) fn character(&self) -> u8
        ensures { result ≡ character self.now }
    {
        match self.text.as_slice().get(0) {
            Some(character) => *character,
            None => 0,
        }
    }

    /// Takes one number more.
    pub(crate) fn push(&mut self, number: u16)
        requires { length self.old.numbers < MOST_ARGUMENTS }
        ensures { self.new ≡ record self.old { numbers = self.old.numbers ++ number ∷ [] } }
    {
        self.numbers[self.count] = number;
        self.count += 1;
    }

    /// Takes what an argument of a form says, and answers whether it has its form.
    pub fn take(&mut self, form: Form, piece: &[u8]) -> bool
        requires room { length self.old.numbers < MOST_ARGUMENTS }
        requires short { length piece.now ≤ LONGEST_LINE }
        ensures argument { OnTrue result (parse_argument form piece.now self.old ≡ Some self.new) }
        ensures wrong { result ≡ false → parse_argument form piece.now self.old ≡ None }
        ensures count { length self.new.numbers ≤ length self.old.numbers + 1 }
    {
        match form {
            Form::Number => match number_up_to(GREATEST_NUMBER, piece) {
                Some(number) => {
                    self.push(number);
                    true
                }
                None => false,
            },
            Form::NumberOrNone => put(&mut self.number_or_none, number_or_none(piece)),
            Form::Signed => put(&mut self.signed, signed_number(piece)),
            Form::Attributes => put(&mut self.attributes, attributes_of(piece)),
            Form::Flag => put(&mut self.flag, flag_of(piece)),
            Form::Character => read_text(piece, &mut self.text) && self.text.len() == 1,
            Form::Text => read_text(piece, &mut self.text),
        }
    }
}
