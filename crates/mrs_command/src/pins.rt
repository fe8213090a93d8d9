//! The pins that words give: which features are to be on, and which off.

use crate::pairs::Pairs;
use std::marker::Model;

/// A pin: a feature that is to be on, or off.
#[derive(Clone, Copy)]
pub struct Pin<'a> {
    pub name: &'a str,
    pub on: bool,
}

/// The pins among pairs, in their order: those with the key `on` are on, and those with the key `off` are off. Equal ones
/// stand as often as words give them.
#[derive(Drop)]
pub struct Pins<'a> {
    pairs: Pairs<'a>,
}

impl<'a> Model for Pins<'a> {
    ghost use Rattle.std.specs.Prelude.{List, ℕ, Bool};
    ghost use Rattle.spec_command.specs.Pins.{pins_in};

    ghost Value = { List (List ℕ × Bool) };

    ghost view = { λ p. pins_in p.pairs };
}

impl<'a> Pins<'a> {
    ghost use Rattle.std.specs.Prelude.{◌≡◌};
    ghost use Rattle.spec_command.specs.Pins.{pins_in};

    /// The pins among pairs.
    pub(crate) fn new(pairs: Pairs<'a>) -> Pins<'a>
        ensures { result ≡ pins_in pairs.entry }
    {
        Pins { pairs }
    }
}

impl<'a> Iterator for Pins<'a> {
    ghost use Rattle.std.specs.Iterator.{YieldsFirstBy, item_count};

    type Item = Pin<'a>;

    ghost next_gives = { YieldsFirstBy (λ pin. (pin.name.now, pin.on)) (λ pins. pins) };

    ghost remaining = { item_count (λ pins. pins) };

    fn next(&mut self) -> Option<Pin<'a>> {
        while let Some((key, name)) = self.pairs.next() {
            match key {
                "on" => return Some(Pin { name, on: true }),
                "off" => return Some(Pin { name, on: false }),
                _ => {}
            }
        }
        None
    }
}
