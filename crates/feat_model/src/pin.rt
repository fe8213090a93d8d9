//! Pins.

ghost use Rattle.std.specs.Prelude.{◌≡◌};

use mrs_names::NameId;
use std::marker::Model;

/// A pin: a boolean parameter that is to be on, or off. Contracts see the pair of the name's number and the state.
#[derive(Clone, Copy)]
pub struct Pin {
    pub name: NameId,
    pub on: bool,
}

impl Model for Pin {
    ghost use Rattle.std.specs.Prelude.{ℕ, Bool};

    ghost Value = { ℕ × Bool };

    ghost view = { λ p. (p.name.0, p.on) };

    ghost inverse = { λ p. record { name = record { 0 = p.0 }; on = p.1 } };
}

impl Pin {
    /// The parameter's name.
    pub(crate) fn name(self) -> NameId
        ensures { result.0 ≡ self.0 }
    {
        self.name
    }

    /// Whether it is to be on.
    pub(crate) fn is_on(self) -> bool
        ensures { result ≡ self.1 }
    {
        self.on
    }
}
