//! Literals.

ghost use Rattle.std.specs.Prelude.{◌≡◌, ◌≢◌, ◌≤ℤ◌, ◌-◌, ◌^◌, pos, negsuc, neg_ℤ};

use std::marker::Model;

/// A literal: the number of a variable, from 1 to 2,147,483,647, or its negative for the negation.
/// It is never 0 and never -2^31.
#[derive(Clone, Copy, PartialEq, Eq, Debug)]
pub struct Lit(pub i32);

impl Model for Lit {
    ghost use Rattle.std.specs.Prelude.{ℤ, pos, negsuc, ◌≢◌, ◌≤ℤ◌, ◌-◌, ◌^◌};

    ghost Value = { ℤ };

    ghost view = { λ l. l.0 };

    ghost invariant = { λ l. (l.0 ≢ pos 0) × (negsuc (2 ^ 31 - 2) ≤ℤ l.0) };

    ghost inverse = { λ z. record { 0 = z } };
}

impl Lit {
    /// The literal of this number.
    pub fn new(number: i32) -> Lit
        requires some { number ≢ pos 0 }
        requires opposite { negsuc (2 ^ 31 - 2) ≤ℤ number }
        ensures { result ≡ number }
    {
        Lit(number)
    }

    /// Its number, which is not 0 and whose opposite is an `i32` too.
    pub fn number(self) -> i32
        ensures value { result ≡ self }
        ensures some { result ≢ pos 0 }
        ensures opposite { negsuc (2 ^ 31 - 2) ≤ℤ result }
    {
        self.0
    }

    /// Its negation.
    pub fn negated(self) -> Lit
        ensures { result ≡ neg_ℤ self }
    {
        Lit(-self.0)
    }
}
