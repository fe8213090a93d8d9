//! Logs.

ghost use Rattle.std.specs.Prelude.{◌≡◌};

use crate::steps::Step;
use std::marker::Model;

/// A log: its steps in order. Contracts see the list of them.
#[derive(Drop)]
pub struct Log {
    /// The steps, in the order in which they are checked.
    pub steps: Vec<Step>,
}

impl Model for Log {
    ghost use Rattle.std.specs.Prelude.{List, ℤ, ℕ};

    ghost Value = { List (List ℤ × List ℕ) };

    ghost view = { λ l. l.steps.items };
}

impl Log {
    /// A log of these steps. Takes no memory.
    pub fn from_vec(steps: Vec<Step>) -> Log
        ensures { result ≡ steps.items }
    {
        Log { steps }
    }

    /// Its steps, given back without taking memory.
    pub fn into_vec(self) -> Vec<Step>
        ensures { result.items ≡ self }
    {
        let Log { steps } = self;
        steps
    }

    /// Its steps.
    pub fn steps(&self) -> &[Step]
        ensures { result.now ≡ self.now }
    {
        &self.steps
    }
}
