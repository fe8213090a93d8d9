//! Truths of three values.

/// Whether something holds: `Open` where that is not known. The tables are the strong ones of Kleene.
#[derive(Clone, Copy, PartialEq, Eq, Debug)]
pub enum Truth {
    Yes,
    No,
    Open,
}

impl Truth {
    ghost use Rattle.std.specs.Prelude.{◌≡◌};
    ghost use Rattle.spec_expressions.specs.Truth.{negation, conjunction, disjunction, implication, equivalence};
    ghost use Rattle.ast_eval.specs.Views.{truth_of, known};

    /// The truth of what is known to hold or not to hold.
    pub fn known(holds: bool) -> Truth
        ensures { truth_of result ≡ known holds }
    {
        if holds { Truth::Yes } else { Truth::No }
    }

    /// Whether this does not hold.
    pub fn negated(self) -> Truth
        ensures { truth_of result ≡ negation (truth_of self) }
    {
        match self {
            Truth::Yes => Truth::No,
            Truth::No => Truth::Yes,
            Truth::Open => Truth::Open,
        }
    }

    /// Whether both hold: `No` where one is `No`, whatever the other is.
    pub fn and(self, other: Truth) -> Truth
        ensures { truth_of result ≡ conjunction (truth_of self) (truth_of other) }
    {
        match (self, other) {
            (Truth::No, _) | (_, Truth::No) => Truth::No,
            (Truth::Yes, Truth::Yes) => Truth::Yes,
            _ => Truth::Open,
        }
    }

    /// Whether one of them holds: `Yes` where one is `Yes`, whatever the other is.
    pub fn or(self, other: Truth) -> Truth
        ensures { truth_of result ≡ disjunction (truth_of self) (truth_of other) }
    {
        match (self, other) {
            (Truth::Yes, _) | (_, Truth::Yes) => Truth::Yes,
            (Truth::No, Truth::No) => Truth::No,
            _ => Truth::Open,
        }
    }

    /// Whether this does not hold or the other does.
    pub fn implies(self, other: Truth) -> Truth
        ensures { truth_of result ≡ implication (truth_of self) (truth_of other) }
    {
        self.negated().or(other)
    }

    /// Whether both hold or neither does: `Open` where one is `Open`.
    pub fn iff(self, other: Truth) -> Truth
        ensures { truth_of result ≡ equivalence (truth_of self) (truth_of other) }
    {
        match self {
            Truth::Yes => other,
            Truth::No => other.negated(),
            Truth::Open => Truth::Open,
        }
    }
}
