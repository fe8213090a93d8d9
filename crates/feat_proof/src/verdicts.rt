//! What the checker answers.

/// What a log does to clauses.
#[derive(Clone, Copy, Debug, PartialEq, Eq)]
pub enum Verdict {
    /// Every step follows and some step's clause is empty, so nothing satisfies the clauses.
    Refuted,
    /// The first step that does not follow, counted from 0, or the number of steps where every step
    /// follows and none is empty.
    Fails { step: u64 },
}
