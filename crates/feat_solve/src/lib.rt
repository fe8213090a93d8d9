//! A solver of clauses: the first list of states that satisfies them, or a log that refutes them.
//!
//! [`solve`] decides the least variable without a value, on first, and follows what each literal forces by
//! the two literals that each clause watches. A conflict teaches steps of the log, and the search goes back
//! to the last decision on which the conflict depends. It ends, since a weight of its trail grows at each
//! turn. The answer is first among all lists, not only among those that were tried: each literal that was
//! forced off under decisions of smaller variables is off in every list that satisfies and agrees with them.
#![tactic(auto)]

mod answers;
mod conflicts;
mod entries;
mod flags;
mod guide;
mod learning;
mod looking;
mod marks;
mod reach;
mod search;
mod solving;
mod states;
mod trail;
mod variables;
mod watched;
mod watches;

pub use answers::Answer;
pub use feat_proof::NoMemory;
pub use solving::solve;
