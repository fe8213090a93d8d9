//! What features and pins come to.

use ast_eval::Config;
use feat_proof::{Cnf, Log};

/// The first configuration that fits, or why none does.
#[derive(Drop)]
pub enum Outcome {
    /// Of the configurations that fit it is first, in order of the parameters and then of the atoms, on before off.
    Chosen(Config),
    /// None fits: the clauses of features and pins, and a log that refutes them.
    Refuted(Cnf, Log),
}
