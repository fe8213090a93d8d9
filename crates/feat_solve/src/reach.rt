//! How far the variables of clauses reach.

ghost use Rattle.std.specs.Prelude.{◌≡◌, ◌≤◌};
ghost use Rattle.std.specs.List.{AllByRecursion};
ghost use Rattle.feat_solve.specs.Reach.{reach, reach_of};

use crate::variables::variable;
use feat_proof::{Clause, Lit};

/// The greatest variable of a clause, or 0.
fn greatest(clause: &[Lit]) -> u32
    ensures value { result ≡ reach_of clause.now }
    ensures few { result ≤ 2147483647 }
{
    let mut most = 0;
    for literal in clause {
        most = most.max(variable(*literal));
    }
    most
}

/// The greatest variable that stands in a clause, or 0. The variables beyond it are free.
pub fn greatest_variable(clauses: &[Clause]) -> u32
    ensures value { result ≡ reach clauses.now }
    ensures few { result ≤ 2147483647 }
{
    let mut most = 0;
    for clause in clauses {
        most = most.max(greatest(clause.literals()));
    }
    most
}
