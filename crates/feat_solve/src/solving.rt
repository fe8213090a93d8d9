//! The answer to clauses.

ghost use Rattle.std.specs.Prelude.{◌≡◌, ◌≢◌, ◌<◌, ◌≤◌, ◌↔◌, ℕ, Bool, true, length, IfOk};
ghost use Rattle.std.specs.List.{AllByRecursion};
ghost use Rattle.spec_refutation.specs.Literals.{satisfies};
ghost use Rattle.spec_refutation.specs.Reading.{IsClause};
ghost use Rattle.feat_solve.specs.Answers.{Solves, IsRefuted};

use crate::answers::Answer;
use crate::reach::greatest_variable;
use crate::search::{End, Search};
use crate::states::with_free;
use feat_proof::{Clause, Cnf, NoMemory};
use std::alloc::Global;

/// The answer over the variables that are searched.
fn searched(alloc: Global, vars: u32, clauses: &[Clause]) -> Result<Answer, NoMemory>
    requires vars { vars ≤ 2147483647 }
    requires within { AllByRecursion (IsClause vars) clauses.now }
    requires few { length clauses.now < 2147483648 }
    ensures { IfOk result (λ a. Solves vars clauses.now a) }
{
    let mut search = Search::new(alloc, vars, clauses)?;
    match search.run(alloc)? {
        End::Found => search.model(alloc),
        End::Closed => Ok(search.refutation()),
    }
}

/// The answer over all variables, of which those are searched that stand in clauses.
fn answer(alloc: Global, vars: u32, clauses: &[Clause]) -> Result<Answer, NoMemory>
    requires within { AllByRecursion (IsClause vars) clauses.now }
    requires few { length clauses.now < 2147483648 }
    ensures { IfOk result (λ a. Solves vars clauses.now a) }
{
    let most = greatest_variable(clauses);
    match searched(alloc, most, clauses)? {
        Answer::Model(states) => Ok(Answer::Model(with_free(states, vars)?)),
        Answer::Refuted(log) => Ok(Answer::Refuted(log)),
    }
}

/// The first list of states that satisfies the clauses, in the order of the variables and with on before
/// off; or, where nothing satisfies them, a log that refutes them.
///
/// A variable beyond those of all clauses takes no part in the search.
pub fn solve(alloc: Global, cnf: &Cnf) -> Result<Answer, NoMemory>
    requires within { AllByRecursion (IsClause cnf.now.0) cnf.now.1 }
    requires few { length cnf.now.1 < 2147483648 }
    ensures solves { IfOk result (λ a. Solves cnf.now.0 cnf.now.1 a) }
    ensures exact { IfOk result (λ a. IsRefuted a ↔ ((v : ℕ → Bool) → satisfies v cnf.now.1 ≢ true)) }
{
    let answer = answer(alloc, cnf.vars(), cnf.clauses())?;
    Ok(answer)
}
