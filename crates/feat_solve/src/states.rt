//! The states that a trail gives.

ghost use Rattle.std.specs.Prelude.{◌≡◌, ◌+◌, ◌-◌, ◌<◌, ◌≤◌, ◌++◌, ℕ, IfOk, MatchOption, true, false, pos, length, replicate};
ghost use Rattle.feat_solve.specs.Trail.{valued, AreStates, Complete};

use crate::trail::Trail;
use crate::variables::positive;
use feat_proof::NoMemory;
use std::alloc::Global;

/// The states of the variables.
pub fn states(alloc: Global, trail: &Trail, vars: u32) -> Result<Vec<bool>, NoMemory>
    requires { vars ≤ 2147483647 }
    ensures { IfOk result (λ v. AreStates vars trail.now v.items) }
{
    let mut states: Vec<bool> = Vec::new(alloc);
    for place in 0..vars {
        states.push(trail.has(positive(place + 1)))?;
    }
    Ok(states)
}

/// The states of the variables of clauses, with those of the variables beyond, which are on.
pub fn with_free(states: Vec<bool>, vars: u32) -> Result<Vec<bool>, NoMemory>
    requires { length states.items ≤ vars }
    ensures { IfOk result (λ v. v.items ≡ states.items ++ replicate (vars - length states.items) true) }
{
    let mut all = states;
    let searched = all.len() as u32;
    for _free in searched..vars {
        all.push(true)?;
    }
    Ok(all)
}
