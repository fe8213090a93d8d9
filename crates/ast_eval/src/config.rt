//! Configurations: what is chosen for each parameter and each free atom.

ghost use Rattle.std.specs.Prelude.{◌≡◌, map, IfOk};
ghost use Rattle.spec_expressions.specs.Scope.{Flag};
ghost use Rattle.ast_eval.specs.ConfigView.{state_told};

use crate::memory::NoMemory;
use crate::state::State;
use indexmap::IndexMap;
use mrs_names::NameId;
use std::alloc::Global;
use std::marker::Model;

/// A state for each parameter, and whether each free atom holds.
///
/// A clause sees the numbers of the parameters' names, in order, with as many states, and the atoms.
#[derive(Drop)]
pub struct Config {
    states: IndexMap<NameId, State>,
    atoms: Vec<bool>,
}

impl Model for Config {
    ghost use Rattle.ast_eval.specs.Choices.{Choices};
    ghost use Rattle.ast_eval.specs.ConfigView.{choices_of};

    ghost Value = { Choices };

    ghost view = { λ c. choices_of c.states.entries c.atoms.items };
}

/// Boolean parameters, each on or off.
fn flags(alloc: Global, flags: &[bool]) -> Result<Vec<State>, NoMemory>
    ensures { IfOk result (λ states. map state_told states.items ≡ map Flag flags.now) }
{
    let mut states = Vec::new(alloc);
    for on in flags {
        states.push(State::Flag(*on))?;
    }
    Ok(states)
}

impl Config {
    ghost use Rattle.std.specs.Prelude.{◌≡◌, ◌≢◌, length, map, zip, option_map, slice_get, AllPairs, IfOk};
    ghost use Rattle.spec_expressions.specs.Scope.{Flag};
    ghost use Rattle.ast_eval.specs.Choices.{flag_in};
    ghost use Rattle.ast_eval.specs.ConfigView.{state_told};

    /// The configuration in which each boolean parameter is on or off, and the atoms hold or not in their order.
    ///
    /// The names are distinct, and as many as the states.
    pub fn new(
        alloc: Global,
        names: Vec<NameId>,
        states: Vec<bool>,
        atoms: Vec<bool>,
    ) -> Result<Config, NoMemory>
        requires distinct { AllPairs (λ first second. first ≢ second) names.items }
        requires count { length names.items ≡ length states.items }
        ensures names { IfOk result (λ c. c.names ≡ map (λ name. name.0) names.items) }
        ensures states { IfOk result (λ c. c.states ≡ map Flag states.items) }
        ensures atoms { IfOk result (λ c. c.atoms ≡ atoms.items) }
    {
        let states = flags(alloc, &states)?;
        Config::of_states(alloc, names, states, atoms)
    }

    /// The configuration in which each parameter has its state, and the atoms hold or not in their order.
    ///
    /// The names are distinct, and as many as the states.
    pub fn of_states(
        alloc: Global,
        names: Vec<NameId>,
        states: Vec<State>,
        atoms: Vec<bool>,
    ) -> Result<Config, NoMemory>
        requires distinct { AllPairs (λ first second. first ≢ second) names.items }
        requires count { length names.items ≡ length states.items }
        ensures names { IfOk result (λ c. c.names ≡ map (λ name. name.0) names.items) }
        ensures states { IfOk result (λ c. c.states ≡ map state_told states.items) }
        ensures atoms { IfOk result (λ c. c.atoms ≡ atoms.items) }
    {
        let mut chosen = IndexMap::new(alloc);
        for (i, name) in names.iter().enumerate() {
            chosen.insert(*name, states[i])?;
        }
        Ok(Config {
            states: chosen,
            atoms,
        })
    }

    /// Parameter `k`, in order, with its state; `None` where there are not so many.
    pub fn parameter(&self, k: u32) -> Option<(NameId, State)>
        ensures { option_map (λ p. (p.0.0, state_told p.1)) result ≡ slice_get (zip self.now.names self.now.states) k }
    {
        match self.states.get_index(k as usize) {
            Some((name, state)) => Some((*name, *state)),
            None => None,
        }
    }

    /// The state of the boolean parameter of that name; `None` where there is none.
    pub fn state(&self, name: NameId) -> Option<bool>
        ensures { result ≡ flag_in name.0 self.now }
    {
        match self.states.get(&name) {
            Some(state) => state.flag(),
            None => None,
        }
    }

    /// Whether free atom `k` holds; `None` where there are not so many.
    pub fn atom(&self, k: u32) -> Option<bool>
        ensures { result ≡ slice_get self.now.atoms k }
    {
        self.atoms.get(k as usize).copied()
    }
}
