//! The first configuration that fits features and pins.

ghost use Rattle.std.specs.Prelude.{◌≡◌, ◌↔◌, ℕ, Bool, List, ◌≤◌, nat_eq, length, map, take, drop, None, Some, Err, OnOk, IfOk};
ghost use Rattle.spec_expressions.specs.Scope.{Flag};
ghost use Rattle.spec_features.specs.Theory.{states};
ghost use Rattle.spec_features.specs.Fits.{Fits, unknown_pin};
ghost use Rattle.feat_model.specs.Configures.{Configures, IsRefused};
ghost use Rattle.feat_model.specs.Named.{IsNamed};

use crate::faults::ModelFault;
use crate::model::Model;
use crate::outcome::Outcome;
use crate::pin::Pin;
use ast_eval::{Config, NoMemory};
use feat_solve::{Answer, solve};
use std::alloc::Global;

/// The configuration that begins these states: those of the parameters, and then those of the atoms.
fn configuration(alloc: Global, model: &Model, all: &[bool]) -> Result<Config, NoMemory>
    requires { states model.now ≤ length all.now }
    ensures names { IfOk result (λ c. c.names ≡ model.now.names) }
    ensures states { IfOk result (λ c. c.states ≡ map Flag (take (length model.now.names) all.now)) }
    ensures atoms { IfOk result (λ c. c.atoms ≡ take model.now.atoms (drop (length model.now.names) all.now)) }
{
    let parameters = model.name_count() as usize;
    let atoms = parameters + model.atoms() as usize;
    let mut of_parameters = Vec::new(alloc);
    of_parameters.extend_from_slice(&all[..parameters])?;
    let mut of_atoms = Vec::new(alloc);
    of_atoms.extend_from_slice(&all[parameters..atoms])?;
    let names = model.names(alloc)?;
    Config::new(alloc, names, of_parameters, of_atoms)
}

/// What features and pins come to, by the numbers of names.
fn configured(alloc: Global, model: &Model, pins: &[Pin]) -> Result<Outcome, ModelFault>
    requires { length pins.now ≤ 4096 }
    ensures outcome { IfOk result (λ o. Configures model.now pins.now o) }
    ensures exact { IfOk result (λ o. IsRefused o ↔ ((g : List Bool) → Fits nat_eq model.now pins.now g → ⊥)) }
    ensures known { OnOk result (unknown_pin nat_eq model.now.names pins.now ≡ None) }
    ensures unknown { (k : ℕ) → result ≡ Err (ModelFault.UnknownFeature k) → unknown_pin nat_eq model.now.names pins.now ≡ Some k }
{
    let cnf = model.cnf(alloc, pins)?;
    match solve(alloc, &cnf)? {
        Answer::Model(states) => {
            let config = configuration(alloc, model, &states)?;
            Ok(Outcome::Chosen(config))
        }
        Answer::Refuted(log) => Ok(Outcome::Refuted(cnf, log)),
    }
}

/// The first configuration in which every constraint holds and every pinned parameter has its state; or the clauses of
/// the constraints and the pins, and a log that refutes them.
pub fn configure(alloc: Global, model: &Model, pins: &[Pin]) -> Result<Outcome, ModelFault>
    requires { length pins.now ≤ 4096 }
    ensures outcome { IfOk result (λ o. Configures model.now pins.now o) }
    ensures exact { IfOk result (λ o. IsRefused o ↔ ((g : List Bool) → Fits nat_eq model.now pins.now g → ⊥)) }
    ensures known { OnOk result (unknown_pin nat_eq model.now.names pins.now ≡ None) }
    ensures unknown { (k : ℕ) → result ≡ Err (ModelFault.UnknownFeature k) → unknown_pin nat_eq model.now.names pins.now ≡ Some k }

    // With the texts of names it is the same, as long as each number has its own.
    ensures named { IsNamed model.now pins.now result }
{
    configured(alloc, model, pins)
}
