//! The clauses of features and pins.

ghost use Rattle.std.specs.Prelude.{◌≡◌, ℕ, ◌+◌, ◌<◌, ◌≤◌, [], ◌++◌, nat_eq, length, map, option_to_list, position, is_some, None, Some, Err, OnOk, IfOk};
ghost use Rattle.std.specs.List.{filter_map, AllByRecursion};
ghost use Rattle.spec_refutation.specs.Reading.{IsClause};
ghost use Rattle.spec_features.specs.Theory.{states};
ghost use Rattle.spec_features.specs.Fits.{unknown_pin};
ghost use Rattle.spec_features.specs.Clauses.{variables, clauses, constraints_from, last_of, encoded, constraint_clauses, pin_clause};
ghost use Rattle.feat_model.specs.Views.{formula_of};
ghost use Rattle.feat_model.specs.Inside.{IsModel};
ghost use Rattle.feat_model.specs.Encodes.{HasRoom, HasRoomForAll};
ghost use Rattle.feat_model.specs.Named.{AreNamedClauses};

use crate::encoder::{Encoder, positive};
use crate::faults::ModelFault;
use crate::formula::Formula;
use crate::model::Model;
use crate::pin::Pin;
use feat_proof::{Cnf, NoMemory};
use std::alloc::Global;

/// Puts the clauses of a constraint, and that of its literal.
fn put_constraint(
    alloc: Global,
    encoder: &mut Encoder,
    constraint: &Formula,
) -> Result<(), NoMemory>
    requires { HasRoom encoder.old.last (formula_of constraint.now) }
    ensures clauses { OnOk result (encoder.new.clauses.items ≡ encoder.old.clauses.items ++ constraint_clauses (encoded encoder.old.last (formula_of constraint.now))) }
    ensures last { OnOk result (encoder.new.last ≡ (encoded encoder.old.last (formula_of constraint.now)).last) }
{
    let literal = encoder.encode(alloc, constraint)?;
    encoder.push(alloc, &[literal])?;
    Ok(())
}

/// Puts the clauses of constraints, one behind the other.
fn put_constraints(
    alloc: Global,
    encoder: &mut Encoder,
    constraints: &[Formula],
) -> Result<(), NoMemory>
    requires { HasRoomForAll encoder.old.last (map formula_of constraints.now) }
    ensures clauses { OnOk result (encoder.new.clauses.items ≡ encoder.old.clauses.items ++ constraints_from encoder.old.last (map formula_of constraints.now)) }
    ensures last { OnOk result (encoder.new.last ≡ last_of encoder.old.last (map formula_of constraints.now)) }
{
    for constraint in constraints {
        put_constraint(alloc, encoder, constraint)?;
    }
    Ok(())
}

/// Puts the clause of a pin, unless it names no boolean parameter.
fn put_pin(alloc: Global, encoder: &mut Encoder, model: &Model, pin: Pin) -> Result<bool, NoMemory>
    ensures last { encoder.new.last ≡ encoder.old.last }
    ensures found { IfOk result (λ found. found ≡ is_some (position (nat_eq pin.0) model.now.names)) }
    ensures put { OnOk result (encoder.new.clauses.items ≡ encoder.old.clauses.items ++ option_to_list (pin_clause nat_eq model.now.names pin)) }
{
    let Some(parameter) = model.parameter(pin.name()) else {
        return Ok(false);
    };
    let variable = positive(parameter + 1);
    let literal = if pin.is_on() {
        variable
    } else {
        variable.negated()
    };
    encoder.push(alloc, &[literal])?;
    Ok(true)
}

/// Puts the clauses of pins, or gives the first that names no boolean parameter.
fn put_pins(
    alloc: Global,
    encoder: &mut Encoder,
    model: &Model,
    pins: &[Pin],
) -> Result<(), ModelFault>
    requires { length pins.now ≤ 4096 }
    ensures last { encoder.new.last ≡ encoder.old.last }
    ensures put { OnOk result (encoder.new.clauses.items ≡ encoder.old.clauses.items ++ filter_map (pin_clause nat_eq model.now.names) pins.now) }
    ensures known { OnOk result (unknown_pin nat_eq model.now.names pins.now ≡ None) }
    ensures unknown { (k : ℕ) → result ≡ Err (ModelFault.UnknownFeature k) → unknown_pin nat_eq model.now.names pins.now ≡ Some k }
{
    for (k, pin) in pins.iter().enumerate() {
        if !put_pin(alloc, encoder, model, *pin)? {
            return Err(ModelFault::UnknownFeature { pin: k as u32 });
        }
    }
    Ok(())
}

impl Model {
    /// Puts the clauses together.
    fn put_together(&self, alloc: Global, pins: &[Pin]) -> Result<Cnf, ModelFault>
        requires { length pins.now ≤ 4096 }
        ensures cnf { IfOk result (λ c. c ≡ (variables self.now, clauses nat_eq self.now pins.now)) }
        ensures known { OnOk result (unknown_pin nat_eq self.now.names pins.now ≡ None) }
        ensures unknown { (k : ℕ) → result ≡ Err (ModelFault.UnknownFeature k) → unknown_pin nat_eq self.now.names pins.now ≡ Some k }
        ensures formed { IsModel self.now }
    {
        let mut encoder = Encoder {
            clauses: Vec::new(alloc),
            last: self.name_count() + self.atoms(),
        };
        put_constraints(alloc, &mut encoder, self.constraints())?;
        put_pins(alloc, &mut encoder, self, pins)?;
        let Encoder { clauses, last } = encoder;
        Ok(Cnf::from_parts(last, clauses))
    }

    /// The clauses of the constraints and the pins, over variables for the boolean parameters, the atoms and the
    /// auxiliaries. A fault is that of the first pin that names no boolean parameter.
    pub fn cnf(&self, alloc: Global, pins: &[Pin]) -> Result<Cnf, ModelFault>
        requires { length pins.now ≤ 4096 }
        ensures cnf { IfOk result (λ c. c ≡ (variables self.now, clauses nat_eq self.now pins.now)) }
        ensures known { OnOk result (unknown_pin nat_eq self.now.names pins.now ≡ None) }
        ensures unknown { (k : ℕ) → result ≡ Err (ModelFault.UnknownFeature k) → unknown_pin nat_eq self.now.names pins.now ≡ Some k }

        // Each literal is one of the variables, and neither variables nor clauses are too many for the solver.
        ensures within { IfOk result (λ c. AllByRecursion (IsClause c.0) c.1) }
        ensures few { IfOk result (λ c. (c.0 ≤ 2147483647) × (length c.1 < 2147483648)) }
        ensures formed { IsModel self.now }

        // With the texts of names they are the same, as long as each number has its own.
        ensures named { AreNamedClauses self.now pins.now result }
    {
        self.put_together(alloc, pins)
    }
}
