//! Features as formulas.

ghost use Rattle.std.specs.Prelude.{◌≡◌};
ghost use Rattle.feat_model.specs.Inside.{IsModel, theory_of};

use crate::formula::Formula;
use crate::parameters::parameter;
use indexmap::IndexSet;
use mrs_names::NameId;
use std::alloc::{AllocError, Global};

/// The boolean parameters of features, how many atoms there are, and the constraints as formulas over both.
///
/// A clause sees the theory of the features, with the numbers of names.
#[derive(Drop)]
pub struct Model {
    names: IndexSet<NameId>,
    atoms: u32,
    constraints: Vec<Formula>,
}

impl std::marker::Model for Model {
    ghost use Rattle.std.specs.Prelude.{ℕ};
    ghost use Rattle.std.specs.Coded.{coded_ℕ};
    ghost use Rattle.spec_features.specs.Theory.{TheoryOf};
    ghost use Rattle.spec_features.specs.Codes.{theory_code};
    ghost use Rattle.feat_model.specs.Inside.{IsModel, theory_of};

    ghost Value = { TheoryOf ℕ };

    ghost coded = { theory_code coded_ℕ };

    ghost view = { λ m. theory_of m.names.keys m.atoms m.constraints.items };

    ghost invariant = { λ m. IsModel (theory_of m.names.keys m.atoms m.constraints.items) };
}

impl Model {
    ghost use Rattle.std.specs.Prelude.{◌≡◌, nat_eq, length, position, map, IfOk, IfSome, ◌<◌};
    ghost use Rattle.feat_model.specs.Views.{formula_of};

    /// The model of these parameters, atoms and constraints.
    pub(crate) fn from_parts(
        names: IndexSet<NameId>,
        atoms: u32,
        constraints: Vec<Formula>,
    ) -> Model
        requires { IsModel (theory_of names.keys atoms constraints.items) }
        ensures { result ≡ theory_of names.keys atoms constraints.items }
    {
        Model {
            names,
            atoms,
            constraints,
        }
    }

    /// How many atoms there are.
    pub fn atoms(&self) -> u32
        ensures { result ≡ self.now.atoms }
    {
        self.atoms
    }

    /// How many boolean parameters there are.
    pub(crate) fn name_count(&self) -> u32
        ensures count { result ≡ length self.now.names }
        ensures formed { IsModel self.now }
    {
        self.names.len() as u32
    }

    /// The boolean parameter of that name, counted from 0.
    pub(crate) fn parameter(&self, name: NameId) -> Option<u32>
        ensures place { result ≡ position (nat_eq name.0) self.now.names }
        ensures few { IfSome result (λ k. k < 4096) }
    {
        parameter(&self.names, name)
    }

    /// The names of the boolean parameters, in order.
    pub(crate) fn names(&self, alloc: Global) -> Result<Vec<NameId>, AllocError>
        ensures names { IfOk result (λ names. map (λ name. name.0) names.items ≡ self.now.names) }
        ensures formed { IsModel self.now }
    {
        let names = self.names.iter().copied().collect::<Vec<NameId>>(alloc)?;
        Ok(names)
    }

    /// The constraints.
    pub(crate) fn constraints(&self) -> &[Formula]
        ensures { map formula_of result.now ≡ self.now.constraints }
    {
        &self.constraints
    }
}
