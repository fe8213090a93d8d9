//! A model of features.

ghost use Rattle.std.specs.Prelude.{◌≡◌, ◌≢◌, ◌+◌, ◌<◌, ◌≤◌, nat_eq, length, map, sum_by, All, AllPairs, IfOk, OnOk};
ghost use Rattle.mrs_arena.specs.Expressions.{expr_at};
ghost use Rattle.features_reader.specs.FeatureViews.{param_of, features_of, AreFeatures};
ghost use Rattle.spec_features.specs.Features.{booleans};
ghost use Rattle.spec_features.specs.Theory.{formulas, theory, parts};
ghost use Rattle.expr_classes.specs.Classes.{AreBelow, AreClasses};
ghost use Rattle.feat_model.specs.Views.{formula_of};
ghost use Rattle.feat_model.specs.Found.{atoms_of, AreNumbered};
ghost use Rattle.feat_model.specs.Inside.{theory_of};
ghost use Rattle.feat_model.specs.Meets.{exprs_at, numbers_of, IsScope, MeetAll, with_name};

use crate::atoms::Atoms;
use crate::formula::Formula;
use crate::kinds::is_boolean;
use crate::model::Model;
use crate::scope::Scope;
use crate::translation::formula;
use expr_classes::Classes;
use feat_proof::NoMemory;
use indexmap::IndexSet;
use mrs_arena::{Arena, ExprId};
use mrs_names::NameId;
use mrs_schema::{Features, Param};
use std::alloc::Global;

/// The classes of the expressions.
fn classes_of(alloc: Global, arena: &Arena) -> Result<Classes, NoMemory>
    ensures same { IfOk result (λ c. AreClasses arena.now.exprs c.classes) }
    ensures below { IfOk result AreBelow }
{
    match expr_classes::number(alloc, arena) {
        Ok(classes) => Ok(classes),
        Err(_) => Err(NoMemory),
    }
}

/// Adds the name of a parameter that is on or off.
fn add_name(names: &mut IndexSet<NameId>, param: Param) -> Result<(), NoMemory>
    ensures { OnOk result (names.new.keys ≡ with_name param names.old.keys) }
{
    if is_boolean(param.kind) {
        names.insert(param.name)?;
    }
    Ok(())
}

/// The names of the boolean parameters, in order.
fn boolean_names(alloc: Global, params: &[Param]) -> Result<IndexSet<NameId>, NoMemory>
    requires { AllPairs (λ first second. first.name.0 ≢ second.name.0) params.now }
    ensures { IfOk result (λ names. numbers_of names.keys ≡ booleans (map param_of params.now)) }
{
    let mut names = IndexSet::new(alloc);
    for param in params {
        add_name(&mut names, *param)?;
    }
    Ok(names)
}

/// The formulas of constraints, one behind the other.
fn formulas(
    alloc: Global,
    scope: &Scope<'_>,
    atoms: &mut Atoms,
    constraints: &[ExprId],
) -> Result<Vec<Formula>, NoMemory>
    requires within { All (λ id. id.0 < length scope.now.arena.now.exprs) constraints.now }
    requires scope { IsScope scope.now.arena.now.exprs scope.now.classes.now scope.now.names.now.keys }
    requires numbered { AreNumbered scope.now.classes.now.classes scope.now.classes.now.count atoms.old.found.items atoms.old.numbers.items }
    requires few { length atoms.old.found.items + sum_by parts (exprs_at scope.now.arena.now.exprs constraints.now) ≤ 4194304 }
    ensures { IfOk result (λ fs. MeetAll scope.now.arena.now.exprs
        (formulas nat_eq (numbers_of scope.now.names.now.keys) (exprs_at scope.now.arena.now.exprs constraints.now) (atoms_of scope.now.arena.now.exprs atoms.old.found.items))
        fs.items atoms.new.found.items) }
{
    let mut all = Vec::new(alloc);
    for constraint in constraints {
        let made = formula(alloc, scope, atoms, *constraint)?;
        all.push(made)?;
    }
    Ok(all)
}

/// The constraints of features as formulas over the boolean parameters, which have these names, and over atoms; and how many
/// atoms there are.
fn translated(
    alloc: Global,
    f: &Features,
    names: &IndexSet<NameId>,
) -> Result<(Vec<Formula>, u32), NoMemory>
    requires sound { AreFeatures f.now }
    requires names { numbers_of names.now.keys ≡ booleans (map param_of f.now.params.items) }
    ensures { IfOk result (λ r. theory_of names.now.keys r.1 r.0.items ≡ theory nat_eq (features_of f.now)) }
{
    let classes = classes_of(alloc, &f.arena)?;
    let mut atoms = Atoms::new(alloc, &classes)?;
    let scope = Scope {
        arena: &f.arena,
        classes: &classes,
        names,
    };
    let constraints = formulas(alloc, &scope, &mut atoms, &f.constraints)?;
    let found = atoms.found.len() as u32;
    Ok((constraints, found))
}

impl Model {
    /// The boolean parameters of features, and their constraints as formulas over parameters and atoms.
    pub fn new(alloc: Global, f: &Features) -> Result<Model, NoMemory>
        requires { AreFeatures f.now }
        ensures { IfOk result (λ m. m ≡ theory nat_eq (features_of f.now)) }
    {
        let names = boolean_names(alloc, &f.params)?;
        let (constraints, atoms) = translated(alloc, f, &names)?;
        Ok(Model::from_parts(names, atoms, constraints))
    }
}
