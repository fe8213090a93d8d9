//! Constraints as formulas.

ghost use Rattle.std.specs.Prelude.{◌≡◌, ◌+◌, ◌<◌, ◌≤◌, nat_eq, length, IfOk, IfSome, OnOk};
ghost use Rattle.mrs_arena.specs.Expressions.{expr_at};
ghost use Rattle.spec_features.specs.Theory.{parameter, leaf, formula, parts};
ghost use Rattle.spec_features.specs.Formula.{Negation, Joined};
ghost use Rattle.feat_model.specs.Views.{connective_of, formula_of};
ghost use Rattle.feat_model.specs.Found.{atoms_of, AreNumbered};
ghost use Rattle.feat_model.specs.Meets.{numbers_of, IsScope, Meets};

use crate::asking::asked_name;
use crate::atoms::Atoms;
use crate::connective::Connective;
use crate::formula::Formula;
use crate::operators::connective;
use crate::parameters::parameter;
use crate::scope::Scope;
use feat_proof::NoMemory;
use mrs_arena::{ExprId, ExprRef};
use std::alloc::Global;

/// The boolean parameter that an expression stands for, counted from 0.
fn parameter_of(scope: &Scope<'_>, e: ExprId) -> Option<u32>
    requires within { e.0 < length scope.now.arena.now.exprs }
    requires scope { IsScope scope.now.arena.now.exprs scope.now.classes.now scope.now.names.now.keys }
    ensures place { result ≡ parameter nat_eq (numbers_of scope.now.names.now.keys) (expr_at scope.now.arena.now.exprs e.0) }
    ensures few { IfSome result (λ k. k < 4096) }
{
    match asked_name(scope.arena, e) {
        Some(name) => parameter(scope.names, name),
        None => None,
    }
}

/// An expression that is no connective: a parameter, or an atom.
fn leaf(scope: &Scope<'_>, atoms: &mut Atoms, e: ExprId) -> Result<Formula, NoMemory>
    requires within { e.0 < length scope.now.arena.now.exprs }
    requires scope { IsScope scope.now.arena.now.exprs scope.now.classes.now scope.now.names.now.keys }
    requires numbered { AreNumbered scope.now.classes.now.classes scope.now.classes.now.count atoms.old.found.items atoms.old.numbers.items }
    requires few { length atoms.old.found.items + 1 ≤ 4194304 }
    ensures met { IfOk result (λ f. Meets scope.now.arena.now.exprs
        (leaf nat_eq (numbers_of scope.now.names.now.keys) (expr_at scope.now.arena.now.exprs e.0) (atoms_of scope.now.arena.now.exprs atoms.old.found.items)) f atoms.new.found.items) }
    ensures numbered { OnOk result (AreNumbered scope.now.classes.now.classes scope.now.classes.now.count atoms.new.found.items atoms.new.numbers.items) }
    ensures few { OnOk result (length atoms.new.found.items ≤ length atoms.old.found.items + 1) }
{
    if let Some(k) = parameter_of(scope, e) {
        return Ok(Formula::Variable(k + 1));
    }
    let before = scope.names.len() as u32;
    let k = atoms.atom(scope.classes, e)?;
    Ok(Formula::Variable(before + k + 1))
}

/// The negation of a formula.
fn negation(alloc: Global, part: Formula) -> Result<Formula, NoMemory>
    ensures { IfOk result (λ f. formula_of f ≡ Negation (formula_of part)) }
{
    Ok(Formula::Negation(Box::new(alloc, part)?))
}

/// Two formulas joined by a connective.
fn joined(
    alloc: Global,
    connective: Connective,
    left: Formula,
    right: Formula,
) -> Result<Formula, NoMemory>
    ensures { IfOk result (λ f. formula_of f ≡ Joined (connective_of connective) (formula_of left) (formula_of right)) }
{
    Ok(Formula::Joined(connective, Box::new(alloc, left)?, Box::new(alloc, right)?))
}

/// The formula of a constraint, or of a part of one.
pub(crate) fn formula(
    alloc: Global,
    scope: &Scope<'_>,
    atoms: &mut Atoms,
    e: ExprId,
) -> Result<Formula, NoMemory>
    requires within { e.0 < length scope.now.arena.now.exprs }
    requires scope { IsScope scope.now.arena.now.exprs scope.now.classes.now scope.now.names.now.keys }
    requires numbered { AreNumbered scope.now.classes.now.classes scope.now.classes.now.count atoms.old.found.items atoms.old.numbers.items }
    requires few { length atoms.old.found.items + parts (expr_at scope.now.arena.now.exprs e.0) ≤ 4194304 }
    ensures met { IfOk result (λ f. Meets scope.now.arena.now.exprs
        (formula nat_eq (numbers_of scope.now.names.now.keys) (expr_at scope.now.arena.now.exprs e.0) (atoms_of scope.now.arena.now.exprs atoms.old.found.items)) f atoms.new.found.items) }
    ensures numbered { OnOk result (AreNumbered scope.now.classes.now.classes scope.now.classes.now.count atoms.new.found.items atoms.new.numbers.items) }
    ensures few { OnOk result (length atoms.new.found.items ≤ length atoms.old.found.items + parts (expr_at scope.now.arena.now.exprs e.0)) }
{
    match scope.arena.expr(e) {
        ExprRef::Truth(truth) => Ok(Formula::Constant(truth)),
        ExprRef::Not(part) => {
            let part = formula(alloc, scope, atoms, part)?;
            negation(alloc, part)
        }
        ExprRef::Binary(op, left, right) => match connective(op) {
            Some(connective) => {
                let left = formula(alloc, scope, atoms, left)?;
                let right = formula(alloc, scope, atoms, right)?;
                joined(alloc, connective, left, right)
            }
            None => leaf(scope, atoms, e),
        },
        _ => leaf(scope, atoms, e),
    }
}
