//! Classes of the expressions of an arena.

ghost use Rattle.std.specs.Prelude.{◌≡◌, ℕ, ◌<◌, ◌++◌, List, length, All, Some, slice_get, IfOk, OnOk};
ghost use Rattle.spec_expressions.specs.Expression.{ExprOf};
ghost use Rattle.mrs_arena.specs.Expressions.{expr_at, list_of};
ghost use Rattle.expr_classes.specs.Terms.{Term, AreApart};
ghost use Rattle.expr_classes.specs.Classes.{Stands, ListStands, AllStand, HaveExprs, Grown, AreBelow, AreClasses};

use crate::classes::Classes;
use crate::key::{Key, class_at, key_of, parts_of};
use crate::memory::NoMemory;
use crate::table::Table;
use mrs_arena::{Arena, ExprId};
use std::alloc::Global;

/// A part of a list.
fn part_at(parts: &[ExprId], k: usize) -> ExprId
    requires { k < length parts.now }
    ensures place { slice_get parts.now k ≡ Some result }
    ensures below { (n : ℕ) → All (λ part. part.0 < n) parts.now → result.0 < n }
{
    parts[k]
}

/// The class of a list of expressions, unless one of them has none.
fn class_of_list(
    table: &mut Table,
    classes: &[Option<usize>],
    parts: &[ExprId],
) -> Result<Option<usize>, NoMemory>
    requires parts { All (λ part. part.0 < length classes.now) parts.now }
    requires have { HaveExprs table.old classes.now }
    ensures stands { IfOk result (λ c. (exprs : List (ExprOf ℕ)) → AllStand table.old classes.now exprs → ListStands table.new c (list_of (expr_at exprs) parts.now)) }
    ensures have { OnOk result (HaveExprs table.new classes.now) }
    ensures grown { OnOk result (Grown table.old table.new) }
{
    let mut class = table.class(Key::Empty)?;
    let mut left = parts.len();
    'back: while left > 0 {
        left -= 1;
        let Some(first) = class_at(classes, part_at(parts, left)) else {
            return Ok(None);
        };
        class = table.class(Key::Chain(first, class))?;
    }
    Ok(Some(class))
}

/// The class of an expression, unless an Other stands in it.
fn class_of(
    table: &mut Table,
    classes: &[Option<usize>],
    arena: &Arena,
    e: ExprId,
) -> Result<Option<usize>, NoMemory>
    requires within { e.0 < length arena.now.exprs }
    requires next { e.0 ≡ length classes.now }
    requires all { AllStand table.old classes.now arena.now.exprs }
    ensures stands { IfOk result (λ c. Stands table.new c (expr_at arena.now.exprs e.0)) }
    ensures grown { OnOk result (Grown table.old table.new) }
{
    let layer = arena.expr(e);
    let list = class_of_list(table, classes, parts_of(layer))?;
    match key_of(classes, list, layer) {
        Some(key) => Ok(Some(table.class(key)?)),
        None => Ok(None),
    }
}

/// The classes of the expressions of an arena, in order, which join the table.
fn all_classes(
    alloc: Global,
    table: &mut Table,
    arena: &Arena,
) -> Result<Vec<Option<usize>>, NoMemory>
    ensures count { IfOk result (λ classes. length classes.items ≡ length arena.now.exprs) }
    ensures all { IfOk result (λ classes. AllStand table.new classes.items arena.now.exprs) }
{
    let mut classes = Vec::new(alloc);
    for e in 0..arena.expr_count() {
        let class = class_of(table, &classes, arena, ExprId(e))?;
        classes.push(class)?;
    }
    Ok(classes)
}

/// The classes of the expressions of an arena. Two have one class exactly where they are equal part by part and no Other stands in
/// them; an expression in which one stands has no class.
pub fn number(alloc: Global, arena: &Arena) -> Result<Classes, NoMemory>
    ensures same { IfOk result (λ c. AreClasses arena.now.exprs c.classes) }
    ensures below { IfOk result AreBelow }
{
    let mut table = Table::new(alloc);
    let classes = all_classes(alloc, &mut table, arena)?;
    let count = table.len();
    Ok(Classes::from_parts(classes, count))
}
