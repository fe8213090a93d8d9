//! Reads expressions, and puts each behind its parts.

ghost use Rattle.std.specs.Prelude.{◌≡◌};
ghost use Rattle.spec_expressions.specs.Shape.{AName, ANot, ABinary, ACall, ASet, AJoin, AnIndex, ASlice};
ghost use Rattle.spec_expressions.specs.Reading.{expression};
ghost use Rattle.mrs_names.specs.Texts.{IsExtended};
ghost use Rattle.mrs_arena.specs.Expressions.{op_of};
ghost use Rattle.expr_shape.specs.Shapes.{IsArgument};
ghost use Rattle.mrs_walk.specs.Gives.{Puts};
ghost use Rattle.mrs_walk.specs.Here.{spot_of};
ghost use Rattle.schema_draft.specs.Drafted.{counts};
ghost use Rattle.expression_reader.specs.ExprsRead.{formed_at, part, parts, IsRead, IsListRead};

use crate::functions::read_function;
use expr_shape::{Shape, shape_of};
use mrs_arena::{Expr, ExprId, ExprList, Op};
use mrs_walk::{Here, ReadFault};
use schema_draft::Draft;
use serde_json::Value;

/// An expression: its number. Its parts are put before it, and the name that it holds is taken behind them.
#[cycle(expressions)]
#[tactic(auto, using(schema_draft::proofs::KeptLaws::kept))]
pub fn read_expression(here: &Here<'_>, draft: &mut Draft) -> Result<ExprId, ReadFault>
    ensures walk { Puts result (expression (spot_of here.now)) (counts draft.old) (counts draft.new)
        (λ e id. IsRead draft.old draft.new e id.0) }
    ensures nodes { draft.new.nodes ≡ draft.old.nodes }
    ensures kept { IsExtended draft.old.names draft.new.names }
{
    here.object()?;
    match shape_of(here.value) {
        Shape::Truth(b) => draft.expr(Expr::Truth(b), here),
        Shape::Integer(n) => draft.expr(Expr::Integer(n), here),
        Shape::Bits(pattern) => draft.expr(Expr::Bits(pattern), here),
        Shape::Name(text) => read_name_expression(here, text, draft),
        Shape::Not => read_not(here, draft),
        Shape::Binary(op) => read_binary(here, op, draft),
        Shape::Call(name) => read_call(here, name, draft),
        Shape::Set => read_set_expression(here, draft),
        Shape::Join => read_join(here, draft),
        Shape::Index(argument) => read_index(here, argument, draft),
        Shape::Slice(argument) => read_slice(here, argument, draft),
        Shape::Other => draft.expr(Expr::Other, here),
    }
}

/// A field or a parameter of that name.
#[tactic(auto, using(schema_draft::proofs::StepRules::steps))]
fn read_name_expression(here: &Here<'_>, text: &str, draft: &mut Draft) -> Result<ExprId, ReadFault>
    ensures walk { Puts result (formed_at (AName text.now) (spot_of here.now)) (counts draft.old) (counts draft.new)
        (λ e id. IsRead draft.old draft.new e id.0) }
    ensures nodes { draft.new.nodes ≡ draft.old.nodes }
    ensures kept { IsExtended draft.old.names draft.new.names }
{
    let name = draft.name(text, here)?;
    draft.expr(Expr::Name(name), here)
}

/// Not `expr`.
#[cycle(expressions)]
#[tactic(auto, using(schema_draft::proofs::StepRules::steps))]
fn read_not(here: &Here<'_>, draft: &mut Draft) -> Result<ExprId, ReadFault>
    ensures walk { Puts result (formed_at ANot (spot_of here.now)) (counts draft.old) (counts draft.new)
        (λ e id. IsRead draft.old draft.new e id.0) }
    ensures nodes { draft.new.nodes ≡ draft.old.nodes }
    ensures kept { IsExtended draft.old.names draft.new.names }
{
    let part = read_part(here, "expr", draft)?;
    draft.expr(Expr::Not(part), here)
}

/// `left` and `right`.
#[cycle(expressions)]
#[tactic(auto, using(schema_draft::proofs::StepRules::steps))]
fn read_binary(here: &Here<'_>, op: Op, draft: &mut Draft) -> Result<ExprId, ReadFault>
    ensures walk { Puts result (formed_at (ABinary (op_of op)) (spot_of here.now)) (counts draft.old) (counts draft.new)
        (λ e id. IsRead draft.old draft.new e id.0) }
    ensures nodes { draft.new.nodes ≡ draft.old.nodes }
    ensures kept { IsExtended draft.old.names draft.new.names }
{
    let left = read_part(here, "left", draft)?;
    let right = read_part(here, "right", draft)?;
    draft.expr(Expr::Binary(op, left, right), here)
}

/// The function of that name, of `arguments`.
#[cycle(expressions)]
#[tactic(auto, using(schema_draft::proofs::StepRules::steps))]
fn read_call(here: &Here<'_>, name: &str, draft: &mut Draft) -> Result<ExprId, ReadFault>
    ensures walk { Puts result (formed_at (ACall name.now) (spot_of here.now)) (counts draft.old) (counts draft.new)
        (λ e id. IsRead draft.old draft.new e id.0) }
    ensures nodes { draft.new.nodes ≡ draft.old.nodes }
    ensures kept { IsExtended draft.old.names draft.new.names }
{
    let arguments = read_list(here, "arguments", draft)?;
    let function = read_function(here, name, draft)?;
    draft.expr(Expr::Call(function, arguments), here)
}

/// Of `values`.
#[cycle(expressions)]
#[tactic(auto, using(schema_draft::proofs::StepRules::steps))]
fn read_set_expression(here: &Here<'_>, draft: &mut Draft) -> Result<ExprId, ReadFault>
    ensures walk { Puts result (formed_at ASet (spot_of here.now)) (counts draft.old) (counts draft.new)
        (λ e id. IsRead draft.old draft.new e id.0) }
    ensures nodes { draft.new.nodes ≡ draft.old.nodes }
    ensures kept { IsExtended draft.old.names draft.new.names }
{
    let members = read_list(here, "values", draft)?;
    draft.expr(Expr::Set(members), here)
}

/// Of `values`, joined.
#[cycle(expressions)]
#[tactic(auto, using(schema_draft::proofs::StepRules::steps))]
fn read_join(here: &Here<'_>, draft: &mut Draft) -> Result<ExprId, ReadFault>
    ensures walk { Puts result (formed_at AJoin (spot_of here.now)) (counts draft.old) (counts draft.new)
        (λ e id. IsRead draft.old draft.new e id.0) }
    ensures nodes { draft.new.nodes ≡ draft.old.nodes }
    ensures kept { IsExtended draft.old.names draft.new.names }
{
    let parts = read_list(here, "values", draft)?;
    draft.expr(Expr::Join(parts), here)
}

/// Of `var` one bit: the argument says which, and is both the high end and the low one.
#[cycle(expressions)]
#[tactic(auto, using(schema_draft::proofs::StepRules::steps))]
fn read_index(here: &Here<'_>, argument: &Value, draft: &mut Draft) -> Result<ExprId, ReadFault>
    requires { IsArgument (spot_of here.now).value argument.now }
    ensures walk { Puts result (formed_at AnIndex (spot_of here.now)) (counts draft.old) (counts draft.new)
        (λ e id. IsRead draft.old draft.new e id.0) }
    ensures nodes { draft.new.nodes ≡ draft.old.nodes }
    ensures kept { IsExtended draft.old.names draft.new.names }
{
    let bits = read_part(here, "var", draft)?;
    let list = here.needed("arguments")?;
    let bit = read_expression(&list.element(0, argument), draft)?;
    draft.expr(Expr::Slice(bits, bit, bit), here)
}

/// Of `var` the bits from the `left` of the argument to its `right`.
#[cycle(expressions)]
#[tactic(auto, using(schema_draft::proofs::StepRules::steps))]
fn read_slice(here: &Here<'_>, argument: &Value, draft: &mut Draft) -> Result<ExprId, ReadFault>
    requires { IsArgument (spot_of here.now).value argument.now }
    ensures walk { Puts result (formed_at ASlice (spot_of here.now)) (counts draft.old) (counts draft.new)
        (λ e id. IsRead draft.old draft.new e id.0) }
    ensures nodes { draft.new.nodes ≡ draft.old.nodes }
    ensures kept { IsExtended draft.old.names draft.new.names }
{
    let bits = read_part(here, "var", draft)?;
    let list = here.needed("arguments")?;
    let ends = list.element(0, argument);
    let high = read_part(&ends, "left", draft)?;
    let low = read_part(&ends, "right", draft)?;
    draft.expr(Expr::Slice(bits, high, low), here)
}

/// The expression that the member of that name is.
#[cycle(expressions)]
#[tactic(auto, using(schema_draft::proofs::KeptLaws::kept))]
fn read_part(here: &Here<'_>, key: &str, draft: &mut Draft) -> Result<ExprId, ReadFault>
    ensures walk { Puts result (part key.now (spot_of here.now)) (counts draft.old) (counts draft.new)
        (λ e id. IsRead draft.old draft.new e id.0) }
    ensures nodes { draft.new.nodes ≡ draft.old.nodes }
    ensures kept { IsExtended draft.old.names draft.new.names }
{
    let part = (&*here).needed(&*key)?;
    read_expression(&part, draft)
}

/// The list of expressions that the member of that name is.
#[cycle(expressions)]
#[tactic(auto, using(schema_draft::proofs::KeptLaws::kept))]
fn read_list(here: &Here<'_>, key: &str, draft: &mut Draft) -> Result<ExprList, ReadFault>
    ensures walk { Puts result (parts key.now (spot_of here.now)) (counts draft.old) (counts draft.new)
        (λ es list. IsListRead draft.old draft.new es list) }
    ensures nodes { draft.new.nodes ≡ draft.old.nodes }
    ensures kept { IsExtended draft.old.names draft.new.names }
{
    draft.parts_are_few();
    let list = (&*here).needed(&*key)?;
    let values = list.elements()?;
    let mut ids = Vec::new(here.alloc);
    for (i, value) in values.iter().enumerate() {
        let id = read_expression(&list.element(i, value), draft)?;
        ids.push(id)?;
    }
    draft.list(&ids, here)
}
