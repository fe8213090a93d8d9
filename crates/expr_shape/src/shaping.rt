//! The shape of an object, by its `_type` and its members.

ghost use Rattle.std.specs.Prelude.{◌≡◌, Some, codes, option_map, option_and_then, IfSome};
ghost use Rattle.serde_json.specs.Data.{Data};
ghost use Rattle.serde_json.specs.View.{view};
ghost use Rattle.spec_expressions.specs.Kind.{OfBool, OfInteger, OfBits, OfIdentifier, OfUnary, OfBinary, OfFunction, OfSet, OfConcat, OfSquare};
ghost use Rattle.spec_expressions.specs.Kind as kinds;
ghost use Rattle.spec_expressions.specs.Shape as spec;
ghost use Rattle.spec_expressions.specs.Expression as expression;
ghost use Rattle.mrs_arena.specs.Expressions.{op_of};
ghost use Rattle.expr_shape.specs.Shapes.{kind_of, shape_is, IsArgument, HasArgument};

use crate::kind::{ExprKind, kind_named, op_named};
use crate::members::{bits_at, has_object, has_objects, name_at, says, text_at, the_one_at};
use crate::shape::Shape;
use mrs_arena::Op;
use serde_json::Value;

/// The shape of a value. One that is no object, or whose `_type` or members have not the shape of an expression, is
/// `Other`.
pub fn shape_of(value: &Value) -> Shape<'_>
    ensures shape { shape_is result ≡ spec.shape_of (view value.now) }
    ensures argument { HasArgument (view value.now) result }
{
    match kind_at(value) {
        Some(kind) => match kind_shape(kind, value) {
            Some(shape) => shape,
            None => Shape::Other,
        },
        None => Shape::Other,
    }
}

fn kind_at(value: &Value) -> Option<ExprKind>
    ensures { option_map kind_of result ≡ option_and_then kinds.kind_named (spec.text_at (codes "_type") (view value.now)) }
{
    match text_at(value, "_type") {
        Some(text) => kind_named(text),
        None => None,
    }
}

/// The shape of an object of a kind, if it has the shape of one.
fn kind_shape(kind: ExprKind, value: &Value) -> Option<Shape<'_>>
    ensures shape { option_map shape_is result ≡ spec.kind_shape (kind_of kind) (view value.now) }
    ensures argument { IfSome result (HasArgument (view value.now)) }
{
    match kind {
        ExprKind::Truth => truth_shape(value),
        ExprKind::Integer => integer_shape(value),
        ExprKind::Bits => bits_shape(value),
        ExprKind::Identifier => name_shape(value),
        ExprKind::Unary => unary_shape(value),
        ExprKind::Binary => binary_shape(value),
        ExprKind::Function => call_shape(value),
        ExprKind::Set => when(has_objects(value, "values"), Shape::Set),
        ExprKind::Concat => when(has_objects(value, "values"), Shape::Join),
        ExprKind::Square => square_shape(value),
    }
}

fn truth_shape(value: &Value) -> Option<Shape<'_>>
    ensures shape { option_map shape_is result ≡ spec.kind_shape OfBool (view value.now) }
    ensures argument { IfSome result (HasArgument (view value.now)) }
{
    match value.get("value") {
        Some(found) => match found.as_bool() {
            Some(b) => Some(Shape::Truth(b)),
            None => None,
        },
        None => None,
    }
}

fn integer_shape(value: &Value) -> Option<Shape<'_>>
    ensures shape { option_map shape_is result ≡ spec.kind_shape OfInteger (view value.now) }
    ensures argument { IfSome result (HasArgument (view value.now)) }
{
    match value.get("value") {
        Some(found) => match found.as_i64() {
            Some(n) => Some(Shape::Integer(n)),
            None => None,
        },
        None => None,
    }
}

fn bits_shape(value: &Value) -> Option<Shape<'_>>
    ensures shape { option_map shape_is result ≡ spec.kind_shape OfBits (view value.now) }
    ensures argument { IfSome result (HasArgument (view value.now)) }
{
    match bits_at(value, "value") {
        Some(pattern) => Some(Shape::Bits(pattern)),
        None => None,
    }
}

fn name_shape(value: &Value) -> Option<Shape<'_>>
    ensures shape { option_map shape_is result ≡ spec.kind_shape OfIdentifier (view value.now) }
    ensures argument { IfSome result (HasArgument (view value.now)) }
{
    match name_at(value, "value") {
        Some(text) => Some(Shape::Name(text)),
        None => None,
    }
}

fn unary_shape(value: &Value) -> Option<Shape<'_>>
    ensures shape { option_map shape_is result ≡ spec.kind_shape OfUnary (view value.now) }
    ensures argument { IfSome result (HasArgument (view value.now)) }
{
    when(
        says(value, "op", "!") && has_object(value, "expr"),
        Shape::Not,
    )
}

fn binary_shape(value: &Value) -> Option<Shape<'_>>
    ensures shape { option_map shape_is result ≡ spec.kind_shape OfBinary (view value.now) }
    ensures argument { IfSome result (HasArgument (view value.now)) }
{
    if !(has_object(value, "left") && has_object(value, "right")) {
        return None;
    }
    match op_at(value) {
        Some(op) => Some(Shape::Binary(op)),
        None => None,
    }
}

fn op_at(value: &Value) -> Option<Op>
    ensures { option_map op_of result ≡ option_and_then expression.op_named (spec.text_at (codes "op") (view value.now)) }
{
    match text_at(value, "op") {
        Some(text) => op_named(text),
        None => None,
    }
}

fn call_shape(value: &Value) -> Option<Shape<'_>>
    ensures shape { option_map shape_is result ≡ spec.kind_shape OfFunction (view value.now) }
    ensures argument { IfSome result (HasArgument (view value.now)) }
{
    if !has_objects(value, "arguments") {
        return None;
    }
    match name_at(value, "name") {
        Some(name) => Some(Shape::Call(name)),
        None => None,
    }
}

fn square_shape(value: &Value) -> Option<Shape<'_>>
    ensures shape { option_map shape_is result ≡ spec.kind_shape OfSquare (view value.now) }
    ensures argument { IfSome result (HasArgument (view value.now)) }
{
    if !has_object(value, "var") {
        return None;
    }
    match the_one_at(value, "arguments") {
        Some(argument) => index_shape(argument),
        None => None,
    }
}

/// The shape of a square operator by its one argument.
fn index_shape(argument: &Value) -> Option<Shape<'_>>
    ensures shape { option_map shape_is result ≡ spec.index_shape (view argument.now) }
    ensures argument { (d : Data) → IsArgument d argument.now → IfSome result (HasArgument d) }
{
    if !says(argument, "_type", "AST.Slice") {
        return when(argument.is_object(), Shape::Index(argument));
    }
    let has_ends = has_object(argument, "left") && has_object(argument, "right");
    when(has_ends, Shape::Slice(argument))
}

/// That shape, where it is so.
fn when(so: bool, shape: Shape<'_>) -> Option<Shape<'_>>
    ensures shape { option_map shape_is result ≡ spec.where_so so (Some (shape_is shape.entry)) }
    ensures same { IfSome result (λ it. it ≡ shape.entry) }
{
    if so { Some(shape) } else { None }
}
