//! The kinds of objects that are expressions, and the operators, by their texts.

ghost use Rattle.std.specs.Prelude.{◌≡◌, option_map};
ghost use Rattle.spec_expressions.specs.Kind.{kind_named};
ghost use Rattle.spec_expressions.specs.Expression.{op_named};
ghost use Rattle.mrs_arena.specs.Expressions.{op_of};
ghost use Rattle.expr_shape.specs.Shapes.{kind_of};

use mrs_arena::Op;

/// A kind of object, by the text of its `_type`.
#[derive(Clone, Copy)]
pub(crate) enum ExprKind {
    Truth,
    Integer,
    Bits,
    Identifier,
    Unary,
    Binary,
    Function,
    Set,
    Concat,
    Square,
}

/// The kind whose `_type` has that text.
pub(crate) fn kind_named(text: &str) -> Option<ExprKind>
    ensures { option_map kind_of result ≡ kind_named text.now }
{
    match text {
        "AST.Bool" => Some(ExprKind::Truth),
        "AST.Integer" => Some(ExprKind::Integer),
        "Values.Value" => Some(ExprKind::Bits),
        "AST.Identifier" => Some(ExprKind::Identifier),
        "AST.UnaryOp" => Some(ExprKind::Unary),
        "AST.BinaryOp" => Some(ExprKind::Binary),
        "AST.Function" => Some(ExprKind::Function),
        "AST.Set" => Some(ExprKind::Set),
        "AST.Concat" => Some(ExprKind::Concat),
        "AST.SquareOp" => Some(ExprKind::Square),
        _ => None,
    }
}

/// The operator of that text.
pub(crate) fn op_named(text: &str) -> Option<Op>
    ensures { option_map op_of result ≡ op_named text.now }
{
    match text {
        "&&" => Some(Op::And),
        "||" => Some(Op::Or),
        "-->" => Some(Op::Implies),
        "<->" => Some(Op::Iff),
        "==" => Some(Op::Eq),
        "!=" => Some(Op::Ne),
        "<" => Some(Op::Lt),
        "<=" => Some(Op::Le),
        ">" => Some(Op::Gt),
        ">=" => Some(Op::Ge),
        "IN" => Some(Op::Member),
        _ => None,
    }
}
