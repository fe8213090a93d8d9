//! Works the value of an expression from those of its parts.

ghost use Rattle.std.specs.Prelude.{◌≡◌, ◌<◌, length};
ghost use Rattle.spec_expressions.specs.Expression.{with_names};
ghost use Rattle.spec_expressions.specs.Operations.{member};
ghost use Rattle.spec_expressions.specs.Value.{elements};
ghost use Rattle.mrs_arena.specs.Expressions.{expr_at};
ghost use Rattle.ast_eval.specs.Choices.{configuration_of};
ghost use Rattle.ast_eval.specs.Fields.{fields_by};
ghost use Rattle.ast_eval.specs.Views.{truth_of, value_of};
ghost use Rattle.ast_eval.specs.Worth.{value_by, own_text};

use crate::bits::sliced;
use crate::comparison::equal;
use crate::config::Config;
use crate::env::Env;
use crate::kleene::Truth;
use crate::named::{is_implemented, name_value};
use crate::operators::{of_one, of_two};
use crate::row::Row;
use crate::val::Val;
use mrs_arena::{Arena, ExprId, ExprRef, Func, Op};

/// The value of an expression.
///
/// Where both ends of a slice are one expression, that is worked once: in slices of slices the work would double each time.
#[cycle(evaluate)]
pub(crate) fn evaluate(arena: &Arena, e: ExprId, config: &Config, env: &Env<'_>, w: u32) -> Val
    requires { e.0 < length arena.now.exprs }
    ensures { value_of result ≡ value_by own_text (expr_at arena.now.exprs e.0) config.now env.now w }
{
    match arena.expr(e) {
        ExprRef::Truth(holds) => Val::Truth(Truth::known(holds)),
        ExprRef::Integer(number) => Val::Int(i128::from(number)),
        ExprRef::Bits(bits) => Val::Bits(bits),
        ExprRef::Name(name) => name_value(name, config, env, w),
        ExprRef::Not(part) => Val::Truth(evaluate(arena, part, config, env, w).truth().negated()),
        ExprRef::Binary(Op::Member, left, right) => {
            let left = evaluate(arena, left, config, env, w);
            Val::Truth(member(arena, left, right, config, env, w))
        }
        ExprRef::Binary(op, left, right) => {
            let left = evaluate(arena, left, config, env, w);
            let right = evaluate(arena, right, config, env, w);
            Val::Truth(of_two(op, left, right))
        }
        ExprRef::Call(func, args) => {
            let [arg] = args else {
                return Val::Truth(Truth::Open);
            };
            match func {
                Func::IsFeatureImplemented => Val::Truth(is_implemented(arena, *arg, config)),
                _ => of_one(func, evaluate(arena, *arg, config, env, w)),
            }
        }
        ExprRef::Join(parts) => {
            let mut row = Row::Start;
            for part in parts {
                row = row.with(evaluate(arena, *part, config, env, w));
            }
            row.value()
        }
        ExprRef::Slice(part, high, low) => {
            let part = evaluate(arena, part, config, env, w);
            let top = evaluate(arena, high, config, env, w);
            if high == low {
                sliced(part, top, top)
            } else {
                sliced(part, top, evaluate(arena, low, config, env, w))
            }
        }
        ExprRef::Set(_) | ExprRef::Other => Val::Truth(Truth::Open),
    }
}

/// Whether a value is equal to one of the elements of a set: `Open` where the right side is no set as it is written.
#[cycle(evaluate)]
fn member(arena: &Arena, left: Val, right: ExprId, config: &Config, env: &Env<'_>, w: u32) -> Truth
    requires { right.0 < length arena.now.exprs }
    ensures { truth_of result ≡ member (value_of left) (elements (with_names own_text (expr_at arena.now.exprs right.0)) (configuration_of own_text config.now) (fields_by own_text env.now) w) }
{
    let ExprRef::Set(parts) = arena.expr(right) else {
        return Truth::Open;
    };
    let mut is_among = Truth::No;
    for part in parts {
        is_among = is_among.or(equal(left, evaluate(arena, *part, config, env, w)));
    }
    is_among
}
