//! What an expression is worth, and whether a condition holds.

ghost use Rattle.std.specs.Prelude.{◌≡◌, ◌<◌, length, IfSome};
ghost use Rattle.mrs_arena.specs.Expressions.{expr_at};
ghost use Rattle.ast_eval.specs.Views.{truth_of, value_of};
ghost use Rattle.ast_eval.specs.Worth.{value_by, truth_by, own_text, condition_at, IsValue, IsTruth};

use crate::config::Config;
use crate::env::Env;
use crate::evaluate::evaluate;
use crate::kleene::Truth;
use crate::val::Val;
use mrs_arena::{Arena, ExprId};

/// The value of an expression under a configuration, with the fields that are visible, at a word.
///
/// It takes no memory, and the depth of the expression in stack.
pub fn eval(arena: &Arena, e: ExprId, config: &Config, env: &Env<'_>, w: u32) -> Val
    requires { e.0 < length arena.now.exprs }
    ensures value { value_of result ≡ value_by own_text (expr_at arena.now.exprs e.0) config.now env.now w }

    // by the texts of any names that are held
    ensures named { IsValue (expr_at arena.now.exprs e.0) config.now env.now w (value_of result) }
{
    evaluate(arena, e, config, env, w)
}

/// Whether a condition holds: `Yes` where there is none, and `Open` where its value is no truth.
pub fn truth(arena: &Arena, e: Option<ExprId>, config: &Config, env: &Env<'_>, w: u32) -> Truth
    requires { IfSome e (λ id. id.0 < length arena.now.exprs) }
    ensures value { truth_of result ≡ truth_by own_text (condition_at arena.now.exprs e) config.now env.now w }

    // by the texts of any names that are held
    ensures named { IsTruth (condition_at arena.now.exprs e) config.now env.now w (truth_of result) }
{
    match e {
        Some(e) => evaluate(arena, e, config, env, w).truth(),
        None => Truth::Yes,
    }
}
