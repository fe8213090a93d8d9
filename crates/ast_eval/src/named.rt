//! What names mean: fields and parameters.

ghost use Rattle.std.specs.Prelude.{◌≡◌, ◌<◌, length};
ghost use Rattle.spec_expressions.specs.Expression.{Name, no_exprs, expr, with_names};
ghost use Rattle.spec_expressions.specs.Value.{implemented};
ghost use Rattle.mrs_arena.specs.Expressions.{expr_at};
ghost use Rattle.ast_eval.specs.Choices.{flag_in, configuration_of};
ghost use Rattle.ast_eval.specs.Views.{truth_of, value_of, state_truth};
ghost use Rattle.ast_eval.specs.Worth.{value_by, own_text};

use crate::config::Config;
use crate::env::Env;
use crate::kleene::Truth;
use crate::val::Val;
use bit_pattern::Pattern;
use mrs_arena::{Arena, ExprId, ExprRef};
use mrs_names::NameId;

/// The bits of the visible field of that name, or else the state of the boolean parameter of that name.
pub(crate) fn name_value(name: NameId, config: &Config, env: &Env<'_>, w: u32) -> Val
    ensures { value_of result ≡ value_by own_text (Name name.0) config.now env.now w }
{
    match env.range_of(name) {
        Some(range) => Val::Bits(Pattern::of_slice(u128::from(w), range)),
        None => Val::Truth(state_truth(name, config)),
    }
}

/// Whether the feature that an expression names is on: `Open` where the expression is no name, or that of no boolean parameter.
pub(crate) fn is_implemented(arena: &Arena, feature: ExprId, config: &Config) -> Truth
    requires { feature.0 < length arena.now.exprs }
    ensures { truth_of result ≡ implemented (expr (with_names own_text (expr_at arena.now.exprs feature.0)) no_exprs) (configuration_of own_text config.now) }
{
    match arena.expr(feature) {
        ExprRef::Name(name) => state_truth(name, config),
        _ => Truth::Open,
    }
}

fn state_truth(name: NameId, config: &Config) -> Truth
    ensures { truth_of result ≡ state_truth (flag_in name.0 config.now) }
{
    match config.state(name) {
        Some(is_on) => Truth::known(is_on),
        None => Truth::Open,
    }
}
