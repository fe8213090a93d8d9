//! The feature that an expression asks for.

ghost use Rattle.std.specs.Prelude.{◌≡◌, ℕ, ◌<◌, length, All, option_map};
ghost use Rattle.spec_expressions.specs.Expression.{ExprOf};
ghost use Rattle.mrs_arena.specs.Expressions.{expr_at, layer, list_of, function_by, itself};
ghost use Rattle.spec_features.specs.Theory.{asked_name};
ghost use Rattle.feat_model.specs.Asked.{plain_name, sole_name, is_feature_test};

use mrs_arena::{Arena, ExprId, ExprRef, Func};
use mrs_names::NameId;

/// The name that an expression is.
fn name_of(e: ExprRef<'_>) -> Option<NameId>
    ensures { (at : ℕ → ExprOf ℕ) → option_map (λ name. name.0) result ≡ plain_name (layer at e.entry) }
{
    match e {
        ExprRef::Name(name) => Some(name),
        _ => None,
    }
}

/// Whether a function asks for a feature.
fn is_test(func: Func) -> bool
    ensures { result ≡ is_feature_test (function_by itself func) }
{
    match func {
        Func::IsFeatureImplemented => true,
        Func::UInt | Func::IsZero | Func::IsOnes | Func::Named(_) => false,
    }
}

/// The name that the only argument is.
fn sole_name(arena: &Arena, args: &[ExprId]) -> Option<NameId>
    requires { All (λ part. part.0 < length arena.now.exprs) args.now }
    ensures { option_map (λ name. name.0) result ≡ sole_name (list_of (expr_at arena.now.exprs) args.now) }
{
    match args {
        [arg] => name_of(arena.expr(*arg)),
        _ => None,
    }
}

/// The name of the feature that an expression asks for: its own, or the argument of `IsFeatureImplemented`.
pub(crate) fn asked_name(arena: &Arena, e: ExprId) -> Option<NameId>
    requires { e.0 < length arena.now.exprs }
    ensures { option_map (λ name. name.0) result ≡ asked_name (expr_at arena.now.exprs e.0) }
{
    match arena.expr(e) {
        ExprRef::Name(name) => Some(name),
        ExprRef::Call(func, args) if is_test(func) => sole_name(arena, args),
        _ => None,
    }
}
