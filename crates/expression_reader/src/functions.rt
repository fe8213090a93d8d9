//! The functions that expressions call, by their names.

ghost use Rattle.std.specs.Prelude.{◌≡◌, length};
ghost use Rattle.spec_expressions.specs.Expression.{function_named};
ghost use Rattle.spec_expressions.specs.Reading.{function_at};
ghost use Rattle.mrs_names.specs.Texts.{IsExtended};
ghost use Rattle.mrs_arena.specs.Expressions.{function_by, FunctionHasName};
ghost use Rattle.mrs_arena.specs.Placed.{text_of};
ghost use Rattle.mrs_walk.specs.Gives.{Puts};
ghost use Rattle.mrs_walk.specs.Here.{spot_of};
ghost use Rattle.schema_draft.specs.Drafted.{counts};

use mrs_arena::Func;
use mrs_walk::{Here, ReadFault};
use schema_draft::Draft;

/// The function of that name. The names of those with a meaning of their own take no number.
#[tactic(auto, using(schema_draft::proofs::KeptLaws::kept))]
pub(crate) fn read_function(
    here: &Here<'_>,
    name: &str,
    draft: &mut Draft,
) -> Result<Func, ReadFault>
    ensures walk { Puts result (function_at (spot_of here.now) (function_named name.now)) (counts draft.old) (counts draft.new)
        (λ function func. (function_by (text_of draft.new.names) func ≡ function) × FunctionHasName (length draft.new.names) func) }
    ensures nodes { draft.new.nodes ≡ draft.old.nodes }
    ensures exprs { draft.new.exprs ≡ draft.old.exprs }
    ensures parts { draft.new.parts ≡ draft.old.parts }
    ensures kept { IsExtended draft.old.names draft.new.names }
{
    match name {
        "UInt" => Ok(Func::UInt),
        "IsZero" => Ok(Func::IsZero),
        "IsOnes" => Ok(Func::IsOnes),
        "IsFeatureImplemented" => Ok(Func::IsFeatureImplemented),
        _ => {
            let name = draft.name(name, here)?;
            Ok(Func::Named(name))
        }
    }
}
