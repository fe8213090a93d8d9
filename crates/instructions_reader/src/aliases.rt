//! Reads the aliases of leaves, and puts each behind the nodes before it.

ghost use Rattle.std.specs.Prelude.{◌≡◌, ◌++◌, ◌<◌, Some, codes, length};
ghost use Rattle.spec_walk.specs.Spot.{optional};
ghost use Rattle.spec_expressions.specs.Reading.{expression};
ghost use Rattle.spec_instructions.specs.Walk.{alias_of};
ghost use Rattle.mrs_names.specs.Texts.{IsExtended};
ghost use Rattle.mrs_arena.specs.Paths.{IsPlace};
ghost use Rattle.mrs_arena.specs.Placed.{preorder};
ghost use Rattle.mrs_walk.specs.Gives.{Puts};
ghost use Rattle.mrs_walk.specs.Here.{spot_of};
ghost use Rattle.schema_draft.specs.Drafted.{counts, parents, named_at, with_preferred};

use crate::nodes::read_own;
use expression_reader::read_expression;
use mrs_arena::{Kind, NodeId};
use mrs_walk::{Here, ReadFault};
use schema_draft::Draft;

/// An alias of the leaf `parent`. It is put below it, with its items, its condition and its preference.
#[tactic(auto, using(schema_draft::proofs::StepRules::steps))]
pub(crate) fn read_alias(
    here: &Here<'_>,
    parent: NodeId,
    draft: &mut Draft,
) -> Result<(), ReadFault>
    requires { IsPlace (parents draft.old.nodes) (Some parent.0) }
    ensures walk { Puts result (alias_of (named_at draft.old.nodes parent.0) (spot_of here.now)) (counts draft.old) (counts draft.new)
        (λ n _. draft.new.nodes ≡ draft.old.nodes ++ preorder (Some parent.0) (length draft.old.nodes) n) }
    ensures kept { IsExtended draft.old.names draft.new.names }
{
    read_own(here, Kind::Alias, Some(parent), draft)?;
    read_preferred(here, draft)
}

/// When the last node, which is an alias, is preferred, if it ever is.
#[tactic(auto, using(schema_draft::proofs::KeptLaws::kept))]
fn read_preferred(here: &Here<'_>, draft: &mut Draft) -> Result<(), ReadFault>
    requires { 0 < length draft.old.nodes }
    ensures walk { Puts result (optional (codes "preferred") expression (spot_of here.now))
        (counts draft.old) (counts draft.new)
        (λ preferred _. draft.new.nodes ≡ with_preferred preferred draft.old.nodes) }
    ensures kept { IsExtended draft.old.names draft.new.names }
{
    match here.optional("preferred") {
        None => Ok(()),
        Some(preferred) => {
            let e = read_expression(&preferred, draft)?;
            draft.preferred(e);
            Ok(())
        }
    }
}
