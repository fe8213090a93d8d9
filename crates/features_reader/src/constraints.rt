//! Reads lists of constraints.

ghost use Rattle.std.specs.Prelude.{◌≡◌, map};
ghost use Rattle.spec_walk.specs.Descend.{elements_at};
ghost use Rattle.spec_expressions.specs.Reading.{Itself, reader};
ghost use Rattle.spec_features.specs.Walk.{constraints};
ghost use Rattle.mrs_names.specs.Texts.{IsExtended};
ghost use Rattle.mrs_walk.specs.Gives.{Puts};
ghost use Rattle.mrs_walk.specs.Here.{spot_of};
ghost use Rattle.schema_draft.specs.Drafted.{counts};
ghost use Rattle.expression_reader.specs.ExprsRead.{AreRead};

use expression_reader::read_expression;
use mrs_arena::ExprId;
use mrs_walk::{Here, ReadFault};
use schema_draft::Draft;

/// The expressions of an array, by their numbers.
#[tactic(auto, using(schema_draft::proofs::KeptLaws::kept))]
pub(crate) fn read_constraints(list: &Here<'_>, draft: &mut Draft) -> Result<Vec<ExprId>, ReadFault>
    ensures walk { Puts result (elements_at reader Itself (spot_of list.now)) (counts draft.old) (counts draft.new)
        (λ es ids. AreRead draft.old draft.new es (map (λ id. id.0) ids.items)) }
    ensures nodes { draft.new.nodes ≡ draft.old.nodes }
    ensures kept { IsExtended draft.old.names draft.new.names }
{
    let values = list.elements()?;
    let mut ids = Vec::new(list.alloc);
    for (i, value) in values.iter().enumerate() {
        let id = read_expression(&list.element(i, value), draft)?;
        ids.push(id)?;
    }
    Ok(ids)
}

/// The constraints of a parameter or of a document: the expressions of the member `constraints`, if it is there.
#[tactic(auto, using(schema_draft::proofs::KeptLaws::kept))]
pub(crate) fn read_own_constraints(
    here: &Here<'_>,
    draft: &mut Draft,
) -> Result<Vec<ExprId>, ReadFault>
    ensures walk { Puts result (constraints (spot_of here.now)) (counts draft.old) (counts draft.new)
        (λ es ids. AreRead draft.old draft.new es (map (λ id. id.0) ids.items)) }
    ensures nodes { draft.new.nodes ≡ draft.old.nodes }
    ensures kept { IsExtended draft.old.names draft.new.names }
{
    match here.optional("constraints") {
        None => Ok(Vec::new(here.alloc)),
        Some(list) => read_constraints(&list, draft),
    }
}
