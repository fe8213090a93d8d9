//! Reads a Features document.

ghost use Rattle.std.specs.Prelude.{◌≡◌};
ghost use Rattle.serde_json.specs.View.{view};
ghost use Rattle.spec_features.specs.Walk.{features};
ghost use Rattle.mrs_names.specs.Texts.{IsExtended};
ghost use Rattle.mrs_walk.specs.Gives.{Puts};
ghost use Rattle.mrs_walk.specs.Here.{spot_of};
ghost use Rattle.schema_draft.specs.Drafted.{counts};
ghost use Rattle.features_reader.specs.FeaturesRead.{IsDocumentRead, ReadsFeatures};

use crate::constraints::read_own_constraints;
use crate::features::{Features, Param};
use crate::params::read_params;
use mrs_arena::ExprId;
use mrs_names::Names;
use mrs_walk::{Here, ReadFault};
use schema_draft::Draft;
use serde_json::Value;
use std::alloc::Global;

/// The parameters and constraints of a Features document, whose names are held in `names`.
///
/// The document is read by the profile after AARCHMRS, Arm's architecture data as JSON. The fault is the first of
/// the walk over it. The constraints are those of the parameters, in order, and then those of the document.
///
/// Names that were held before keep their numbers, also where there is a fault.
pub fn read_features(alloc: Global, v: &Value, names: &mut Names) -> Result<Features, ReadFault>
    ensures read { ReadsFeatures (view v.now) names.old names.new result }
    ensures kept { IsExtended names.old names.new }
{
    let held = std::mem::replace(names, Names::new(alloc));
    let mut draft = Draft::new(alloc, held);
    let read = read_document(&Here::root(alloc, v), &mut draft);
    let (held, arena) = draft.close();
    *names = held;
    match read {
        Ok((params, constraints)) => Ok(Features {
            arena,
            params,
            constraints,
        }),
        Err(fault) => Err(fault),
    }
}

/// A document: its parameters, and all constraints.
#[tactic(auto, using(schema_draft::proofs::StepRules::steps))]
fn read_document(here: &Here<'_>, draft: &mut Draft) -> Result<(Vec<Param>, Vec<ExprId>), ReadFault>
    ensures walk { Puts result (features (spot_of here.now)) (counts draft.old) (counts draft.new)
        (λ f x. IsDocumentRead draft.old draft.new f x.0.items x.1.items) }
    ensures nodes { draft.new.nodes ≡ draft.old.nodes }
    ensures kept { IsExtended draft.old.names draft.new.names }
{
    here.object()?;
    let list = here.needed("parameters")?;
    let (params, mut constraints) = read_params(&list, draft)?;
    let own = read_own_constraints(here, draft)?;
    constraints.extend_from_slice(&own)?;
    Ok((params, constraints))
}
