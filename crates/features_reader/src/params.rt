//! Reads the parameters of a Features document.

ghost use Rattle.std.specs.Prelude.{◌≡◌, ◌==◌, ◌<◌, List, [], length, map, bytes_eq, nat_lt, option_map, false, IfOk};
ghost use Rattle.std.specs.List.{list_any};
ghost use Rattle.spec_walk.specs.Event.{TooMany};
ghost use Rattle.spec_walk.specs.Walk.{◌>>>◌};
ghost use Rattle.spec_walk.specs.Spot.{unless, kind, elements, each};
ghost use Rattle.spec_features.specs.Features.{param_limit};
ghost use Rattle.spec_features.specs.Kind.{kind_named};
ghost use Rattle.spec_features.specs.Walk.{Constrained, param_name, constraints_of, param};
ghost use Rattle.mrs_names.specs.Texts.{IsExtended};
ghost use Rattle.mrs_walk.specs.Gives.{Gives, Puts};
ghost use Rattle.mrs_walk.specs.Here.{spot_of};
ghost use Rattle.schema_draft.specs.Drafted.{counts};
ghost use Rattle.expression_reader.specs.ExprsRead.{AreRead};
ghost use Rattle.features_reader.specs.FeatureViews.{param_kind_of};
ghost use Rattle.features_reader.specs.FeaturesRead.{texts_of, names_before, numbers_of, AreHeldParams, IsParamRead, AreParamsRead};

use crate::constraints::read_own_constraints;
use crate::features::{Param, ParamKind, is_named};
use mrs_arena::ExprId;
use mrs_names::is_name;
use mrs_walk::{Here, ReadFault, Why};
use schema_draft::Draft;

/// How many parameters there are at most.
const MOST_PARAMS: usize = 4096;

/// The parameters of an array, and behind one another their constraints.
#[tactic(auto, using(schema_draft::proofs::KeptLaws::kept))]
pub(crate) fn read_params(
    list: &Here<'_>,
    draft: &mut Draft,
) -> Result<(Vec<Param>, Vec<ExprId>), ReadFault>
    ensures walk { Puts result (elements (spot_of list.now) >>> each param (spot_of list.now).at []) (counts draft.old) (counts draft.new)
        (λ found x. AreParamsRead draft.old draft.new found x.0.items x.1.items) }
    ensures nodes { draft.new.nodes ≡ draft.old.nodes }
    ensures kept { IsExtended draft.old.names draft.new.names }
{
    let values = list.elements()?;
    let mut params = Vec::new(list.alloc);
    let mut constraints = Vec::new(list.alloc);
    for (i, value) in values.iter().enumerate() {
        let (param, own) = read_param(&list.element(i, value), &params, draft)?;
        params.push(param)?;
        constraints.extend_from_slice(&own)?;
    }
    Ok((params, constraints))
}

/// A parameter behind those before it, and its constraints.
#[tactic(auto, using(schema_draft::proofs::StepRules::steps))]
fn read_param(
    here: &Here<'_>,
    params: &[Param],
    draft: &mut Draft,
) -> Result<(Param, Vec<ExprId>), ReadFault>
    requires { AreHeldParams draft.old.names params.now }
    ensures walk { (before : List Constrained) → names_before before ≡ texts_of draft.old.names params.now
        → Puts result (param before (spot_of here.now)) (counts draft.old) (counts draft.new)
        (λ p x. IsParamRead draft.old draft.new p x.0 x.1.items) }
    ensures free { IfOk result (λ x. list_any (λ param. param.name.0 == x.0.name.0) params.now ≡ false) }
    ensures few { IfOk result (λ _. length params.now < param_limit) }
    ensures nodes { draft.new.nodes ≡ draft.old.nodes }
    ensures kept { IsExtended draft.old.names draft.new.names }
{
    let kind = read_param_kind(here)?;
    let text = read_param_name(here, params, draft)?;
    let name = draft.name(text, here)?;
    check_room(here, params)?;
    let own = read_constraints_of(kind, here, draft)?;
    Ok((Param { name, kind }, own))
}

fn read_param_kind(here: &Here<'_>) -> Result<ParamKind, ReadFault>
    ensures { Gives result (kind kind_named (spot_of here.now)) param_kind_of }
{
    match param_kind(here.kind()?) {
        Some(kind) => Ok(kind),
        None => Err(here.fault(Why::UnlistedKind)),
    }
}

/// The kind of parameter that a `_type` names.
fn param_kind(text: &str) -> Option<ParamKind>
    ensures { option_map param_kind_of result ≡ kind_named text.now }
{
    if "Parameters.Boolean" == text {
        Some(ParamKind::Boolean)
    } else if "Parameters.Integer" == text {
        Some(ParamKind::Integer)
    } else if "Parameters.Enum" == text {
        Some(ParamKind::Enum)
    } else {
        None
    }
}

/// The text of a parameter's name, which none of those before it has.
fn read_param_name<'h>(
    here: &'h Here<'_>,
    params: &[Param],
    draft: &Draft,
) -> Result<&'h str, ReadFault>
    requires { AreHeldParams draft.now.names params.now }
    ensures walk { (before : List Constrained) → names_before before ≡ texts_of draft.now.names params.now
        → Gives result (param_name before (spot_of here.now)) (λ t. t.now) }
    ensures free { IfOk result (λ t. list_any (λ name. bytes_eq name t.now) (texts_of draft.now.names params.now) ≡ false) }
{
    let place = here.needed("name")?;
    let text = place.text()?;
    if !is_name(text) {
        return Err(place.fault(Why::BadName));
    }
    if is_doubled(text, params, draft) {
        return Err(place.fault(Why::Doubled));
    }
    Ok(text)
}

/// Whether a parameter has that text for its name.
fn is_doubled(text: &str, params: &[Param], draft: &Draft) -> bool
    requires { AreHeldParams draft.now.names params.now }
    ensures { result ≡ list_any (λ name. bytes_eq name text.now) (texts_of draft.now.names params.now) }
{
    match draft.find(text) {
        Some(name) => is_named(params, name),
        None => false,
    }
}

/// There may be one more parameter.
fn check_room(here: &Here<'_>, params: &[Param]) -> Result<(), ReadFault>
    ensures walk { Gives result (unless (nat_lt (length params.now) param_limit) (spot_of here.now) TooMany) (λ x. x) }
    ensures few { IfOk result (λ _. length params.now < param_limit) }
{
    if params.len() >= MOST_PARAMS {
        return Err(here.fault(Why::TooMany));
    }
    Ok(())
}

/// The constraints of a parameter of a kind: those of a boolean one alone are read.
#[tactic(auto, using(schema_draft::proofs::KeptLaws::kept))]
fn read_constraints_of(
    kind: ParamKind,
    here: &Here<'_>,
    draft: &mut Draft,
) -> Result<Vec<ExprId>, ReadFault>
    ensures walk { Puts result (constraints_of (param_kind_of kind) (spot_of here.now)) (counts draft.old) (counts draft.new)
        (λ es ids. AreRead draft.old draft.new es (numbers_of ids.items)) }
    ensures nodes { draft.new.nodes ≡ draft.old.nodes }
    ensures kept { IsExtended draft.old.names draft.new.names }
{
    match kind {
        ParamKind::Boolean => read_own_constraints(here, draft),
        ParamKind::Integer | ParamKind::Enum => Ok(Vec::new(here.alloc)),
    }
}
