//! What stands in a set, and in features, is counted.
ghost use Rattle.std.specs.Prelude.{◌≡◌, ◌-◌, ◌≤◌, nat_eq, length, map, IfOk};
ghost use Rattle.spec_features.specs.Features.{booleans};
ghost use Rattle.spec_features.specs.Theory.{theory};
ghost use Rattle.mrs_arena.specs.Placed.{leaves_of, aliases_of};
ghost use Rattle.features_reader.specs.FeatureViews.{param_of, features_of, AreFeatures};

use crate::counted::{FeatureCounts, SetCounts};
use feat_model::{Model, is_boolean};
use feat_proof::NoMemory;
use mrs_arena::{Arena, NodeId};
use mrs_schema::{Features, Param};
use std::alloc::Global;

/// How many nodes an arena has, and how many of them are leaves and aliases.
pub(crate) fn count_nodes(arena: &Arena) -> SetCounts
    ensures nodes { result.nodes ≡ length arena.now.nodes }
    ensures leaves { result.leaves ≡ length (leaves_of arena.now.nodes) }
    ensures aliases { result.aliases ≡ length (aliases_of arena.now.nodes) }
{
    let nodes = arena.node_count();
    let mut leaves = 0;
    let mut aliases = 0;
    for n in 0..nodes {
        let kind = arena.node(NodeId(n)).kind();
        leaves += u32::from(kind.is_leaf());
        aliases += u32::from(kind.is_alias());
    }
    SetCounts {
        nodes,
        leaves,
        aliases,
    }
}

/// How many of the parameters are boolean.
fn count_booleans(params: &[Param]) -> usize
    ensures count { result ≡ length (booleans (map param_of params.now)) }
    ensures few { result ≤ length params.now }
{
    let mut count = 0;
    for param in params {
        if is_boolean(param.kind) {
            count += 1;
        }
    }
    count
}

/// How many parameters of features are boolean, how many are others, and how many constraints and atoms there are.
pub(crate) fn count_parts(alloc: Global, features: &Features) -> Result<FeatureCounts, NoMemory>
    requires { AreFeatures features.now }
    ensures booleans { IfOk result (λ c. c.booleans ≡ length (booleans (features_of features.now).params)) }
    ensures others { IfOk result (λ c. c.others ≡ length (features_of features.now).params - c.booleans) }
    ensures constraints { IfOk result (λ c. c.constraints ≡ length (features_of features.now).constraints) }
    ensures atoms { IfOk result (λ c. c.atoms ≡ (theory nat_eq (features_of features.now)).atoms) }
{
    let model = Model::new(alloc, features)?;
    let booleans = count_booleans(&features.params);
    Ok(FeatureCounts {
        booleans: booleans as u32,
        others: (features.params.len() - booleans) as u32,
        constraints: features.constraints.len() as u32,
        atoms: model.atoms(),
    })
}
