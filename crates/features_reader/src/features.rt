//! Features of the architecture: parameters, and constraints on them.

ghost use Rattle.std.specs.Prelude.{◌≡◌, ◌==◌, ◌≤◌, [], length, map, IfOk};
ghost use Rattle.std.specs.List.{list_any};
ghost use Rattle.spec_features.specs.Features.{booleans_alone, param_limit};
ghost use Rattle.spec_names.specs.Distinct.{distinct_by};
ghost use Rattle.features_reader.specs.FeatureViews.{features_of, AreFeatures, AreNamed};

use mrs_arena::{Arena, ArenaBuilder, ExprId};
use mrs_names::NameId;
use mrs_walk::NoMemory;
use std::alloc::Global;

/// What a parameter may be: on or off, a whole number, or one of several words.
#[derive(Clone, Copy, PartialEq, Eq, Debug)]
pub enum ParamKind {
    Boolean,
    Integer,
    Enum,
}

/// A parameter.
#[derive(Clone, Copy, PartialEq, Eq, Debug)]
pub struct Param {
    pub name: NameId,
    pub kind: ParamKind,
}

/// Parameters, and the constraints that are to hold, which are expressions of the arena.
///
/// There are at most 4,096 parameters, of distinct names, and at most 4,194,304 constraints. Connectives and other parts
/// under connectives, counted as nested trees, are at most 4,194,304 in all.
#[derive(Drop)]
pub struct Features {
    pub arena: Arena,
    pub params: Vec<Param>,
    pub constraints: Vec<ExprId>,
}

impl Features {
    /// Parameters of these names, each once in the order in which they come first, that are on or off, and no constraint.
    /// The arena has no node and no expression.
    pub fn of_names(alloc: Global, list: &[NameId]) -> Result<Features, NoMemory>
        requires { length list.now ≤ param_limit }
        ensures names { IfOk result (λ features. features_of features ≡ booleans_alone (distinct_by ◌==◌ (map (λ name. name.0) list.now))) }
        ensures named { IfOk result (AreNamed list.now) }
        ensures sound { IfOk result AreFeatures }
        ensures bare { IfOk result (λ features. (features.arena.nodes ≡ []) × (features.arena.exprs ≡ [])) }
    {
        let mut params = Vec::new(alloc);
        for name in list {
            if is_named(&params, *name) {
                continue;
            }
            params.push(Param {
                name: *name,
                kind: ParamKind::Boolean,
            })?;
        }
        Ok(Features {
            arena: ArenaBuilder::new(alloc).close(),
            params,
            constraints: Vec::new(alloc),
        })
    }
}

/// Whether a parameter has that name.
pub(crate) fn is_named(params: &[Param], name: NameId) -> bool
    ensures { result ≡ list_any (λ param. param.name.0 == name.0) params.now }
{
    params.iter().any(|param| param.name == name)
}
