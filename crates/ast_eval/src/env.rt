//! The fields of the word that are visible where an expression stands.

use crate::deepest::range_at;
use bit_pattern::Range;
use mrs_arena::{Arena, NodeId};
use mrs_names::NameId;
use std::marker::Model;

/// A node of an arena.
#[derive(Clone, Copy)]
pub(crate) struct Place<'a> {
    pub arena: &'a Arena,
    pub node: NodeId,
}

/// The fields that are visible at a node, or none. A clause sees the items of the nodes from the root down to it.
#[derive(Drop)]
pub struct Env<'a> {
    place: Option<Place<'a>>,
}

impl<'a> Model for Env<'a> {
    ghost use Rattle.std.specs.Prelude.{List};
    ghost use Rattle.mrs_arena.specs.Flat.{FlatItem};
    ghost use Rattle.ast_eval.specs.EnvView.{items_at, IsPlace};

    ghost Value = { List FlatItem };

    ghost view = { λ e. items_at e.place };

    ghost invariant = { λ e. IsPlace e.place };
}

impl<'a> Env<'a> {
    ghost use Rattle.std.specs.Prelude.{◌≡◌, ◌<◌, ℕ, List, [], length, All, option_map};
    ghost use Rattle.spec_expressions.specs.Scope.{field_named};
    ghost use Rattle.spec_instructions.specs.Fields.{fields};
    ghost use Rattle.mrs_names.specs.Texts.{AreNames};
    ghost use Rattle.mrs_arena.specs.Placed.{text_of, path_to, IsHeldItem};
    ghost use Rattle.ast_eval.specs.Fields.{items_to, last_named, bounds_of, field_bounds, fields_by};
    ghost use Rattle.ast_eval.specs.EnvView.{range_bounds};

    /// The fields that are visible at a node.
    pub fn at(arena: &'a Arena, node: NodeId) -> Env<'a>
        requires { node.0 < length arena.now.nodes }
        ensures items { result ≡ items_to arena.now.nodes node.0 }
        ensures fields { (names : List (List ℕ)) → fields_by (text_of names) result ≡ fields (path_to names arena.now.nodes node.0) }
    {
        Env {
            place: Some(Place { arena, node }),
        }
    }

    /// No fields.
    pub fn empty() -> Env<'static>
        ensures { result ≡ [] }
    {
        Env { place: None }
    }

    /// The range of the deepest item of that name at the node or above; `None` where there is none.
    pub fn range_of(&self, name: NameId) -> Option<Range>
        ensures deepest { option_map range_bounds result ≡ option_map bounds_of (last_named name.0 self.now) }
        ensures named { (names : List (List ℕ)) → AreNames names → name.0 < length names → All (IsHeldItem names) self.now → option_map range_bounds result ≡ option_map field_bounds (field_named (text_of names name.0) (fields_by (text_of names) self.now)) }
    {
        match self.place {
            Some(place) => range_at(place.arena, place.node, name),
            None => None,
        }
    }
}
