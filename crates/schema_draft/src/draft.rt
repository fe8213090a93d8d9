//! What a walk has put so far: names, nodes and expressions.

use mrs_arena::{Arena, ArenaBuilder, BuildFault, Expr, ExprId, ExprList, Item, Kind, NodeId};
use mrs_names::{NameFault, NameId, Names};
use mrs_walk::{Here, ReadFault, Why};
use std::alloc::Global;
use std::marker::Model;

/// The names, nodes and expressions that a walk over a document has put so far. Contracts see the texts of names.
#[derive(Drop)]
pub struct Draft {
    names: Names,
    builder: ArenaBuilder,
}

impl Model for Draft {
    ghost use Rattle.schema_draft.specs.Drafted.{Drafted, drafted, IsHeld};
    ghost use Rattle.schema_draft.specs.Codes.{drafted_code};

    ghost Value = { Drafted };

    ghost coded = { drafted_code };

    ghost view = { λ d. drafted d.names d.builder };

    ghost invariant = { λ d. IsHeld d.names d.builder };
}

impl Draft {
    ghost use Rattle.std.specs.Prelude.{◌≡◌, ◌+◌, ◌<◌, ◌≤◌, All, Some, [], ◌∷◌, ◌++◌, length, map, option_map, option_to_list, IfSome, bytes_eq, is_some, false};
    ghost use Rattle.std.specs.List.{list_any};
    ghost use Rattle.spec_walk.specs.Event.{TooMany, AnExpression};
    ghost use Rattle.spec_walk.specs.Spot.{named, unless, one_more};
    ghost use Rattle.spec_instructions.specs.Encodeset.{within_limits, names_of};
    ghost use Rattle.spec_instructions.specs.Tree.{bare};
    ghost use Rattle.spec_instructions.specs.Walk.{counted};
    ghost use Rattle.spec_walk.specs.Limits.{expression_limit};
    ghost use Rattle.mrs_names.specs.Texts.{IsExtended, AreNames, place_of};
    ghost use Rattle.mrs_arena.specs.Paths.{IsPlace};
    ghost use Rattle.mrs_arena.specs.Placed.{text_of, item_of, kind_of, placed_node, expr_of, AreHeld, AreHeldExprs};
    ghost use Rattle.mrs_arena.specs.Views.{flat_item};
    ghost use Rattle.mrs_arena.specs.Expressions.{expr_at, made_by, with_list, HasParts, HasName};
    ghost use Rattle.schema_draft.specs.Drafted.{counts, nothing, parents, last_items, last_named, with_items, with_condition, with_preferred};
    ghost use Rattle.mrs_walk.specs.Gives.{Puts};
    ghost use Rattle.mrs_walk.specs.Here.{spot_of};

    /// No nodes and no expressions yet, behind these names.
    pub fn new(alloc: Global, names: Names) -> Draft
        ensures { result ≡ record { names = names; nodes = []; exprs = []; parts = [] } }
    {
        Draft {
            names,
            builder: ArenaBuilder::new(alloc),
        }
    }

    /// The number of a name, which is the text of a member of the object at the place.
    pub fn name(&mut self, text: &str, here: &Here<'_>) -> Result<NameId, ReadFault>
        ensures steps { Puts result (named (spot_of here.now) text.now) (counts self.old) (counts self.new)
            (λ t id. (id.0 < length self.new.names) × (text_of self.new.names id.0 ≡ t)) }
        ensures nodes { self.new.nodes ≡ self.old.nodes }
        ensures exprs { self.new.exprs ≡ self.old.exprs }
        ensures parts { self.new.parts ≡ self.old.parts }
        ensures kept { IsExtended self.old.names self.new.names }
    {
        match self.names.intern(text) {
            Ok(id) => return Ok(id),
            Err(NameFault::NoMemory) => return Err(ReadFault::NoMemory),
            Err(NameFault::Full) => {}
        }
        Err(here.fault(Why::TooMany))
    }

    /// Puts a node without items, whose object is at the place.
    pub fn node(
        &mut self,
        kind: Kind,
        name: NameId,
        parent: Option<NodeId>,
        here: &Here<'_>,
    ) -> Result<NodeId, ReadFault>
        requires held { name.0 < length self.old.names }
        requires place { IsPlace (parents self.old.nodes) (option_map (λ p. p.0) parent) }
        ensures steps { Puts result (counted (kind_of kind) (spot_of here.now)) (counts self.old) (counts self.new)
            (λ _ id. (id.0 ≡ length self.old.nodes)
            × (self.new.nodes ≡ self.old.nodes ++ record {
              parent = option_map (λ p. p.0) parent;
              own = bare (kind_of kind) (text_of self.old.names name.0);
            } ∷ [])) }
        ensures names { self.new.names ≡ self.old.names }
        ensures exprs { self.new.exprs ≡ self.old.exprs }
        ensures parts { self.new.parts ≡ self.old.parts }
    {
        match self.builder.node(kind, name, parent) {
            Ok(id) => return Ok(id),
            Err(BuildFault::NoMemory) => return Err(ReadFault::NoMemory),
            Err(BuildFault::TooMany) => {}
        }
        Err(here.fault(Why::TooMany))
    }

    /// Puts an item behind those of the last node, of which none has its name. Its object is at the place.
    pub fn item(&mut self, it: Item, here: &Here<'_>) -> Result<(), ReadFault>
        requires some { 0 < length self.old.nodes }
        requires held { IfSome it.name (λ id. id.0 < length self.old.names) }
        requires free { IfSome it.name (λ id. list_any (bytes_eq (text_of self.old.names id.0)) (names_of (last_items self.old.nodes)) ≡ false) }
        ensures steps { Puts result (unless (within_limits (length (last_items self.old.nodes)) (last_named self.old.nodes + length (option_to_list it.name))) (spot_of here.now) TooMany)
            (counts self.old) (counts self.new) (λ _ _. self.new.nodes ≡ with_items (item_of self.old.names (flat_item it) ∷ []) self.old.nodes) }
        ensures names { self.new.names ≡ self.old.names }
        ensures exprs { self.new.exprs ≡ self.old.exprs }
        ensures parts { self.new.parts ≡ self.old.parts }
    {
        // `len` tells that names differ, so a text that is free has a number that is.
        let _count = self.names.len();
        match self.builder.item(it) {
            Ok(()) => return Ok(()),
            Err(BuildFault::NoMemory) => return Err(ReadFault::NoMemory),
            Err(BuildFault::TooMany) => {}
        }
        Err(here.fault(Why::TooMany))
    }

    /// Puts an expression, whose parts were put before. Its object is at the place.
    pub fn expr(&mut self, e: Expr, here: &Here<'_>) -> Result<ExprId, ReadFault>
        requires parts { HasParts (length self.old.exprs) self.old.parts e }
        requires held { HasName (length self.old.names) e }
        ensures steps { Puts result (one_more AnExpression (spot_of here.now)) (counts self.old) (counts self.new)
            (λ _ id. (id.0 ≡ length self.old.exprs)
            × (self.new.exprs ≡ self.old.exprs ++ made_by (text_of self.old.names) (expr_at self.old.exprs) self.old.parts e ∷ [])) }
        ensures names { self.new.names ≡ self.old.names }
        ensures nodes { self.new.nodes ≡ self.old.nodes }
        ensures parts { self.new.parts ≡ self.old.parts }
    {
        match self.builder.expr(e) {
            Ok(id) => return Ok(id),
            Err(BuildFault::NoMemory) => return Err(ReadFault::NoMemory),
            Err(BuildFault::TooMany) => {}
        }
        Err(here.fault(Why::TooMany))
    }

    /// Puts a list of expressions, which were put before. All lists together have no more parts than there are
    /// expressions, so no limit is passed.
    pub fn list(&mut self, parts: &[ExprId], here: &Here<'_>) -> Result<ExprList, ReadFault>
        requires parts { All (λ part. part.0 < length self.old.exprs) parts.now }
        requires few { length self.old.parts + length parts.now ≤ length self.old.exprs }
        ensures steps { Puts result nothing (counts self.old) (counts self.new)
            (λ _ list. (list.from ≡ length self.old.parts)
            × ((list.len ≡ length parts.now) × (self.new.parts ≡ with_list parts.now self.old.parts))) }
        ensures names { self.new.names ≡ self.old.names }
        ensures nodes { self.new.nodes ≡ self.old.nodes }
        ensures exprs { self.new.exprs ≡ self.old.exprs }
    {
        match self.builder.list(parts) {
            Ok(list) => return Ok(list),
            Err(BuildFault::NoMemory) => return Err(ReadFault::NoMemory),
            Err(BuildFault::TooMany) => {}
        }
        Err(here.fault(Why::TooMany))
    }

    /// Tells that all lists of expressions together have no more parts than there are expressions.
    pub fn parts_are_few(&self)
        ensures { length self.now.parts ≤ length self.now.exprs }
    {
        let _builder = &self.builder;
    }

    /// Sets the condition of the last node.
    pub fn condition(&mut self, e: ExprId)
        requires some { 0 < length self.old.nodes }
        requires put { e.0 < length self.old.exprs }
        ensures { self.new ≡ record self.old { nodes = with_condition (Some (expr_at self.old.exprs e.0)) self.old.nodes } }
    {
        self.builder.condition(e);
    }

    /// Sets the preference of the last node.
    pub fn preferred(&mut self, e: ExprId)
        requires some { 0 < length self.old.nodes }
        requires put { e.0 < length self.old.exprs }
        ensures { self.new ≡ record self.old { nodes = with_preferred (Some (expr_at self.old.exprs e.0)) self.old.nodes } }
    {
        self.builder.preferred(e);
    }

    /// Whether an item of the last node has that name.
    pub fn is_taken(&self, text: &str) -> bool
        ensures { result ≡ list_any (bytes_eq text.now) (names_of (last_items self.now.nodes)) }
    {
        // `len` tells that names differ, so the text is that of an item where its number is.
        let _count = self.names.len();
        match self.names.find(text) {
            Some(name) => self.builder.is_taken(name),
            None => false,
        }
    }

    /// The number of a text, if it has one. Each number is that of its text alone.
    pub fn find(&self, text: &str) -> Option<NameId>
        ensures place { option_map (λ id. id.0) result ≡ place_of text.now self.now.names }
        ensures names { AreNames self.now.names }
    {
        let _count = self.names.len();
        self.names.find(text)
    }

    /// The names, and the nodes and expressions that were put.
    pub fn close(self) -> (Names, Arena)
        ensures names { result.0 ≡ self.names }
        ensures nodes { map (placed_node self.names) result.1.nodes ≡ self.nodes }
        ensures exprs { map (expr_of self.names) result.1.exprs ≡ self.exprs }
        ensures held { AreHeld self.names result.1.nodes }
        ensures held_exprs { AreHeldExprs self.names result.1.exprs }
        ensures few { length result.1.exprs ≤ expression_limit }
    {
        let Draft { names, builder } = self;
        (names, builder.close())
    }
}
