//! Reads nodes and the nodes below them, and puts each behind those before it.

ghost use Rattle.std.specs.Prelude.{◌≡◌, ◌++◌, ◌<◌, [], ◌∷◌, Some, None, codes, length, option_map, unwrap_or};
ghost use Rattle.spec_walk.specs.Spot.{kind, optional};
ghost use Rattle.spec_walk.specs.Descend.{at_spot};
ghost use Rattle.spec_expressions.specs.Reading.{expression};
ghost use Rattle.spec_instructions.specs.Kind.{Group, Leaf, kinds_in, kind_named};
ghost use Rattle.spec_instructions.specs.Encodeset.{encodeset};
ghost use Rattle.spec_instructions.specs.Walk.{node_name, own, child, nodes_of};
ghost use Rattle.mrs_names.specs.Texts.{IsExtended};
ghost use Rattle.mrs_arena.specs.Paths.{IsPlace};
ghost use Rattle.mrs_arena.specs.Placed.{kind_of, preorder, preorders};
ghost use Rattle.mrs_walk.specs.Gives.{Gives, Puts};
ghost use Rattle.mrs_walk.specs.Here.{spot_of};
ghost use Rattle.schema_draft.specs.Drafted.{counts, parents, named_at, last_items, last_named, with_items, with_condition};
ghost use Rattle.instructions_reader.specs.Kinds.{child_kind_of};
ghost use Rattle.instructions_reader.specs.Nodes.{children, whole, named_above};

use crate::aliases::read_alias;
use expression_reader::read_expression;
use mrs_arena::{Kind, NodeId};
use mrs_names::is_name;
use mrs_walk::{Here, ReadFault, Why};
use schema_draft::{Draft, read_encodeset};

/// What stands in the `children` of a node.
#[derive(Clone, Copy)]
pub(crate) enum ChildKind {
    Group,
    Leaf,
    Alias,
    Instance,
}

/// The children of the node `parent`, which is of the kind `owner`.
#[cycle(nodes)]
#[tactic(auto, using(schema_draft::proofs::KeptLaws::kept))]
fn read_children(
    here: &Here<'_>,
    owner: Kind,
    parent: NodeId,
    draft: &mut Draft,
) -> Result<(), ReadFault>
    requires { IsPlace (parents draft.old.nodes) (Some parent.0) }
    ensures walk { Puts result (children (record { owner = kind_of owner; named = named_at draft.old.nodes parent.0 }) (spot_of here.now))
        (counts draft.old) (counts draft.new)
        (λ found _. draft.new.nodes ≡ draft.old.nodes
        ++ preorders (Some parent.0) (length draft.old.nodes) (nodes_of found)) }
    ensures kept { IsExtended draft.old.names draft.new.names }
{
    let Some(list) = here.optional("children") else {
        return Ok(());
    };
    let values = list.elements()?;
    for (i, value) in values.iter().enumerate() {
        read_child(&list.element(i, value), owner, parent, draft)?;
    }
    Ok(())
}

/// A child of a node of the kind `owner`.
#[cycle(nodes)]
#[tactic(auto, using(schema_draft::proofs::KeptLaws::kept))]
fn read_child(
    here: &Here<'_>,
    owner: Kind,
    parent: NodeId,
    draft: &mut Draft,
) -> Result<(), ReadFault>
    requires { IsPlace (parents draft.old.nodes) (Some parent.0) }
    ensures walk { Puts result (at_spot child (record { owner = kind_of owner; named = named_at draft.old.nodes parent.0 }) (spot_of here.now))
        (counts draft.old) (counts draft.new)
        (λ found _. draft.new.nodes ≡ draft.old.nodes
        ++ preorders (Some parent.0) (length draft.old.nodes) (nodes_of (found ∷ []))) }
    ensures kept { IsExtended draft.old.names draft.new.names }
{
    match read_child_kind(here, owner)? {
        ChildKind::Group => read_node(here, Kind::Group, Some(parent), draft),
        ChildKind::Leaf => read_node(here, Kind::Leaf, Some(parent), draft),
        ChildKind::Alias => read_alias(here, parent, draft),
        ChildKind::Instance => Ok(()),
    }
}

/// A node of a kind, and the nodes below it. It is put below a node, or alone.
#[cycle(nodes)]
#[tactic(auto, using(schema_draft::proofs::StepRules::steps))]
pub(crate) fn read_node(
    here: &Here<'_>,
    kind: Kind,
    parent: Option<NodeId>,
    draft: &mut Draft,
) -> Result<(), ReadFault>
    requires { IsPlace (parents draft.old.nodes) (option_map (λ p. p.0) parent) }
    ensures walk { Puts result (whole (kind_of kind) (named_above draft.old.nodes (option_map (λ p. p.0) parent)) (spot_of here.now))
        (counts draft.old) (counts draft.new)
        (λ n _. draft.new.nodes ≡ draft.old.nodes
        ++ preorder (option_map (λ p. p.0) parent) (length draft.old.nodes) n) }
    ensures kept { IsExtended draft.old.names draft.new.names }
{
    let node = read_own(here, kind, parent, draft)?;
    read_children(here, kind, node, draft)
}

/// The kind of a child of a node of that kind.
fn read_child_kind(here: &Here<'_>, owner: Kind) -> Result<ChildKind, ReadFault>
    ensures { Gives result (kind (kind_named (kinds_in (kind_of owner))) (spot_of here.now)) child_kind_of }
{
    match kind_below(owner, here.kind()?) {
        Some(kind) => Ok(kind),
        None => Err(here.fault(Why::UnlistedKind)),
    }
}

fn kind_below(owner: Kind, text: &str) -> Option<ChildKind>
    ensures { option_map child_kind_of result ≡ kind_named (kinds_in (kind_of owner)) text.now }
{
    match owner {
        Kind::Set => kind_in_group(text),
        Kind::Group => kind_in_group(text),
        Kind::Leaf => kind_in_leaf(text),
        Kind::Alias => None,
    }
}

fn kind_in_group(text: &str) -> Option<ChildKind>
    ensures { option_map child_kind_of result ≡ kind_named (kinds_in Group) text.now }
{
    if "Instruction.InstructionGroup" == text {
        Some(ChildKind::Group)
    } else if "Instruction.Instruction" == text {
        Some(ChildKind::Leaf)
    } else if "Instruction.InstructionInstance" == text {
        Some(ChildKind::Instance)
    } else {
        None
    }
}

fn kind_in_leaf(text: &str) -> Option<ChildKind>
    ensures { option_map child_kind_of result ≡ kind_named (kinds_in Leaf) text.now }
{
    if "Instruction.InstructionAlias" == text {
        Some(ChildKind::Alias)
    } else if "Instruction.InstructionInstance" == text {
        Some(ChildKind::Instance)
    } else {
        None
    }
}

/// What a node says of itself: it is put below a node, or alone, with the items of its encodeset and its condition.
#[tactic(auto, using(schema_draft::proofs::KeptLaws::kept))]
pub(crate) fn read_own(
    here: &Here<'_>,
    kind: Kind,
    parent: Option<NodeId>,
    draft: &mut Draft,
) -> Result<NodeId, ReadFault>
    requires { IsPlace (parents draft.old.nodes) (option_map (λ p. p.0) parent) }
    ensures walk { Puts result (own (kind_of kind) (named_above draft.old.nodes (option_map (λ p. p.0) parent)) (spot_of here.now))
        (counts draft.old) (counts draft.new)
        (λ o id. (id.0 ≡ length draft.old.nodes)
        × (draft.new.nodes ≡ draft.old.nodes ++ record { parent = option_map (λ p. p.0) parent; own = o } ∷ [])) }
    ensures kept { IsExtended draft.old.names draft.new.names }
{
    let text = read_name(here)?;
    let name = draft.name(text, here)?;
    let node = draft.node(kind, name, parent, here)?;
    read_encoding(here, draft)?;
    read_condition(here, draft)?;
    Ok(node)
}

/// The text of a node's name.
pub(crate) fn read_name<'h>(here: &'h Here<'_>) -> Result<&'h str, ReadFault>
    ensures { Gives result (node_name (spot_of here.now)) (λ t. t.now) }
{
    let place = here.needed("name")?;
    let text = place.text()?;
    if !is_name(text) {
        return Err(place.fault(Why::BadName));
    }
    Ok(text)
}

/// The encodeset of the last node, if it has one.
#[tactic(auto, using(schema_draft::proofs::KeptLaws::kept))]
fn read_encoding(here: &Here<'_>, draft: &mut Draft) -> Result<(), ReadFault>
    requires some { 0 < length draft.old.nodes }
    requires bare { last_items draft.old.nodes ≡ [] }
    ensures walk { Puts result (optional (codes "encoding") (encodeset (last_named draft.old.nodes)) (spot_of here.now))
        (counts draft.old) (counts draft.new)
        (λ items _. draft.new.nodes ≡ with_items (unwrap_or items []) draft.old.nodes) }
    ensures kept { IsExtended draft.old.names draft.new.names }
{
    match here.optional("encoding") {
        None => Ok(()),
        Some(set) => read_encodeset(&set, draft),
    }
}

/// The condition of the last node, if it has one.
#[tactic(auto, using(schema_draft::proofs::KeptLaws::kept))]
fn read_condition(here: &Here<'_>, draft: &mut Draft) -> Result<(), ReadFault>
    requires { 0 < length draft.old.nodes }
    ensures walk { Puts result (optional (codes "condition") expression (spot_of here.now))
        (counts draft.old) (counts draft.new)
        (λ condition _. draft.new.nodes ≡ with_condition condition draft.old.nodes) }
    ensures kept { IsExtended draft.old.names draft.new.names }
{
    match here.optional("condition") {
        None => Ok(()),
        Some(condition) => {
            let e = read_expression(&condition, draft)?;
            draft.condition(e);
            Ok(())
        }
    }
}
