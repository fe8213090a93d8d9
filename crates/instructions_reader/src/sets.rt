//! Reads the sets of a document, one of which is chosen.

ghost use Rattle.std.specs.Prelude.{◌≡◌, ◌&&◌, [], ◌∷◌, List, Option, None, codes, is_some, false, true, IfOk, ⊤};
ghost use Rattle.spec_walk.specs.Walk.{◌>>>◌};
ghost use Rattle.spec_walk.specs.Spot.{elements, each, needs, kind};
ghost use Rattle.spec_walk.specs.Event.{NoSet};
ghost use Rattle.spec_instructions.specs.Kind.{Kind, Set, kind_named};
ghost use Rattle.spec_instructions.specs.Tree.{Node};
ghost use Rattle.spec_instructions.specs.Walk.{chosen_in, is_chosen, set, instructions};
ghost use Rattle.mrs_names.specs.Texts.{IsExtended};
ghost use Rattle.mrs_arena.specs.Placed.{preorder};
ghost use Rattle.mrs_walk.specs.Gives.{Gives, Puts};
ghost use Rattle.mrs_walk.specs.Here.{spot_of};
ghost use Rattle.schema_draft.specs.Drafted.{counts};
ghost use Rattle.instructions_reader.specs.Nodes.{IsSetPut};

use crate::nodes::read_node;
use mrs_arena::Kind;
use mrs_names::is_name;
use mrs_walk::{Here, ReadFault, Why};
use schema_draft::Draft;

/// An Instructions document, of which the set named `isa` is chosen. Its nodes are put.
#[tactic(auto, using(schema_draft::proofs::KeptLaws::kept))]
pub(crate) fn read_document(here: &Here<'_>, isa: &str, draft: &mut Draft) -> Result<(), ReadFault>
    requires { draft.old.nodes ≡ [] }
    ensures walk { Puts result (instructions isa.now (spot_of here.now)) (counts draft.old) (counts draft.new)
        (λ n _. draft.new.nodes ≡ preorder None 0 n) }
    ensures kept { IsExtended draft.old.names draft.new.names }
{
    here.object()?;
    read_sets(&here.needed("instructions")?, isa, draft)
}

/// The sets of a document, one of which has to be the chosen one. Its nodes are put.
#[tactic(auto, using(schema_draft::proofs::KeptLaws::kept))]
fn read_sets(here: &Here<'_>, isa: &str, draft: &mut Draft) -> Result<(), ReadFault>
    requires { draft.old.nodes ≡ [] }
    ensures walk { Puts result (elements (spot_of here.now) >>> each (set isa.now) (spot_of here.now).at []
        >>> λ found. needs (chosen_in found) (spot_of here.now) NoSet)
        (counts draft.old) (counts draft.new)
        (λ n _. draft.new.nodes ≡ preorder None 0 n) }
    ensures kept { IsExtended draft.old.names draft.new.names }
{
    let sets = here.elements()?;
    let mut found = false;
    for (i, value) in sets.iter().enumerate() {
        let chosen = read_set(&here.element(i, value), isa, found, draft)?;
        found = found || chosen;
    }
    if !found {
        return Err(here.fault(Why::NoSet));
    }
    Ok(())
}

/// A set, whose nodes are put if it is the chosen one, which the answer says. Any other is passed over.
///
/// `found` says whether one of those before it was chosen.
#[tactic(auto, using(schema_draft::proofs::StepRules::steps))]
fn read_set(here: &Here<'_>, isa: &str, found: bool, draft: &mut Draft) -> Result<bool, ReadFault>
    requires { found ≡ false → draft.old.nodes ≡ [] }
    ensures walk { (before : List (Option Node)) → is_some (chosen_in before) ≡ found
        → Puts result (set isa.now before (spot_of here.now)) (counts draft.old) (counts draft.new)
        (λ n chosen. IsSetPut found chosen draft.old.nodes draft.new.nodes n) }
    ensures kept { IsExtended draft.old.names draft.new.names }
{
    read_set_kind(here)?;
    if !read_set_name(here, isa, found)? {
        return Ok(false);
    }
    read_node(here, Kind::Set, None, draft)?;
    Ok(true)
}

/// A set is an object with the `_type` of one.
fn read_set_kind(here: &Here<'_>) -> Result<(), ReadFault>
    ensures { Gives result (kind (kind_named (Set ∷ [])) (spot_of here.now)) (λ _. Set) }
{
    if "Instruction.InstructionSet" != here.kind()? {
        return Err(here.fault(Why::UnlistedKind));
    }
    Ok(())
}

/// Whether a set's name is the chosen one, which no second set may have.
fn read_set_name(here: &Here<'_>, isa: &str, found: bool) -> Result<bool, ReadFault>
    ensures walk { (before : List (Option Node)) → is_some (chosen_in before) ≡ found
        → Gives result (is_chosen isa.now before (spot_of here.now)) (λ chosen. chosen) }
    ensures once { IfOk result (λ chosen. (found && chosen) ≡ false) }
{
    let place = here.needed("name")?;
    let text = place.text()?;
    if !is_name(text) {
        return Err(place.fault(Why::BadName));
    }
    if found && text == isa {
        return Err(place.fault(Why::Doubled));
    }
    Ok(text == isa)
}
