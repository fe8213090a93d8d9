//! Reads the items of an encodeset.

ghost use Rattle.std.specs.Prelude.{◌≡◌, ◌<◌, ◌+◌, [], ◌∷◌, length, ℕ, bytes_eq, false, IfOk, option_map};
ghost use Rattle.std.specs.List.{list_any};
ghost use Rattle.spec_walk.specs.Walk.{◌>>>◌};
ghost use Rattle.spec_walk.specs.Spot.{kind, elements, each};
ghost use Rattle.spec_instructions.specs.Encodeset.{Field, field_name, item_kind_named, item_parts, item, names_of, encodeset, named_in};
ghost use Rattle.mrs_names.specs.Texts.{IsExtended};
ghost use Rattle.mrs_walk.specs.Gives.{Gives, Puts};
ghost use Rattle.mrs_walk.specs.Here.{spot_of};
ghost use Rattle.schema_draft.specs.Drafted.{counts, last_items, last_named, with_items};
ghost use Rattle.schema_draft.specs.Kinds.{item_kind_of};
ghost use Rattle.schema_draft.specs.Parts.{IsRead};

use crate::bits::{read_masked, read_should_be};
use crate::draft::Draft;
use crate::names::is_field_name;
use mrs_arena::Item;
use mrs_walk::{Here, ReadFault, Why};

/// Bits, a field, which has a name, and bits that all are should-be.
#[derive(Clone, Copy)]
pub(crate) enum ItemKind {
    Bits,
    Field,
    ShouldBeBits,
}

/// An encodeset, whose items are put at the last node, which has none.
#[tactic(auto, using(crate::proofs::KeptLaws::kept))]
pub fn read_encodeset(here: &Here<'_>, draft: &mut Draft) -> Result<(), ReadFault>
    requires some { 0 < length draft.old.nodes }
    requires bare { last_items draft.old.nodes ≡ [] }
    ensures walk { Puts result (encodeset (last_named draft.old.nodes) (spot_of here.now)) (counts draft.old) (counts draft.new)
        (λ items _. draft.new.nodes ≡ with_items items draft.old.nodes) }
    ensures kept { IsExtended draft.old.names draft.new.names }
{
    here.exactly("Instruction.Encodeset.Encodeset")?;
    let width = here.needed("width")?;
    if width.number()? != 32 {
        return Err(width.fault(Why::WrongShape));
    }
    read_items(&here.needed("values")?, draft)
}

/// An array of items, each of which knows the names of the fields before it.
#[tactic(auto, using(crate::proofs::KeptLaws::kept))]
fn read_items(here: &Here<'_>, draft: &mut Draft) -> Result<(), ReadFault>
    requires some { 0 < length draft.old.nodes }
    requires bare { last_items draft.old.nodes ≡ [] }
    ensures walk { Puts result (elements (spot_of here.now)
        >>> each (λ earlier. item (last_named draft.old.nodes + named_in earlier) earlier) (spot_of here.now).at [])
        (counts draft.old) (counts draft.new)
        (λ items _. draft.new.nodes ≡ with_items items draft.old.nodes) }
    ensures kept { IsExtended draft.old.names draft.new.names }
{
    let values = here.elements()?;
    for (i, value) in values.iter().enumerate() {
        read_item(&here.element(i, value), draft)?;
    }
    Ok(())
}

/// An item of the last node's encodeset, which goes behind the items that the node has.
#[tactic(auto, using(crate::proofs::StepRules::steps))]
fn read_item(here: &Here<'_>, draft: &mut Draft) -> Result<(), ReadFault>
    requires { 0 < length draft.old.nodes }
    ensures walk { Puts result (item (last_named draft.old.nodes) (last_items draft.old.nodes) (spot_of here.now))
        (counts draft.old) (counts draft.new)
        (λ it _. draft.new.nodes ≡ with_items (it ∷ []) draft.old.nodes) }
    ensures kept { IsExtended draft.old.names draft.new.names }
{
    let kind = read_item_kind(here)?;
    let it = read_parts(here, kind, draft)?;
    draft.item(it, here)
}

fn read_item_kind(here: &Here<'_>) -> Result<ItemKind, ReadFault>
    ensures { Gives result (kind item_kind_named (spot_of here.now)) item_kind_of }
{
    match item_kind(here.kind()?) {
        Some(kind) => Ok(kind),
        None => Err(here.fault(Why::UnlistedKind)),
    }
}

/// The kind of item that a `_type` names.
fn item_kind(text: &str) -> Option<ItemKind>
    ensures { option_map item_kind_of result ≡ item_kind_named text.now }
{
    if "Instruction.Encodeset.Bits" == text {
        Some(ItemKind::Bits)
    } else if "Instruction.Encodeset.Field" == text {
        Some(ItemKind::Field)
    } else if "Instruction.Encodeset.ShouldBeBits" == text {
        Some(ItemKind::ShouldBeBits)
    } else {
        None
    }
}

/// What an item of a kind has, which is not put yet.
#[tactic(auto, using(crate::proofs::KeptLaws::kept))]
fn read_parts(here: &Here<'_>, kind: ItemKind, draft: &mut Draft) -> Result<Item, ReadFault>
    ensures walk { Puts result (item_parts (last_items draft.old.nodes) (spot_of here.now) (item_kind_of kind))
        (counts draft.old) (counts draft.new)
        (λ it x. IsRead it draft.new.names (last_items draft.old.nodes) x) }
    ensures nodes { draft.new.nodes ≡ draft.old.nodes }
    ensures kept { IsExtended draft.old.names draft.new.names }
{
    match kind {
        ItemKind::Bits => read_masked(here),
        ItemKind::Field => read_field(here, draft),
        ItemKind::ShouldBeBits => read_should_be(here),
    }
}

/// A field, which has a name that no earlier item of the last node has.
#[tactic(auto, using(crate::proofs::KeptLaws::kept))]
fn read_field(here: &Here<'_>, draft: &mut Draft) -> Result<Item, ReadFault>
    ensures walk { Puts result (item_parts (last_items draft.old.nodes) (spot_of here.now) Field)
        (counts draft.old) (counts draft.new)
        (λ it x. IsRead it draft.new.names (last_items draft.old.nodes) x) }
    ensures nodes { draft.new.nodes ≡ draft.old.nodes }
    ensures kept { IsExtended draft.old.names draft.new.names }
{
    let text = read_field_name(here, draft)?;
    let name = draft.name(text, here)?;
    let it = read_masked(here)?;
    Ok(Item {
        name: Some(name),
        start: it.start,
        pattern: it.pattern,
        should: it.should,
    })
}

/// The text of a field's name.
fn read_field_name<'h>(here: &'h Here<'_>, draft: &Draft) -> Result<&'h str, ReadFault>
    ensures walk { Gives result (field_name (last_items draft.now.nodes) (spot_of here.now)) (λ t. t.now) }
    ensures free { IfOk result (λ t. list_any (bytes_eq t.now) (names_of (last_items draft.now.nodes)) ≡ false) }
{
    let place = here.needed("name")?;
    let text = place.text()?;
    if !is_field_name(text) {
        return Err(place.fault(Why::BadName));
    }
    if draft.is_taken(text) {
        return Err(place.fault(Why::Doubled));
    }
    Ok(text)
}
