//! Names that items have taken.

ghost use Rattle.std.specs.Prelude.{◌≡◌, map};
ghost use Rattle.std.specs.List.{list_any};
ghost use Rattle.mrs_arena.specs.Nodes.{has_name_id};
ghost use Rattle.mrs_arena.specs.Views.{flat_item};

use crate::item::Item;
use mrs_names::NameId;

/// Whether one of the items has that name.
pub(crate) fn is_name_of_one(items: &[Item], name: NameId) -> bool
    ensures { result ≡ list_any (has_name_id name.0) (map flat_item items.now) }
{
    for it in items {
        if it.is_named(name) {
            return true;
        }
    }
    false
}
