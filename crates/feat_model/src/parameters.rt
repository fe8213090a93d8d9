//! Boolean parameters by their names.

ghost use Rattle.std.specs.Prelude.{◌≡◌, ◌<◌, ◌≤◌, nat_eq, length, map, position, IfSome};

use indexmap::IndexSet;
use mrs_names::NameId;

/// The parameter of that name, counted from 0.
pub(crate) fn parameter(names: &IndexSet<NameId>, name: NameId) -> Option<u32>
    requires { length names.now.keys ≤ 4096 }
    ensures place { result ≡ position (nat_eq name.0) (map (λ name. name.0) names.now.keys) }
    ensures few { IfSome result (λ k. k < 4096) }
{
    match names.get_index_of(&name) {
        Some(index) => Some(index as u32),
        None => None,
    }
}
