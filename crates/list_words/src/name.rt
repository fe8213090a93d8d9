//! Texts of names.
ghost use Rattle.std.specs.Prelude.{◌≡◌, ◌<◌, length};
ghost use Rattle.mrs_arena.specs.Placed.{text_of};

use mrs_names::{NameId, Names};

/// The bytes of a name that is held.
pub(crate) fn name_bytes(names: &Names, id: NameId) -> &[u8]
    requires { id.0 < length names.now }
    ensures { result.now ≡ text_of names.now id.0 }
{
    names.text(id).as_bytes()
}
