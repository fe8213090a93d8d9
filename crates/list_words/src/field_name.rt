//! The names of fields by their bytes.

ghost use Rattle.std.specs.Prelude.{◌≡◌, ◌<◌, All, length};
ghost use Rattle.list_words.specs.Names.{IsNameFor};

use crate::name::name_bytes;
use insn_tree::FieldRange;
use mrs_names::{NameId, Names};

/// The number of the name with that text; or none, where no field of these has the name.
///
/// Names are looked up as text. Bytes that are no text are compared with the names of the fields instead.
pub(crate) fn name_for(names: &Names, fields: &[FieldRange], text: &[u8]) -> Option<NameId>
    requires { All (λ f. f.name.0 < length names.now) fields.now }
    ensures { IsNameFor names.now fields.now text.now result }
{
    match str::from_utf8(text) {
        Ok(text) => names.find(text),
        Err(_) => name_among(names, fields, text),
    }
}

fn name_among(names: &Names, fields: &[FieldRange], text: &[u8]) -> Option<NameId>
    requires { All (λ f. f.name.0 < length names.now) fields.now }
    ensures { IsNameFor names.now fields.now text.now result }
{
    for field in fields {
        if name_bytes(names, field.name) == text {
            return Some(field.name);
        }
    }
    None
}
