//! The names of fields.

ghost use Rattle.std.specs.Prelude.{◌≡◌};
ghost use Rattle.spec_instructions.specs.Encodeset.{is_field_name};

use mrs_names::is_name;

/// A name that is none of the words `rest` and `sys`, which lines have for their own.
pub(crate) fn is_field_name(text: &str) -> bool
    ensures { result ≡ is_field_name text.now }
{
    is_name(text) && !(text == "rest" || text == "sys")
}
