//! Words from values of fields, by the instruction tree.
#![tactic(auto)]

mod alias_encoding;
mod encoding;
mod exclusion;
mod fault;
mod fields;
mod names;
mod node_encoding;
mod path_encoding;
mod placing;
mod shown_fields;
mod values;

pub use alias_encoding::{alias_rest_of, alias_shown, encode_alias};
pub use encoding::{encode, rest_of, shown};
pub use fault::EncodeFault;
pub use path_encoding::{encode_along, rest_along, shown_along};
pub use shown_fields::Shown;
