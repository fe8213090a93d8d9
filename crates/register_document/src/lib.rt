//! Registers as they are read from a document: all registers, fieldsets, fields, ranges and accessor entries stand in one
//! array each, and what belongs to a register, a fieldset or a field is a span of the next one.
#![tactic(auto)]

mod document;
mod field;
mod register;
mod span;

pub use document::RegisterDoc;
pub use field::{FieldDef, Fieldset};
pub use register::{Entry, RegisterDef};
pub use span::Span;
