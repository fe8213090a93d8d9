//! A Registers document that was read.

use crate::field::{FieldDef, Fieldset};
use crate::register::{Entry, RegisterDef};
use bit_pattern::Range;
use mrs_arena::Arena;

/// The registers of a document, and how many arrays, blocks and accessors were passed over.
#[derive(Drop)]
pub struct RegisterDoc {
    pub arena: Arena,
    pub registers: Vec<RegisterDef>,
    pub fieldsets: Vec<Fieldset>,
    pub fields: Vec<FieldDef>,
    pub ranges: Vec<Range>,
    pub entries: Vec<Entry>,
    pub arrays: u32,
    pub blocks: u32,
    pub passed: u32,
}
