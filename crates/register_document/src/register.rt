//! Registers and their accessor entries.

use crate::span::Span;
use bit_pattern::Pattern;
use mrs_arena::ExprId;
use mrs_names::NameId;

/// A way to access a register: whether it reads or writes, the name that is printed, its condition, and the key.
#[derive(Clone, Copy)]
pub struct Entry {
    pub read: bool,
    pub name: NameId,
    pub condition: Option<ExprId>,
    pub key: Pattern,
}

/// A register: its name, its condition, and which fieldsets and accessor entries are its own. Several registers may have
/// the same fieldsets.
#[derive(Clone, Copy)]
pub struct RegisterDef {
    pub name: NameId,
    pub condition: Option<ExprId>,
    pub fieldsets: Span,
    pub accessors: Span,
}
