//! Fieldsets and their fields.

use crate::span::Span;
use mrs_arena::ExprId;
use mrs_names::NameId;

/// A field: its name, its ranges, and the condition under which it is there.
#[derive(Clone, Copy)]
pub struct FieldDef {
    pub name: NameId,
    pub ranges: Span,
    pub condition: Option<ExprId>,
}

/// A layout of a register: how many bits it has, the condition under which it is the register's, and its fields.
#[derive(Clone, Copy)]
pub struct Fieldset {
    pub width: u8,
    pub condition: Option<ExprId>,
    pub fields: Span,
}
