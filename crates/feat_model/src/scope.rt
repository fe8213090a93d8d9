//! What constraints are read over.

use expr_classes::Classes;
use indexmap::IndexSet;
use mrs_arena::Arena;
use mrs_names::NameId;

/// The expressions, their classes, and the names of the boolean parameters.
#[derive(Drop)]
pub(crate) struct Scope<'a> {
    pub arena: &'a Arena,
    pub classes: &'a Classes,
    pub names: &'a IndexSet<NameId>,
}
