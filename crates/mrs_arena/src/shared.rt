//! Arenas and what reads them may be lent to several threads and moved from one to another.

use crate::arena::Arena;
use crate::builder::ArenaBuilder;
use crate::expr_ref::ExprRef;
use crate::node_ref::NodeRef;
use crate::path::Path;

fn shared<T: Send + Sync>() {}

fn builders_are_shared() {
    shared::<ArenaBuilder>();
}

fn arenas_are_shared() {
    shared::<Arena>();
}

fn nodes_are_shared<'a>() {
    shared::<NodeRef<'a>>();
}

fn paths_are_shared<'a>() {
    shared::<Path<'a>>();
}

fn expressions_are_shared<'a>() {
    shared::<ExprRef<'a>>();
}
