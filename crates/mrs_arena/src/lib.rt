//! The tree of instructions as one array of nodes: a builder that puts them in document order, and the arena that gives them back.
#![tactic(auto)]

mod arena;
mod builder;
mod ends;
mod expr;
mod expr_id;
mod expr_ref;
mod expr_table;
mod fault;
mod func;
mod item;
mod kind;
mod limits;
mod node;
mod node_id;
mod node_ref;
mod op;
mod path;
mod shared;
mod taken;

pub use arena::Arena;
pub use builder::ArenaBuilder;
pub use expr::{Expr, ExprList};
pub use expr_id::ExprId;
pub use expr_ref::ExprRef;
pub use fault::BuildFault;
pub use func::Func;
pub use item::Item;
pub use kind::Kind;
pub use node_id::NodeId;
pub use node_ref::NodeRef;
pub use op::Op;
pub use path::Path;
