//! Names: which texts are names, and their numbers. Each text that is held has one number, which stays.
#![tactic(auto)]

mod fault;
mod name_id;
mod name_limits;
mod names;
mod shared;

pub use fault::NameFault;
pub use name_id::NameId;
pub use name_limits::is_name;
pub use names::Names;
