//! What an expression is worth at a node, under a configuration and at a word. Only `Config::new` takes memory.
#![tactic(auto)]

mod bits;
mod comparison;
mod config;
mod deepest;
mod env;
mod evaluate;
mod kleene;
mod memory;
mod named;
mod operators;
mod row;
mod shared;
mod state;
mod val;
mod worth;

pub use config::Config;
pub use env::Env;
pub use kleene::Truth;
pub use memory::NoMemory;
pub use state::State;
pub use val::Val;
pub use worth::{eval, truth};
