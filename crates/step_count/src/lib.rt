//! Counts of steps that cost nothing: a contract sees how many steps a call took, and no code runs for them.
#![tactic(auto)]

mod steps;

pub use steps::Steps;
