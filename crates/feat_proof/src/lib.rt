//! Clauses over boolean variables, logs that refute them, and the checker of such logs.
//!
//! A log is a list of steps, each a clause with hints that show why it follows from the clauses
//! before it. Whoever made a log need not be trusted: where [`check`] answers
//! [`Verdict::Refuted`], no assignment satisfies the clauses. [`print_log`] and [`read_log`] turn
//! clauses and log into their one text and back.
#![tactic(auto)]

mod checker;
mod clauses;
mod counts;
mod derivation;
mod faults;
mod formula;
mod known;
mod lines;
mod literal_set;
mod literals;
mod logs;
mod printing;
mod reading;
mod room;
mod scanning;
mod steps;
mod verdicts;

pub use checker::check;
pub use clauses::Clause;
pub use faults::{LogFault, NoMemory};
pub use formula::Cnf;
pub use known::Known;
pub use literals::Lit;
pub use logs::Log;
pub use printing::print_log;
pub use reading::read_log;
pub use steps::Step;
pub use verdicts::Verdict;
