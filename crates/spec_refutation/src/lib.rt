//! What a refutation of clauses is, and how a log of one is written.
//!
//! The definitions stand in `specs/`. The functions here run nothing: the contract of each is a law
//! about the definitions.
#![tactic(auto)]

mod laws;

pub use laws::{
    each_failure_is_told, each_log_has_one_outcome, each_text_has_a_reading, each_text_is_read,
    no_text_has_two_readings, refutations_are_sound, refutations_hint_within_bounds,
};
