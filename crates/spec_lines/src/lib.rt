//! The texts that the program prints for words. Definitions, in `specs/`, and laws about them.
#![tactic(auto)]

mod laws;

pub use laws::{aliases_are_sound, bare_lines_are_read, lone_fields_tell_word};
