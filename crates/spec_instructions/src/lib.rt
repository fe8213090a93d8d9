//! What an Instructions document of the profile means: its names, encodings, walk, tree, and the paths to its leaves.
//! Definitions alone, in `specs/`, and laws about them, in `proofs/`. The profile is this project's own, after Arm's
//! machine-readable architecture (AARCHMRS); `docs/PROFILE.md` states it.
#![tactic(auto)]

mod laws;

pub use laws::{
    aliases_are_those_of_leaves, fields_are_visible, first_fault_decides, labels_tell_leaves,
    merged_is_exact, paths_are_sound, trees_are_sound,
};
