//! Which texts are names, and things each once. Definitions alone, in `specs/`, and laws about them, in `proofs/`.
#![tactic(auto)]
