//! What the words of a command line say: the commands with their keys, and the first word that is refused.
//! Definitions alone, in `specs/`, and laws about them, in `proofs/`.
#![tactic(auto)]
