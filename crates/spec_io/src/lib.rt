//! What is told of the outside of a program: named documents, and counts of faults. Definitions alone, in `specs/`.
#![tactic(auto)]
