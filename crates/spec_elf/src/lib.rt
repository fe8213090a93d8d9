//! Definitions of the executable sections of an ELF file, and of why a file is refused. Definitions in `specs/`, and worked
//! values of them in `proofs/`.
#![tactic(auto)]
