//! What readers of JSON documents have in common: places as JSON Pointers, the events of a walk and its first fault.
//! Definitions alone, in `specs/`, and laws about them, in `proofs/`.
#![tactic(auto)]
