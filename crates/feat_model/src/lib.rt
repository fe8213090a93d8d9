//! Features as clauses: which configurations fit, which one is first, or a log that shows that none fits.
#![tactic(auto)]

mod asking;
mod atoms;
mod clauses;
mod configuring;
mod connective;
mod encoder;
mod faults;
mod formula;
mod kinds;
mod making;
mod model;
mod operators;
mod outcome;
mod parameters;
mod pin;
mod scope;
mod translation;

pub use configuring::configure;
pub use faults::ModelFault;
pub use feat_proof::NoMemory;
pub use kinds::is_boolean;
pub use model::Model;
pub use outcome::Outcome;
pub use pin::Pin;
