//! Functions that expressions call.

use mrs_names::NameId;

/// A function: one with a meaning of its own, or any other by its name.
#[derive(Clone, Copy, PartialEq, Eq, Hash, Debug)]
pub enum Func {
    UInt,
    IsZero,
    IsOnes,
    IsFeatureImplemented,
    Named(NameId),
}
