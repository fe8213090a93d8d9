//! What is counted in documents.

/// How many nodes, leaves and aliases a set has.
#[derive(Clone, Copy, PartialEq, Eq, Debug)]
pub struct SetCounts {
    pub nodes: u32,
    pub leaves: u32,
    pub aliases: u32,
}

/// How many parameters of features are boolean, how many are others, and how many constraints and atoms there are.
#[derive(Clone, Copy, PartialEq, Eq, Debug)]
pub struct FeatureCounts {
    pub booleans: u32,
    pub others: u32,
    pub constraints: u32,
    pub atoms: u32,
}

/// What was counted in each document that is named.
#[derive(Clone, Copy, PartialEq, Eq, Debug)]
pub struct Counted {
    pub set: Option<SetCounts>,
    pub features: Option<FeatureCounts>,
}
