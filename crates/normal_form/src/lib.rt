//! The normal table of a component: one node for each class of traces with equal future.
#![tactic(auto)]

mod marks;
mod merge;
mod merged;
mod normal_table;

pub use determinise::SubsetLimit;
pub use normal_table::normalise;
