//! A partition of numbered nodes into blocks that are split, each at the cost of the nodes that move, and that wait to be used as
//! splitters.
#![tactic(auto)]

mod partition;

pub use partition::{Partition, whole};
