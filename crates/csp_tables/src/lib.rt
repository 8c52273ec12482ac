//! The tables of components and what they mean: labels, runs, networks of components, and when a network is live.
#![tactic(auto)]

mod norm_table;
mod part;
mod ranking;
mod raw_table;
mod role_sets;
mod rule;
mod shape;
mod use_sets;

pub use norm_table::{NormNode, NormTable};
pub use part::Part;
pub use ranking::{PartRanks, Ranking};
pub use raw_table::RawTable;
pub use role_sets::RoleSets;
pub use rule::Rule;
pub use shape::{Link, Shape};
pub use use_sets::UseSets;
