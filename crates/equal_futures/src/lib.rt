//! Nodes of a table with equal future: their classes, by splitters.
#![tactic(auto)]

mod classes;
mod splitters;

pub use classes::Classes;
pub use splitters::refine;
