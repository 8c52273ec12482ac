//! How many silent steps can follow one another from each term of a raw table, or a circle of them.
#![tactic(auto)]

mod silent_runs;

pub use digraph::{Circle, Heights};
pub use silent_runs::{heights, silent_rows};
