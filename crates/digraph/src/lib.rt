//! Digraphs as rows of targets: the longest walk from each vertex or a circle, and the vertices that walks reach.
#![tactic(auto)]

mod circle;
mod heights;
mod reach;
mod rows;
mod walks;

pub use circle::Circle;
pub use heights::Heights;
pub use reach::reachable_from;
pub use rows::Rows;
pub use walks::longest_walks;
