//! The printed text of a script: one declaration a line, one space between tokens, and parentheses where an operand is no atom.
//!
//! What is printed is what the tree holds: comments, skipped assertions and the model of an assertion leave no trace. An operand of depth d opens
//! at most 2d brackets, so printing keeps within the limits.
#![tactic(auto)]

mod lines;
mod numbers;
mod print;
pub mod shape;
mod shapes;
mod tokens;
mod trees;

pub use print::print_script;
pub use shape::Shape;
pub use shapes::shape_of;
