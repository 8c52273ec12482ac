//! The parser of trees: what the tokens at the front are, within limits of nesting. It descends as the reader in the definitions does: one function reads
//! what one of its definitions reads.
//!
//! A text may nest deeper than any stack, so limits are tested while it is read. A function gives what its definition gives once the readers may
//! call one another so often: a multiple of the tokens that are left, with a rank that orders functions which call one another on the same tokens.
//! Lists are read by loops and take no stack. What was read is boxed at once, and nodes are made outside of the circle of functions: a function
//! that may stop owes the end of each tree that it owns, and a box ends by one call.
#![tactic(auto)]

mod atoms;
mod events;
mod expected;
mod expressions;
mod lists;
mod nodes;
mod processes;

pub use atoms::atom;
pub use processes::tree;
pub use tree_reading::{Limits, NoText, OrNoText, Read};
