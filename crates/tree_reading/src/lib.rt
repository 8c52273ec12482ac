//! The reading of trees within limits: looks at tokens, limits and nodes.
//!
//! What is read keeps its depth beside it (`Deep`). So a tree that turns out to be the first part of a node is not walked again.
#![tactic(auto)]

pub mod deep;
pub mod fault;
pub mod laws;
pub mod limits;
pub mod look;
pub mod read;

pub use fault::{NoText, OrNoText};
pub use limits::Limits;
pub use read::{Binding, BoundRead, Read};
