//! A bound on the hidden events of a network.
#![tactic(auto)]

mod bounding;
mod laws;
mod named;

pub use bounding::bound_hidden;
pub use laws::verdicts_agree;
