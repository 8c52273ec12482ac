//! The program of a script, or the reason why it has none.
#![tactic(auto)]

mod events;
mod resolution;

pub use resolution::resolve;
