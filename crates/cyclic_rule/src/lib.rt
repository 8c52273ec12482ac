//! The cyclic rule, decided over the shape of a network: its ranking, or what breaks the rule.
#![tactic(auto)]

mod ends;
mod numbers;
mod rule;

pub use rule::cyclic;
