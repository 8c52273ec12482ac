//! The normal table of one component of a network.
//!
//! The component is explored alone, with the whole room, and a fault is told under its number in the network. What is told is the table that rules
//! read.
#![tactic(auto)]

mod tabulating;

pub use tabulating::tabulate;
