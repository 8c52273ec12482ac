//! The typed trees of a script: its expressions, processes and networks, once each of their names has its meaning.
#![tactic(auto)]

mod calls;
mod counts;
mod expressions;
mod names;
mod networks;
mod processes;
mod walk;

pub use walk::Walk;
