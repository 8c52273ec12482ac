//! Determinisation of raw tables: a node for each set of terms that a trace leads to, with its minimal acceptances.
#![tactic(auto)]

mod explore;
mod fault;
mod known;
mod node;
mod sets;
mod table;

pub use explore::determinise;
pub use fault::SubsetLimit;
pub use table::SetTable;
