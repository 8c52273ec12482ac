//! What the nodes of a pool of processes are made of: the places of sub-processes, and own parts, which stand once each.
#![tactic(auto)]

pub mod measure;
pub mod measured;
mod parts;
pub mod place;
pub mod put;
pub mod store;

pub use measure::Measure;
pub use place::ProcId;
pub use put::{Put, put_values};
pub use store::{Part, Store};
