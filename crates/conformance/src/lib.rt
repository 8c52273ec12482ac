//! Whether a component conforms to another one, its specification, decided over the normal tables of both; what is told where it does not; and what a
//! network inherits whose components all conform.
#![tactic(auto)]

mod alike;
mod conforming;
mod fault;
mod follower;
mod keys;
mod known;
mod laws;
mod nodes;
mod steps;

pub use fault::ConformFault;
pub use known::ConformingParts;
pub use laws::{conforming_networks_are_live, faults_refute_conformance, tables_tell_conformance};
