//! The components of a network: from the program to the list of its seats.
#![tactic(auto)]

mod components;
mod seat;
mod told;
mod triple;
mod values;
mod walk;

pub use components::layout;
pub use seat::{Layout, Seat};
pub use told::{NotedFault, roles_of, uses_of};
pub use triple::{TripleFault, triple_disjoint};
