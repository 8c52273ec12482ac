//! What the rule of users and resources asks of kinds, and of each resource: U1, that a user and a resource are at each link, U2,
//! that each resource is acquired and released in turn, and U3, that it grants what is asked. And the search for the first
//! component that breaks a condition.
#![tactic(auto)]

mod checking;
mod kinds;
mod resources;
mod tests;

pub use checking::{Decider, check};
pub use kinds::check_kinds;
pub use resources::{check_grants, check_turns};
