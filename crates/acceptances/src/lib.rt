//! Acceptances: of the sets of events that stable terms offer, those that contain no smaller one.
#![tactic(auto)]

mod least;
mod offers;
mod rows;

pub use offers::{Offers, event_sets};
