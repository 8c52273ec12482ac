//! What the cyclic rule asks of components and of the ends of links: an order in which each component goes through its links,
//! and an end of each link that accepts all of its events wherever it accepts some.
#![tactic(auto)]

mod facts;
mod laps;
mod orders;
mod shorts;
mod whole;

pub use orders::link_orders;
pub use whole::check_ends;
