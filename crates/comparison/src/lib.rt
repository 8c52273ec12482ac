//! A network against another one, its specification: whether their events and components agree, whether each component conforms to the one in its place,
//! and what the network then inherits.
#![tactic(auto)]

mod alphabets;
mod comparing;
mod conforming;
mod events;
mod laws;
mod names;

pub use comparing::compare_networks;
pub use laws::comparison_is_exact;
