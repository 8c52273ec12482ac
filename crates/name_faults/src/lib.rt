//! The name fault of a script: that of the first declaration which has one, there the one with the least number, there
//! at the first name. A walk lists what a declaration says at its names and forms, and tests go through the list.
#![tactic(auto)]

mod bodies;
mod body;
mod declarations;
mod depths;
mod fault;
mod known;
mod places;
mod scan;
mod walk;

pub use fault::name_fault;
