//! What each definition of a script is: data, a process or neither, and whether it is a network definition.
#![tactic(auto)]

mod arcs;
mod kinds;
mod leading;

pub use kinds::kinds_of;
