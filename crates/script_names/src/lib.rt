//! What the names of a script stand for, which of its declarations are at fault, and the program that a faultless script is.
#![tactic(auto)]

pub mod fault;
pub mod kinds;
pub mod occurrence;

pub use fault::ResolveFault;
pub use kinds::{Class, End, Entity, Kind, Need, Place, Sense, Use};
pub use occurrence::Occurrence;
