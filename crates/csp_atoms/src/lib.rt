//! Atoms, sets of atoms of one kind, and values: what an expression of a script can be worth.
#![tactic(auto)]

pub mod atom;
pub mod atom_set;
pub mod error;
mod exact;
mod sorted;
pub mod value;

pub use atom::Atom;
pub use atom_set::AtomSet;
pub use error::MixedKinds;
pub use value::Value;
