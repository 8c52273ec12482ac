//! One walk of components that are given by their tables: what each can do next, which events all of their owners offer, and the options that numbers
//! choose one after another.
#![tactic(auto)]

mod agreement;
mod draws;
mod marks;
mod mover;
mod moves;
mod numbers;
mod owners;
mod rows;
mod standing;
mod walking;

pub use mover::Mover;
pub use moves::{Move, Walk};
pub use walking::walk;
