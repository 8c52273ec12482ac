//! A pool of terms, in which each process stands once, with its depth, which is how far its parts are nested, and its size, which is how many parts
//! it has, the elements of sets that were put in among them.
#![tactic(auto)]

mod changed;
mod entry;
mod kept;
pub mod node;
mod node_measures;
mod own_parts;
pub mod pool;
mod put;
mod substitute;
mod under;

pub use node::Node;
pub use pool::Pool;
pub use pool_parts::ProcId;
