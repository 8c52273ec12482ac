//! The plain values that every other crate speaks of: events, sets of events, traces, byte strings, names, places in a text
//! and want of memory.
#![tactic(auto)]

mod block_order;
mod blocks;
pub mod bytes;
pub mod event_set;
pub mod members;
pub mod operators;
pub mod place;
pub mod stop;
pub mod trace;

pub use bytes::{Bytes, Name};
pub use event_set::{Event, EventSet};
pub use members::Members;
pub use operators::{BinOp, SetOp};
pub use place::Place;
pub use std::alloc::AllocError as NoMemory;

/// What a call makes, unless memory runs out.
pub type Made<T> = Result<T, NoMemory>;

pub use stop::Stop;
pub use trace::Trace;
