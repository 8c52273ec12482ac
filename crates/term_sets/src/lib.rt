//! Sets of terms of a raw table: what silent steps reach, the steps by events, and the minimal acceptances, over steps that are
//! sorted out once.
#![tactic(auto)]

mod closure;
mod order;
mod prepared;
mod rows;

pub use prepared::Prepared;
