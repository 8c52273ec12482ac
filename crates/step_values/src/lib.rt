//! The values that the steps of processes need, computed: conditions, sets, arguments, heads of prefixes and renamings.
//!
//! A renaming is read binding by binding: the old side first, then all values of the new side, then each new event.
#![tactic(auto)]

pub mod heads;
pub mod images;
pub mod needed;
mod renamed;
pub mod renaming;

pub use heads::{Start, of_head};
pub use images::{Images, images_by_event, images_of};
pub use needed::{arguments_in, events_in, set_in, truth_in};
pub use renaming::renaming_in;
