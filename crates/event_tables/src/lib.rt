//! The field sets of channels, and the event table that they make.
//!
//! A declaration's types are evaluated once, whatever number of channels it names, and their sets are lent to its channels. Events are counted from
//! the sizes of sets before any is made.
#![tactic(auto)]

mod counts;
mod filled;
mod rows;
mod sets;
mod table;

pub use counts::event_count;
pub use filled::fill_events;
pub use sets::{SharedSets, field_sets};
