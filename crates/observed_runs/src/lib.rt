//! What is possible, and what is accepted, after runs of a component's table with something counted along them: the one
//! exploration of a table together with a small observer of its events.
#![tactic(auto)]

mod explored;
mod exploring;
mod nodes;
mod observer;
mod observers;
mod pairs;
mod steps;

pub use explored::Explored;
pub use exploring::explore;
pub use nodes::run_to_node;
pub use observer::Observer;
pub use observers::{Holder, Lap, Parity, Unwatched};
pub use pairs::Pairs;
pub use steps::steps_of;
