//! The labels of steps.

use csp_base::Event;

/// What is seen of a step of a process.
#[derive(Clone, Copy, PartialEq, Eq, Hash)]
pub enum Label {
    /// Nothing.
    Silent,
    /// An event.
    Visible(Event),
    /// That the process ends.
    Tick,
}
