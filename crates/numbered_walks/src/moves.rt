//! Moves of a network, and a walk.

use csp_base::Event;

/// What moves a network by one step.
#[derive(Clone, Copy)]
pub enum Move {
    /// The component with this number, by a silent step.
    Silent(u32),
    /// Each component that has the event.
    Event(Event),
}

/// One walk of a network.
pub struct Walk {
    /// Its moves, the first one in front.
    pub moves: Vec<Move>,
    /// Whether the state after them has no step.
    pub is_stuck: bool,
}

impl Drop for Walk {
    fn drop(self) {
        let Walk { moves, is_stuck } = self;
    }
}
