//! What is explored.

use crate::local_table::Room;
use csp_base::EventSet;
use csp_program::{Proc, Program};

/// A component of a program, and the room for its table.
#[derive(Drop)]
pub struct Task<'a> {
    /// The program.
    pub program: &'a Program,
    /// The component's own term.
    pub start: &'a Proc,
    /// The events that it takes part in.
    pub alphabet: &'a EventSet,
    /// The room.
    pub room: Room,
}
