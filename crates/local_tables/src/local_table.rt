//! The table of a component, and the room for it.

ghost use Rattle.std.specs.Prelude.{◌≡◌, ◌<◌, ◌^◌};

use csp_tables::RawTable;
use std::marker::Model;

/// Room for terms and steps. The sizes of terms have room for less than 4,294,967,295 together, at which the measure of a term stops.
#[derive(Clone, Copy)]
pub struct Room {
    nodes: u32,
    steps: u32,
}

impl Model for Room {
    ghost use Rattle.std.specs.Prelude.{◌<◌};
    ghost use Rattle.local_tables.specs.Room.{Room as RoomValue};

    ghost Value = { RoomValue };

    ghost view = { λ r. record { nodes = r.nodes; steps = r.steps } };

    ghost inverse = { λ room. record { nodes = room.nodes; steps = room.steps } };

    ghost invariant = { λ r. r.nodes < 4294967295 };
}

impl Room {
    /// Room for these sizes and so many steps.
    pub fn new(nodes: u32, steps: u32) -> Room
        requires { nodes < 4294967295 }
        ensures { result ≡ record { nodes = nodes; steps = steps } }
    {
        Room { nodes, steps }
    }

    /// The room for the sizes of terms together.
    pub fn nodes(&self) -> u32
        ensures value { result ≡ self.now.nodes }
        ensures few { self.now.nodes < 4294967295 }
    {
        self.nodes
    }

    /// The room for steps.
    pub fn steps(&self) -> u32
        ensures value { result ≡ self.now.steps }
        ensures few { self.now.steps < 2 ^ 32 }
    {
        self.steps
    }
}

/// The table of a component.
pub struct LocalTable {
    /// The terms by their numbers, with their steps.
    pub table: RawTable,
    /// How much room they take.
    pub used: Room,
}

impl Drop for LocalTable {
    fn drop(self) {
        let LocalTable { table, used } = self;
    }
}
