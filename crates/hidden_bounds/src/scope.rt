//! What each function here reads: where memory comes from, the program, components, tables, hidden events.

ghost use Rattle.std.specs.Prelude.{◌≡◌, ◌<◌, length, IfOk};
ghost use Rattle.csp_base.specs.Events.{inter_of, meets_of};
ghost use Rattle.hidden_bounds.specs.Taking.{alphabet_at};

use csp_base::{EventSet, Made};
use csp_program::Program;
use network_layout::Seat;
use network_stages::ComponentTable;
use std::alloc::Global;

// What each function here reads: where memory comes from, the program, components, tables, hidden events.
#[derive(Drop)]
pub(crate) struct Scope<'a> {
    /// Where memory comes from.
    pub alloc: Global,
    /// The program of the network.
    pub program: &'a Program,
    /// The components.
    pub seats: &'a [Seat],
    /// Their tables.
    pub tables: &'a [ComponentTable],
    /// The hidden events.
    pub hidden: &'a EventSet,
}

// The hidden events of a component.
pub(crate) fn hidden_of(scope: &Scope<'_>, part: u32) -> Made<EventSet>
    requires { part < length scope.now.seats.now }
    ensures { IfOk result (λ made. made ≡ inter_of scope.now.hidden.now (alphabet_at scope.now.seats.now part)) }
{
    let own = scope.seats[part as usize].alphabet();
    scope.hidden.inter(scope.alloc, own)
}

// Whether a component has one of these events.
pub(crate) fn shares(scope: &Scope<'_>, part: u32, events: &EventSet) -> bool
    requires { part < length scope.now.seats.now }
    ensures { result ≡ meets_of (alphabet_at scope.now.seats.now part) events.now }
{
    scope.seats[part as usize].alphabet().meets(events)
}
