//! The layout of a program's network.

ghost use Rattle.std.specs.Prelude.{◌≡◌, [], IfErr, IfOk};
ghost use Rattle.std.specs.List.{range_with_len};
ghost use Rattle.network_trees.specs.NetworkOf.{all_events, network_of};
ghost use Rattle.network_layout.specs.Lays.{AreSeats, Fails, whole_walk};

use crate::seat::Layout;
use crate::values::Scope;
use crate::walk::walk;
use csp_base::{Event, EventSet, Made, Stop};
use csp_program::Program;
use dl_limits::MOST_NETWORK_DEPTH;
use network_trees::LayoutFault;
use std::alloc::Global;

// The first `count` events.
#[tactic(auto, using(crate::proofs::FirstEvents::next_event))]
fn first_events(alloc: Global, count: u32) -> Made<EventSet>
    ensures { IfOk result (λ made. made ≡ range_with_len 0 count) }
{
    let mut events = EventSet::new(alloc);
    for number in 0..count {
        events.insert(Event(number))?;
    }
    Ok(events)
}

// All events of a program. Its contract says that it is in order, so that 32 bits number them.
fn all_events(alloc: Global, program: &Program) -> Made<EventSet>
    ensures { IfOk result (λ made. made ≡ all_events program.now) }
{
    let content = program.content();
    first_events(alloc, content.events.len() as u32)
}

// The components that the walk of a program's network meets.
fn seats_of(alloc: Global, program: &Program) -> Result<Layout, Stop<LayoutFault>>
    ensures seats { IfOk result (AreSeats (whole_walk program.now)) }
    ensures fault { IfErr result (Fails (whole_walk program.now)) }
{
    let events = all_events(alloc, program)?;
    let scope = Scope {
        alloc,
        program,
        params: &[],
        args: &[],
        bound: &[],
        levels: MOST_NETWORK_DEPTH,
    };
    let mut seats = Layout::new(alloc);
    walk(&scope, &program.content().root, &events, &mut seats)?;
    Ok(seats)
}

/// The components of the network that a program spells, from left to right. A fault is the first that its walk meets.
pub fn layout(alloc: Global, program: &Program) -> Result<Layout, Stop<LayoutFault>>
    ensures seats { IfOk result (AreSeats (network_of program.now)) }
    ensures fault { IfErr result (Fails (network_of program.now)) }
{
    let seats = seats_of(alloc, program)?;
    if seats.len() == 0 {
        return Err(Stop::Told(LayoutFault::EmptyNetwork));
    }
    Ok(seats)
}
