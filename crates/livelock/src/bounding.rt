//! A bound on the hidden events of a network.

ghost use Rattle.std.specs.Prelude.{◌≡◌, ◌<◌, ◌^◌, length};
ghost use Rattle.csp_tables.specs.Network.{leaves};
ghost use Rattle.report.specs.Stops.{Answers};
ghost use Rattle.report.specs.declared.answer.Done.TheVariants as done;
ghost use Rattle.livelock.specs.Bounded.{IsBounded, OrderDecides};
ghost use Rattle.livelock.specs.Stopping.{halt_of, verdict_of};

use crate::named::{expression_named, hidden_set};
use csp_base::{EventSet, Stop};
use hidden_bounds::{LoopFault, livelock};
use network_stages::{Spelled, Tabled, make_tables};
use report::{Done, Halt, Refusal, Shortfall, Side, Verdict};
use std::alloc::Global;

// The verdict on a network that has no bound.
fn no_order(fault: LoopFault) -> Verdict
    ensures { result ≡ verdict_of fault }
{
    match fault {
        LoopFault::NoOrder { parts } => {
            Verdict::NotProved(Shortfall::NoOrder { components: parts })
        }
        LoopFault::BoundLimit { part } => {
            Verdict::Refused(Side::Script, Refusal::BoundLimit { component: part })
        }
    }
}

// How it is told why no bound is printed.
fn no_bound(why: Stop<LoopFault>) -> Halt
    ensures { result ≡ halt_of why }
{
    match why {
        Stop::NoMemory => Halt::NoMemory,
        Stop::Told(fault) => Halt::Told(no_order(fault)),
    }
}

// What is told of a network with this bound.
fn livelock_free(network: &Spelled, bound: u64) -> Done
    ensures told { result ≡ done.LivelockFree (length (leaves network.now.tree)) bound }
    ensures fits { bound < 2 ^ 64 }
{
    Done::LivelockFree {
        components: network.seats().len() as u32,
        bound,
    }
}

// The bound of a network with these events hidden, or why none is told.
fn bound_with(alloc: Global, tabled: &Tabled<'_>, events: &EventSet) -> Result<Done, Halt>
    ensures { Answers (OrderDecides tabled.now.network events.now) result }
{
    let network = tabled.network();
    match livelock(
        alloc,
        network.program(),
        network.seats(),
        tabled.tables(),
        events,
    ) {
        Ok(found) => Ok(livelock_free(network, found.bound)),
        Err(why) => Err(no_bound(why)),
    }
}

/// The bound on the hidden events of a network, where the events of the set with this name are hidden.
pub fn bound_hidden(alloc: Global, network: &Spelled, name: &[u8]) -> Result<Done, Halt>
    ensures { Answers (IsBounded network.now name.now) result }
{
    let expr = expression_named(network.program(), name)?;
    let events = hidden_set(alloc, network.program(), expr)?;
    let tabled = make_tables(alloc, network)?;
    bound_with(alloc, &tabled, &events)
}
