//! Whether an event is in three alphabets.

ghost use Rattle.std.specs.Prelude.{◌≡◌, ◌≤◌, ◌++◌, ◌∷◌, ℕ, List, [], IfErr, IfOk, OnOk, length};
ghost use Rattle.dl_limits.specs.declared.TheConstants.{MOST_COMPONENTS};
ghost use Rattle.csp_base.specs.Stops.{Tells};
ghost use Rattle.csp_tables.specs.Part.{TripleDisjoint};
ghost use Rattle.network_layout.specs.Triple.{AreCrowded, IsCounted, SharesEvent, alphabets, holders};

use crate::seat::{Layout, Seat};
use containers::Items;
use csp_base::{Event, EventSet, Made, Stop};
use std::alloc::Global;

/// An event in three alphabets or more.
#[derive(Clone, Copy, Drop)]
pub struct TripleFault {
    /// The least such event.
    pub event: Event,
    /// The first three components that have it.
    pub parts: (u32, u32, u32),
}

// The events of one, two and three of some alphabets, or more.
#[derive(Drop)]
struct Counted {
    once: EventSet,
    twice: EventSet,
    thrice: EventSet,
}

// Of no alphabets.
fn count_none(alloc: Global) -> Counted
    ensures { IsCounted [] result }
{
    Counted {
        once: EventSet::new(alloc),
        twice: EventSet::new(alloc),
        thrice: EventSet::new(alloc),
    }
}

// Of one alphabet more.
fn count(alloc: Global, counted: &Counted, alphabet: &EventSet) -> Made<Counted>
    ensures { (rows : List (List ℕ)) → IsCounted rows counted.now
        → IfOk result (IsCounted (rows ++ alphabet.now ∷ [])) }
{
    let again = counted.once.inter(alloc, alphabet)?;
    let more = counted.twice.inter(alloc, alphabet)?;
    let once = counted.once.union(alloc, alphabet)?;
    let twice = counted.twice.union(alloc, &again)?;
    let thrice = counted.thrice.union(alloc, &more)?;
    Ok(Counted {
        once,
        twice,
        thrice,
    })
}

// The events of three components or more.
fn events_in_three(alloc: Global, seats: &[Seat]) -> Made<EventSet>
    ensures { IfOk result (AreCrowded (alphabets seats.now)) }
{
    let mut counted = count_none(alloc);
    for seat in seats {
        counted = count(alloc, &counted, seat.alphabet())?;
    }
    Ok(counted.thrice)
}

// The components that have an event.
fn holders(alloc: Global, seats: &[Seat], event: Event) -> Made<Items<u32>>
    requires { length seats.now ≤ MOST_COMPONENTS }
    ensures { IfOk result (λ made. made ≡ holders 0 (alphabets seats.now) event) }
{
    let mut made = Items::new(alloc);
    for (part, seat) in seats.iter().enumerate() {
        if !seat.alphabet().contains(event) {
            continue;
        }
        made.push(part as u32)?;
    }
    Ok(made)
}

/// Whether no event is in three alphabets. Else the least such event is told, with the first three components that have
/// it.
pub fn triple_disjoint(alloc: Global, layout: &Layout) -> Result<(), Stop<TripleFault>>
    ensures ok { OnOk result (TripleDisjoint (alphabets layout.now)) }
    ensures shared { IfErr result (Tells (SharesEvent (alphabets layout.now))) }
{
    let seats = layout.seats();
    let crowded = events_in_three(alloc, seats)?;
    let Some(event) = crowded.first_from(Event(0)) else {
        return Ok(());
    };
    let holders = holders(alloc, seats, event)?;
    let found = holders.as_slice();
    let parts = (found[0], found[1], found[2]);
    Err(Stop::Told(TripleFault { event, parts }))
}
