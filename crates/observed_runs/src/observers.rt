//! Observers: of the place in a lap of events, of whether a number of events is odd, of a holder, and of nothing.

ghost use Rattle.std.specs.Prelude.{◌≡◌, ◌-◌, ◌<◌};
ghost use Rattle.observed_runs.specs.Observers.{holder_step, lap_step, parity_step};

use crate::observer::Observer;
use csp_base::{Event, EventSet};

/// The place in a lap: how many events of a set were done, modulo the length of the lap.
#[derive(Drop)]
pub struct Lap<'a> {
    events: &'a EventSet,
    last: u32,
}

impl<'a> Lap<'a> {
    /// The lap of `length` places along these events.
    pub fn new(events: &'a EventSet, length: u32) -> Lap<'a>
        requires { 0 < length }
        ensures events { result.events.now ≡ events.now }
        ensures last { result.last ≡ length - 1 }
    {
        Lap {
            events,
            last: length - 1,
        }
    }
}

impl<'a> Observer for Lap<'a> {
    ghost step = { λ lap state event. lap_step lap.events.now lap.last state event };

    fn next(&self, state: u32, event: Event) -> u32 {
        if !self.events.contains(event) {
            return state;
        }
        if state < self.last {
            return state + 1;
        }
        0
    }
}

/// Whether a number of events of a set is odd: 1 where it is, else 0.
#[derive(Drop)]
pub struct Parity<'a> {
    events: &'a EventSet,
}

impl<'a> Parity<'a> {
    /// The parity of the number of these events.
    pub fn new(events: &'a EventSet) -> Parity<'a>
        ensures { result.events.now ≡ events.now }
    {
        Parity { events }
    }
}

impl<'a> Observer for Parity<'a> {
    ghost step = { λ parity state event. parity_step parity.events.now state event };

    fn next(&self, state: u32, event: Event) -> u32 {
        if !self.events.contains(event) {
            return state;
        }
        if state == 0 {
            return 1;
        }
        0
    }
}

/// Who holds what is taken and given back in turn: 0 where no one does.
#[derive(Drop)]
pub struct Holder<'a> {
    holders: &'a [u32],
}

impl<'a> Holder<'a> {
    /// For each event, by its number, the one whose event it is; 0, or past the end, where it is no one's.
    pub fn new(holders: &'a [u32]) -> Holder<'a>
        ensures { result.holders.now ≡ holders.now }
    {
        Holder { holders }
    }
}

impl<'a> Observer for Holder<'a> {
    ghost step = { λ holder state event. holder_step holder.holders.now state event };

    fn next(&self, state: u32, event: Event) -> u32 {
        let Some(holder) = self.holders.get(event.0 as usize) else {
            return state;
        };
        if *holder == 0 {
            return state;
        }
        if state == 0 {
            return *holder;
        }
        0
    }
}

/// Nothing is counted: there is one state, so that an exploration finds the nodes alone.
#[derive(Drop)]
pub struct Unwatched;

impl Observer for Unwatched {
    ghost step = { λ _ state _. state };

    fn next(&self, state: u32, _event: Event) -> u32 {
        state
    }
}
