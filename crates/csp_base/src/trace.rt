//! Traces: lists of events in the order in which they happened.

ghost use Rattle.std.specs.Prelude.{◌≡◌, List, [], ◌∷◌, ◌++◌, length, IfOk, OnOk, OnErr, nat_eq};
ghost use Rattle.std.proofs.Common.{rules};
ghost use Rattle.csp_base.specs.Standard.{pointwise, bytes_decides, comparing, same_Alike};
ghost use Rattle.std.specs.Hash as fed;

use crate::Made;
use crate::event_set::Event;
use std::alloc::Global;
use std::hash::{Hash, Hasher};
use std::marker::Model;

/// A list of events in the order in which they happened.
#[derive(Debug, Drop)]
pub struct Trace {
    events: Vec<Event>,
}

impl Model for Trace {
    ghost use Rattle.std.specs.Prelude.{List, ℕ};

    ghost Value = { List ℕ };

    ghost view = { λ t. t.events.items };
}

impl Trace {
    /// The empty trace. It takes no memory yet.
    pub fn new(alloc: Global) -> Self
        ensures { result ≡ [] }
    {
        Trace {
            events: Vec::new(alloc),
        }
    }

    /// The trace of these events.
    pub fn from_slice(alloc: Global, events: &[Event]) -> Made<Self>
        ensures { IfOk result (λ made. made ≡ events.now) }
    {
        let events = events.to_vec(alloc)?;
        Ok(Trace { events })
    }

    /// The events, in order.
    pub fn as_slice(&self) -> &[Event]
        ensures { result.now ≡ self.now }
    {
        self.events.as_slice()
    }

    /// How many events there are.
    pub fn len(&self) -> usize
        ensures { result ≡ length self.now }
    {
        self.events.len()
    }

    /// Adds an event at the end. An error changes nothing.
    pub fn push(&mut self, event: Event) -> Made<()>
        ensures ok { OnOk result (self.new ≡ self.old ++ event ∷ []) }
        ensures err { OnErr result (self.new ≡ self.old) }
    {
        self.events.push(event)?;
        Ok(())
    }
}

impl PartialEq for Trace {
    ghost eq = { pointwise nat_eq };

    ghost laws = { Prim.search (comparing, rules) };

    fn eq(&self, other: &Trace) -> bool {
        self.events == other.events
    }
}

impl Eq for Trace {
    ghost laws = { Prim.search (comparing, rules) };
}

impl Hash for Trace {
    ghost hash_input = { fed.slice fed.u32 };

    ghost respects_eq = { (same_Alike (fed.slice fed.u32) bytes_decides).fed };

    fn hash<H: Hasher>(&self, state: &mut H) {
        self.events.hash(state);
    }
}
