//! Why a network does not meet a rule.

use crate::condition::Condition;
use containers::Items;
use csp_base::{Event, Trace};

/// Why a network does not meet a rule.
#[derive(Drop)]
pub enum RuleFault {
    /// A component goes through its links in no fixed order: the event is possible after the trace, and it clashes with one
    /// that is possible after a trace that is not longer.
    NoOrder {
        /// The place of the component.
        part: u32,
        /// Events after which it breaks the order.
        trace: Trace,
        /// The event by which it does.
        event: Event,
    },
    /// On a link each end, after its trace, accepts some of the link's events and not all.
    NoWholeEnd {
        /// The place of the link's left component.
        left: u32,
        /// The place of its right component.
        right: u32,
        /// Events after which the left end falls short.
        left_trace: Trace,
        /// Events after which the right end does.
        right_trace: Trace,
    },
    /// The least condition of the rule that is broken, the first component that breaks it, and a run after which it does.
    Broken {
        /// The condition.
        condition: Condition,
        /// The place of the component. Where a link breaks it (S2, U1), its left end.
        part: u32,
        /// Events after which the component breaks it; none for S1, S2 and U1.
        trace: Trace,
    },
    /// Links that must come before one another: each before the next one, and the last before the first.
    LinksCircle {
        /// The places of the two components of each link.
        links: Items<(u32, u32)>,
    },
    /// Components that are clients of one another: each of the next one, and the last of the first.
    ClientsCircle {
        /// The places of the components.
        clients: Items<u32>,
    },
    /// Resources that are held while others are offered for acquisition: each while the next one is, and the last while the
    /// first is.
    ResourcesCircle {
        /// The places of the resources.
        resources: Items<u32>,
    },
}
