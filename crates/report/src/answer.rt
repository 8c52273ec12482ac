//! What a command is answered, with the values that its report prints. Components, declarations, nodes and events are numbered from 0.

use containers::{Boxed, Items};
use csp_base::{Bytes, Event, Place, Trace};
use csp_program::{Program, ValueKind};
use csp_tables::{Part, Rule};
use design_rules::RuleFault;
use network_trees::LayoutFault;
use numbered_walks::Move;
use process_steps::ComponentFault;
use script_names::ResolveFault;

/// Where a value is needed.
#[derive(Clone, Copy)]
pub enum Site {
    /// In the walk of the network.
    Network,
    /// In the component with this number.
    Component(u32),
    /// In the annotation of the component with this number.
    Annotation(u32),
    /// In the set of hidden events.
    HiddenSet,
}

/// Which of the texts that a request names is meant.
#[derive(Clone, Copy)]
pub enum Side {
    /// The script that is asked about: the first text.
    Script,
    /// The specification that it is compared with: the second text.
    Specification,
}

/// Why a text has no program.
pub enum TextFault {
    /// It has more than 1,048,576 bytes (36).
    TooLong,
    /// It spells no script (1).
    NoScript {
        /// Where its first piece begins that is no token; where there is none, the place of a token or of its end.
        at: Place,
    },
    /// Its script has no program (2 to 9 and 33).
    Unresolved(ResolveFault),
}

impl Drop for TextFault {
    fn drop(self) {
        match self {
            TextFault::TooLong => {}
            TextFault::NoScript { at } => {}
            TextFault::Unresolved(_) => {}
        }
    }
}

/// Why a program is refused.
pub enum Refusal {
    /// A value is needed that there isn't (2), elsewhere than in the walk of the network or the steps of a component.
    Value {
        /// Why there is none.
        kind: ValueKind,
        /// Where it is needed.
        site: Site,
    },
    /// The program spells no network.
    Network(LayoutFault),
    /// A component has no normal table.
    Component {
        /// The component.
        component: u32,
        /// Why it has none.
        fault: ComponentFault,
    },
    /// No component has the number that was asked for (35).
    NoComponent {
        /// How many components there are.
        count: u32,
    },
    /// The events of a script and of its specification differ (41).
    DifferentEvents {
        /// The least number at which the lists of their printed events differ.
        number: u32,
    },
    /// A component is in one network only, or has not the alphabet of the one in its place (42).
    DifferentComponents {
        /// The least such component.
        component: u32,
    },
    /// No data definition without parameters has the name that was asked for (37).
    NoSet,
    /// The bounds on hidden events add up to more than 64 bits hold (38).
    BoundLimit {
        /// The component in their order at which they first do.
        component: u32,
    },
}

impl Drop for Refusal {
    fn drop(self) {
        match self {
            Refusal::Value { kind, site } => {}
            Refusal::Network(_) => {}
            Refusal::Component { component, fault } => {}
            Refusal::NoComponent { count } => {}
            Refusal::DifferentEvents { number } => {}
            Refusal::DifferentComponents { component } => {}
            Refusal::NoSet => {}
            Refusal::BoundLimit { component } => {}
        }
    }
}

/// Why a network is not proved.
pub enum Shortfall {
    /// An event is in three alphabets (20).
    NotTripleDisjoint {
        /// The event.
        event: Event,
        /// The components.
        components: (u32, u32, u32),
    },
    /// A component can stop (21).
    Stops {
        /// The component.
        component: u32,
        /// Events after which it can.
        trace: Trace,
    },
    /// A rule is broken (23 to 29).
    Breaks(RuleFault),
    /// A component does what its specification does not (43).
    Outside {
        /// The component.
        component: u32,
        /// What it does; without the last event its specification does it too.
        trace: Trace,
    },
    /// A component can come to offer less than its specification has to (44).
    Refuses {
        /// The component.
        component: u32,
        /// Events after which it can.
        trace: Trace,
    },
    /// No order of the components bounds the hidden events (39).
    NoOrder {
        /// Those that have no place in it.
        components: Items<u32>,
    },
}

impl Drop for Shortfall {
    fn drop(self) {
        match self {
            Shortfall::NotTripleDisjoint { event, components } => {}
            Shortfall::Stops { component, trace } => {}
            Shortfall::Breaks(_) => {}
            Shortfall::Outside { component, trace } => {}
            Shortfall::Refuses { component, trace } => {}
            Shortfall::NoOrder { components } => {}
        }
    }
}

/// What was asked of a network and is done.
pub enum Done {
    /// The normal table of a component.
    Table {
        /// The component.
        component: u32,
        /// How many components there are.
        count: u32,
        /// Its alphabet and its table.
        part: Part,
    },
    /// The network is free of deadlock by the rule.
    DeadlockFree {
        /// The rule.
        rule: Rule,
        /// How many components the network has.
        components: u32,
        /// How many nodes their normal tables have together.
        nodes: u32,
        /// The greatest number of silent steps in a row.
        bound: u32,
        /// The greatest rank, 0 where there is none.
        greatest_rank: i64,
    },
    /// Each component of the network conforms to the one in its place in the specification.
    Conforms {
        /// How many components the network has.
        components: u32,
        /// The greatest number of silent steps of the network in a row.
        bound: u32,
    },
    /// The network was run for as many steps as were asked for, and can go on.
    Walked {
        /// The steps.
        moves: Items<Move>,
    },
    /// Hidden events of the network that follow one another are bounded.
    LivelockFree {
        /// How many components the network has.
        components: u32,
        /// At most so many steps in a row are silent or by a hidden event.
        bound: u64,
    },
}

impl Drop for Done {
    fn drop(self) {
        match self {
            Done::Table {
                component,
                count,
                part,
            } => {}
            Done::DeadlockFree {
                rule,
                components,
                nodes,
                bound,
                greatest_rank,
            } => {}
            Done::Conforms { components, bound } => {}
            Done::Walked { moves } => {}
            Done::LivelockFree { components, bound } => {}
        }
    }
}

/// What is decided of a network. Events are those of its program.
pub enum Verdict {
    /// The program of this side is refused.
    Refused(Side, Refusal),
    /// The network is not proved.
    NotProved(Shortfall),
    /// The network ran into a state without a step, by these steps.
    Stuck(Items<Move>),
    /// What was asked for is done.
    Done(Done),
}

impl Drop for Verdict {
    fn drop(self) {
        match self {
            Verdict::Refused(_, _) => {}
            Verdict::NotProved(_) => {}
            Verdict::Stuck(_) => {}
            Verdict::Done(_) => {}
        }
    }
}

/// A fault of the shelf.
#[derive(Clone, Copy)]
pub enum OutsideFault {
    /// It holds no text of the name.
    NotFound,
    /// The text could not be read.
    NotRead,
}

/// The answer to the words of a command line, with the values that its report prints.
pub enum Answer {
    /// The words are no command.
    Usage,
    /// The text of this side could not be had.
    Outside(Side, OutsideFault),
    /// The text of this side has no program.
    NoProgram(Side, TextFault),
    /// The script is shown.
    Shown {
        /// Its printed text.
        text: Bytes,
    },
    /// What is decided of a network: events are those of this program.
    Decided(Boxed<Program>, Verdict),
}

impl Drop for Answer {
    fn drop(self) {
        match self {
            Answer::Usage => {}
            Answer::Outside(_, _) => {}
            Answer::NoProgram(_, _) => {}
            Answer::Shown { text } => {}
            Answer::Decided(_, _) => {}
        }
    }
}
