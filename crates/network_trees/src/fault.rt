//! Why a program spells no network.

use csp_base::Event;
use csp_program::ValueKind;

/// The first fault that the walk of a network meets.
pub enum LayoutFault {
    /// A value is needed that there isn't (2).
    Value {
        /// The kind of fault.
        kind: ValueKind,
    },
    /// The alphabet of an operand is not that of its components together (14).
    BadNesting {
        /// The number of the operand's first component.
        first: u32,
        /// How many components it has.
        count: u32,
        /// The least event that only one of the two has.
        event: Event,
    },
    /// The network has no components (15).
    EmptyNetwork,
    /// The network has more than 512 components (16).
    ComponentLimit,
    /// The network is nested deeper than 800 (34).
    NetworkDepth,
}

impl Drop for LayoutFault {
    fn drop(self) {
        match self {
            LayoutFault::Value { kind } => {}
            LayoutFault::BadNesting {
                first,
                count,
                event,
            } => {}
            LayoutFault::EmptyNetwork => {}
            LayoutFault::ComponentLimit => {}
            LayoutFault::NetworkDepth => {}
        }
    }
}
